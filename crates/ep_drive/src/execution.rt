//! The image of a program, and its run on the machine.

ghost use Rattle.std.specs.Prelude.{◌≡◌, ◌<◌, ◌≤◌, ◌^◌, ◌∷◌, [], ℕ, List, length, IfOk, MatchResult};
ghost use Rattle.ep_machine.specs.Answers.{OnWriteFaultEnd, outside};
ghost use Rattle.ep_simulation.specs.Implements.{Implements};
ghost use Rattle.ep_meaning.specs.Units.{IsValid};
ghost use Rattle.ep_typed.specs.declared.unit.Unit.{Unit as TypedUnit};
ghost use Rattle.ep_drive.specs.Executions.{CameTo, IsImageOf};
ghost use Rattle.ep_drive.specs.GoRuns.{run_within};
ghost use Rattle.ep_drive.specs.Jobs.{AnswersJob};
ghost use Rattle.ep_drive.specs.ProgramTexts.{Joins};
ghost use Rattle.ep_drive.specs.Refusals.{StopsText};
ghost use Rattle.ep_drive.specs.Seen.{NoneFell, seen_of};
ghost use Rattle.ep_drive.specs.Statuses.{kind_of};
ghost use Rattle.ep_drive.specs.Verdicts.{Go};

use crate::image::image_alone;
use crate::outcome::tell;
use crate::source::{SourceStop, read_program};
use crate::status::Status;
use ep_base::NoMemory;
use ep_gen_unit::program_code;
use ep_machine::{End, Machine};
use ep_object::Image;
use ep_outside::{Files, Sink, Source};
use ep_token::MAX_SOURCE;
use ep_typed::Unit;
use std::alloc::Global;

/// Runs an image within a budget of ticks, and then reports how the run ended.
pub fn run_and_tell<F: Files, I: Source, O: Sink, R: Sink>(
    alloc: Global,
    image: &Image,
    budget: u64,
    files: &mut F,
    input: &mut I,
    output: &mut O,
    report: &mut R,
) -> Status
    requires { budget < 2 ^ 61 }
    ensures answers { (texts : List (List ℕ)) (units : List TypedUnit) → Joins texts units → Implements image.now units
        → AnswersJob (kind_of result) (Go budget texts) result
        (seen_of F.Files I.Source O.Sink R.Sink files.old input.old output.old report.old)
        (seen_of F.Files I.Source O.Sink R.Sink files.new input.new output.new report.new) }
    ensures files { files.new ≡ files.old }
    ensures input { input.new ≡ input.old }
    ensures counts { NoneFell
        (seen_of F.Files I.Source O.Sink R.Sink files.old input.old output.old report.old)
        (seen_of F.Files I.Source O.Sink R.Sink files.new input.new output.new report.new) }
{
    match run_image(alloc, image, budget, files, input, output) {
        End::WriteFault => Status::WriteFault,
        End::NoMemory => Status::NoMemory,
        end => tell(alloc, &end, report),
    }
}

/// An image that does what the program of a text means.
pub fn text_image(alloc: Global, text: &[u8]) -> Result<Image, SourceStop>
    requires { length text.now ≤ MAX_SOURCE }
    ensures { MatchResult result (λ image. IsImageOf text.now image) (StopsText text.now) }
{
    let unit = read_program(alloc, text)?;
    let image = unit_image(alloc, &unit)?;
    Ok(image)
}

/// An image that does what a valid program means.
fn unit_image(alloc: Global, unit: &Unit) -> Result<Image, NoMemory>
    requires { IsValid [] unit.now }
    ensures { IfOk result (λ image. Implements image (unit.now ∷ [])) }
{
    let object = program_code(alloc, unit)?;
    image_alone(alloc, object)
}

/// Runs an image within a budget of ticks.
fn run_image<F: Files, I: Source, O: Sink>(
    alloc: Global,
    image: &Image,
    budget: u64,
    files: &mut F,
    input: &mut I,
    output: &mut O,
) -> End
    requires { budget < 2 ^ 61 }
    ensures came { CameTo result (run_within budget image.now)
        (outside (O.held output.old) (F.files files.old)) (outside (O.held output.new) (F.files files.new)) }
    ensures fault { OnWriteFaultEnd result (O.faults output.old < O.faults output.new) }
    ensures counts { O.faults output.old ≤ O.faults output.new }
    ensures files { files.new ≡ files.old }
    ensures input { input.new ≡ input.old }
{
    let Ok(mut machine) = Machine::new(alloc, image) else {
        return End::NoMemory;
    };
    machine.run(budget, files, input, output)
}
