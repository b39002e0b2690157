//! The command `go`.

ghost use Rattle.std.specs.Prelude.{◌<◌, ◌≤◌, ◌^◌, ◌∷◌, [], List, ℕ, Option, Some, length};
ghost use Rattle.ep_outside.specs.Known.{Directory, KeepsFiles, HasFile};
ghost use Rattle.ep_drive.specs.Calls.{Answers};
ghost use Rattle.ep_drive.specs.Commands.{Go, WordsOf};
ghost use Rattle.ep_drive.specs.Seen.{NoneFell, seen_of};

use crate::execution::{run_and_tell, text_image};
use crate::report::{Refusal, refuse};
use crate::source::SourceStop;
use crate::status::Status;
use ep_outside::{Files, LoadAnswer, Sink, Source};
use ep_token::MAX_SOURCE;
use std::alloc::Global;

/// Loads a source, and runs it within a budget of ticks where it is a program.
pub fn go<F: Files, I: Source, O: Sink, R: Sink>(
    alloc: Global,
    budget: u64,
    source: &str,
    files: &mut F,
    input: &mut I,
    output: &mut O,
    report: &mut R,
) -> Status
    requires { budget < 2 ^ 61 }
    ensures answers { (words : List (List ℕ)) → WordsOf words (Go budget (source.now ∷ [])) → Answers result words
        (seen_of F.Files I.Source O.Sink R.Sink files.old input.old output.old report.old)
        (seen_of F.Files I.Source O.Sink R.Sink files.new input.new output.new report.new) }
    ensures counts { NoneFell
        (seen_of F.Files I.Source O.Sink R.Sink files.old input.old output.old report.old)
        (seen_of F.Files I.Source O.Sink R.Sink files.new input.new output.new report.new) }
{
    let mut text = Vec::new(alloc);
    match files.load(source.as_bytes(), MAX_SOURCE as u32, &mut text) {
        LoadAnswer::Held => {
            go_text(
                alloc,
                budget,
                source,
                text.as_slice(),
                files,
                input,
                output,
                report,
            )
        }
        LoadAnswer::Missing => refuse(alloc, &Refusal::Missing(source), report),
        LoadAnswer::TooLong(bytes) => refuse(alloc, &Refusal::TooLong(source, bytes), report),
        LoadAnswer::Failed => Status::FileFault,
        LoadAnswer::NoMemory => Status::NoMemory,
    }
}

/// Runs a text that was loaded, where it is a program.
fn go_text<F: Files, I: Source, O: Sink, R: Sink>(
    alloc: Global,
    budget: u64,
    source: &str,
    text: &[u8],
    files: &mut F,
    input: &mut I,
    output: &mut O,
    report: &mut R,
) -> Status
    requires budget { budget < 2 ^ 61 }
    requires short { length text.now ≤ MAX_SOURCE }
    ensures answers { (words : List (List ℕ)) (before : Option Directory) (n : ℕ)
        → WordsOf words (Go budget (source.now ∷ [])) → HasFile before source.now (Some text.now) → KeepsFiles before (F.files files.old)
        → Answers result words
        (record (seen_of F.Files I.Source O.Sink R.Sink files.old input.old output.old report.old) {
          files = before;
          file_faults = n;
        })
        (seen_of F.Files I.Source O.Sink R.Sink files.new input.new output.new report.new) }
    ensures counts { NoneFell
        (seen_of F.Files I.Source O.Sink R.Sink files.old input.old output.old report.old)
        (seen_of F.Files I.Source O.Sink R.Sink files.new input.new output.new report.new) }
{
    let image = match text_image(alloc, text) {
        Ok(image) => image,
        Err(SourceStop::Refused(why)) => {
            return refuse(alloc, &Refusal::InSource(source, why), report);
        }
        Err(SourceStop::NoMemory) => return Status::NoMemory,
    };
    run_and_tell(alloc, &image, budget, files, input, output, report)
}
