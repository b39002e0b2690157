//! The one call that the program makes.

ghost use Rattle.ep_drive.specs.Calls.{Answers, IsCall};
ghost use Rattle.ep_drive.specs.Commands.{bytes_of};
ghost use Rattle.ep_drive.specs.Seen.{NoneFell, seen, seen_of};

use crate::go::go;
use crate::report::{Refusal, refuse};
use crate::status::Status;
use crate::words::{Command, command_of};
use ep_outside::{Files, Sink, Source};
use std::alloc::Global;

/// Carries out the command that the words are. `words` are those after the program's own name.
///
/// The contract is the record `IsCall` of specs/Calls.antt, of the words, the answer, and what is seen of the outside
/// before and after the call. Its clauses: `verdict` (a refusal is the verdict on the words and the files), `certain`
/// (a verdict that must be is answered), `finished` (a job was done within its budget, and nothing else), `run` (how
/// it ended by the meaning), `enough` (with budget enough it comes to its end), `part` (what a fault or want of memory
/// leaves done), `faults`, `untouched` and `quiet`.
pub fn epc<F: Files, I: Source, O: Sink, R: Sink>(
    alloc: Global,
    words: &Vec<String>,
    files: &mut F,
    input: &mut I,
    output: &mut O,
    report: &mut R,
) -> Status
    ensures call { IsCall result (bytes_of words.now.items)
        (seen (O.held output.old) (F.files files.old) (I.left input.old) (R.held report.old)
        (O.faults output.old) (F.faults files.old) (I.faults input.old) (R.faults report.old))
        (seen (O.held output.new) (F.files files.new) (I.left input.new) (R.held report.new)
        (O.faults output.new) (F.faults files.new) (I.faults input.new) (R.faults report.new)) }
{
    carry_out(alloc, words.as_slice(), files, input, output, report)
}

/// Carries out a command, with all that its answer says in one sentence.
fn carry_out<F: Files, I: Source, O: Sink, R: Sink>(
    alloc: Global,
    words: &[String],
    files: &mut F,
    input: &mut I,
    output: &mut O,
    report: &mut R,
) -> Status
    ensures answers { Answers result (bytes_of words.now)
        (seen_of F.Files I.Source O.Sink R.Sink files.old input.old output.old report.old)
        (seen_of F.Files I.Source O.Sink R.Sink files.new input.new output.new report.new) }
    ensures counts { NoneFell
        (seen_of F.Files I.Source O.Sink R.Sink files.old input.old output.old report.old)
        (seen_of F.Files I.Source O.Sink R.Sink files.new input.new output.new report.new) }
{
    match command_of(words) {
        Some(Command::Go { budget, source }) => {
            go(alloc, budget, source, files, input, output, report)
        }
        None => refuse(alloc, &Refusal::Usage, report),
    }
}
