//! How the end of a run is answered and reported.

ghost use Rattle.std.specs.Prelude.{◌≡◌, ◌≤◌, IfOk, MatchOption, Some, None};
ghost use Rattle.ep_drive.specs.Executions.{answer_status, answer_line};
ghost use Rattle.ep_drive.specs.Outcomes.{IsToldAs, error_line};

use crate::report::report_line;
use crate::status::Status;
use ep_base::{Line, Name, NoMemory};
use ep_machine::End;
use ep_outside::Sink;
use std::alloc::Global;

/// Reports how a run ended where there is something to report, and tells the status.
pub fn tell<R: Sink>(alloc: Global, end: &End, report: &mut R) -> Status
    ensures told { IsToldAs (answer_status end.now) (answer_line end.now) result
        (R.held report.old) (R.held report.new) (R.faults report.old) (R.faults report.new) }
    ensures faults { R.faults report.old ≤ R.faults report.new }
{
    match line_of(alloc, end) {
        Ok(Some(line)) => report_line(line.as_slice(), status_of(end), report),
        Ok(None) => status_of(end),
        Err(_) => Status::NoMemory,
    }
}

/// The status of a run that ended so.
fn status_of(end: &End) -> Status
    ensures { result ≡ answer_status end.now }
{
    match end {
        End::Normal => Status::Done,
        End::Halt => Status::Halted,
        End::Error { .. } => Status::RunError,
        End::Budget => Status::Budget,
        End::Broken { .. } => Status::BrokenImage,
        End::ReadFault => Status::ReadFault,
        End::WriteFault => Status::WriteFault,
        End::FileFault => Status::FileFault,
        End::NoMemory => Status::NoMemory,
    }
}

/// The line that reports such an end, where there is one.
fn line_of(alloc: Global, end: &End) -> Result<Option<Vec<u8>>, NoMemory>
    ensures { IfOk result (λ line. MatchOption line (answer_line end.now ≡ None)
        (λ text. answer_line end.now ≡ Some text.items)) }
{
    match end {
        End::Error { number, unit, line } => Ok(Some(error_line(alloc, *number, unit, *line)?)),
        End::Budget => Ok(Some(Vec::from_slice(alloc, b"budget spent\n")?)),
        End::Broken { pc } => {
            let text = format!(in alloc; "broken image at {pc}\n")?;
            Ok(Some(text.into_bytes()))
        }
        End::Normal
        | End::Halt
        | End::ReadFault
        | End::WriteFault
        | End::FileFault
        | End::NoMemory => Ok(None),
    }
}

/// The line that reports an error.
fn error_line(alloc: Global, number: u8, unit: &Name, line: Line) -> Result<Vec<u8>, NoMemory>
    ensures { IfOk result (λ text. text.items ≡ error_line number unit.now line) }
{
    let mut text = format!(in alloc; "error {number} in ")?.into_bytes();
    text.extend_from_slice(unit.bytes())?;
    text.extend_from_slice(format!(in alloc; " at line {line}\n")?.as_bytes())?;
    Ok(text)
}
