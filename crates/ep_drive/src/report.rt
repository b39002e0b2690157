//! Refusals, and how the one line of a report is written.

ghost use Rattle.std.specs.Prelude.{◌≡◌, ◌≤◌, ◌++◌, codes, decimal, IfOk, Some};
ghost use Rattle.ep_drive.specs.Refusals.{InSource, IsRefusal, RefusesSome, on_line, report_of, status_of};
ghost use Rattle.ep_drive.specs.Outcomes.{IsToldAs};
ghost use Rattle.ep_drive.specs.Asked.{refused_by};
ghost use Rattle.ep_drive.specs.declared.source.SourceRefusal.TheVariants as source;

use crate::source::SourceRefusal;
use crate::status::Status;
use ep_base::{Line, Name, NoMemory};
use ep_check_expr::Broken;
use ep_outside::{Sink, WriteAnswer};
use ep_parse::ParseRefusal;
use ep_token::TokenRefusal;
use std::alloc::Global;

/// Why a call is refused.
#[derive(Drop)]
pub enum Refusal<'a> {
    /// The words are no command.
    Usage,
    /// This file is not there.
    Missing(&'a str),
    /// This file has this many bytes, more than its limit.
    TooLong(&'a str, u64),
    /// The text of this file is refused so.
    InSource(&'a str, SourceRefusal),
}

/// Reports a refusal, and tells how the call ends.
pub fn refuse<R: Sink>(alloc: Global, refusal: &Refusal, report: &mut R) -> Status
    requires { IsRefusal (refused_by refusal.now) }
    ensures told { IsToldAs (status_of (refused_by refusal.now)) (Some (report_of (refused_by refusal.now))) result
        (R.held report.old) (R.held report.new) (R.faults report.old) (R.faults report.new) }
    ensures faults { R.faults report.old ≤ R.faults report.new }
{
    match line_of(alloc, refusal) {
        Ok(line) => report_line(line.as_slice(), status_of(refusal), report),
        Err(_) => Status::NoMemory,
    }
}

/// Reports a line by one write, and tells how the call ends: with its own status where the whole line was written.
pub fn report_line<R: Sink>(line: &[u8], own: Status, report: &mut R) -> Status
    ensures told { IsToldAs own (Some line.now) result
        (R.held report.old) (R.held report.new) (R.faults report.old) (R.faults report.new) }
    ensures faults { R.faults report.old ≤ R.faults report.new }
{
    match report.write(line) {
        WriteAnswer::Done => own,
        WriteAnswer::Failed => Status::WriteFault,
        WriteAnswer::NoMemory => Status::NoMemory,
    }
}

/// The status of a refusal.
fn status_of(refusal: &Refusal) -> Status
    ensures { result ≡ status_of (refused_by refusal.now) }
{
    match refusal {
        Refusal::Usage => Status::Usage,
        Refusal::Missing(_) | Refusal::TooLong(_, _) => Status::FileMissing,
        Refusal::InSource(_, SourceRefusal::NotBuilt(_)) => Status::Unbuilt,
        Refusal::InSource(_, _) => Status::SourceRefused,
    }
}

/// The line that reports a refusal.
fn line_of(alloc: Global, refusal: &Refusal) -> Result<Vec<u8>, NoMemory>
    requires { IsRefusal (refused_by refusal.now) }
    ensures { IfOk result (λ line. line.items ≡ report_of (refused_by refusal.now)) }
{
    match refusal {
        Refusal::Usage => Vec::from_slice(alloc, b"usage\n"),
        Refusal::Missing(file) => Ok(format!(in alloc; "{file}: missing\n")?.into_bytes()),
        Refusal::TooLong(file, bytes) => {
            Ok(format!(in alloc; "{file}: too long {bytes}\n")?.into_bytes())
        }
        Refusal::InSource(file, why) => source_line(alloc, file, why),
    }
}

/// The line that reports why a source is refused.
fn source_line(alloc: Global, file: &str, why: &SourceRefusal) -> Result<Vec<u8>, NoMemory>
    requires { RefusesSome why.now }
    ensures { IfOk result (λ line. line.items ≡ report_of (InSource file.now why.now)) }
{
    match why {
        SourceRefusal::Token(refusal) => token_line(alloc, file, refusal),
        SourceRefusal::Parse(ParseRefusal::Syntax(_, at)) => line_at(alloc, file, *at, "syntax"),
        SourceRefusal::Parse(ParseRefusal::Nested(_, at)) => line_at(alloc, file, *at, "nested"),
        SourceRefusal::Parse(ParseRefusal::NoMemory) => unreachable!(),
        SourceRefusal::NotBuilt(at) => line_at(alloc, file, *at, "not built"),
        SourceRefusal::Broken(broken) => broken_line(alloc, file, *broken),
        SourceRefusal::TooLarge(name, nodes) => large_line(alloc, file, name, *nodes),
    }
}

/// The line that reports why a source has no tokens.
fn token_line(alloc: Global, file: &str, why: &TokenRefusal) -> Result<Vec<u8>, NoMemory>
    requires { RefusesSome (source.Token why.now) }
    ensures { IfOk result (λ line. line.items ≡ report_of (InSource file.now (source.Token why.now))) }
{
    match why {
        TokenRefusal::NoToken(at) => line_at(alloc, file, *at, "no token"),
        TokenRefusal::OpenComment(at) => line_at(alloc, file, *at, "open comment"),
        TokenRefusal::OpenString(at) => line_at(alloc, file, *at, "open string"),
        TokenRefusal::BadNumber(at) => line_at(alloc, file, *at, "bad number"),
        TokenRefusal::LongName(at) => line_at(alloc, file, *at, "long name"),
        TokenRefusal::NoMemory => unreachable!(),
    }
}

/// The line that reports a file, a line of its text, and words.
fn line_at(alloc: Global, file: &str, at: Line, words: &str) -> Result<Vec<u8>, NoMemory>
    ensures { IfOk result (λ line. line.items ≡ file.now ++ on_line at words.now ++ codes "\n") }
{
    Ok(format!(in alloc; "{file}: line {at}: {words}\n")?.into_bytes())
}

/// The line that reports a static rule that fails.
fn broken_line(alloc: Global, file: &str, broken: Broken) -> Result<Vec<u8>, NoMemory>
    ensures { IfOk result (λ line. line.items ≡ report_of (InSource file.now (source.Broken broken))) }
{
    let Broken { rule, line } = broken;
    Ok(format!(in alloc; "{file}: line {line}: rule {rule}\n")?.into_bytes())
}

/// The line that reports a unit that is too large.
fn large_line(alloc: Global, file: &str, unit: &Name, nodes: u64) -> Result<Vec<u8>, NoMemory>
    ensures { IfOk result (λ line. line.items ≡
        file.now ++ codes ": unit " ++ unit.now ++ codes " too large " ++ decimal nodes ++ codes "\n") }
{
    let mut text = format!(in alloc; "{file}: unit ")?.into_bytes();
    text.extend_from_slice(unit.bytes())?;
    text.extend_from_slice(format!(in alloc; " too large {nodes}\n")?.as_bytes())?;
    Ok(text)
}
