//! The top call.
//!
//! Promise: `epc` carries out a command over files, an input, an output and a report, and its contract is the theorem
//! of the whole program: each answer by the verdict on the words and the files, and what was done to the outside. It
//! stands on all layers, each by its public call. Open specs/Calls.antt first, then Verdicts.antt for the order of the
//! tests.
//! To change a command: specs/Commands.antt, WordReading.antt, src/words.rt, rows of specs/Verdicts.antt and
//! Jobs.antt, a module; no clause changes. A report or a status: specs/Refusals.antt, src/report.rt; of a run
//! Outcomes.antt, src/outcome.rt. For what a source is refused: src/source.rt, ProgramTexts.antt, Refusals.antt,
//! proofs/Sources.antt and Causes.antt. A run of `go`: GoRuns.antt, src/go.rt, src/execution.rt; its image:
//! src/image.rt.
#![tactic(auto)]

mod execution;
mod go;
mod image;
mod laws;
mod number;
mod outcome;
mod report;
mod source;
mod status;
mod top;
mod words;

pub use laws::laws_of_verdicts;
pub use status::Status;
pub use top::epc;
