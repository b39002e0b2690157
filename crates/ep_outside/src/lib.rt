//! The outside: where input comes from, where output goes, and the files.
//!
//! Promise: each trait says what its object tells of its content, if anything, and counts its faults; the count never
//! falls, and an answer `Failed` comes only where it rose. It stands on ep_base alone, so that the meaning, the
//! machine and the top call share one view of the outside. Open src/traits.rt first, with specs/Known.antt.
//! To change what is known of content: specs/Known.antt. What an answer says: specs/Answers.antt. Where the objects in
//! memory fail, and what a failing call keeps: specs/Schedules.antt, specs/InMemory.antt, src/schedule.rt. How the
//! system is called: ep_system.
#![tactic(auto)]

mod answers;
mod mem_files;
mod mem_sink;
mod mem_source;
mod remainder;
mod schedule;
mod traits;

pub use answers::{LoadAnswer, ReadAnswer, WriteAnswer};
pub use mem_files::{MemFiles, SureFiles};
pub use mem_sink::{MemSink, SureSink};
pub use mem_source::{MemSource, SureSource};
pub use traits::{Files, Sink, Source};
