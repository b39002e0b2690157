//! The system as the outside of a call: standard streams and files, and the words that a program was called with.
//!
//! Promise: the adapters keep the clauses of the traits of ep_outside and tell nothing of content, since no contract
//! can say what a file or a stream gives; their faults are counted (specs/FaultCounts.antt). It stands on ep_drive,
//! whose `epc` it calls, and only the programs stand on it. Open src/call.rt first.
//! To change how a file is read or written: src/real_files.rt, src/real_source.rt, src/real_sink.rt over
//! src/system.rt, which tries again what was interrupted. What is a fault: src/faults.rt.
#![tactic(auto)]

mod call;
mod faults;
mod real_files;
mod real_sink;
mod real_source;
mod system;

pub use call::carry_out;
pub use real_files::RealFiles;
pub use real_sink::RealSink;
pub use real_source::RealSource;

#[cfg(test)]
mod tests;
