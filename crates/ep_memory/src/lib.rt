//! The memory of a machine: segments of words, numbered from 1 and never again.
//!
//! Promise: contracts see a `Memory` as a `Store`, and each call says exactly which store it makes of which; how the
//! words stand in storage is no matter of any contract. Only calls that make a segment take memory. It stands on
//! ep_object for the words and limits of the definition. Open specs/Stores.antt first.
//! To change what a call answers, or what counts as a live word: specs/Stores.antt, src/memory.rt, proofs/Counts.antt.
//! How a segment is stored: src/entry.rt, specs/Entries.antt, and the fields and the `impl Model` of `Memory`. Rows of
//! tests: src/memory.rt of ep_suite.
#![tactic(auto)]

mod answers;
mod entry;
mod memory;

pub use answers::{Cell, Full, MakeRefusal, Released, Stored};
pub use entry::UNDEFINED;
pub use memory::Memory;
