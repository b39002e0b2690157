//! What the machine and the meaning both speak of: values, types as values, events, operations, and the errors of a
//! run.
//!
//! Promise: `size` and `agree` answer exactly how many words a type has and whether two types are the same but for
//! initial states. It stands on ep_outside, whose content the events change, and on no tree or instruction, so that
//! the machine needs no typed program. Open specs/Events.antt first: every meaning is a trace of these events and an
//! end.
//! To change a run error: src/run_error.rt. An operator: src/operations.rt, specs/Operations.antt, for sets
//! SetOperations.antt over the laws of proofs/public/Sets.antt. What is written of a value: specs/Printing.antt. A
//! type: src/type_value.rt, specs/TypeValues.antt, its plain data in ViewedTypes.antt, proofs/Sizes.antt and
//! Agreement.antt.
#![tactic(auto)]

mod operations;
pub mod run_error;
mod type_value;

pub use operations::{Binary, Print, SetOperation, ShortOperation, Unary};
pub use type_value::{Start, Starts, TypeValue, TypeValues, agree, size};
