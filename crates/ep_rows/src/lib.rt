//! The rows of the machine's table as code, each a function on what it touches: operands, segments, types.
//!
//! Promise: the contract of a row is one equation with the row of ep_object's table, `IsStep` for one that spends one
//! tick and `IsDone` for one that spends more within a limit. It stands on ep_memory and ep_frames, whose parts it
//! changes, and on ep_decode for the enums that operations name, as a comparison. Open specs/Steps.antt first, then
//! src/words.rt for the simplest rows.
//! To change a row: the file of its kind in src (words, control, places, parts, pointers, sets, texts, types, records,
//! starts, values), whose definition has the same name in ep_object's specs; a row that touches calls, code or output
//! is in ep_machine. How types are met and found by hash: src/type_table.rt, specs/Meeting.antt. What ends with a
//! call: src/segments.rt. Bits of sets: src/members.rt.
#![tactic(auto)]

mod bounds;
pub mod control;
mod members;
pub mod parts;
pub mod places;
pub mod pointers;
pub mod records;
pub mod segments;
pub mod sets;
pub mod starts;
mod step;
pub mod texts;
mod type_table;
pub mod types;
pub mod values;
pub mod words;

pub use step::Step;
pub use type_table::TypeTable;
