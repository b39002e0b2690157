//! The code of expressions, places and calls.
//!
//! Promise: each call appends exactly the code that specs/ExprCode.antt says the tree has, which stays code when the
//! tables grow, and by specs/Following.antt the machine does what the tree means wherever its code stands. It stands
//! on ep_gen_code for code under construction and on ep_simulation for that proof. Open specs/ExprCode.antt first.
//! To change the code of a form: specs/ExprCode.antt, src/expressions.rt, or src/operations.rt, structured.rt,
//! variants.rt, ranges.rt, controls.rt; the file of proofs that ends in Forms for how the code is put together, and
//! for what it does the file of its form (Sets, VariantMoves, ValueParts, StructuredValues, Calls, ShortCircuit),
//! which Following.antt brings together; Stays.antt. Numbers of texts and references: src/tables.rt.
#![tactic(auto)]

mod controls;
mod expressions;
mod laws;
mod operations;
mod ranges;
mod standard;
mod structured;
mod tables;
mod variants;

pub use controls::{has_more_code, in_order_code, next_value_code, others_code};
pub use expressions::{call_code, entire_code, entire_value_code, expression_code, place_code};
pub use laws::{laws_of_code, laws_of_following};
pub use operations::apply_binary;
pub use ranges::{TEST_LENGTH, tests_code};
pub use standard::standard_code;
pub use structured::{
    begin_structured, end_structured, fill_ranges, reach_field, reach_first, same_field,
};
pub use tables::{reference_number, text_number};
