//! The marker: it gives the tokens of a text their marks.
//!
//! `marks` promises those that the styles of ep_marks give. It walks the tokens as the parser does, one function for
//! each production that has lines of its own, and makes no trees of them; what has no lines is read by the parser.
//! The crate stands on ep_marks, which says what the marks of a text are, and on the crates of the parser.
//! Open specs/Marking.antt first, which says what a function of the walk promises, then src/statements.rt beside
//! specs/Productions.antt of ep_marks. What is passed over without lines is in src/leaves.rt.
#![tactic(auto)]

mod components;
mod declarations;
mod leaves;
mod marker;
mod statements;
mod types;

pub use components::marks;
