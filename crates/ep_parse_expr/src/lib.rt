//! The parser of expressions and component values.
//!
//! `expression`, `labels`, `component_value`, `access` and `qualified_name` read what the descriptions of these names
//! in specs/Expressions.antt of ep_grammar say, at every number of levels: they give the same tree or the same
//! refusal and leave the same tokens, unless memory is wanting. Where a bracket can go on as one of several things, a
//! call reads the rest of it (specs/Called.antt and specs/Tails.antt say of which rest).
//! The crate stands on ep_reader for tokens and rows. It is apart from the parsers of types and statements, since its
//! functions call one another and are proved together.
//! Open src/expressions.rt first, beside specs/Expressions.antt of ep_grammar: one function for each production.
#![tactic(auto)]

mod brackets;
mod component_values;
mod elements;
mod expressions;
mod factors;
mod leaves;
mod nodes;
mod selectors;

pub use component_values::component_value;
pub use expressions::{expression, labels};
pub use leaves::qualified_name;
pub use selectors::access;
