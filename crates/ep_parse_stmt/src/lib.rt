//! The parser of statements.
//!
//! `boxed_statement` and `compound` read what the descriptions in specs/Statements.antt of ep_grammar say, at every
//! number of levels: they give the same tree or the same refusal and leave the same tokens, unless memory is wanting.
//! The crate stands on ep_parse_expr, since conditions, values and accesses are expressions, and on ep_reader for
//! tokens, rows and levels; a statement has no type in it, so ep_parse_type stands beside it.
//! Open src/statements.rt first, beside specs/Statements.antt of ep_grammar: one function for each production.
#![tactic(auto)]

mod statements;

pub use statements::{accesses, boxed_statement, compound, simple_statement};
