//! The parser of type denoters.
//!
//! `type_denoter`, `names` and `names_in_parentheses` read what the descriptions of these names in specs/Types.antt
//! of ep_grammar say, at every number of levels: they give the same tree or the same refusal and leave the same
//! tokens, unless memory is wanting.
//! The crate stands on ep_parse_expr, since ranges, discriminants and initial values are expressions and component
//! values, and on ep_reader for tokens, rows and levels; statements need no types, so ep_parse_stmt stands beside it.
//! Open src/denoters.rt first, beside specs/Types.antt of ep_grammar: one function for each production.
#![tactic(auto)]

mod denoters;

pub use denoters::{core, initial, names, names_in_parentheses, type_denoter, variant_selector};
