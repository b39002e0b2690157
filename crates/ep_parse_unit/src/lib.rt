//! The parser of declarations and units.
//!
//! `all_components` reads what the description `components` of ep_grammar says, at every number of levels: it gives
//! the same list or the same refusal and leaves the same tokens, unless memory is wanting.
//! The crate stands on the parsers below it, whose calls it makes for component values, types and statements, and on
//! ep_reader for tokens, rows and levels.
//! Open src/units.rt first, beside specs/Units.antt of ep_grammar, and then src/declarations.rt beside
//! specs/Declarations.antt: one function for each production.
#![tactic(auto)]

mod declarations;
mod units;

pub use declarations::{constant_definition, discriminants, forward_body, routine_start};
pub use units::{all_components, export_part, heading_routine, import_specification, parameters};
