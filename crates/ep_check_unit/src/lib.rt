//! The static rules of a whole program.
//!
//! Promise: `check` answers the typed unit that specs/Units.antt says a component is, or the first item that breaks a
//! rule. Names are those of ep_scope, expressions those of ep_check_expr, statements those of ep_check_stmt, types and
//! headings by themselves those of ep_unit_rules, and what has been declared in a block is its `Block`
//! (specs/Blocks.antt). That the unit is valid is ep_unit_laws. Open specs/Units.antt first, then Declarations.antt.
//! To change a declaration: specs/Declarations.antt, src/declarations.rt, for types src/types.rt, records.rt,
//! variants.rt, sets.rt, initial_states.rt, each with the file of its name in ep_unit_rules. A heading or a part of a
//! block: specs/Routines.antt, src/headings.rt, formals.rt, routines.rt; results: specs/Functions.antt,
//! src/functions.rt.
#![tactic(auto)]

mod block;
mod component;
mod declarations;
mod formals;
mod functions;
mod headings;
mod initial_states;
mod records;
mod routines;
mod sets;
mod types;
mod variants;

pub use component::{Checked, check};
pub use ep_stmt_rules::CheckRefusal;
