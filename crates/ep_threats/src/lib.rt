//! Which variables the statements of a unit threaten (ISO 10206, 6.9.4).
//!
//! Promise: `threatens` and what stands beside it answer whether typed forms threaten a variable, and `Routines` whether
//! the routines of a unit do, which may be gathered once for all variables of a block, as specs/Threats.antt says. It
//! stands on the typed trees alone, so that the static rules of statements and of declarations both ask it. Open
//! specs/Threats.antt first.
//! To change what a statement or an expression threatens: specs/Threats.antt, src/threats.rt and src/gathering.rt, which
//! walks the same forms for all variables at once; what is gathered: specs/Threatened.antt, src/routines.rt; how the
//! routines in a routine are found: specs/Inner.antt, src/table.rt. How the
//! routines of a unit are plain data: specs/RoutineForms.antt; what code may call: specs/Callees.antt, src/callees.rt.
#![tactic(auto)]

mod callees;
mod gathering;
mod numbers;
mod routines;
mod table;
mod threats;

pub use callees::Callees;
pub use routines::Routines;
pub use table::RoutineTable;
pub use threats::{
    Entire, assigns, expr_threatens, inner_threatens, is_same, place_threatens,
    statement_threatens, threatens,
};
