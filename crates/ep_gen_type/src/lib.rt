//! The code of types, which elaborates them.
//!
//! Promise: `elaborate` appends exactly the code that specs/TypeCode.antt says a denoter has, which leaves the number
//! of the type, and the machine follows the elaboration by it (proofs/public/Elaborating.antt). It stands on
//! ep_gen_expr, since initial states have the code of structured values. Open specs/TypeCode.antt first.
//! To change the code of a type: specs/TypeCode.antt, src/types.rt, proofs/TypeForms.antt for how it is put together,
//! Elaborating.antt for what it does; initial states: proofs/InitialStates.antt. The routines of types, one for each,
//! are in ep_gen_unit.
#![tactic(auto)]

mod ordinals;
mod types;

pub use ordinals::OrdinalTypes;
pub use types::elaborate;
