//! The law of typed units: what the static rules accept is valid.
//!
//! Promise: by `laws_of_typed_units` each unit that ep_check_unit gives is valid, and `check` here has that clause. It
//! stands above ep_expr_laws and ep_stmt_laws, and has no code but the two calls, so that a lemma costs no rule. Open
//! specs/Laws.antt first, then proofs/Holds.antt: what a unit holds of the declarations of a block.
//! To follow a change of a rule: the file of its item in proofs (Constants, Types, Ordinals, Structures, Arrays,
//! Records, Variants, Sets, Denoters, InitialStates, Headings, Routines), which shows that the item leads from one
//! block that is held to the next (Leading.antt); Agreeing.antt for what scopes declare, Auxiliaries.antt,
//! Fitting.antt for constants; Units.antt concludes.
#![tactic(auto)]

ghost use Rattle.ep_unit_laws.specs.Laws.{UnitsAreValid};

mod component;

pub use component::check;
use ep_expr_laws::laws_of_expressions;
use ep_stmt_laws::laws_of_statements;

/// Does nothing: its contract states that a typed unit that the static rules give is valid.
pub fn laws_of_typed_units()
    ensures { UnitsAreValid }
{
    laws_of_expressions();
    laws_of_statements();
}
