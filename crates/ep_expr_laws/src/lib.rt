//! The law of typed expressions: what the rules of expressions accept is valid.
//!
//! Promise: by `laws_of_expressions` each form that ep_check_expr gives is valid, of a host that is known, wherever
//! the declarations hold what the scopes declare; `expression` and `constant` say so of an expression on its own. It
//! stands above ep_check_expr and ep_meaning, so that a lemma costs no rule. Open specs/Agreement.antt first: it says
//! what declarations hold of scopes.
//! To follow a change of a rule: proofs/Sound.antt and public/Meant.antt that it keeps validity, Hosted.antt and
//! specs/Origins.antt that it keeps hosts, Known.antt and SetsOver.antt for constants and sets, Structures.antt for
//! structured values; Lawful.antt concludes. A change of what scopes declare: specs/Agreement.antt, public/Listed.antt
//! and Leading.antt for structured types.
#![tactic(auto)]

mod answers;
mod laws;

pub use answers::{ExpressionRefusal, constant, expression};
pub use laws::laws_of_expressions;
