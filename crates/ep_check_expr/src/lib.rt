//! The static rules of expressions, by the walk over their trees.
//!
//! Promise: `typed_expression`, `written_expression`, `typed_arguments` and the calls for constants answer the typed
//! form, or the value, that specs/Expressions.antt gives the tree, or a rule that fails in it. The rules on accepted
//! parts are those of ep_rules; the laws are ep_expr_laws, above, so that a lemma there proves no walk anew. Open
//! specs/Expressions.antt first: one clause for each production.
//! To change a production: specs/Expressions.antt, src/expressions.rt, proofs/public/Folds.antt for the equation of
//! its node; what each rule keeps holds of whole trees by Keeping.antt and Accepted.antt. Structured
//! values: specs/StructuredValues.antt, src/structured.rt, arranged.rt for arrays, filled.rt for records, chosen.rt
//! for variants. Constant expressions: specs/Constants.antt, StructuredConstants.antt, src/constants.rt,
//! src/structured_constants.rt.
//! Functions of the walk that nest are `inline(never)`, so that a level has the frames of its own productions alone
//! (docs/PROMISES.md, 'What is known of the stack').
#![tactic(auto)]

mod arranged;
mod broken;
mod chosen;
mod constants;
mod expressions;
mod filled;
mod places;
mod shapes;
mod structured;
mod structured_constants;

pub use broken::Broken;
pub use constants::{
    ConstantForm, Purpose, bound_value, constant_expression_value, constant_value,
    initial_state_value, label_value,
};
pub use expressions::{
    typed_access, typed_arguments, typed_expression, typed_value, written_expression,
};
pub use structured::asked_by;
pub use structured_constants::{ConstantValue, NoConstant};
