//! The law of typed statements: what the rules of statements accept is valid.
//!
//! Promise: by `laws_of_statements` each form that ep_check_stmt gives is valid wherever the declarations hold what
//! the scopes declare, the auxiliary variables and those of `with` among them. It stands above ep_check_stmt and
//! ep_expr_laws and has no code but the law, so that a lemma costs no rule. Open specs/Laws.antt first.
//! To follow a change of a rule: the file of its statement in proofs/valid (Assignments, Loops, Cases, Withs, Passing;
//! Statements for the rest), over Sound.antt, which has what all of them share, and the lemmas of ep_expr_laws on
//! names and expressions.
#![tactic(auto)]

mod laws;

pub use laws::laws_of_statements;
