//! The grammar of the language, as descriptions of its productions with two meanings: what they derive, and how
//! a parser reads them.
//!
//! It promises that the two agree: what is read is derived, what is derived is read, a text has one tree, and a
//! refusal is right. specs/Refusals.antt states this, and the calls of src/laws.rt name it in their contracts.
//! The crate stands on ep_token, of whose tokens a text is made, and on ep_tree, whose nodes the productions give.
//!
//! Open specs/Descriptions.antt first: the forms of which a production is made. specs/Derived.antt has what each
//! derives and specs/Reading.antt what a parser of it answers. The productions are definitions of their own in
//! specs/Expressions.antt, Types.antt, Statements.antt, Declarations.antt and Units.antt. proofs/public has the
//! lemmas that crates above cite.
#![tactic(auto)]

mod laws;
mod stop;

pub use laws::{laws_of_refusals, laws_of_the_grammar};
pub use stop::{MAX_NESTING, Stop};
