//! The parser: the tokens of a source text are read as the components that they derive, or refused at a token.
//!
//! `components` promises the grammar itself, and no parser of it: the tokens derive the list that it gives, a list
//! that they derive is given unless memory is wanting, and a refusal names the first token that cannot stand where it
//! does, with its line.
//! The crate stands on ep_parse_unit, which reads as the descriptions of ep_grammar say, and on the laws of
//! ep_grammar, which say that what is so read is derived, and what is derived is so read: here the two meet.
//! Open src/text.rt first, and specs/Refusals.antt, which says where a text is refused and with what line.
#![tactic(auto)]

mod text;

pub use text::{ParseRefusal, components};
