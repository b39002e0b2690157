//! The tokens of source texts.
//!
//! A source text is a row of tokens, separating bytes and comments, each the longest that can be taken at its place.
//! `tokens` gives the tokens of such a text, each with its line and place, and refuses every other text at the first
//! place where nothing can be taken; `one_reading` promises that a text has one of the two answers, and one alone.
//! The crate stands on ep_base alone, for names and lines: a text is split before anything is known of the grammar.
//! Open specs/Tokens.antt first: it says what a row is and where a text is stuck, over what each kind of piece is
//! (specs/Words.antt, Symbols.antt, Numbers.antt, Strings.antt and Comments.antt). specs/Reading.antt has what the
//! calls of src/ read at a place, and proofs/ shows that it is what those definitions say; proofs/public has the
//! lemmas for the crates above.
#![tactic(auto)]

mod character_string;
mod comment;
mod identifier;
mod number;
mod piece;
mod refusal;
mod source;
mod spelling;
pub mod symbol;
mod token;
pub mod word;

pub use refusal::TokenRefusal;
pub use source::{MAX_SOURCE, one_reading, tokens};
pub use token::{Token, TokenKind};
