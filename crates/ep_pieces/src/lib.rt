//! The pieces of source texts: their tokens and comments in order.
//!
//! A piece is a token or a comment without what a text may write otherwise: the case of letters outside of strings,
//! the other spellings of symbols, the marks of comments, and what stands between two pieces. `pieces` gives those of
//! a text, and refuses a text exactly where `ep_token::tokens` does. `laws_of_pieces` promises that a text has one
//! list of them, that they are its tokens but for the comments, and that a text which has the pieces of another with
//! spaces between them has the same pieces, also where nothing stands between two that join.
//! The crate stands on ep_token, by whose definition of a row it says what a piece is.
//! Open specs/Pieces.antt first, then specs/Joining.antt: which pieces join, and the law of gaps.
#![tactic(auto)]

mod comment;
pub mod kind;
mod laws;
mod piece;
mod source;

pub use laws::laws_of_pieces;
pub use piece::{Piece, closes, joined, opens};
pub use source::{pieces, pieces_of};
