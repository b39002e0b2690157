//! The tokens that are left to a parser, and the rows that it reads of them.
//!
//! Each call of `Reader` promises what a parser of one description answers: `Reads (read_token ..) result self.new`
//! where it takes a token, and a test of the class of the next one where it only looks. `level` counts how deep a
//! text may still nest. `one_or_more`, `separated`, `many` and `closed` read rows of items by a closure, and each is
//! proved once here.
//! The crate stands on ep_grammar, whose specs/Reading.antt says what a parser answers, on ep_token for what a token
//! is, and on ep_tree for the operators that tokens mean: it is all that the parsers above know of tokens.
//! Open src/reader.rt first, then specs/Options.antt and specs/Rows.antt, which say what is read where a token may be
//! left out, and of a row. proofs/public has the lemmas for the parsers above.
#![tactic(auto)]

mod reader;
mod rows;

pub use reader::{Reader, level};
pub use rows::{closed, many, one_or_more, separated};
