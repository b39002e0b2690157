//! Identifiers and word symbols (ISO 10206, 6.1.2 and 6.1.3).

ghost use Rattle.std.specs.Prelude.{◌≡◌, ◌<◌, ◌≤◌, true, length, slice_index};
ghost use Rattle.std.specs.Char.{is_ascii_alphabetic};
ghost use Rattle.ep_token.specs.Reading as spec;
ghost use Rattle.ep_token.specs.Reading.{Gives, name_at, name_end};

use crate::piece::Piece;
use crate::refusal::TokenRefusal;
use crate::token::TokenKind;
use crate::word::word_of;
use ep_base::{Line, Name, NameRefusal};
use std::alloc::Global;

/// The identifier or word symbol at the front, which begins with a letter.
#[tactic(auto, unfolding(crate::specs::Reading::name_at))]
pub(crate) fn name_at(alloc: Global, line: Line, bytes: &[u8]) -> Result<Piece, TokenRefusal>
    requires some { 0 < length bytes.now }
    requires letter { is_ascii_alphabetic (slice_index bytes.now 0) ≡ true }
    ensures { Gives result (name_at line bytes.now) }
{
    let len = name_end(bytes);
    match Name::from_bytes(alloc, &bytes[..len]) {
        Ok(name) => {
            let word = word_of(name.bytes());
            Ok((len, Some(name_kind(word, name))))
        }
        Err(NameRefusal::TooLong(_)) => Err(TokenRefusal::LongName(line)),
        Err(NameRefusal::NoMemory) => Err(TokenRefusal::NoMemory),
        Err(NameRefusal::NotAName) => unreachable!(),
    }
}

/// A word symbol, if it is one, and else an identifier.
fn name_kind(word: Option<u8>, name: Name) -> TokenKind
    ensures { result ≡ spec.name_kind word name }
{
    match word {
        None => TokenKind::Id(name),
        Some(word) => TokenKind::Word(word),
    }
}

/// The end of the longest identifier at the front.
#[tactic(auto, using(crate::proofs::Names::walk))]
fn name_end(bytes: &[u8]) -> usize
    ensures end { result ≡ name_end true 0 0 bytes.now }
    ensures within { result ≤ length bytes.now }
{
    let mut end = 0;
    // No identifier begins with an underscore, as none has two in a row.
    let mut underscore = true;
    for (i, byte) in bytes.iter().enumerate() {
        if byte.is_ascii_alphanumeric() {
            end = i + 1;
            underscore = false;
        } else if *byte == b'_' && !underscore {
            underscore = true;
        } else {
            return end;
        }
    }
    end
}
