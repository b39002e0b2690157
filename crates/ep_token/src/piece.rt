//! What stands at a place: a token, a separating byte or a comment.

ghost use Rattle.std.specs.Prelude.{◌≡◌, ◌<◌, ◌≤◌, length, IfOk, slice_index};
ghost use Rattle.ep_token.specs.Reading.{Gives, piece_at, symbol_at};
ghost use Rattle.ep_token.specs.Tokens.{is_separator};

use crate::character_string::string_at;
use crate::comment::{comment_at, opens_comment};
use crate::identifier::name_at;
use crate::number::number_at;
use crate::refusal::TokenRefusal;
use crate::symbol::symbol_of;
use crate::token::TokenKind;
use ep_base::Line;
use std::alloc::Global;

/// The number of bytes of a piece, and its kind where it is a token.
pub(crate) type Piece = (usize, Option<TokenKind>);

/// The longest piece at the front.
#[tactic(auto, unfolding(crate::specs::Reading::piece_at))]
pub(crate) fn piece_at(alloc: Global, line: Line, bytes: &[u8]) -> Result<Piece, TokenRefusal>
    requires { 0 < length bytes.now }
    ensures { Gives result (piece_at line bytes.now) }
{
    if is_separator(bytes[0]) {
        return Ok((1, None));
    }
    if opens_comment(bytes) {
        return comment_at(line, bytes);
    }
    if bytes[0] == b'\'' {
        return string_at(alloc, line, bytes);
    }
    if bytes[0].is_ascii_digit() {
        return number_at(line, bytes);
    }
    if bytes[0].is_ascii_alphabetic() {
        return name_at(alloc, line, bytes);
    }
    symbol_at(line, bytes)
}

/// Whether a byte separates tokens.
#[tactic(auto, unfolding(crate::specs::Tokens::is_separator))]
fn is_separator(byte: u8) -> bool
    ensures { result ≡ is_separator byte }
{
    byte == b'\t' || byte == b'\n' || byte == b'\r' || byte == b' '
}

/// The symbol at the front, of two bytes if there is such a one.
#[tactic(auto, unfolding(crate::specs::Reading::symbol_at))]
fn symbol_at(line: Line, bytes: &[u8]) -> Result<Piece, TokenRefusal>
    requires { 0 < length bytes.now }
    ensures { Gives result (symbol_at line bytes.now) }
{
    if bytes.len() >= 2 {
        if let Some(symbol) = symbol_of(&bytes[..2]) {
            return Ok((2, Some(TokenKind::Sym(symbol))));
        }
    }
    match symbol_of(&bytes[..1]) {
        None => Err(TokenRefusal::NoToken(line)),
        Some(symbol) => Ok((1, Some(TokenKind::Sym(symbol)))),
    }
}
