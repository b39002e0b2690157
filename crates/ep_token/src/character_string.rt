//! Character strings (ISO 10206, 6.1.9).

ghost use Rattle.std.specs.Prelude.{◌≡◌, ◌<◌, ◌≤◌, None, true, false, length, IfOk, IfSome};
ghost use Rattle.ep_token.specs.Reading.{Gives, string_at, string_end, undoubled};

use crate::piece::Piece;
use crate::refusal::TokenRefusal;
use crate::token::TokenKind;
use ep_base::{Bytes, Line};
use std::alloc::{AllocError, Global};

/// The character string at the front, where a quote stands.
#[tactic(auto, unfolding(crate::specs::Reading::string_at))]
pub(crate) fn string_at(alloc: Global, line: Line, bytes: &[u8]) -> Result<Piece, TokenRefusal>
    requires { 0 < length bytes.now }
    ensures { Gives result (string_at line bytes.now) }
{
    let text = &bytes[1..];
    match string_end(text) {
        None => Err(TokenRefusal::OpenString(line)),
        Some(end) => {
            let string = undoubled(alloc, &text[..end - 1])?;
            Ok((end + 1, Some(TokenKind::Str(string))))
        }
    }
}

/// The end of the longest string whose first quote stands before the bytes. Where the last quote is doubled and
/// no other closes the string on its line, that is the first of the two.
#[tactic(auto, using(crate::proofs::Strings::walk))]
fn string_end(text: &[u8]) -> Option<usize>
    ensures end { result ≡ string_end true None 0 text.now }
    ensures within { IfSome result (λ end. end ≤ length text.now) }
    ensures some { IfSome result (λ end. 0 < end) }
{
    let mut end = None;
    let mut is_open = true;
    for (i, byte) in text.iter().enumerate() {
        if is_open {
            if *byte == b'\n' {
                return end;
            }
            if *byte == b'\'' {
                end = Some(i + 1);
                is_open = false;
            }
        } else if *byte == b'\'' {
            is_open = true;
        } else {
            return end;
        }
    }
    end
}

/// The bytes that a string stands for, from those between its quotes.
#[tactic(auto, using(crate::proofs::Strings::body_walk))]
fn undoubled(alloc: Global, body: &[u8]) -> Result<Bytes, AllocError>
    ensures { IfOk result (λ bytes. bytes ≡ undoubled false body.now) }
{
    let mut bytes = Vec::with_capacity(alloc, body.len())?;
    let mut after_quote = false;
    for byte in body {
        let is_quote = *byte == b'\'';
        if is_quote && after_quote {
            after_quote = false;
        } else {
            bytes.push(*byte)?;
            after_quote = is_quote;
        }
    }
    Ok(Bytes::from_vec(bytes))
}
