//! Unsigned numbers (ISO 10206, 6.1.7).

ghost use Rattle.std.specs.Prelude.{◌≡◌, ◌+◌, ◌<◌, ◌≤◌, ◌==◌, length, position, IfSome, pos};
ghost use Rattle.std.specs.List.{prefix_len};
ghost use Rattle.ep_token.specs.Bytes.{number_sign};
ghost use Rattle.ep_token.specs.Numbers.{digit_value, continues_number, maxint};
ghost use Rattle.ep_token.specs.Reading as spec;
ghost use Rattle.ep_token.specs.Reading.{Gives, number_at, number_value, numeral};

use crate::piece::Piece;
use crate::refusal::TokenRefusal;
use crate::token::TokenKind;
use ep_base::Line;

/// The greatest integer.
const MAXINT: u64 = 9_223_372_036_854_775_807;

/// The number at the front, where a digit stands.
#[tactic(auto, unfolding(crate::specs::Reading::number_at))]
pub(crate) fn number_at(line: Line, bytes: &[u8]) -> Result<Piece, TokenRefusal>
    ensures { Gives result (number_at line bytes.now) }
{
    let len = number_end(bytes);
    match number_value(&bytes[..len]) {
        None => Err(TokenRefusal::BadNumber(line)),
        Some(value) => Ok((len, Some(TokenKind::Number(value as i64)))),
    }
}

/// The end of the letters, digits, underscores and `#` at the front. A number may not be followed by one of these,
/// so it is all of them or none.
fn number_end(bytes: &[u8]) -> usize
    ensures end { result ≡ prefix_len continues_number bytes.now }
    ensures within { result ≤ length bytes.now }
{
    for (i, byte) in bytes.iter().enumerate() {
        if !continues_number(*byte) {
            return i;
        }
    }
    bytes.len()
}

/// Whether a byte may not follow a number.
#[tactic(auto, unfolding(crate::specs::Numbers::continues_number))]
fn continues_number(byte: u8) -> bool
    ensures { result ≡ continues_number byte }
{
    byte.is_ascii_alphanumeric() || byte == b'_' || byte == b'#'
}

/// The value of a number, in a radix or not.
#[tactic(auto, unfolding(crate::specs::Reading::number_value))]
fn number_value(text: &[u8]) -> Option<u64>
    ensures value { result ≡ number_value text.now }
    ensures fits { IfSome result (λ value. value ≤ maxint) }
{
    match mark_of(text) {
        None => numeral(10, text),
        Some(mark) => in_radix(numeral(10, &text[..mark]), &text[mark + 1..]),
    }
}

/// The place of the first `#`.
fn mark_of(text: &[u8]) -> Option<usize>
    ensures mark { result ≡ position (λ b. b == number_sign) text.now }
    ensures within { IfSome result (λ mark. mark < length text.now) }
{
    text.iter().position(|byte| *byte == b'#')
}

/// The value of digits of a radix, which has to be from 2 to 36.
fn in_radix(radix: Option<u64>, digits: &[u8]) -> Option<u64>
    ensures value { result ≡ spec.in_radix radix digits.now }
    ensures fits { IfSome result (λ value. value ≤ maxint) }
{
    let radix = radix?;
    if radix < 2 || radix > 36 {
        return None;
    }
    numeral(radix, digits)
}

/// The value of digits of a radix.
#[tactic(auto, using(crate::proofs::Numerals::walk))]
fn numeral(radix: u64, digits: &[u8]) -> Option<u64>
    requires least { 2 ≤ radix }
    requires greatest { radix ≤ 36 }
    ensures value { result ≡ numeral radix digits.now }
    ensures fits { IfSome result (λ value. value ≤ maxint) }
{
    if digits.is_empty() {
        return None;
    }
    let mut value: u64 = 0;
    for byte in digits {
        let digit = digit_value(*byte);
        if digit >= radix {
            return None;
        }
        let Some(next) = appended(radix, value, digit) else {
            return None;
        };
        value = next;
    }
    Some(value)
}

/// The value of digits with one more, where it is at most maxint.
fn appended(radix: u64, value: u64, digit: u64) -> Option<u64>
    ensures { result ≡ spec.appended radix value digit }
{
    let next = value.checked_mul(radix)?.checked_add(digit)?;
    if next <= MAXINT { Some(next) } else { None }
}

/// The value of a digit or letter, or 36, which is no digit of any radix.
#[tactic(auto, unfolding(crate::specs::Numbers::digit_value))]
fn digit_value(byte: u8) -> u64
    ensures { result ≡ digit_value byte }
{
    if byte.is_ascii_digit() {
        (byte - b'0') as u64
    } else if byte.is_ascii_alphabetic() {
        (byte.to_ascii_lowercase() - 87) as u64
    } else {
        36
    }
}
