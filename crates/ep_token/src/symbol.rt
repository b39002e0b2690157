//! The special symbols (ISO 10206, 6.1.2), by their places in the list of all of them.

ghost use Rattle.std.specs.Prelude.{◌≡◌};
ghost use Rattle.ep_token.specs.Reading.{symbol_of};
ghost use Rattle.ep_token.specs.Symbols.{reference_spelling};

use crate::spelling::place_of;

/// `+`
pub const PLUS: u8 = 0;

/// `-`
pub const MINUS: u8 = 1;

/// `*`
pub const STAR: u8 = 2;

/// `=`
pub const EQUAL: u8 = 3;

/// `<`
pub const LESS: u8 = 4;

/// `>`
pub const GREATER: u8 = 5;

/// `(`
pub const LEFT_PARENTHESIS: u8 = 6;

/// `)`
pub const RIGHT_PARENTHESIS: u8 = 7;

/// `[`
pub const LEFT_BRACKET: u8 = 8;

/// `]`
pub const RIGHT_BRACKET: u8 = 9;

/// `.`
pub const PERIOD: u8 = 10;

/// `,`
pub const COMMA: u8 = 11;

/// `:`
pub const COLON: u8 = 12;

/// `;`
pub const SEMICOLON: u8 = 13;

/// `^`
pub const CARET: u8 = 14;

/// `<>`
pub const NOT_EQUAL: u8 = 15;

/// `<=`
pub const AT_MOST: u8 = 16;

/// `>=`
pub const AT_LEAST: u8 = 17;

/// `:=`
pub const ASSIGN: u8 = 18;

/// `..`
pub const RANGE: u8 = 19;

/// `=>`
pub const EXPORTED_AS: u8 = 20;

/// `><`
pub const SYMMETRIC_DIFFERENCE: u8 = 21;

/// The symbols themselves, in their order.
const SPELLINGS: [&[u8]; 22] = [
    b"+", b"-", b"*", b"=", b"<", b">", b"(", b")", b"[", b"]", b".", b",", b":", b";", b"^",
    b"<>", b"<=", b">=", b":=", b"..", b"=>", b"><",
];

/// The symbol that a text stands for, in either spelling.
pub(crate) fn symbol_of(text: &[u8]) -> Option<u8>
    ensures { result ≡ symbol_of text.now }
{
    match place_of(&SPELLINGS, reference_spelling(text)) {
        None => None,
        Some(place) => Some(place as u8),
    }
}

/// The first spelling of the symbol that has two.
fn reference_spelling(text: &[u8]) -> &[u8]
    ensures { result.now ≡ reference_spelling text.now }
{
    if text == b"(.".as_slice() {
        b"["
    } else if text == b".)".as_slice() {
        b"]"
    } else if text == b"@".as_slice() {
        b"^"
    } else {
        text
    }
}
