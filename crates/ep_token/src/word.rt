//! The word symbols (ISO 10206, 6.1.2), by their places in the list of all of them.

ghost use Rattle.std.specs.Prelude.{◌≡◌};
ghost use Rattle.ep_token.specs.Spellings.{place_of};
ghost use Rattle.ep_token.specs.Words.{word_symbols};

use crate::spelling::place_of;

/// `and`
pub const AND: u8 = 0;

/// `and_then`
pub const AND_THEN: u8 = 1;

/// `array`
pub const ARRAY: u8 = 2;

/// `begin`
pub const BEGIN: u8 = 3;

/// `bindable`
pub const BINDABLE: u8 = 4;

/// `case`
pub const CASE: u8 = 5;

/// `const`
pub const CONST: u8 = 6;

/// `div`
pub const DIV: u8 = 7;

/// `do`
pub const DO: u8 = 8;

/// `downto`
pub const DOWNTO: u8 = 9;

/// `else`
pub const ELSE: u8 = 10;

/// `end`
pub const END: u8 = 11;

/// `export`
pub const EXPORT: u8 = 12;

/// `file`
pub const FILE: u8 = 13;

/// `for`
pub const FOR: u8 = 14;

/// `function`
pub const FUNCTION: u8 = 15;

/// `goto`
pub const GOTO: u8 = 16;

/// `if`
pub const IF: u8 = 17;

/// `import`
pub const IMPORT: u8 = 18;

/// `in`
pub const IN: u8 = 19;

/// `label`
pub const LABEL: u8 = 20;

/// `mod`
pub const MOD: u8 = 21;

/// `module`
pub const MODULE: u8 = 22;

/// `nil`
pub const NIL: u8 = 23;

/// `not`
pub const NOT: u8 = 24;

/// `of`
pub const OF: u8 = 25;

/// `only`
pub const ONLY: u8 = 26;

/// `or`
pub const OR: u8 = 27;

/// `or_else`
pub const OR_ELSE: u8 = 28;

/// `otherwise`
pub const OTHERWISE: u8 = 29;

/// `packed`
pub const PACKED: u8 = 30;

/// `pow`
pub const POW: u8 = 31;

/// `procedure`
pub const PROCEDURE: u8 = 32;

/// `program`
pub const PROGRAM: u8 = 33;

/// `protected`
pub const PROTECTED: u8 = 34;

/// `qualified`
pub const QUALIFIED: u8 = 35;

/// `record`
pub const RECORD: u8 = 36;

/// `repeat`
pub const REPEAT: u8 = 37;

/// `restricted`
pub const RESTRICTED: u8 = 38;

/// `set`
pub const SET: u8 = 39;

/// `then`
pub const THEN: u8 = 40;

/// `to`
pub const TO: u8 = 41;

/// `type`
pub const TYPE: u8 = 42;

/// `until`
pub const UNTIL: u8 = 43;

/// `value`
pub const VALUE: u8 = 44;

/// `var`
pub const VAR: u8 = 45;

/// `while`
pub const WHILE: u8 = 46;

/// `with`
pub const WITH: u8 = 47;

/// The word symbols themselves, in their order.
const SPELLINGS: [&[u8]; 48] = [
    b"and",
    b"and_then",
    b"array",
    b"begin",
    b"bindable",
    b"case",
    b"const",
    b"div",
    b"do",
    b"downto",
    b"else",
    b"end",
    b"export",
    b"file",
    b"for",
    b"function",
    b"goto",
    b"if",
    b"import",
    b"in",
    b"label",
    b"mod",
    b"module",
    b"nil",
    b"not",
    b"of",
    b"only",
    b"or",
    b"or_else",
    b"otherwise",
    b"packed",
    b"pow",
    b"procedure",
    b"program",
    b"protected",
    b"qualified",
    b"record",
    b"repeat",
    b"restricted",
    b"set",
    b"then",
    b"to",
    b"type",
    b"until",
    b"value",
    b"var",
    b"while",
    b"with",
];

/// The place of the word symbol that is spelled so, in lower case.
pub(crate) fn word_of(text: &[u8]) -> Option<u8>
    ensures { result ≡ place_of word_symbols text.now }
{
    match place_of(&SPELLINGS, text) {
        None => None,
        Some(place) => Some(place as u8),
    }
}
