//! Tokens of texts at their edges, with answers by hand.

use ep_token::{MAX_SOURCE, TokenKind, symbol, tokens, word};
use std::alloc::{AllocError, Global};
use std::test::Fail;

/// A text, and its tokens or its refusal.
type Row = (&'static [u8], &'static str);

const WORKED: &[Row] = &[
    (b"", ""),
    (b"16#FF", "255 "),
    (b"a__b", "NoToken(1)"),
    (b"12ab", "BadNumber(1)"),
    (b"{ x *)", ""),
    (b"'a", "OpenString(1)"),
    (b"program p begin", "word33 p word3 "),
    (b"\t a\r\n b ", "a b "),
];

const SYMBOLS: &[Row] = &[
    (
        b"+ - * = < > ( ) [ ] . , : ; ^",
        "sym0 sym1 sym2 sym3 sym4 sym5 sym6 sym7 sym8 sym9 sym10 sym11 sym12 sym13 sym14 ",
    ),
    (
        b"<> <= >= := .. => ><",
        "sym15 sym16 sym17 sym18 sym19 sym20 sym21 ",
    ),
    (b"(. .) @", "sym8 sym9 sym14 "),
    (b"<>=", "sym15 sym3 "),
    (b"(.)", "sym8 sym7 "),
    (b"(.*)", "sym8 sym2 sym7 "),
    (b"...", "sym19 sym10 "),
    (b":==", "sym18 sym3 "),
    (b"=>=", "sym20 sym3 "),
    (b"><>", "sym21 sym5 "),
    (b"1..5", "1 sym19 5 "),
    (b"a.b", "a sym10 b "),
    (b"a#", "NoToken(1)"),
    (b"\n !", "NoToken(2)"),
];

const NUMBERS: &[Row] = &[
    (b"0", "0 "),
    (b"007", "7 "),
    (b"2#101", "5 "),
    (b"36#Zz", "1295 "),
    (b"016#ff", "255 "),
    (b"9223372036854775807", "9223372036854775807 "),
    (b"16#7FFFFFFFFFFFFFFF", "9223372036854775807 "),
    (b"9223372036854775808", "BadNumber(1)"),
    (b"16#8000000000000000", "BadNumber(1)"),
    (b"36#zzzzzzzzzzzzzzzzzzzz", "BadNumber(1)"),
    (b"99999999999999999999#1", "BadNumber(1)"),
    (b"0#0", "BadNumber(1)"),
    (b"1#0", "BadNumber(1)"),
    (b"37#0", "BadNumber(1)"),
    (b"2#2", "BadNumber(1)"),
    (b"12ab", "BadNumber(1)"),
    (b"12_", "BadNumber(1)"),
    (b"1#", "BadNumber(1)"),
    (b"16#", "BadNumber(1)"),
    (b"16#fg", "BadNumber(1)"),
    (b"16#f_", "BadNumber(1)"),
    (b"16#f#", "BadNumber(1)"),
    (b"1 a", "1 a "),
    (b"1'a'", "1 'a' "),
];

const COMMENTS: &[Row] = &[
    (b"{a}b", "b "),
    (b"{a*)b", "b "),
    (b"(*a}b", "b "),
    (b"(*a*)b", "b "),
    (b"{}(**){*}(*)*)", ""),
    (b"{ (* } x", "x "),
    (b"{'}' '", "' ' "),
    (b"{\x00\x80\xff\n}", ""),
    (b"(*)", "OpenComment(1)"),
    (b"{", "OpenComment(1)"),
    (b"\n\n a (*\n\n", "OpenComment(3)"),
    (b"(**", "OpenComment(1)"),
];

const STRINGS: &[Row] = &[
    (b"''", "'' "),
    (b"'Ab'", "'Ab' "),
    (b"''''", "''' "),
    (b"'a''b'c", "'a'b' c "),
    (b"'{(*'", "'{(*' "),
    (b"'\x00\x80\xff\r'", "'\u{0}\u{80}\u{ff}\r' "),
    (b"'a\n'", "OpenString(1)"),
    (b"\n'a''b\n'", "OpenString(2)"),
    (b"'a''", "OpenString(1)"),
    (b"'''", "OpenString(1)"),
    (b"\x00", "NoToken(1)"),
    (b"\x80", "NoToken(1)"),
    (b"\xff", "NoToken(1)"),
];

const NAMES: &[Row] = &[
    (b"Write_Ln9", "write_ln9 "),
    (b"BEGIN With And_Then", "word3 word47 word1 "),
    (b"and_thenx begins", "and_thenx begins "),
    (b"_a", "NoToken(1)"),
    (b"end_", "NoToken(1)"),
];

/// A token as a row writes it: a word or a symbol by its place, a string between quotes.
fn show(out: &mut String, kind: &TokenKind) -> Result<(), AllocError> {
    match kind {
        TokenKind::Word(word) => write!(out, "word{word}"),
        TokenKind::Id(name) => push_bytes(out, name.bytes()),
        TokenKind::Number(value) => write!(out, "{value}"),
        TokenKind::Str(bytes) => {
            out.push('\'')?;
            push_bytes(out, bytes.items())?;
            out.push('\'')
        }
        TokenKind::Sym(symbol) => write!(out, "sym{symbol}"),
    }
}

fn push_bytes(out: &mut String, bytes: &[u8]) -> Result<(), AllocError> {
    for byte in bytes {
        out.push(*byte as char)?;
    }
    Ok(())
}

/// The tokens of a text, each with a blank behind it, or the refusal.
fn answer(alloc: Global, source: &[u8]) -> Result<String, AllocError> {
    let mut out = String::new(alloc);
    if source.len() > MAX_SOURCE {
        return Ok(out);
    }
    match tokens(alloc, source) {
        Ok(found) => {
            for token in &found {
                show(&mut out, &token.kind)?;
                out.push(' ')?;
            }
        }
        Err(refusal) => write!(&mut out, "{refusal:?}")?,
    }
    Ok(out)
}

#[test]
fn texts_have_their_tokens(rt: HostRuntime) -> Result<(), Fail> {
    for table in [WORKED, SYMBOLS, NUMBERS, COMMENTS, STRINGS, NAMES] {
        for (source, want) in table {
            assert_eq!(rt; answer(rt.alloc(), source)?.as_str(), *want);
        }
    }
    Ok(())
}

/// How long the answer to a name of so many bytes is, and whether it is refused.
fn name_of(alloc: Global, length: usize) -> Result<(usize, bool), AllocError> {
    let name = vec![in alloc; b'n'; length]?;
    let found = answer(alloc, name.as_slice())?;
    Ok((found.len(), found.as_str() == "LongName(1)"))
}

#[test]
fn names_have_at_most_255_bytes(rt: HostRuntime) -> Result<(), Fail> {
    for (length, want) in [(255, (256, false)), (256, (11, true))] {
        assert_eq!(rt; name_of(rt.alloc(), length)?, want);
    }
    Ok(())
}

/// The line, the start and the end of each token.
fn places(alloc: Global, source: &[u8]) -> Result<Vec<(u32, u32, u32)>, AllocError> {
    let mut places = Vec::new(alloc);
    if source.len() <= MAX_SOURCE {
        if let Ok(found) = tokens(alloc, source) {
            for token in &found {
                places.push((token.line, token.start, token.end))?;
            }
        }
    }
    Ok(places)
}

#[test]
fn tokens_have_lines_and_places(rt: HostRuntime) -> Result<(), Fail> {
    let found = places(rt.alloc(), b"ab\n{\n\n}c 'd'\n\n:=")?;
    let want = [(1, 0, 2), (4, 7, 8), (4, 9, 12), (6, 14, 16)];
    assert_eq!(rt; found.as_slice(), want.as_slice());
    Ok(())
}

/// A text, and the constants of its words and symbols.
const CONSTANTS: &[(&[u8], &[u8])] = &[
    (
        b"and and_then array begin bindable case const div do downto else end export file for function goto if import in label mod module nil not of only or or_else otherwise packed pow procedure program protected qualified record repeat restricted set then to type until value var while with",
        &[
            word::AND,
            word::AND_THEN,
            word::ARRAY,
            word::BEGIN,
            word::BINDABLE,
            word::CASE,
            word::CONST,
            word::DIV,
            word::DO,
            word::DOWNTO,
            word::ELSE,
            word::END,
            word::EXPORT,
            word::FILE,
            word::FOR,
            word::FUNCTION,
            word::GOTO,
            word::IF,
            word::IMPORT,
            word::IN,
            word::LABEL,
            word::MOD,
            word::MODULE,
            word::NIL,
            word::NOT,
            word::OF,
            word::ONLY,
            word::OR,
            word::OR_ELSE,
            word::OTHERWISE,
            word::PACKED,
            word::POW,
            word::PROCEDURE,
            word::PROGRAM,
            word::PROTECTED,
            word::QUALIFIED,
            word::RECORD,
            word::REPEAT,
            word::RESTRICTED,
            word::SET,
            word::THEN,
            word::TO,
            word::TYPE,
            word::UNTIL,
            word::VALUE,
            word::VAR,
            word::WHILE,
            word::WITH,
        ],
    ),
    (
        b"+ - * = < > ( ) [ ] . , : ; ^ <> <= >= := .. => ><",
        &[
            symbol::PLUS,
            symbol::MINUS,
            symbol::STAR,
            symbol::EQUAL,
            symbol::LESS,
            symbol::GREATER,
            symbol::LEFT_PARENTHESIS,
            symbol::RIGHT_PARENTHESIS,
            symbol::LEFT_BRACKET,
            symbol::RIGHT_BRACKET,
            symbol::PERIOD,
            symbol::COMMA,
            symbol::COLON,
            symbol::SEMICOLON,
            symbol::CARET,
            symbol::NOT_EQUAL,
            symbol::AT_MOST,
            symbol::AT_LEAST,
            symbol::ASSIGN,
            symbol::RANGE,
            symbol::EXPORTED_AS,
            symbol::SYMMETRIC_DIFFERENCE,
        ],
    ),
];

/// The words and symbols of a text, by their places.
fn constants(alloc: Global, source: &[u8]) -> Result<Vec<u8>, AllocError> {
    let mut out = Vec::new(alloc);
    if source.len() <= MAX_SOURCE {
        if let Ok(found) = tokens(alloc, source) {
            for token in &found {
                match &token.kind {
                    TokenKind::Word(place) => out.push(*place)?,
                    TokenKind::Sym(place) => out.push(*place)?,
                    _ => {}
                }
            }
        }
    }
    Ok(out)
}

#[test]
fn constants_name_their_words_and_symbols(rt: HostRuntime) -> Result<(), Fail> {
    for (source, want) in CONSTANTS {
        assert_eq!(rt; constants(rt.alloc(), source)?.as_slice(), *want);
    }
    Ok(())
}
