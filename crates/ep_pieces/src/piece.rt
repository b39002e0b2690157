//! What a piece is, and which two of them join.

ghost use Rattle.std.specs.Prelude.{◌≡◌, IfOk};
ghost use Rattle.ep_base.specs.Identifiers.{lower_case};
ghost use Rattle.ep_token.specs.Comments.{IsComment};
ghost use Rattle.ep_token.specs.Symbols.{reference_spelling};
ghost use Rattle.ep_pieces.specs.Joining as spec;
ghost use Rattle.ep_pieces.specs.Pieces.{comment_piece, piece, token_piece};

use crate::comment::opener_len;
use crate::kind;
use ep_base::Bytes;
use ep_token::TokenKind;
use std::alloc::{AllocError, Global};

/// A token or a comment, without what a text may write otherwise.
#[derive(Drop)]
pub struct Piece {
    /// One of `kind`.
    pub kind: u8,
    pub text: Bytes,
}

/// The piece of a token, from its bytes.
pub(crate) fn token_piece(
    alloc: Global,
    text: &[u8],
    token: &TokenKind,
) -> Result<Piece, AllocError>
    ensures { IfOk result (λ made. made ≡ token_piece text.now token.now) }
{
    match token {
        TokenKind::Word(_) => lowered(alloc, kind::WORD, text),
        TokenKind::Id(_) => lowered(alloc, kind::IDENTIFIER, text),
        TokenKind::Number(_) => lowered(alloc, kind::NUMBER, text),
        TokenKind::Str(_) => copied(alloc, kind::STRING, text),
        TokenKind::Sym(_) => copied(alloc, kind::SYMBOL, reference_spelling(text)),
    }
}

/// A piece of these bytes.
fn copied(alloc: Global, kind: u8, text: &[u8]) -> Result<Piece, AllocError>
    ensures { IfOk result (λ made. made ≡ piece kind text.now) }
{
    let text = Bytes::from_slice(alloc, text)?;
    Ok(Piece { kind, text })
}

/// A piece of these bytes in lower case.
fn lowered(alloc: Global, kind: u8, text: &[u8]) -> Result<Piece, AllocError>
    ensures { IfOk result (λ made. made ≡ piece kind (lower_case text.now)) }
{
    let text = text.to_ascii_lowercase(alloc)?;
    Ok(Piece {
        kind,
        text: Bytes::from_vec(text),
    })
}

/// The first spelling of the symbol that has two.
fn reference_spelling(text: &[u8]) -> &[u8]
    ensures { result.now ≡ reference_spelling text.now }
{
    if text == b"(.".as_slice() {
        b"["
    } else if text == b".)".as_slice() {
        b"]"
    } else if text == b"@".as_slice() {
        b"^"
    } else {
        text
    }
}

/// The piece of a comment, from its bytes.
pub(crate) fn comment_piece(alloc: Global, text: &[u8]) -> Result<Piece, AllocError>
    requires { IsComment text.now }
    ensures { IfOk result (λ made. made ≡ comment_piece text.now) }
{
    let opener = opener_len(text);
    let closer = if text[text.len() - 1] == b'}' { 1 } else { 2 };
    copied(alloc, kind::COMMENT, &text[opener..text.len() - closer])
}

/// Whether a piece is this symbol.
fn is_symbol(piece: &Piece, text: &[u8]) -> bool
    ensures { result ≡ spec.is_symbol text.now piece.now }
{
    piece.kind == kind::SYMBOL && piece.text.items() == text
}

/// Whether a piece is this word symbol.
fn is_word(piece: &Piece, text: &[u8]) -> bool
    ensures { result ≡ spec.is_word text.now piece.now }
{
    piece.kind == kind::WORD && piece.text.items() == text
}

/// Whether a piece is an identifier.
fn is_identifier(piece: &Piece) -> bool
    ensures { result ≡ spec.is_identifier piece.now }
{
    piece.kind == kind::IDENTIFIER
}

/// Whether a piece is `(` or `[`.
pub fn opens(piece: &Piece) -> bool
    ensures { result ≡ spec.opens piece.now }
{
    is_symbol(piece, b"(") || is_symbol(piece, b"[")
}

/// Whether a piece is `)` or `]`.
pub fn closes(piece: &Piece) -> bool
    ensures { result ≡ spec.closes piece.now }
{
    is_symbol(piece, b")") || is_symbol(piece, b"]")
}

/// Whether a piece begins with `*` or `.`.
fn begins_apart(piece: &Piece) -> bool
    ensures { result ≡ spec.begins_apart piece.now }
{
    if piece.kind == kind::COMMENT {
        return false;
    }
    match piece.text.items() {
        [] => false,
        [first, ..] => *first == b'*' || *first == b'.',
    }
}

/// Whether a piece that ends something joins the one before it.
fn joins_end(first: &Piece, second: &Piece) -> bool
    ensures { result ≡ spec.joins_end first.now second.now }
{
    is_symbol(second, b":")
        || ((is_symbol(second, b",") || is_symbol(second, b";") || closes(second))
            && !(is_symbol(first, b".") || is_symbol(first, b"*")))
}

/// Whether a bracket, `.` or `^` joins the piece before it.
fn joins_selector(first: &Piece, second: &Piece) -> bool
    ensures { result ≡ spec.joins_selector first.now second.now }
{
    let selects = opens(second) || is_symbol(second, b".") || is_symbol(second, b"^");
    (selects && (is_identifier(first) || closes(first) || is_symbol(first, b"^")))
        || (is_word(first, b"end") && is_symbol(second, b"."))
}

/// Whether an identifier joins the piece before it.
fn joins_name(first: &Piece, second: &Piece) -> bool
    ensures { result ≡ spec.joins_name first.now second.now }
{
    (is_symbol(first, b".") || is_symbol(first, b"^")) && is_identifier(second)
}

/// Whether nothing stands between two pieces of a line.
#[tactic(auto, unfolding(crate::specs::Joining::joined))]
pub fn joined(first: &Piece, second: &Piece) -> bool
    ensures { result ≡ spec.joined first.now second.now }
{
    joins_end(first, second)
        || (opens(first) && !begins_apart(second))
        || joins_selector(first, second)
        || joins_name(first, second)
}
