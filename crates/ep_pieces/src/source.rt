//! The pieces of a whole source text.

ghost use Rattle.std.specs.Prelude.{◌≡◌, ◌⊎◌, ℕ, ◌<◌, ◌≤◌, List, length, drop, None, ◌++◌};
ghost use Rattle.std.specs.Prelude.{IfOk, OnOk, IsErrOf, IsOkUnless};
ghost use Rattle.std.specs.Option.{option_to_list};
ghost use Rattle.ep_token.specs.declared.refusal.TokenRefusal.{TokenRefusal};
ghost use Rattle.ep_token.specs.declared.source.TheConstants.{MAX_SOURCE};
ghost use Rattle.ep_token.specs.declared.token.Token.{Token};
ghost use Rattle.ep_token.specs.Tokens.{IsSpelled, Stuck, Tokens};
ghost use Rattle.ep_pieces.specs.declared.piece.Piece.{Piece};
ghost use Rattle.ep_pieces.specs.Pieces.{Pieces, piece_of, starts_at};

use crate::comment::blank_len;
use crate::piece::{Piece, comment_piece, token_piece};
use ep_token::{Token, TokenRefusal, tokens};
use std::alloc::{AllocError, Global};

/// The pieces of a source text, or the refusal of the first place where nothing can be taken.
pub fn pieces(alloc: Global, source: &[u8]) -> Result<Vec<Piece>, TokenRefusal>
    requires { length source.now ≤ MAX_SOURCE }

    // The list is the text's, and no other list is.
    ensures found { IfOk result (λ found. Pieces source.now found.items) }
    ensures only { IfOk result (λ found. (list : List Piece) → Pieces source.now list → list ≡ found.items) }

    // A text that has pieces is answered with them, unless memory is wanting.
    ensures accepted { (list : List Piece) → Pieces source.now list → IsOkUnless result TokenRefusal.NoMemory }

    // A refusal is that of the place where the text is stuck, and a text that is stuck is refused.
    ensures refused { (refusal : TokenRefusal) → IsErrOf result refusal
        → (refusal ≡ TokenRefusal.NoMemory) ⊎ ((place : ℕ) × Stuck source.now place refusal) }
    ensures stuck { (place : ℕ) (refusal : TokenRefusal) → Stuck source.now place refusal
        → IsErrOf result refusal ⊎ IsErrOf result TokenRefusal.NoMemory }
{
    match tokens(alloc, source) {
        Ok(tokens) => Ok(pieces_of(alloc, source, &tokens)?),
        Err(refusal) => Err(refusal),
    }
}

/// The pieces of a source text that has these tokens.
pub fn pieces_of(alloc: Global, source: &[u8], tokens: &[Token]) -> Result<Vec<Piece>, AllocError>
    requires { Tokens source.now tokens.now }
    ensures { IfOk result (λ found. Pieces source.now found.items) }
{
    let mut found = Vec::new(alloc);
    let mut place = 0;
    let mut taken = 0;
    while place < source.len() {
        if starts_at(tokens, taken, place) {
            let token = &tokens[taken];
            let end = token.end as usize;
            let piece = token_piece(alloc, &source[place..end], &token.kind)?;
            found.push(piece)?;
            taken += 1;
            place = end;
        } else {
            let rest = &source[place..];
            let len = blank_len(rest);
            push_comment(alloc, &mut found, &rest[..len])?;
            place += len;
        }
    }
    Ok(found)
}

/// Whether the next token starts at a place.
fn starts_at(tokens: &[Token], taken: usize, place: usize) -> bool
    requires { taken ≤ length tokens.now }
    ensures { result ≡ starts_at place (drop taken tokens.now) }
{
    taken < tokens.len() && tokens[taken].start as usize == place
}

/// Adds a comment at the end, or nothing for a separating byte.
fn push_comment(alloc: Global, found: &mut Vec<Piece>, text: &[u8]) -> Result<(), AllocError>
    requires { IsSpelled text.now None }
    ensures { OnOk result (found.new.items ≡ found.old.items ++ option_to_list (piece_of text.now None)) }
{
    if text.len() > 1 {
        found.push(comment_piece(alloc, text)?)?;
    }
    Ok(())
}
