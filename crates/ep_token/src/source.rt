//! The tokens of a whole source text.

ghost use Rattle.std.specs.Prelude.{◌≡◌, ◌⊎◌, ℕ, ◌+◌, ◌<◌, ◌≤◌, ◌^◌, ◌==◌, List, ◌++◌, length};
ghost use Rattle.std.specs.Prelude.{map, count_by, Option, IfOk, OnOk, IsErrOf, IsOkUnless};
ghost use Rattle.std.specs.Option.{option_to_list};
ghost use Rattle.ep_token.specs.declared.refusal.TokenRefusal.{TokenRefusal};
ghost use Rattle.ep_token.specs.declared.token.Token.{Token};
ghost use Rattle.ep_token.specs.Tokens.{AreInOrder, Stuck, Tokens, token_of};

use crate::piece::piece_at;
use crate::refusal::TokenRefusal;
use crate::token::{Token, TokenKind};
use ep_base::Line;
use std::alloc::{AllocError, Global};

/// The greatest number of bytes of a source text.
pub const MAX_SOURCE: usize = 1_048_576;

/// The tokens of a source text, or the refusal of the first place where nothing can be taken.
pub fn tokens(alloc: Global, source: &[u8]) -> Result<Vec<Token>, TokenRefusal>
    requires { length source.now ≤ MAX_SOURCE }

    // The list is the text's, and no other list is.
    ensures found { IfOk result (λ found. Tokens source.now found.items) }
    ensures only { IfOk result (λ found. (list : List Token) → Tokens source.now list → list ≡ found.items) }
    ensures order { IfOk result (λ found. AreInOrder 0 found.items (length source.now)) }

    // A text that has tokens is answered with them, unless memory is wanting.
    ensures accepted { (list : List Token) → Tokens source.now list → IsOkUnless result TokenRefusal.NoMemory }

    // A refusal is that of the place where the text is stuck, and a text that is stuck is refused.
    ensures refused { (refusal : TokenRefusal) → IsErrOf result refusal
        → (refusal ≡ TokenRefusal.NoMemory) ⊎ ((place : ℕ) × Stuck source.now place refusal) }
    ensures stuck { (place : ℕ) (refusal : TokenRefusal) → Stuck source.now place refusal
        → IsErrOf result refusal ⊎ IsErrOf result TokenRefusal.NoMemory }
{
    scan(alloc, source)
}

/// A text has one list of tokens or one place where it is stuck, and not both.
pub fn one_reading()
    ensures some { (bytes : List ℕ) → ((list : List Token) × Tokens bytes list)
        ⊎ ((place : ℕ) × (refusal : TokenRefusal) × Stuck bytes place refusal) }
    ensures list { (bytes : List ℕ) (list other : List Token) → Tokens bytes list → Tokens bytes other → list ≡ other }
    ensures apart { (bytes : List ℕ) (list : List Token) (place : ℕ) (refusal : TokenRefusal)
        → Tokens bytes list → Stuck bytes place refusal → ⊥ }
    ensures place { (bytes : List ℕ) (place other : ℕ) (refusal cause : TokenRefusal)
        → Stuck bytes place refusal → Stuck bytes other cause → (place ≡ other) × (refusal ≡ cause) }
{}

/// Reads a text piece by piece, each byte of it once but for the end of a string that is not closed.
fn scan(alloc: Global, source: &[u8]) -> Result<Vec<Token>, TokenRefusal>
    requires { length source.now ≤ MAX_SOURCE }
    ensures found { IfOk result (λ found. Tokens source.now found.items) }
    ensures refused { (refusal : TokenRefusal) → IsErrOf result refusal
        → (refusal ≡ TokenRefusal.NoMemory) ⊎ ((place : ℕ) × Stuck source.now place refusal) }
{
    let mut found = Vec::new(alloc);
    let mut place = 0;
    let mut line = 1;
    while place < source.len() {
        let rest = &source[place..];
        let (len, kind) = piece_at(alloc, line, rest)?;
        push_token(&mut found, kind, line, place as u32, (place + len) as u32)?;
        line += line_ends(&rest[..len]);
        place += len;
    }
    Ok(found)
}

/// Adds a token at the end, if the piece is one.
fn push_token(
    found: &mut Vec<Token>,
    kind: Option<TokenKind>,
    line: Line,
    start: u32,
    end: u32,
) -> Result<(), AllocError>
    ensures { OnOk result (found.new.items ≡ found.old.items ++ map (token_of line start end) (option_to_list kind)) }
{
    if let Some(kind) = kind {
        found.push(Token {
            kind,
            line,
            start,
            end,
        })?;
    }
    Ok(())
}

/// The number of lines that end in a text.
fn line_ends(text: &[u8]) -> u32
    requires { length text.now ≤ MAX_SOURCE }
    ensures { result ≡ count_by (λ b. b == 10) text.now }
{
    text.iter().filter(|byte| **byte == b'\n').count() as u32
}
