//! Whole texts.

ghost use Rattle.std.specs.Prelude.{◌≡◌, ◌<◌, ◌^◌, ◌-◌, List, length, IfErr, IfOk, MatchResult};
ghost use Rattle.ep_tree.specs.declared.component.Component.{Component};
ghost use Rattle.ep_grammar.specs.Rules.{Grammar};
ghost use Rattle.ep_parse.specs.Refusals.{Refuses, first_line, last_line, refusal_at};

use ep_base::Line;
use ep_grammar::{MAX_NESTING, Stop};
use ep_parse_unit::all_components;
use ep_reader::Reader;
use ep_token::Token;
use ep_tree::Component;
use std::alloc::Global;

/// Why a text is refused, with the number of the token from 0, and its line. The token past the last is the end
/// of the text, and its line is the last token's, or 1.
#[derive(Clone, Copy, Debug, PartialEq, Eq, Drop)]
pub enum ParseRefusal {
    /// No list of components begins so.
    Syntax(u32, Line),
    /// None begins so in which at most 100 levels nest.
    Nested(u32, Line),
    /// Memory is wanting.
    NoMemory,
}

/// The components that the tokens derive, which are no others.
pub fn components(alloc: Global, tokens: &[Token]) -> Result<Vec<Component>, ParseRefusal>
    requires { length tokens.now < 2 ^ 32 }

    // The tokens derive the components, in which at most 100 levels nest.
    ensures derived { IfOk result (λ found. Grammar MAX_NESTING tokens.now found.items) }

    // Tokens that derive components are answered with them, unless memory is wanting.
    ensures accepted { (list : List Component) → Grammar MAX_NESTING tokens.now list
        → MatchResult result (λ found. found.items ≡ list) (λ refusal. refusal ≡ ParseRefusal.NoMemory) }

    ensures refused { IfErr result (Refuses MAX_NESTING tokens.now) }
{
    let mut reader = Reader::new(tokens);
    match all_components(alloc, &mut reader, MAX_NESTING) {
        Ok(found) => {
            if reader.left() > 0 {
                return Err(refusal(Stop::Syntax, tokens, &reader));
            }
            Ok(found)
        }
        Err(stop) => Err(refusal(stop, tokens, &reader)),
    }
}

/// The refusal of the token at which a reader of the tokens stands.
fn refusal(stop: Stop, tokens: &[Token], reader: &Reader<'_>) -> ParseRefusal
    requires { length tokens.now < 2 ^ 32 }
    ensures { result ≡ refusal_at stop (length tokens.now - length reader.now)
        (first_line (last_line 1 tokens.now) reader.now) }
{
    let place = tokens.len().saturating_sub(reader.left()) as u32;
    let line = line(tokens, reader);
    match stop {
        Stop::NoMemory => ParseRefusal::NoMemory,
        Stop::Syntax => ParseRefusal::Syntax(place, line),
        Stop::Nested => ParseRefusal::Nested(place, line),
    }
}

/// The line of the next token, at the end that of the last token, or 1 where there is none.
fn line(tokens: &[Token], reader: &Reader<'_>) -> Line
    ensures { result ≡ first_line (last_line 1 tokens.now) reader.now }
{
    if reader.left() > 0 {
        return reader.line();
    }
    match tokens {
        [] => 1,
        [.., last] => last.line,
    }
}
