//! Why parsing stops.

use std::alloc::AllocError;

/// How deep a text may nest.
pub const MAX_NESTING: u32 = 100;

/// Why a parser stopped at a token.
#[derive(Clone, Copy, PartialEq, Eq, Debug)]
pub enum Stop {
    /// Memory is wanting.
    NoMemory,
    /// The token cannot stand there.
    Syntax,
    /// The token would make the text nest too deep.
    Nested,
}

impl From<AllocError> for Stop {
    ghost use Rattle.std.specs.Prelude.{◌≡◌};
    ghost use Rattle.ep_grammar.specs.declared.stop.Stop.TheVariants.{NoMemory};

    ghost from_gives = { λ _ e. e ≡ NoMemory };

    fn from(_: AllocError) -> Stop {
        Stop::NoMemory
    }
}
