//! Why a text has no tokens.

ghost use Rattle.std.specs.Prelude.{◌≡◌};
ghost use Rattle.ep_token.specs.declared.refusal.TokenRefusal.TheVariants.{NoMemory};

use ep_base::Line;
use std::alloc::{AllocError, AllocFailed};

/// Why a text has no tokens, with the line of the first place where nothing can be taken.
#[derive(Clone, Copy, Debug, PartialEq, Eq)]
pub enum TokenRefusal {
    /// No token, separating byte or comment begins there.
    NoToken(Line),
    /// A comment that is not closed begins there.
    OpenComment(Line),
    /// A character string that is not closed on its line begins there.
    OpenString(Line),
    /// A number that is too great or badly formed begins there.
    BadNumber(Line),
    /// An identifier of more than 255 bytes begins there.
    LongName(Line),
    /// Memory is wanting.
    NoMemory,
}

impl From<AllocError> for TokenRefusal {
    ghost from_gives = { λ _ e. e ≡ NoMemory };

    fn from(_e: AllocError) -> TokenRefusal {
        TokenRefusal::NoMemory
    }
}

impl<T: Drop> From<AllocFailed<T>> for TokenRefusal {
    ghost from_gives = { λ _ e. e ≡ NoMemory };

    fn from(_e: AllocFailed<T>) -> TokenRefusal {
        TokenRefusal::NoMemory
    }
}
