//! Names: identifiers in lower case.

ghost use Rattle.std.specs.Prelude.{◌≡◌, ℕ, ◌<◌, ◌≤◌, true, false, length, IsTrue, IfOk, IsErrOf};
ghost use Rattle.ep_base.specs.Identifiers.{is_identifier, is_identifier_rest, is_name, lower_case};
ghost use Rattle.ep_base.specs.declared.name.NameRefusal.TheVariants.{NoMemory};
ghost use Rattle.ep_base.specs.declared.name.TheConstants as limit;

use crate::list::List;
use std::alloc::{AllocError, Global};
use std::marker::Model;

/// The greatest number of bytes of a name.
pub const MAX_NAME: usize = 255;

/// An owned list of names.
pub type Names = List<Name>;

/// An identifier in lower case of at most `MAX_NAME` bytes, seen as its bytes. A word symbol has the form of an
/// identifier and is accepted.
#[derive(Debug, Drop)]
pub struct Name {
    bytes: Vec<u8>,
}

impl Model for Name {
    ghost use Rattle.std.specs.Prelude.{List, ℕ, IsTrue};
    ghost use Rattle.ep_base.specs.Identifiers.{is_name};

    ghost Value = { List ℕ };

    ghost view = { λ n. n.bytes.items };

    ghost invariant = { λ n. IsTrue (is_name n.bytes.items) };
}

/// Why a text is no name.
#[derive(Clone, Copy, Debug, PartialEq, Eq, Drop)]
pub enum NameRefusal {
    /// The text is no identifier.
    NotAName,
    /// It is an identifier of more than `MAX_NAME` bytes, namely of this many.
    TooLong(u64),
    /// Memory is wanting.
    NoMemory,
}

impl From<AllocError> for NameRefusal {
    ghost from_gives = { λ _ e. e ≡ NoMemory };

    fn from(_e: AllocError) -> NameRefusal {
        NameRefusal::NoMemory
    }
}

impl Name {
    /// The text in lower case. `NotAName` comes exactly where the text is no identifier, and `TooLong`
    /// exactly where it is one of more than `MAX_NAME` bytes.
    #[tactic(auto, using(crate::proofs::Cases::lowered))]
    pub fn from_bytes(alloc: Global, text: &[u8]) -> Result<Name, NameRefusal>
        ensures name { IfOk result (λ name. (name ≡ lower_case text.now) × (is_identifier text.now ≡ true)
            × (length text.now ≤ limit.MAX_NAME)) }
        ensures not_a_name { IsErrOf result NameRefusal.NotAName → is_identifier text.now ≡ false }
        ensures too_long { (n : ℕ) → IsErrOf result (NameRefusal.TooLong n)
            → (is_identifier text.now ≡ true) × (limit.MAX_NAME < n) × (n ≡ length text.now) }
    {
        if !is_identifier(text) {
            return Err(NameRefusal::NotAName);
        }
        if text.len() > MAX_NAME {
            return Err(NameRefusal::TooLong(text.len() as u64));
        }
        let bytes = text.to_ascii_lowercase(alloc)?;
        Ok(Name { bytes })
    }

    /// The name's bytes, which are an identifier in lower case. It takes no memory.
    pub fn bytes(&self) -> &[u8]
        ensures bytes { result.now ≡ self.now }
        ensures name { IsTrue (is_name result.now) }
    {
        self.bytes.as_slice()
    }

    /// An equal name.
    pub fn copy(&self, alloc: Global) -> Result<Name, AllocError>
        ensures { IfOk result (λ name. name ≡ self.now) }
    {
        let bytes = Vec::from_slice(alloc, self.bytes.as_slice())?;
        Ok(Name { bytes })
    }
}

/// Whether a text is an identifier, in any case of letters (ISO 10206, 6.1.3).
pub fn is_identifier(text: &[u8]) -> bool
    ensures { result ≡ is_identifier text.now }
{
    let Some((first, rest)) = text.split_first() else {
        return false;
    };
    first.is_ascii_alphabetic() && is_identifier_rest(rest)
}

/// Whether a text may follow the first letter of an identifier.
#[tactic(auto, using(crate::proofs::Rests::walk))]
fn is_identifier_rest(rest: &[u8]) -> bool
    ensures { result ≡ is_identifier_rest rest.now }
{
    let mut after_underscore = false;
    for byte in rest {
        if byte.is_ascii_alphanumeric() {
            after_underscore = false;
        } else if *byte == b'_' && !after_underscore {
            after_underscore = true;
        } else {
            return false;
        }
    }
    !after_underscore
}
