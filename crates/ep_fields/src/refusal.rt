//! Why a field could not be read.

ghost use Rattle.std.specs.Prelude.{◌≡◌};
ghost use Rattle.ep_fields.specs.declared.refusal.FieldRefusal.TheVariants.{NoMemory};

use std::alloc::AllocError;

/// Why a field could not be read. `Short` and `Bad` carry the place of the field's first byte, counted from 0, where the
/// reader still stands.
#[derive(Clone, Copy, Debug, PartialEq, Eq, Drop)]
pub enum FieldRefusal {
    /// The field needs more bytes than are left.
    Short(u64),
    /// The field holds no name in lower case.
    Bad(u64),
    /// Memory is wanting; the reader is as before.
    NoMemory,
}

impl From<AllocError> for FieldRefusal {
    ghost from_gives = { λ _ e. e ≡ NoMemory };

    fn from(_e: AllocError) -> FieldRefusal {
        FieldRefusal::NoMemory
    }
}
