//! What the calls of a memory answer.

ghost use Rattle.std.specs.Prelude.{◌≡◌};
ghost use Rattle.ep_memory.specs.declared.answers.MakeRefusal.TheVariants.{NoMemory};

use std::alloc::AllocError;

/// So many words would live, and no more than the limit may.
#[derive(Clone, Copy, Debug, PartialEq, Eq, Drop)]
pub struct Full(pub u64);

/// Why a segment is not made.
#[derive(Clone, Copy, Debug, PartialEq, Eq, Drop)]
pub enum MakeRefusal {
    /// So many words would live with it, and no more than the limit may.
    Full(u64),
    /// Memory is wanting.
    NoMemory,
}

impl From<AllocError> for MakeRefusal {
    ghost from_gives = { λ _ e. e ≡ NoMemory };

    fn from(_e: AllocError) -> MakeRefusal {
        MakeRefusal::NoMemory
    }
}

/// What stands at an offset of a segment.
#[derive(Clone, Copy, Debug, PartialEq, Eq, Drop)]
pub enum Cell {
    /// This word.
    Word(i64),
    /// Nothing, since the segment does not live.
    Gone,
    /// Nothing, since the segment has no more words than the offset.
    Outside,
}

/// What became of a word that was to be stored.
#[derive(Clone, Copy, Debug, PartialEq, Eq, Drop)]
pub enum Stored {
    /// It stands at its offset.
    Done,
    /// Nothing is changed, since the segment does not live.
    Gone,
    /// Nothing is changed, since the segment has no more words than the offset.
    Outside,
}

/// What became of a segment that was to end.
#[derive(Clone, Copy, Debug, PartialEq, Eq, Drop)]
pub enum Released {
    /// It has ended.
    Done,
    /// Nothing is changed, since it does not live.
    Gone,
}
