//! The types that are met, each once, under their numbers. Which number a type has is found by hash.

ghost use Rattle.std.specs.Prelude.{◌≡◌, ◌<◌, ◌∷◌, ◌++◌, [], length, Some, None, IfSome, OnOk, OnErr};
ghost use Rattle.ep_object.specs.Types.{entry_number, ordinal_entry};

use ep_base::NoMemory;
use ep_object::TypeEntry;
use indexmap::IndexSet;
use std::alloc::Global;
use std::marker::Model;

/// How many types are compared with, one after the other, before a type is looked up by its hash. The ordinal types that
/// are there from the start come first, and a comparison costs a quarter of such a look-up.
const FRONT: usize = 3;

/// The number of the same type, where it is one of the first.
#[inline(always)]
fn number_in_front(entry: &TypeEntry, types: &[TypeEntry]) -> Option<usize>
    ensures number { IfSome result (λ number. entry_number entry.now types.now ≡ Some number) }
    ensures within { IfSome result (λ number. number < length types.now) }
{
    types.iter().take(FRONT).position(|e| *entry == *e)
}

/// How many ordinal types are noted.
const NOTES: usize = 16;

/// The number of a note of no type.
const NONE: u32 = u32::MAX;

/// The number of an ordinal type.
#[derive(Clone, Copy, Drop)]
pub struct Note {
    /// Its lower bound.
    pub low: i64,
    /// Its upper bound.
    pub high: i64,
    /// The number.
    pub number: u32,
}

/// Where an ordinal type is noted, if it is.
#[inline(always)]
fn note_place(low: i64, high: i64) -> usize
    ensures { result < 16 }
{
    low.wrapping_add(high).rem_euclid(16) as usize
}

/// The types that were met, in the order in which they were. The numbers of some ordinal types are noted, since most
/// variables are made with a type whose bounds are constants, and such a type is met again at each of them.
pub struct TypeTable {
    entries: IndexSet<TypeEntry>,
    notes: [Note; NOTES],
}

impl Model for TypeTable {
    ghost use Rattle.ep_object.specs.State.{TypeTable as Entries};
    ghost use Rattle.ep_rows.specs.Notes.{AllNoted};

    ghost Value = { Entries };

    ghost view = { λ t. t.entries.keys };

    ghost invariant = { λ t. AllNoted t.notes t.entries.keys };
}

impl Drop for TypeTable {
    fn drop(self) {
        let TypeTable {
            entries: _,
            notes: _,
        } = self;
    }
}

impl TypeTable {
    /// No types. It takes no memory.
    pub fn new(alloc: Global) -> TypeTable
        ensures { result ≡ [] }
    {
        TypeTable {
            entries: IndexSet::new(alloc),
            notes: [Note {
                low: 0,
                high: 0,
                number: NONE,
            }; NOTES],
        }
    }

    /// The number of an ordinal type, if it is noted.
    #[inline(always)]
    pub fn noted(&self, low: i64, high: i64) -> Option<u32>
        ensures { IfSome result (λ number. entry_number (ordinal_entry low high) self.now ≡ Some number) }
    {
        let Some(note) = self.notes.get(note_place(low, high)) else {
            return None;
        };
        if note.low == low && note.high == high && note.number < NONE {
            Some(note.number)
        } else {
            None
        }
    }

    /// The number of an ordinal type is noted.
    pub fn note(&mut self, low: i64, high: i64, number: u32)
        requires { entry_number (ordinal_entry low high) self.old ≡ Some number }
        ensures { self.new ≡ self.old }
    {
        self.notes[note_place(low, high)] = Note { low, high, number };
    }

    /// The types by number.
    #[inline(always)]
    pub fn entries(&self) -> &[TypeEntry]
        ensures { result.now ≡ self.now }
    {
        self.entries.as_slice()
    }

    /// The number of the type that is the same.
    #[inline(never)]
    pub fn number_of(&self, entry: &TypeEntry) -> Option<usize>
        ensures number { result ≡ entry_number entry.now self.now }
        ensures within { IfSome result (λ number. number < length self.now) }
    {
        match number_in_front(entry, self.entries.as_slice()) {
            Some(number) => Some(number),
            None => self.entries.get_index_of(entry),
        }
    }

    /// A type that is not there gets the next number. Without memory all stays as it was.
    #[inline(never)]
    pub fn add(&mut self, entry: TypeEntry) -> Result<(), NoMemory>
        requires { entry_number entry self.old ≡ None }
        ensures added { OnOk result (self.new ≡ self.old ++ entry ∷ []) }
        ensures unchanged { OnErr result (self.new ≡ self.old) }
    {
        self.entries.insert(entry)?;
        Ok(())
    }
}
