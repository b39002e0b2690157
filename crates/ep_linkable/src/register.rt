//! Names with the places that they come from.

ghost use Rattle.std.specs.Prelude.{◌≡◌, ◌<◌, ℕ, List, None, IfOk, OnOk, MatchBool};
ghost use Rattle.std.specs.Option.{option_copied};
ghost use Rattle.ep_order.specs.Systems.{IsUpTo};
ghost use Rattle.ep_linkable.specs.Registers.{IsTwice, lesser, place_in, place_under, seen, twice_after, with_first};

use ep_base::{Name, NoMemory};
use std::alloc::Global;
use std::collections::BTreeMap;

/// A name with the place of the unit that it comes from.
#[derive(Clone, Copy)]
pub(crate) struct Entry<'a> {
    /// The name.
    pub name: &'a Name,
    /// The place.
    pub place: u32,
}

/// Names with the places that they come from first.
#[derive(Drop)]
pub(crate) struct Register<'a> {
    places: BTreeMap<&'a [u8], u32>,
    /// The least name that comes twice.
    pub twice: Option<&'a Name>,
}

impl<'a> Register<'a> {
    /// No names. It takes no memory.
    fn empty(alloc: Global) -> Register<'a>
        ensures places { (name : List ℕ) → place_under result name ≡ None }
        ensures twice { result.twice ≡ None }
    {
        Register {
            places: BTreeMap::new(alloc),
            twice: None,
        }
    }

    /// The names of entries.
    pub(crate) fn of(alloc: Global, entries: &[Entry<'a>]) -> Result<Register<'a>, NoMemory>
        ensures places { IfOk result (λ register. (name : List ℕ)
            → place_under register name ≡ place_in (seen entries.now) name) }
        ensures twice { IfOk result (λ register. IsTwice (seen entries.now) (option_copied register.twice)) }
    {
        let mut register = Register::empty(alloc);
        for entry in entries {
            register.add(entry.name, entry.place)?;
        }
        Ok(register)
    }

    /// Adds a name that comes from this place.
    fn add(&mut self, name: &'a Name, place: u32) -> Result<(), NoMemory>
        ensures places { OnOk result ((other : List ℕ)
            → place_under self.new other ≡ with_first (place_under self.old) name.now place other) }
        ensures twice { OnOk result (option_copied self.new.twice
            ≡ twice_after (place_under self.old name.now) (option_copied self.old.twice) name.now) }
    {
        if self.places.contains_key(name.bytes()) {
            self.twice = Some(lesser(self.twice, name));
            return Ok(());
        }
        self.places.insert(name.bytes(), place)?;
        Ok(())
    }

    /// The first place that a name comes from. It takes no memory.
    pub(crate) fn place(&self, name: &Name) -> Option<u32>
        ensures { result ≡ place_under self.now name.now }
    {
        self.places.get(name.bytes()).copied()
    }
}

/// The lesser one of two names, the first of which may be missing.
fn lesser<'a>(first: Option<&'a Name>, second: &'a Name) -> &'a Name
    ensures { result.now ≡ lesser (option_copied first.entry) second.now }
{
    match first {
        None => second,
        Some(name) => {
            if second.bytes().cmp(name.bytes()).is_lt() {
                second
            } else {
                name
            }
        }
    }
}

/// Whether the first name is no greater than the second, in the order of bytes; else the second is no greater than the
/// first.
pub(crate) fn is_up_to(first: &Name, second: &Name) -> bool
    ensures { MatchBool result (IsUpTo first.now second.now) (IsUpTo second.now first.now) }
{
    first.bytes().cmp(second.bytes()).is_le()
}
