//! Lists of places that tell at once whether they have a place.

ghost use Rattle.std.specs.Prelude.{◌≡◌, ◌+◌, ◌<◌, ◌++◌, ◌∷◌, [], IfOk, OnOk, IsTrue, ◌↔◌};
ghost use Rattle.std.specs.List.{Contains};

use ep_base::{List, NoMemory};
use std::alloc::Global;
use std::marker::Model;

/// A list of places below a limit, of which no two are equal, in the order in which they were added.
#[derive(Drop)]
pub(crate) struct Places {
    items: List<u32>,
    /// For each place below the limit whether the list has it.
    flags: Vec<bool>,
}

impl Model for Places {
    ghost use Rattle.std.specs.Prelude.{length, not};
    ghost use Rattle.std.specs.List.{count_by};
    ghost use Rattle.ep_order.specs.Places.{PlaceList, AreFlagsOf};

    ghost Value = { PlaceList };

    ghost view = { λ p. record { items = p.items; limit = length p.flags.items; left = count_by not p.flags.items } };

    ghost invariant = { λ p. AreFlagsOf p.flags.items p.items };
}

impl Places {
    /// No place, with this limit.
    pub(crate) fn none(alloc: Global, limit: usize) -> Result<Places, NoMemory>
        ensures items { IfOk result (λ places. places.items ≡ []) }
        ensures limit { IfOk result (λ places. places.limit ≡ limit) }
    {
        Ok(Places {
            items: List::new(alloc),
            flags: vec![in alloc; false; limit]?,
        })
    }

    /// Whether the list has this place.
    pub(crate) fn has(&self, place: u32) -> bool
        requires { place < self.now.limit }
        ensures { IsTrue result ↔ Contains self.now.items place }
    {
        self.flags[place as usize]
    }

    /// Adds a place that the list doesn't have.
    pub(crate) fn push(&mut self, place: u32) -> Result<(), NoMemory>
        requires within { place < self.old.limit }
        requires new { ¬ Contains self.old.items place }
        ensures items { OnOk result (self.new.items ≡ self.old.items ++ place ∷ []) }
        ensures limit { self.new.limit ≡ self.old.limit }
        ensures left { OnOk result (self.new.left + 1 ≡ self.old.left) }
    {
        self.items.push(place)?;
        self.flags[place as usize] = true;
        Ok(())
    }

    /// The places.
    pub(crate) fn items(&self) -> &[u32]
        ensures { result.now ≡ self.now.items }
    {
        self.items.items()
    }

    /// The places, without the test.
    pub(crate) fn into_items(self) -> List<u32>
        ensures { result ≡ self.items }
    {
        let Places { items, flags: _ } = self;
        items
    }
}
