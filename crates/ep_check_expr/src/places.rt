//! Places of fields, each of them once.

ghost use Rattle.std.specs.Prelude.{◌≡◌, ◌++◌, ◌∷◌, [], OnOk, false, nat_eq};
ghost use Rattle.std.specs.List.{list_any};

use ep_base::NoMemory;
use indexmap::IndexSet;
use std::alloc::Global;
use std::marker::Model;

/// Places, in the order in which they were added. Whether one is among them takes the same time whatever their number.
pub(crate) struct Places {
    places: IndexSet<usize>,
}

impl Model for Places {
    ghost use Rattle.std.specs.Prelude.{List, ℕ};

    ghost Value = { List ℕ };

    ghost view = { λ p. p.places.keys };
}

impl Drop for Places {
    fn drop(self) {
        let Places { places: _ } = self;
    }
}

impl Places {
    /// None. It takes no memory.
    pub(crate) fn new(alloc: Global) -> Places
        ensures { result ≡ [] }
    {
        Places {
            places: IndexSet::new(alloc),
        }
    }

    /// Whether a place is one of these.
    pub(crate) fn has(&self, place: usize) -> bool
        ensures { result ≡ list_any (nat_eq place) self.now }
    {
        self.places.contains(&place)
    }

    /// Adds a place at the end, which is not there.
    pub(crate) fn add(&mut self, place: usize) -> Result<(), NoMemory>
        requires { list_any (nat_eq place) self.old ≡ false }
        ensures { OnOk result (self.new ≡ self.old ++ place ∷ []) }
    {
        self.places.insert(place)?;
        Ok(())
    }
}
