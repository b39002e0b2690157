//! The structured types of a scope, which are found by their numbers.

ghost use Rattle.std.specs.Prelude.{◌≡◌, [], ◌∷◌, ◌++◌, OnOk, OnErr};
ghost use Rattle.std.specs.Option.{option_copied};
ghost use Rattle.ep_scope.specs.Scopes.{structure_among};

use crate::structure::{Composition, StructuredType};
use ep_base::{List, NoMemory};
use indexmap::IndexMap;
use std::alloc::Global;
use std::marker::Model;

/// Structured types, in the order in which they were added.
pub(crate) struct Structures {
    all: List<StructuredType>,
    /// For each number the place of the first type that has it.
    places: IndexMap<u32, usize>,
}

impl Model for Structures {
    ghost use Rattle.std.specs.Prelude.{List};
    ghost use Rattle.ep_scope.specs.declared.structure.StructuredType.{StructuredType};
    ghost use Rattle.ep_scope.specs.Numbers.{AreNumberPlaces};

    ghost Value = { List StructuredType };

    ghost view = { λ s. s.all };

    ghost invariant = { λ s. AreNumberPlaces s.places.entries s.all };
}

impl Drop for Structures {
    fn drop(self) {
        let Structures { all: _, places: _ } = self;
    }
}

impl Structures {
    /// No types. It takes no memory.
    pub(crate) fn new(alloc: Global) -> Structures
        ensures { result ≡ [] }
    {
        Structures {
            all: List::new(alloc),
            places: IndexMap::new(alloc),
        }
    }

    /// Adds a type at the end.
    pub(crate) fn push(&mut self, structured: StructuredType) -> Result<(), NoMemory>
        ensures ok { OnOk result (self.new ≡ self.old ++ structured ∷ []) }
        ensures err { OnErr result (self.new ≡ self.old) }
    {
        let place = self.all.items().len();
        let number = structured.number;
        let is_there = self.places.contains_key(&number);
        self.places.reserve(1)?;
        self.all.push(structured)?;
        if !is_there {
            match self.places.insert(number, place) {
                Ok(_) => {}
                Err(_) => unreachable!(),
            }
        }
        Ok(())
    }

    /// What the type of this number is made of. `None` comes exactly where there is none. It takes no memory.
    pub(crate) fn find(&self, number: u32) -> Option<&Composition>
        ensures { option_copied result ≡ structure_among number self.now }
    {
        match self.places.get(&number) {
            None => None,
            Some(place) => match self.all.items().get(*place) {
                None => None,
                Some(structured) => Some(&structured.composition),
            },
        }
    }
}
