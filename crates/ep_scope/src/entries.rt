//! Names with what they stand for, in the order in which they were entered.

ghost use Rattle.std.specs.Prelude.{◌≡◌, [], ◌∷◌, ◌++◌, None, OnOk, OnErr};
ghost use Rattle.std.specs.Option.{option_copied};
ghost use Rattle.ep_scope.specs.Required.{look_up};
ghost use Rattle.ep_scope.specs.Entering.{AnswersEntry};

use crate::thing::Thing;
use ep_base::{Name, NoMemory};
use indexmap::IndexMap;
use std::alloc::Global;
use std::marker::Model;

/// The names of a scope or of an interface.
pub(crate) struct Entries {
    things: IndexMap<Vec<u8>, Thing>,
}

impl Model for Entries {
    ghost use Rattle.std.specs.Prelude.{List, ℕ};
    ghost use Rattle.ep_scope.specs.declared.thing.Thing.{Thing};
    ghost use Rattle.ep_scope.specs.Keys.{by_bytes};
    ghost use Rattle.std.specs.Coded.{codes};
    ghost use Rattle.ep_typed.specs.contracts.value.Value as value;

    ghost Value = { List (List ℕ × Thing) };

    ghost coded = { Prim.hlevel (codes, value.the_row.coded) };

    ghost view = { λ e. by_bytes e.things.entries };
}

impl Drop for Entries {
    fn drop(self) {
        let Entries { things: _ } = self;
    }
}

/// Why a name is not entered.
#[derive(Clone, Copy, Drop)]
pub(crate) enum EntryRefusal {
    /// The name is there.
    There,
    /// Memory is wanting.
    NoMemory,
}

impl Entries {
    /// No names. It takes no memory.
    pub(crate) fn new(alloc: Global) -> Entries
        ensures { result ≡ [] }
    {
        Entries {
            things: IndexMap::new(alloc),
        }
    }

    /// What a name stands for.
    pub(crate) fn find(&self, name: &Name) -> Option<&Thing>
        ensures { option_copied result ≡ look_up self.now name.now }
    {
        self.things.get(name.bytes())
    }

    /// Adds a name at the end, where it is not there.
    pub(crate) fn enter(
        &mut self,
        alloc: Global,
        name: &Name,
        thing: Thing,
    ) -> Result<(), EntryRefusal>
        ensures { AnswersEntry self.old name.now thing result self.new }
    {
        match self.find(name) {
            Some(_) => Err(EntryRefusal::There),
            None => match self.add(alloc, name, thing) {
                Ok(()) => Ok(()),
                Err(_) => Err(EntryRefusal::NoMemory),
            },
        }
    }

    /// Adds a name that is not there.
    pub(crate) fn add(&mut self, alloc: Global, name: &Name, thing: Thing) -> Result<(), NoMemory>
        requires { look_up self.old name.now ≡ None }
        ensures added { OnOk result (self.new ≡ self.old ++ (name.now, thing) ∷ []) }
        ensures unchanged { OnErr result (self.new ≡ self.old) }
    {
        let key = Vec::from_slice(alloc, name.bytes())?;
        self.things.insert(key, thing)?;
        Ok(())
    }
}
