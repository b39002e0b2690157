//! Scopes: the names that one part of a text declares or imports.

ghost use Rattle.std.specs.Prelude.{◌≡◌, [], None, OnOk, OnErr};
ghost use Rattle.std.specs.Option.{option_copied};
ghost use Rattle.ep_scope.specs.Required.{look_up};
ghost use Rattle.ep_scope.specs.Scopes.{empty_region, look_up_in, structure_among, with_interface, with_structure};
ghost use Rattle.ep_scope.specs.Entering.{AnswersEntered, AnswersEntryIn, AnswersConstituent};

use crate::entries::{Entries, EntryRefusal};
use crate::structure::{Composition, StructuredType};
use crate::structures::Structures;
use crate::thing::Thing;
use ep_base::{Name, NoMemory};
use indexmap::IndexMap;
use std::alloc::Global;
use std::marker::Model;

/// The names of a part of a text, in the order in which they were entered, those that are reached by the name of an
/// interface, and the structured types.
pub struct Scope {
    alloc: Global,
    entries: Entries,
    qualified: IndexMap<Vec<u8>, Entries>,
    structures: Structures,
}

impl Model for Scope {
    ghost use Rattle.std.specs.Prelude.{[]};
    ghost use Rattle.ep_scope.specs.Scopes.{Region};
    ghost use Rattle.ep_scope.specs.Keys.{by_bytes};
    ghost use Rattle.std.specs.Coded.{codes};
    ghost use Rattle.ep_typed.specs.contracts.value.Value as value;

    ghost Value = { Region };

    ghost coded = { Prim.hlevel (codes, value.the_row.coded) };

    ghost view = { λ s. record { entries = s.entries; qualified = by_bytes s.qualified.entries; structures = s.structures; records = [] } };
}

impl Drop for Scope {
    fn drop(self) {
        let Scope {
            alloc: _,
            entries: _,
            qualified: _,
            structures: _,
        } = self;
    }
}

/// Why a name is not entered, or an import not opened.
pub enum ScopeRefusal {
    /// Not exactly one of the given headings exports the interface.
    NoInterface(Name),
    /// The interface does not have the constituent.
    NoConstituent(Name),
    /// The name is there.
    Twice(Name),
    /// Memory is wanting.
    NoMemory,
}

impl Drop for ScopeRefusal {
    fn drop(self) {
        match self {
            ScopeRefusal::NoInterface(_) => {}
            ScopeRefusal::NoConstituent(_) => {}
            ScopeRefusal::Twice(_) => {}
            ScopeRefusal::NoMemory => {}
        }
    }
}

impl Scope {
    /// A scope without names. It takes no memory.
    pub fn new(alloc: Global) -> Scope
        ensures { result ≡ empty_region }
    {
        Scope {
            alloc,
            entries: Entries::new(alloc),
            qualified: IndexMap::new(alloc),
            structures: Structures::new(alloc),
        }
    }

    /// Adds a name at the end. `Twice` comes exactly where the name is there, and after a refusal the scope is as before.
    pub fn enter(&mut self, name: Name, thing: Thing) -> Result<(), ScopeRefusal>
        ensures { AnswersEntered self.old name thing result self.new }
    {
        match self.entries.enter(self.alloc, &name, thing) {
            Ok(()) => Ok(()),
            Err(EntryRefusal::There) => Err(ScopeRefusal::Twice(name)),
            Err(EntryRefusal::NoMemory) => Err(ScopeRefusal::NoMemory),
        }
    }

    /// Adds a name that an interface has, alike.
    pub fn enter_in(
        &mut self,
        interface: Name,
        name: Name,
        thing: Thing,
    ) -> Result<(), ScopeRefusal>
        ensures { AnswersConstituent self.old interface name thing result self.new }
    {
        match self.constituent(&interface, &name, thing) {
            Ok(()) => Ok(()),
            Err(EntryRefusal::There) => Err(ScopeRefusal::Twice(name)),
            Err(EntryRefusal::NoMemory) => Err(ScopeRefusal::NoMemory),
        }
    }

    /// Adds a name to those of an interface, which is the last one where it is new.
    fn constituent(
        &mut self,
        interface: &Name,
        name: &Name,
        thing: Thing,
    ) -> Result<(), EntryRefusal>
        ensures { AnswersEntryIn self.old interface.now name.now thing result self.new }
    {
        match self.qualified.get_mut(interface.bytes()) {
            Some(entries) => entries.enter(self.alloc, name, thing),
            None => match self.open(interface, name, thing) {
                Ok(()) => Ok(()),
                Err(_) => Err(EntryRefusal::NoMemory),
            },
        }
    }

    /// Adds an interface with its first name.
    fn open(&mut self, interface: &Name, name: &Name, thing: Thing) -> Result<(), NoMemory>
        requires { look_up self.old.qualified interface.now ≡ None }
        ensures opened { OnOk result (self.new ≡ with_interface self.old interface.now name.now thing) }
        ensures unchanged { OnErr result (self.new ≡ self.old) }
    {
        let mut entries = Entries::new(self.alloc);
        entries.add(self.alloc, name, thing)?;
        let key = Vec::from_slice(self.alloc, interface.bytes())?;
        self.qualified.insert(key, entries)?;
        Ok(())
    }

    /// Adds a structured type.
    pub fn add_structure(&mut self, structured: StructuredType) -> Result<(), NoMemory>
        ensures { OnOk result (self.new ≡ with_structure self.old structured) }
    {
        self.structures.push(structured)?;
        Ok(())
    }

    /// What the structured type of this number is made of. `None` comes exactly where the scope does not have it. It takes
    /// no memory.
    pub fn structure(&self, number: u32) -> Option<&Composition>
        ensures { option_copied result ≡ structure_among number self.now.structures }
    {
        self.structures.find(number)
    }

    /// What a name stands for. `None` comes exactly where the scope does not have it. It takes no memory.
    pub fn find(&self, name: &Name) -> Option<&Thing>
        ensures found { option_copied result ≡ look_up self.now.entries name.now }
        ensures closed { self.now.records ≡ [] }
    {
        self.entries.find(name)
    }

    /// What the interface of this name has under the name. `None` comes exactly where there is none. It takes no memory.
    pub fn find_in(&self, interface: &Name, name: &Name) -> Option<&Thing>
        ensures { option_copied result ≡ look_up_in self.now interface.now name.now }
    {
        match self.qualified.get(interface.bytes()) {
            None => None,
            Some(entries) => entries.find(name),
        }
    }
}
