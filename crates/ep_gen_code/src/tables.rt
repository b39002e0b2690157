//! The tables of texts and references: each has an item once, in the order of the first uses, and finds it by a hash.

ghost use Rattle.std.specs.Prelude.{◌≡◌, [], ◌∷◌, ◌++◌, Some, length, slice_get, IfOk, MatchOption, OnErr, OnOk};
ghost use Rattle.ep_gen_code.specs.Growth.{IsNowhere};
ghost use Rattle.ep_gen_code.specs.Instructions.{reference};

use crate::keys::{ReferenceKey, ReferenceName};
use ep_base::{List, Name, NoMemory};
use ep_object::{Reference, References, Texts};
use indexmap::IndexSet;
use std::alloc::Global;
use std::marker::Model;

/// Texts, seen as the list of them.
pub struct TextTable {
    all: IndexSet<Vec<u8>>,
}

impl Model for TextTable {
    ghost use Rattle.std.specs.Prelude.{List, ℕ};
    ghost use Rattle.ep_gen_code.specs.Tables.{texts_of};

    ghost Value = { List (List ℕ) };

    ghost view = { λ t. texts_of t.all.keys };
}

impl Drop for TextTable {
    fn drop(self) {
        let TextTable { all: _ } = self;
    }
}

impl TextTable {
    /// No texts. It takes no memory.
    pub fn new(alloc: Global) -> TextTable
        ensures { result ≡ [] }
    {
        TextTable {
            all: IndexSet::new(alloc),
        }
    }

    /// How many there are. It takes no memory.
    pub fn count(&self) -> usize
        ensures { result ≡ length self.now }
    {
        self.all.len()
    }

    /// The place of a text, counted from 0. `None` comes exactly where it is not there. It takes no memory.
    pub fn find(&self, text: &[u8]) -> Option<usize>
        ensures { MatchOption result (IsNowhere self.now text.now)
            (λ place. slice_get self.now place ≡ Some text.now) }
    {
        self.all.get_index_of(text)
    }

    /// Adds a text at the end. Where memory is wanting the table is as before.
    pub fn push(&mut self, alloc: Global, text: &[u8]) -> Result<(), NoMemory>
        requires { IsNowhere self.old text.now }
        ensures ok { OnOk result (self.new ≡ self.old ++ text.now ∷ []) }
        ensures err { OnErr result (self.new ≡ self.old) }
    {
        let text = Vec::from_slice(alloc, text)?;
        self.all.insert(text)?;
        Ok(())
    }

    /// The texts of an object: their bytes stay in the memory where they are.
    pub fn into_texts(self, alloc: Global) -> Result<Texts, NoMemory>
        ensures { IfOk result (λ texts. texts ≡ self) }
    {
        let TextTable { all } = self;
        let mut texts = List::with_room(alloc, all.len())?;
        for text in all {
            texts.push(List::from_vec(text))?;
        }
        Ok(texts)
    }
}

/// References, seen as the list of them.
pub struct ReferenceTable {
    all: IndexSet<ReferenceKey>,
}

impl Model for ReferenceTable {
    ghost use Rattle.std.specs.Prelude.{List};
    ghost use Rattle.ep_object.specs.declared.code.Reference.{Reference};
    ghost use Rattle.ep_gen_code.specs.Tables.{references_of};

    ghost Value = { List Reference };

    ghost view = { λ t. references_of t.all.keys };
}

impl Drop for ReferenceTable {
    fn drop(self) {
        let ReferenceTable { all: _ } = self;
    }
}

impl ReferenceTable {
    /// No references. It takes no memory.
    pub fn new(alloc: Global) -> ReferenceTable
        ensures { result ≡ [] }
    {
        ReferenceTable {
            all: IndexSet::new(alloc),
        }
    }

    /// How many there are. It takes no memory.
    pub fn count(&self) -> usize
        ensures { result ≡ length self.now }
    {
        self.all.len()
    }

    /// The place of the reference to this number of a unit, counted from 0. `None` comes exactly where it is not there. It
    /// takes no memory.
    pub fn find(&self, unit: &Name, number: u32) -> Option<usize>
        ensures { MatchOption result (IsNowhere self.now (reference unit.now number))
            (λ place. slice_get self.now place ≡ Some (reference unit.now number)) }
    {
        self.all.get_index_of(ReferenceName { unit, number })
    }

    /// Adds a reference at the end. Where memory is wanting the table is as before.
    pub fn push(&mut self, alloc: Global, unit: &Name, number: u32) -> Result<(), NoMemory>
        requires { IsNowhere self.old (reference unit.now number) }
        ensures ok { OnOk result (self.new ≡ self.old ++ reference unit.now number ∷ []) }
        ensures err { OnErr result (self.new ≡ self.old) }
    {
        let unit = unit.copy(alloc)?;
        let reference = Reference { unit, number };
        self.all.insert(ReferenceKey { reference })?;
        Ok(())
    }

    /// The references of an object: their names stay in the memory where they are.
    pub fn into_references(self, alloc: Global) -> Result<References, NoMemory>
        ensures { IfOk result (λ references. references ≡ self) }
    {
        let ReferenceTable { all } = self;
        let mut references = List::with_room(alloc, all.len())?;
        for key in all {
            references.push(key.into_reference())?;
        }
        Ok(references)
    }
}
