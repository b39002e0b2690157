//! Names, and what is kept under them, which are found without a walk over all.

ghost use Rattle.std.specs.Prelude.{◌≡◌, ℕ, List, [], ◌∷◌, ◌++◌, ◌||◌, None, Some, OnOk, if◌then◌else◌};
ghost use Rattle.std.specs.List.{list_any};
ghost use Rattle.std.specs.Option.{option_copied};
ghost use Rattle.std.specs.Str.{bytes_eq};
ghost use Rattle.ep_imports.specs.Found.{found, or_else};

use ep_base::NoMemory;
use indexmap::{IndexMap, IndexSet};
use std::alloc::Global;
use std::marker::Model;

/// Texts, as names or spellings.
pub(crate) struct Texts {
    keys: IndexSet<Vec<u8>>,
}

impl Model for Texts {
    ghost use Rattle.std.specs.Prelude.{List, ℕ, map};

    ghost Value = { List (List ℕ) };

    ghost view = { λ t. map (λ k. k.items) t.keys.keys };
}

impl Drop for Texts {
    fn drop(self) {
        let Texts { keys: _ } = self;
    }
}

impl Texts {
    /// No text. It takes no memory.
    pub(crate) fn new(alloc: Global) -> Texts
        ensures { result ≡ [] }
    {
        Texts {
            keys: IndexSet::new(alloc),
        }
    }

    /// Whether a text is among them.
    pub(crate) fn has(&self, text: &[u8]) -> bool
        ensures { result ≡ list_any (bytes_eq text.now) self.now }
    {
        self.keys.contains(text)
    }

    /// One text more, which may be among them.
    pub(crate) fn add(&mut self, alloc: Global, text: &[u8]) -> Result<(), NoMemory>
        ensures { OnOk result ((other : List ℕ) → list_any (bytes_eq other) self.new
            ≡ (list_any (bytes_eq other) self.old || bytes_eq other text.now)) }
    {
        let key = Vec::from_slice(alloc, text)?;
        self.keys.insert(key)?;
        Ok(())
    }
}

/// What is kept under names, in the order in which it came.
pub(crate) struct Named<V> {
    entries: IndexMap<Vec<u8>, V>,
}

impl<V> Model for Named<V> {
    ghost use Rattle.std.specs.Prelude.{List, ℕ};
    ghost use Rattle.std.specs.Coded.{coded_list, coded×, coded_ℕ};
    ghost use Rattle.ep_imports.specs.Found.{by_bytes};

    ghost Value = { List (List ℕ × V) };

    ghost coded = { coded_list (coded× (coded_list coded_ℕ) V.code) };

    ghost view = { λ n. by_bytes n.entries.entries };
}

impl<V: Drop> Drop for Named<V> {
    fn drop(self) {
        let Named { entries: _ } = self;
    }
}

impl<V> Named<V> {
    /// Nothing. It takes no memory.
    pub(crate) fn new(alloc: Global) -> Named<V>
        ensures { result ≡ [] }
    {
        Named {
            entries: IndexMap::new(alloc),
        }
    }

    /// What is kept under a name.
    pub(crate) fn find(&self, name: &[u8]) -> Option<&V>
        ensures { option_copied result ≡ found self.now name.now }
    {
        self.entries.get(name)
    }
}

impl<V: Drop> Named<V> {
    /// Keeps a value under a name that has none.
    pub(crate) fn add(&mut self, alloc: Global, name: &[u8], value: V) -> Result<(), NoMemory>
        requires { found self.old name.now ≡ None }
        ensures { OnOk result (self.new ≡ self.old ++ (name.now, value) ∷ []) }
    {
        let key = Vec::from_slice(alloc, name)?;
        self.entries.insert(key, value)?;
        Ok(())
    }

    /// Keeps a value under a name, where it has none.
    pub(crate) fn add_first(&mut self, alloc: Global, name: &[u8], value: V) -> Result<(), NoMemory>
        ensures { OnOk result ((other : List ℕ) → found self.new other
            ≡ or_else (found self.old other) (if bytes_eq other name.now then Some value else None)) }
    {
        match self.find(name) {
            Some(_) => Ok(()),
            None => {
                self.add(alloc, name, value)?;
                Ok(())
            }
        }
    }
}
