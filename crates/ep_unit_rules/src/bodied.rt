//! The routines that have a body.

ghost use Rattle.std.specs.Prelude.{◌≡◌, [], ◌∷◌, ◌++◌, OnOk};
ghost use Rattle.ep_unit_rules.specs.Numbers.{has_number};

use ep_base::{List, NoMemory};
use indexmap::IndexSet;
use std::alloc::{AllocError, Global};
use std::marker::Model;

/// The numbers of the routines that have a body, in the order of the bodies. A number is found without a walk over them.
pub struct Bodies {
    numbers: List<u32>,
    known: IndexSet<u32>,
}

impl Model for Bodies {
    ghost use Rattle.std.specs.Prelude.{List, ℕ, nat_eq, ◌≡◌};
    ghost use Rattle.std.specs.List.{list_any};

    ghost Value = { List ℕ };

    ghost view = { λ b. b.numbers };

    ghost invariant = { λ b. (n : ℕ) → list_any (nat_eq n) b.known.keys ≡ list_any (λ m. nat_eq m n) b.numbers };
}

impl Drop for Bodies {
    fn drop(self) {
        let Bodies {
            numbers: _,
            known: _,
        } = self;
    }
}

impl Bodies {
    /// No numbers. It takes no memory.
    pub fn new(alloc: Global) -> Bodies
        ensures { result ≡ [] }
    {
        Bodies {
            numbers: List::new(alloc),
            known: IndexSet::new(alloc),
        }
    }

    /// Whether the number is there.
    pub fn has(&self, number: u32) -> bool
        ensures { result ≡ has_number number self.now }
    {
        self.known.contains(&number)
    }

    /// One number more. Where memory is wanting they are as before.
    pub fn push(&mut self, number: u32) -> Result<(), NoMemory>
        ensures { OnOk result (self.new ≡ self.old ++ number ∷ []) }
    {
        self.numbers.push(number)?;
        match self.known.insert(number) {
            Ok(_) => Ok(()),
            Err(refused) => {
                self.numbers.pop();
                Err(AllocError::from(refused))
            }
        }
    }
}
