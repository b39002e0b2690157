//! Sets of numbers of variables.

ghost use Rattle.std.specs.Prelude.{◌≡◌, [], nat_eq, OnOk};
ghost use Rattle.ep_threats.specs.Threatened.{Adds, has};

use ep_base::NoMemory;
use std::alloc::{AllocError, Global};
use std::collections::HashSet;
use std::marker::Model;

/// Numbers of variables, in no order.
pub(crate) struct Numbers {
    all: HashSet<u32>,
}

impl Model for Numbers {
    ghost use Rattle.std.specs.Prelude.{List, ℕ};

    ghost Value = { List ℕ };

    ghost view = { λ n. n.all.keys };
}

impl Drop for Numbers {
    fn drop(self) {
        let Numbers { all: _ } = self;
    }
}

impl Numbers {
    /// None. It takes no memory.
    pub(crate) fn new(alloc: Global) -> Numbers
        ensures { result ≡ [] }
    {
        Numbers {
            all: HashSet::new(alloc),
        }
    }

    /// Whether one is among them.
    pub(crate) fn has(&self, number: u32) -> bool
        ensures { result ≡ has self.now number }
    {
        self.all.contains(&number)
    }

    /// One more, where it is not there.
    pub(crate) fn add(&mut self, number: u32) -> Result<(), NoMemory>
        ensures { OnOk result (Adds (λ n. nat_eq n number) self.old self.new) }
    {
        match self.all.insert(number) {
            Ok(_) => Ok(()),
            Err(refused) => Err(AllocError::from(refused)),
        }
    }
}
