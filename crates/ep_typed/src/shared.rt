//! A value with several owners.

ghost use Rattle.std.specs.Prelude.{◌≡◌, IfOk};

use ep_base::NoMemory;
use std::alloc::Global;
use std::marker::Model;
use std::rc::Rc;

/// An `Rc` that contracts see as the value in it. It never changes, and lives as long as one of its owners.
#[derive(Drop)]
pub struct Shared<T> {
    inner: Rc<T>,
}

impl<T> Model for Shared<T> {
    ghost Value = { T };

    ghost coded = { T.code };

    ghost view = { λ s. s.inner.value };
}

impl<T> Shared<T> {
    /// The value.
    pub fn get(&self) -> &T
        ensures { result.now ≡ self.now }
    {
        self.inner.as_ref()
    }
}

impl<T: Drop> Shared<T> {
    /// The value, with one owner. Where memory is wanting the value is dropped.
    pub fn new(alloc: Global, value: T) -> Result<Shared<T>, NoMemory>
        ensures { IfOk result (λ s. s ≡ value) }
    {
        Ok(Shared {
            inner: Rc::new(alloc, value)?,
        })
    }

    /// The same value for one owner more. The refusal comes where there are more owners than can be counted.
    pub fn share(&self) -> Result<Shared<T>, NoMemory>
        ensures { IfOk result (λ s. s ≡ self.now) }
    {
        Ok(Shared {
            inner: self.inner.clone()?,
        })
    }
}
