//! The scopes in view at a place of a text.

ghost use Rattle.std.specs.Prelude.{◌≡◌, [], IfOk, OnOk, OnErr};
ghost use Rattle.std.specs.Option.{option_copied};
ghost use Rattle.ep_scope.specs.Required.{look_up};
ghost use Rattle.ep_scope.specs.Scopes.{closed, empty_region, in_view, opened, row_in, with_inner_structure};
ghost use Rattle.ep_scope.specs.Entering.{AnswersInner};

use crate::scope::{Scope, ScopeRefusal};
use crate::structure::StructuredType;
use crate::thing::Thing;
use crate::view::View;
use ep_base::{Name, NoMemory};
use std::alloc::Global;
use std::marker::Model;

/// The scopes in view, of which there is always one: the innermost one, and those around it. The last one is around the
/// block of the unit, and has what the unit's heading imports.
pub struct Scopes {
    alloc: Global,
    all: Vec<Scope>,
}

impl Model for Scopes {
    ghost use Rattle.std.specs.Prelude.{◌<◌, length};
    ghost use Rattle.ep_scope.specs.Scopes.{Row, row_of};
    ghost use Rattle.std.specs.Coded.{codes};
    ghost use Rattle.ep_typed.specs.contracts.value.Value as value;

    ghost Value = { Row };

    ghost coded = { Prim.hlevel (codes, value.the_row.coded) };

    ghost view = { λ s. row_of s.all.items };

    ghost invariant = { λ s. 0 < length s.all.items };
}

impl Drop for Scopes {
    fn drop(self) {
        let Scopes { alloc: _, all: _ } = self;
    }
}

impl Scopes {
    /// That of the block of a unit, without names, where this scope is around it.
    pub fn within(alloc: Global, around: Scope) -> Result<Scopes, NoMemory>
        ensures { IfOk result (λ scopes. scopes ≡ row_in around) }
    {
        let mut all = Vec::new(alloc);
        all.push(Scope::new(alloc))?;
        all.push(around)?;
        Ok(Scopes { alloc, all })
    }

    /// All scopes in view, where no record is open. It takes no memory.
    pub fn in_view(&self) -> View<'_>
        ensures { result ≡ in_view self.now }
    {
        View::of(self.all.as_slice())
    }

    /// What a name stands for in the innermost scope. `None` comes exactly where it does not have it. It takes no memory.
    pub fn find(&self, name: &Name) -> Option<&Thing>
        ensures { option_copied result ≡ look_up self.now.inner.entries name.now }
    {
        let scope = &self.all[0];
        scope.find(name)
    }

    /// Adds a name to the innermost scope. `Twice` comes exactly where the name is there, and after a refusal the scopes
    /// are as before.
    pub fn enter(&mut self, name: Name, thing: Thing) -> Result<(), ScopeRefusal>
        ensures { AnswersInner self.old name thing result self.new }
    {
        let scope = &mut self.all[0];
        scope.enter(name, thing)
    }

    /// Adds a structured type to the innermost scope.
    pub fn add_structure(&mut self, structured: StructuredType) -> Result<(), NoMemory>
        ensures { OnOk result (self.new ≡ with_inner_structure self.old structured) }
    {
        let scope = &mut self.all[0];
        scope.add_structure(structured)
    }

    /// Opens a scope without names inside of the others.
    pub fn open(&mut self) -> Result<(), NoMemory>
        ensures opened { OnOk result (self.new ≡ opened self.old) }
        ensures unchanged { OnErr result (self.new ≡ self.old) }
    {
        let scope = Scope::new(self.alloc);
        self.all.insert(0, scope)?;
        Ok(())
    }

    /// Closes the innermost scope; the outermost one stays. It takes no memory.
    pub fn close(&mut self)
        ensures { self.new ≡ closed self.old }
    {
        if self.all.len() > 1 {
            let _ = self.all.remove(0);
        }
    }
}
