//! References as the keys of a table, and what looks one up.

ghost use Rattle.std.specs.Prelude.{◌≡◌};
ghost use Rattle.std.specs.Cmp.{on_equiv, on_per, partial_equiv_from_equiv};
ghost use Rattle.ep_gen_code.specs.Keys.{fed, fed_alike, same, same_equiv};

use ep_base::Name;
use ep_object::Reference;
use indexmap::Equivalent;
use std::hash::{Hash, Hasher};

/// A reference that a table has.
#[derive(Drop)]
pub(crate) struct ReferenceKey {
    /// The reference.
    pub(crate) reference: Reference,
}

impl ReferenceKey {
    /// The reference, moved out.
    pub(crate) fn into_reference(self) -> Reference
        ensures { result ≡ self.reference }
    {
        self.reference
    }
}

impl PartialEq for ReferenceKey {
    ghost eq = { λ a b. same (a.reference.unit, a.reference.number) (b.reference.unit, b.reference.number) };

    ghost laws = { on_per (λ a. (a.reference.unit, a.reference.number)) (partial_equiv_from_equiv same_equiv) };

    fn eq(&self, other: &ReferenceKey) -> bool {
        self.reference.unit.bytes() == other.reference.unit.bytes()
            && self.reference.number == other.reference.number
    }
}

impl Eq for ReferenceKey {
    ghost laws = { on_equiv (λ a. (a.reference.unit, a.reference.number)) same_equiv };
}

impl Hash for ReferenceKey {
    ghost hash_input = { λ a. fed (a.reference.unit, a.reference.number) };

    ghost respects_eq = { λ a b. fed_alike (a.reference.unit, a.reference.number) (b.reference.unit, b.reference.number) };

    fn hash<H: Hasher>(&self, state: &mut H) {
        self.reference.unit.bytes().hash(state);
        self.reference.number.hash(state);
    }
}

/// What a reference is looked up by: a unit's name, and the number of a routine or a slot of it.
#[derive(Clone, Copy)]
pub(crate) struct ReferenceName<'a> {
    /// The name.
    pub(crate) unit: &'a Name,
    /// The number.
    pub(crate) number: u32,
}

impl<'a> PartialEq for ReferenceName<'a> {
    ghost eq = { λ a b. same (a.unit.now, a.number) (b.unit.now, b.number) };

    ghost laws = { on_per (λ a. (a.unit.now, a.number)) (partial_equiv_from_equiv same_equiv) };

    fn eq(&self, other: &ReferenceName<'a>) -> bool {
        self.unit.bytes() == other.unit.bytes() && self.number == other.number
    }
}

impl<'a> Eq for ReferenceName<'a> {
    ghost laws = { on_equiv (λ a. (a.unit.now, a.number)) same_equiv };
}

impl<'a> Hash for ReferenceName<'a> {
    ghost hash_input = { λ a. fed (a.unit.now, a.number) };

    ghost respects_eq = { λ a b. fed_alike (a.unit.now, a.number) (b.unit.now, b.number) };

    fn hash<H: Hasher>(&self, state: &mut H) {
        self.unit.bytes().hash(state);
        self.number.hash(state);
    }
}

impl<'a> Equivalent<ReferenceKey> for ReferenceName<'a> {
    ghost equivalent = { λ a k. same (a.unit.now, a.number) (k.reference.unit, k.reference.number) };

    ghost respects_hash = { λ a k. fed_alike (a.unit.now, a.number) (k.reference.unit, k.reference.number) };

    ghost respects_eq = { λ a j k. same_equiv.congr (a.unit.now, a.number) (j.reference.unit, j.reference.number) (k.reference.unit, k.reference.number) };

    fn equivalent(&self, key: &ReferenceKey) -> bool {
        self.unit.bytes() == key.reference.unit.bytes() && self.number == key.reference.number
    }
}
