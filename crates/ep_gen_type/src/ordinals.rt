//! Which types of a unit are ordinal.

ghost use Rattle.std.specs.Prelude.{◌≡◌, IfOk, is_some, map};
ghost use Rattle.ep_typed.specs.Denoters.{host_of};
ghost use Rattle.ep_typed.specs.Trees.{Enumeration, Named};
ghost use Rattle.ep_typed.specs.Viewed.{bound_of, denoter_of};
ghost use Rattle.ep_gen_type.specs.Ordinals as spec;
ghost use Rattle.ep_gen_type.specs.Ordinals.{Knows};

use ep_base::{List, Name, NoMemory};
use ep_typed::{Bound, Denoter, UnitType};
use std::alloc::Global;
use std::marker::Model;

/// What decides whether a denoter is that of an ordinal type.
#[derive(Clone, Copy, Drop)]
pub enum Decisive {
    /// What the denoter begins with.
    Itself(bool),
    /// The type of this number.
    ByType(u32),
}

/// Which types of a unit are ordinal, by their numbers. Of a type that names itself or one behind it nothing is known.
#[derive(Drop)]
pub struct OrdinalTypes {
    known: List<Option<bool>>,
}

impl Model for OrdinalTypes {
    ghost use Rattle.std.specs.Prelude.{Bool, List, Option};

    ghost Value = { List (Option Bool) };

    ghost view = { λ o. o.known };
}

impl OrdinalTypes {
    /// Which of these types are ordinal. Each is looked at once.
    pub fn of(alloc: Global, types: &[UnitType]) -> Result<OrdinalTypes, NoMemory>
        ensures { IfOk result (λ known. Knows types.now known) }
    {
        let mut known = List::with_room(alloc, types.len())?;
        for one in types {
            let next = known_of(known.items(), &one.entry.denoter);
            known.push(next)?;
        }
        Ok(OrdinalTypes { known })
    }

    /// Whether a denoter is that of an ordinal type, in which names are those of these types.
    pub fn has(&self, types: &[UnitType], denoter: &Denoter) -> bool
        requires { Knows types.now self.now }
        ensures { result ≡ is_some (host_of types.now (denoter_of denoter.now)) }
    {
        match known_of(self.known.items(), denoter) {
            Some(answer) => answer,
            None => is_ordinal(types, denoter),
        }
    }
}

/// Whether a denoter is that of an ordinal type, by what is known of the types before it.
fn known_of(known: &[Option<bool>], denoter: &Denoter) -> Option<bool>
    ensures { result ≡ spec.known_of known.now (spec.deciding (denoter_of denoter.now)) }
{
    match deciding(denoter) {
        Decisive::Itself(is) => Some(is),
        Decisive::ByType(number) => match known.get(number as usize) {
            None => None,
            Some(of) => *of,
        },
    }
}

/// Whether a denoter is that of an ordinal type, in which names are those of this list of types. Each is looked at once at
/// most.
fn is_ordinal(types: &[UnitType], denoter: &Denoter) -> bool
    ensures { result ≡ is_some (host_of types.now (denoter_of denoter.now)) }
{
    let mut named = denoter;
    for looked in 0..types.len() + 1 {
        let found = deciding(named);
        let number = match found {
            Decisive::Itself(answer) => return answer,
            Decisive::ByType(number) => number,
        };
        named = match types.get(number as usize) {
            None => return false,
            Some(t) => &t.entry.denoter,
        };
    }
    false
}

/// What decides it for a denoter.
fn deciding(denoter: &Denoter) -> Decisive
    ensures { result ≡ spec.deciding (denoter_of denoter.now) }
{
    match denoter {
        Denoter::Required(_) => Decisive::Itself(true),
        Denoter::Named(number, tuple) => deciding_name(*number, tuple.items()),
        Denoter::Subrange(host, _, _) => deciding(host.get()),
        Denoter::Enumeration(names) => deciding_names(names.items()),
        Denoter::Array(_, _) | Denoter::Record(_) | Denoter::Set(_) => Decisive::Itself(false),
        Denoter::Initial(of, _) => deciding(of.get()),
    }
}

/// What decides it for the name of a type.
fn deciding_name(number: u32, tuple: &[Bound]) -> Decisive
    ensures { result ≡ spec.deciding (Named number (map bound_of tuple.now)) }
{
    match tuple {
        [] => Decisive::ByType(number),
        _ => Decisive::Itself(false),
    }
}

/// What decides it for an enumeration.
fn deciding_names(names: &[Name]) -> Decisive
    ensures { result ≡ spec.deciding (Enumeration names.now) }
{
    match names {
        [] => Decisive::Itself(false),
        _ => Decisive::Itself(true),
    }
}
