//! Type values: types with all bounds as numbers, their words, and which of them are the same. specs/ViewedTypes.antt says
//! which plain data they are seen as, and specs/TypeValues.antt what holds of that data. Nothing here takes memory.

ghost use Rattle.std.specs.Prelude.{◌≡◌, ◌*◌, false, min};
ghost use Rattle.ep_values.specs.Bounds.{count_of};
ghost use Rattle.ep_values.specs.TypeValues.{bare_each, bare_of, same_type, same_types, size_of, sizes_of};
ghost use Rattle.ep_values.specs.ViewedTypes.{is_initial, type_value_of, type_values_of};

use ep_base::{Boxed, Bytes, List};

/// The words of a variable of a set type.
const SET_SIZE: u64 = 8;

/// An initial state (ISO 10206, 6.6).
#[cycle(starts)]
#[derive(Drop)]
pub enum Start {
    /// Undefined, of so many words.
    Undefined(u64),
    /// That of an ordinal type, by its ordinal number.
    Simple(i64),
    /// That of a set, by the ordinal numbers of its members in rising order.
    Set(Bytes),
    /// Those of components.
    Parts(Starts),
}

/// Initial states of components, in order.
pub type Starts = List<Start>;

/// A type with all bounds as numbers (ISO 10206, 6.4).
#[cycle(types)]
#[derive(Drop)]
pub enum TypeValue {
    /// An ordinal type, by its least and its greatest value (ISO 10206, 6.4.2).
    Ordinal(i64, i64),
    /// The type of text files (ISO 10206, 6.4.3.6).
    Text,
    /// An array: the bounds of its index type, and the type of its components (ISO 10206, 6.4.3.2).
    Array(i64, i64, Boxed<TypeValue>),
    /// A record, by the types of its components (ISO 10206, 6.4.3.4).
    Record(TypeValues),
    /// A set, by the bounds of its base type (ISO 10206, 6.4.3.5).
    Set(i64, i64),
    /// A type with the initial state that every variable of it begins in (ISO 10206, 6.6).
    Initial(Boxed<TypeValue>, Start),
}

/// Types of components, in order.
pub type TypeValues = List<TypeValue>;

/// The words of a variable of the type, at most the greatest `u64`.
#[cycle(sizes)]
pub fn size(t: &TypeValue) -> u64
    ensures { result ≡ min (size_of (type_value_of t.now)) u64.MAX }
{
    match t {
        TypeValue::Ordinal(_, _) | TypeValue::Text => 1,
        TypeValue::Array(low, high, of) => array_size(*low, *high, of.get()),
        TypeValue::Record(components) => sizes(components.items()),
        TypeValue::Set(_, _) => SET_SIZE,
        TypeValue::Initial(of, _) => size(of.get()),
    }
}

/// The words of an array with these bounds and components of this type.
#[cycle(sizes)]
#[tactic(auto, using(crate::proofs::Sizes::array_words))]
fn array_size(low: i64, high: i64, of: &TypeValue) -> u64
    ensures { result ≡ min (count_of low high * size_of (type_value_of of.now)) u64.MAX }
{
    count(low, high).saturating_mul(size(of))
}

/// The words of all components.
#[cycle(sizes)]
fn sizes(components: &[TypeValue]) -> u64
    ensures { result ≡ min (sizes_of (type_values_of components.now)) u64.MAX }
{
    let mut total = 0;
    for t in components {
        total = size(t).saturating_add(total);
    }
    total
}

/// How many numbers are within the bounds.
#[tactic(auto, using(crate::proofs::public::Bounds::count_within, crate::proofs::public::Bounds::count_without))]
fn count(low: i64, high: i64) -> u64
    ensures { result ≡ min (count_of low high) u64.MAX }
{
    if low <= high {
        high.abs_diff(low).saturating_add(1)
    } else {
        0
    }
}

/// Whether two types are the same, apart from initial states.
#[cycle(agreement)]
pub fn agree(a: &TypeValue, b: &TypeValue) -> bool
    ensures { result ≡ same_type (bare_of (type_value_of a.now)) (bare_of (type_value_of b.now)) }
{
    match (a, below(b)) {
        (TypeValue::Initial(of, _), _) => agree(of.get(), b),
        (TypeValue::Ordinal(l, h), TypeValue::Ordinal(m, k)) => l == m && h == k,
        (TypeValue::Text, TypeValue::Text) => true,
        (TypeValue::Array(l, h, of), TypeValue::Array(m, k, other)) => {
            l == m && h == k && agree(of.get(), other.get())
        }
        (TypeValue::Record(components), TypeValue::Record(others)) => {
            agree_each(components.items(), others.items())
        }
        (TypeValue::Set(l, h), TypeValue::Set(m, k)) => l == m && h == k,
        _ => false,
    }
}

/// The type below all initial states.
fn below(t: &TypeValue) -> &TypeValue
    ensures bare { bare_of (type_value_of result.now) ≡ bare_of (type_value_of t.now) }
    ensures plain { is_initial (type_value_of result.now) ≡ false }
{
    match t {
        TypeValue::Initial(of, _) => below(of.get()),
        TypeValue::Ordinal(_, _)
        | TypeValue::Text
        | TypeValue::Array(_, _, _)
        | TypeValue::Record(_)
        | TypeValue::Set(_, _) => t,
    }
}

/// Whether components have the same types, one for one.
#[cycle(agreement)]
#[tactic(auto, using(crate::proofs::Agreement::other_lengths))]
fn agree_each(components: &[TypeValue], others: &[TypeValue]) -> bool
    ensures { result ≡ same_types (bare_each (type_values_of components.now)) (bare_each (type_values_of others.now)) }
{
    if components.len() != others.len() {
        return false;
    }
    for place in 0..components.len() {
        if !agree(&components[place], &others[place]) {
            return false;
        }
    }
    true
}
