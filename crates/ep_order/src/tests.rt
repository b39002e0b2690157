//! Systems as words, with the order of their activation or a circle.

ghost use Rattle.std.specs.Prelude.{◌≡◌, ◌<◌, ℕ, true, IsTrue, length};
ghost use Rattle.std.specs.List.{All};
ghost use Rattle.ep_order.specs.Dependents.{IsSystem, IsModuleAt};
ghost use Rattle.ep_order.specs.Tests.{IsApartFrom};

use super::*;
use ep_base::{Bytes, List, Name, NameRefusal, Names, NoMemory};
use std::alloc::Global;
use std::test::Fail;

/// Units, each a word of its name and the names of its suppliers, which are letters, a capital one for the program;
/// and what is answered: the names in their order, or those of a circle with `@` before them.
const SYSTEMS: [(&[&str], &str); 19] = [
    (&[], ""),
    (&["a"], "a"),
    (&["P"], "p"),
    (&["z", "c"], "cz"),
    (&["A", "z", "c"], "cza"),
    (&["cb", "ba", "a"], "abc"),
    (&["ab", "bc", "c"], "cba"),
    (&["bm", "am", "cm", "m"], "mabc"),
    (&["mabc", "c", "b", "a"], "abcm"),
    (&["dbc", "ca", "ba", "a", "Pd"], "abcdp"),
    (&["Pd", "a", "ba", "dcb", "ca"], "abcdp"),
    (&["baaa", "a", "Pbbab"], "abp"),
    (&["az", "z", "m"], "mza"),
    (&["aa"], "@a"),
    (&["bb", "a", "P"], "@b"),
    (&["cb", "bc", "a"], "@bc"),
    (&["xc", "cb", "ba", "ac", "P"], "@abc"),
    (&["dc", "cd", "ab", "ba"], "@cd"),
    (&["a", "a"], "?"),
];

/// The names of units.
fn names_of(alloc: Global, words: &[&str]) -> Result<Names, NameRefusal> {
    let mut names = List::new(alloc);
    for word in words {
        if let Some(letter) = word.as_bytes().first() {
            names.push(Name::from_bytes(alloc, &[*letter])?)?;
        }
    }
    Ok(names)
}

/// The place of the unit of this name, or the number of units where there is none.
fn place_of(names: &[Name], letter: u8) -> u32 {
    let mut place: u32 = 0;
    for name in names {
        if name.bytes().first() == Some(&letter) {
            return place;
        }
        place = place.saturating_add(1);
    }
    place
}

/// The unit of a word.
fn unit_of<'a>(
    alloc: Global,
    names: &[Name],
    name: &'a Name,
    word: &str,
) -> Result<Dependent<'a>, NoMemory> {
    let mut suppliers = List::new(alloc);
    let mut is_program = false;
    for (number, letter) in word.as_bytes().iter().enumerate() {
        if number == 0 {
            is_program = letter.is_ascii_uppercase();
        } else {
            suppliers.push(place_of(names, *letter))?;
        }
    }
    Ok(Dependent {
        name,
        is_program,
        suppliers,
    })
}

/// What is answered of units.
fn answer(alloc: Global, words: &[&str]) -> Result<Bytes, NameRefusal> {
    let names = names_of(alloc, words)?;
    let mut units = List::new(alloc);
    for (name, word) in names.items().iter().zip(words) {
        units.push(unit_of(alloc, names.items(), name, word)?)?;
    }
    let mut told = Bytes::new(alloc);
    if !is_system(units.items()) {
        told.push(b'?')?;
        return Ok(told);
    }
    match activation_order(alloc, units.items())? {
        Activation::Ordered(places) => tell(units.items(), places.items(), &mut told)?,
        Activation::Circle(places) => {
            told.push(b'@')?;
            tell(units.items(), places.items(), &mut told)?;
        }
    }
    Ok(told)
}

fn tell(units: &[Dependent], places: &[u32], told: &mut Bytes) -> Result<(), NoMemory> {
    for place in places {
        if let Some(unit) = units.get(*place as usize) {
            if let Some(letter) = unit.name.bytes().first() {
                told.push(*letter)?;
            }
        }
    }
    Ok(())
}

/// Whether the units are a system.
fn is_system(units: &[Dependent]) -> bool
    ensures { IsTrue result → IsSystem units.now }
{
    if units.len() >= 256 {
        return false;
    }
    if !are_apart(units) {
        return false;
    }
    have_modules(units)
}

/// Whether no two units have one name, and no two are programs.
fn are_apart(units: &[Dependent]) -> bool
    ensures { IsTrue result → (place : ℕ) → place < length units.now → IsApartFrom units.now place place }
{
    for place in 0..units.len() {
        if !is_apart_from(units, place) {
            return false;
        }
    }
    true
}

/// Whether the unit at this place has the name of none before it, and is not a second program.
fn is_apart_from(units: &[Dependent], place: usize) -> bool
    requires { place < length units.now }
    ensures { IsTrue result → IsApartFrom units.now place place }
{
    let unit = &units[place];
    for number in 0..place {
        let other = &units[number];
        if !may_stand_beside(other, unit) {
            return false;
        }
    }
    true
}

/// Whether two units have two names, and are not both programs.
fn may_stand_beside(first: &Dependent, second: &Dependent) -> bool
    ensures names { IsTrue result → ¬ (first.now.name.now ≡ second.now.name.now) }
    ensures programs { IsTrue result → first.now.is_program ≡ true → ¬ (second.now.is_program ≡ true) }
{
    if first.name.bytes() == second.name.bytes() {
        return false;
    }
    if first.is_program {
        return !second.is_program;
    }
    true
}

/// Whether all suppliers are modules of the list.
fn have_modules(units: &[Dependent]) -> bool
    ensures { IsTrue result → All (λ unit. All (IsModuleAt units.now) unit.suppliers) units.now }
{
    for unit in units {
        if !are_modules(units, unit.suppliers.items()) {
            return false;
        }
    }
    true
}

/// Whether these are places of modules of the list.
fn are_modules(units: &[Dependent], suppliers: &[u32]) -> bool
    ensures { IsTrue result → All (IsModuleAt units.now) suppliers.now }
{
    for supplier in suppliers {
        if !is_module(units, *supplier) {
            return false;
        }
    }
    true
}

/// Whether a module stands at this place.
fn is_module(units: &[Dependent], place: u32) -> bool
    ensures { IsTrue result → IsModuleAt units.now place }
{
    if place as usize >= units.len() {
        return false;
    }
    let unit = &units[place as usize];
    !unit.is_program
}

#[test]
fn systems_have_their_orders(rt: HostRuntime) -> Result<(), Fail> {
    for (words, expected) in SYSTEMS {
        assert_eq!(rt; answer(rt.alloc(), words)?.items(), expected.as_bytes());
    }
    Ok(())
}
