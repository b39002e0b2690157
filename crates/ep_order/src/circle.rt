//! A circle of units that supply one another, where modules are left that cannot be placed.

ghost use Rattle.std.specs.Prelude.{◌≡◌, ◌<◌, ℕ, ◌++◌, ◌∷◌, [], length, IfOk, slice_get, slice_index, Some};
ghost use Rattle.std.specs.List.{All, Contains};
ghost use Rattle.ep_order.specs.Circles.{Follows, IsApart, IsCircle};
ghost use Rattle.ep_order.specs.Systems.{IsUpTo};
ghost use Rattle.ep_order.specs.Dependents.{IsModuleAt, IsSystem, name_at, names_at, system_of};
ghost use Rattle.ep_order.specs.Placings.{SuppliesAt, IsStuck, IsWalk};

use crate::dependent::Dependent;
use crate::places::Places;
use crate::queue::first_open;
use ep_base::{List, NoMemory};
use std::alloc::Global;

/// A circle, found from a module that is left: from one to a supplier of it that is left too, until one comes again.
pub(crate) fn circle_from(
    alloc: Global,
    units: &[Dependent],
    placed: &Places,
    start: u32,
) -> Result<List<u32>, NoMemory>
    requires system { IsSystem units.now }
    requires limit { placed.now.limit ≡ length units.now }
    requires stuck { IsStuck units.now placed.now.items }
    requires module { IsModuleAt units.now start }
    requires left { ¬ Contains placed.now.items start }
    ensures within { IfOk result (All (λ place. place < length units.now)) }
    ensures circle { IfOk result (λ circle. IsCircle (system_of units.now) (names_at units.now circle)) }
{
    let mut path = Places::none(alloc, units.len())?;
    let mut place = start;
    while !path.has(place) {
        path.push(place)?;
        place = open_supplier(units, placed, place);
    }
    closed(alloc, units, path.items(), place)
}

/// The first supplier of a unit that is not placed.
fn open_supplier(units: &[Dependent], placed: &Places, place: u32) -> u32
    requires system { IsSystem units.now }
    requires limit { placed.now.limit ≡ length units.now }
    requires module { IsModuleAt units.now place }
    requires left { ¬ Contains placed.now.items place }
    requires stuck { IsStuck units.now placed.now.items }
    ensures supplies { SuppliesAt units.now result place }
    ensures left { ¬ Contains placed.now.items result }
    ensures module { IsModuleAt units.now result }
{
    let suppliers = units[place as usize].suppliers.items();
    match first_open(suppliers, placed, 0) {
        None => unreachable!(),
        Some(number) => suppliers[number],
    }
}

/// The circle at the end of a walk that came again to this place: turned round, since a walk goes to suppliers, and so
/// that it begins with its least name.
fn closed(
    alloc: Global,
    units: &[Dependent],
    path: &[u32],
    again: u32,
) -> Result<List<u32>, NoMemory>
    requires system { IsSystem units.now }
    requires walk { IsWalk units.now path.now again }
    requires again { Contains path.now again }
    ensures within { IfOk result (All (λ place. place < length units.now)) }
    ensures circle { IfOk result (λ circle. IsCircle (system_of units.now) (names_at units.now circle)) }
{
    let begin = number_of(path, again);
    let mut circle = Vec::from_slice(alloc, &path[begin..])?;
    circle.reverse();
    let least = least_name(units, &circle);
    circle.rotate_left(least);
    Ok(List::from_vec(circle))
}

/// The number at which a place stands in a list that has it.
fn number_of(path: &[u32], place: u32) -> usize
    requires { Contains path.now place }
    ensures { slice_get path.now result ≡ Some place }
{
    for (number, other) in path.iter().enumerate() {
        if *other == place {
            return number;
        }
    }
    unreachable!()
}

/// The number in a list of places, which is not empty, of the one whose unit has the least name.
fn least_name(units: &[Dependent], places: &[u32]) -> usize
    requires some { 0 < length places.now }
    requires within { All (λ place. place < length units.now) places.now }
    ensures within { result < length places.now }
    ensures least { All (λ place. IsUpTo (name_at units.now (slice_index places.now result)) (name_at units.now place)) places.now }
{
    let mut least = 0;
    for (number, place) in places.iter().enumerate() {
        let so_far = units[places[least] as usize].name.bytes();
        if units[*place as usize].name.bytes().cmp(so_far).is_lt() {
            least = number;
        }
    }
    least
}
