//! The one program among units that are linked.

ghost use Rattle.std.specs.Prelude.{◌<◌, ◌+◌, ◌↔◌, length, Some, IfErr, IfSome, IsTrue, OnOk};
ghost use Rattle.ep_linkable.specs.Faults.{HasOneProgram, IsOtherProgram};
ghost use Rattle.ep_linkable.specs.Least.{IsChosen, IsLeastAt};
ghost use Rattle.ep_linkable.specs.Refusals.{IsRefusal, NoneBefore};
ghost use Rattle.ep_linkable.specs.Units.{name_at};

use crate::refusal::LinkRefusal;
use crate::register::is_up_to;
use crate::unit::LinkUnit;
use std::alloc::Global;

/// That just one of the units is a program.
pub(crate) fn one_program(alloc: Global, units: &[LinkUnit]) -> Result<(), LinkRefusal>
    ensures one { OnOk result (HasOneProgram units.now) }
    ensures none { OnOk result (NoneBefore units.now 3) }
    ensures other { IfErr result (IsRefusal units.now) }
{
    match least_program(units, units.len()) {
        None => Err(LinkRefusal::NoProgram),
        Some(first) => no_second(alloc, units, first),
    }
}

/// That the program at the place of the least one is the only one.
fn no_second(alloc: Global, units: &[LinkUnit], first: usize) -> Result<(), LinkRefusal>
    requires { IsLeastAt (IsOtherProgram units.now (length units.now)) (name_at units.now) (length units.now)
        (Some first) }
    ensures one { OnOk result (HasOneProgram units.now) }
    ensures none { OnOk result (NoneBefore units.now 3) }
    ensures other { IfErr result (IsRefusal units.now) }
{
    match least_program(units, first) {
        None => Ok(()),
        Some(second) => {
            let least = units[first].name.copy(alloc)?;
            let next = units[second].name.copy(alloc)?;
            Err(LinkRefusal::TwoPrograms(least, next))
        }
    }
}

/// The place of the program with the least name, if there is one, but for the one at a place that is left out.
fn least_program(units: &[LinkUnit], but: usize) -> Option<usize>
    ensures { IsLeastAt (IsOtherProgram units.now but) (name_at units.now) (length units.now) result }
{
    let mut least = None;
    for place in 0..units.len() {
        least = with_program(units, but, place, least);
    }
    least
}

/// The same when one more unit is looked at.
fn with_program(units: &[LinkUnit], but: usize, place: usize, least: Option<usize>) -> Option<usize>
    requires within { place < length units.now }
    requires least { IsLeastAt (IsOtherProgram units.now but) (name_at units.now) place least }
    ensures { IsLeastAt (IsOtherProgram units.now but) (name_at units.now) (place + 1) result }
{
    if is_other_program(units, but, place) {
        Some(lesser_unit(units, place, least))
    } else {
        least
    }
}

/// Whether the unit at a place is a program, but for the one that is left out.
fn is_other_program(units: &[LinkUnit], but: usize, place: usize) -> bool
    requires { place < length units.now }
    ensures { IsTrue result ↔ IsOtherProgram units.now but place }
{
    if place == but {
        return false;
    }
    units[place].is_program
}

/// The place of a unit, or of the least so far where that has no greater name.
pub(crate) fn lesser_unit(units: &[LinkUnit], place: usize, least: Option<usize>) -> usize
    requires within { place < length units.now }
    requires least { IfSome least (λ other. other < length units.now) }
    ensures { IsChosen (name_at units.now) place least result }
{
    match least {
        None => place,
        Some(other) => {
            if is_up_to(units[other].name, units[place].name) {
                other
            } else {
                place
            }
        }
    }
}
