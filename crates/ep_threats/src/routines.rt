//! The routines of a unit, and which variables of a block they threaten.

ghost use Rattle.std.specs.Prelude.{◌≡◌, IfOk, IfSome, OnOk, nat_eq, map, position};
ghost use Rattle.ep_typed.specs.Trees.{OfUnit};
ghost use Rattle.ep_typed.specs.Viewed.{stmt_of};
ghost use Rattle.ep_threats.specs.Callees.{callees_among, callees_in, callees_of};
ghost use Rattle.ep_threats.specs.RoutineForms.{routine_form};
ghost use Rattle.ep_threats.specs.Threatened.{Adds, one_threatens};
ghost use Rattle.ep_threats.specs.Threats as spec;

use crate::callees::Callees;
use crate::gathering::{Owner, gather};
use crate::numbers::Numbers;
use crate::table::RoutineTable;
use crate::threats::levels_between;
use ep_base::{Name, NoMemory};
use ep_typed::{Interface, UnitRoutine};
use std::alloc::{AllocError, Global};
use std::marker::Model;

/// The block of which it is known which of its variables routines in it threaten.
#[derive(Clone, Copy)]
pub(crate) enum Gathered<'a> {
    /// None.
    Nothing,
    /// That of the unit of this name.
    OfUnit(&'a Name),
    /// That of the routine of this number.
    OfRoutine(u32),
}

/// The routines of a unit, of which threats are asked, with the headings whose routines they call too. What they threaten of
/// one block may be gathered before.
pub struct Routines<'a> {
    /// All of them, by number.
    all: &'a RoutineTable,
    /// The headings of other units.
    given: &'a [Interface],
    /// The block.
    of: Gathered<'a>,
    /// The numbers of the variables of the block that a routine in it threatens.
    threatened: Numbers,
}

impl<'a> Model for Routines<'a> {
    ghost use Rattle.std.specs.Prelude.{List};
    ghost use Rattle.ep_typed.specs.declared.interface.Interface.{Interface};
    ghost use Rattle.ep_typed.specs.declared.unit.UnitRoutine.{UnitRoutine};
    ghost use Rattle.ep_typed.specs.contracts.interface.Interface as interface;
    ghost use Rattle.ep_typed.specs.contracts.unit.UnitRoutine as unit_routine;
    ghost use Rattle.std.specs.Coded.{codes};
    ghost use Rattle.ep_threats.specs.Callees.{callees_in};
    ghost use Rattle.ep_threats.specs.Threatened.{KnowsThreats};

    ghost Value = { List UnitRoutine × List Interface };

    ghost coded = { Prim.hlevel (codes, unit_routine.the_row.coded, interface.the_row.coded) };

    ghost view = { λ r. (r.all.now, r.given.now) };

    ghost invariant = { λ r. KnowsThreats r.of (callees_in r.all.now r.given.now) r.threatened };
}

impl<'a> Drop for Routines<'a> {
    fn drop(self) {
        let Routines {
            all: _,
            given: _,
            of: _,
            threatened: _,
        } = self;
    }
}

/// The numbers of the variables of the unit of this name are added that the block of one of these routines threatens.
fn unit_gathered(unit: &Name, routines: &Callees<'_>, found: &mut Numbers) -> Result<(), NoMemory>
    ensures { OnOk result (Adds (λ n. one_threatens (callees_of routines.now) (OfUnit unit.now n))
        found.old found.new) }
{
    for routine in routines.own {
        gather(&routine.block, Owner::Unit(unit), routines, found)?;
    }
    Ok(())
}

/// Those of the routine of this number are added that a routine in it, however deep, threatens.
fn inner_gathered(
    routine: u32,
    routines: &RoutineTable,
    given: &[Interface],
    found: &mut Numbers,
) -> Result<(), NoMemory>
    ensures { OnOk result (Adds (λ n. spec.inner_threatens routine (callees_in routines.now given.now) n)
        found.old found.new) }
{
    let inner = routines.inner(routine);
    let callees = Callees::of(routines.items(), given);
    some_gathered(inner, routine, &callees, found)?;
    Ok(())
}

/// Those are added that one of these routines threatens.
fn some_gathered(
    some: &[UnitRoutine],
    routine: u32,
    routines: &Callees<'_>,
    found: &mut Numbers,
) -> Result<(), NoMemory>
    ensures { OnOk result (Adds (λ n. spec.some_threaten routine (callees_of routines.now) n
        (map routine_form some.now)) found.old found.new) }
{
    for inner in some {
        gathered_from(inner, routine, routines, found)?;
    }
    Ok(())
}

/// Those that this routine threatens, where it is one in that one.
fn gathered_from(
    inner: &UnitRoutine,
    routine: u32,
    routines: &Callees<'_>,
    found: &mut Numbers,
) -> Result<(), NoMemory>
    ensures { OnOk result (Adds (λ n. spec.threatens_from (callees_of routines.now) n
        (stmt_of inner.now.block) (position (nat_eq routine) inner.now.around)) found.old found.new) }
{
    let Some(between) = levels_between(routine, inner.around.items()) else {
        return Ok(());
    };
    let Ok(up) = u32::try_from(between + 1) else {
        return Err(AllocError);
    };
    gather(&inner.block, Owner::Routine(up), routines, found)
}

impl<'a> Routines<'a> {
    /// These, of which nothing is gathered, and these headings. It takes no memory.
    pub fn new(alloc: Global, all: &'a RoutineTable, given: &'a [Interface]) -> Routines<'a>
        ensures { result ≡ (all.now, given.now) }
    {
        Routines {
            all,
            given,
            of: Gathered::Nothing,
            threatened: Numbers::new(alloc),
        }
    }

    /// These, where it is gathered once which variables of the unit of this name they threaten.
    pub fn of_unit(
        alloc: Global,
        unit: &'a Name,
        all: &'a RoutineTable,
        given: &'a [Interface],
    ) -> Result<Routines<'a>, NoMemory>
        ensures { IfOk result (λ r. r ≡ (all.now, given.now)) }
    {
        let mut threatened = Numbers::new(alloc);
        let callees = Callees::of(all.items(), given);
        unit_gathered(unit, &callees, &mut threatened)?;
        Ok(Routines {
            all,
            given,
            of: Gathered::OfUnit(unit),
            threatened,
        })
    }

    /// These, where it is gathered once which variables of the routine of this number those in it threaten.
    pub fn of_routine(
        alloc: Global,
        routine: u32,
        all: &'a RoutineTable,
        given: &'a [Interface],
    ) -> Result<Routines<'a>, NoMemory>
        ensures { IfOk result (λ r. r ≡ (all.now, given.now)) }
    {
        let mut threatened = Numbers::new(alloc);
        inner_gathered(routine, all, given, &mut threatened)?;
        Ok(Routines {
            all,
            given,
            of: Gathered::OfRoutine(routine),
            threatened,
        })
    }

    /// What the code of the unit may call.
    pub fn callees(&self) -> Callees<'a>
        ensures { callees_of result ≡ callees_among self.now }
    {
        Callees::of(self.all.items(), self.given)
    }

    /// All of them, in their table.
    pub fn table(&self) -> &'a RoutineTable
        ensures { result.now ≡ self.now.0 }
    {
        self.all
    }

    /// The headings.
    pub fn given(&self) -> &'a [Interface]
        ensures { result.now ≡ self.now.1 }
    {
        self.given
    }

    /// Whether one of them threatens the variable of this number of the unit of this name, where that is gathered.
    pub fn threaten_of_unit(&self, unit: &Name, number: u32) -> Option<bool>
        ensures { IfSome result (λ threatened. threatened
            ≡ one_threatens (callees_among self.now) (OfUnit unit.now number)) }
    {
        match self.of {
            Gathered::OfUnit(own) if own.bytes() == unit.bytes() => {
                Some(self.threatened.has(number))
            }
            _ => None,
        }
    }

    /// Whether one in the routine of the first number, however deep, threatens its variable of the second number, where
    /// that is gathered.
    pub fn threaten_of_routine(&self, routine: u32, number: u32) -> Option<bool>
        ensures { IfSome result (λ threatened. threatened
            ≡ spec.inner_threatens routine (callees_among self.now) number) }
    {
        match self.of {
            Gathered::OfRoutine(own) if own == routine => Some(self.threatened.has(number)),
            _ => None,
        }
    }
}
