//! The order in which units are activated, by which of them supply which.

ghost use Rattle.std.specs.Prelude.{◌≡◌, ◌<◌, ◌^◌, ℕ, List, length, map, IfOk, IfErr, OnOk, All};
ghost use Rattle.ep_order.specs.Orders.{IsOrder};
ghost use Rattle.ep_linkable.specs.Exporters.{IsExporters};
ghost use Rattle.ep_linkable.specs.Faults.{AreFound, HasNoFault, HasOneProgram, dependent_of, supplier_place};
ghost use Rattle.ep_linkable.specs.Refusals.{IsRefusal, NoneBefore};
ghost use Rattle.ep_linkable.specs.Supplies.{system};
ghost use Rattle.ep_linkable.specs.Units.{names_at, units_named};
ghost use Rattle.ep_linkable.specs.declared.imports.Fault.TheVariants.{Missing};
ghost use Rattle.ep_linkable.specs.declared.unit.LinkUnit.{LinkUnit};

use crate::refusal::LinkRefusal;
use crate::register::Register;
use crate::unit::{Import, LinkUnit};
use ep_base::{List, Names, NoMemory};
use ep_order::{Activation, Dependent, activation_order};
use std::alloc::Global;

/// The places of the units in the order of their activation.
pub(crate) fn supply_order(
    alloc: Global,
    units: &[LinkUnit],
    exporters: &Register,
) -> Result<List<u32>, LinkRefusal>
    requires few { length units.now < 2 ^ 32 }
    requires program { HasOneProgram units.now }
    requires apart { (name : List ℕ) → units_named units.now name < 2 }
    requires exporters { IsExporters units.now exporters.now }
    requires found { HasNoFault units.now Missing }
    requires none { NoneBefore units.now 7 }
    ensures within { IfOk result (All (λ place. place < length units.now)) }
    ensures order { IfOk result (λ places. IsOrder (system units.now) (names_at units.now places)) }
    ensures none { OnOk result (NoneBefore units.now 8) }
    ensures circle { IfErr result (IsRefusal units.now) }
{
    let dependents = dependents_of(alloc, exporters, units)?;
    let activation = activation_order(alloc, dependents.items())?;
    match activation {
        Activation::Ordered(places) => Ok(places),
        Activation::Circle(places) => {
            let names = names_of(alloc, units, places.items())?;
            Err(LinkRefusal::Circle(names))
        }
    }
}

/// The units with the places of those that supply them.
fn dependents_of<'a>(
    alloc: Global,
    exporters: &Register,
    units: &[LinkUnit<'a>],
) -> Result<List<Dependent<'a>>, NoMemory>
    requires { All (λ (unit : LinkUnit). AreFound exporters.now unit.imports) units.now }
    ensures { IfOk result (λ dependents. dependents ≡ map (dependent_of exporters.now) units.now) }
{
    let mut dependents = List::new(alloc);
    for unit in units {
        let suppliers = suppliers_of(alloc, exporters, unit.imports.items())?;
        dependents.push(Dependent {
            name: unit.name,
            is_program: unit.is_program,
            suppliers,
        })?;
    }
    Ok(dependents)
}

/// The places of the exporters of imports.
fn suppliers_of(
    alloc: Global,
    exporters: &Register,
    imports: &[Import],
) -> Result<List<u32>, NoMemory>
    requires { AreFound exporters.now imports.now }
    ensures { IfOk result (λ places. places ≡ map (supplier_place exporters.now) imports.now) }
{
    let mut places = List::new(alloc);
    for import in imports {
        match exporters.place(import.interface) {
            None => unreachable!(),
            Some(place) => places.push(place)?,
        }
    }
    Ok(places)
}

/// The names of the units at these places.
fn names_of(alloc: Global, units: &[LinkUnit], places: &[u32]) -> Result<Names, NoMemory>
    requires { All (λ place. place < length units.now) places.now }
    ensures { IfOk result (λ names. names ≡ names_at units.now places.now) }
{
    let mut names = List::new(alloc);
    for place in places {
        let name = units[*place as usize].name;
        let copy = name.copy(alloc)?;
        names.push(copy)?;
    }
    Ok(names)
}
