//! Names that stand twice: of units, and of interfaces that are exported.

ghost use Rattle.std.specs.Prelude.{◌≡◌, ◌<◌, ◌^◌, ◌++◌, ℕ, List, length, map, IfOk, IfErr, OnOk};
ghost use Rattle.ep_linkable.specs.Exporters.{IsExporters, entry_at, export_entries, unit_entries};
ghost use Rattle.ep_linkable.specs.Refusals.{IsRefusal, NoneBefore};
ghost use Rattle.ep_linkable.specs.Registers.{seen};
ghost use Rattle.ep_linkable.specs.Units.{units_named};

use crate::refusal::LinkRefusal;
use crate::register::{Entry, Register};
use crate::unit::LinkUnit;
use ep_base::{List, Name, NoMemory};
use std::alloc::Global;

/// That no two units have one name.
pub(crate) fn names_apart(alloc: Global, units: &[LinkUnit]) -> Result<(), LinkRefusal>
    requires few { length units.now < 2 ^ 32 }
    requires none { NoneBefore units.now 3 }
    ensures apart { OnOk result ((name : List ℕ) → units_named units.now name < 2) }
    ensures none { OnOk result (NoneBefore units.now 4) }
    ensures twice { IfErr result (IsRefusal units.now) }
{
    let entries = unit_entries(alloc, units)?;
    let register = Register::of(alloc, entries.items())?;
    match register.twice {
        None => Ok(()),
        Some(name) => {
            let copy = name.copy(alloc)?;
            Err(LinkRefusal::TwoUnits(copy))
        }
    }
}

/// The units that export interfaces, by the interfaces' names, of which no two are equal.
pub(crate) fn exporters_of<'a>(
    alloc: Global,
    units: &[LinkUnit<'a>],
) -> Result<Register<'a>, LinkRefusal>
    requires few { length units.now < 2 ^ 32 }
    requires none { NoneBefore units.now 4 }
    ensures exporters { IfOk result (IsExporters units.now) }
    ensures none { OnOk result (NoneBefore units.now 5) }
    ensures twice { IfErr result (IsRefusal units.now) }
{
    let entries = export_entries(alloc, units)?;
    let register = Register::of(alloc, entries.items())?;
    match register.twice {
        None => Ok(register),
        Some(name) => {
            let copy = name.copy(alloc)?;
            Err(LinkRefusal::TwoInterfaces(copy))
        }
    }
}

/// The names of units.
fn unit_entries<'a>(alloc: Global, units: &[LinkUnit<'a>]) -> Result<List<Entry<'a>>, NoMemory>
    requires few { length units.now < 2 ^ 32 }
    ensures { IfOk result (λ entries. seen entries ≡ unit_entries 0 units.now) }
{
    let mut entries = List::new(alloc);
    for (place, unit) in units.iter().enumerate() {
        entries.push(Entry {
            name: unit.name,
            place: place as u32,
        })?;
    }
    Ok(entries)
}

/// The names of the interfaces that modules export.
fn export_entries<'a>(alloc: Global, units: &[LinkUnit<'a>]) -> Result<List<Entry<'a>>, NoMemory>
    requires few { length units.now < 2 ^ 32 }
    ensures { IfOk result (λ entries. seen entries ≡ export_entries 0 units.now) }
{
    let mut entries = List::new(alloc);
    for (place, unit) in units.iter().enumerate() {
        if !unit.is_program {
            append_exports(&mut entries, unit.exports, place as u32)?;
        }
    }
    Ok(entries)
}

/// Appends names that come from a place.
fn append_exports<'a>(
    entries: &mut List<Entry<'a>>,
    exports: &'a [Name],
    place: u32,
) -> Result<(), NoMemory>
    ensures { OnOk result (seen entries.new ≡ seen entries.old ++ map (entry_at place) exports.now) }
{
    for name in exports {
        entries.push(Entry { name, place })?;
    }
    Ok(())
}
