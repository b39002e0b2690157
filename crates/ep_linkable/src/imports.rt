//! Imports that no unit exports, or that are exported otherwise than the importer was compiled with.

ghost use Rattle.std.specs.Prelude.{◌≡◌, ◌<◌, ◌+◌, ℕ, List, length, Some, IsTrue, ◌↔◌, IfErr, IfOk, IfSome, OnOk};
ghost use Rattle.ep_linkable.specs.Exporters.{IsExporters};
ghost use Rattle.ep_linkable.specs.Faults.{HasFault, HasNoFault, IsFaulty, IsFaultyUnit, interface_at};
ghost use Rattle.ep_linkable.specs.Faults.{number_of, refusal_for};
ghost use Rattle.ep_linkable.specs.Least.{IsChosen, IsLeastAt};
ghost use Rattle.ep_linkable.specs.Refusals.{IsDifferent, IsMissing, IsRefusal, NoneBefore};
ghost use Rattle.ep_linkable.specs.Units.{name_at, units_named};

use crate::programs::lesser_unit;
use crate::refusal::LinkRefusal;
use crate::register::{Register, is_up_to};
use crate::unit::{Import, LinkUnit};
use ep_base::{Name, NoMemory};
use std::alloc::Global;

/// What may be wrong with an import.
#[derive(Clone, Copy)]
pub(crate) enum Fault {
    /// No unit exports the interface.
    Missing,
    /// The exporter's own interface file is another one.
    Different,
}

/// That no import has this fault.
pub(crate) fn no_fault(
    alloc: Global,
    fault: Fault,
    units: &[LinkUnit],
    exporters: &Register,
) -> Result<(), LinkRefusal>
    requires exporters { IsExporters units.now exporters.now }
    requires apart { (name : List ℕ) → units_named units.now name < 2 }
    requires none { NoneBefore units.now (number_of fault) }
    ensures none { OnOk result (HasNoFault units.now fault) }
    ensures next { OnOk result (NoneBefore units.now (number_of fault + 1)) }
    ensures case { IfErr result (IsRefusal units.now) }
{
    match faulty_unit(fault, units, exporters) {
        None => Ok(()),
        Some(place) => {
            let refusal = fault_at(alloc, fault, units, exporters, place)?;
            Err(refusal)
        }
    }
}

/// The refusal for the unit at a place, which is the least that has an import with this fault.
fn fault_at(
    alloc: Global,
    fault: Fault,
    units: &[LinkUnit],
    exporters: &Register,
    place: usize,
) -> Result<LinkRefusal, NoMemory>
    requires exporters { IsExporters units.now exporters.now }
    requires apart { (name : List ℕ) → units_named units.now name < 2 }
    requires none { NoneBefore units.now (number_of fault) }
    requires least { IsLeastAt (IsFaultyUnit units.now fault) (name_at units.now) (length units.now) (Some place) }
    ensures { IfOk result (IsRefusal units.now) }
{
    let unit = &units[place];
    let imports = unit.imports.items();
    match faulty_import(fault, units, exporters, imports) {
        None => unreachable!(),
        Some(number) => {
            let refusal = refusal_for(alloc, fault, imports[number].interface, unit.name)?;
            Ok(refusal)
        }
    }
}

/// The refusal for a fault of the import of an interface by a unit.
fn refusal_for(
    alloc: Global,
    fault: Fault,
    interface: &Name,
    importer: &Name,
) -> Result<LinkRefusal, NoMemory>
    ensures { IfOk result (λ refusal. refusal ≡ refusal_for fault interface.now importer.now) }
{
    let interface = interface.copy(alloc)?;
    let importer = importer.copy(alloc)?;
    match fault {
        Fault::Missing => Ok(LinkRefusal::NoModule(interface, importer)),
        Fault::Different => Ok(LinkRefusal::InterfaceDiffers(interface, importer)),
    }
}

/// The place of the unit with the least name that has an import with this fault.
fn faulty_unit(fault: Fault, units: &[LinkUnit], exporters: &Register) -> Option<usize>
    requires exporters { IsExporters units.now exporters.now }
    ensures { IsLeastAt (IsFaultyUnit units.now fault) (name_at units.now) (length units.now) result }
{
    let mut least = None;
    for place in 0..units.len() {
        least = with_unit(fault, units, exporters, place, least);
    }
    least
}

/// The same when one more unit is looked at.
fn with_unit(
    fault: Fault,
    units: &[LinkUnit],
    exporters: &Register,
    place: usize,
    least: Option<usize>,
) -> Option<usize>
    requires exporters { IsExporters units.now exporters.now }
    requires within { place < length units.now }
    requires least { IsLeastAt (IsFaultyUnit units.now fault) (name_at units.now) place least }
    ensures { IsLeastAt (IsFaultyUnit units.now fault) (name_at units.now) (place + 1) result }
{
    let imports = units[place].imports.items();
    match faulty_import(fault, units, exporters, imports) {
        None => least,
        Some(_) => Some(lesser_unit(units, place, least)),
    }
}

/// The number of the import of the least interface that has this fault.
fn faulty_import(
    fault: Fault,
    units: &[LinkUnit],
    exporters: &Register,
    imports: &[Import],
) -> Option<usize>
    requires exporters { IsExporters units.now exporters.now }
    ensures { IsLeastAt (IsFaulty units.now fault imports.now) (interface_at imports.now) (length imports.now) result }
{
    let mut least = None;
    for number in 0..imports.len() {
        least = with_import(fault, units, exporters, imports, number, least);
    }
    least
}

/// The same when one more import is looked at.
fn with_import(
    fault: Fault,
    units: &[LinkUnit],
    exporters: &Register,
    imports: &[Import],
    number: usize,
    least: Option<usize>,
) -> Option<usize>
    requires exporters { IsExporters units.now exporters.now }
    requires within { number < length imports.now }
    requires least { IsLeastAt (IsFaulty units.now fault imports.now) (interface_at imports.now) number least }
    ensures { IsLeastAt (IsFaulty units.now fault imports.now) (interface_at imports.now) (number + 1) result }
{
    if has_fault(fault, units, exporters, &imports[number]) {
        Some(lesser_import(imports, number, least))
    } else {
        least
    }
}

/// The number of an import, or of the least so far where that is of no greater interface.
fn lesser_import(imports: &[Import], number: usize, least: Option<usize>) -> usize
    requires within { number < length imports.now }
    requires least { IfSome least (λ other. other < length imports.now) }
    ensures { IsChosen (interface_at imports.now) number least result }
{
    match least {
        None => number,
        Some(other) => {
            if is_up_to(imports[other].interface, imports[number].interface) {
                other
            } else {
                number
            }
        }
    }
}

/// Whether an import has this fault.
fn has_fault(fault: Fault, units: &[LinkUnit], exporters: &Register, import: &Import) -> bool
    requires exporters { IsExporters units.now exporters.now }
    ensures { IsTrue result ↔ HasFault units.now fault import.now }
{
    match fault {
        Fault::Missing => is_missing(units, exporters, import),
        Fault::Different => is_different(units, exporters, import),
    }
}

/// Whether no unit exports what is imported.
fn is_missing(_units: &[LinkUnit], exporters: &Register, import: &Import) -> bool
    requires exporters { IsExporters _units.now exporters.now }
    ensures { IsTrue result ↔ IsMissing _units.now import.now }
{
    match exporters.place(import.interface) {
        None => true,
        Some(_) => false,
    }
}

/// Whether the own interface file of the exporter is not the one that the importer was compiled with.
fn is_different(units: &[LinkUnit], exporters: &Register, import: &Import) -> bool
    requires exporters { IsExporters units.now exporters.now }
    ensures { IsTrue result ↔ IsDifferent units.now import.now }
{
    match exporters.place(import.interface) {
        None => false,
        Some(place) => !are_same(units[place as usize].interface, import.file),
    }
}

/// Whether two files have the same bytes.
fn are_same(first: &[u8], second: &[u8]) -> bool
    ensures { IsTrue result ↔ (first.now ≡ second.now) }
{
    first == second
}
