//! The order in which units are linked, or why they cannot be.

ghost use Rattle.std.specs.Prelude.{◌≡◌, ◌<◌, ◌^◌, length, IfErr, IfOk, OnOk};
ghost use Rattle.ep_linkable.specs.Refusals.{Holds, IsLinkOrder, IsRefusal, NoneBefore, total_size};
ghost use Rattle.ep_linkable.specs.declared.refusal.LinkRefusal.{LinkRefusal};

use crate::imports::{Fault, no_fault};
use crate::names::{exporters_of, names_apart};
use crate::programs::one_program;
use crate::refusal::LinkRefusal;
use crate::supply::supply_order;
use crate::unit::LinkUnit;
use ep_base::{List, NoMemory};
use std::alloc::{AllocError, Global};

/// How many bytes the object files of one link have at most, all together.
pub const MAX_LINK: u64 = 67_108_864;

/// The places of units in the order of their activation: over and over the least name among the modules whose
/// suppliers all stand already, and the program last. Where they cannot be linked, the first refusal that holds, in
/// the order of its variants; of a refusal with several cases, that of the least importer or unit, and then of the
/// least interface. Memory is wanting also where there are 2^32 units or more. Time grows as the number of units,
/// exports and imports with its logarithm, and nothing is called along a list.
pub fn link_order(alloc: Global, units: &[LinkUnit]) -> Result<List<u32>, LinkRefusal>
    ensures order { IfOk result (IsLinkOrder units.now) }
    ensures refusal { IfErr result (IsRefusal units.now) }
{
    few_units(units)?;
    one_program(alloc, units)?;
    names_apart(alloc, units)?;
    let exporters = exporters_of(alloc, units)?;
    no_fault(alloc, Fault::Missing, units, &exporters)?;
    no_fault(alloc, Fault::Different, units, &exporters)?;
    let order = supply_order(alloc, units, &exporters)?;
    small_enough(units)?;
    Ok(order)
}

/// That the object files have no more than `MAX_LINK` bytes together.
fn small_enough(units: &[LinkUnit]) -> Result<(), LinkRefusal>
    requires { NoneBefore units.now 8 }
    ensures none { OnOk result ((refusal : LinkRefusal) → ¬ Holds units.now refusal) }
    ensures large { IfErr result (IsRefusal units.now) }
{
    let size = total_size(units);
    if size > MAX_LINK {
        return Err(LinkRefusal::TooLarge(size));
    }
    Ok(())
}

/// That there are so few units that each place has a number.
fn few_units(units: &[LinkUnit]) -> Result<(), NoMemory>
    ensures { OnOk result (length units.now < 2 ^ 32) }
{
    if units.len() > u32::MAX as usize {
        return Err(AllocError);
    }
    Ok(())
}

/// How many bytes all object files have.
fn total_size(units: &[LinkUnit]) -> u64
    ensures { result ≡ total_size units.now }
{
    let mut total: u64 = 0;
    for unit in units {
        total = total.saturating_add(unit.size);
    }
    total
}
