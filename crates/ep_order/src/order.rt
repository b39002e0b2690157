//! The order of activation.

ghost use Rattle.std.specs.Prelude.{◌≡◌, ◌<◌, ℕ, length, true, IfOk, MatchOption};
ghost use Rattle.std.specs.List.{All, Contains};
ghost use Rattle.ep_order.specs.Orders.{IsOrder};
ghost use Rattle.ep_order.specs.Dependents.{IsModuleAt, IsProgramAt, IsSystem, IsActivation, names_at, system_of};
ghost use Rattle.ep_order.specs.Placings.{IsPlacing, IsStuck};

use crate::circle::circle_from;
use crate::dependent::{Activation, Dependent};
use crate::places::Places;
use crate::queue::Queue;
use ep_base::{List, NoMemory};
use std::alloc::Global;

/// The order in which units are activated: over and over the least name among the modules that are not placed yet and
/// whose suppliers all are, and the program last. Where some modules remain, a circle of them. Time grows as the number
/// of units and suppliers with the logarithm of the number of units, and nothing is called along the list.
pub fn activation_order(alloc: Global, units: &[Dependent]) -> Result<Activation, NoMemory>
    requires { IsSystem units.now }
    ensures { IfOk result (IsActivation units.now) }
{
    let placed = placed_modules(alloc, units)?;
    match first_left(units, &placed) {
        None => {
            let order = with_program(units, placed.into_items())?;
            Ok(Activation::Ordered(order))
        }
        Some(place) => {
            let circle = circle_from(alloc, units, &placed, place)?;
            Ok(Activation::Circle(circle))
        }
    }
}

/// The modules that can be placed, in their order.
fn placed_modules(alloc: Global, units: &[Dependent]) -> Result<Places, NoMemory>
    requires { IsSystem units.now }
    ensures limit { IfOk result (λ placed. placed.limit ≡ length units.now) }
    ensures placing { IfOk result (λ placed. IsPlacing units.now placed.items) }
    ensures stuck { IfOk result (λ placed. IsStuck units.now placed.items) }
{
    let mut placed = Places::none(alloc, units.len())?;
    let mut queue = Queue::of_modules(alloc, units, &placed)?;
    while let Some(place) = queue.next() {
        placed.push(place)?;
        queue.wake(alloc, units, &placed, place)?;
    }
    Ok(placed)
}

/// The place of the first module that is not placed.
fn first_left(units: &[Dependent], placed: &Places) -> Option<u32>
    requires system { IsSystem units.now }
    requires limit { placed.now.limit ≡ length units.now }
    ensures { MatchOption result ((place : ℕ) → IsModuleAt units.now place → Contains placed.now.items place)
        (λ place. IsModuleAt units.now place × ¬ Contains placed.now.items place) }
{
    for (place, unit) in units.iter().enumerate() {
        if !unit.is_program && !placed.has(place as u32) {
            return Some(place as u32);
        }
    }
    None
}

/// The places of all modules with that of the program, if there is one, behind them.
fn with_program(units: &[Dependent], modules: List<u32>) -> Result<List<u32>, NoMemory>
    requires system { IsSystem units.now }
    requires placing { IsPlacing units.now modules }
    requires whole { (place : ℕ) → IsModuleAt units.now place → Contains modules place }
    ensures within { IfOk result (All (λ place. place < length units.now)) }
    ensures order { IfOk result (λ order. IsOrder (system_of units.now) (names_at units.now order)) }
{
    match program_of(units) {
        None => Ok(modules),
        Some(place) => {
            let mut order = modules;
            order.push(place)?;
            Ok(order)
        }
    }
}

/// The place of the program, if there is one.
fn program_of(units: &[Dependent]) -> Option<u32>
    requires { IsSystem units.now }
    ensures { MatchOption result ((place : ℕ) → ¬ IsProgramAt units.now place) (IsProgramAt units.now) }
{
    for (place, unit) in units.iter().enumerate() {
        if unit.is_program {
            return Some(place as u32);
        }
    }
    None
}
