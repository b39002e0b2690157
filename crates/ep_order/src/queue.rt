//! The modules that are not placed yet: those that may come next, and those that wait for a supplier.

ghost use Rattle.std.specs.Prelude.{◌≡◌, ◌+◌, ◌<◌, ◌≤◌, ℕ, List, [], length, None, Some, IfOk, OnOk, MatchOption};
ghost use Rattle.std.specs.List.{All, Contains};
ghost use Rattle.ep_order.specs.Dependents.{StandsAt, IsModuleAt, IsSystem};
ghost use Rattle.ep_order.specs.Placings.{ArePlacedBefore, IsFirstOpen};
ghost use Rattle.ep_order.specs.Queues.{IsSound, IsKept, IsWhole, IsWoken, IsTaken, ready_under, Waits};
ghost use Rattle.ep_order.specs.declared.dependent.Dependent.{Dependent};

use crate::dependent::Dependent;
use crate::places::Places;
use ep_base::NoMemory;
use std::alloc::Global;
use std::collections::BTreeMap;
use std::mem;

/// A module that waits for one of its suppliers.
#[derive(Clone, Copy)]
pub(crate) struct Waiter {
    /// Its place.
    unit: u32,
    /// Which of its suppliers it waits for; all before that one are placed.
    supplier: usize,
}

/// The modules that are not placed yet.
#[derive(Drop)]
pub(crate) struct Queue<'a> {
    /// The places of those whose suppliers are all placed, by their names.
    ready: BTreeMap<&'a [u8], u32>,
    /// For each place the modules that wait for the unit there. A module waits for one supplier at a time, so that each
    /// of its suppliers is looked at once.
    waiting: Vec<Vec<Waiter>>,
}

impl<'a> Queue<'a> {
    /// Nothing, with room for this many places.
    fn empty(alloc: Global, places: usize) -> Result<Queue<'a>, NoMemory>
        ensures rows { IfOk result (λ queue. length queue.waiting.items ≡ places) }
        ensures ready { IfOk result (λ queue. (name : List ℕ) → ready_under queue name ≡ None) }
        ensures waits { IfOk result (λ queue. (supplier place number : ℕ) → ¬ Waits queue supplier place number) }
    {
        let mut waiting = Vec::new(alloc);
        for _ in 0..places {
            waiting.push(Vec::new(alloc))?;
        }
        Ok(Queue {
            ready: BTreeMap::new(alloc),
            waiting,
        })
    }

    /// All modules of a list, of which none is placed.
    pub(crate) fn of_modules(
        alloc: Global,
        units: &[Dependent<'a>],
        placed: &Places,
    ) -> Result<Queue<'a>, NoMemory>
        requires system { IsSystem units.now }
        requires limit { placed.now.limit ≡ length units.now }
        requires none { placed.now.items ≡ [] }
        ensures sound { IfOk result (λ queue. IsSound units.now placed.now.items queue) }
        ensures whole { IfOk result (λ queue. IsWhole units.now placed.now.items queue) }
    {
        let mut queue = Queue::empty(alloc, units.len())?;
        for (place, unit) in units.iter().enumerate() {
            if !unit.is_program {
                queue.enter(units, placed, place as u32, 0)?;
            }
        }
        Ok(queue)
    }

    /// Takes out the one with the least name of those that may come next.
    pub(crate) fn next(&mut self) -> Option<u32>
        ensures { MatchOption result ((name : List ℕ) → ready_under self.old name ≡ None)
            (λ place. (name : List ℕ) × IsTaken self.old self.new place name) }
    {
        match self.ready.pop_first() {
            None => None,
            Some((_, place)) => Some(place),
        }
    }

    /// Lets those go on that wait for a unit, which is placed now.
    pub(crate) fn wake(
        &mut self,
        alloc: Global,
        units: &[Dependent<'a>],
        placed: &Places,
        place: u32,
    ) -> Result<(), NoMemory>
        requires system { IsSystem units.now }
        requires limit { placed.now.limit ≡ length units.now }
        requires within { place < length units.now }
        requires woken { IsWoken units.now placed.now.items self.old place }
        ensures sound { OnOk result (IsSound units.now placed.now.items self.new) }
        ensures whole { OnOk result (IsWhole units.now placed.now.items self.new) }
    {
        let woken = mem::replace(&mut self.waiting[place as usize], Vec::new(alloc));
        for waiter in &woken {
            self.enter(units, placed, waiter.unit, waiter.supplier)?;
        }
        Ok(())
    }

    /// Puts a module to those that wait for its first supplier that is not placed, or else to those that may come next.
    /// All its suppliers before `from` are placed.
    fn enter(
        &mut self,
        units: &[Dependent<'a>],
        placed: &Places,
        place: u32,
        from: usize,
    ) -> Result<(), NoMemory>
        requires system { IsSystem units.now }
        requires limit { placed.now.limit ≡ length units.now }
        requires module { IsModuleAt units.now place }
        requires unplaced { ¬ Contains placed.now.items place }
        requires before { (unit : Dependent) → StandsAt units.now place unit
            → ArePlacedBefore placed.now.items unit.suppliers from }
        requires sound { IsSound units.now placed.now.items self.old }
        ensures sound { OnOk result (IsSound units.now placed.now.items self.new) }
        ensures kept { OnOk result ((other : ℕ) → IsKept units.now placed.now.items self.old other
            → IsKept units.now placed.now.items self.new other) }
        ensures entered { OnOk result (IsKept units.now placed.now.items self.new place) }
    {
        let unit = &units[place as usize];
        let suppliers = unit.suppliers.items();
        match first_open(suppliers, placed, from) {
            None => {
                self.ready.insert(unit.name.bytes(), place)?;
            }
            Some(supplier) => {
                let waiter = Waiter {
                    unit: place,
                    supplier,
                };
                self.waiting[suppliers[supplier] as usize].push(waiter)?;
            }
        }
        Ok(())
    }
}

/// Which is the first of these places, from the one of this number on, that is not among those placed.
pub(crate) fn first_open(suppliers: &[u32], placed: &Places, from: usize) -> Option<usize>
    requires within { All (λ supplier. supplier < placed.now.limit) suppliers.now }
    requires before { ArePlacedBefore placed.now.items suppliers.now from }
    ensures { MatchOption result (All (Contains placed.now.items) suppliers.now)
        (IsFirstOpen placed.now.items suppliers.now) }
{
    for number in from..suppliers.len() {
        if !placed.has(suppliers[number]) {
            return Some(number);
        }
    }
    None
}
