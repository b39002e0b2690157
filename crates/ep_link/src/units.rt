//! The units of an image by name.

ghost use Rattle.std.specs.Prelude.{◌≡◌, ◌<◌, ℕ, List, None, All, length, IfOk, OnOk};
ghost use Rattle.std.specs.Option.{option_copied, option_map};
ghost use Rattle.ep_object.specs.Placing.{placement_of, placements};
ghost use Rattle.ep_link.specs.Linking.{in_order};
ghost use Rattle.ep_link.specs.Placements.{nameless};
ghost use Rattle.ep_link.specs.Units.{unit_named, with_first};

use crate::placement::{Bases, Placement};
use ep_base::{Name, NoMemory};
use ep_object::Object;
use std::alloc::Global;
use std::collections::BTreeMap;

/// For each name the placement of the first object that has it.
#[derive(Drop)]
pub struct Units {
    placements: BTreeMap<Vec<u8>, Placement>,
}

impl Units {
    /// No units. It takes no memory.
    fn new(alloc: Global) -> Units
        ensures { (name : List ℕ) → unit_named result name ≡ None }
    {
        Units {
            placements: BTreeMap::new(alloc),
        }
    }

    /// The placement of the unit of this name. It takes no memory.
    pub fn named(&self, name: &Name) -> Option<&Placement>
        ensures { option_copied result ≡ unit_named self.now name.now }
    {
        self.placements.get(name.bytes())
    }

    /// Adds the placement of a unit of this name, where there is none yet.
    fn add(&mut self, alloc: Global, name: &Name, placement: &Placement) -> Result<(), NoMemory>
        ensures { OnOk result
            ((other : List ℕ)
            → unit_named self.new other ≡ with_first (unit_named self.old) name.now placement.now other) }
    {
        if self.placements.contains_key(name.bytes()) {
            return Ok(());
        }
        let key = Vec::from_slice(alloc, name.bytes())?;
        self.placements.insert(key, *placement)?;
        Ok(())
    }
}

/// The units of objects that are linked in this order.
pub fn units_of(alloc: Global, objects: &[Object], order: &[u32]) -> Result<Units, NoMemory>
    requires { All (λ place. place < length objects.now) order.now }
    ensures { IfOk result (λ units. (name : List ℕ)
        → unit_named units name
        ≡ option_map nameless (placement_of (placements (in_order objects.now order.now)) name)) }
{
    let mut units = Units::new(alloc);
    let mut bases = Bases::first();
    for place in order {
        let object = &objects[*place as usize];
        let placement = bases.placement(object)?;
        units.add(alloc, &object.name, &placement)?;
        bases = placement.end()?;
    }
    Ok(units)
}
