//! Where the parts of an object stand in the image.

ghost use Rattle.std.specs.Prelude.{◌≡◌, IfOk};
ghost use Rattle.ep_link.specs.Placements.{first_bases, bases_after, nameless, placement_at, unit_slot};

use crate::span::{MISSING, Span};
use ep_base::NoMemory;
use ep_object::Object;
use std::alloc::AllocError;

/// How many of each part stand in the image before those of an object.
#[derive(Clone, Copy, Drop)]
pub struct Bases {
    unit: u32,
    routines: u32,
    texts: u32,
    constant_types: u32,
    instructions: u32,
}

/// Where the parts of an object stand.
#[derive(Clone, Copy, Drop)]
pub struct Placement {
    /// The number of its unit.
    pub unit: u32,
    /// How many slots the unit has.
    pub slots: u32,
    /// Its routines.
    pub routines: Span,
    /// Its texts.
    pub texts: Span,
    /// Its constant types.
    pub constant_types: Span,
    /// Its instructions.
    pub instructions: Span,
}

impl Bases {
    /// Those of the first object.
    pub fn first() -> Bases
        ensures { result ≡ first_bases }
    {
        Bases {
            unit: 0,
            routines: 0,
            texts: 0,
            constant_types: 0,
            instructions: 0,
        }
    }

    /// The placement of the object that stands there. Where an image has no numbers for so much, memory is wanting.
    pub fn placement(&self, object: &Object) -> Result<Placement, NoMemory>
        ensures { IfOk result (λ placement. placement ≡ nameless (placement_at self.now object.now)) }
    {
        Ok(Placement {
            unit: self.unit,
            slots: object.unit_slots,
            routines: Span::new(self.routines, object.routines.items().len())?,
            texts: Span::new(self.texts, object.texts.items().len())?,
            constant_types: Span::new(self.constant_types, object.constant_types.items().len())?,
            instructions: Span::new(self.instructions, object.instructions.items().len())?,
        })
    }
}

impl Placement {
    /// The bases of the object that follows. Where an image has no number for its unit, memory is wanting.
    pub fn end(&self) -> Result<Bases, NoMemory>
        ensures { IfOk result (λ bases. bases ≡ bases_after self.now) }
    {
        let Some(unit) = self.unit.checked_add(1) else {
            return Err(AllocError);
        };
        Ok(Bases {
            unit,
            routines: self.routines.end(),
            texts: self.texts.end(),
            constant_types: self.constant_types.end(),
            instructions: self.instructions.end(),
        })
    }

    /// A slot of the unit, or `MISSING` where the unit has no slot of this number.
    pub fn slot(&self, number: u32) -> u32
        ensures { result ≡ unit_slot self.now number }
    {
        if number < self.slots { number } else { MISSING }
    }
}
