//! Where what an object has of its own stands among all that the image has of it.

ghost use Rattle.std.specs.Prelude.{◌≡◌, ◌+◌, IfOk};
ghost use Rattle.ep_object.specs.Placing.{moved, moved_field, moved_type};

use ep_base::NoMemory;
use std::alloc::AllocError;
use std::marker::Model;

/// The number of what is not there.
pub const MISSING: u32 = u32::MAX;

/// How many numbers of types name required types in constant types.
const REQUIRED_TYPES: u32 = 7;

/// How many of something an image has at most, so that each has a number, also as a constant type.
const MAX_PARTS: u64 = 4_294_967_288;

/// How many of something stand before an object's own, and how many it has of its own.
#[derive(Clone, Copy, Drop)]
pub struct Span {
    before: u32,
    own: u32,
}

impl Model for Span {
    ghost use Rattle.std.specs.Prelude.{◌+◌, ◌≤◌};
    ghost use Rattle.ep_object.specs.Placing.{Span};
    ghost use Rattle.ep_link.specs.declared.span.TheConstants as limit;

    ghost Value = { Span };

    ghost view = { λ s. record { before = s.before; own = s.own } };

    ghost invariant = { λ s. s.before + s.own ≤ limit.MAX_PARTS };

    ghost inverse = { λ d. record { before = d.before; own = d.own } };
}

impl Span {
    /// So many of an object's own, after so many others. Where these are more than `MAX_PARTS`, memory is wanting.
    pub fn new(before: u32, own: usize) -> Result<Span, NoMemory>
        ensures { IfOk result (λ span. span ≡ record { before = before; own = own }) }
    {
        if u64::from(before).saturating_add(own as u64) > MAX_PARTS {
            return Err(AllocError);
        }
        Ok(Span {
            before,
            own: own as u32,
        })
    }

    /// How many stand before what follows.
    pub fn end(&self) -> u32
        ensures { result ≡ self.now.before + self.now.own }
    {
        self.before + self.own
    }

    /// Where a number of the object's own stands in the image.
    pub fn moved(&self, number: u32) -> u32
        ensures { result ≡ moved self.now number }
    {
        if number < self.own {
            self.before + number
        } else {
            MISSING
        }
    }

    /// The same for a field of an instruction.
    pub fn moved_field(&self, field: i64) -> i64
        ensures { result ≡ moved_field self.now field }
    {
        if 0 <= field && field < i64::from(self.own) {
            i64::from(self.before) + field
        } else {
            i64::from(MISSING)
        }
    }

    /// The same for the number of a type in a constant type, where those of required types stay.
    pub fn moved_type(&self, number: u32) -> u32
        ensures { result ≡ moved_type self.now number }
    {
        if number < REQUIRED_TYPES {
            return number;
        }
        if number - REQUIRED_TYPES < self.own {
            self.before + number
        } else {
            MISSING
        }
    }
}
