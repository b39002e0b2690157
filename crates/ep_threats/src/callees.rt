//! The routines that the code of a unit may call, and their formal parameters.

ghost use Rattle.std.specs.Prelude.{◌≡◌};
ghost use Rattle.std.specs.Option.{option_copied};
ghost use Rattle.ep_threats.specs.Callees.{callees_in, callees_of, formals_at, heading_among};

use ep_base::Name;
use ep_typed::{Formal, Interface, UnitRoutine};

/// The routines that the code of a unit may call: its own, by number, and those of the headings that it is given (ISO
/// 10206, 6.11.2).
#[derive(Clone, Copy)]
pub struct Callees<'a> {
    /// The unit's own.
    pub own: &'a [UnitRoutine],
    /// The headings of other units.
    pub given: &'a [Interface],
}

/// The heading of the unit of this name.
fn heading_among<'a>(given: &'a [Interface], unit: &Name) -> Option<&'a Interface>
    ensures { option_copied result ≡ heading_among given.now unit.now }
{
    for heading in given {
        if unit.bytes() == heading.module.bytes() {
            return Some(heading);
        }
    }
    None
}

impl<'a> Callees<'a> {
    /// These routines.
    pub fn of(own: &'a [UnitRoutine], given: &'a [Interface]) -> Callees<'a>
        ensures { callees_of result ≡ callees_in own.now given.now }
    {
        Callees { own, given }
    }

    /// The formal parameters of the routine of this number of the unit of this name, where there is one.
    pub(crate) fn formals(&self, unit: &Name, number: u32) -> &'a [Formal]
        ensures { result.now ≡ formals_at (callees_of self.now) unit.now number }
    {
        match heading_among(self.given, unit) {
            Some(heading) => match heading.routines.items().get(number as usize) {
                None => &[],
                Some(routine) => routine.formals.items(),
            },
            None => match self.own.get(number as usize) {
                None => &[],
                Some(routine) => routine.formals.items(),
            },
        }
    }
}
