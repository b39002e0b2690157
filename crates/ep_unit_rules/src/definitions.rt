//! What a denoter stands for: the definition to which its names lead, whatever it begins with.

ghost use Rattle.std.specs.Option.{option_copied, option_map};
ghost use Rattle.std.specs.Prelude.{◌≡◌};
ghost use Rattle.ep_typed.specs.Viewed.{denoter_of};
ghost use Rattle.ep_unit_rules.specs.Definitions as spec;

use ep_typed::{Denoter, UnitType};

/// A denoter without the initial states around it.
fn without_states(denoter: &Denoter) -> &Denoter
    ensures { denoter_of result.now ≡ spec.without_states (denoter_of denoter.now) }
{
    match denoter {
        Denoter::Initial(of, _) => without_states(of.get()),
        other => other,
    }
}

/// What a denoter stands for, whatever names of the list lead to it. Each definition is looked at once at most.
pub(crate) fn followed<'a>(types: &'a [UnitType], denoter: &'a Denoter) -> Option<&'a Denoter>
    ensures { option_map denoter_of (option_copied result)
        ≡ spec.followed types.now (denoter_of denoter.now) }
{
    let mut named = denoter;
    for looked in 0..=types.len() {
        let found = without_states(named);
        let Denoter::Named(number, _) = found else {
            return Some(found);
        };
        named = match types.get(*number as usize) {
            None => return None,
            Some(t) => &t.entry.denoter,
        };
    }
    None
}
