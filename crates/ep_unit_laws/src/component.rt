//! The static rules of a whole component, with what follows from them.

ghost use Rattle.std.specs.Prelude.{◌≡◌, ◌≤◌, None, length, IfOk};
ghost use Rattle.std.specs.Result.{IfErr};
ghost use Rattle.ep_built.specs.Built.{component_unbuilt};
ghost use Rattle.ep_check_unit.specs.Checks.{IsChecked, IsRefusal};
ghost use Rattle.ep_values.specs.Operations.{maxint};
ghost use Rattle.ep_unit_laws.specs.Laws.{HasValidUnit};

use crate::laws_of_typed_units;
use ep_check_unit::{CheckRefusal, Checked};
use ep_tree::Component;
use ep_typed::{ConstantEntry, Interface};
use std::alloc::Global;

/// What `check` of ep_check_unit answers, of which a typed unit is valid.
pub fn check(
    alloc: Global,
    component: &Component,
    given: &[Interface],
) -> Result<Checked, CheckRefusal>
    requires { component_unbuilt component.now ≡ None }
    ensures typed { IfOk result (λ checked. IsChecked component.now checked) }
    ensures refused { IfErr result (λ refusal. IsRefusal component.now refusal) }
    ensures valid { IfOk result (λ checked. HasValidUnit checked) }
{
    let checked = ep_check_unit::check(alloc, component, given)?;
    laws_of_typed_units();
    match &checked {
        Checked::Block(unit) => few_constants(unit.constants.items()),
        Checked::Heading(_) | Checked::Both(_, _) => {}
    }
    Ok(checked)
}

/// Does nothing: a list in memory has no more constants than there are integers to number them.
fn few_constants(constants: &[ConstantEntry])
    ensures { length constants.now ≤ maxint }
{}
