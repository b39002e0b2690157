//! The code of the expressions that `for` statements are made of.

ghost use Rattle.std.specs.Prelude.{◌≡◌, OnOk, if◌then◌else◌};
ghost use Rattle.ep_meaning.specs.Controls.{has_more, in_order, next_value, others};
ghost use Rattle.ep_typed.specs.Viewed.{control_of, member_control_of};
ghost use Rattle.ep_values.specs.declared.operations.Binary.TheVariants as binary;
ghost use Rattle.ep_gen_expr.specs.ExprCode.{step_code};
ghost use Rattle.ep_gen_expr.specs.Growth.{AppendsExpr};
ghost use Rattle.ep_gen_code.specs.Growth.{Grows};

use crate::expressions::{constant_code, entire_value_code};
use crate::operations::{apply_binary, apply_on_sets, apply_step, apply_unary};
use ep_base::NoMemory;
use ep_gen_code::{Code, emit};
use ep_object::op;
use ep_typed::{ForControl, MemberControl};
use ep_values::{Binary, SetOperation, Unary};
use std::alloc::Global;

/// How the initial value is compared with the final one: whether the first may come before the second.
fn order(falls: bool) -> Binary
    ensures { result ≡ (if falls then binary.AtLeast else binary.AtMost) }
{
    if falls {
        Binary::AtLeast
    } else {
        Binary::AtMost
    }
}

/// Appends the code that tells whether a `for` has a turn (ISO 10206, 6.9.3.9.2).
#[tactic(auto, using(crate::proofs::Forms::forms))]
pub fn in_order_code(alloc: Global, control: &ForControl, code: &mut Code) -> Result<(), NoMemory>
    ensures { OnOk result (AppendsExpr code.old code.new (in_order (control_of control.now))) }
{
    entire_value_code(alloc, &control.initial, code)?;
    entire_value_code(alloc, &control.last, code)?;
    apply_binary(order(control.falls), code)
}

/// Appends the code of the next value of a control variable.
#[tactic(auto, using(crate::proofs::Forms::forms))]
pub fn next_value_code(alloc: Global, control: &ForControl, code: &mut Code) -> Result<(), NoMemory>
    ensures { OnOk result (AppendsExpr code.old code.new (next_value (control_of control.now))) }
{
    entire_value_code(alloc, &control.variable, code)?;
    constant_code(1, code)?;
    step_within(control.falls, &control.low, &control.high, code)
}

/// Appends the code that steps on or back within these bounds, which are seen to be integers where they are read.
fn step_within(falls: bool, low: &i64, high: &i64, code: &mut Code) -> Result<(), NoMemory>
    ensures { OnOk result (Grows code.old code.new (step_code code.old.line falls low.now high.now)) }
{
    apply_step(falls, *low, *high, code)
}

/// Appends the code that tells whether members are still to come in a `for` over members (ISO 10206, 6.9.3.9.3).
pub fn has_more_code(
    alloc: Global,
    control: &MemberControl,
    code: &mut Code,
) -> Result<(), NoMemory>
    ensures { OnOk result (AppendsExpr code.old code.new (has_more (member_control_of control.now))) }
{
    entire_value_code(alloc, &control.rest, code)?;
    emit(code, op::SET_NONE, 0, 0)?;
    apply_on_sets(SetOperation::Unequal, code)
}

/// Appends the code of the members that are another one than the control variable has.
pub fn others_code(alloc: Global, control: &MemberControl, code: &mut Code) -> Result<(), NoMemory>
    ensures { OnOk result (AppendsExpr code.old code.new (others (member_control_of control.now))) }
{
    entire_value_code(alloc, &control.rest, code)?;
    emit(code, op::SET_NONE, 0, 0)?;
    entire_value_code(alloc, &control.variable, code)?;
    apply_unary(Unary::Same, code)?;
    emit(code, op::SET_ADD, 0, 0)?;
    apply_on_sets(SetOperation::Difference, code)
}
