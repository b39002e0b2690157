//! The parts of the code of `for` statements. Each sets the line.

ghost use Rattle.std.specs.Prelude.{OnOk};
ghost use Rattle.ep_meaning.specs.Controls.{next_value};
ghost use Rattle.ep_typed.specs.Trees.{entire, Assign, Read};
ghost use Rattle.ep_typed.specs.Viewed.{control_of, entire_of, expr_of, member_control_of};
ghost use Rattle.ep_gen_unit.specs.StmtGrowth.{AppendsBounds, AppendsFirst, AppendsKept, AppendsLeast, AppendsMore, AppendsStmt, AppendsTest, AppendsUndefine};

use ep_base::{Line, NoMemory};
use ep_gen_code::{Code, emit};
use ep_gen_expr::{
    apply_binary, entire_code, entire_value_code, expression_code, has_more_code, in_order_code,
    next_value_code, others_code,
};
use ep_object::op;
use ep_typed::{EntireVariable, ForControl, MemberControl, TypedExpr};
use ep_values::Binary;
use std::alloc::Global;

/// Appends the code before the turns: the auxiliary variables get the bounds, and whether there is a turn is left.
pub(crate) fn bounds_code(
    alloc: Global,
    line: Line,
    control: &ForControl,
    initial: &TypedExpr,
    last: &TypedExpr,
    code: &mut Code,
) -> Result<(), NoMemory>
    ensures { OnOk result (AppendsBounds line code.old code.new (control_of control.now)
        (expr_of initial.now) (expr_of last.now)) }
{
    assign_entire(alloc, line, &control.initial, initial, code)?;
    assign_entire(alloc, line, &control.last, last, code)?;
    code.line = line;
    in_order_code(alloc, control, code)
}

/// Appends the code of an assignment to an entire variable.
pub(crate) fn assign_entire(
    alloc: Global,
    line: Line,
    variable: &EntireVariable,
    value: &TypedExpr,
    code: &mut Code,
) -> Result<(), NoMemory>
    ensures { OnOk result (AppendsStmt code.old code.new
        (Assign line (entire (entire_of variable.now)) (expr_of value.now))) }
{
    code.line = line;
    entire_code(alloc, variable, code)?;
    expression_code(alloc, value, code)?;
    emit(code, op::STORE, 0, 0)
}

/// Appends the code that leaves the final value, tries both bounds in the control variable, and gives it the initial one.
pub(crate) fn first_code(
    alloc: Global,
    line: Line,
    control: &ForControl,
    code: &mut Code,
) -> Result<(), NoMemory>
    ensures { OnOk result (AppendsFirst line code.old code.new (control_of control.now)) }
{
    code.line = line;
    entire_value_code(alloc, &control.last, code)?;
    assign_read(alloc, line, &control.variable, &control.last, code)?;
    assign_read(alloc, line, &control.variable, &control.initial, code)
}

/// Appends the code of an assignment of a variable's value.
fn assign_read(
    alloc: Global,
    line: Line,
    variable: &EntireVariable,
    from: &EntireVariable,
    code: &mut Code,
) -> Result<(), NoMemory>
    ensures { OnOk result (AppendsStmt code.old code.new
        (Assign line (entire (entire_of variable.now)) (Read (entire (entire_of from.now))))) }
{
    code.line = line;
    entire_code(alloc, variable, code)?;
    entire_value_code(alloc, from, code)?;
    emit(code, op::STORE, 0, 0)
}

/// Appends the code that tells, over the final value, whether the control variable has another one.
pub(crate) fn test_code(
    alloc: Global,
    line: Line,
    control: &ForControl,
    code: &mut Code,
) -> Result<(), NoMemory>
    ensures { OnOk result (AppendsTest line code.old code.new (control_of control.now)) }
{
    code.line = line;
    emit(code, op::DUP, 0, 0)?;
    entire_value_code(alloc, &control.variable, code)?;
    apply_binary(Binary::Unequal, code)
}

/// Appends the code that gives the control variable its next value.
pub(crate) fn next_code(
    alloc: Global,
    line: Line,
    control: &ForControl,
    code: &mut Code,
) -> Result<(), NoMemory>
    ensures { OnOk result (AppendsStmt code.old code.new
        (Assign line (entire (control_of control.now).variable) (next_value (control_of control.now)))) }
{
    code.line = line;
    entire_code(alloc, &control.variable, code)?;
    next_value_code(alloc, control, code)?;
    emit(code, op::STORE, 0, 0)
}

/// Appends the code by which a variable becomes undefined.
pub(crate) fn undefine_code(
    alloc: Global,
    line: Line,
    variable: &EntireVariable,
    code: &mut Code,
) -> Result<(), NoMemory>
    ensures { OnOk result (AppendsUndefine line code.old code.new (entire_of variable.now)) }
{
    code.line = line;
    entire_code(alloc, variable, code)?;
    emit(code, op::UNDEFINE, 0, 0)
}

/// Appends the code that tells whether members are still to come in a `for` over members.
pub(crate) fn more_code(
    alloc: Global,
    line: Line,
    control: &MemberControl,
    code: &mut Code,
) -> Result<(), NoMemory>
    ensures { OnOk result (AppendsMore line code.old code.new (member_control_of control.now)) }
{
    code.line = line;
    has_more_code(alloc, control, code)
}

/// Appends the code that gives the control variable the least of them.
pub(crate) fn least_code(
    alloc: Global,
    line: Line,
    control: &MemberControl,
    code: &mut Code,
) -> Result<(), NoMemory>
    ensures { OnOk result (AppendsLeast line code.old code.new (member_control_of control.now)) }
{
    code.line = line;
    entire_code(alloc, &control.variable, code)?;
    emit(code, op::PUSH, 0, 0)?;
    entire_value_code(alloc, &control.rest, code)?;
    emit(code, op::NEXT, 0, 0)?;
    emit(code, op::STORE, 0, 0)
}

/// Appends the code that leaves the place of the auxiliary variable, and the members behind that one.
pub(crate) fn kept_code(
    alloc: Global,
    line: Line,
    control: &MemberControl,
    code: &mut Code,
) -> Result<(), NoMemory>
    ensures { OnOk result (AppendsKept line code.old code.new (member_control_of control.now)) }
{
    code.line = line;
    entire_code(alloc, &control.rest, code)?;
    others_code(alloc, control, code)
}
