//! The code of statements.
//!
//! A statement sets the line, so it is set again after a part that is a statement.

ghost use Rattle.std.specs.Prelude.{◌≡◌, OnOk, map, IfOk, ◌<◌, length, [], ◌∷◌};
ghost use Rattle.ep_typed.specs.Trees.{Compound, Assign, AssignTag, If, While, Repeat, For, ForIn, Procedure, Halt, Write, stmts};
ghost use Rattle.ep_typed.specs.Viewed.{expr_of, actual_of, callee_of, control_of, entire_of, item_of, member_control_of, place_of, stmt_of, arm_of, tagging_of, with_record_of};
ghost use Rattle.ep_gen_unit.specs.StmtCode.{slot_of};
ghost use Rattle.ep_gen_unit.specs.StmtGrowth.{AppendsBind, AppendsBinds, AppendsStmt, AppendsStmts, AppendsArms, ClosesCase, OpensCase};
ghost use Rattle.ep_typed.specs.Trees as tree;

use crate::items::items_code;
use crate::loops::{
    assign_entire, bounds_code, first_code, kept_code, least_code, more_code, next_code, test_code,
    undefine_code,
};
use crate::ranges::arm_tests_code;
use crate::tags::assign_tag_code;
use ep_base::{Line, NoMemory};
use ep_gen_code::{Code, emit, land, leave_hole, next_place};
use ep_gen_expr::{call_code, expression_code, place_code};
use ep_object::op;
use ep_typed::{
    Actual, Callee, CaseArm, EntireVariable, ForControl, MemberControl, TypedExpr, TypedPlace,
    TypedStmt, WithRecord, WriteItem,
};
use ep_values::run_error;
use std::alloc::Global;

/// Appends the code of a statement. Where memory is wanting, or the code or a table would reach 2 ^ 32 entries, it is
/// refused, and the code is then that of no statement.
#[cycle(statement)]
pub fn statement_code(alloc: Global, s: &TypedStmt, code: &mut Code) -> Result<(), NoMemory>
    ensures { OnOk result (AppendsStmt code.old code.new (stmt_of s.now)) }
{
    match s {
        TypedStmt::Empty => Ok(()),
        TypedStmt::Compound(statements) => compound_code(alloc, statements.items(), code),
        TypedStmt::Assign(line, place, value) => {
            assign_code(alloc, *line, place, value.get(), code)
        }
        TypedStmt::AssignTag(line, control, whole, selection, value) => {
            assign_tag_code(
                alloc,
                *line,
                control.get(),
                whole,
                selection.get(),
                value.get(),
                code,
            )
        }
        TypedStmt::If(line, condition, then_part, else_part) => {
            if_code(
                alloc,
                *line,
                condition.get(),
                then_part.get(),
                else_part.get(),
                code,
            )
        }
        TypedStmt::While(line, condition, body) => {
            while_code(alloc, *line, condition.get(), body.get(), code)
        }
        TypedStmt::Repeat(line, body, condition) => {
            repeat_code(alloc, *line, body.items(), condition.get(), code)
        }
        TypedStmt::ForIn(line, control, set, body) => {
            for_in_code(alloc, *line, control.get(), set.get(), body.get(), code)
        }
        TypedStmt::For(line, control, initial, last, body) => {
            for_code(
                alloc,
                *line,
                control.get(),
                initial.get(),
                last.get(),
                body.get(),
                code,
            )
        }
        TypedStmt::With(line, records, body) => {
            binds_code(alloc, *line, records.items(), code)?;
            statement_code(alloc, body.get(), code)
        }
        TypedStmt::Procedure(line, callee, given) => {
            procedure_code(alloc, *line, callee, given.items(), code)
        }
        TypedStmt::Case(line, selector, arms, other) => {
            let leave = open_case(alloc, *line, arms.items(), selector.get(), code)?;
            match other {
                None => fail_code(*line, leave, code),
                Some(statements) => {
                    otherwise_code(alloc, *line, leave, statements.items(), code)
                }
            }
        }
        TypedStmt::Halt(line) => halt_code(*line, code),
        TypedStmt::Write(line, items, ends_line) => {
            write_code(alloc, *line, items.items(), *ends_line, code)
        }
    }
}

/// Appends the code of statements one after another.
#[cycle(statement)]
fn compound_code(alloc: Global, statements: &[TypedStmt], code: &mut Code) -> Result<(), NoMemory>
    ensures { OnOk result (AppendsStmts code.old code.new (stmts (map stmt_of statements.now))) }
{
    for s in statements {
        statement_code(alloc, s, code)?;
    }
    Ok(())
}

/// Appends the code of an assignment.
pub(crate) fn assign_code(
    alloc: Global,
    line: Line,
    place: &TypedPlace,
    value: &TypedExpr,
    code: &mut Code,
) -> Result<(), NoMemory>
    ensures { OnOk result (AppendsStmt code.old code.new (Assign line (place_of place.now) (expr_of value.now))) }
{
    code.line = line;
    place_code(alloc, place, code)?;
    expression_code(alloc, value, code)?;
    emit(code, op::STORE, 0, 0)
}

/// Appends the code of an `if`: the condition, the jump over the first part, that part, the jump over the second part,
/// and that part.
#[cycle(statement)]
fn if_code(
    alloc: Global,
    line: Line,
    condition: &TypedExpr,
    then_part: &TypedStmt,
    else_part: &TypedStmt,
    code: &mut Code,
) -> Result<(), NoMemory>
    ensures { OnOk result (AppendsStmt code.old code.new
        (If line (expr_of condition.now) (stmt_of then_part.now) (stmt_of else_part.now))) }
{
    code.line = line;
    expression_code(alloc, condition, code)?;
    let skip = leave_hole(code)?;
    statement_code(alloc, then_part, code)?;
    let leave = leave_hole(code)?;
    land(code, skip, op::JUMP_FALSE, line)?;
    statement_code(alloc, else_part, code)?;
    land(code, leave, op::JUMP, line)
}

/// Appends the code of a `while`: the condition, the jump out of the loop, the body, and the jump back.
#[cycle(statement)]
fn while_code(
    alloc: Global,
    line: Line,
    condition: &TypedExpr,
    body: &TypedStmt,
    code: &mut Code,
) -> Result<(), NoMemory>
    ensures { OnOk result (AppendsStmt code.old code.new (While line (expr_of condition.now) (stmt_of body.now))) }
{
    code.line = line;
    let start = next_place(code)?;
    expression_code(alloc, condition, code)?;
    let leave = leave_hole(code)?;
    statement_code(alloc, body, code)?;
    code.line = line;
    emit(code, op::JUMP, start as i64, 0)?;
    land(code, leave, op::JUMP_FALSE, line)
}

/// Appends the code of a `repeat`: the statements, the condition, and the jump back where it is false.
#[cycle(statement)]
fn repeat_code(
    alloc: Global,
    line: Line,
    body: &[TypedStmt],
    condition: &TypedExpr,
    code: &mut Code,
) -> Result<(), NoMemory>
    ensures { OnOk result
        (AppendsStmt code.old code.new (Repeat line (stmts (map stmt_of body.now)) (expr_of condition.now))) }
{
    let start = next_place(code)?;
    compound_code(alloc, body, code)?;
    code.line = line;
    expression_code(alloc, condition, code)?;
    emit(code, op::JUMP_FALSE, start as i64, 0)
}

/// Appends the code of a `for`: the bounds and the jump over the turns; the first value, the body, the jump out of the
/// turns where the value was the last one, the next value and the jump back; and the end. The final value stays on the
/// operands while there are turns.
#[cycle(statement)]
fn for_code(
    alloc: Global,
    line: Line,
    control: &ForControl,
    initial: &TypedExpr,
    last: &TypedExpr,
    body: &TypedStmt,
    code: &mut Code,
) -> Result<(), NoMemory>
    ensures { OnOk result (AppendsStmt code.old code.new (For line (control_of control.now)
        (expr_of initial.now) (expr_of last.now) (stmt_of body.now))) }
{
    bounds_code(alloc, line, control, initial, last, code)?;
    let leave = leave_hole(code)?;
    first_code(alloc, line, control, code)?;
    let again = next_place(code)?;
    statement_code(alloc, body, code)?;
    test_code(alloc, line, control, code)?;
    let done = leave_hole(code)?;
    next_code(alloc, line, control, code)?;
    code.line = line;
    emit(code, op::JUMP, again as i64, 0)?;
    land(code, done, op::JUMP_FALSE, line)?;
    emit(code, op::DROP, 0, 0)?;
    land(code, leave, op::JUMP_FALSE, line)?;
    undefine_code(alloc, line, &control.variable, code)
}

/// Appends the code of a `for` over members: the set, which the auxiliary variable gets; the jump out of the turns where no
/// member is to come, the least one, what is to come after it, the body, and the jump back; and the end. What is to come stays
/// on the operands while the body is done.
#[cycle(statement)]
fn for_in_code(
    alloc: Global,
    line: Line,
    control: &MemberControl,
    set: &TypedExpr,
    body: &TypedStmt,
    code: &mut Code,
) -> Result<(), NoMemory>
    ensures { OnOk result (AppendsStmt code.old code.new (ForIn line (member_control_of control.now)
        (expr_of set.now) (stmt_of body.now))) }
{
    assign_entire(alloc, line, &control.rest, set, code)?;
    let again = next_place(code)?;
    more_code(alloc, line, control, code)?;
    let leave = leave_hole(code)?;
    least_code(alloc, line, control, code)?;
    kept_code(alloc, line, control, code)?;
    statement_code(alloc, body, code)?;
    code.line = line;
    emit(code, op::STORE, 0, 0)?;
    emit(code, op::JUMP, again as i64, 0)?;
    land(code, leave, op::JUMP_FALSE, line)?;
    undefine_code(alloc, line, &control.variable, code)
}

/// Appends the beginning of the code of a `with`: its records, one after another.
fn binds_code(
    alloc: Global,
    line: Line,
    records: &[WithRecord],
    code: &mut Code,
) -> Result<(), NoMemory>
    ensures { OnOk result (AppendsBinds line code.old code.new (map with_record_of records.now)) }
{
    for record in records {
        bind_code(alloc, line, &record.variable, &record.place, code)?;
    }
    Ok(())
}

/// Appends the code of a record that a `with` opens: the place, which goes into the slot of the variable that stands for it.
fn bind_code(
    alloc: Global,
    line: Line,
    variable: &EntireVariable,
    place: &TypedPlace,
    code: &mut Code,
) -> Result<(), NoMemory>
    ensures { OnOk result (AppendsBind line code.old code.new (entire_of variable.now) (place_of place.now)) }
{
    code.line = line;
    place_code(alloc, place, code)?;
    let slot = slot_of(variable);
    emit(code, op::BIND, slot as i64, 0)
}

/// The slot of an entire variable of a block.
fn slot_of(variable: &EntireVariable) -> u32
    ensures { result ≡ slot_of (entire_of variable.now) }
{
    match variable {
        EntireVariable::Unit(_, number) | EntireVariable::Own(_, number) => *number,
    }
}

/// Appends the code of a procedure statement, which is a call. The jump behind the call takes the tick for the step that
/// the statement spends when the call is done.
fn procedure_code(
    alloc: Global,
    line: Line,
    callee: &Callee,
    given: &[Actual],
    code: &mut Code,
) -> Result<(), NoMemory>
    ensures { OnOk result (AppendsStmt code.old code.new
        (Procedure line (callee_of callee.now) (tree.actuals (map actual_of given.now)))) }
{
    code.line = line;
    call_code(alloc, callee, given, code)
}

/// Appends the beginning of the code of a `case`: the selector, the jump over the one jump out of the `case`, a filler for
/// that jump, by which each arm leaves, and the arms. It answers the place of the filler.
#[cycle(statement)]
fn open_case(
    alloc: Global,
    line: Line,
    arms: &[CaseArm],
    selector: &TypedExpr,
    code: &mut Code,
) -> Result<u32, NoMemory>
    ensures { IfOk result (λ leave. OpensCase line leave code.old code.new
        (expr_of selector.now) (tree.arms (map arm_of arms.now))) }
{
    code.line = line;
    expression_code(alloc, selector, code)?;
    let start = next_place(code)?;
    emit(code, op::JUMP, (start as u64 + 2) as i64, 0)?;
    let leave = leave_hole(code)?;
    arms_code(alloc, line, leave, arms, code)?;
    Ok(leave)
}

/// Appends the end of the code of a `case` without `otherwise`: the end by an error, and the jump out of the `case`.
fn fail_code(line: Line, leave: u32, code: &mut Code) -> Result<(), NoMemory>
    requires { leave < length code.old.instructions }
    ensures { OnOk result (ClosesCase line leave code.old code.new tree.no_other) }
{
    code.line = line;
    emit(code, op::FAIL, run_error::NO_CASE as i64, 0)?;
    land(code, leave, op::JUMP, line)
}

/// Appends the end of the code of a `case` with `otherwise`: these statements without the value of the selector, and the
/// jump out of the `case`.
#[cycle(statement)]
fn otherwise_code(
    alloc: Global,
    line: Line,
    leave: u32,
    statements: &[TypedStmt],
    code: &mut Code,
) -> Result<(), NoMemory>
    requires { leave < length code.old.instructions }
    ensures { OnOk result (ClosesCase line leave code.old code.new
        (tree.otherwise_do (stmts (map stmt_of statements.now)))) }
{
    code.line = line;
    emit(code, op::DROP, 0, 0)?;
    compound_code(alloc, statements, code)?;
    land(code, leave, op::JUMP, line)
}

/// Appends the code of arms one after another.
#[cycle(statement)]
fn arms_code(
    alloc: Global,
    line: Line,
    leave: u32,
    arms: &[CaseArm],
    code: &mut Code,
) -> Result<(), NoMemory>
    ensures { OnOk result (AppendsArms line leave code.old code.new (tree.arms (map arm_of arms.now))) }
{
    for arm in arms {
        arm_code(alloc, line, leave, arm, code)?;
    }
    Ok(())
}

/// Appends the code of an arm: its tests, the jump over its statement, the statement without the value of the selector,
/// and the jump to the place from which the `case` is left.
#[cycle(statement)]
fn arm_code(
    alloc: Global,
    line: Line,
    leave: u32,
    arm: &CaseArm,
    code: &mut Code,
) -> Result<(), NoMemory>
    ensures { OnOk result (AppendsArms line leave code.old code.new (tree.arms (arm_of arm.now ∷ []))) }
{
    code.line = line;
    arm_tests_code(arm.ranges.items(), code)?;
    let over = leave_hole(code)?;
    emit(code, op::DROP, 0, 0)?;
    statement_code(alloc, arm.body.get(), code)?;
    code.line = line;
    emit(code, op::JUMP, leave as i64, 0)?;
    land(code, over, op::JUMP, line)
}

/// Appends the code of `halt`.
fn halt_code(line: Line, code: &mut Code) -> Result<(), NoMemory>
    ensures { OnOk result (AppendsStmt code.old code.new (Halt line)) }
{
    code.line = line;
    emit(code, op::HALT, 0, 0)
}

/// Appends the code of a `write` or `writeln`.
fn write_code(
    alloc: Global,
    line: Line,
    items: &[WriteItem],
    ends_line: bool,
    code: &mut Code,
) -> Result<(), NoMemory>
    ensures { OnOk result (AppendsStmt code.old code.new (Write line (map item_of items.now) ends_line)) }
{
    code.line = line;
    items_code(alloc, items, ends_line, code)
}
