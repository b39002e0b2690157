//! The code of assignments to tags (ISO 10206, 6.5.3.3).
//!
//! The place of the record stays on the operands, and each use of it is a copy. The number of the variant that was selected
//! stays there as well; the value, under which the machine finds nothing, is kept in an auxiliary variable.

ghost use Rattle.std.specs.Prelude.{◌≡◌, ◌≤◌, ◌<◌, length, min, IfOk, OnOk, ◌∷◌, [], pos};
ghost use Rattle.ep_typed.specs.Trees.{AssignTag};
ghost use Rattle.ep_typed.specs.Viewed.{expr_of, place_of, tagging_of};
ghost use Rattle.ep_gen_code.specs.Instructions.{push};
ghost use Rattle.ep_gen_code.specs.Growth.{Grows};
ghost use Rattle.ep_gen_unit.specs.StmtGrowth.{AppendsChange, AppendsStmt, AppendsTaken, AppendsTried};
ghost use Rattle.ep_gen_unit.specs.TagCode.{clear_code, cleared_code, clears_code, none_before, none_now, number_code, number_length, rest_number, selected_code, selection_code, selection_length, selections_code, selections_length, tag_place_code, variants_code, within_code};

use crate::loops::assign_entire;
use ep_base::{Line, NoMemory};
use ep_gen_code::{Code, emit, field_number, land, leave_hole, next_place, place_number};
use ep_gen_expr::{TEST_LENGTH, apply_binary, entire_value_code, place_code, tests_code};
use ep_object::op;
use ep_typed::{CaseRange, CaseRanges, Selection, TagControl, TypedExpr, TypedPlace};
use ep_values::{Binary, run_error};
use std::alloc::Global;

/// What stands for no variant that was selected before.
const NONE_BEFORE: i64 = -1;

/// What stands for none that is selected now.
const NONE_NOW: i64 = -2;

/// Appends the code of an assignment to the tag of a record.
pub(crate) fn assign_tag_code(
    alloc: Global,
    line: Line,
    control: &TagControl,
    whole: &TypedPlace,
    selection: &Selection,
    value: &TypedExpr,
    code: &mut Code,
) -> Result<(), NoMemory>
    ensures { OnOk result (AppendsStmt code.old code.new (AssignTag line (tagging_of control.now)
        (place_of whole.now) selection.now (expr_of value.now))) }
{
    code.line = line;
    place_code(alloc, whole, code)?;
    assign_entire(alloc, line, &control.value, value, code)?;
    code.line = line;
    tried_code(alloc, control, selection, code)?;
    selected_code(selection, code)?;
    change_code(alloc, control, selection, code)?;
    taken_code(alloc, control, selection, code)
}

/// Appends the code that tries the value for the tag, and leaves the place of the tag.
fn tried_code(
    alloc: Global,
    control: &TagControl,
    selection: &Selection,
    code: &mut Code,
) -> Result<(), NoMemory>
    ensures { OnOk result (AppendsTried code.old code.new (tagging_of control.now) selection.now) }
{
    emit(code, op::DUP, 0, 0)?;
    tag_place_code(selection.tag, code)?;
    entire_value_code(alloc, &control.value, code)?;
    within_code(&control.low, &control.high, code)
}

/// Appends the code that tries a value against these bounds, which are seen to be integers where they are read.
fn within_code(low: &i64, high: &i64, code: &mut Code) -> Result<(), NoMemory>
    ensures { OnOk result (Grows code.old code.new (within_code code.old.line low.now high.now)) }
{
    check_code(*low, *high, code)
}

/// Appends the code that tries a value against these bounds, and drops it.
fn check_code(low: i64, high: i64, code: &mut Code) -> Result<(), NoMemory>
    ensures { OnOk result (Grows code.old code.new (within_code code.old.line low high)) }
{
    push_code(low, code)?;
    push_code(high, code)?;
    emit(code, op::CHECK, run_error::OUTSIDE_TYPE as i64, 0)?;
    emit(code, op::DROP, 0, 0)
}

/// Appends the code that leaves a number.
fn push_code(number: i64, code: &mut Code) -> Result<(), NoMemory>
    ensures { OnOk result (Grows code.old code.new (push code.old.line number ∷ [])) }
{
    emit(code, op::PUSH, number, 0)
}

/// Appends the code that leaves the number of the variant which the tag on top selects, in its place.
fn selected_code(selection: &Selection, code: &mut Code) -> Result<(), NoMemory>
    ensures { OnOk result (Grows code.old code.new
        (selected_code code.old.line (length code.old.instructions) selection.now)) }
{
    let start = next_place(code)?;
    let count = number_length(selection)?;
    let undefined = start as u64 + 4 + count as u64 + 1;
    emit(code, op::DUP, 0, 0)?;
    emit(code, op::DEFINED, 0, 0)?;
    emit(code, op::JUMP_FALSE, undefined as i64, 0)?;
    emit(code, op::LOAD, 0, 0)?;
    number_code(selection, NONE_BEFORE, code)?;
    emit(code, op::JUMP, (undefined + 2) as i64, 0)?;
    emit(code, op::DROP, 0, 0)?;
    push_code(NONE_BEFORE, code)
}

/// Appends the code by which the variants become undefined, where the value selects another one than that whose number is on
/// top.
fn change_code(
    alloc: Global,
    control: &TagControl,
    selection: &Selection,
    code: &mut Code,
) -> Result<(), NoMemory>
    ensures { OnOk result (AppendsChange code.old code.new (tagging_of control.now) selection.now) }
{
    let line = code.line;
    entire_value_code(alloc, &control.value, code)?;
    number_code(selection, NONE_NOW, code)?;
    apply_binary(Binary::Unequal, code)?;
    let skip = leave_hole(code)?;
    variants_code(selection, code)?;
    land(code, skip, op::JUMP_FALSE, line)
}

/// Appends the code by which the tag of the record gets the value.
fn taken_code(
    alloc: Global,
    control: &TagControl,
    selection: &Selection,
    code: &mut Code,
) -> Result<(), NoMemory>
    ensures { OnOk result (AppendsTaken code.old code.new (tagging_of control.now) selection.now) }
{
    tag_place_code(selection.tag, code)?;
    entire_value_code(alloc, &control.value, code)?;
    emit(code, op::STORE, 0, 0)
}

/// Appends the code that leaves the place of the tag in place of that of the record.
fn tag_place_code(tag: u32, code: &mut Code) -> Result<(), NoMemory>
    ensures { OnOk result (Grows code.old code.new (tag_place_code code.old.line tag)) }
{
    emit(code, op::FIELD, tag as i64, 0)?;
    emit(code, op::FIELD, 0, 0)
}

/// How many instructions try the labels of a variant, or the greatest `u64` where there are more.
fn selection_length(ranges: &[CaseRange]) -> u64
    ensures { result ≡ min (selection_length ranges.now) 18446744073709551615 }
{
    if ranges.is_empty() {
        return 0;
    }
    (ranges.len() as u64)
        .saturating_mul(TEST_LENGTH)
        .saturating_add(4)
}

/// How many instructions give the number of a variant. A number that a field cannot hold is refused.
fn number_length(selection: &Selection) -> Result<u32, NoMemory>
    ensures { IfOk result (λ k. k ≡ number_length selection.now) }
{
    let count = selections_length(selection.labels.items())?;
    place_number(count as u64 + 2)
}

fn selections_length(all: &[CaseRanges]) -> Result<u32, NoMemory>
    ensures { IfOk result (λ k. k ≡ selections_length all.now) }
{
    let mut total = 0;
    for ranges in all {
        total = selection_length(ranges.items()).saturating_add(total);
    }
    place_number(total)
}

/// Appends the code by which the value on top gives way to the number of the variant that it selects, or to this one.
fn number_code(selection: &Selection, none: i64, code: &mut Code) -> Result<(), NoMemory>
    ensures { OnOk result (Grows code.old code.new
        (number_code code.old.line (length code.old.instructions) selection.now none)) }
{
    let start = next_place(code)?;
    let count = number_length(selection)?;
    let leave = place_number(start as u64 + count as u64)?;
    selections_code(leave, selection.labels.items(), code)?;
    emit(code, op::DROP, 0, 0)?;
    rest_code(selection, none, code)
}

/// Appends the code that leaves what stands for the variant which is selected where no label has the value.
fn rest_code(selection: &Selection, none: i64, code: &mut Code) -> Result<(), NoMemory>
    ensures { OnOk result (Grows code.old code.new
        (push code.old.line (rest_number selection.now none) ∷ [])) }
{
    let count = field_number(selection.labels.items().len())?;
    if selection.completed {
        return count_code(count, code);
    }
    push_code(none, code)
}

/// Appends the code that leaves a count.
fn count_code(count: u32, code: &mut Code) -> Result<(), NoMemory>
    ensures { OnOk result (Grows code.old code.new (push code.old.line (pos count) ∷ [])) }
{
    emit(code, op::PUSH, count as i64, 0)
}

/// Appends the tests of the labels of all variants, each with its number where one of its labels has the value.
fn selections_code(leave: u32, all: &[CaseRanges], code: &mut Code) -> Result<(), NoMemory>
    ensures { OnOk result (Grows code.old code.new
        (selections_code code.old.line leave 0 (length code.old.instructions) all.now)) }
{
    let mut index: u64 = 0;
    for ranges in all {
        let number = place_number(index)?;
        selection_code(leave, number, ranges.items(), code)?;
        index += 1;
    }
    Ok(())
}

/// Appends the tests of the labels of a variant with this number.
fn selection_code(
    leave: u32,
    number: u32,
    ranges: &[CaseRange],
    code: &mut Code,
) -> Result<(), NoMemory>
    ensures { OnOk result (Grows code.old code.new
        (selection_code code.old.line leave number (length code.old.instructions) ranges.now)) }
{
    if ranges.is_empty() {
        return Ok(());
    }
    let start = next_place(code)?;
    let count = field_number(ranges.len())?;
    let body = place_number(start as u64 + TEST_LENGTH * count as u64 + 1)?;
    tests_code(body, ranges, code)?;
    emit(code, op::JUMP, (body as u64 + 3) as i64, 0)?;
    emit(code, op::DROP, 0, 0)?;
    emit(code, op::PUSH, number as i64, 0)?;
    emit(code, op::JUMP, leave as i64, 0)
}

/// Appends the code by which all variants become undefined.
fn variants_code(selection: &Selection, code: &mut Code) -> Result<(), NoMemory>
    ensures { OnOk result (Grows code.old code.new (variants_code code.old.line selection.now)) }
{
    let first = selection.tag as u64 + 1;
    let count = field_number(selection.labels.items().len())?;
    clears_code(first, selection.labels.items(), code)?;
    if selection.completed {
        clear_code(first + count as u64, code)?;
    }
    Ok(())
}

/// Appends the code by which the variants with these labels become undefined, which are components from this number on.
fn clears_code(first: u64, all: &[CaseRanges], code: &mut Code) -> Result<(), NoMemory>
    requires { first ≤ 4294967296 }
    ensures { OnOk result (Grows code.old code.new (clears_code code.old.line first all.now)) }
{
    let mut index: u64 = 0;
    for ranges in all {
        let number = place_number(index)?;
        cleared_code(first + number as u64, ranges.items(), code)?;
        index += 1;
    }
    Ok(())
}

/// Appends the code by which a variant with these labels becomes undefined.
fn cleared_code(number: u64, ranges: &[CaseRange], code: &mut Code) -> Result<(), NoMemory>
    requires { number < 9223372036854775808 }
    ensures { OnOk result (Grows code.old code.new (cleared_code code.old.line number ranges.now)) }
{
    if ranges.is_empty() {
        return Ok(());
    }
    clear_code(number, code)
}

/// Appends the code by which the component with this number becomes undefined.
fn clear_code(number: u64, code: &mut Code) -> Result<(), NoMemory>
    requires { number < 9223372036854775808 }
    ensures { OnOk result (Grows code.old code.new (clear_code code.old.line number)) }
{
    emit(code, op::DUP, 0, 0)?;
    emit(code, op::FIELD, number as i64, 0)?;
    emit(code, op::UNDEFINE, 0, 0)
}
