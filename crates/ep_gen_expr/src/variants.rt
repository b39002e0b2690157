//! The code of a variant of a record (ISO 10206, 6.5.3.3).
//!
//! The value of the tag is tried with the labels of all variants in order. Each test takes as many instructions as any other,
//! so the places behind them are known before the first one.

ghost use Rattle.std.specs.Prelude.{◌≡◌, ◌&&◌, ◌+◌, ◌-◌, ◌^◌, ◌<◌, if◌then◌else◌, length, IfOk, OnOk};
ghost use Rattle.ep_meaning.specs.Steps.{is_number};
ghost use Rattle.ep_gen_expr.specs.ExprCode.{bad_place, labels_code, labels_count, selecting_code, tag_code, tag_part_code, variant_code, variant_part_code};
ghost use Rattle.ep_gen_code.specs.Growth.{Grows};

use crate::ranges::{TEST_LENGTH, tests_code};
use ep_base::NoMemory;
use ep_gen_code::{Code, emit, next_place, place_number};
use ep_object::op;
use ep_typed::{CaseRanges, Selection};
use ep_values::run_error;

/// The instructions that take the value of a tag of a variable.
const TAG_LENGTH: u32 = 7;

/// Those that take the one of a tag of a value.
const TAG_PART_LENGTH: u32 = 6;

/// Appends the code of the variant with this number of a record, whose place is on top.
pub(crate) fn active_code(
    selection: &Selection,
    number: u32,
    code: &mut Code,
) -> Result<(), NoMemory>
    ensures { OnOk result (Grows code.old code.new
        (variant_code code.old.line (length code.old.instructions) selection.now number)) }
{
    let bad = bad_place(selection, TAG_LENGTH, code)?;
    tag_code(selection.tag, bad, code)?;
    selecting_code(selection, number, code)
}

/// Appends the code of the variant with this number of a record, whose value is on top.
pub(crate) fn active_part_code(
    selection: &Selection,
    number: u32,
    code: &mut Code,
) -> Result<(), NoMemory>
    ensures { OnOk result (Grows code.old code.new
        (variant_part_code code.old.line (length code.old.instructions) selection.now number)) }
{
    let bad = bad_place(selection, TAG_PART_LENGTH, code)?;
    tag_part_code(selection.tag, bad, code)?;
    selecting_code(selection, number, code)
}

/// Where the error of the tests of the labels will stand, which begin behind so many instructions.
fn bad_place(selection: &Selection, lead: u32, code: &Code) -> Result<u32, NoMemory>
    ensures { IfOk result (λ bad. (bad ≡ bad_place (length code.now.instructions + lead) selection.now)
        × (bad < 2 ^ 32 - 1)) }
{
    let start = next_place(code)?;
    let count = labels_count(selection.labels.items())?;
    place_number(start as u64 + lead as u64 + TEST_LENGTH * count as u64 + 1)
}

/// Appends the tests of the labels, with the value of a tag above a record, and the record's variant with this number.
fn selecting_code(selection: &Selection, number: u32, code: &mut Code) -> Result<(), NoMemory>
    ensures { OnOk result (Grows code.old code.new
        (selecting_code code.old.line (length code.old.instructions) selection.now number)) }
{
    let bad = bad_place(selection, 0, code)?;
    let good = bad + 1;
    labels_code(good, bad, number, selection.labels.items(), code)?;
    let rest = one_of(completes(selection, number), good, bad);
    emit(code, op::JUMP, rest as i64, 0)?;
    emit(code, op::FAIL, run_error::INACTIVE_VARIANT as i64, 0)?;
    emit(code, op::DROP, 0, 0)?;
    let variant = selection.tag as u64 + number as u64 + 1;
    emit(code, op::FIELD, variant as i64, 0)
}

/// Whether the variant with this number is the one that completes the others.
fn completes(selection: &Selection, number: u32) -> bool
    ensures { result ≡ (selection.now.completed && is_number (length selection.now.labels) number) }
{
    selection.completed && is_number(selection.labels.items().len() as u64, number)
}

/// Whether two numbers are the same.
fn is_number(index: u64, number: u32) -> bool
    ensures { result ≡ is_number index number }
{
    index == number as u64
}

/// The first place for the variant that is asked for, and the other one for any other variant.
fn one_of(is_asked_for: bool, good: u32, bad: u32) -> u32
    ensures { result ≡ (if is_asked_for then good else bad) }
{
    if is_asked_for { good } else { bad }
}

/// How many labels there are. A number that a field cannot hold is refused.
fn labels_count(all: &[CaseRanges]) -> Result<u32, NoMemory>
    ensures { IfOk result (λ k. k ≡ labels_count all.now) }
{
    let mut total = 0;
    for ranges in all {
        total = (ranges.items().len() as u64).saturating_add(total);
    }
    place_number(total)
}

/// Appends the code that takes the value of the tag of a record, and leads to a place where the tag is undefined.
fn tag_code(tag: u32, bad: u32, code: &mut Code) -> Result<(), NoMemory>
    ensures { OnOk result (Grows code.old code.new (tag_code code.old.line bad tag)) }
{
    emit(code, op::DUP, 0, 0)?;
    emit(code, op::FIELD, tag as i64, 0)?;
    emit(code, op::FIELD, 0, 0)?;
    emit(code, op::DUP, 0, 0)?;
    emit(code, op::DEFINED, 0, 0)?;
    emit(code, op::JUMP_FALSE, bad as i64, 0)?;
    emit(code, op::LOAD, 0, 0)
}

/// Appends the code that takes the value of the tag of a record, whose value is on top, and leads to a place where the tag is
/// undefined.
fn tag_part_code(tag: u32, bad: u32, code: &mut Code) -> Result<(), NoMemory>
    ensures { OnOk result (Grows code.old code.new (tag_part_code code.old.line bad tag)) }
{
    emit(code, op::DUP, 0, 0)?;
    emit(code, op::FIELD, tag as i64, 0)?;
    emit(code, op::DUP, 0, 0)?;
    emit(code, op::DEFINED, 0, 0)?;
    emit(code, op::JUMP_FALSE, bad as i64, 0)?;
    emit(code, op::FIELD, 0, 0)
}

/// Appends the tests of the labels of all variants: those of the variant with this number lead to one place, and those of the
/// others to another one.
fn labels_code(
    good: u32,
    bad: u32,
    number: u32,
    all: &[CaseRanges],
    code: &mut Code,
) -> Result<(), NoMemory>
    ensures { OnOk result (Grows code.old code.new
        (labels_code code.old.line good bad number 0 (length code.old.instructions) all.now)) }
{
    let mut index: u64 = 0;
    for ranges in all {
        let body = one_of(is_number(index, number), good, bad);
        tests_code(body, ranges.items(), code)?;
        index += 1;
    }
    Ok(())
}
