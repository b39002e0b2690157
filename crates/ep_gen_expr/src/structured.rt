//! What stands before, between and after the components of structured values.

ghost use Rattle.std.specs.Prelude.{◌≡◌, OnOk, length};
ghost use Rattle.ep_gen_code.specs.Growth.{Grows};
ghost use Rattle.ep_gen_expr.specs.ExprCode.{begin_code, drops_code, end_code, first_code, first_index, given_code, range_code, ranges_code, reach_code, same_code, spread_code, spreads_code, steps_code, tested_code};

use ep_base::NoMemory;
use ep_gen_code::{Code, FILL, RANGE, SPREAD, SWAP, emit, next_place, type_reference};
use ep_object::op;
use ep_typed::CaseRange;

/// Appends what makes a variable of a type without a name: the elaboration of the type, the variable, whose number stays, and
/// its place above that.
pub fn begin_structured(number: u32, code: &mut Code) -> Result<(), NoMemory>
    ensures { OnOk result (Grows code.old code.new (begin_code code.old.line number)) }
{
    emit(code, op::CALL, type_reference(number), 0)?;
    emit(code, op::NEW, 0, 0)?;
    emit(code, op::DUP, 0, 0)?;
    emit(code, op::DEREF, 0, 0)
}

/// Appends what takes the value of that variable and ends it, whose place is on top above its number.
pub fn end_structured(code: &mut Code) -> Result<(), NoMemory>
    ensures { OnOk result (Grows code.old code.new (end_code code.old.line)) }
{
    emit(code, op::LOAD, 0, 0)?;
    emit(code, op::CALL, SWAP as i64, 0)?;
    emit(code, op::DISPOSE, 0, 0)
}

/// Appends what leaves a component of the record on top above it, to which the steps lead.
pub fn reach_field(steps: &[u32], code: &mut Code) -> Result<(), NoMemory>
    ensures { OnOk result (Grows code.old code.new (reach_code code.old.line steps.now)) }
{
    emit(code, op::DUP, 0, 0)?;
    follow_steps(steps, code)
}

/// Appends what leads from the record on top to a component inside of it.
fn follow_steps(steps: &[u32], code: &mut Code) -> Result<(), NoMemory>
    ensures { OnOk result (Grows code.old code.new (steps_code code.old.line steps.now)) }
{
    for number in steps {
        emit(code, op::FIELD, *number as i64, 0)?;
    }
    Ok(())
}

/// Appends what gives a component of the record on top what another one has: the one that is given, the record above it
/// again, and from there the other one.
pub fn same_field(from: &[u32], to: &[u32], code: &mut Code) -> Result<(), NoMemory>
    ensures { OnOk result (Grows code.old code.new (same_code code.old.line from.now to.now)) }
{
    emit(code, op::DUP, 0, 0)?;
    reach_field(to, code)?;
    emit(code, op::CALL, SWAP as i64, 0)?;
    follow_steps(from, code)?;
    emit(code, op::LOAD, 0, 0)?;
    emit(code, op::STORE, 0, 0)
}

/// Appends what leaves the component with the first index of these ranges of the array on top above it.
pub fn reach_first(ranges: &[CaseRange], code: &mut Code) -> Result<(), NoMemory>
    ensures { OnOk result (Grows code.old code.new (first_code code.old.line ranges.now)) }
{
    emit(code, op::DUP, 0, 0)?;
    emit(code, op::PUSH, first_index(ranges), 0)?;
    emit(code, op::INDEX, 0, 0)
}

/// Appends what gives the value of that component to those with the indexes of all these ranges.
pub fn fill_ranges(ranges: &[CaseRange], code: &mut Code) -> Result<(), NoMemory>
    ensures { OnOk result (Grows code.old code.new (ranges_code code.old.line (first_index ranges.now) ranges.now)) }
{
    let from = first_index(ranges);
    for range in ranges {
        fill_range(from, range.low, range.high, code)?;
    }
    Ok(())
}

/// Appends what gives the value of the component with an index to those with the indexes of a range.
fn fill_range(from: i64, low: i64, high: i64, code: &mut Code) -> Result<(), NoMemory>
    ensures { OnOk result
        (Grows code.old code.new (range_code code.old.line from (record { low = low; high = high }))) }
{
    emit(code, op::DUP, 0, 0)?;
    emit(code, op::PUSH, from, 0)?;
    emit(code, op::PUSH, low, 0)?;
    emit(code, op::PUSH, high, 0)?;
    emit(code, op::CALL, FILL as i64, 0)
}

/// The first index of these ranges.
fn first_index(ranges: &[CaseRange]) -> i64
    ensures { result ≡ first_index ranges.now }
{
    match ranges {
        [] => 0,
        [first, ..] => first.low,
    }
}

/// Appends what tests two indexes on top against the array below them, and leaves them below it.
pub fn test_range(code: &mut Code) -> Result<(), NoMemory>
    ensures { OnOk result (Grows code.old code.new (tested_code code.old.line)) }
{
    emit(code, op::CALL, RANGE as i64, 0)?;
    emit(code, op::INDEX, 0, 0)?;
    emit(code, op::DROP, 0, 0)?;
    emit(code, op::INDEX, 0, 0)?;
    emit(code, op::DROP, 0, 0)
}

/// Appends what gives the value on top to the components of the array below it with the indexes of so many ranges below both,
/// and leaves the array and the value.
pub fn spread_values(ranges: usize, code: &mut Code) -> Result<(), NoMemory>
    ensures { OnOk result
        (Grows code.old code.new (spreads_code code.old.line (length code.old.instructions) ranges)) }
{
    for _range in 0..ranges {
        spread_value(code)?;
    }
    Ok(())
}

/// Appends what gives it to those with the indexes of one range, where it has any.
fn spread_value(code: &mut Code) -> Result<(), NoMemory>
    ensures { OnOk result (Grows code.old code.new (spread_code code.old.line (length code.old.instructions))) }
{
    let place = next_place(code)? as u64;
    emit(code, op::DUP, 0, 0)?;
    emit(code, op::CALL, SPREAD as i64, 0)?;
    emit(code, op::JUMP_FALSE, (place + 8) as i64, 0)?;
    give_first(code)?;
    emit(code, op::JUMP, (place + SPREAD_LENGTH) as i64, 0)?;
    drop_operands(7, code)
}

/// How many instructions give a value to the components with the indexes of a range.
const SPREAD_LENGTH: u64 = 15;

/// Appends what gives a value to the component with the first index of a range, and what that has then to all of them.
fn give_first(code: &mut Code) -> Result<(), NoMemory>
    ensures { OnOk result (Grows code.old code.new (given_code code.old.line)) }
{
    emit(code, op::INDEX, 0, 0)?;
    emit(code, op::CALL, SWAP as i64, 0)?;
    emit(code, op::STORE, 0, 0)?;
    emit(code, op::CALL, FILL as i64, 0)
}

/// Appends what drops so many operands.
fn drop_operands(count: usize, code: &mut Code) -> Result<(), NoMemory>
    ensures { OnOk result (Grows code.old code.new (drops_code code.old.line count)) }
{
    for _operand in 0..count {
        emit(code, op::DROP, 0, 0)?;
    }
    Ok(())
}
