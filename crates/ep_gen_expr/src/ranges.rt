//! The tests of ranges of values, for `case` and for variants of records.

ghost use Rattle.std.specs.Prelude.{length, OnOk};
ghost use Rattle.ep_gen_expr.specs.ExprCode.{test_code, tests_code};
ghost use Rattle.ep_gen_code.specs.Growth.{Grows};

use ep_base::NoMemory;
use ep_gen_code::{Code, emit, next_place};
use ep_object::op;
use ep_typed::CaseRange;

/// The instructions of one test.
pub const TEST_LENGTH: u64 = 6;

/// Appends the tests of ranges, with a value on top: where one of them has it, the code at this place comes next.
pub fn tests_code(body: u32, ranges: &[CaseRange], code: &mut Code) -> Result<(), NoMemory>
    ensures { OnOk result
        (Grows code.old code.new (tests_code code.old.line body (length code.old.instructions) ranges.now)) }
{
    for range in ranges {
        test_code(body, range.low, range.high, code)?;
    }
    Ok(())
}

/// Appends the test of a range.
fn test_code(body: u32, low: i64, high: i64, code: &mut Code) -> Result<(), NoMemory>
    ensures { OnOk result (Grows code.old code.new
        (test_code code.old.line body (length code.old.instructions) (record { low = low; high = high }))) }
{
    let start = next_place(code)?;
    emit(code, op::DUP, 0, 0)?;
    emit(code, op::PUSH, low, 0)?;
    emit(code, op::PUSH, high, 0)?;
    emit(code, op::BETWEEN, 0, 0)?;
    emit(code, op::JUMP_FALSE, (start as u64 + TEST_LENGTH) as i64, 0)?;
    emit(code, op::JUMP, body as i64, 0)
}
