//! The tests of the ranges of a `case`.
//!
//! Each takes as many instructions as any other, so the place of the statement behind them is known before the first one.

ghost use Rattle.std.specs.Prelude.{OnOk};
ghost use Rattle.ep_gen_unit.specs.StmtGrowth.{AppendsTests};

use ep_base::NoMemory;
use ep_gen_code::{Code, field_number, next_place, place_number};
use ep_gen_expr::{TEST_LENGTH, tests_code};
use ep_typed::CaseRange;

/// Appends the tests of an arm, with the value of the selector on top. Its statement is to stand behind them and one
/// more instruction.
pub fn arm_tests_code(ranges: &[CaseRange], code: &mut Code) -> Result<(), NoMemory>
    ensures { OnOk result (AppendsTests code.old code.new ranges.now) }
{
    let start = next_place(code)?;
    let count = field_number(ranges.len())?;
    let body = place_number(start as u64 + TEST_LENGTH * count as u64 + 1)?;
    tests_code(body, ranges, code)
}
