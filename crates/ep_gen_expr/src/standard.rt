//! The places of the standard files.

ghost use Rattle.std.specs.Prelude.{[], ◌∷◌, OnOk};
ghost use Rattle.ep_gen_expr.specs.ExprCode as code_of;
ghost use Rattle.ep_gen_code.specs.Growth.{Grows};

use ep_base::NoMemory;
use ep_gen_code::{Code, emit};
use ep_object::op;
use ep_typed::StandardFile;

/// The number of the unit that has the standard files.
const STANDARD_UNIT: i64 = -1;

/// The number of `input` in it.
const INPUT: u32 = 0;

/// The number of `output` in it.
const OUTPUT: u32 = 1;

/// Appends the code of the place of a standard file.
pub fn standard_code(file: StandardFile, code: &mut Code) -> Result<(), NoMemory>
    ensures { OnOk result (Grows code.old code.new (code_of.standard_code code.old.line file ∷ [])) }
{
    match file {
        StandardFile::Input => emit(code, op::UNIT, STANDARD_UNIT, INPUT),
        StandardFile::Output => emit(code, op::UNIT, STANDARD_UNIT, OUTPUT),
    }
}
