//! Places of the code, and jumps ahead.
//!
//! An object has fewer than 2 ^ 32 instructions, so that each place is a number of 32 bits, and the greatest number
//! is that of what is missing. Code that would grow further is a want of memory.

ghost use Rattle.std.specs.Prelude.{◌≡◌, ◌<◌, ◌^◌, ◌-◌, length, IfOk, OnOk};
ghost use Rattle.ep_gen_code.specs.Jumps.{IsNextPlace, LeavesHole, landed};

use crate::code::{Code, emit};
use ep_base::{Line, NoMemory};
use ep_object::{Instr, op};
use std::alloc::AllocError;

/// A place or a number of items as a number that a field holds. A greater one is refused.
pub fn field_number(place: usize) -> Result<u32, NoMemory>
    ensures { IfOk result (λ k. (k ≡ place) × (k < 2 ^ 32 - 1)) }
{
    if place < u32::MAX as usize {
        Ok(place as u32)
    } else {
        Err(AllocError)
    }
}

/// A place as a number that a field holds. A greater one is refused.
pub fn place_number(place: u64) -> Result<u32, NoMemory>
    ensures { IfOk result (λ k. (k ≡ place) × (k < 2 ^ 32 - 1)) }
{
    if place < u32::MAX as u64 {
        Ok(place as u32)
    } else {
        Err(AllocError)
    }
}

/// The place of the instruction that will be appended next. It is refused where it has more than 32 bits.
pub fn next_place(code: &Code) -> Result<u32, NoMemory>
    ensures { IfOk result (λ k. IsNextPlace code.now k) }
{
    field_number(code.instructions.items().len())
}

/// Appends a filler for a jump whose goal is not known yet, and answers its place.
pub fn leave_hole(code: &mut Code) -> Result<u32, NoMemory>
    ensures { IfOk result (λ k. LeavesHole code.old code.new k) }
{
    let hole = next_place(code)?;
    emit(code, op::JUMP, 0, 0)?;
    Ok(hole)
}

/// Puts a jump to the next place where the filler is.
pub fn land(code: &mut Code, hole: u32, jump: u8, line: Line) -> Result<(), NoMemory>
    requires { hole < length code.old.instructions }
    ensures { OnOk result (code.new ≡ landed code.old hole jump line) }
{
    let goal = next_place(code)?;
    let instr = Instr {
        op: jump,
        a: goal as i64,
        b: 0,
        line,
    };
    code.instructions.set(hole, instr);
    Ok(())
}
