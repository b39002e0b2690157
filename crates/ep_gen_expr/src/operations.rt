//! The instructions of operations, after the code of their operands.

ghost use Rattle.std.specs.Prelude.{[], ◌∷◌, IfOk, OnOk};
ghost use Rattle.ep_gen_code.specs.Instructions.{bare, push};
ghost use Rattle.ep_gen_expr.specs.ExprCode.{one_code, set_code, two_code, keep_code, count_code, step_code};
ghost use Rattle.ep_gen_code.specs.Growth.{Grows};
ghost use Rattle.ep_gen_expr.specs.Growth.{KeepsOperand};
ghost use Rattle.ep_object.specs.declared.op.TheConstants.{DROP, DUP};

use ep_base::NoMemory;
use ep_gen_code::{Code, emit, leave_hole};
use ep_object::op;
use ep_values::{Binary, SetOperation, ShortOperation, Unary, run_error};

/// How `Cmp` compares.
const EQUAL: i64 = 0;

const UNEQUAL: i64 = 1;

const LESS: i64 = 2;

const GREATER: i64 = 3;

const AT_MOST: i64 = 4;

const AT_LEAST: i64 = 5;

/// What `SetOp` makes of two sets.
const UNION: i64 = 0;

const DIFFERENCE: i64 = 1;

const INTERSECTION: i64 = 2;

const SYMMETRIC_DIFFERENCE: i64 = 3;

/// The ordinal number of the last char.
const LAST_CHAR: i64 = 255;

/// Appends what an operation does with its operand.
pub fn apply_unary(operation: Unary, code: &mut Code) -> Result<(), NoMemory>
    ensures { OnOk result (Grows code.old code.new (one_code code.old.line operation)) }
{
    match operation {
        Unary::Same => keep(code),
        Unary::Negate => emit(code, op::NEG, 0, 0),
        Unary::Not => emit(code, op::NOT, 0, 0),
        Unary::Absolute => emit(code, op::ABS, 0, 0),
        Unary::Square => emit(code, op::SQR, 0, 0),
        Unary::Odd => emit(code, op::ODD, 0, 0),
        Unary::Character => {
            push_pair(code, 0, LAST_CHAR)?;
            emit(code, op::CHECK, run_error::SUCCESSOR as i64, 0)
        }
    }
}

/// Appends what leaves a value as it is: each step of the meaning has a tick of its own, or a chain of such
/// operations would spend steps and no ticks.
fn keep(code: &mut Code) -> Result<(), NoMemory>
    ensures { OnOk result (Grows code.old code.new (bare code.old.line DUP ∷ bare code.old.line DROP ∷ [])) }
{
    emit(code, op::DUP, 0, 0)?;
    emit(code, op::DROP, 0, 0)
}

/// Appends two numbers.
fn push_pair(code: &mut Code, low: i64, high: i64) -> Result<(), NoMemory>
    ensures { OnOk result (Grows code.old code.new (push code.old.line low ∷ push code.old.line high ∷ [])) }
{
    emit(code, op::PUSH, low, 0)?;
    emit(code, op::PUSH, high, 0)
}

/// Appends what an operation does with its two operands.
pub fn apply_binary(operation: Binary, code: &mut Code) -> Result<(), NoMemory>
    ensures { OnOk result (Grows code.old code.new (two_code code.old.line operation ∷ [])) }
{
    match operation {
        Binary::Add => emit(code, op::ADD, 0, 0),
        Binary::Subtract => emit(code, op::SUB, 0, 0),
        Binary::Multiply => emit(code, op::MUL, 0, 0),
        Binary::Divide => emit(code, op::DIV, 0, 0),
        Binary::Modulo => emit(code, op::MOD, 0, 0),
        Binary::And => emit(code, op::AND, 0, 0),
        Binary::Or => emit(code, op::OR, 0, 0),
        Binary::Equal => emit(code, op::CMP, EQUAL, 0),
        Binary::Unequal => emit(code, op::CMP, UNEQUAL, 0),
        Binary::Less => emit(code, op::CMP, LESS, 0),
        Binary::Greater => emit(code, op::CMP, GREATER, 0),
        Binary::AtMost => emit(code, op::CMP, AT_MOST, 0),
        Binary::AtLeast => emit(code, op::CMP, AT_LEAST, 0),
    }
}

/// Appends what an operation does with its two operands, of which the right one at least is a set.
pub fn apply_on_sets(operation: SetOperation, code: &mut Code) -> Result<(), NoMemory>
    ensures { OnOk result (Grows code.old code.new (set_code code.old.line operation ∷ [])) }
{
    match operation {
        SetOperation::Union => emit(code, op::SET_OP, UNION, 0),
        SetOperation::Difference => emit(code, op::SET_OP, DIFFERENCE, 0),
        SetOperation::Intersection => emit(code, op::SET_OP, INTERSECTION, 0),
        SetOperation::SymmetricDifference => emit(code, op::SET_OP, SYMMETRIC_DIFFERENCE, 0),
        SetOperation::Equal => emit(code, op::SET_CMP, EQUAL, 0),
        SetOperation::Unequal => emit(code, op::SET_CMP, UNEQUAL, 0),
        SetOperation::Subset => emit(code, op::SET_CMP, AT_MOST, 0),
        SetOperation::Superset => emit(code, op::SET_CMP, AT_LEAST, 0),
        SetOperation::In => emit(code, op::IN, 0, 0),
    }
}

/// Appends what keeps a left operand where it decides, with a filler for the jump behind the right operand, and answers
/// the place of the filler.
pub fn keep_operand(operation: ShortOperation, code: &mut Code) -> Result<u32, NoMemory>
    ensures { IfOk result (λ k. KeepsOperand code.old code.new operation k) }
{
    twice(operation, code)?;
    let hole = leave_hole(code)?;
    emit(code, op::DROP, 0, 0)?;
    Ok(hole)
}

/// Appends what gives the left operand twice, the upper one so that it is true where it decides nothing.
fn twice(operation: ShortOperation, code: &mut Code) -> Result<(), NoMemory>
    ensures { OnOk result (Grows code.old code.new (keep_code code.old.line operation)) }
{
    emit(code, op::DUP, 0, 0)?;
    match operation {
        ShortOperation::AndThen => Ok(()),
        ShortOperation::OrElse => emit(code, op::NOT, 0, 0),
    }
}

/// Appends a step from a value by a count, which is taken away where `down` says so.
pub fn apply_step(down: bool, low: i64, high: i64, code: &mut Code) -> Result<(), NoMemory>
    ensures { OnOk result (Grows code.old code.new (step_code code.old.line down low high)) }
{
    negate_if(down, code)?;
    push_pair(code, low, high)?;
    emit(code, op::STEP, 0, 0)
}

/// Appends the negation of a count that is taken away.
fn negate_if(down: bool, code: &mut Code) -> Result<(), NoMemory>
    ensures { OnOk result (Grows code.old code.new (count_code code.old.line down)) }
{
    if down {
        emit(code, op::NEG, 0, 0)
    } else {
        Ok(())
    }
}
