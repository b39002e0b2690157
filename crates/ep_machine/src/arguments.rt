//! The rows on the arguments of a call.

ghost use Rattle.std.specs.Prelude.{◌∷◌, pos};
ghost use Rattle.ep_object.specs.Calls.{peek_row};
ghost use Rattle.ep_object.specs.Effects.{Continues};
ghost use Rattle.ep_frames.specs.Calls.{operand_of};
ghost use Rattle.ep_rows.specs.Steps.{IsStep};

use ep_frames::{Argument, Calls, Stack};
use ep_rows::{Step, words};

/// A copy of an argument of the call, which is a word.
#[tactic(auto, using(crate::proofs::CallRows::peeked))]
pub fn peek(number: usize, calls: &Calls, stack: &mut Stack) -> Step
    ensures { IsStep (peek_row calls.now (pos number) stack.old) result stack.new }
{
    match calls.word(number) {
        Some(w) => words::push_word(stack, w),
        None => Step::Broken,
    }
}

/// One more operand, which was an argument.
pub fn push(argument: &Argument, stack: &mut Stack) -> Step
    ensures { IsStep (Continues (operand_of argument.now ∷ stack.old)) result stack.new }
{
    let done = match argument {
        Argument::Word(w) => stack.push_word(*w),
        Argument::Place(place) => stack.push_place(*place),
        Argument::Text(bytes) => stack.push_text(bytes.items()),
        Argument::Value(type_number, words) => stack.push_value(*type_number, words),
        Argument::Set(set) => stack.push_set(*set),
    };
    if done { Step::Next } else { Step::NoMemory }
}
