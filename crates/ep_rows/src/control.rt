//! What rows spend, and the rows that drop operands and that jump.

ghost use Rattle.std.specs.Prelude.{◌≡◌, ◌<◌, ◌≤◌, ◌+◌, ◌*◌, ◌^◌, suc, length, leb, if◌then◌else◌, Option, Some, None, MatchOption};
ghost use Rattle.ep_object.specs.Operands.{one};
ghost use Rattle.ep_object.specs.Control.{drop_row};
ghost use Rattle.ep_decode.specs.Operations.{jump_where_zero};
ghost use Rattle.ep_frames.specs.Stacks.{text_top, top_weight as weight_on_top};
ghost use Rattle.ep_rows.specs.Steps.{IsStep, IsDone};

use crate::step::Step;
use ep_frames::Stack;

/// Spends the weight, where the limit allows it and one tick more.
#[inline(always)]
pub fn spend(limit: u64, ticks: &mut u64, weight: u64) -> bool
    requires { ticks.old < limit }
    ensures fits { result ≡ leb (ticks.old + suc weight) limit }
    ensures spent { ticks.new ≡ (if result then ticks.old + weight else ticks.old) }
    ensures within { ticks.new < limit }
{
    if weight < limit - *ticks {
        *ticks += weight;
        true
    } else {
        false
    }
}

/// The weight of the operand on top.
pub fn top_weight(stack: &Stack) -> u64
    ensures weight { result ≡ weight_on_top stack.now }
    ensures small { result < 2 ^ 63 }
{
    if let Some((_, words)) = stack.value_top() {
        return words.len() as u64;
    }
    match stack.text_top() {
        Some(text) => text.len() as u64,
        None => 0,
    }
}

/// The top operand goes.
pub fn drop_top(limit: u64, ticks: &mut u64, stack: &mut Stack) -> Step
    requires { ticks.old < limit }
    ensures within { ticks.new < limit }
    ensures done { IsDone limit (drop_row stack.old) result ticks.old ticks.new stack.old stack.new }
{
    let weight = top_weight(stack);
    if !spend(limit, ticks, weight) {
        return Step::Full;
    }
    if stack.pop() {
        Step::Next
    } else {
        Step::Broken
    }
}

/// On to a place of the code where a word is 0.
#[inline(always)]
pub fn jump_false(target: u32, stack: &mut Stack) -> Step
    ensures { IsStep (jump_where_zero target stack.old) result stack.new }
{
    match stack.pop_word() {
        Some(0) => Step::Goto(target),
        Some(_) => Step::Next,
        None => Step::Broken,
    }
}
