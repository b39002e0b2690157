//! The rows on words.

ghost use Rattle.std.specs.Prelude.{◌≡◌, ◌<◌, ◌≤◌, Option, Some, None, MatchOption, cond, int_le};
ghost use Rattle.ep_object.specs.Effects.{Fails, is_zero, index};
ghost use Rattle.ep_object.specs.Operands.{word, two_words, three_words, four_words};
ghost use Rattle.ep_object.specs.WordRows.{bit as bit_of, compared, is_boolean, is_between, push_row, add_row, sub_row, mul_row, div_row, mod_row, neg_row, abs_row, sqr_row, odd_row, not_row, and_row, or_row, cmp_row, between_row, step_row, integer_row};
ghost use Rattle.ep_decode.specs.Operations.{comparison_number, check_with};
ghost use Rattle.ep_rows.specs.Steps.{IsStep};
ghost use Rattle.ep_values.specs.declared.run_error.TheConstants as run_error;

use crate::step::Step;
use ep_decode::Comparison;
use ep_frames::Stack;
use ep_memory::UNDEFINED;
use ep_values::run_error;

/// The number that a word is, of so many.
#[inline(always)]
pub fn index(size: u32, a: i64) -> Option<u32>
    ensures { result ≡ index size a }
{
    if a >= 0 && a < size as i64 {
        Some(a as u32)
    } else {
        None
    }
}

/// Two words, the lower one first.
#[inline(always)]
pub fn pop_two_words(stack: &mut Stack) -> Option<(i64, i64)>
    ensures { MatchOption result (two_words stack.old ≡ None)
        (λ p. two_words stack.old ≡ Some (p.0, p.1, stack.new)) }
{
    match stack.pop_word() {
        Some(y) => match stack.pop_word() {
            Some(x) => Some((x, y)),
            None => None,
        },
        None => None,
    }
}

#[inline(always)]
fn pop_three_words(stack: &mut Stack) -> Option<(i64, i64, i64)>
    ensures { MatchOption result (three_words stack.old ≡ None)
        (λ p. three_words stack.old ≡ Some (p.0, p.1, p.2, stack.new)) }
{
    match stack.pop_word() {
        Some(z) => match pop_two_words(stack) {
            Some((x, y)) => Some((x, y, z)),
            None => None,
        },
        None => None,
    }
}

#[inline(always)]
fn pop_four_words(stack: &mut Stack) -> Option<(i64, i64, i64, i64)>
    ensures { MatchOption result (four_words stack.old ≡ None)
        (λ p. four_words stack.old ≡ Some (p.0, p.1, p.2, p.3, stack.new)) }
{
    match stack.pop_word() {
        Some(z) => match pop_three_words(stack) {
            Some((w, x, y)) => Some((w, x, y, z)),
            None => None,
        },
        None => None,
    }
}

/// One more word.
#[inline(always)]
pub fn push_word(stack: &mut Stack, w: i64) -> Step
    ensures { IsStep (push_row w stack.old) result stack.new }
{
    if stack.push_word(w) {
        Step::Next
    } else {
        Step::NoMemory
    }
}

/// One more word, or an overflow where it is no integer.
#[inline(always)]
fn push_integer(stack: &mut Stack, z: Option<i64>) -> Step
    ensures { MatchOption z (IsStep (Fails run_error.OVERFLOW) result stack.new)
        (λ w. IsStep (integer_row w stack.old) result stack.new) }
{
    match z {
        Some(w) => {
            if w > UNDEFINED {
                push_word(stack, w)
            } else {
                Step::Error(run_error::OVERFLOW)
            }
        }
        None => Step::Error(run_error::OVERFLOW),
    }
}

/// The sum of two words.
#[inline(always)]
pub fn add(stack: &mut Stack) -> Step
    ensures { IsStep (add_row stack.old) result stack.new }
{
    match pop_two_words(stack) {
        Some((x, y)) => push_integer(stack, x.checked_add(y)),
        None => Step::Broken,
    }
}

/// The difference of two words.
#[inline(always)]
pub fn sub(stack: &mut Stack) -> Step
    ensures { IsStep (sub_row stack.old) result stack.new }
{
    match pop_two_words(stack) {
        Some((x, y)) => push_integer(stack, x.checked_sub(y)),
        None => Step::Broken,
    }
}

/// The product of two words.
#[inline(always)]
pub fn mul(stack: &mut Stack) -> Step
    ensures { IsStep (mul_row stack.old) result stack.new }
{
    match pop_two_words(stack) {
        Some((x, y)) => push_integer(stack, x.checked_mul(y)),
        None => Step::Broken,
    }
}

/// The quotient of two words, cut toward zero.
#[inline(always)]
pub fn div(stack: &mut Stack) -> Step
    ensures { IsStep (div_row stack.old) result stack.new }
{
    match pop_two_words(stack) {
        Some((_, 0)) => Step::Error(run_error::DIVISOR),
        Some((x, y)) => push_integer(stack, x.checked_div(y)),
        None => Step::Broken,
    }
}

/// The remainder of two words, which is not negative.
#[inline(always)]
pub fn modulo(stack: &mut Stack) -> Step
    ensures { IsStep (mod_row stack.old) result stack.new }
{
    match pop_two_words(stack) {
        Some((x, y)) => {
            if y > 0 {
                push_word(stack, x.rem_euclid(y))
            } else {
                Step::Error(run_error::DIVISOR)
            }
        }
        None => Step::Broken,
    }
}

/// The negative of a word.
#[inline(always)]
pub fn neg(stack: &mut Stack) -> Step
    ensures { IsStep (neg_row stack.old) result stack.new }
{
    match stack.pop_word() {
        Some(x) => push_integer(stack, x.checked_neg()),
        None => Step::Broken,
    }
}

/// The absolute value of a word.
#[inline(always)]
pub fn abs(stack: &mut Stack) -> Step
    ensures { IsStep (abs_row stack.old) result stack.new }
{
    match stack.pop_word() {
        Some(x) => push_integer(stack, x.checked_abs()),
        None => Step::Broken,
    }
}

/// The square of a word.
#[inline(always)]
pub fn sqr(stack: &mut Stack) -> Step
    ensures { IsStep (sqr_row stack.old) result stack.new }
{
    match stack.pop_word() {
        Some(x) => push_integer(stack, x.checked_mul(x)),
        None => Step::Broken,
    }
}

/// Whether a word is odd.
#[inline(always)]
pub fn odd(stack: &mut Stack) -> Step
    ensures { IsStep (odd_row stack.old) result stack.new }
{
    match stack.pop_word() {
        Some(x) => push_word(stack, (x.unsigned_abs() % 2) as i64),
        None => Step::Broken,
    }
}

/// Whether a word is 0 or 1.
#[inline(always)]
pub fn is_boolean(w: i64) -> bool
    ensures { result ≡ is_boolean w }
{
    w == 0 || w == 1
}

#[inline(always)]
fn push_bit(stack: &mut Stack, bit: bool) -> Step
    ensures { IsStep (push_row (bit_of bit) stack.old) result stack.new }
{
    push_word(stack, if bit { 1 } else { 0 })
}

/// The other one of 0 and 1.
#[inline(always)]
pub fn not(stack: &mut Stack) -> Step
    ensures { IsStep (not_row stack.old) result stack.new }
{
    match stack.pop_word() {
        Some(0) => push_word(stack, 1),
        Some(1) => push_word(stack, 0),
        _ => Step::Broken,
    }
}

/// Whether both of two words of 0 and 1 are 1.
#[inline(always)]
pub fn and(stack: &mut Stack) -> Step
    ensures { IsStep (and_row stack.old) result stack.new }
{
    match pop_two_words(stack) {
        Some((x, y)) => {
            if is_boolean(x) && is_boolean(y) {
                push_bit(stack, x != 0 && y != 0)
            } else {
                Step::Broken
            }
        }
        None => Step::Broken,
    }
}

/// Whether one of two words of 0 and 1 is 1.
#[inline(always)]
pub fn or(stack: &mut Stack) -> Step
    ensures { IsStep (or_row stack.old) result stack.new }
{
    match pop_two_words(stack) {
        Some((x, y)) => {
            if is_boolean(x) && is_boolean(y) {
                push_bit(stack, x != 0 || y != 0)
            } else {
                Step::Broken
            }
        }
        None => Step::Broken,
    }
}

/// Whether two words compare so.
#[inline(always)]
pub fn compares(comparison: Comparison, x: i64, y: i64) -> bool
    ensures { Some result ≡ compared (comparison_number comparison) x y }
{
    match comparison {
        Comparison::Equal => x == y,
        Comparison::Unequal => x != y,
        Comparison::Less => x < y,
        Comparison::Greater => x > y,
        Comparison::LessOrEqual => x <= y,
        Comparison::GreaterOrEqual => x >= y,
    }
}

/// Whether two words compare so, as a word.
#[inline(always)]
pub fn compare(comparison: Comparison, stack: &mut Stack) -> Step
    ensures { IsStep (cmp_row (comparison_number comparison) stack.old) result stack.new }
{
    match pop_two_words(stack) {
        Some((x, y)) => push_bit(stack, compares(comparison, x, y)),
        None => Step::Broken,
    }
}

#[inline(always)]
fn is_between(x: i64, lo: i64, hi: i64) -> bool
    ensures { result ≡ is_between x lo hi }
{
    lo <= x && x <= hi
}

/// Whether a word lies from a second to a third.
#[inline(always)]
pub fn between(stack: &mut Stack) -> Step
    ensures { IsStep (between_row stack.old) result stack.new }
{
    match pop_three_words(stack) {
        Some((x, lo, hi)) => push_bit(stack, is_between(x, lo, hi)),
        None => Step::Broken,
    }
}

/// A word, or an error where it does not lie from a second to a third.
#[inline(always)]
pub fn check(error: u8, stack: &mut Stack) -> Step
    ensures { IsStep (check_with error stack.old) result stack.new }
{
    match pop_three_words(stack) {
        Some((x, lo, hi)) => {
            if is_between(x, lo, hi) {
                push_word(stack, x)
            } else {
                Step::Error(error)
            }
        }
        None => Step::Broken,
    }
}

/// The sum of two words, or an error where it does not lie from a third to a fourth.
#[inline(always)]
pub fn step(stack: &mut Stack) -> Step
    ensures { IsStep (step_row stack.old) result stack.new }
{
    match pop_four_words(stack) {
        Some((x, y, lo, hi)) => match x.checked_add(y) {
            Some(z) => {
                if is_between(z, lo, hi) {
                    push_word(stack, z)
                } else {
                    Step::Error(run_error::SUCCESSOR)
                }
            }
            None => Step::Error(run_error::SUCCESSOR),
        },
        None => Step::Broken,
    }
}
