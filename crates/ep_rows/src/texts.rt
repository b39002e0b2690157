//! The rows on texts.

ghost use Rattle.std.specs.Prelude.{◌≡◌, ℕ, ◌<◌, ◌≤◌, ◌+◌, ◌*◌, ◌^◌, ◌++◌, ◌∷◌, suc, length, leb, slice_get, if◌then◌else◌, Option, Some, None, MatchOption, MatchBool, IfOk, List, pos, replicate, take};
ghost use Rattle.std.specs.Fmt.{signed_decimal};
ghost use Rattle.ep_object.specs.Effects.{Continues};
ghost use Rattle.ep_object.specs.Control.{dup_row};
ghost use Rattle.ep_object.specs.Texts.{text_row, chars_row, form_row, form_width_row, formed as formed_of, cut, padded, boolean_text as text_of_boolean};
ghost use Rattle.ep_object.specs.Operands.{Text, Word, set};
ghost use Rattle.ep_decode.specs.Operations.{print_number};
ghost use Rattle.ep_frames.specs.Stacks.{place_top, value_top, word_top};
ghost use Rattle.ep_rows.specs.Printing.{printed_top};
ghost use Rattle.ep_rows.specs.Steps.{IsDone, IsStep, IsRestored};

use crate::control::{spend, top_weight};
use crate::step::Step;
use crate::{places, sets, values, words};
use ep_base::{Bytes, List};
use ep_decode::Print;
use ep_frames::Stack;
use ep_values::run_error;
use itoa::Buffer;
use std::alloc::{AllocError, Global};

/// One more text.
fn push_text(stack: &mut Stack, text: &[u8]) -> Step
    ensures { IsStep (Continues (Text text.now ∷ stack.old)) result stack.new }
{
    if stack.push_text(text) {
        Step::Next
    } else {
        Step::NoMemory
    }
}

/// A text of the image.
pub fn text(number: usize, texts: &[Bytes], limit: u64, ticks: &mut u64, stack: &mut Stack) -> Step
    requires { ticks.old < limit }
    ensures within { ticks.new < limit }
    ensures done { IsDone limit (text_row texts.now (pos number) stack.old) result ticks.old
        ticks.new stack.old stack.new }
{
    let Some(bytes) = texts.get(number) else {
        return Step::Broken;
    };
    let bytes = bytes.items();
    if !spend(limit, ticks, bytes.len() as u64) {
        return Step::Full;
    }
    push_text(stack, bytes)
}

/// The text of a char.
pub fn chars(limit: u64, ticks: &mut u64, stack: &mut Stack) -> Step
    requires { ticks.old < limit }
    ensures within { ticks.new < limit }
    ensures done { IsDone limit (chars_row stack.old) result ticks.old ticks.new stack.old stack.new }
{
    let Some(w) = stack.word_top() else {
        return Step::Broken;
    };
    let Some(c) = words::index(256, w) else {
        return Step::Broken;
    };
    if !spend(limit, ticks, 1) {
        return Step::Full;
    }
    stack.pop();
    push_text(stack, &[c as u8])
}

/// The text on top stands there twice.
fn dup_text(alloc: Global, limit: u64, ticks: &mut u64, stack: &mut Stack) -> Step
    requires room { ticks.old < limit }
    requires no_value { value_top stack.old ≡ None }
    requires no_word { word_top stack.old ≡ None }
    requires no_place { place_top stack.old ≡ None }
    requires no_set { set stack.old ≡ None }
    ensures within { ticks.new < limit }
    ensures done { IsDone limit (dup_row stack.old) result ticks.old ticks.new stack.old stack.new }
{
    let Some(bytes) = stack.text_top() else {
        return Step::Broken;
    };
    let Some(weight) = (bytes.len() as u64).checked_mul(3) else {
        return Step::Full;
    };
    let Ok(copy) = Vec::from_slice(alloc, bytes) else {
        return Step::NoMemory;
    };
    if !spend(limit, ticks, weight) {
        return Step::Full;
    }
    push_text(stack, &copy)
}

/// The operand on top stands there twice.
pub fn dup(alloc: Global, limit: u64, ticks: &mut u64, stack: &mut Stack) -> Step
    requires { ticks.old < limit }
    ensures within { ticks.new < limit }
    ensures done { IsDone limit (dup_row stack.old) result ticks.old ticks.new stack.old stack.new }
{
    if let Some(w) = stack.word_top() {
        return words::push_word(stack, w);
    }
    if let Some(p) = stack.place_top() {
        return places::push_place(stack, Some(p));
    }
    if let Some((type_number, words)) = stack.value_top() {
        let Ok(copy) = Vec::from_slice(alloc, words) else {
            return Step::NoMemory;
        };
        return values::dup(type_number, &copy, limit, ticks, stack);
    }
    if let Some(set) = stack.pop_set() {
        return sets::push_twice(set, stack);
    }
    dup_text(alloc, limit, ticks, stack)
}

/// The text of a Boolean.
fn boolean_text(w: i64) -> &'static [u8]
    ensures { result.now ≡ text_of_boolean w }
{
    if w == 0 { b"False" } else { b"True" }
}

/// The text of an integer.
fn integer_text(alloc: Global, w: i64) -> Result<Bytes, AllocError>
    ensures { IfOk result (λ b. b ≡ signed_decimal w) }
{
    let mut buffer = Buffer::new();
    let text = buffer.format(w);
    List::from_slice(alloc, text.as_bytes())
}

/// What is printed of the operand on top.
fn printed(alloc: Global, print: Print, stack: &Stack) -> Result<Option<Bytes>, AllocError>
    ensures { IfOk result (λ o. o ≡ printed_top (print_number print) stack.now) }
{
    match print {
        Print::Integer => match stack.word_top() {
            Some(w) => Ok(Some(integer_text(alloc, w)?)),
            None => Ok(None),
        },
        Print::Boolean => match stack.word_top() {
            Some(w) => {
                if words::is_boolean(w) {
                    Ok(Some(List::from_slice(alloc, boolean_text(w))?))
                } else {
                    Ok(None)
                }
            }
            None => Ok(None),
        },
        Print::Text => match stack.text_top() {
            Some(bytes) => Ok(Some(List::from_slice(alloc, bytes)?)),
            None => Ok(None),
        },
    }
}

/// Whether what is printed is cut where it is wider than its places: all but integers is.
fn is_cut(print: Print) -> bool
    ensures { MatchBool result ((width : ℕ) (bytes : List ℕ) → cut (print_number print) width bytes
        ≡ take width bytes)
        ((width : ℕ) (bytes : List ℕ) → cut (print_number print) width bytes ≡ bytes) }
{
    match print {
        Print::Integer => false,
        Print::Boolean => true,
        Print::Text => true,
    }
}

/// What is printed in so many places.
fn formed(alloc: Global, print: Print, width: u64, bytes: &[u8]) -> Result<Vec<u8>, AllocError>
    ensures { IfOk result (λ v. v.items ≡ formed_of (print_number print) width bytes.now) }
{
    let wide = width as usize;
    let shown = if is_cut(print) && wide < bytes.len() {
        &bytes[..wide]
    } else {
        bytes
    };
    let mut text = Vec::new(alloc);
    if shown.len() < wide {
        text.resize(wide - shown.len(), b' ')?;
    }
    text.extend_from_slice(shown)?;
    Ok(text)
}

/// How many bytes are printed in so many places.
fn formed_size(print: Print, width: u64, bytes: &[u8]) -> u64
    ensures { result ≡ length (formed_of (print_number print) width bytes.now) }
{
    let size = bytes.len() as u64;
    if is_cut(print) || size <= width {
        width
    } else {
        size
    }
}

/// The operand on top as a text.
pub fn form(print: Print, alloc: Global, limit: u64, ticks: &mut u64, stack: &mut Stack) -> Step
    requires { ticks.old < limit }
    ensures within { ticks.new < limit }
    ensures done { IsDone limit (form_row (print_number print) stack.old) result ticks.old ticks.new
        stack.old stack.new }
{
    let Ok(bytes) = printed(alloc, print, stack) else {
        return Step::NoMemory;
    };
    let Some(bytes) = bytes else {
        return Step::Broken;
    };
    let bytes = bytes.items();
    if !spend(limit, ticks, top_weight(stack) + bytes.len() as u64) {
        return Step::Full;
    }
    stack.pop();
    push_text(stack, bytes)
}

/// The width is put back, where the limit has no room.
fn restored(stack: &mut Stack, width: i64) -> Step
    ensures { IsRestored result (Word width ∷ stack.old) stack.new }
{
    if stack.push_word(width) {
        Step::Full
    } else {
        Step::NoMemory
    }
}

/// The operand below the top as a text, in so many places as the top says.
pub fn form_wide(
    print: Print,
    alloc: Global,
    limit: u64,
    ticks: &mut u64,
    stack: &mut Stack,
) -> Step
    requires { ticks.old < limit }
    ensures within { ticks.new < limit }
    ensures done { IsDone limit (form_width_row (print_number print) stack.old) result ticks.old
        ticks.new stack.old stack.new }
{
    let Some(width) = stack.pop_word() else {
        return Step::Broken;
    };
    let Ok(bytes) = printed(alloc, print, stack) else {
        return Step::NoMemory;
    };
    let Some(bytes) = bytes else {
        return Step::Broken;
    };
    let bytes = bytes.items();
    let popped = top_weight(stack);
    if width < 0 {
        if spend(limit, ticks, popped) {
            return Step::Error(run_error::NEGATIVE_WIDTH);
        }
        return restored(stack, width);
    }
    if !spend(
        limit,
        ticks,
        popped + formed_size(print, width as u64, bytes),
    ) {
        return restored(stack, width);
    }
    let Ok(text) = formed(alloc, print, width as u64, bytes) else {
        return Step::NoMemory;
    };
    stack.pop();
    push_text(stack, &text)
}
