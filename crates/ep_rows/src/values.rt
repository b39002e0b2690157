//! The rows on variables of any number of words.

ghost use Rattle.std.specs.Prelude.{◌≡◌, ◌<◌, ◌∷◌, List, Some, None, option_map, slice_get};
ghost use Rattle.ep_memory.specs.Stores.{live, segment_at};
ghost use Rattle.ep_frames.specs.Stacks.{value_top, word_top};
ghost use Rattle.ep_object.specs.Control.{dup_row};
ghost use Rattle.ep_object.specs.Effects.{Continues};
ghost use Rattle.ep_object.specs.Operands.{Operand, Place as PlaceOperand, Value, set};
ghost use Rattle.ep_object.specs.Places.{load_by, load_row, load_value, living, store_row, words_at};
ghost use Rattle.ep_object.specs.State.{bare_number as bare_of};
ghost use Rattle.ep_rows.specs.Segments.{gone_of, other_type_at};
ghost use Rattle.ep_rows.specs.Steps.{IsDone, IsStep};
ghost use Rattle.ep_rows.specs.Values.{has_many_words, words_stored_in};

use crate::control::spend;
use crate::places::{load_word, store_word};
use crate::step::Step;
use crate::types::bare_number;
use crate::{segments, sets};
use ep_frames::Stack;
use ep_memory::{Memory, Stored};
use ep_object::{Place, TypeEntry, TypeKind};
use ep_values::run_error;

/// Whether variables of the kind have any number of words.
pub(crate) fn is_structured(kind: &TypeKind) -> bool
    ensures { result ≡ has_many_words kind.now }
{
    match kind {
        TypeKind::Array(_, _, _) | TypeKind::Record(_) => true,
        TypeKind::Ord(_, _) | TypeKind::Pointer | TypeKind::Text | TypeKind::Set(_, _) => false,
    }
}

/// So many words from an offset on, where there are so many.
pub(crate) fn words_at(words: &[i64], offset: usize, size: usize) -> Option<&[i64]>
    ensures { option_map (λ w. w.now) result ≡ words_at words.now offset size }
{
    if offset > words.len() || size > words.len() - offset {
        return None;
    }
    Some(&words[offset..offset + size])
}

/// One more value, if there is memory.
fn push_value(type_number: u32, words: &[i64], stack: &mut Stack) -> Step
    ensures { IsStep (Continues (Value type_number words.now ∷ stack.old)) result stack.new }
{
    if stack.push_value(type_number, words) {
        Step::Next
    } else {
        Step::NoMemory
    }
}

/// The value on top, of which this is a copy, stands there twice.
pub(crate) fn dup(
    type_number: u32,
    words: &[i64],
    limit: u64,
    ticks: &mut u64,
    stack: &mut Stack,
) -> Step
    requires room { ticks.old < limit }
    requires there { value_top stack.old ≡ Some (type_number, words.now) }
    ensures within { ticks.new < limit }
    ensures done { IsDone limit (dup_row stack.old) result ticks.old ticks.new stack.old stack.new }
{
    let Some(weight) = (words.len() as u64).checked_mul(3) else {
        return Step::Full;
    };
    if !spend(limit, ticks, weight) {
        return Step::Full;
    }
    push_value(type_number, words, stack)
}

/// The value of a variable of a structured type, whose bare form has this number.
fn load_value(
    limit: u64,
    ticks: &mut u64,
    p: Place,
    size: u32,
    bare: u32,
    memory: &Memory,
    stack: &mut Stack,
) -> Step
    requires { ticks.old < limit }
    ensures within { ticks.new < limit }
    ensures done { (st : List Operand) → stack.old ≡ PlaceOperand p ∷ st
        → IsDone limit (load_value memory.now.segments p size bare st) result ticks.old ticks.new stack.old stack.new }
{
    let Some(words) = memory.words_of(p.segment) else {
        return segments::gone(p.segment, memory);
    };
    let Some(value) = words_at(words, p.offset as usize, size as usize) else {
        return Step::Broken;
    };
    if !spend(limit, ticks, value.len() as u64) {
        return Step::Full;
    }
    stack.pop();
    push_value(bare, value, stack)
}

/// The value of a variable of this type, whose place is on top.
fn load_typed(
    limit: u64,
    ticks: &mut u64,
    p: Place,
    entry: &TypeEntry,
    memory: &Memory,
    stack: &mut Stack,
) -> Step
    requires { ticks.old < limit }
    ensures within { ticks.new < limit }
    ensures done { (st : List Operand) → stack.old ≡ PlaceOperand p ∷ st
        → IsDone limit (load_by entry.now.kind entry.now.size (bare_of p.type_number entry.now.bare)
        memory.now.segments p st) result ticks.old ticks.new stack.old stack.new }
{
    match &entry.kind {
        TypeKind::Text => Step::Broken,
        TypeKind::Ord(_, _) | TypeKind::Pointer => {
            stack.pop();
            load_word(p, memory, stack)
        }
        TypeKind::Set(_, _) => {
            stack.pop();
            sets::load(p, memory, stack)
        }
        TypeKind::Array(_, _, _) | TypeKind::Record(_) => {
            let bare = bare_number(p.type_number, entry.bare);
            load_value(limit, ticks, p, entry.size, bare, memory, stack)
        }
    }
}

/// The value of a variable.
pub fn load(
    limit: u64,
    ticks: &mut u64,
    types: &[TypeEntry],
    memory: &Memory,
    stack: &mut Stack,
) -> Step
    requires { ticks.old < limit }
    ensures within { ticks.new < limit }
    ensures done { IsDone limit (load_row types.now memory.now.segments stack.old) result ticks.old ticks.new
        stack.old stack.new }
{
    let Some(p) = stack.place_top() else {
        return Step::Broken;
    };
    let Some(entry) = types.get(p.type_number as usize) else {
        return Step::Broken;
    };
    load_typed(limit, ticks, p, entry, memory, stack)
}

/// How the row ends where a value of another type is to take the place of a variable's.
#[cold]
fn other_type(p: Place, memory: &Memory) -> Step
    ensures { result ≡ other_type_at (segment_at memory.now p.segment)
        (gone_of (slice_get memory.now.segments p.segment)) }
{
    if memory.type_of(p.segment).is_none() {
        return segments::gone(p.segment, memory);
    }
    Step::Error(run_error::TUPLES_DIFFER)
}

/// The words of a value take the place of those of a variable, whose type has to have the same bare form.
fn put_value(p: Place, bare: u32, type_number: u32, words: &[i64], memory: &mut Memory) -> Step
    ensures done { (st : List Operand) → IsStep
        (living memory.old.segments p.segment
        (words_stored_in memory.old.segments p bare type_number words.now st))
        result (st, memory.new.segments) }
    ensures live { live memory.new ≡ live memory.old }
{
    if type_number != bare {
        return other_type(p, memory);
    }
    match memory.store_words(p.segment, u64::from(p.offset), words) {
        Stored::Done => Step::Next,
        Stored::Outside => Step::Broken,
        Stored::Gone => segments::gone(p.segment, memory),
    }
}

/// A variable of a structured type takes a value.
fn store_value(
    limit: u64,
    ticks: &mut u64,
    types: &[TypeEntry],
    memory: &mut Memory,
    stack: &mut Stack,
) -> Step
    requires room { ticks.old < limit }
    requires no_word { word_top stack.old ≡ None }
    requires no_set { set stack.old ≡ None }
    ensures within { ticks.new < limit }
    ensures done { IsDone limit (store_row types.now memory.old.segments stack.old) result ticks.old ticks.new
        (stack.old, memory.old.segments) (stack.new, memory.new.segments) }
    ensures live { live memory.new ≡ live memory.old }
{
    let Some(p) = stack.place_under_value() else {
        return Step::Broken;
    };
    let Some((type_number, words)) = stack.value_top() else {
        return Step::Broken;
    };
    let Some(entry) = types.get(p.type_number as usize) else {
        return Step::Broken;
    };
    if !is_structured(&entry.kind) {
        return Step::Broken;
    }
    if !spend(limit, ticks, words.len() as u64) {
        return Step::Full;
    }
    let bare = bare_number(p.type_number, entry.bare);
    let step = put_value(p, bare, type_number, words, memory);
    stack.pop();
    stack.pop();
    step
}

/// A variable takes a value.
#[tactic(auto, using(crate::proofs::WordRows::word_stores, crate::proofs::WordRows::set_stores))]
pub fn store(
    limit: u64,
    ticks: &mut u64,
    types: &[TypeEntry],
    memory: &mut Memory,
    stack: &mut Stack,
) -> Step
    requires { ticks.old < limit }
    ensures within { ticks.new < limit }
    ensures done { IsDone limit (store_row types.now memory.old.segments stack.old) result ticks.old ticks.new
        (stack.old, memory.old.segments) (stack.new, memory.new.segments) }
    ensures live { live memory.new ≡ live memory.old }
{
    if let Some(w) = stack.word_top() {
        stack.pop();
        return store_word(w, types, memory, stack);
    }
    if let Some(set) = stack.pop_set() {
        return sets::store(set, types, memory, stack);
    }
    store_value(limit, ticks, types, memory, stack)
}
