//! The rows on variables that pointers identify, each by the number of its segment.

ghost use Rattle.std.specs.Prelude.{◌≡◌, ◌<◌};
ghost use Rattle.ep_object.specs.Pointers.{new_row, dispose_row, deref_row};
ghost use Rattle.ep_rows.specs.Steps.{IsStep, IsDone};
ghost use Rattle.ep_rows.specs.Parts.{storage};

use crate::control::spend;
use crate::places::{allocate, has_room, index, push_place, size_begun};
use crate::segments;
use crate::step::Step;
use ep_frames::Stack;
use ep_memory::{Memory, UNDEFINED};
use ep_object::{Place, TypeEntry};
use ep_values::run_error;

/// A new variable of the type on top, in the place of which comes its number.
pub fn new(
    limit: u64,
    ticks: &mut u64,
    types: &[TypeEntry],
    memory: &mut Memory,
    stack: &mut Stack,
) -> Step
    requires { ticks.old < limit }
    ensures within { ticks.new < limit }
    ensures done { IsDone limit (new_row types.now (storage stack.old memory.old))
        result ticks.old ticks.new (storage stack.old memory.old) (storage stack.new memory.new) }
{
    let Some(t) = stack.word_top() else {
        return Step::Broken;
    };
    let Some(type_number) = index(types.len(), t) else {
        return Step::Broken;
    };
    let entry = &types[type_number];
    let size = size_begun(entry);
    if !has_room(memory, size + 1) {
        return Step::Error(run_error::STORAGE_LIMIT);
    }
    if !spend(limit, ticks, size) {
        return Step::Full;
    }
    let Some(place) = allocate(type_number, entry, memory) else {
        return Step::NoMemory;
    };
    let Ok(number) = i64::try_from(place.segment) else {
        return Step::NoMemory;
    };
    stack.replace_word(number);
    Step::Next
}

/// The variable ends that the word on top numbers.
pub fn dispose(memory: &mut Memory, stack: &mut Stack) -> Step
    ensures { IsStep (dispose_row (storage stack.old memory.old)) result
        (storage stack.new memory.new) }
{
    let Some(w) = stack.pop_word() else {
        return Step::Broken;
    };
    if w == UNDEFINED {
        return Step::Error(run_error::UNDEFINED_VALUE);
    }
    if w == 0 {
        return Step::Error(run_error::NIL);
    }
    let Ok(number) = u64::try_from(w) else {
        return Step::Broken;
    };
    if memory.type_of(number).is_none() {
        return segments::gone(number, memory);
    }
    memory.release(number);
    Step::Next
}

/// The place of the variable that the word on top numbers.
pub fn deref(memory: &Memory, stack: &mut Stack) -> Step
    ensures { IsStep (deref_row memory.now.segments stack.old) result stack.new }
{
    let Some(w) = stack.pop_word() else {
        return Step::Broken;
    };
    if w == UNDEFINED {
        return Step::Error(run_error::UNDEFINED_VALUE);
    }
    if w == 0 {
        return Step::Error(run_error::NIL);
    }
    let Ok(number) = u64::try_from(w) else {
        return Step::Broken;
    };
    let Some(type_number) = memory.type_of(number) else {
        return segments::gone(number, memory);
    };
    let place = Place {
        segment: number,
        offset: 0,
        type_number,
    };
    push_place(stack, Some(place))
}
