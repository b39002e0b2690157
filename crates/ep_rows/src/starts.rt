//! The row that gives a type an initial state (ISO 10206, 6.6).

ghost use Rattle.std.specs.Prelude.{◌≡◌, ◌<◌, ◌∷◌, Some, None, IfOk, if◌then◌else◌};
ghost use Rattle.ep_frames.specs.Stacks.{word_under_value};
ghost use Rattle.ep_object.specs.Operands.{Word};
ghost use Rattle.ep_object.specs.Effects.{Fails, weighing};
ghost use Rattle.ep_object.specs.Types.{Typing, init_row, initial_entry};
ghost use Rattle.ep_rows.specs.Parts.{typing};
ghost use Rattle.ep_rows.specs.Starts.{IsGiven, AreWords, AreWordsFor, given_of};
ghost use Rattle.ep_rows.specs.Steps.{IsDone, IsRestored};
ghost use Rattle.ep_values.specs.declared.run_error.TheConstants as run_error;

use crate::control::spend;
use crate::step::Step;
use crate::type_table::TypeTable;
use crate::types::{bare_number, entry_of, intern};
use crate::values::is_structured;
use crate::{members, words};
use ep_base::{List, NoMemory};
use ep_frames::{Members, Stack};
use ep_memory::Memory;
use ep_object::{TypeEntry, TypeKind, Words};
use ep_values::run_error;
use std::alloc::Global;

/// An initial state that stands on top, but for the value of an array or a record.
#[derive(Clone, Copy, Drop)]
pub(crate) enum Given {
    /// A simple value.
    Word(i64),
    /// A set.
    Set(Members),
}

/// Takes an initial state off, and the number of a type below it.
fn take(stack: &mut Stack) -> Option<(Given, i64)>
    requires { word_under_value stack.old ≡ None }
    ensures { IsGiven result stack.old stack.new }
{
    if let Some(set) = stack.pop_set() {
        let number = stack.pop_word()?;
        return Some((Given::Set(set), number));
    }
    let (number, w) = words::pop_two_words(stack)?;
    Some((Given::Word(w), number))
}

/// One more initial state, if there is memory.
fn push(given: Given, stack: &mut Stack) -> bool
    ensures { stack.new ≡ (if result then given_of given ∷ stack.old else stack.old) }
{
    match given {
        Given::Word(w) => stack.push_word(w),
        Given::Set(set) => stack.push_set(set),
    }
}

/// Puts them back, since the limit has no room.
fn put_back(given: Given, number: i64, stack: &mut Stack) -> Step
    ensures { IsRestored result (given_of given ∷ Word number ∷ stack.old) stack.new }
{
    if stack.push_word(number) && push(given, stack) {
        Step::Full
    } else {
        Step::NoMemory
    }
}

/// Words as a list.
fn listed(alloc: Global, words: &[i64]) -> Result<Words, Step>
    ensures { AreWords words.now result }
{
    match List::from_slice(alloc, words) {
        Ok(words) => Ok(words),
        Err(_) => Err(Step::NoMemory),
    }
}

/// The words with which a variable of the kind begins.
fn words_for(alloc: Global, kind: &TypeKind, given: Given) -> Result<Words, Step>
    ensures { AreWordsFor kind.now (given_of given) result }
{
    match (kind, given) {
        (TypeKind::Ord(lo, hi), Given::Word(w)) => {
            if w < *lo || *hi < w {
                return Err(Step::Error(run_error::OUTSIDE_TYPE));
            }
            listed(alloc, &[w])
        }
        (TypeKind::Pointer, Given::Word(w)) => listed(alloc, &[w]),
        (TypeKind::Set(lo, hi), Given::Set(set)) => {
            if !members::is_between(*lo, *hi, set) {
                return Err(Step::Error(run_error::SET_MEMBER));
            }
            listed(alloc, &members::written(set))
        }
        _ => Err(Step::Broken),
    }
}

/// A kind once more, if there is memory.
fn copied(alloc: Global, kind: &TypeKind) -> Result<TypeKind, NoMemory>
    ensures { IfOk result (λ k. k ≡ kind.now) }
{
    match kind {
        TypeKind::Ord(lo, hi) => Ok(TypeKind::Ord(*lo, *hi)),
        TypeKind::Pointer => Ok(TypeKind::Pointer),
        TypeKind::Text => Ok(TypeKind::Text),
        TypeKind::Array(lo, hi, component) => Ok(TypeKind::Array(*lo, *hi, *component)),
        TypeKind::Record(parts) => Ok(TypeKind::Record(List::from_slice(alloc, parts.items())?)),
        TypeKind::Set(lo, hi) => Ok(TypeKind::Set(*lo, *hi)),
    }
}

/// The type of a number with other words to begin with.
fn begun(alloc: Global, number: u32, entry: &TypeEntry, words: Words) -> Result<TypeEntry, NoMemory>
    ensures { IfOk result (λ e. e ≡ initial_entry number entry.now words) }
{
    let kind = copied(alloc, &entry.kind)?;
    Ok(TypeEntry {
        kind,
        size: entry.size,
        start: Some(words),
        bare: Some(bare_number(number, entry.bare)),
    })
}

/// The type with the initial state on top, where that is a word or a set.
fn init_by_given(
    alloc: Global,
    limit: u64,
    ticks: &mut u64,
    types: &mut TypeTable,
    memory: &mut Memory,
    stack: &mut Stack,
) -> Step
    requires room { ticks.old < limit }
    requires no_value { word_under_value stack.old ≡ None }
    ensures within { ticks.new < limit }
    ensures done { IsDone limit (init_row (typing stack.old types.old memory.old))
        result ticks.old ticks.new (typing stack.old types.old memory.old)
        (typing stack.new types.new memory.new) }
    ensures segments { memory.new.segments ≡ memory.old.segments }
{
    let Some((given, number)) = take(stack) else {
        return Step::Broken;
    };
    let Some((type_number, entry)) = entry_of(types.entries(), number) else {
        return Step::Broken;
    };
    let words = match words_for(alloc, &entry.kind, given) {
        Ok(words) => words,
        Err(step) => return step,
    };
    let Ok(type_number) = u32::try_from(type_number) else {
        return Step::NoMemory;
    };
    if !spend(limit, ticks, u64::from(entry.size)) {
        return put_back(given, number, stack);
    }
    let Ok(entry) = begun(alloc, type_number, entry, words) else {
        return Step::NoMemory;
    };
    intern(entry, types, memory, stack)
}

/// The value on top, of so many words, is of another type than the one that is to begin with it.
fn other_type(limit: u64, ticks: &mut u64, weight: u64) -> Step
    requires { ticks.old < limit }
    ensures within { ticks.new < limit }
    ensures done { (t : Typing) → IsDone limit (weighing weight (Fails run_error.TUPLES_DIFFER))
        result ticks.old ticks.new t t }
{
    if spend(limit, ticks, weight) {
        Step::Error(run_error::TUPLES_DIFFER)
    } else {
        Step::Full
    }
}

/// The type with the initial state on top, where that is the value of an array or a record over the number of the type.
fn init_by_value(
    number: i64,
    alloc: Global,
    limit: u64,
    ticks: &mut u64,
    types: &mut TypeTable,
    memory: &mut Memory,
    stack: &mut Stack,
) -> Step
    requires room { ticks.old < limit }
    requires there { word_under_value stack.old ≡ Some number }
    ensures within { ticks.new < limit }
    ensures done { IsDone limit (init_row (typing stack.old types.old memory.old))
        result ticks.old ticks.new (typing stack.old types.old memory.old)
        (typing stack.new types.new memory.new) }
    ensures segments { memory.new.segments ≡ memory.old.segments }
{
    let Some((own, words)) = stack.value_top() else {
        unreachable!()
    };
    let Some((type_number, entry)) = entry_of(types.entries(), number) else {
        return Step::Broken;
    };
    if !is_structured(&entry.kind) {
        return Step::Broken;
    }
    let Ok(type_number) = u32::try_from(type_number) else {
        return Step::NoMemory;
    };
    if own != bare_number(type_number, entry.bare) {
        return other_type(limit, ticks, words.len() as u64);
    }
    if !spend(limit, ticks, words.len() as u64 + u64::from(entry.size)) {
        return Step::Full;
    }
    let Ok(words) = List::from_slice(alloc, words) else {
        return Step::NoMemory;
    };
    let Ok(entry) = begun(alloc, type_number, entry, words) else {
        return Step::NoMemory;
    };
    stack.pop();
    stack.pop();
    intern(entry, types, memory, stack)
}

/// The type with the initial state on top.
pub fn init(
    alloc: Global,
    limit: u64,
    ticks: &mut u64,
    types: &mut TypeTable,
    memory: &mut Memory,
    stack: &mut Stack,
) -> Step
    requires { ticks.old < limit }
    ensures within { ticks.new < limit }
    ensures done { IsDone limit (init_row (typing stack.old types.old memory.old))
        result ticks.old ticks.new (typing stack.old types.old memory.old)
        (typing stack.new types.new memory.new) }
    ensures segments { memory.new.segments ≡ memory.old.segments }
{
    match stack.word_under_value() {
        Some(number) => init_by_value(number, alloc, limit, ticks, types, memory, stack),
        None => init_by_given(alloc, limit, ticks, types, memory, stack),
    }
}
