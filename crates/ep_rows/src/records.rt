//! The row that makes record types.

ghost use Rattle.std.specs.Prelude.{◌≡◌, ◌<◌, ◌≤◌, ◌++◌, [], Some, None, MatchOption, IfOk, OnOk, pos, replicate};
ghost use Rattle.ep_object.specs.State.{size_limit, undefined, words_begun};
ghost use Rattle.ep_object.specs.Types.{entry_of as type_of, lowest_first, rec_row};
ghost use Rattle.ep_rows.specs.Parts.{typing};
ghost use Rattle.ep_rows.specs.Records.{bare_of_all, bare_parts_of_all, has_bare, has_start, one_passes, passes, start_of_all, starts_of_all, whole_of, words_of_all, parts_of_all, IsPutBack};
ghost use Rattle.ep_rows.specs.Steps.{IsDone};

use crate::control::spend;
use crate::step::Step;
use crate::type_table::TypeTable;
use crate::types::{bare_number, entry_of, intern_over, plain};
use ep_base::{List, NoMemory};
use ep_frames::Stack;
use ep_memory::{Memory, UNDEFINED};
use ep_object::{RecordPart, RecordParts, TypeEntry, TypeKind, Words, limit};
use ep_values::run_error;
use std::alloc::{AllocError, Global};

/// Takes so many words off, the lowest one first, where there are so many.
#[tactic(auto, using(crate::proofs::RecordTypes::more_taken, crate::proofs::RecordTypes::no_more))]
fn take_words(alloc: Global, count: usize, stack: &mut Stack) -> Result<Option<Vec<i64>>, NoMemory>
    ensures { IfOk result (λ o. MatchOption o (lowest_first count [] stack.old ≡ None)
        (λ words. lowest_first count [] stack.old ≡ Some (words.items, stack.new))) }
{
    let mut words = Vec::new(alloc);
    for _ in 0..count {
        let Some(w) = stack.pop_word() else {
            return Ok(None);
        };
        words.push(w)?;
    }
    words.reverse();
    Ok(Some(words))
}

/// The words are put back, the last one on top, since the limit has no room.
#[tactic(auto, using(crate::proofs::RecordTypes::more_pushed))]
fn put_back(words: &[i64], stack: &mut Stack) -> Step
    ensures { IsPutBack result words.now stack.old stack.new }
{
    for w in words {
        if !stack.push_word(*w) {
            return Step::NoMemory;
        }
    }
    Step::Full
}

/// How many words components of the types with these numbers have in all, where each is the number of a type.
fn words_of_all(types: &[TypeEntry], numbers: &[i64]) -> Option<u128>
    ensures { result ≡ words_of_all types.now numbers.now }
{
    let mut words = 0;
    for number in numbers {
        let Some((_, entry)) = entry_of(types, *number) else {
            return None;
        };
        words += entry.size as u128;
    }
    Some(words)
}

/// Components of the types with these numbers, one behind the other.
fn parts_of_all(
    alloc: Global,
    types: &[TypeEntry],
    numbers: &[i64],
) -> Result<RecordParts, NoMemory>
    requires { MatchOption (words_of_all types.now numbers.now) ⊥ (λ words. words ≤ size_limit) }
    ensures { IfOk result (λ parts. parts_of_all types.now numbers.now ≡ Some parts) }
{
    let mut parts = List::with_room(alloc, numbers.len())?;
    let mut offset = 0;
    for number in numbers {
        let Some((type_number, entry)) = entry_of(types, *number) else {
            unreachable!()
        };
        let Ok(type_number) = u32::try_from(type_number) else {
            return Err(AllocError);
        };
        parts.push(RecordPart {
            type_number,
            offset,
        })?;
        offset += entry.size;
    }
    Ok(parts)
}

/// The same with the bare forms of the types.
fn bare_parts(alloc: Global, types: &[TypeEntry], numbers: &[i64]) -> Result<RecordParts, NoMemory>
    requires { MatchOption (words_of_all types.now numbers.now) ⊥ (λ words. words ≤ size_limit) }
    ensures { IfOk result (λ parts. bare_parts_of_all types.now numbers.now ≡ Some parts) }
{
    let mut parts = List::with_room(alloc, numbers.len())?;
    let mut offset = 0;
    for number in numbers {
        let Some((type_number, entry)) = entry_of(types, *number) else {
            unreachable!()
        };
        let Ok(type_number) = u32::try_from(type_number) else {
            return Err(AllocError);
        };
        parts.push(RecordPart {
            type_number: bare_number(type_number, entry.bare),
            offset,
        })?;
        offset += entry.size;
    }
    Ok(parts)
}

/// Whether the type of a number has another bare form.
fn has_bare(types: &[TypeEntry], number: i64) -> bool
    ensures { result ≡ passes has_bare (type_of types.now number) }
{
    match entry_of(types, number) {
        Some((_, entry)) => entry.bare.is_some(),
        None => false,
    }
}

/// Whether one of the types with these numbers has.
fn any_bare(types: &[TypeEntry], numbers: &[i64]) -> bool
    ensures { result ≡ one_passes has_bare types.now numbers.now }
{
    for number in numbers {
        if has_bare(types, *number) {
            return true;
        }
    }
    false
}

/// Whether the type of a number begins with words.
fn has_start(types: &[TypeEntry], number: i64) -> bool
    ensures { result ≡ passes has_start (type_of types.now number) }
{
    match entry_of(types, number) {
        Some((_, entry)) => entry.start.is_some(),
        None => false,
    }
}

/// Whether one of the types with these numbers does.
fn any_start(types: &[TypeEntry], numbers: &[i64]) -> bool
    ensures { result ≡ one_passes has_start types.now numbers.now }
{
    for number in numbers {
        if has_start(types, *number) {
            return true;
        }
    }
    false
}

/// Appends so many undefined words.
fn append_undefined(count: u32, words: &mut Vec<i64>) -> Result<(), NoMemory>
    ensures { OnOk result (words.new.items ≡ words.old.items ++ replicate count undefined) }
{
    for _ in 0..count {
        words.push(UNDEFINED)?;
    }
    Ok(())
}

/// Appends the words that a variable of a type begins with.
fn append_begun(entry: &TypeEntry, words: &mut Vec<i64>) -> Result<(), NoMemory>
    ensures { OnOk result (words.new.items
        ≡ words.old.items ++ words_begun entry.now.size entry.now.start) }
{
    match &entry.start {
        Some(begun) => words.extend_from_slice(begun.items()),
        None => append_undefined(entry.size, words),
    }
}

/// What variables of the types with these numbers begin with, one behind the other.
fn starts_of_all(alloc: Global, types: &[TypeEntry], numbers: &[i64]) -> Result<Words, NoMemory>
    requires { MatchOption (words_of_all types.now numbers.now) ⊥ (λ words. words ≤ size_limit) }
    ensures { IfOk result (λ words. starts_of_all types.now numbers.now ≡ Some words) }
{
    let mut words = Vec::new(alloc);
    for number in numbers {
        let Some((_, entry)) = entry_of(types, *number) else {
            unreachable!()
        };
        append_begun(entry, &mut words)?;
    }
    Ok(List::from_vec(words))
}

/// The words that a record of them begins with, where one of them begins with words.
fn record_start(
    alloc: Global,
    types: &[TypeEntry],
    numbers: &[i64],
) -> Result<Option<Words>, NoMemory>
    requires { MatchOption (words_of_all types.now numbers.now) ⊥ (λ words. words ≤ size_limit) }
    ensures { IfOk result (λ start. start_of_all types.now numbers.now ≡ Some start) }
{
    if any_start(types, numbers) {
        Ok(Some(starts_of_all(alloc, types, numbers)?))
    } else {
        Ok(None)
    }
}

/// The record of components of the types with these numbers, which has so many words. Its bare form is left open.
fn record_whole(
    alloc: Global,
    types: &[TypeEntry],
    numbers: &[i64],
    size: u32,
) -> Result<TypeEntry, NoMemory>
    requires { MatchOption (words_of_all types.now numbers.now) ⊥ (λ words. words ≤ size_limit) }
    ensures { IfOk result (λ e. whole_of types.now numbers.now size ≡ Some e) }
{
    let parts = parts_of_all(alloc, types, numbers)?;
    let start = record_start(alloc, types, numbers)?;
    Ok(TypeEntry {
        kind: TypeKind::Record(parts),
        size,
        start,
        bare: None,
    })
}

/// Its bare form, where it has another one.
fn record_bare(
    alloc: Global,
    types: &[TypeEntry],
    numbers: &[i64],
    size: u32,
) -> Result<Option<TypeEntry>, NoMemory>
    requires { MatchOption (words_of_all types.now numbers.now) ⊥ (λ words. words ≤ size_limit) }
    ensures { IfOk result (λ e. bare_of_all types.now numbers.now size ≡ Some e) }
{
    if !any_bare(types, numbers) {
        return Ok(None);
    }
    let parts = bare_parts(alloc, types, numbers)?;
    Ok(Some(plain(TypeKind::Record(parts), size)))
}

/// The record type with components of so many types, which stand on top, the lowest one first.
pub fn rec(
    count: usize,
    alloc: Global,
    limit: u64,
    ticks: &mut u64,
    types: &mut TypeTable,
    memory: &mut Memory,
    stack: &mut Stack,
) -> Step
    requires { ticks.old < limit }
    ensures within { ticks.new < limit }
    ensures done { IsDone limit (rec_row (pos count) (typing stack.old types.old memory.old))
        result ticks.old ticks.new (typing stack.old types.old memory.old)
        (typing stack.new types.new memory.new) }
    ensures segments { memory.new.segments ≡ memory.old.segments }
{
    let Ok(taken) = take_words(alloc, count, stack) else {
        return Step::NoMemory;
    };
    let Some(numbers) = taken else {
        return Step::Broken;
    };
    let Some(words) = words_of_all(types.entries(), &numbers) else {
        return Step::Broken;
    };
    if !spend(limit, ticks, count as u64) {
        return put_back(&numbers, stack);
    }
    if words > limit::TYPE_WORDS as u128 {
        return Step::Error(run_error::STORAGE_LIMIT);
    }
    let size = words as u32;
    let Ok(bare) = record_bare(alloc, types.entries(), &numbers, size) else {
        return Step::NoMemory;
    };
    let Ok(whole) = record_whole(alloc, types.entries(), &numbers, size) else {
        return Step::NoMemory;
    };
    intern_over(bare, whole, types, memory, stack)
}
