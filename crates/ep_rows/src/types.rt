//! The rows that make types. Equal types have one number.

ghost use Rattle.std.specs.Prelude.{◌≡◌, ◌<◌, ◌≤◌, ◌+◌, ◌*◌, ◌^◌, suc, length, Option, Some, None, MatchOption, IfOk, option_map};
ghost use Rattle.ep_object.specs.State.{bare_number as bare_of, plain as plain_of};
ghost use Rattle.ep_object.specs.Types.{array_entry, array_over, entry_number, words_in as words_begun, words_of_entry as words_of_type, words_of_kind as words_of, ord_row, ordinal_entry as ordinal, repeated, set_entry as set_type, set_row, interned, interned_over, entry_of as type_of, bounds_of as kind_bounds, arr_row};
ghost use Rattle.ep_rows.specs.Meeting.{IsMet, over};
ghost use Rattle.ep_values.specs.Bounds.{count_of};
ghost use Rattle.ep_rows.specs.Steps.{IsStep};
ghost use Rattle.ep_rows.specs.Parts.{typing};

use crate::step::Step;
use crate::type_table::TypeTable;
use crate::{bounds, places, sets, words};
use ep_base::{List, NoMemory};
use ep_frames::Stack;
use ep_memory::Memory;
use ep_object::{SET_WORDS, TypeEntry, TypeKind, Words, limit};
use ep_values::run_error;
use std::alloc::Global;

/// How many words a new type of this kind counts.
fn words_of_kind(kind: &TypeKind) -> u64
    ensures words { result ≡ words_of kind.now }
    ensures small { result < 2 ^ 62 }
{
    match kind {
        TypeKind::Ord(_, _) => 1,
        TypeKind::Pointer => 1,
        TypeKind::Text => 1,
        TypeKind::Set(_, _) => 1,
        TypeKind::Array(_, _, _) => 2,
        TypeKind::Record(parts) => parts.items().len() as u64 + 1,
    }
}

/// How many words an initial state has.
fn words_in(start: &Option<Words>) -> u64
    ensures words { result ≡ words_begun start.now }
    ensures small { result < 2 ^ 62 }
{
    match start {
        None => 0,
        Some(words) => words.items().len() as u64,
    }
}

/// How many words a new type counts, with those of its initial state.
fn words_of_entry(entry: &TypeEntry) -> u64
    ensures words { result ≡ words_of_type entry.now }
    ensures small { result < 2 ^ 63 }
{
    words_of_kind(&entry.kind) + words_in(&entry.start)
}

/// A new type with the next number.
fn add(
    entry: TypeEntry,
    number: usize,
    types: &mut TypeTable,
    memory: &mut Memory,
) -> Result<usize, Step>
    requires next { number ≡ length types.old }
    requires new { entry_number entry types.old ≡ None }
    ensures met { IsMet entry types.old memory.old result types.new memory.new }
    ensures small { IfOk result (λ number. number < 2 ^ 63) }
    ensures segments { memory.new.segments ≡ memory.old.segments }
{
    if number as u64 >= limit::TYPES {
        return Err(Step::Error(run_error::STORAGE_LIMIT));
    }
    let words = words_of_entry(&entry);
    if memory.charge(words).is_err() {
        return Err(Step::Error(run_error::STORAGE_LIMIT));
    }
    if types.add(entry).is_err() {
        memory.give_back(words);
        return Err(Step::NoMemory);
    }
    Ok(number)
}

/// The number that the type has, or a new one.
#[inline(always)]
pub(crate) fn meet(
    entry: TypeEntry,
    types: &mut TypeTable,
    memory: &mut Memory,
) -> Result<usize, Step>
    ensures met { IsMet entry types.old memory.old result types.new memory.new }
    ensures small { IfOk result (λ number. number < 2 ^ 63) }
    ensures segments { memory.new.segments ≡ memory.old.segments }
{
    let count = types.entries().len();
    if let Some(number) = types.number_of(&entry) {
        return Ok(number);
    }
    add(entry, count, types, memory)
}

/// The number is left.
#[inline(always)]
pub(crate) fn intern(
    entry: TypeEntry,
    types: &mut TypeTable,
    memory: &mut Memory,
    stack: &mut Stack,
) -> Step
    ensures done { IsStep (interned entry stack.old (typing stack.old types.old memory.old)) result
        (typing stack.new types.new memory.new) }
    ensures segments { memory.new.segments ≡ memory.old.segments }
{
    match meet(entry, types, memory) {
        Ok(number) => words::push_word(stack, number as i64),
        Err(step) => step,
    }
}

/// A type that has a bare form besides it, which is met just before it.
fn intern_behind(
    bare: TypeEntry,
    whole: TypeEntry,
    types: &mut TypeTable,
    memory: &mut Memory,
    stack: &mut Stack,
) -> Step
    ensures done { IsStep (interned_over (Some bare) (over whole) stack.old
        (typing stack.old types.old memory.old)) result (typing stack.new types.new memory.new) }
    ensures segments { memory.new.segments ≡ memory.old.segments }
{
    let number = match meet(bare, types, memory) {
        Ok(number) => number,
        Err(step) => return step,
    };
    let Ok(number) = u32::try_from(number) else {
        return Step::NoMemory;
    };
    let TypeEntry {
        kind,
        size,
        start,
        bare: _,
    } = whole;
    let entry = TypeEntry {
        kind,
        size,
        start,
        bare: Some(number),
    };
    intern(entry, types, memory, stack)
}

/// The same, or a type that has none.
pub(crate) fn intern_over(
    bare: Option<TypeEntry>,
    whole: TypeEntry,
    types: &mut TypeTable,
    memory: &mut Memory,
    stack: &mut Stack,
) -> Step
    requires { whole.bare ≡ None }
    ensures done { IsStep (interned_over bare (over whole) stack.old
        (typing stack.old types.old memory.old)) result (typing stack.new types.new memory.new) }
    ensures segments { memory.new.segments ≡ memory.old.segments }
{
    match bare {
        None => intern(whole, types, memory, stack),
        Some(bare) => intern_behind(bare, whole, types, memory, stack),
    }
}

/// A type of this kind and size in which no initial state is given.
pub(crate) fn plain(kind: TypeKind, size: u32) -> TypeEntry
    ensures { result ≡ plain_of kind size }
{
    TypeEntry {
        kind,
        size,
        start: None,
        bare: None,
    }
}

/// The number of the bare form of the type of a number.
pub(crate) fn bare_number(number: u32, bare: Option<u32>) -> u32
    ensures { result ≡ bare_of number bare }
{
    match bare {
        None => number,
        Some(bare) => bare,
    }
}

/// The ordinal type with these bounds.
fn ordinal_entry(lo: i64, hi: i64) -> TypeEntry
    ensures { result ≡ ordinal lo hi }
{
    plain(TypeKind::Ord(lo, hi), 1)
}

/// The number that the ordinal type with two bounds has, or a new one.
#[inline(always)]
fn meet_ordinal(lo: i64, hi: i64, types: &mut TypeTable, memory: &mut Memory) -> Result<usize, Step>
    ensures met { IsMet (ordinal lo hi) types.old memory.old result types.new memory.new }
    ensures small { IfOk result (λ number. number < 2 ^ 63) }
    ensures segments { memory.new.segments ≡ memory.old.segments }
{
    if let Some(number) = types.noted(lo, hi) {
        return Ok(number as usize);
    }
    meet_other(lo, hi, types, memory)
}

/// The same of one that is not noted yet.
#[inline(never)]
fn meet_other(lo: i64, hi: i64, types: &mut TypeTable, memory: &mut Memory) -> Result<usize, Step>
    ensures met { IsMet (ordinal lo hi) types.old memory.old result types.new memory.new }
    ensures small { IfOk result (λ number. number < 2 ^ 63) }
    ensures segments { memory.new.segments ≡ memory.old.segments }
{
    let entry = ordinal_entry(lo, hi);
    let count = types.entries().len();
    let Some(number) = types.number_of(&entry) else {
        return add(entry, count, types, memory);
    };
    if let Ok(small) = u32::try_from(number) {
        types.note(lo, hi, small);
    }
    Ok(number)
}

/// The ordinal type with two bounds.
#[inline(always)]
pub fn ord(types: &mut TypeTable, memory: &mut Memory, stack: &mut Stack) -> Step
    ensures done { IsStep (ord_row (typing stack.old types.old memory.old)) result
        (typing stack.new types.new memory.new) }
    ensures segments { memory.new.segments ≡ memory.old.segments }
{
    match words::pop_two_words(stack) {
        Some((lo, hi)) => {
            if lo > hi {
                return Step::Error(run_error::OUTSIDE_DOMAIN);
            }
            match meet_ordinal(lo, hi, types, memory) {
                Ok(number) => words::push_word(stack, number as i64),
                Err(step) => step,
            }
        }
        None => Step::Broken,
    }
}

/// The type that a word numbers, with the number.
pub(crate) fn entry_of(types: &[TypeEntry], w: i64) -> Option<(usize, &TypeEntry)>
    ensures { MatchOption result (type_of types.now w ≡ None)
        (λ p. type_of types.now w ≡ Some (record { number = p.0; entry = p.1.now })) }
{
    match places::index(types.len(), w) {
        Some(number) => Some((number, &types[number])),
        None => None,
    }
}

/// The bounds of an ordinal type.
fn bounds_of(kind: &TypeKind) -> Option<(i64, i64)>
    ensures { result ≡ kind_bounds kind.now }
{
    match kind {
        TypeKind::Ord(lo, hi) => Some((*lo, *hi)),
        _ => None,
    }
}

/// The set type whose base type has these bounds.
fn set_entry(lo: i64, hi: i64) -> TypeEntry
    ensures { result ≡ set_type lo hi }
{
    plain(TypeKind::Set(lo, hi), SET_WORDS)
}

/// The set type whose base type has the number on top.
#[inline(never)]
pub fn set(types: &mut TypeTable, memory: &mut Memory, stack: &mut Stack) -> Step
    ensures done { IsStep (set_row (typing stack.old types.old memory.old)) result
        (typing stack.new types.new memory.new) }
    ensures segments { memory.new.segments ≡ memory.old.segments }
{
    let Some(base) = stack.pop_word() else {
        return Step::Broken;
    };
    let Some((_, base_type)) = entry_of(types.entries(), base) else {
        return Step::Broken;
    };
    let Some((lo, hi)) = bounds_of(&base_type.kind) else {
        return Step::Broken;
    };
    if !sets::is_ordinal(lo) || !sets::is_ordinal(hi) {
        return Step::Error(run_error::OUTSIDE_DOMAIN);
    }
    intern(set_entry(lo, hi), types, memory, stack)
}

/// The words so often, one behind the other.
fn repeat(alloc: Global, count: u128, words: &[i64]) -> Result<Words, NoMemory>
    ensures { IfOk result (λ all. all ≡ repeated count words.now) }
{
    let mut all = Vec::new(alloc);
    for _ in 0..count {
        all.extend_from_slice(words)?;
    }
    Ok(List::from_vec(all))
}

/// What an array begins with whose components begin so.
fn array_start(
    alloc: Global,
    lo: i64,
    hi: i64,
    start: &Option<Words>,
) -> Result<Option<Words>, NoMemory>
    ensures { IfOk result (λ all. all ≡ option_map (repeated (count_of lo hi)) start.now) }
{
    match start {
        None => Ok(None),
        Some(words) => Ok(Some(repeat(alloc, bounds::count(lo, hi), words.items())?)),
    }
}

/// The bare form of an array of components that have this one.
fn array_bare(lo: i64, hi: i64, size: u32, bare: Option<u32>) -> Option<TypeEntry>
    ensures { result ≡ option_map (λ b. array_entry lo hi b size) bare }
{
    match bare {
        None => None,
        Some(component) => Some(plain(TypeKind::Array(lo, hi, component), size)),
    }
}

/// An array of components of this type, which has this number. The bare form that it is given is left open.
fn array_whole(
    alloc: Global,
    lo: i64,
    hi: i64,
    number: u32,
    size: u32,
    component: &TypeEntry,
) -> Result<TypeEntry, NoMemory>
    ensures { IfOk result (λ e. e ≡ array_over lo hi number size component.now.start None) }
{
    let start = array_start(alloc, lo, hi, &component.start)?;
    Ok(TypeEntry {
        kind: TypeKind::Array(lo, hi, number),
        size,
        start,
        bare: None,
    })
}

/// The array type with the index type and the component type of these numbers.
pub fn arr(alloc: Global, types: &mut TypeTable, memory: &mut Memory, stack: &mut Stack) -> Step
    ensures done { IsStep (arr_row (typing stack.old types.old memory.old)) result
        (typing stack.new types.new memory.new) }
    ensures segments { memory.new.segments ≡ memory.old.segments }
{
    let Some((index, component)) = words::pop_two_words(stack) else {
        return Step::Broken;
    };
    let Some((_, index_type)) = entry_of(types.entries(), index) else {
        return Step::Broken;
    };
    let Some((lo, hi)) = bounds_of(&index_type.kind) else {
        return Step::Broken;
    };
    let Some((number, component_type)) = entry_of(types.entries(), component) else {
        return Step::Broken;
    };
    let Some(size) = bounds::array_size(lo, hi, component_type.size) else {
        return Step::Error(run_error::STORAGE_LIMIT);
    };
    let Ok(number) = u32::try_from(number) else {
        return Step::NoMemory;
    };
    let bare = array_bare(lo, hi, size, component_type.bare);
    let Ok(whole) = array_whole(alloc, lo, hi, number, size, component_type) else {
        return Step::NoMemory;
    };
    intern_over(bare, whole, types, memory, stack)
}
