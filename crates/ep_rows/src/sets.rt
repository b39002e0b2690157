//! The rows on sets.

ghost use Rattle.std.specs.Prelude.{◌≡◌, ◌<◌, ◌≤◌, ◌+◌, ◌^◌, suc, ◌∷◌, ℕ, ℤ, false, List, Option, Some, None, IfSome, MatchBool, MatchOption, length};
ghost use Rattle.ep_decode.specs.Operations.{combination_number, inclusion_number};
ghost use Rattle.ep_frames.specs.Members.{set_of};
ghost use Rattle.ep_memory.specs.Stores.{live};
ghost use Rattle.ep_object.specs.Control.{dup_row};
ghost use Rattle.ep_object.specs.Effects.{Continues, having, light};
ghost use Rattle.ep_object.specs.Operands.{Operand, Place as PlaceOperand, Set};
ghost use Rattle.ep_object.specs.Sets.{are_between, set_size};
ghost use Rattle.ep_object.specs.Places.{load_row, load_set, store_row, store_set, set_defined, set_loaded, words_at as words_in};
ghost use Rattle.ep_object.specs.SetRows.{card_row, in_row, next_row, set_add_row, set_cmp_row, set_none_row, set_op_row, set_span_row, span_added, is_ordinal as may_be_member, sets_compared};
ghost use Rattle.ep_rows.specs.Steps.{IsQuick, IsStep, OnRare};
ghost use Rattle.ep_rows.specs.Values.{set_stored_at};

use crate::control::spend;
use crate::step::Step;
use crate::values::words_at;
use crate::{members, segments, words};
use ep_decode::{Combination, Inclusion};
use ep_frames::{Members, Stack};
use ep_memory::{Memory, Stored, UNDEFINED};
use ep_object::{Place, SET_MEMBERS, SET_WORDS, TypeEntry, TypeKind};
use ep_values::run_error;

/// One more set.
fn push_set(set: Members, stack: &mut Stack) -> Step
    ensures { IsStep (Continues (Set (set_of set) ∷ stack.old)) result stack.new }
{
    if stack.push_set(set) {
        Step::Next
    } else {
        Step::NoMemory
    }
}

/// A set twice.
pub(crate) fn push_twice(set: Members, stack: &mut Stack) -> Step
    ensures { IsStep (Continues (Set (set_of set) ∷ Set (set_of set) ∷ stack.old)) result stack.new }
{
    if !stack.push_set(set) {
        return Step::NoMemory;
    }
    push_set(set, stack)
}

/// The empty set.
#[inline(never)]
pub fn none(stack: &mut Stack) -> Step
    ensures { IsStep (set_none_row stack.old) result stack.new }
{
    push_set(members::none(), stack)
}

/// Whether the number may be a member of a set.
pub(crate) fn is_ordinal(number: i64) -> bool
    ensures { result ≡ may_be_member number }
{
    number >= 0 && number < i64::from(SET_MEMBERS)
}

/// A set with one member more.
#[inline(never)]
pub fn add(stack: &mut Stack) -> Step
    ensures { IsStep (set_add_row stack.old) result stack.new }
{
    let Some(number) = stack.pop_word() else {
        return Step::Broken;
    };
    let Some(set) = stack.pop_set() else {
        return Step::Broken;
    };
    match words::index(SET_MEMBERS, number) {
        Some(member) => push_set(members::with(set, member), stack),
        None => Step::Error(run_error::SET_MEMBER),
    }
}

/// The set with the members from one number to another besides, or an error where one of them may be no member.
fn push_span(lo: i64, hi: i64, set: Members, stack: &mut Stack) -> Step
    ensures { IsStep (span_added lo hi (set_of set) stack.old) result stack.new }
{
    if hi < lo {
        return push_set(set, stack);
    }
    if lo < 0 || hi >= i64::from(SET_MEMBERS) {
        return Step::Error(run_error::SET_MEMBER);
    }
    push_set(members::with_span(set, lo as u32, hi as u32), stack)
}

/// A set with the members from one number to another besides.
pub fn span(stack: &mut Stack) -> Step
    ensures { IsStep (set_span_row stack.old) result stack.new }
{
    let Some((lo, hi)) = words::pop_two_words(stack) else {
        return Step::Broken;
    };
    let Some(set) = stack.pop_set() else {
        return Step::Broken;
    };
    push_span(lo, hi, set, stack)
}

/// What is made of two sets.
#[inline(never)]
pub fn combine(combination: Combination, stack: &mut Stack) -> Step
    ensures { IsStep (set_op_row (combination_number combination) stack.old) result stack.new }
{
    let Some(upper) = stack.pop_set() else {
        return Step::Broken;
    };
    let Some(lower) = stack.pop_set() else {
        return Step::Broken;
    };
    push_set(members::combined(combination, lower, upper), stack)
}

/// Whether two sets compare so.
fn compared(inclusion: Inclusion, lower: Members, upper: Members) -> bool
    ensures { Some result ≡ sets_compared (inclusion_number inclusion) (set_of lower) (set_of upper) }
{
    match inclusion {
        Inclusion::Equal => members::is_subset(lower, upper) && members::is_subset(upper, lower),
        Inclusion::Unequal => {
            !(members::is_subset(lower, upper) && members::is_subset(upper, lower))
        }
        Inclusion::Within => members::is_subset(lower, upper),
        Inclusion::Around => members::is_subset(upper, lower),
    }
}

/// 1 where two sets compare so, else 0.
pub fn compare(inclusion: Inclusion, stack: &mut Stack) -> Step
    ensures { IsStep (set_cmp_row (inclusion_number inclusion) stack.old) result stack.new }
{
    let Some(upper) = stack.pop_set() else {
        return Step::Broken;
    };
    let Some(lower) = stack.pop_set() else {
        return Step::Broken;
    };
    words::push_word(stack, i64::from(compared(inclusion, lower, upper)))
}

/// 1 where a number is a member of a set, else 0.
#[inline(never)]
pub fn has(stack: &mut Stack) -> Step
    ensures { IsStep (in_row stack.old) result stack.new }
{
    let Some(set) = stack.pop_set() else {
        return Step::Broken;
    };
    let Some(number) = stack.pop_word() else {
        return Step::Broken;
    };
    words::push_word(stack, i64::from(members::has_number(number, set)))
}

/// How many members a set has.
pub fn count(stack: &mut Stack) -> Step
    ensures { IsStep (card_row stack.old) result stack.new }
{
    match stack.pop_set() {
        Some(set) => words::push_word(stack, i64::from(members::count(set))),
        None => Step::Broken,
    }
}

/// The least member of a set from a number on, and -1 where there is none.
#[inline(never)]
pub fn next(stack: &mut Stack) -> Step
    ensures { IsStep (next_row stack.old) result stack.new }
{
    let Some(set) = stack.pop_set() else {
        return Step::Broken;
    };
    let Some(from) = stack.pop_word() else {
        return Step::Broken;
    };
    words::push_word(stack, members::next(from, set))
}

/// One more set, where its first word is defined.
pub(crate) fn push_defined(first: Option<i64>, set: Members, stack: &mut Stack) -> Step
    ensures { IsStep (having first (λ w. set_defined w (set_of set) stack.old)) result stack.new }
{
    match first {
        None => Step::Broken,
        Some(w) => {
            if w > UNDEFINED {
                push_set(set, stack)
            } else {
                Step::Error(run_error::UNDEFINED_VALUE)
            }
        }
    }
}

/// The set of a variable at a place.
pub(crate) fn load(p: Place, memory: &Memory, stack: &mut Stack) -> Step
    ensures { IsStep (load_set memory.now.segments p stack.old) result stack.new }
{
    let Some(words) = memory.words_of(p.segment) else {
        return segments::gone(p.segment, memory);
    };
    let Some(words) = words_at(words, p.offset as usize, SET_WORDS as usize) else {
        return Step::Broken;
    };
    push_defined(words.first().copied(), members::read(words), stack)
}

/// The set in a variable's words from an offset on, where it is defined.
fn set_in_words(words: &[i64], offset: usize) -> Option<Members>
    ensures { IfSome result (λ m. (st : List Operand)
        → having (words_in words.now offset set_size) (λ ws. set_loaded ws st)
        ≡ Continues (Set (set_of m) ∷ st)) }
{
    let Some(words) = words_at(words, offset, SET_WORDS as usize) else {
        return None;
    };
    match words.first() {
        Some(first) if *first > UNDEFINED => Some(members::read(words)),
        _ => None,
    }
}

/// The set of a variable at a place, where it is defined.
fn value_at(p: Place, types: &[TypeEntry], memory: &Memory) -> Option<Members>
    ensures { IfSome result (λ m. (st : List Operand)
        → load_row types.now memory.now.segments (PlaceOperand p ∷ st)
        ≡ light (Continues (Set (set_of m) ∷ st))) }
{
    let Some(entry) = types.get(p.type_number as usize) else {
        return None;
    };
    let TypeKind::Set(_, _) = entry.kind else {
        return None;
    };
    let Some(words) = memory.words_of(p.segment) else {
        return None;
    };
    set_in_words(words, p.offset as usize)
}

/// One more set, that of a variable at a place, where it is defined.
#[inline(never)]
pub fn push_at(p: Place, types: &[TypeEntry], memory: &Memory, stack: &mut Stack) -> bool
    ensures { MatchBool result (load_row types.now memory.now.segments (PlaceOperand p ∷ stack.old)
        ≡ light (Continues stack.new)) (stack.new ≡ stack.old) }
{
    match value_at(p, types, memory) {
        Some(set) => stack.push_set(set),
        None => false,
    }
}

/// The set of a variable whose place is on top. Of any other one the row is not a frequent one.
#[inline(never)]
pub(crate) fn load_at(types: &[TypeEntry], memory: &Memory, stack: &mut Stack) -> Step
    ensures done { IsQuick (load_row types.now memory.now.segments stack.old) result stack.new }
    ensures rare { OnRare result (stack.new ≡ stack.old) }
{
    let Some(p) = stack.place_top() else {
        return Step::Rare;
    };
    let Some(entry) = types.get(p.type_number as usize) else {
        return Step::Rare;
    };
    let TypeKind::Set(_, _) = entry.kind else {
        return Step::Rare;
    };
    stack.pop();
    load(p, memory, stack)
}

/// How the row ends where a set has a member outside of the base type.
fn outside(p: Place, memory: &Memory) -> Step
    ensures { (lo : ℤ) (hi : ℤ) (ms : List ℕ) (st : List Operand) → are_between lo hi ms ≡ false
        → IsStep (store_set lo hi ms memory.now.segments p st) result (st, memory.now.segments) }
{
    let Some(words) = memory.words_of(p.segment) else {
        return segments::gone(p.segment, memory);
    };
    match words_at(words, p.offset as usize, SET_WORDS as usize) {
        Some(_) => Step::Error(run_error::SET_MEMBER),
        None => Step::Broken,
    }
}

/// A variable at a place takes a set, where its base type has these bounds.
fn put(lo: i64, hi: i64, p: Place, set: Members, memory: &mut Memory) -> Step
    ensures done { (st : List Operand)
        → IsStep (store_set lo hi (set_of set) memory.old.segments p st) result
        (st, memory.new.segments) }
    ensures live { live memory.new ≡ live memory.old }
{
    if !members::is_between(lo, hi, set) {
        return outside(p, memory);
    }
    match memory.store_words(p.segment, u64::from(p.offset), &members::written(set)) {
        Stored::Done => Step::Next,
        Stored::Outside => Step::Broken,
        Stored::Gone => segments::gone(p.segment, memory),
    }
}

/// A variable whose place is on top takes a set.
pub(crate) fn store(
    set: Members,
    types: &[TypeEntry],
    memory: &mut Memory,
    stack: &mut Stack,
) -> Step
    ensures done { IsStep (set_stored_at types.now memory.old.segments (set_of set) stack.old) result
        (stack.new, memory.new.segments) }
    ensures live { live memory.new ≡ live memory.old }
{
    let Some(p) = stack.pop_place() else {
        return Step::Broken;
    };
    let Some(entry) = types.get(p.type_number as usize) else {
        return Step::Broken;
    };
    let TypeKind::Set(lo, hi) = entry.kind else {
        return Step::Broken;
    };
    put(lo, hi, p, set, memory)
}

/// A variable takes a set. With any other operand the row is not a frequent one.
#[tactic(auto, using(crate::proofs::WordRows::set_stores))]
#[inline(never)]
pub(crate) fn store_at(types: &[TypeEntry], memory: &mut Memory, stack: &mut Stack) -> Step
    ensures done { IsQuick (store_row types.now memory.old.segments stack.old) result
        (stack.new, memory.new.segments) }
    ensures live { live memory.new ≡ live memory.old }
    ensures rare { OnRare result ((stack.new ≡ stack.old) × (memory.new ≡ memory.old)) }
{
    match stack.pop_set() {
        Some(set) => store(set, types, memory, stack),
        None => Step::Rare,
    }
}
