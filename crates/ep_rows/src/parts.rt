//! The rows on components of values.

ghost use Rattle.std.specs.Prelude.{◌≡◌, ◌<◌, ◌+◌, ◌*◌, ◌∷◌, suc, if◌then◌else◌, leb, ℕ, ℤ, List, IfSome, MatchOption, Some, length, pos};
ghost use Rattle.ep_frames.specs.Stacks.{value_top, value_under_word};
ghost use Rattle.ep_object.specs.Effects.{Continues, Fails, having, weighing};
ghost use Rattle.ep_object.specs.Operands.{Operand, Value, Word};
ghost use Rattle.ep_object.specs.Parts.{defined_any_row, field_any_row, index_any_row, one_word, part_at, value_element, value_field};
ghost use Rattle.ep_object.specs.Places.{loaded};
ghost use Rattle.ep_object.specs.WordRows.{bit};
ghost use Rattle.ep_rows.specs.Steps.{IsDone, IsStep};
ghost use Rattle.ep_values.specs.declared.run_error.TheConstants as run_error;
ghost use Rattle.ep_rows.specs.Taken.{IsThere, OnThere, element_told, found_told, part_told, weight_of};

use crate::bounds::component_at;
use crate::control::spend;
use crate::step::Step;
use crate::types::bare_number;
use crate::values::words_at;
use crate::{members, places, sets, words};
use ep_frames::{Members, Stack};
use ep_memory::{Memory, UNDEFINED};
use ep_object::{TypeEntry, TypeKind};
use ep_values::run_error;

/// What a component holds of the value that it is taken out of.
#[derive(Clone, Copy, Drop)]
pub(crate) enum Content {
    /// The word of one of an ordinal type or a pointer, where it has one.
    Word(Option<i64>),
    /// So many of its words, those of an array or a record.
    Words(u32),
    /// The first word of a set, where it has one, and the set.
    Set(Option<i64>, Members),
}

/// A component of a value, with the number of the bare form of its type.
#[derive(Clone, Copy, Drop)]
pub(crate) struct Found {
    type_number: u32,
    /// Where its words begin in those of the value.
    offset: usize,
    content: Content,
}

/// What is at an index of a value.
#[derive(Clone, Copy, Drop)]
pub(crate) enum AtIndex {
    /// The code is broken.
    Broken,
    /// Nothing, since the index is outside of the bounds.
    Outside,
    /// A component.
    There(Found),
}

/// The component of the type of this number whose words begin at an offset in these, or none where the code is broken.
fn part_of(words: &[i64], offset: usize, type_number: u32, types: &[TypeEntry]) -> Option<Found>
    ensures told { (st : List Operand) → part_at types.now words.now offset type_number st
        ≡ found_told words.now result st }
    ensures there { IfSome result (λ f. IsThere words.now f.offset f.content) }
{
    let entry = types.get(type_number as usize)?;
    let value = words_at(words, offset, entry.size as usize)?;
    let content = match &entry.kind {
        TypeKind::Text => return None,
        TypeKind::Ord(_, _) | TypeKind::Pointer => Content::Word(value.first().copied()),
        TypeKind::Array(_, _, _) | TypeKind::Record(_) => Content::Words(entry.size),
        TypeKind::Set(_, _) => Content::Set(value.first().copied(), members::read(value)),
    };
    Some(Found {
        type_number: bare_number(type_number, entry.bare),
        offset,
        content,
    })
}

/// The component of this number of the value of a record, or none where the code is broken.
fn field_found(number: usize, types: &[TypeEntry], whole: u32, words: &[i64]) -> Option<Found>
    ensures told { (st : List Operand) → value_field types.now number whole words.now st
        ≡ found_told words.now result st }
    ensures there { IfSome result (λ f. IsThere words.now f.offset f.content) }
{
    let entry = types.get(whole as usize)?;
    let TypeKind::Record(parts) = &entry.kind else {
        return None;
    };
    let found = parts.items().get(number)?;
    part_of(words, found.offset as usize, found.type_number, types)
}

/// Where the component of this number begins, each of which has so many words, where it is within so many.
fn offset_of(number: u64, size: u32, within: usize) -> Option<usize>
    ensures { MatchOption result (within < number * size) (λ offset. offset ≡ number * size) }
{
    match number.checked_mul(u64::from(size)) {
        Some(offset) if offset <= within as u64 => Some(offset as usize),
        _ => None,
    }
}

/// What is at an index of the value of an array.
fn element_found(index: i64, types: &[TypeEntry], array: u32, words: &[i64]) -> AtIndex
    ensures told { (st : List Operand) → value_element types.now index array words.now st
        ≡ element_told words.now result st }
    ensures there { OnThere words.now result }
{
    let Some(entry) = types.get(array as usize) else {
        return AtIndex::Broken;
    };
    let TypeKind::Array(lo, hi, type_number) = entry.kind else {
        return AtIndex::Broken;
    };
    let Some(component) = types.get(type_number as usize) else {
        return AtIndex::Broken;
    };
    let Some(number) = component_at(lo, hi, index) else {
        return AtIndex::Outside;
    };
    let Some(offset) = offset_of(number, component.size, words.len()) else {
        return AtIndex::Broken;
    };
    match part_of(words, offset, type_number, types) {
        Some(found) => AtIndex::There(found),
        None => AtIndex::Broken,
    }
}

/// One more word, which is defined.
fn push_defined(word: Option<i64>, stack: &mut Stack) -> Step
    ensures { IsStep (having word (λ w. loaded w stack.old)) result stack.new }
{
    match word {
        None => Step::Broken,
        Some(w) => {
            if w > UNDEFINED {
                words::push_word(stack, w)
            } else {
                Step::Error(run_error::UNDEFINED_VALUE)
            }
        }
    }
}

/// Spends what a component does that is taken out of a value of so many words, where the limit allows it.
fn spend_part(content: Content, size: usize, limit: u64, ticks: &mut u64) -> bool
    requires { ticks.old < limit }
    ensures fits { result ≡ leb (ticks.old + suc (weight_of size content)) limit }
    ensures spent { ticks.new ≡ (if result then ticks.old + weight_of size content else ticks.old) }
    ensures within { ticks.new < limit }
{
    match content {
        Content::Word(_) | Content::Set(_, _) => spend(limit, ticks, size as u64),
        Content::Words(kept) => match (size as u64).checked_add(u64::from(kept)) {
            Some(weight) => spend(limit, ticks, weight),
            None => false,
        },
    }
}

/// The component takes the place of the value on top, which it was found in.
fn put(found: Found, stack: &mut Stack) -> Step
    ensures { (n : ℕ) (ws : List ℤ) (st : List Operand) → stack.old ≡ Value n ws ∷ st
        → IsThere ws found.offset found.content
        → IsStep (part_told ws found.offset found.type_number found.content st).effect result stack.new }
{
    match found.content {
        Content::Word(word) => {
            stack.pop();
            push_defined(word, stack)
        }
        Content::Set(first, set) => {
            stack.pop();
            sets::push_defined(first, set, stack)
        }
        Content::Words(kept) => {
            if stack.keep_part(found.type_number, found.offset, kept) {
                Step::Next
            } else {
                Step::Broken
            }
        }
    }
}

/// The component takes the place of the value of so many words on top, which it was found in.
fn leave(found: Found, size: usize, limit: u64, ticks: &mut u64, stack: &mut Stack) -> Step
    requires { ticks.old < limit }
    ensures within { ticks.new < limit }
    ensures done { (n : ℕ) (ws : List ℤ) (st : List Operand) → stack.old ≡ Value n ws ∷ st → length ws ≡ size
        → IsThere ws found.offset found.content
        → IsDone limit (found_told ws (Some found) st) result ticks.old ticks.new stack.old stack.new }
{
    if !spend_part(found.content, size, limit, ticks) {
        return Step::Full;
    }
    put(found, stack)
}

/// So it does where the value stands right below an index.
fn leave_indexed(found: Found, size: usize, limit: u64, ticks: &mut u64, stack: &mut Stack) -> Step
    requires { ticks.old < limit }
    ensures within { ticks.new < limit }
    ensures done { (z : ℤ) (n : ℕ) (ws : List ℤ) (st : List Operand) → stack.old ≡ Word z ∷ Value n ws ∷ st
        → length ws ≡ size → IsThere ws found.offset found.content
        → IsDone limit (found_told ws (Some found) st) result ticks.old ticks.new stack.old stack.new }
{
    if !spend_part(found.content, size, limit, ticks) {
        return Step::Full;
    }
    stack.pop();
    put(found, stack)
}

/// The component of this number of the record on top, which is a place or a value.
pub fn field(
    number: usize,
    limit: u64,
    ticks: &mut u64,
    types: &[TypeEntry],
    memory: &Memory,
    stack: &mut Stack,
) -> Step
    requires { ticks.old < limit }
    ensures within { ticks.new < limit }
    ensures done { IsDone limit (field_any_row types.now memory.now.segments (pos number) stack.old) result ticks.old
        ticks.new stack.old stack.new }
{
    let Some((whole, words)) = stack.value_top() else {
        return places::field_at(number, types, memory, stack);
    };
    let Some(found) = field_found(number, types, whole, words) else {
        return Step::Broken;
    };
    let size = words.len();
    leave(found, size, limit, ticks, stack)
}

/// Nothing is at the index, and as many ticks are spent as the value has words.
fn outside(size: usize, limit: u64, ticks: &mut u64) -> Step
    requires { ticks.old < limit }
    ensures within { ticks.new < limit }
    ensures done { (ws : List ℤ) (st : List Operand) → length ws ≡ size
        → IsDone limit (weighing (length ws) (Fails run_error.INDEX)) result ticks.old ticks.new st st }
{
    if spend(limit, ticks, size as u64) {
        Step::Error(run_error::INDEX)
    } else {
        Step::Full
    }
}

/// The component of the array at the index on top, which is a place or a value.
pub fn element(
    limit: u64,
    ticks: &mut u64,
    types: &[TypeEntry],
    memory: &Memory,
    stack: &mut Stack,
) -> Step
    requires { ticks.old < limit }
    ensures within { ticks.new < limit }
    ensures done { IsDone limit (index_any_row types.now memory.now.segments stack.old) result ticks.old ticks.new
        stack.old stack.new }
{
    let Some((array, words)) = stack.value_under_word() else {
        return places::component_at_index(types, memory, stack);
    };
    let Some(index) = stack.word_top() else {
        return Step::Broken;
    };
    let size = words.len();
    match element_found(index, types, array, words) {
        AtIndex::Broken => Step::Broken,
        AtIndex::Outside => outside(size, limit, ticks),
        AtIndex::There(found) => leave_indexed(found, size, limit, ticks, stack),
    }
}

/// The one word of a value of the type of this number, where values of that have one.
fn one_word(types: &[TypeEntry], type_number: u32, words: &[i64]) -> Option<i64>
    ensures { result ≡ one_word types.now type_number words.now }
{
    let entry = types.get(type_number as usize)?;
    if entry.size != 1 {
        return None;
    }
    words.first().copied()
}

/// Whether it is defined takes the place of the value on top.
fn tell(is_defined: bool, stack: &mut Stack) -> Step
    ensures { (n : ℕ) (ws : List ℤ) (st : List Operand) → stack.old ≡ Value n ws ∷ st
        → IsStep (Continues (Word (bit is_defined) ∷ st)) result stack.new }
{
    stack.pop();
    words::push_word(stack, if is_defined { 1 } else { 0 })
}

/// Whether the variable or the value of one word on top is defined.
pub fn defined(types: &[TypeEntry], memory: &Memory, stack: &mut Stack) -> Step
    ensures { IsStep (defined_any_row types.now memory.now.segments stack.old) result stack.new }
{
    let Some((type_number, words)) = stack.value_top() else {
        return places::defined(types, memory, stack);
    };
    match one_word(types, type_number, words) {
        Some(word) => tell(word > UNDEFINED, stack),
        None => Step::Broken,
    }
}
