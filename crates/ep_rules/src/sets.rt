//! Sets as constants, by the ordinal numbers of their members in rising order.

ghost use Rattle.std.specs.Prelude.{◌≡◌, IfOk, []};
ghost use Rattle.ep_values.specs.Sets.{has, is_between as lies_between, is_member, is_ordinal, is_same_set, is_subset, with_number, with_numbers, with_span};
ghost use Rattle.ep_rules.specs.SetFolding.{combination, ordinal_at, takes, takes_ordinal};

use ep_base::{Bytes, List, NoMemory};
use ep_values::SetOperation;
use std::alloc::Global;

/// How many ordinals may be members, from 0 on.
const MEMBERS: u32 = 256;

/// Whether the ordinal is a member.
fn has(set: &[u8], ordinal: u8) -> bool
    ensures { result ≡ has ordinal set.now }
{
    for member in set {
        if *member == ordinal {
            return true;
        }
    }
    false
}

/// The ordinal of a number that may be a member.
fn ordinal_at(number: i64) -> Option<u8>
    ensures { result ≡ ordinal_at number }
{
    if number >= 0 && number < MEMBERS as i64 {
        Some(number as u8)
    } else {
        None
    }
}

/// Whether the number is a member.
pub(crate) fn is_member(number: i64, set: &[u8]) -> bool
    ensures { result ≡ is_member number set.now }
{
    match ordinal_at(number) {
        Some(member) => has(set, member),
        None => false,
    }
}

/// Whether all members of the first set are in the second.
pub(crate) fn is_subset(first: &[u8], second: &[u8]) -> bool
    ensures { result ≡ is_subset first.now second.now }
{
    for member in first {
        if !has(second, *member) {
            return false;
        }
    }
    true
}

/// Whether two sets have the same members.
pub(crate) fn is_same_set(first: &[u8], second: &[u8]) -> bool
    ensures { result ≡ is_same_set first.now second.now }
{
    is_subset(first, second) && is_subset(second, first)
}

/// Whether what is made of two sets has what the first and the second have or lack so.
fn takes(operation: SetOperation, first: bool, second: bool) -> bool
    ensures { result ≡ takes operation first second }
{
    match operation {
        SetOperation::Union => first || second,
        SetOperation::Difference => first && !second,
        SetOperation::Intersection => first && second,
        SetOperation::SymmetricDifference => first && !second || second && !first,
        _ => false,
    }
}

/// Whether an ordinal is one of those that are taken.
fn takes_ordinal(operation: SetOperation, first: &[u8], second: &[u8], ordinal: u8) -> bool
    ensures { result ≡ takes_ordinal operation first.now second.now ordinal }
{
    takes(operation, has(first, ordinal), has(second, ordinal))
}

/// The set that an operation makes of two.
#[tactic(auto, using(crate::proofs::Taking::taken_more, crate::proofs::Taking::left_out))]
pub(crate) fn combined(
    alloc: Global,
    operation: SetOperation,
    first: &[u8],
    second: &[u8],
) -> Result<Bytes, NoMemory>
    ensures { IfOk result (λ ms. ms ≡ combination operation first.now second.now) }
{
    let mut taken = List::new(alloc);
    for ordinal in 0..MEMBERS {
        if takes_ordinal(operation, first, second, ordinal as u8) {
            taken.push(ordinal as u8)?;
        }
    }
    Ok(taken)
}

/// Whether a number lies from one to another.
fn is_between(number: i64, low: i64, high: i64) -> bool
    ensures { result ≡ lies_between number low high }
{
    low <= number && number <= high
}

/// Whether the number may be a member.
fn is_ordinal(number: i64) -> bool
    ensures { result ≡ is_ordinal number }
{
    0 <= number && number < i64::from(MEMBERS)
}

/// The set of the ordinals from one number to another.
#[tactic(auto, using(crate::proofs::Taking::taken_more, crate::proofs::Taking::left_out, crate::proofs::Taking::spans))]
fn span(alloc: Global, low: i64, high: i64) -> Result<Bytes, NoMemory>
    ensures { IfOk result (λ ms. ms ≡ with_span low high []) }
{
    let mut all = List::new(alloc);
    for ordinal in 0..MEMBERS {
        if is_between(i64::from(ordinal), low, high) {
            all.push(ordinal as u8)?;
        }
    }
    Ok(all)
}

/// The set of the numbers from one to another, where they may be members.
pub(crate) fn range(alloc: Global, low: i64, high: i64) -> Result<Option<Bytes>, NoMemory>
    ensures { IfOk result (λ ms. ms ≡ with_numbers low high []) }
{
    if high < low {
        return Ok(Some(List::new(alloc)));
    }
    if is_ordinal(low) && is_ordinal(high) {
        Ok(Some(span(alloc, low, high)?))
    } else {
        Ok(None)
    }
}

/// The set of one number, where that may be a member.
#[tactic(auto, using(crate::proofs::Taking::single_range))]
pub(crate) fn single(alloc: Global, number: i64) -> Result<Option<Bytes>, NoMemory>
    ensures { IfOk result (λ ms. ms ≡ with_number number []) }
{
    let found = range(alloc, number, number)?;
    Ok(found)
}
