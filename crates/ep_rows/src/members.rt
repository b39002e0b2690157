//! Sets as words whose bits tell of the members.

ghost use Rattle.std.specs.Prelude.{◌≡◌, ◌<◌, ◌≤◌, ◌+◌, ◌==◌, ◌||◌, ◌&&◌, ◌^◌, count_ones, int_le, ℕ, ℤ, [], Some, length, pos, slice_get};
ghost use Rattle.ep_decode.specs.Operations.{combination_number};
ghost use Rattle.ep_object.specs.SetRows.{combined as combination_of, is_member, least_from};
ghost use Rattle.ep_object.specs.Sets.{are_between, is_subset as are_all_in, member_limit, set_in, tells, with_member, with_span as span_of, word_members, words_of_set};
ghost use Rattle.ep_frames.specs.Members.{is_told, set_of};
ghost use Rattle.ep_rows.specs.Members.{either, is_one, AreInside, IsEmptiness, IsHighest, IsLeastIn, IsLowest, IsZero, Tells};

use crate::words;
use ep_decode::Combination;
use ep_frames::Members;
use ep_object::{SET_MEMBERS, SET_WORDS, WORD_MEMBERS};

/// The empty set.
#[tactic(auto, using(crate::proofs::SetBits::none_told))]
pub fn none() -> Members
    ensures { set_of result ≡ [] }
{
    Members { words: [0; 8] }
}

/// Whether the ordinal is a member.
#[inline(always)]
pub fn has(set: Members, member: u32) -> bool
    requires { member < member_limit }
    ensures { result ≡ is_told set.words member }
{
    let word = set.words[(member / WORD_MEMBERS) as usize];
    (word >> (member % WORD_MEMBERS)) & 1 == 1
}

/// Whether the number is a member.
pub fn has_number(number: i64, set: Members) -> bool
    ensures { result ≡ is_member number (set_of set) }
{
    match words::index(SET_MEMBERS, number) {
        Some(member) => has(set, member),
        None => false,
    }
}

/// The set with one member more.
pub fn with(set: Members, member: u32) -> Members
    requires { member < member_limit }
    ensures told { Tells result (λ n. member == n || is_told set.words n) }
    ensures set { set_of result ≡ with_member member (set_of set) }
{
    let mut words = set.words;
    let at = (member / WORD_MEMBERS) as usize;
    words[at] = words[at] | (1 << (member % WORD_MEMBERS));
    Members { words }
}

/// The set with the members from one ordinal to another besides.
pub fn with_span(set: Members, lo: u32, hi: u32) -> Members
    requires within { hi < member_limit }
    requires ordered { lo ≤ hi }
    ensures { set_of result ≡ span_of (pos lo) (pos hi) (set_of set) }
{
    let mut all = set;
    for member in lo..hi + 1 {
        all = with(all, member);
    }
    all
}

/// What is made of a word of each of two sets.
fn combined_word(combination: Combination, x: u32, y: u32) -> u32
    ensures { (place : ℕ) → is_one result place ≡ either combination (is_one x place) (is_one y place) }
{
    match combination {
        Combination::Union => x | y,
        Combination::Difference => x ^ (x & y),
        Combination::Intersection => x & y,
        Combination::SymmetricDifference => x ^ y,
    }
}

/// What is made of two sets.
pub fn combined(combination: Combination, a: Members, b: Members) -> Members
    ensures told { Tells result (λ n. either combination (is_told a.words n) (is_told b.words n)) }
    ensures set { combination_of (combination_number combination) (set_of a) (set_of b) ≡ Some (set_of result) }
{
    let mut words = [0; 8];
    for place in 0..8 {
        words[place] = combined_word(combination, a.words[place], b.words[place]);
    }
    Members { words }
}

/// Whether a word tells of no member.
fn is_zero(word: u32) -> bool
    ensures { IsZero result word }
{
    word == 0
}

/// Whether it has no member.
fn is_empty(set: Members) -> bool
    ensures { IsEmptiness result set }
{
    for place in 0..8 {
        if !is_zero(set.words[place]) {
            return false;
        }
    }
    true
}

/// Whether all members of the first set are in the second.
pub fn is_subset(a: Members, b: Members) -> bool
    ensures { result ≡ are_all_in (set_of a) (set_of b) }
{
    is_empty(combined(Combination::Difference, a, b))
}

/// The lowest bit of a word that is 1.
#[inline(always)]
fn lowest(word: u32) -> u32
    requires { 0 < word }
    ensures { IsLowest result word }
{
    word.trailing_zeros()
}

/// The highest bit of a word that is 1.
#[inline(always)]
fn highest(word: u32) -> u32
    requires { 0 < word }
    ensures { IsHighest result word }
{
    word.ilog2()
}

/// Whether the ordinals from a first to a last one lie from one number to another.
#[inline(always)]
fn spans(lo: i64, hi: i64, first: u32, last: u32) -> bool
    ensures { result ≡ (int_le lo (pos first) && int_le (pos last) hi) }
{
    lo <= i64::from(first) && i64::from(last) <= hi
}

/// Whether all members that the word at a place tells of lie from one number to another.
#[inline(always)]
fn word_is_between(lo: i64, hi: i64, place: u32, word: u32) -> bool
    requires { place < 8 }
    ensures { AreInside result lo hi place word }
{
    if word == 0 {
        return true;
    }
    let first = place * WORD_MEMBERS;
    spans(lo, hi, first + lowest(word), first + highest(word))
}

/// Whether all members lie from one number to another.
pub fn is_between(lo: i64, hi: i64, set: Members) -> bool
    ensures { result ≡ are_between lo hi (set_of set) }
{
    for place in 0..SET_WORDS {
        if !word_is_between(lo, hi, place, set.words[place as usize]) {
            return false;
        }
    }
    true
}

/// How many bits of a word are 1.
#[inline(always)]
fn ones(word: u32) -> u32
    ensures ones { result ≡ count_ones word }
    ensures few { result ≤ word_members }
    ensures fits { word < 2 ^ 32 }
{
    word.count_ones()
}

/// How many members it has.
pub fn count(set: Members) -> u32
    ensures { result ≡ length (set_of set) }
{
    let mut members = 0;
    for place in 0..SET_WORDS {
        members += ones(set.words[place as usize]);
    }
    members
}

/// The least member from an ordinal on of those that the word at a place tells of.
#[inline(always)]
fn least_in(from: u32, place: u32, word: u32) -> Option<u32>
    requires { place < 8 }
    ensures { IsLeastIn (pos from) place word result }
{
    let first = place * WORD_MEMBERS;
    let passed = from.saturating_sub(first);
    match word.checked_shr(passed) {
        Some(left) => {
            if left == 0 {
                return None;
            }
            Some(first + passed + lowest(left))
        }
        None => None,
    }
}

/// The least member from an ordinal on, and -1 where there is none.
fn least(from: u32, set: Members) -> i64
    ensures { result ≡ least_from (pos from) (set_of set) }
{
    for place in 0..SET_WORDS {
        match least_in(from, place, set.words[place as usize]) {
            Some(member) => return i64::from(member),
            None => {}
        }
    }
    -1
}

/// The least member from a number on, and -1 where there is none.
pub fn next(from: i64, set: Members) -> i64
    ensures { result ≡ least_from from (set_of set) }
{
    if from < 0 {
        return least(0, set);
    }
    match words::index(SET_MEMBERS, from) {
        Some(from) => least(from, set),
        None => -1,
    }
}

/// The word at a place.
fn word_at(words: &[i64], place: usize) -> Option<i64>
    ensures { result ≡ slice_get words.now place }
{
    words.get(place).copied()
}

/// The lowest 32 bits of a word that is there and not negative, and else none.
fn low(word: Option<i64>) -> u32
    ensures { (place : ℕ) → place < word_members → is_one result place ≡ tells place word }
{
    match word {
        Some(word) if word >= 0 => (word % 4_294_967_296) as u32,
        _ => 0,
    }
}

/// The set whose words these are.
pub fn read(words: &[i64]) -> Members
    ensures { set_of result ≡ set_in words.now }
{
    let mut read = [0; 8];
    for place in 0..8 {
        read[place] = low(word_at(words, place));
    }
    Members { words: read }
}

/// A word of a set as a word of the machine.
fn wide(word: u32) -> i64
    ensures same { result ≡ pos word }
    ensures small { word < 2 ^ 32 }
{
    i64::from(word)
}

/// The words of a set.
pub fn written(set: Members) -> [i64; 8]
    ensures { result ≡ words_of_set (set_of set) }
{
    let mut words = [0; 8];
    for place in 0..8 {
        words[place] = wide(set.words[place]);
    }
    words
}
