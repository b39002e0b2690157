//! Which types are equal, and what a hasher gets of a type, so that a table finds it by hash.

ghost use Rattle.std.specs.Prelude.{◌≡◌, fold};
ghost use Rattle.ep_object.specs.TypeEntries.{begin_writes, kind_writes, parts_writes, words_writes};
ghost use Rattle.ep_object.specs.Types.{same_bare as is_same_bare, same_begin as is_same_begin, same_kind as is_same, same_parts as are_same, same_words as are_same_words};

use crate::code::Words;
use crate::state::{RecordPart, TypeEntry, TypeKind};
use std::hash::{Hash, Hasher};

/// Whether components have the same types at the same places, one for one.
#[tactic(auto, using(crate::proofs::TypeEntries::other_lengths))]
fn same_parts(parts: &[RecordPart], others: &[RecordPart]) -> bool
    ensures { result ≡ are_same parts.now others.now }
{
    if parts.len() != others.len() {
        return false;
    }
    for place in 0..parts.len() {
        let part = parts[place];
        let other = others[place];
        if part.type_number != other.type_number || part.offset != other.offset {
            return false;
        }
    }
    true
}

/// Whether two kinds are the same.
fn same_kind(a: &TypeKind, b: &TypeKind) -> bool
    ensures { result ≡ is_same a.now b.now }
{
    match (a, b) {
        (TypeKind::Ord(lo, hi), TypeKind::Ord(l, h)) => lo == l && hi == h,
        (TypeKind::Pointer, TypeKind::Pointer) => true,
        (TypeKind::Text, TypeKind::Text) => true,
        (TypeKind::Array(lo, hi, c), TypeKind::Array(l, h, d)) => lo == l && hi == h && c == d,
        (TypeKind::Set(lo, hi), TypeKind::Set(l, h)) => lo == l && hi == h,
        (TypeKind::Record(parts), TypeKind::Record(others)) => same_parts(
            parts.items(),
            others.items(),
        ),
        _ => false,
    }
}

/// Whether two lists of words are the same.
#[tactic(auto, using(crate::proofs::TypeEntries::other_counts))]
fn same_words(words: &[i64], others: &[i64]) -> bool
    ensures { result ≡ are_same_words words.now others.now }
{
    if words.len() != others.len() {
        return false;
    }
    for place in 0..words.len() {
        if words[place] != others[place] {
            return false;
        }
    }
    true
}

/// Whether types begin with the same words.
fn same_begin(a: &Option<Words>, b: &Option<Words>) -> bool
    ensures { result ≡ is_same_begin a.now b.now }
{
    match (a, b) {
        (None, None) => true,
        (Some(words), Some(others)) => same_words(words.items(), others.items()),
        _ => false,
    }
}

/// Whether they have the same bare form, or none.
fn same_bare(a: Option<u32>, b: Option<u32>) -> bool
    ensures { result ≡ is_same_bare a b }
{
    match (a, b) {
        (None, None) => true,
        (Some(a), Some(b)) => a == b,
        _ => false,
    }
}

/// A hasher gets the words with which a type begins.
fn hash_words<H: Hasher>(words: &[i64], state: &mut H)
    ensures { state.new ≡ fold H.write state.old (words_writes words.now) }
{
    for place in 0..words.len() {
        state.write_i64(words[place]);
    }
}

/// Where there are any.
fn hash_begin<H: Hasher>(begin: &Option<Words>, state: &mut H)
    ensures { state.new ≡ fold H.write state.old (begin_writes begin.now) }
{
    if let Some(words) = begin {
        hash_words(words.items(), state);
    }
}

/// A hasher gets the numbers of the types of components.
fn hash_parts<H: Hasher>(parts: &[RecordPart], state: &mut H)
    ensures { state.new ≡ fold H.write state.old (parts_writes parts.now) }
{
    for place in 0..parts.len() {
        state.write_u32(parts[place].type_number);
    }
}

/// And nearly all by which kinds differ.
fn hash_kind<H: Hasher>(kind: &TypeKind, state: &mut H)
    ensures { state.new ≡ fold H.write state.old (kind_writes kind.now) }
{
    match kind {
        TypeKind::Ord(lo, hi) => {
            state.write_i64(*lo);
            state.write_i64(*hi);
        }
        TypeKind::Pointer => state.write_u8(0),
        TypeKind::Text => state.write_u8(1),
        TypeKind::Array(lo, hi, component) => {
            state.write_i64(*lo);
            state.write_i64(*hi);
            state.write_u32(*component);
        }
        TypeKind::Record(parts) => hash_parts(parts.items(), state),
        TypeKind::Set(lo, hi) => {
            state.write_u8(2);
            state.write_i64(*lo);
            state.write_i64(*hi);
        }
    }
}

// The size of a type follows from its kind, so entries are found by what else they have.
impl PartialEq for TypeEntry {
    ghost use Rattle.ep_object.specs.TypeEntries.{entries_equivalent};
    ghost use Rattle.ep_object.specs.Types.{same_entry};
    ghost use Rattle.std.specs.Cmp.{partial_equiv_from_equiv};

    ghost eq = { λ a b. same_entry a b };

    ghost laws = { partial_equiv_from_equiv entries_equivalent };

    fn eq(&self, other: &TypeEntry) -> bool {
        same_kind(&self.kind, &other.kind)
            && same_begin(&self.start, &other.start)
            && same_bare(self.bare, other.bare)
    }
}

impl Eq for TypeEntry {
    ghost use Rattle.ep_object.specs.TypeEntries.{entries_equivalent};

    ghost laws = { entries_equivalent };
}

impl Hash for TypeEntry {
    ghost use Rattle.ep_object.specs.TypeEntries.{entries_alike};
    ghost use Rattle.ep_object.specs.TypeEntries.{entry_writes};

    ghost hash_input = { λ e. entry_writes e };

    ghost respects_eq = { entries_alike };

    fn hash<H: Hasher>(&self, state: &mut H) {
        hash_kind(&self.kind, state);
        hash_begin(&self.start, state);
    }
}
