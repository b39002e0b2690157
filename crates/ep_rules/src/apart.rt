//! Ranges of which no two have a value in common, found by their ends.

ghost use Rattle.std.specs.Prelude.{◌≡◌, ◌++◌, ◌∷◌, [], IfOk, List, OnErr, OnOk, if◌then◌else◌, true};
ghost use Rattle.std.specs.List.{list_all};
ghost use Rattle.ep_typed.specs.CaseRanges.{is_apart};
ghost use Rattle.ep_typed.specs.declared.tree.CaseRange.{CaseRange};
ghost use Rattle.ep_rules.specs.ApartRanges.{IsByEnds};
ghost use Rattle.ep_rules.specs.ConstantAccesses.{has_index};

use ep_base::{List, NoMemory};
use ep_typed::{CaseRange, CaseRanges};
use std::alloc::{AllocError, Global};
use std::collections::BTreeMap;
use std::marker::Model;

/// Ranges of which no two have a value in common, in the order in which they were added. To add one, or to look for a
/// value, takes a time that grows as the logarithm of their number.
pub struct ApartRanges {
    /// The ranges, in that order.
    ranges: CaseRanges,
    /// The greatest value of each, by its least one. Where one of them is empty, this plays no part.
    ends: BTreeMap<i64, i64>,
    /// Whether one is empty, that is, ends below where it begins.
    has_empty: bool,
}

impl Model for ApartRanges {
    ghost use Rattle.std.specs.Prelude.{List};
    ghost use Rattle.ep_typed.specs.declared.tree.CaseRange.{CaseRange};
    ghost use Rattle.ep_rules.specs.ApartRanges.{AreFoundByEnds};

    ghost Value = { List CaseRange };

    ghost view = { λ a. a.ranges };

    ghost invariant = { λ a. AreFoundByEnds a.has_empty a.ends a.ranges };
}

impl Drop for ApartRanges {
    fn drop(self) {
        let ApartRanges {
            ranges: _,
            ends: _,
            has_empty: _,
        } = self;
    }
}

/// Whether a range has no value of these.
fn is_apart_from_all(ranges: &[CaseRange], range: CaseRange) -> bool
    ensures { result ≡ list_all (λ s. is_apart s range) ranges.now }
{
    ranges
        .iter()
        .all(|other| other.high < range.low || range.high < other.low)
}

/// Whether a range has no value of those with these ends, none of which is empty, and no two of which have one in common.
fn is_apart_from_ends(ends: &BTreeMap<i64, i64>, range: CaseRange) -> bool
    ensures told { (ranges : List CaseRange) → IsByEnds ends.now ranges
        → result ≡ list_all (λ s. is_apart s range) ranges }
{
    match ends.range(..=range.high).next_back() {
        None => true,
        Some((_, high)) => *high < range.low,
    }
}

impl ApartRanges {
    /// None.
    pub fn new(alloc: Global) -> ApartRanges
        ensures { result ≡ [] }
    {
        ApartRanges {
            ranges: List::new(alloc),
            ends: BTreeMap::new(alloc),
            has_empty: false,
        }
    }

    /// The ranges, in the order in which they were added.
    pub fn ranges(&self) -> &[CaseRange]
        ensures { result.now ≡ self.now }
    {
        self.ranges.items()
    }

    /// The same, which are given away.
    pub fn into_ranges(self) -> CaseRanges
        ensures { result ≡ self }
    {
        let ApartRanges {
            ranges,
            ends: _,
            has_empty: _,
        } = self;
        ranges
    }

    /// Whether a range has no value of these.
    fn is_apart(&self, range: CaseRange) -> bool
        ensures { result ≡ list_all (λ s. is_apart s range) self.now }
    {
        if self.has_empty {
            is_apart_from_all(self.ranges.items(), range)
        } else {
            is_apart_from_ends(&self.ends, range)
        }
    }

    /// Adds a range at the end, where it has no value of those before it. Else, and where memory is wanting, they stay as
    /// they are.
    pub fn add(&mut self, range: CaseRange) -> Result<bool, NoMemory>
        ensures apart { IfOk result (λ added. added ≡ list_all (λ s. is_apart s range) self.old) }
        ensures added { IfOk result
            (λ added. self.new ≡ (if added then self.old ++ range ∷ [] else self.old)) }
        ensures unchanged { OnErr result (self.new ≡ self.old) }
    {
        if !self.is_apart(range) {
            return Ok(false);
        }
        self.push(range)?;
        Ok(true)
    }

    /// Adds a range at the end, which has no value of those before it.
    fn push(&mut self, range: CaseRange) -> Result<(), NoMemory>
        requires { list_all (λ s. is_apart s range) self.old ≡ true }
        ensures added { OnOk result (self.new ≡ self.old ++ range ∷ []) }
        ensures unchanged { OnErr result (self.new ≡ self.old) }
    {
        self.ranges.push(range)?;
        if range.high < range.low {
            self.has_empty = true;
            return Ok(());
        }
        if self.ends.insert(range.low, range.high).is_err() {
            self.ranges.pop();
            return Err(AllocError);
        }
        Ok(())
    }

    /// Whether a value is in one of the ranges.
    pub fn has(&self, value: i64) -> bool
        ensures { result ≡ has_index self.now value }
    {
        !self.is_apart(CaseRange {
            low: value,
            high: value,
        })
    }
}
