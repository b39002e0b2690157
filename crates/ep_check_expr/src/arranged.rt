//! The rules of structured values of arrays, on parts that are accepted (ISO 10206, 6.8.7.2).

ghost use Rattle.std.specs.Prelude.{◌≡◌, ◌++◌, ◌∷◌, [], IfOk, MatchOption, false, map, true};
ghost use Rattle.std.specs.Option.{option_map};
ghost use Rattle.std.specs.List.{list_all};
ghost use Rattle.ep_typed.specs.Viewed.{designator_of, element_of, expr_of};
ghost use Rattle.ep_rules.specs.Answers.{AnswersJudged, AnswersTyped, typed_of};
ghost use Rattle.ep_check_expr.specs.Answers.{arranged_of, index_of, labels_of, ranges_of};
ghost use Rattle.ep_check_expr.specs.StructuredValues as spec;
ghost use Rattle.ep_check_expr.specs.StructuredValues.{arranged, component_given, with_index, with_label, with_range, with_ranges, with_single};

use crate::structured::{added, structured};
use ep_base::{Boxed, List, NoMemory};
use ep_rules::{
    ApartRanges, Folded, Refusal, Typed, are_compatible, folded_form, given_value, number_in,
    with_designator,
};
use ep_scope::{ArrayType, Kind, rule};
use ep_typed::{
    CaseRange, CaseRanges, Element, Elements, MemberDesignator, MemberDesignators, TypedExpr,
};
use std::alloc::Global;

/// An index of an array: its form, where it is built, how deep it is, and its ordinal number where it is constant.
pub(crate) struct Index {
    /// The form.
    pub(crate) form: Option<Boxed<TypedExpr>>,
    /// The depth.
    pub(crate) depth: u32,
    /// The ordinal number.
    pub(crate) constant: Option<i64>,
}

impl Drop for Index {
    fn drop(self) {
        let Index {
            form: _,
            depth: _,
            constant: _,
        } = self;
    }
}

impl Index {
    /// The form alone.
    fn into_form(self) -> Option<Boxed<TypedExpr>>
        ensures { result ≡ self.form }
    {
        let Index {
            form,
            depth: _,
            constant: _,
        } = self;
        form
    }
}

/// The ordinal number of an index, where it is constant; one that would be an error is none.
fn constant_in(alloc: Global, form: &Option<Boxed<TypedExpr>>) -> Result<Option<i64>, Refusal>
    ensures { AnswersJudged (λ z. z) result (spec.constant_in (option_map expr_of form.now)) }
{
    let Some(form) = form else {
        return Ok(None);
    };
    match folded_form(alloc, form.get())? {
        Folded::Known(value) => Ok(Some(number_in(&value))),
        Folded::Varies => Ok(None),
        Folded::Errs => Err(Refusal::Rule(rule::CONSTANT)),
    }
}

/// Whether a constant index is one of the array.
fn is_within_bounds(of: ArrayType, constant: Option<i64>) -> bool
    ensures { result ≡ spec.within_bounds of constant }
{
    match constant {
        None => true,
        Some(value) => of.low <= value && value <= of.high,
    }
}

/// An index, which has the host of the index type.
pub(crate) fn taken_index(alloc: Global, of: ArrayType, value: Typed) -> Result<Index, Refusal>
    ensures { AnswersJudged index_of result (spec.index_judged of (typed_of value)) }
{
    if !are_compatible(Kind::Ordinal(of.index), value.kind) {
        return Err(Refusal::Rule(rule::STRUCTURED_VALUE));
    }
    let constant = constant_in(alloc, &value.form)?;
    if !is_within_bounds(of, constant) {
        return Err(Refusal::Rule(rule::STRUCTURED_VALUE));
    }
    let depth = value.depth;
    Ok(Index {
        form: value.into_form(),
        depth,
        constant,
    })
}

/// The ranges of the labels of an element, where all are constant, the labels as designators, where all are built, and how
/// deep the deepest index is.
pub(crate) struct Ranges {
    /// The ranges.
    pub(crate) ranges: Option<CaseRanges>,
    /// The designators.
    pub(crate) designators: Option<MemberDesignators>,
    /// The depth.
    pub(crate) depth: u32,
}

impl Drop for Ranges {
    fn drop(self) {
        let Ranges {
            ranges: _,
            designators: _,
            depth: _,
        } = self;
    }
}

/// Ranges with the indexes from one to another, where all are constant; there are none where the first is above the last.
fn with_span(
    ranges: Option<CaseRanges>,
    low: Option<i64>,
    high: Option<i64>,
) -> Result<Option<CaseRanges>, NoMemory>
    ensures { IfOk result (λ now. now ≡ spec.with_span ranges low high) }
{
    let Some(mut ranges) = ranges else {
        return Ok(None);
    };
    let (Some(low), Some(high)) = (low, high) else {
        return Ok(None);
    };
    if low <= high {
        ranges.push(CaseRange { low, high })?;
    }
    Ok(Some(ranges))
}

impl Ranges {
    /// None.
    pub(crate) fn nothing(alloc: Global) -> Ranges
        ensures { ranges_of result ≡ spec.no_ranges }
    {
        Ranges {
            ranges: Some(List::new(alloc)),
            designators: Some(List::new(alloc)),
            depth: 0,
        }
    }

    /// The ranges and the designators.
    fn into_parts(self) -> (Option<CaseRanges>, Option<MemberDesignators>)
        ensures { result ≡ (self.ranges, self.designators) }
    {
        let Ranges {
            ranges,
            designators,
            depth: _,
        } = self;
        (ranges, designators)
    }

    /// With a label more: from one index to another, where both are constant, and its designator, where that is built.
    fn with_label(
        self,
        low: Option<i64>,
        high: Option<i64>,
        designator: Option<MemberDesignator>,
        depth: u32,
    ) -> Result<Ranges, NoMemory>
        ensures { IfOk result (λ now. ranges_of now
            ≡ with_label (ranges_of self) low high (option_map designator_of designator) depth) }
    {
        let depth = self.depth.max(depth);
        let (ranges, designators) = self.into_parts();
        let designators = with_designator(designators, designator)?;
        let ranges = with_span(ranges, low, high)?;
        Ok(Ranges {
            ranges,
            designators,
            depth,
        })
    }

    /// With one index.
    pub(crate) fn with_single(self, index: Index) -> Result<Ranges, NoMemory>
        ensures { IfOk result (λ now. ranges_of now ≡ with_single (ranges_of self) (index_of index)) }
    {
        let (number, depth) = (index.constant, index.depth);
        let designator = match index.into_form() {
            None => None,
            Some(form) => Some(MemberDesignator::Single(form)),
        };
        self.with_label(number, number, designator, depth)
    }

    /// With the indexes from one to another.
    pub(crate) fn with_range(self, first: Index, last: Index) -> Result<Ranges, NoMemory>
        ensures { IfOk result (λ now. ranges_of now ≡ with_range (ranges_of self) (index_of first) (index_of last)) }
    {
        let (low, high) = (first.constant, last.constant);
        let depth = first.depth.max(last.depth);
        let designator = match (first.into_form(), last.into_form()) {
            (Some(first), Some(last)) => Some(MemberDesignator::Range(first, last)),
            _ => None,
        };
        self.with_label(low, high, designator, depth)
    }
}

/// The labels of an element: an index, or ranges of them.
pub(crate) enum IndexLabels {
    /// One index alone.
    One(Index),
    /// Ranges.
    Many(Ranges),
}

impl Drop for IndexLabels {
    fn drop(self) {
        match self {
            IndexLabels::One(_) => {}
            IndexLabels::Many(_) => {}
        }
    }
}

impl IndexLabels {
    /// What is gathered of elements, with the components at these labels, which are given a value.
    pub(crate) fn given(
        self,
        alloc: Global,
        of: ArrayType,
        before: Arranged,
        value: Typed,
    ) -> Result<Arranged, Refusal>
        ensures { AnswersJudged arranged_of result
            (spec.given_by of (spec.with_labels (arranged_of before) (labels_of self)) (typed_of value)) }
    {
        match self {
            IndexLabels::One(index) => before.with_index(of, index, value),
            IndexLabels::Many(ranges) => before.with_ranges(alloc, of, ranges, value),
        }
    }
}

/// What is gathered of the elements of an array: what components are given, where all of it is built, how deep the deepest
/// part is, and which indexes are given, where all are constant.
pub(crate) struct Arranged {
    /// What components are given.
    pub(crate) elements: Option<Elements>,
    /// The depth.
    pub(crate) depth: u32,
    /// The indexes.
    pub(crate) indexes: Option<CaseRanges>,
}

impl Drop for Arranged {
    fn drop(self) {
        let Arranged {
            elements: _,
            depth: _,
            indexes: _,
        } = self;
    }
}

/// Ranges behind others.
#[tactic(auto, using(crate::proofs::public::Rows::pushed_left))]
fn joined(ranges: CaseRanges, more: &[CaseRange]) -> Result<CaseRanges, NoMemory>
    ensures { IfOk result (λ now. now ≡ ranges ++ more.now) }
{
    let mut ranges = ranges;
    for range in more {
        ranges.push(*range)?;
    }
    Ok(ranges)
}

/// Ranges behind others, where all are constant.
fn joined_if(
    ranges: Option<CaseRanges>,
    more: &Option<CaseRanges>,
) -> Result<Option<CaseRanges>, NoMemory>
    ensures { IfOk result (λ now. now ≡ spec.joined_ranges ranges more.now) }
{
    let (Some(ranges), Some(more)) = (ranges, more) else {
        return Ok(None);
    };
    Ok(Some(joined(ranges, more.items())?))
}

/// The components in constant ranges and their value. Where there are none, it is evaluated all the same.
fn ranges_given(alloc: Global, ranges: CaseRanges, value: Boxed<TypedExpr>) -> Element
    ensures { element_of result ∷ [] ≡ spec.ranges_given ranges (expr_of value) }
{
    if ranges.items().is_empty() {
        Element::AtIndexes(List::new(alloc), value)
    } else {
        Element::AtRanges(ranges, value)
    }
}

/// The components at labels and their value, where all of it is built: in ranges, where all are constant.
fn ranges_form(alloc: Global, ranges: Ranges, value: Option<Boxed<TypedExpr>>) -> Option<Element>
    ensures { option_map (λ e. e ∷ []) (option_map element_of result)
        ≡ spec.ranges_form ranges.ranges (option_map (map designator_of) ranges.designators) (option_map expr_of value) }
{
    let Some(value) = value else {
        return None;
    };
    let (ranges, designators) = ranges.into_parts();
    match ranges {
        Some(ranges) => Some(ranges_given(alloc, ranges, value)),
        None => match designators {
            Some(designators) => Some(Element::AtIndexes(designators, value)),
            None => None,
        },
    }
}

/// The component at an index and its value, where both are built.
fn index_form(index: Option<Boxed<TypedExpr>>, value: Option<Boxed<TypedExpr>>) -> Option<Element>
    ensures { option_map (λ e. e ∷ []) (option_map element_of result)
        ≡ spec.index_form (option_map expr_of index) (option_map expr_of value) }
{
    let (Some(index), Some(value)) = (index, value) else {
        return None;
    };
    Some(Element::AtIndex(index, value))
}

impl Arranged {
    /// Nothing.
    pub(crate) fn nothing(alloc: Global) -> Arranged
        ensures { arranged_of result ≡ spec.nothing_arranged }
    {
        Arranged {
            elements: Some(List::new(alloc)),
            depth: 0,
            indexes: Some(List::new(alloc)),
        }
    }

    /// All components are given this value.
    pub(crate) fn all(alloc: Global, of: ArrayType, value: Typed) -> Result<Arranged, Refusal>
        ensures { AnswersJudged arranged_of result (spec.given_by of (spec.all_arranged of) (typed_of value)) }
    {
        let depth = value.depth;
        let value = given_value(of.kind, value)?;
        let mut ranges = List::new(alloc);
        ranges.push(CaseRange {
            low: of.low,
            high: of.high,
        })?;
        let element = match value {
            None => None,
            Some(value) => Some(ranges_given(alloc, ranges, value)),
        };
        Ok(Arranged {
            elements: added(Some(List::new(alloc)), element)?,
            depth,
            indexes: Some(List::new(alloc)),
        })
    }

    /// The three parts.
    fn into_parts(self) -> (Option<Elements>, Option<CaseRanges>)
        ensures { result ≡ (self.elements, self.indexes) }
    {
        let Arranged {
            elements,
            depth: _,
            indexes,
        } = self;
        (elements, indexes)
    }

    /// With the component at an index, which is given a value.
    fn with_index(self, of: ArrayType, index: Index, value: Typed) -> Result<Arranged, Refusal>
        ensures { AnswersJudged arranged_of result
            (spec.given_by of (with_index (arranged_of self) (index_of index)) (typed_of value)) }
    {
        let depth = self.depth.max(index.depth.max(value.depth));
        let value = given_value(of.kind, value)?;
        let (elements, indexes) = self.into_parts();
        let indexes = with_span(indexes, index.constant, index.constant)?;
        let elements = added(elements, index_form(index.into_form(), value))?;
        Ok(Arranged {
            elements,
            depth,
            indexes,
        })
    }

    /// With the components in ranges, which are given a value.
    fn with_ranges(
        self,
        alloc: Global,
        of: ArrayType,
        ranges: Ranges,
        value: Typed,
    ) -> Result<Arranged, Refusal>
        ensures { AnswersJudged arranged_of result
            (spec.given_by of (with_ranges (arranged_of self) (ranges_of ranges)) (typed_of value)) }
    {
        let depth = self.depth.max(ranges.depth.max(value.depth));
        let value = given_value(of.kind, value)?;
        let (elements, indexes) = self.into_parts();
        let indexes = joined_if(indexes, &ranges.ranges)?;
        let elements = added(elements, ranges_form(alloc, ranges, value))?;
        Ok(Arranged {
            elements,
            depth,
            indexes,
        })
    }

    /// The value of the array type of this number, whose other components are given a value where that is completed.
    pub(crate) fn finished(
        self,
        alloc: Global,
        number: u32,
        of: ArrayType,
        completed: bool,
    ) -> Result<Typed, Refusal>
        ensures { AnswersTyped result (arranged number of completed (arranged_of self)) }
    {
        if !is_arranged(alloc, of, completed, &self.indexes)? {
            return Err(Refusal::Rule(rule::STRUCTURED_VALUE));
        }
        let depth = self.depth;
        let (elements, _) = self.into_parts();
        structured(alloc, number, elements, depth)
    }
}

/// The ranges, where no index is in two of them.
fn apart(alloc: Global, ranges: &[CaseRange]) -> Result<Option<ApartRanges>, NoMemory>
    ensures { IfOk result (λ found. MatchOption found (spec.are_apart ranges.now ≡ false)
        (λ apart. (apart ≡ ranges.now) × (spec.are_apart ranges.now ≡ true))) }
{
    let mut apart = ApartRanges::new(alloc);
    for range in ranges {
        if !apart.add(*range)? {
            return Ok(None);
        }
    }
    Ok(Some(apart))
}

/// Whether the index behind a range is in one of the ranges, where the array has it.
fn goes_on(of: ArrayType, ranges: &ApartRanges, range: CaseRange) -> bool
    ensures { result ≡ spec.goes_on of ranges.now range }
{
    of.high <= range.high || ranges.has(range.high + 1)
}

/// Whether that holds of all these.
fn all_go_on(of: ArrayType, ranges: &ApartRanges, all: &[CaseRange]) -> bool
    ensures { result ≡ list_all (spec.goes_on of ranges.now) all.now }
{
    all.iter().all(|range| goes_on(of, ranges, *range))
}

/// Whether each index of the array is in one of the ranges.
fn leave_none_out(of: ArrayType, ranges: &ApartRanges) -> bool
    ensures { result ≡ spec.leave_none_out of ranges.now }
{
    ranges.has(of.low) && all_go_on(of, ranges, ranges.ranges())
}

/// Whether each component is given once, where all indexes are constant.
fn is_arranged(
    alloc: Global,
    of: ArrayType,
    completed: bool,
    indexes: &Option<CaseRanges>,
) -> Result<bool, NoMemory>
    ensures { IfOk result (λ b. b ≡ spec.is_arranged of completed indexes.now) }
{
    let Some(indexes) = indexes else {
        return Ok(true);
    };
    match apart(alloc, indexes.items())? {
        None => Ok(false),
        Some(ranges) => Ok(completed || leave_none_out(of, &ranges)),
    }
}
