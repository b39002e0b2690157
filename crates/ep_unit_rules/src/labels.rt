//! The labels of variants (ISO 10206, 6.4.3.4).

ghost use Rattle.std.specs.Prelude.{◌≡◌, ◌≤◌, None, Some, drop, length, map};
ghost use Rattle.std.specs.List.{list_all, list_any};
ghost use Rattle.ep_built.specs.Built.{expression_unbuilt, first_in, label_unbuilt};
ghost use Rattle.ep_tree.specs.declared.expression.Label.{out-Label};
ghost use Rattle.ep_typed.specs.Denoters.{required_type};
ghost use Rattle.ep_typed.specs.CaseRanges.{is_in};
ghost use Rattle.ep_typed.specs.Viewed.{denoter_of};
ghost use Rattle.ep_rules.specs.Judgements.{Accepts};
ghost use Rattle.ep_rules.specs.Answers.{AnswersForm};
ghost use Rattle.ep_unit_rules.specs.Answers.{AnswersLabels};
ghost use Rattle.ep_unit_rules.specs.OrdinalTypes.{ordinal_value, value_of};
ghost use Rattle.ep_unit_rules.specs.Labels as spec;
ghost use Rattle.ep_unit_rules.specs.Labels.{end_judged, label_taken, labels_taken, range_judged, variant_ended, variant_labelled};

use crate::numbers::number;
use ep_base::List;
use ep_check_expr::{ConstantForm, constant_expression_value};
use ep_rules::{ApartRanges, Refusal};
use ep_scope::{Host, Kind, TypeName, View, rule, same_host};
use ep_tree::{Expression, Label};
use ep_typed::{
    Bound, CaseRange, CaseRanges, Denoter, RequiredType, UnitType, Value, VariantLabels,
};
use std::alloc::Global;
use std::marker::Model;

/// The values of a tag, or those of an index type.
#[derive(Clone, Copy, Drop)]
pub struct TagValues {
    /// The host of its type.
    pub host: Host,
    /// The least one.
    pub low: i64,
    /// The greatest one.
    pub high: i64,
}

/// The values of a required type, whose host this is.
fn required_values(host: Host, required: RequiredType) -> TagValues
    ensures { spec.tag_values host (Some (required_type required)) ≡ Accepts result }
{
    let (low, high) = match required {
        RequiredType::Integer => (-i64::MAX, i64::MAX),
        RequiredType::Char => (0, u8::MAX as i64),
        RequiredType::Boolean => (0, 1),
    };
    TagValues { host, low, high }
}

/// Those of a subrange or an enumeration, by its own denoter, whatever it begins with.
pub(crate) fn denoted_values(host: Host, denoter: &Denoter) -> Result<TagValues, Refusal>
    ensures { AnswersForm (λ t. t) result (spec.tag_values host (ordinal_value (denoter_of denoter.now))) }
{
    match denoter {
        Denoter::Subrange(_, Bound::Constant(low), Bound::Constant(high)) => Ok(TagValues {
            host,
            low: *low,
            high: *high,
        }),
        Denoter::Enumeration(names) => match names.items().split_first() {
            None => Err(Refusal::Rule(rule::ORDINAL)),
            Some((_, others)) => {
                let high = i64::from(number(others.len())?);
                Ok(TagValues { host, low: 0, high })
            }
        },
        Denoter::Initial(of, _) => denoted_values(host, of.get()),
        _ => Err(Refusal::Rule(rule::ORDINAL)),
    }
}

/// The values of this ordinal type, whose host this is, of a tag or of an index type.
pub fn tag_values(types: &[UnitType], host: Host, of: TypeName) -> Result<TagValues, Refusal>
    ensures { AnswersForm (λ t. t) result (spec.tag_values host (value_of types.now of)) }
{
    match of {
        TypeName::Required(required) => Ok(required_values(host, required)),
        TypeName::Entry(number) => match types.get(number as usize) {
            None => Err(Refusal::Rule(rule::ORDINAL)),
            Some(t) => denoted_values(host, &t.entry.denoter),
        },
    }
}

/// The labels of variants that are taken so far. Contracts see those of each variant before the one that is under way, those
/// of this one, and whether all labels are built.
pub struct Labels {
    /// The ranges of each variant before the one that is under way.
    before: VariantLabels,
    /// The same, one after another, and then those of the one that is under way.
    taken: ApartRanges,
    /// How many of these belong to variants before it.
    start: usize,
    /// Whether all labels are built.
    built: bool,
}

impl Model for Labels {
    ghost use Rattle.std.specs.Prelude.{drop};
    ghost use Rattle.ep_unit_rules.specs.TakenLabels.{TakenLabels, StandsBefore};

    ghost Value = { TakenLabels };

    ghost view = { λ l. record { before = l.before; own = drop l.start l.taken; built = l.built } };

    ghost invariant = { λ l. StandsBefore l.before l.start l.taken };
}

impl Drop for Labels {
    fn drop(self) {
        let Labels {
            before: _,
            taken: _,
            start: _,
            built: _,
        } = self;
    }
}

impl Labels {
    /// None yet.
    pub fn new(alloc: Global) -> Labels
        ensures { result ≡ spec.no_labels }
    {
        Labels {
            before: List::new(alloc),
            taken: ApartRanges::new(alloc),
            start: 0,
            built: true,
        }
    }

    /// Whether all labels are built.
    pub fn are_built(&self) -> bool
        ensures { result ≡ self.now.built }
    {
        self.built
    }

    /// The ranges of the variants before the one that is under way.
    pub fn into_before(self) -> VariantLabels
        ensures { result ≡ self.before }
    {
        let Labels {
            before,
            taken: _,
            start: _,
            built: _,
        } = self;
        before
    }

    /// One label more of the variant that is under way, which has no value of those before it.
    fn add(&mut self, range: Option<CaseRange>) -> Result<(), Refusal>
        ensures { AnswersLabels result self.new (spec.added self.old range) }
    {
        let Some(range) = range else {
            self.built = false;
            return Ok(());
        };
        if !self.taken.add(range)? {
            return Err(Refusal::Rule(rule::VARIANT_LABELS));
        }
        Ok(())
    }

    /// The end of a variant: its ranges.
    fn end_variant(&mut self, alloc: Global) -> Result<CaseRanges, Refusal>
        ensures { AnswersForm (λ ranges. (ranges, self.new)) result (variant_ended self.old) }
    {
        let own = behind(&self.taken, self.start);
        if own.is_empty() && self.built {
            return Err(Refusal::Rule(rule::VARIANT_LABELS));
        }
        let ranges = List::from_slice(alloc, own)?;
        let kept = List::from_slice(alloc, own)?;
        self.before.push(kept)?;
        self.start = self.taken.ranges().len();
        Ok(ranges)
    }

    /// Whether a value has a label of a variant before the one that is under way.
    fn has(&self, value: i64) -> bool
        ensures { result ≡ spec.is_labelled self.now.before value }
    {
        if behind(&self.taken, self.start).is_empty() {
            self.taken.has(value)
        } else {
            is_labelled(self.before.items(), value)
        }
    }

    /// Each value of the tag has a label, unless a variant completes the others.
    pub fn complete(&self, values: TagValues, completes: bool) -> Result<(), Refusal>
        ensures { AnswersForm (λ done. done) result (spec.completed values self.now completes) }
    {
        if completes || !self.built || leave_none_out(values, self) {
            Ok(())
        } else {
            Err(Refusal::Rule(rule::VARIANT_LABELS))
        }
    }
}

/// The ranges behind the first so many.
fn behind(taken: &ApartRanges, start: usize) -> &[CaseRange]
    requires { start ≤ length taken.now }
    ensures { result.now ≡ drop start taken.now }
{
    &taken.ranges()[start..]
}

/// Whether a value is in one of these ranges.
fn is_among(value: i64, ranges: &[CaseRange]) -> bool
    ensures { result ≡ list_any (λ r. is_in r value) ranges.now }
{
    ranges
        .iter()
        .any(|range| range.low <= value && value <= range.high)
}

/// Whether a value has a label of these variants.
fn is_labelled(variants: &[CaseRanges], value: i64) -> bool
    ensures { result ≡ spec.is_labelled variants.now value }
{
    variants
        .iter()
        .any(|ranges| is_among(value, ranges.items()))
}

/// Whether the value behind a label has one, where it is a value of the tag.
fn goes_on(values: TagValues, labels: &Labels, range: CaseRange) -> bool
    ensures { result ≡ spec.goes_on values labels.now.before range }
{
    values.high <= range.high || labels.has(range.high + 1)
}

/// Whether that holds of these labels.
fn all_go_on(values: TagValues, labels: &Labels, ranges: &[CaseRange]) -> bool
    ensures { result ≡ list_all (spec.goes_on values labels.now.before) ranges.now }
{
    ranges.iter().all(|range| goes_on(values, labels, *range))
}

/// Whether it holds of the labels of all these.
fn go_on_throughout(values: TagValues, labels: &Labels, all: &[CaseRanges]) -> bool
    ensures { result ≡ list_all (λ ranges. list_all (spec.goes_on values labels.now.before) ranges) all.now }
{
    all.iter()
        .all(|ranges| all_go_on(values, labels, ranges.items()))
}

/// Whether each value of a tag has a label.
fn leave_none_out(values: TagValues, labels: &Labels) -> bool
    ensures { result ≡ spec.leave_none_out values labels.now.before }
{
    labels.has(values.low) && go_on_throughout(values, labels, labels.before.items())
}

/// The value of an end of a label, where it is built.
fn fitting(values: TagValues, end: &ConstantForm) -> Result<Option<i64>, Refusal>
    ensures { AnswersForm (λ z. z) result (spec.fitting values end.now.kind end.now.value end.now.built) }
{
    match (end.kind, &end.value) {
        (Kind::Ordinal(own), Value::Word(word)) if same_host(values.host, own) => {
            if !end.built {
                Ok(None)
            } else if values.low <= *word && *word <= values.high {
                Ok(Some(*word))
            } else {
                Err(Refusal::Rule(rule::VARIANT_LABELS))
            }
        }
        _ => Err(Refusal::Rule(rule::VARIANT_LABELS)),
    }
}

/// The values from one to another, which is not below it, where both are built.
fn ranging(low: Option<i64>, high: Option<i64>) -> Result<Option<CaseRange>, Refusal>
    ensures { AnswersForm (λ range. range) result (spec.ranging low high) }
{
    match (low, high) {
        (Some(low), Some(high)) if low <= high => Ok(Some(CaseRange { low, high })),
        (Some(_), Some(_)) => Err(Refusal::Rule(rule::VARIANT_LABELS)),
        _ => Ok(None),
    }
}

/// An end of a label, where it is built.
fn end(
    alloc: Global,
    scopes: &View<'_>,
    values: TagValues,
    e: &Expression,
) -> Result<Option<i64>, Refusal>
    requires { expression_unbuilt e.now ≡ None }
    ensures { AnswersForm (λ z. z) result (end_judged scopes.now values e.now) }
{
    let end = constant_expression_value(alloc, e, scopes)?;
    fitting(values, &end)
}

/// The values that a label has, where it is built.
fn range(
    alloc: Global,
    scopes: &View<'_>,
    values: TagValues,
    label: &Label,
) -> Result<Option<CaseRange>, Refusal>
    requires { label_unbuilt label.now ≡ None }
    ensures { AnswersForm (λ range. range) result
        (range_judged scopes.now values (out-Label label.now).low (out-Label label.now).high) }
{
    let low = end(alloc, scopes, values, label.low.get())?;
    match &label.high {
        None => ranging(low, low),
        Some(high) => ranging(low, end(alloc, scopes, values, high.get())?),
    }
}

/// A label after others.
fn take_label(
    alloc: Global,
    scopes: &View<'_>,
    values: TagValues,
    label: &Label,
    found: &mut Labels,
) -> Result<(), Refusal>
    requires { label_unbuilt label.now ≡ None }
    ensures { AnswersLabels result found.new (label_taken scopes.now values label.now found.old) }
{
    let range = range(alloc, scopes, values, label)?;
    found.add(range)
}

/// Labels one after another.
fn take_labels(
    alloc: Global,
    scopes: &View<'_>,
    values: TagValues,
    labels: &[Label],
    found: &mut Labels,
) -> Result<(), Refusal>
    requires { first_in (map label_unbuilt labels.now) ≡ None }
    ensures { AnswersLabels result found.new (labels_taken scopes.now values labels.now found.old) }
{
    for label in labels {
        take_label(alloc, scopes, values, label, found)?;
    }
    Ok(())
}

/// The ranges of a variant, whose labels come after those of others.
pub fn take_variant(
    alloc: Global,
    scopes: &View<'_>,
    values: TagValues,
    labels: &[Label],
    found: &mut Labels,
) -> Result<CaseRanges, Refusal>
    requires { first_in (map label_unbuilt labels.now) ≡ None }
    ensures { AnswersForm (λ ranges. (ranges, found.new)) result
        (variant_labelled scopes.now values labels.now found.old) }
{
    take_labels(alloc, scopes, values, labels, found)?;
    found.end_variant(alloc)
}
