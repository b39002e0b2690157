//! The selector and the labels of `case`, and its form.

ghost use Rattle.std.specs.Prelude.{◌≡◌, None, Some, List, Option, map};
ghost use Rattle.ep_built.specs.Built.{arm_unbuilt, expression_unbuilt, first_in, label_unbuilt};
ghost use Rattle.ep_tree.specs.declared.expression.Label.{out-Label};
ghost use Rattle.ep_typed.specs.Trees as tree;
ghost use Rattle.ep_typed.specs.Trees.{Arms, Expr, Other, Stmt, Stmts};
ghost use Rattle.ep_typed.specs.Viewed.{arm_of, expr_of, other_of, stmt_of};
ghost use Rattle.ep_rules.specs.Judgements.{Judged};
ghost use Rattle.ep_stmt_rules.specs.Answers.{AnswersForm, AnswersLabels, AnswersRow, arms_of, labels_of, selector_of, stmts_of};
ghost use Rattle.ep_stmt_rules.specs.Cases as spec;
ghost use Rattle.ep_stmt_rules.specs.Cases.{added, arms_taken, end_judged, fitting, label_taken, labels_taken, own_ranges, range_judged, ranges_formed, ranging, selector_judged};
ghost use Rattle.ep_stmt_rules.specs.Statements.{Judgement, Passes, after, at_item, case_row, formed};

use crate::outcome::Admission;
use crate::statements::Row;
use ep_base::{Boxed, Line};
use ep_check_expr::{ConstantForm, label_value, typed_expression};
use ep_rules::{ApartRanges, Refusal};
use ep_scope::{Host, Kind, View, rule, same_host};
use ep_tree::{Arm, Expression, Label};
use ep_typed::{CaseArm, CaseArms, CaseRange, CaseRanges, TypedExpr, TypedStmt, TypedStmts, Value};
use std::alloc::Global;

/// The ranges of labels so far, and whether all labels are built.
pub struct Labels {
    /// The ranges of those that are built.
    pub ranges: ApartRanges,
    /// Whether all are.
    pub built: bool,
}

impl Drop for Labels {
    fn drop(self) {
        let Labels {
            ranges: _,
            built: _,
        } = self;
    }
}

impl Labels {
    /// None yet.
    fn new(alloc: Global) -> Labels
        ensures { result ≡ spec.no_labels }
    {
        Labels {
            ranges: ApartRanges::new(alloc),
            built: true,
        }
    }

    /// One label more, which has no value of those before it.
    fn add(&mut self, range: Option<CaseRange>) -> Result<(), Refusal>
        ensures { AnswersLabels result self.new (added self.old range) }
    {
        let Some(range) = range else {
            self.built = false;
            return Ok(());
        };
        if !self.ranges.add(range)? {
            return Err(Refusal::Rule(rule::CASE_LABELS));
        }
        Ok(())
    }

    /// The ranges, of which there is at least one, where all labels are built.
    fn into_ranges(self) -> Result<Option<CaseRanges>, Refusal>
        ensures { AnswersForm (λ ranges. ranges) result (ranges_formed self) }
    {
        let Labels { ranges, built } = self;
        if !built {
            return Ok(None);
        }
        if ranges.ranges().is_empty() {
            return Err(Refusal::Rule(rule::CASE_LABELS));
        }
        Ok(Some(ranges.into_ranges()))
    }
}

/// The selector of a `case`: its host, and its form where it and the labels are built.
pub struct CaseSelector {
    /// The host.
    pub host: Host,
    /// The form.
    form: Option<Boxed<TypedExpr>>,
}

impl Drop for CaseSelector {
    fn drop(self) {
        let CaseSelector { host: _, form: _ } = self;
    }
}

impl CaseSelector {
    /// The form alone.
    pub fn into_form(self) -> Option<Boxed<TypedExpr>>
        ensures { result ≡ self.form }
    {
        let CaseSelector { host: _, form } = self;
        form
    }
}

/// The value of an end of a label, where it is built, for a selector of this host.
fn fitting(host: Host, end: &ConstantForm) -> Result<Option<i64>, Refusal>
    ensures { AnswersForm (λ z. z) result (fitting host end.now.kind end.now.value end.now.built) }
{
    match (end.kind, &end.value) {
        (Kind::Ordinal(own), Value::Word(word)) if same_host(host, own) => {
            Ok(if end.built { Some(*word) } else { None })
        }
        _ => Err(Refusal::Rule(rule::CASE_LABELS)),
    }
}

/// The values from one to another, which is not below it, where both are built.
fn ranging(low: Option<i64>, high: Option<i64>) -> Result<Option<CaseRange>, Refusal>
    ensures { AnswersForm (λ range. range) result (ranging low high) }
{
    match (low, high) {
        (Some(low), Some(high)) if low <= high => Ok(Some(CaseRange { low, high })),
        (Some(_), Some(_)) => Err(Refusal::Rule(rule::CASE_LABELS)),
        _ => Ok(None),
    }
}

/// The selector of a `case`, with the labels of all its arms.
pub fn selector(
    alloc: Global,
    scopes: &View<'_>,
    e: &Expression,
    arms: &[Arm],
) -> Result<CaseSelector, Refusal>
    requires selector { expression_unbuilt e.now ≡ None }
    requires labels { first_in (map arm_unbuilt arms.now) ≡ None }
    ensures { AnswersForm selector_of result
        (selector_judged scopes.now e.now (map labels_of arms.now)) }
{
    let value = typed_expression(alloc, e, scopes)?;
    let Kind::Ordinal(host) = value.kind else {
        return Err(Refusal::Rule(rule::ORDINAL));
    };
    let mut labels = Labels::new(alloc);
    all_labels(alloc, scopes, host, arms, &mut labels)?;
    let form = if labels.built {
        value.into_form()
    } else {
        None
    };
    Ok(CaseSelector { host, form })
}

/// The labels of arms, one arm after another.
fn all_labels(
    alloc: Global,
    scopes: &View<'_>,
    host: Host,
    arms: &[Arm],
    found: &mut Labels,
) -> Result<(), Refusal>
    requires { first_in (map arm_unbuilt arms.now) ≡ None }
    ensures { AnswersLabels result found.new
        (arms_taken scopes.now host (map labels_of arms.now) found.old) }
{
    for arm in arms {
        add_labels(alloc, scopes, host, arm.labels.items(), found)?;
    }
    Ok(())
}

/// The ranges of one arm alone.
pub fn own_ranges(
    alloc: Global,
    scopes: &View<'_>,
    host: Host,
    written: &[Label],
) -> Result<Option<CaseRanges>, Refusal>
    requires { first_in (map label_unbuilt written.now) ≡ None }
    ensures { AnswersForm (λ ranges. ranges) result (own_ranges scopes.now host written.now) }
{
    let mut found = Labels::new(alloc);
    add_labels(alloc, scopes, host, written, &mut found)?;
    found.into_ranges()
}

/// Labels one after another.
fn add_labels(
    alloc: Global,
    scopes: &View<'_>,
    host: Host,
    labels: &[Label],
    found: &mut Labels,
) -> Result<(), Refusal>
    requires { first_in (map label_unbuilt labels.now) ≡ None }
    ensures { AnswersLabels result found.new
        (labels_taken scopes.now host labels.now found.old) }
{
    for label in labels {
        add_label(alloc, scopes, host, label, found)?;
    }
    Ok(())
}

/// A label after others.
fn add_label(
    alloc: Global,
    scopes: &View<'_>,
    host: Host,
    label: &Label,
    found: &mut Labels,
) -> Result<(), Refusal>
    requires { label_unbuilt label.now ≡ None }
    ensures { AnswersLabels result found.new
        (label_taken scopes.now host label.now found.old) }
{
    let range = range(alloc, scopes, host, label)?;
    found.add(range)
}

/// The values that a label has, where it is built.
fn range(
    alloc: Global,
    scopes: &View<'_>,
    host: Host,
    label: &Label,
) -> Result<Option<CaseRange>, Refusal>
    requires { label_unbuilt label.now ≡ None }
    ensures { AnswersForm (λ range. range) result
        (range_judged scopes.now host (out-Label label.now).low (out-Label label.now).high) }
{
    let low = end(alloc, scopes, host, label.low.get())?;
    match &label.high {
        None => ranging(low, low),
        Some(high) => ranging(low, end(alloc, scopes, host, high.get())?),
    }
}

/// An end of a label, where it is built.
fn end(alloc: Global, scopes: &View<'_>, host: Host, e: &Expression) -> Result<Option<i64>, Refusal>
    requires { expression_unbuilt e.now ≡ None }
    ensures { AnswersForm (λ z. z) result (end_judged scopes.now host e.now) }
{
    let end = label_value(alloc, e, scopes)?;
    fitting(host, &end)
}

/// An arm of these ranges and this statement.
pub fn arm_form(
    alloc: Global,
    ranges: Row<CaseRanges>,
    body: Row<Boxed<TypedStmt>>,
) -> Row<Boxed<CaseArm>>
    ensures { (x : Judgement (List CaseRange)) (y : Judgement Stmt)
        → AnswersRow (λ ranges. ranges) ranges x → AnswersRow stmt_of body y
        → AnswersRow arm_of result (after (λ a b. (a, b)) x y) }
{
    match (ranges?, body?) {
        (Admission::Passes(ranges), Admission::Passes(body)) => {
            let form = Boxed::new(alloc, CaseArm { ranges, body })?;
            Ok(Admission::Passes(form))
        }
        (Admission::Waits(first), _) => Ok(Admission::Waits(first)),
        (_, Admission::Waits(first)) => Ok(Admission::Waits(first)),
    }
}

/// A `case` without `otherwise`.
pub fn no_otherwise() -> Row<Option<TypedStmts>>
    ensures { AnswersRow other_of result (Passes tree.no_other) }
{
    Ok(Admission::Passes(None))
}

/// The statements of `otherwise`.
pub fn otherwise_form(statements: Row<TypedStmts>) -> Row<Option<TypedStmts>>
    ensures { (x : Judgement Stmts) → AnswersRow stmts_of statements x
        → AnswersRow other_of result (formed tree.otherwise_do x) }
{
    match statements? {
        Admission::Passes(all) => Ok(Admission::Passes(Some(all))),
        Admission::Waits(line) => Ok(Admission::Waits(line)),
    }
}

/// A `case` statement of these parts, in order.
pub fn case_form(
    alloc: Global,
    line: Line,
    selector: Row<Boxed<TypedExpr>>,
    arms: Row<CaseArms>,
    other: Row<Option<TypedStmts>>,
) -> Row<Boxed<TypedStmt>>
    ensures { (j : Judged (Option Expr)) (x : Judgement Arms) (y : Judgement Other)
        → AnswersRow expr_of selector (at_item line j) → AnswersRow arms_of arms x
        → AnswersRow other_of other y → AnswersRow stmt_of result (case_row line j x y) }
{
    match (selector?, arms?, other?) {
        (Admission::Passes(form), Admission::Passes(arms), Admission::Passes(other)) => {
            let form = Boxed::new(alloc, TypedStmt::Case(line, form, arms, other))?;
            Ok(Admission::Passes(form))
        }
        (Admission::Waits(first), _, _) => Ok(Admission::Waits(first)),
        (_, Admission::Waits(first), _) => Ok(Admission::Waits(first)),
        (_, _, Admission::Waits(first)) => Ok(Admission::Waits(first)),
    }
}
