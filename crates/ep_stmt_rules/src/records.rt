//! The records that a `with` statement opens (ISO 10206, 6.9.3.10).

ghost use Rattle.std.specs.Prelude.{◌≡◌, IfOk, List, None, Option, map};
ghost use Rattle.std.specs.List.{list_any};
ghost use Rattle.std.specs.Option.{option_map};
ghost use Rattle.ep_built.specs.Built.{access_unbuilt};
ghost use Rattle.ep_scope.specs.Records.{variable_of};
ghost use Rattle.ep_typed.specs.Trees as tree;
ghost use Rattle.ep_typed.specs.Trees.{Stmt};
ghost use Rattle.ep_typed.specs.Viewed.{expr_of, place_of, stmt_of, with_record_of};
ghost use Rattle.ep_rules.specs.Arguments.{IsReading};
ghost use Rattle.ep_check_expr.specs.Expressions.{name_judged};
ghost use Rattle.ep_rules.specs.Judgements.{Accepts, when_accepted};
ghost use Rattle.ep_stmt_rules.specs.Answers.{AnswersForm, AnswersRow, heads_of, locals_of, opened_of, record_named_of};
ghost use Rattle.ep_threats.specs.Variables.{entire_of};
ghost use Rattle.ep_threats.specs.Callees.{callees_among, callees_of};
ghost use Rattle.ep_stmt_rules.specs.Statements as spec;
ghost use Rattle.ep_stmt_rules.specs.Statements.{Judgement, after, block_variable, heads_threat, one_opened, record_accessed, unless_threatening};

use crate::members;
use crate::outcome::Admission;
use crate::statements::{Locals, Row};
use ep_base::{Boxed, Line, List, NoMemory};
use ep_check_expr::typed_access;
use ep_rules::{Access, Refusal, Typed};
use ep_scope::{
    Composition, FieldTypes, Inner, Kind, OpenRecord, Protection, RecordVariable, View, rule,
    structure_of,
};
use ep_threats::{Callees, Entire, Routines, place_threatens};
use ep_typed::{TypedPlace, TypedStmt, WithRecord, WithRecords};
use std::alloc::{AllocError, Global};

/// A record variable that a `with` names.
pub struct RecordNamed<'a> {
    /// The number of its type.
    of: u32,
    /// Whether it is protected.
    protection: Protection,
    /// Its fields.
    fields: &'a FieldTypes,
    /// Its place, where it is built.
    place: Option<TypedPlace>,
}

impl<'a> Drop for RecordNamed<'a> {
    fn drop(self) {
        let RecordNamed {
            of: _,
            protection: _,
            fields: _,
            place: _,
        } = self;
    }
}

impl<'a> RecordNamed<'a> {
    /// The place alone.
    fn into_place(self) -> Option<TypedPlace>
        ensures { result ≡ self.entry.place }
    {
        let RecordNamed {
            of: _,
            protection: _,
            fields: _,
            place,
        } = self;
        place
    }
}

/// The records that a `with` has opened so far.
pub struct Opened<'a> {
    /// The scopes in view where they are open.
    pub inner: Inner<'a>,
    /// The number of the variable of the next one.
    pub withs: u32,
    /// Them, where they are built.
    pub heads: Option<WithRecords>,
}

impl<'a> Drop for Opened<'a> {
    fn drop(self) {
        let Opened {
            inner: _,
            withs: _,
            heads: _,
        } = self;
    }
}

impl<'a> Opened<'a> {
    /// The records alone.
    pub fn into_heads(self) -> Option<WithRecords>
        ensures { result ≡ self.entry.heads }
    {
        let Opened {
            inner: _,
            withs: _,
            heads,
        } = self;
        heads
    }

    /// One record more, which is open inside of those before it.
    pub fn one_more(
        self,
        alloc: Global,
        locals: Locals<'a>,
        named: RecordNamed<'a>,
    ) -> Result<Opened<'a>, NoMemory>
        ensures { IfOk result (λ opened.
            opened_of opened ≡ one_opened (locals_of locals.entry) (opened_of self.entry) (record_named_of named.entry)) }
    {
        let Some(withs) = self.withs.checked_add(1) else {
            return Err(AllocError);
        };
        let of = named.of;
        let protection = named.protection;
        let fields = named.fields;
        let place = named.into_place();
        let Opened {
            inner,
            withs: number,
            heads,
        } = self;
        let record = OpenRecord {
            variable: record_variable(locals, number),
            protection,
            fields,
        };
        let inner = inner.within(alloc, record)?;
        let heads = one_after(heads, with_head(alloc, locals, number, of, place)?)?;
        Ok(Opened {
            inner,
            withs,
            heads,
        })
    }
}

/// The variable of this number, among those of the block, as it stands for a record.
fn record_variable(locals: Locals<'_>, number: u32) -> RecordVariable<'_>
    ensures { variable_of result ≡ block_variable (locals_of locals.entry) number }
{
    match locals {
        Locals::Unit(unit, _) => RecordVariable::Unit(unit, number),
        Locals::Routine(_, _, _) => RecordVariable::Own(number),
    }
}

/// A record of a `with`, for which the variable of this number stands, where it is built.
fn with_head(
    alloc: Global,
    locals: Locals<'_>,
    number: u32,
    of: u32,
    place: Option<TypedPlace>,
) -> Result<Option<WithRecord>, NoMemory>
    ensures { IfOk result (λ head. option_map with_record_of head
        ≡ spec.with_head (block_variable (locals_of locals.entry) number) of (option_map place_of place)) }
{
    let Some(place) = place else {
        return Ok(None);
    };
    let variable = members::block_variable(alloc, locals, number)?;
    Ok(Some(WithRecord {
        variable,
        of,
        place,
    }))
}

/// One more at the end, where all are built.
#[tactic(auto, using(crate::proofs::Nested::heads_more))]
fn one_after(
    heads: Option<WithRecords>,
    head: Option<WithRecord>,
) -> Result<Option<WithRecords>, NoMemory>
    ensures { IfOk result (λ all.
        option_map heads_of all ≡ spec.one_after (option_map heads_of heads) (option_map with_record_of head)) }
{
    match (heads, head) {
        (Some(mut heads), Some(head)) => {
            heads.push(head)?;
            Ok(Some(heads))
        }
        _ => Ok(None),
    }
}

/// What is named as a variable of a record type, by the structured types in view.
fn record_made<'a>(scopes: &View<'a>, variable: Typed) -> Result<RecordNamed<'a>, Refusal>
    requires { IsReading variable.access (option_map expr_of variable.form) }
    ensures { AnswersForm record_named_of result
        (record_accessed scopes.now variable.access (option_map expr_of variable.form) variable.kind) }
{
    let (Access::Variable(_, protection), Kind::Structured(of)) = (&variable.access, variable.kind)
    else {
        return Err(Refusal::Rule(rule::WITH_RECORD));
    };
    let protection = *protection;
    let Some(Composition::Record(fields)) = structure_of(scopes, of) else {
        return Err(Refusal::Rule(rule::WITH_RECORD));
    };
    Ok(RecordNamed {
        of,
        protection,
        fields,
        place: variable.into_place(),
    })
}

/// A `with` statement of its records and its body, in order.
#[tactic(auto, using(ep_typed::proofs::public::Statements::with_is))]
pub fn with_form(
    alloc: Global,
    line: Line,
    heads: Row<WithRecords>,
    body: Row<Boxed<TypedStmt>>,
) -> Row<Boxed<TypedStmt>>
    ensures { (x : Judgement (List tree.WithRecord)) (y : Judgement Stmt) → AnswersRow heads_of heads x
        → AnswersRow stmt_of body y → AnswersRow stmt_of result (after (tree.with_form line) x y) }
{
    match (heads?, body?) {
        (Admission::Passes(heads), Admission::Passes(body)) => {
            let form = Boxed::new(alloc, TypedStmt::With(line, heads, body))?;
            Ok(Admission::Passes(form))
        }
        (Admission::Waits(first), _) => Ok(Admission::Waits(first)),
        (_, Admission::Waits(first)) => Ok(Admission::Waits(first)),
    }
}

/// Whether a place of these records threatens a control variable.
fn places_threaten(heads: &[WithRecord], routines: &Callees<'_>, control: Entire<'_>) -> bool
    ensures { result ≡ heads_threat (callees_of routines.now) (entire_of control.entry)
        (map with_record_of heads.now) }
{
    for head in heads {
        if place_threatens(&head.place, routines, control) {
            return true;
        }
    }
    false
}

/// Whether one does threaten one of these.
fn places_threaten_one(
    heads: &[WithRecord],
    routines: &Callees<'_>,
    controls: &[Entire<'_>],
) -> bool
    ensures { result ≡ list_any (λ v. heads_threat (callees_of routines.now) v (map with_record_of heads.now))
        (map entire_of controls.now) }
{
    for control in controls {
        if places_threaten(heads, routines, *control) {
            return true;
        }
    }
    false
}

/// The record variable that an access denotes there.
pub fn named_record<'a>(
    alloc: Global,
    scopes: &View<'a>,
    inner: &Inner<'a>,
    access: &ep_tree::Access,
) -> Result<RecordNamed<'a>, Refusal>
    requires { access_unbuilt access.now ≡ None }
    ensures { AnswersForm record_named_of result (when_accepted
        (λ t. record_accessed scopes.now t.access t.form t.kind) (name_judged inner.now access.now)) }
{
    let view = inner.view();
    let variable = typed_access(alloc, access, &view)?;
    record_made(scopes, variable)
}

/// The records of a `with`, unless a place of them threatens one of these control variables.
pub fn unless_places_threaten(
    routines: &Routines<'_>,
    controls: &[Entire<'_>],
    heads: Option<WithRecords>,
) -> Result<Option<WithRecords>, Refusal>
    ensures { AnswersForm (option_map heads_of) result
        (unless_threatening (heads_threat (callees_among routines.now)) (map entire_of controls.now)
        (Accepts (option_map heads_of heads))) }
{
    let Some(records) = heads else {
        return Ok(None);
    };
    if places_threaten_one(records.items(), &routines.callees(), controls) {
        return Err(Refusal::Rule(rule::CONTROL_THREATENED));
    }
    Ok(Some(records))
}
