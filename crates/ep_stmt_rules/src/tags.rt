//! Assignments to tags (ISO 10206, 6.5.3.3), and whether the statements of a block have such ones, as specs/Tags.antt says.

ghost use Rattle.std.specs.Prelude.{◌≡◌, IfOk, map};
ghost use Rattle.std.specs.Option.{option_copied};
ghost use Rattle.ep_scope.specs.Meanings.{meant_by};
ghost use Rattle.ep_scope.specs.Scopes.{meant_in};
ghost use Rattle.ep_tree.specs.declared.expression.Selector.{out-Selector};
ghost use Rattle.ep_typed.specs.Viewed as viewed;
ghost use Rattle.ep_typed.specs.Viewed.{expr_of, stmt_of};
ghost use Rattle.ep_stmt_rules.specs.Answers.{locals_of, receiver_of};
ghost use Rattle.ep_stmt_rules.specs.Statements as statements;
ghost use Rattle.ep_stmt_rules.specs.Statements.{initial_variable};
ghost use Rattle.ep_stmt_rules.specs.Tags as spec;

use crate::statements::Locals;
use crate::targets::Receiver;
use ep_base::{Boxed, Line, Name, NoMemory};
use ep_scope::{
    Composition, Declaration, FieldType, Inner, Kind, Meaning, OpenRecord, Protection,
    RecordVariable, View, field_number, meaning_in, meaning_of, structure_of,
};
use ep_tree::{Access, Arm, Compound, Expression, Selector, Statement};
use ep_typed::{EntireVariable, TagControl, TypedExpr, TypedStmt};
use std::alloc::Global;

// ---- assignments

/// The variable of a block that has the value which a tag is to have: the first auxiliary one.
fn value_variable(alloc: Global, locals: Locals<'_>) -> Result<EntireVariable, NoMemory>
    ensures { IfOk result (λ v. viewed.entire_of v ≡ initial_variable (locals_of locals.entry)) }
{
    match locals {
        Locals::Unit(unit, number) => Ok(EntireVariable::Unit(unit.copy(alloc)?, number)),
        Locals::Routine(_, _, number) => Ok(EntireVariable::Own(0, number)),
    }
}

/// An assignment to the variable at a place, or to a tag.
pub fn assignment(
    alloc: Global,
    locals: Locals<'_>,
    line: Line,
    receiver: Receiver,
    value: Boxed<TypedExpr>,
) -> Result<Boxed<TypedStmt>, NoMemory>
    ensures { IfOk result (λ s.
        stmt_of s ≡ statements.assignment (locals_of locals.entry) line (receiver_of receiver) (expr_of value)) }
{
    match receiver {
        Receiver::At(place) => Boxed::new(alloc, TypedStmt::Assign(line, place, value)),
        Receiver::TagOf(whole, tag) => {
            let control = TagControl {
                value: value_variable(alloc, locals)?,
                low: tag.low,
                high: tag.high,
            };
            let control = Boxed::new(alloc, control)?;
            let selection = tag.selection.share()?;
            let form = TypedStmt::AssignTag(line, control, whole, selection, value);
            Boxed::new(alloc, form)
        }
    }
}

// ---- what an access names

/// What an access names: its kind, and whether it is a tag.
#[derive(Clone, Copy)]
pub struct Reached {
    /// The kind.
    pub kind: Kind,
    /// Whether it is a tag.
    pub is_tag: bool,
}

/// What is no tag.
fn of_kind(kind: Kind) -> Reached
    ensures { result ≡ spec.of_kind kind }
{
    Reached {
        kind,
        is_tag: false,
    }
}

/// A field of a record.
fn of_field(field: &FieldType) -> Reached
    ensures { result ≡ spec.of_field field.now }
{
    Reached {
        kind: field.kind,
        is_tag: field.tag.is_some(),
    }
}

/// What is named by a name that means this.
fn name_reached(meaning: Meaning<'_>) -> Option<Reached>
    ensures { result ≡ spec.name_reached (meant_by meaning.entry) }
{
    match meaning {
        Meaning::Declared(declared) => match &declared.what {
            Declaration::Variable(_, kind, _) | Declaration::Own(_, kind, _) => {
                Some(of_kind(*kind))
            }
            _ => None,
        },
        Meaning::Field(field) => Some(of_field(field.field)),
        _ => None,
    }
}

/// What a structured type is made of.
fn composition_of<'a>(scopes: &View<'a>, kind: Kind) -> Option<&'a Composition>
    ensures { option_copied result ≡ spec.composition_of scopes.now kind }
{
    match kind {
        Kind::Structured(number) => structure_of(scopes, number),
        _ => None,
    }
}

/// A component of what is named, where it is an array.
fn component(scopes: &View<'_>, reached: Reached) -> Option<Reached>
    ensures { result ≡ spec.component_reached (spec.composition_of scopes.now reached.kind) }
{
    match composition_of(scopes, reached.kind)? {
        Composition::Array(array) => Some(of_kind(array.kind)),
        Composition::Record(_) => None,
    }
}

/// A component of what is named, for each index.
fn indexed(scopes: &View<'_>, indexes: &[Expression], first: Option<Reached>) -> Option<Reached>
    ensures { result ≡ spec.indexed scopes.now indexes.now first }
{
    let mut reached = first;
    for _index in indexes {
        reached = match reached {
            None => None,
            Some(array) => component(scopes, array),
        };
    }
    reached
}

/// A field of what is named, where it is a record.
fn designated(scopes: &View<'_>, name: &Name, reached: Option<Reached>) -> Option<Reached>
    ensures { result ≡ spec.designated scopes.now name.now reached }
{
    let Composition::Record(fields) = composition_of(scopes, reached?.kind)? else {
        return None;
    };
    let place = field_number(fields, name)?;
    let field = fields.items().get(place)?;
    Some(of_field(field))
}

/// What is named, with a selector behind it.
fn selected(scopes: &View<'_>, selector: &Selector, reached: Option<Reached>) -> Option<Reached>
    ensures { result ≡ spec.selected_by scopes.now (out-Selector selector.now) reached }
{
    match selector {
        Selector::Field(_, name) => designated(scopes, name, reached),
        Selector::Index(_, indexes) => indexed(scopes, indexes.items(), reached),
        _ => None,
    }
}

/// What is named, with selectors behind it.
fn selected_all(
    scopes: &View<'_>,
    selectors: &[Selector],
    first: Option<Reached>,
) -> Option<Reached>
    ensures { result ≡ spec.selected_all scopes.now selectors.now first }
{
    let mut reached = first;
    for selector in selectors {
        reached = selected(scopes, selector, reached);
    }
    reached
}

/// `i.a`, a name that an interface has, or else a field.
fn constituent_or_field(scopes: &View<'_>, first: &Name, second: &Name) -> Option<Reached>
    ensures { result ≡ spec.constituent_or_field scopes.now first.now second.now
        (meant_in scopes.now first.now second.now) }
{
    match meaning_in(scopes, first, second) {
        Meaning::Nothing => designated(scopes, second, name_reached(meaning_of(scopes, first))),
        within => name_reached(within),
    }
}

/// What an access names.
fn access_reached(scopes: &View<'_>, access: &Access) -> Option<Reached>
    ensures { result ≡ spec.access_reached scopes.now access.now }
{
    match access.selectors.items().split_first() {
        Some((Selector::Field(_, field), more)) => {
            let first = constituent_or_field(scopes, &access.name, field);
            selected_all(scopes, more, first)
        }
        _ => {
            let first = name_reached(meaning_of(scopes, &access.name));
            selected_all(scopes, access.selectors.items(), first)
        }
    }
}

/// Whether it is a tag.
fn is_tag(scopes: &View<'_>, access: &Access) -> bool
    ensures { result ≡ spec.is_tag scopes.now access.now }
{
    match access_reached(scopes, access) {
        None => false,
        Some(reached) => reached.is_tag,
    }
}

// ---- statements

/// What is in view where the record that an access names is open besides, whatever variable stands for it.
fn record_within<'a>(
    alloc: Global,
    scopes: &View<'a>,
    access: &Access,
    inner: Inner<'a>,
) -> Result<Inner<'a>, NoMemory>
    ensures { IfOk result (λ now. now ≡ spec.record_within scopes.now access.now inner.entry) }
{
    let Some(reached) = access_reached(&inner.view(), access) else {
        return Ok(inner);
    };
    let Some(Composition::Record(fields)) = composition_of(scopes, reached.kind) else {
        return Ok(inner);
    };
    let record = OpenRecord {
        variable: RecordVariable::Own(0),
        protection: Protection::Unprotected,
        fields,
    };
    inner.within(alloc, record)
}

/// What is in view where all these records are.
fn records_within<'a>(
    alloc: Global,
    scopes: &View<'a>,
    accesses: &[Access],
) -> Result<Inner<'a>, NoMemory>
    ensures { IfOk result (λ now. now ≡ spec.records_within scopes.now accesses.now scopes.now) }
{
    let mut inner = scopes.inner(alloc)?;
    for access in accesses {
        inner = record_within(alloc, scopes, access, inner)?;
    }
    Ok(inner)
}

/// Whether a statement part has an assignment to a tag, in view of these scopes.
pub fn assigns_tag(
    alloc: Global,
    scopes: &View<'_>,
    statements: &Compound,
) -> Result<bool, NoMemory>
    ensures { IfOk result (λ assigns. assigns ≡ spec.assigns_tag scopes.now statements.now) }
{
    compound_assigns(statements, alloc, scopes)
}

// Below, the tree stands first, since a walk is shown to end by its first parameter whose type contains itself.

#[cycle(tag_assignments)]
fn compound_assigns(c: &Compound, alloc: Global, scopes: &View<'_>) -> Result<bool, NoMemory>
    ensures { IfOk result (λ assigns. assigns ≡ spec.compound_assigns c.now scopes.now) }
{
    any_assigns(c.statements.items(), alloc, scopes)
}

#[cycle(tag_assignments)]
fn any_assigns(all: &[Statement], alloc: Global, scopes: &View<'_>) -> Result<bool, NoMemory>
    ensures { IfOk result (λ assigns. assigns ≡ spec.any_assigns (map spec.statement_assigns all.now) scopes.now) }
{
    for s in all {
        if statement_assigns(s, alloc, scopes)? {
            return Ok(true);
        }
    }
    Ok(false)
}

#[cycle(tag_assignments)]
fn statement_assigns(s: &Statement, alloc: Global, scopes: &View<'_>) -> Result<bool, NoMemory>
    ensures { IfOk result (λ assigns. assigns ≡ spec.statement_assigns s.now scopes.now) }
{
    match s {
        Statement::Empty(_) | Statement::Call(_, _) => Ok(false),
        Statement::Assignment(_, access, _) => Ok(is_tag(scopes, access)),
        Statement::Compound(c) => compound_assigns(c, alloc, scopes),
        Statement::If(_, _, then, None) => statement_assigns(then.get(), alloc, scopes),
        Statement::If(_, _, then, Some(other)) => {
            Ok(
                statement_assigns(then.get(), alloc, scopes)?
                    || statement_assigns(other.get(), alloc, scopes)?,
            )
        }
        Statement::Case(_, _, arms, None) => any_arm_assigns(arms.items(), alloc, scopes),
        Statement::Case(_, _, arms, Some(other)) => {
            Ok(
                any_arm_assigns(arms.items(), alloc, scopes)?
                    || any_assigns(other.statements.items(), alloc, scopes)?,
            )
        }
        Statement::Repeat(_, all, _) => any_assigns(all.items(), alloc, scopes),
        Statement::While(_, _, body) => statement_assigns(body.get(), alloc, scopes),
        Statement::For(_, _, _, _, _, body) => statement_assigns(body.get(), alloc, scopes),
        Statement::ForIn(_, _, _, body) => statement_assigns(body.get(), alloc, scopes),
        Statement::With(_, accesses, body) => {
            let inner = records_within(alloc, scopes, accesses.items())?;
            statement_assigns(body.get(), alloc, &inner.view())
        }
    }
}

#[cycle(tag_assignments)]
fn any_arm_assigns(all: &[Arm], alloc: Global, scopes: &View<'_>) -> Result<bool, NoMemory>
    ensures { IfOk result (λ assigns. assigns ≡ spec.any_assigns (map spec.arm_assigns all.now) scopes.now) }
{
    for a in all {
        if statement_assigns(a.body.get(), alloc, scopes)? {
            return Ok(true);
        }
    }
    Ok(false)
}
