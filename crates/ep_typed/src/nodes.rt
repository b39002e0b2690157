//! The number of typed nodes, as specs/Nodes.antt says, at most the greatest `u64`. Nothing here takes memory.

ghost use Rattle.std.specs.Prelude.{◌≡◌, ◌∷◌, [], min, map, sum};
ghost use Rattle.ep_typed.specs.Nodes as nodes;
ghost use Rattle.ep_typed.specs.Parts as parts;
ghost use Rattle.ep_typed.specs.Viewed.{actual_of, arm_of, designator_of, element_of, entire_of, expr_of, item_of, place_of, stmt_of, with_record_of};
ghost use Rattle.ep_typed.specs.Trees as tree;
ghost use Rattle.ep_typed.specs.Trees.{stmts};
ghost use Rattle.ep_typed.specs.declared.tree.TypedStmt.{out-TypedStmt};

use crate::denoter::{Denoter, FieldPart, RecordField, Selector, Variant, VariantPart};
use crate::interface::{ConstantEntry, Formal, RoutineResult, SchemaFormal};
use crate::parts::parts_of;
use crate::tree::{
    Actual, CaseArm, Element, EntireVariable, MemberDesignator, TypedExpr, TypedPlace, TypedStmt,
    WithRecord, WriteItem,
};
use crate::unit::{Unit, UnitRoutine, UnitType, UnitVariable};
use crate::value::Value;

/// The typed nodes of a unit, at most the greatest `u64`. It takes no memory.
pub fn unit_nodes(u: &Unit) -> u64
    ensures { result ≡ min (nodes.unit_nodes u.now) u64.MAX }
{
    declared(u)
        .saturating_add(routines(u.routines.items()))
        .saturating_add(statement(&u.start))
        .saturating_add(statement(&u.stop))
}

/// The nodes of a unit's imports, types, constants and variables.
fn declared(u: &Unit) -> u64
    ensures { result ≡ min (nodes.declared_nodes u.now) u64.MAX }
{
    (u.imports.items().len() as u64)
        .saturating_add(types(u.types.items()))
        .saturating_add(constants(u.constants.items()))
        .saturating_add(variables(u.variables.items()))
}

fn types(all: &[UnitType]) -> u64
    ensures { result ≡ min (sum (map nodes.type_nodes all.now)) u64.MAX }
{
    let mut total = 0;
    for t in all {
        total = type_of_unit(t).saturating_add(total);
    }
    total
}

fn type_of_unit(t: &UnitType) -> u64
    ensures { result ≡ min (nodes.type_nodes t.now) u64.MAX }
{
    schema_formals(t.entry.formals.items()).saturating_add(denoter(&t.entry.denoter))
}

fn schema_formals(all: &[SchemaFormal]) -> u64
    ensures { result ≡ min (sum (map nodes.schema_formal_nodes all.now)) u64.MAX }
{
    let mut total = 0;
    for formal in all {
        total = denoter(&formal.denoter)
            .saturating_add(1)
            .saturating_add(total);
    }
    total
}

fn constants(all: &[ConstantEntry]) -> u64
    ensures { result ≡ min (sum (map nodes.constant_nodes all.now)) u64.MAX }
{
    let mut total = 0;
    for constant in all {
        total = constant_of_unit(constant).saturating_add(total);
    }
    total
}

fn constant_of_unit(c: &ConstantEntry) -> u64
    ensures { result ≡ min (nodes.constant_nodes c.now) u64.MAX }
{
    denoter(&c.denoter).saturating_add(value(&c.value))
}

fn value(v: &Value) -> u64
    ensures { result ≡ min (nodes.value_nodes v.now) u64.MAX }
{
    match v {
        Value::Word(_) => 1,
        Value::Text(_) => 1,
        Value::Set(members) => (members.items().len() as u64).saturating_add(1),
        Value::Structured(_, given) => elements(given.get().items()).saturating_add(1),
    }
}

fn variables(all: &[UnitVariable]) -> u64
    ensures { result ≡ min (sum (map nodes.variable_nodes all.now)) u64.MAX }
{
    let mut total = 0;
    for variable in all {
        total = variable_of_unit(variable).saturating_add(total);
    }
    total
}

fn variable_of_unit(v: &UnitVariable) -> u64
    ensures { result ≡ min (nodes.variable_nodes v.now) u64.MAX }
{
    denoter(&v.denoter)
        .saturating_add(1)
        .saturating_add(expressions(v.tuple.items()))
}

fn routines(all: &[UnitRoutine]) -> u64
    ensures { result ≡ min (sum (map nodes.routine_nodes all.now)) u64.MAX }
{
    let mut total = 0;
    for r in all {
        total = routine(r).saturating_add(total);
    }
    total
}

fn routine(r: &UnitRoutine) -> u64
    ensures { result ≡ min (nodes.routine_nodes r.now) u64.MAX }
{
    heading(r.formals.items(), &r.result)
        .saturating_add(variables(r.variables.items()))
        .saturating_add(statement(&r.block))
}

/// The nodes of a routine's heading.
fn heading(all: &[Formal], of: &Option<RoutineResult>) -> u64
    ensures { result ≡ min (nodes.heading_nodes all.now of.now) u64.MAX }
{
    formals(all)
        .saturating_add(result_of_routine(of))
        .saturating_add(1)
}

fn formals(all: &[Formal]) -> u64
    ensures { result ≡ min (sum (map nodes.formal_nodes all.now)) u64.MAX }
{
    let mut total = 0;
    for formal in all {
        total = denoter(&formal.denoter)
            .saturating_add(1)
            .saturating_add(total);
    }
    total
}

fn result_of_routine(r: &Option<RoutineResult>) -> u64
    ensures { result ≡ min (nodes.result_nodes r.now) u64.MAX }
{
    match r {
        None => 0,
        Some(r) => denoter(&r.denoter),
    }
}

#[cycle(denoters)]
fn denoter(d: &Denoter) -> u64
    ensures { result ≡ min (nodes.denoter_nodes d.now) u64.MAX }
{
    match d {
        Denoter::Required(_) | Denoter::Enumeration(_) => 1,
        Denoter::Named(_, tuple) => (tuple.items().len() as u64).saturating_add(1),
        Denoter::Subrange(host, _, _) => denoter(host.get()).saturating_add(3),
        Denoter::Array(index, component) => denoter(index.get())
            .saturating_add(denoter(component.get()))
            .saturating_add(1),
        Denoter::Record(part) => field_part(part).saturating_add(1),
        Denoter::Set(base) => denoter(base.get()).saturating_add(1),
        Denoter::Initial(of, start) => denoter(of.get())
            .saturating_add(value(start))
            .saturating_add(1),
    }
}

#[cycle(denoters)]
fn field_part(part: &FieldPart) -> u64
    ensures { result ≡ min (nodes.part_nodes part.now) u64.MAX }
{
    let behind = match &part.variant_part {
        None => 0,
        Some(part) => variant_part(part.get()),
    };
    fields(part.fields.items()).saturating_add(behind)
}

#[cycle(denoters)]
fn fields(all: &[RecordField]) -> u64
    ensures { result ≡ min (sum (map nodes.field_nodes all.now)) u64.MAX }
{
    let mut total = 0;
    for f in all {
        total = field(f).saturating_add(total);
    }
    total
}

#[cycle(denoters)]
fn field(f: &RecordField) -> u64
    ensures { result ≡ min (nodes.field_nodes f.now) u64.MAX }
{
    denoter(&f.denoter)
}

#[cycle(denoters)]
fn variant_part(part: &VariantPart) -> u64
    ensures { result ≡ min (nodes.variant_part_nodes part.now) u64.MAX }
{
    let completing = match &part.completing {
        None => 0,
        Some(part) => field_part(part.get()),
    };
    selector(&part.selector)
        .saturating_add(variants(part.variants.items()))
        .saturating_add(completing)
}

#[cycle(denoters)]
fn selector(s: &Selector) -> u64
    ensures { result ≡ min (nodes.selector_nodes s.now) u64.MAX }
{
    match s {
        Selector::Tag(_, of) => denoter(of.get()),
    }
}

#[cycle(denoters)]
fn variants(all: &[Variant]) -> u64
    ensures { result ≡ min (sum (map nodes.variant_nodes all.now)) u64.MAX }
{
    let mut total = 0;
    for v in all {
        total = variant(v).saturating_add(total);
    }
    total
}

#[cycle(denoters)]
fn variant(v: &Variant) -> u64
    ensures { result ≡ min (nodes.variant_nodes v.now) u64.MAX }
{
    (v.ranges.items().len() as u64)
        .saturating_mul(3)
        .saturating_add(field_part(&v.part))
}

#[cycle(statements)]
#[tactic(auto, using(crate::proofs::Walks::stmt_nodes_is))]
fn statement(s: &TypedStmt) -> u64
    ensures { result ≡ min (nodes.stmt_nodes (stmt_of s.now)) u64.MAX }
{
    let parts = parts_of(s);
    own_nodes(s)
        .saturating_add(statements(parts.first))
        .saturating_add(arms(parts.arms))
        .saturating_add(statements(parts.last))
}

/// The nodes of a statement that are in no statement of it.
fn own_nodes(s: &TypedStmt) -> u64
    ensures { result ≡ min (parts.own_nodes (out-TypedStmt s.now)) u64.MAX }
{
    match s {
        TypedStmt::Empty | TypedStmt::Halt(_) | TypedStmt::Compound(_) => 1,
        TypedStmt::Procedure(_, _, given) => actuals(given.items()).saturating_add(1),
        TypedStmt::Assign(_, p, value) => {
            place(p)
                .saturating_add(expression(value.get()))
                .saturating_add(1)
        }
        TypedStmt::AssignTag(_, _, p, selection, value) => {
            place(p)
                .saturating_add(selection.nodes())
                .saturating_add(expression(value.get()))
                .saturating_add(2)
        }
        TypedStmt::If(_, condition, _, _)
        | TypedStmt::While(_, condition, _)
        | TypedStmt::Repeat(_, _, condition)
        | TypedStmt::Case(_, condition, _, _) => expression(condition.get()).saturating_add(1),
        TypedStmt::ForIn(_, control, set, _) => {
            entire(&control.get().variable)
                .saturating_add(expression(set.get()))
                .saturating_add(1)
        }
        TypedStmt::For(_, control, initial, last, _) => {
            entire(&control.get().variable)
                .saturating_add(expression(initial.get()))
                .saturating_add(expression(last.get()))
                .saturating_add(1)
        }
        TypedStmt::With(_, all, _) => records(all.items()),
        TypedStmt::Write(_, all, _) => items(all.items()).saturating_add(1),
    }
}

#[cycle(statements)]
fn statements(all: &[TypedStmt]) -> u64
    ensures { result ≡ min (nodes.stmts_nodes (stmts (map stmt_of all.now))) u64.MAX }
{
    let mut total = 0;
    for s in all {
        total = statement(s).saturating_add(total);
    }
    total
}

#[cycle(statements)]
fn arms(all: &[CaseArm]) -> u64
    ensures { result ≡ min (nodes.arms_nodes (tree.arms (map arm_of all.now))) u64.MAX }
{
    let mut total = 0;
    for a in all {
        total = arm(a).saturating_add(total);
    }
    total
}

#[cycle(statements)]
fn arm(a: &CaseArm) -> u64
    ensures { result ≡ min (nodes.arm_nodes (arm_of a.now)) u64.MAX }
{
    (a.ranges.items().len() as u64)
        .saturating_mul(3)
        .saturating_add(statement(a.body.get()))
}

#[cycle(expressions)]
fn actuals(all: &[Actual]) -> u64
    ensures { result ≡ min (nodes.actuals_nodes (tree.actuals (map actual_of all.now))) u64.MAX }
{
    let mut total = 0;
    for a in all {
        total = actual(a).saturating_add(total);
    }
    total
}

#[cycle(expressions)]
fn actual(a: &Actual) -> u64
    ensures { result ≡ min (nodes.actual_nodes (actual_of a.now)) u64.MAX }
{
    match a {
        Actual::Value(value) => expression(value.get()),
        Actual::Variable(p) => place(p),
    }
}

/// The nodes of the records that a `with` opens.
fn records(all: &[WithRecord]) -> u64
    ensures { result ≡ min (nodes.with_nodes (map with_record_of all.now)) u64.MAX }
{
    let mut total = 0;
    for r in all {
        total = record(r).saturating_add(total);
    }
    total
}

fn record(r: &WithRecord) -> u64
    ensures { result ≡ min (nodes.with_nodes (with_record_of r.now ∷ [])) u64.MAX }
{
    place(&r.place).saturating_add(1)
}

fn items(all: &[WriteItem]) -> u64
    ensures { result ≡ min (nodes.items_nodes (map item_of all.now)) u64.MAX }
{
    let mut total = 0;
    for i in all {
        total = item(i).saturating_add(total);
    }
    total
}

fn item(i: &WriteItem) -> u64
    ensures { result ≡ min (nodes.item_nodes (item_of i.now)) u64.MAX }
{
    match &i.width {
        None => expression(i.value.get()),
        Some(width) => expression(i.value.get()).saturating_add(expression(width.get())),
    }
}

#[cycle(expressions)]
fn place(p: &TypedPlace) -> u64
    ensures { result ≡ min (nodes.place_nodes (place_of p.now)) u64.MAX }
{
    match p {
        TypedPlace::Variable(_, _) | TypedPlace::Own(_, _) | TypedPlace::Standard(_) => 1,
        TypedPlace::Indexed(array, index) => {
            place(array.get())
                .saturating_add(expression(index.get()))
                .saturating_add(1)
        }
        TypedPlace::Field(whole, _) => place(whole.get()).saturating_add(1),
        TypedPlace::Variant(whole, selection, _) => {
            place(whole.get())
                .saturating_add(selection.nodes())
                .saturating_add(1)
        }
    }
}

/// The nodes of the place of an entire variable.
fn entire(variable: &EntireVariable) -> u64
    ensures { result ≡ min (nodes.place_nodes (tree.entire (entire_of variable.now))) u64.MAX }
{
    match variable {
        EntireVariable::Unit(_, _) | EntireVariable::Own(_, _) => 1,
    }
}

fn expressions(all: &[TypedExpr]) -> u64
    ensures { result ≡ min (sum (map nodes.typed_expr_nodes all.now)) u64.MAX }
{
    let mut total = 0;
    for x in all {
        total = expression(x).saturating_add(total);
    }
    total
}

#[cycle(expressions)]
fn expression(x: &TypedExpr) -> u64
    ensures { result ≡ min (nodes.expr_nodes (expr_of x.now)) u64.MAX }
{
    match x {
        TypedExpr::Constant(_) | TypedExpr::Text(_) => 2,
        TypedExpr::Read(p) => place(p).saturating_add(1),
        TypedExpr::Unary(_, operand) => expression(operand.get()).saturating_add(1),
        TypedExpr::Binary(_, left, right) => {
            expression(left.get())
                .saturating_add(expression(right.get()))
                .saturating_add(1)
        }
        TypedExpr::Short(_, left, right) => {
            expression(left.get())
                .saturating_add(expression(right.get()))
                .saturating_add(1)
        }
        TypedExpr::Step(_, _, _, value, count) => {
            expression(value.get())
                .saturating_add(expression(count.get()))
                .saturating_add(1)
        }
        TypedExpr::Function(_, given) => actuals(given.items()).saturating_add(1),
        TypedExpr::IndexedValue(array, index) => {
            expression(array.get())
                .saturating_add(expression(index.get()))
                .saturating_add(1)
        }
        TypedExpr::FieldValue(whole, _) => expression(whole.get()).saturating_add(1),
        TypedExpr::VariantValue(whole, selection, _) => expression(whole.get())
            .saturating_add(selection.nodes())
            .saturating_add(1),
        TypedExpr::SetConstant(members) => (members.items().len() as u64).saturating_add(2),
        TypedExpr::Set(members) => designators(members.items()).saturating_add(1),
        TypedExpr::OnSets(_, left, right) => {
            expression(left.get())
                .saturating_add(expression(right.get()))
                .saturating_add(1)
        }
        TypedExpr::Card(operand) => expression(operand.get()).saturating_add(1),
        TypedExpr::Structured(_, given) => elements(given.get().items()).saturating_add(1),
    }
}

#[cycle(expressions)]
fn designators(all: &[MemberDesignator]) -> u64
    ensures { result ≡ min (nodes.designators_nodes (tree.designators (map designator_of all.now))) u64.MAX }
{
    let mut total = 0;
    for d in all {
        total = designator(d).saturating_add(total);
    }
    total
}

#[cycle(expressions)]
fn designator(d: &MemberDesignator) -> u64
    ensures { result ≡ min (nodes.designator_nodes (designator_of d.now)) u64.MAX }
{
    match d {
        MemberDesignator::Single(value) => expression(value.get()),
        MemberDesignator::Range(first, last) => {
            expression(first.get()).saturating_add(expression(last.get()))
        }
    }
}

#[cycle(expressions)]
fn elements(all: &[Element]) -> u64
    ensures { result ≡ min (nodes.elements_nodes (tree.elements (map element_of all.now))) u64.MAX }
{
    let mut total = 0;
    for e in all {
        total = element(e).saturating_add(total);
    }
    total
}

#[cycle(expressions)]
fn element(e: &Element) -> u64
    ensures { result ≡ min (nodes.element_nodes (element_of e.now)) u64.MAX }
{
    match e {
        Element::AtIndex(index, value) => {
            expression(index.get()).saturating_add(expression(value.get()))
        }
        Element::AtField(steps, value) => {
            (steps.items().len() as u64).saturating_add(expression(value.get()))
        }
        Element::SameField(from, to) => {
            (from.items().len() as u64)
                .saturating_add(to.items().len() as u64)
                .saturating_add(1)
        }
        Element::AtRanges(ranges, value) => (ranges.items().len() as u64)
            .saturating_mul(3)
            .saturating_add(expression(value.get())),
        Element::AtIndexes(indexes, value) => designators_count(indexes.items())
            .saturating_add(designators(indexes.items()))
            .saturating_add(expression(value.get())),
    }
}

/// How many designators these are.
#[tactic(auto, using(crate::proofs::public::DesignatorCounts::counted))]
fn designators_count(all: &[MemberDesignator]) -> u64
    ensures { result ≡ nodes.designators_count (tree.designators (map designator_of all.now)) }
{
    all.len() as u64
}
