//! The code of places, expressions and calls.

ghost use Rattle.std.specs.Prelude.{OnOk, map};
ghost use Rattle.ep_typed.specs.Trees as tree;
ghost use Rattle.ep_typed.specs.Trees.{entire, AtField, AtIndex, AtIndexes, AtRanges, Card, Constant, Field, FieldValue, Function, Indexed, IndexedValue, One, OnSets, Own, Range, Read, SameField, SetConstant, SetOf, Short, Single, Step, Structured, Text, Two, Variable, Variant, VariantValue};
ghost use Rattle.ep_typed.specs.Viewed.{actual_of, callee_of, designator_of, element_of, entire_of, expr_of, place_of};
ghost use Rattle.ep_gen_expr.specs.Growth.{AppendsActual, AppendsActuals, AppendsDesignator, AppendsElement, AppendsElements, AppendsExpr, AppendsIndexes, AppendsPlace, AppendsRange};

use crate::operations::{apply_binary, apply_on_sets, apply_step, apply_unary, keep_operand};
use crate::standard::standard_code;
use crate::structured::{
    begin_structured, end_structured, fill_ranges, reach_field, reach_first, same_field,
    spread_values, test_range,
};
use crate::tables::{reference_number, text_number};
use crate::variants::{active_code, active_part_code};
use ep_base::{Name, NoMemory};
use ep_gen_code::{Code, emit, land, next_place};
use ep_object::op;
use ep_typed::{
    Actual, Callee, CaseRange, Element, EntireVariable, MemberDesignator, Selection, TypedExpr,
    TypedPlace,
};
use ep_values::{Binary, SetOperation, ShortOperation, Unary};
use std::alloc::Global;

/// Appends the code of a place, which leaves the place.
#[cycle(expression)]
#[tactic(auto, using(crate::proofs::Forms::forms))]
pub fn place_code(alloc: Global, p: &TypedPlace, code: &mut Code) -> Result<(), NoMemory>
    ensures { OnOk result (AppendsPlace code.old code.new (place_of p.now)) }
{
    match p {
        TypedPlace::Variable(unit, number) => variable_code(alloc, unit, *number, code),
        TypedPlace::Own(levels, number) => own_code(*levels, *number, code),
        TypedPlace::Standard(file) => standard_code(*file, code),
        TypedPlace::Indexed(array, index) => index_code(alloc, array.get(), index.get(), code),
        TypedPlace::Field(variable, number) => field_code(alloc, variable.get(), *number, code),
        TypedPlace::Variant(whole, selection, number) => {
            variant_code(alloc, whole.get(), selection.get(), *number, code)
        }
    }
}

/// Appends the code of an entire variable, which leaves its place.
pub fn entire_code(alloc: Global, v: &EntireVariable, code: &mut Code) -> Result<(), NoMemory>
    ensures { OnOk result (AppendsPlace code.old code.new (entire (entire_of v.now))) }
{
    match v {
        EntireVariable::Unit(unit, number) => variable_code(alloc, unit, *number, code),
        EntireVariable::Own(levels, number) => own_code(*levels, *number, code),
    }
}

/// Appends the code of a variable.
#[tactic(auto, using(crate::proofs::Forms::forms))]
fn variable_code(alloc: Global, unit: &Name, number: u32, code: &mut Code) -> Result<(), NoMemory>
    ensures { OnOk result (AppendsPlace code.old code.new (Variable unit.now number)) }
{
    let place = reference_number(alloc, unit, number, code)?;
    emit(code, op::UNIT, place as i64, 0)
}

/// Appends the code of a variable of the routine so many levels up, in whose frame it has a slot.
#[tactic(auto, using(crate::proofs::Forms::forms))]
fn own_code(levels: u32, number: u32, code: &mut Code) -> Result<(), NoMemory>
    ensures { OnOk result (AppendsPlace code.old code.new (Own levels number)) }
{
    emit(code, op::SLOT, number as i64, levels)
}

/// Appends the code of the component of an array at an index (ISO 10206, 6.5.3.2).
#[cycle(expression)]
#[tactic(auto, using(crate::proofs::Forms::forms))]
fn index_code(
    alloc: Global,
    array: &TypedPlace,
    index: &TypedExpr,
    code: &mut Code,
) -> Result<(), NoMemory>
    ensures { OnOk result (AppendsPlace code.old code.new (Indexed (place_of array.now) (expr_of index.now))) }
{
    place_code(alloc, array, code)?;
    expression_code(alloc, index, code)?;
    emit(code, op::INDEX, 0, 0)
}

/// Appends the code of the component of a record with this number (ISO 10206, 6.5.3.3).
#[cycle(expression)]
#[tactic(auto, using(crate::proofs::Forms::forms))]
fn field_code(
    alloc: Global,
    variable: &TypedPlace,
    number: u32,
    code: &mut Code,
) -> Result<(), NoMemory>
    ensures { OnOk result (AppendsPlace code.old code.new (Field (place_of variable.now) number)) }
{
    place_code(alloc, variable, code)?;
    emit(code, op::FIELD, number as i64, 0)
}

/// Appends the code of the variant of a record with this number (ISO 10206, 6.5.3.3).
#[cycle(expression)]
#[tactic(auto, using(crate::proofs::Forms::forms))]
fn variant_code(
    alloc: Global,
    whole: &TypedPlace,
    selection: &Selection,
    number: u32,
    code: &mut Code,
) -> Result<(), NoMemory>
    ensures { OnOk result (AppendsPlace code.old code.new (Variant (place_of whole.now) selection.now number)) }
{
    place_code(alloc, whole, code)?;
    active_code(selection, number, code)
}

/// Appends the code of an expression, which leaves its value.
#[cycle(expression)]
pub fn expression_code(alloc: Global, e: &TypedExpr, code: &mut Code) -> Result<(), NoMemory>
    ensures { OnOk result (AppendsExpr code.old code.new (expr_of e.now)) }
{
    match e {
        TypedExpr::Constant(value) => constant_code(*value, code),
        TypedExpr::Text(bytes) => text_code(alloc, bytes.items(), code),
        TypedExpr::Read(place) => read_code(alloc, place, code),
        TypedExpr::Unary(operation, operand) => unary_code(alloc, *operation, operand.get(), code),
        TypedExpr::Binary(operation, left, right) => {
            binary_code(alloc, *operation, left.get(), right.get(), code)
        }
        TypedExpr::Short(operation, left, right) => {
            short_code(alloc, *operation, left.get(), right.get(), code)
        }
        TypedExpr::Step(down, low, high, value, count) => {
            step_code(alloc, *down, *low, *high, value.get(), count.get(), code)
        }
        TypedExpr::Function(callee, given) => call_code(alloc, callee, given.items(), code),
        TypedExpr::IndexedValue(array, index) => {
            indexed_value_code(alloc, array.get(), index.get(), code)
        }
        TypedExpr::FieldValue(whole, number) => {
            field_value_code(alloc, whole.get(), *number, code)
        }
        TypedExpr::VariantValue(whole, selection, number) => {
            variant_value_code(alloc, whole.get(), selection.get(), *number, code)
        }
        TypedExpr::SetConstant(members) => set_constant_code(members.items(), code),
        TypedExpr::Set(members) => constructor_code(alloc, members.items(), code),
        TypedExpr::OnSets(operation, left, right) => {
            on_sets_code(alloc, *operation, left.get(), right.get(), code)
        }
        TypedExpr::Card(operand) => card_code(alloc, operand.get(), code),
        TypedExpr::Structured(number, elements) => {
            structured_code(alloc, *number, elements.get().items(), code)
        }
    }
}

/// Appends the code of a constant.
#[tactic(auto, using(crate::proofs::Forms::forms))]
pub(crate) fn constant_code(value: i64, code: &mut Code) -> Result<(), NoMemory>
    ensures { OnOk result (AppendsExpr code.old code.new (Constant value)) }
{
    emit(code, op::PUSH, value, 0)
}

/// Appends the code of a text constant.
#[tactic(auto, using(crate::proofs::Forms::forms))]
fn text_code(alloc: Global, bytes: &[u8], code: &mut Code) -> Result<(), NoMemory>
    ensures { OnOk result (AppendsExpr code.old code.new (Text bytes.now)) }
{
    let place = text_number(alloc, bytes, code)?;
    emit(code, op::TEXT, place as i64, 0)
}

/// Appends the code of a variable's value.
#[cycle(expression)]
#[tactic(auto, using(crate::proofs::Forms::forms))]
fn read_code(alloc: Global, place: &TypedPlace, code: &mut Code) -> Result<(), NoMemory>
    ensures { OnOk result (AppendsExpr code.old code.new (Read (place_of place.now))) }
{
    place_code(alloc, place, code)?;
    emit(code, op::LOAD, 0, 0)
}

/// Appends the code of the value of an entire variable.
#[tactic(auto, using(crate::proofs::Forms::forms))]
pub fn entire_value_code(alloc: Global, v: &EntireVariable, code: &mut Code) -> Result<(), NoMemory>
    ensures { OnOk result (AppendsExpr code.old code.new (Read (entire (entire_of v.now)))) }
{
    entire_code(alloc, v, code)?;
    emit(code, op::LOAD, 0, 0)
}

/// Appends the code of an operation of one operand.
#[cycle(expression)]
#[tactic(auto, using(crate::proofs::Forms::forms))]
fn unary_code(
    alloc: Global,
    operation: Unary,
    operand: &TypedExpr,
    code: &mut Code,
) -> Result<(), NoMemory>
    ensures { OnOk result (AppendsExpr code.old code.new (One operation (expr_of operand.now))) }
{
    expression_code(alloc, operand, code)?;
    apply_unary(operation, code)
}

/// Appends the code of an operation of two operands.
#[cycle(expression)]
#[tactic(auto, using(crate::proofs::Forms::forms))]
fn binary_code(
    alloc: Global,
    operation: Binary,
    left: &TypedExpr,
    right: &TypedExpr,
    code: &mut Code,
) -> Result<(), NoMemory>
    ensures { OnOk result (AppendsExpr code.old code.new (Two operation (expr_of left.now) (expr_of right.now))) }
{
    expression_code(alloc, left, code)?;
    expression_code(alloc, right, code)?;
    apply_binary(operation, code)
}

/// Appends the code of an operation whose right operand is evaluated only where the left one decides nothing: the left
/// operand, which stays where it decides, the jump over the right one, and the right one.
#[cycle(expression)]
fn short_code(
    alloc: Global,
    operation: ShortOperation,
    left: &TypedExpr,
    right: &TypedExpr,
    code: &mut Code,
) -> Result<(), NoMemory>
    ensures { OnOk result (AppendsExpr code.old code.new (Short operation (expr_of left.now) (expr_of right.now))) }
{
    expression_code(alloc, left, code)?;
    let leave = keep_operand(operation, code)?;
    expression_code(alloc, right, code)?;
    let line = code.line;
    land(code, leave, op::JUMP_FALSE, line)
}

/// Appends the code of a step from a value by a count.
#[cycle(expression)]
#[tactic(auto, using(crate::proofs::Forms::forms))]
fn step_code(
    alloc: Global,
    down: bool,
    low: i64,
    high: i64,
    value: &TypedExpr,
    count: &TypedExpr,
    code: &mut Code,
) -> Result<(), NoMemory>
    ensures { OnOk result
        (AppendsExpr code.old code.new (Step down low high (expr_of value.now) (expr_of count.now))) }
{
    expression_code(alloc, value, code)?;
    expression_code(alloc, count, code)?;
    apply_step(down, low, high, code)
}

/// Appends the code of a call: the actual parameters, the call, and a jump to what comes next, which takes the tick for
/// the step that is spent when the call is done. It leaves what the routine gives: one value where it is a function.
#[cycle(expression)]
pub fn call_code(
    alloc: Global,
    callee: &Callee,
    given: &[Actual],
    code: &mut Code,
) -> Result<(), NoMemory>
    ensures { OnOk result (AppendsExpr code.old code.new
        (Function (callee_of callee.now) (tree.actuals (map actual_of given.now)))) }
{
    actuals_code(alloc, given, code)?;
    let routine = reference_number(alloc, &callee.unit, callee.number, code)?;
    emit(code, op::CALL, routine as i64, callee.levels)?;
    let next = next_place(code)? + 1;
    emit(code, op::JUMP, next as i64, 0)
}

/// Appends the code of the component at an index of an array that a function gives (ISO 10206, 6.8.6.2).
#[cycle(expression)]
#[tactic(auto, using(crate::proofs::Forms::forms))]
fn indexed_value_code(
    alloc: Global,
    array: &TypedExpr,
    index: &TypedExpr,
    code: &mut Code,
) -> Result<(), NoMemory>
    ensures { OnOk result (AppendsExpr code.old code.new (IndexedValue (expr_of array.now) (expr_of index.now))) }
{
    expression_code(alloc, array, code)?;
    expression_code(alloc, index, code)?;
    emit(code, op::INDEX, 0, 0)
}

/// Appends the code of the component with this number of a record that a function gives (ISO 10206, 6.8.6.3).
#[cycle(expression)]
#[tactic(auto, using(crate::proofs::Forms::forms))]
fn field_value_code(
    alloc: Global,
    whole: &TypedExpr,
    number: u32,
    code: &mut Code,
) -> Result<(), NoMemory>
    ensures { OnOk result (AppendsExpr code.old code.new (FieldValue (expr_of whole.now) number)) }
{
    expression_code(alloc, whole, code)?;
    emit(code, op::FIELD, number as i64, 0)
}

/// Appends the code of the variant with this number of a record that a function gives (ISO 10206, 6.8.6.3).
#[cycle(expression)]
#[tactic(auto, using(crate::proofs::Forms::forms))]
fn variant_value_code(
    alloc: Global,
    whole: &TypedExpr,
    selection: &Selection,
    number: u32,
    code: &mut Code,
) -> Result<(), NoMemory>
    ensures { OnOk result (AppendsExpr code.old code.new (VariantValue (expr_of whole.now) selection.now number)) }
{
    expression_code(alloc, whole, code)?;
    active_part_code(selection, number, code)
}

/// Appends the code of a constant that is a set: the empty set, to which each member is added.
fn set_constant_code(members: &[u8], code: &mut Code) -> Result<(), NoMemory>
    ensures { OnOk result (AppendsExpr code.old code.new (SetConstant members.now)) }
{
    emit(code, op::SET_NONE, 0, 0)?;
    for member in members {
        emit(code, op::PUSH, *member as i64, 0)?;
        emit(code, op::SET_ADD, 0, 0)?;
    }
    Ok(())
}

/// Appends the code of a set constructor: the empty set, and what each member designator adds to it.
#[cycle(expression)]
fn constructor_code(
    alloc: Global,
    members: &[MemberDesignator],
    code: &mut Code,
) -> Result<(), NoMemory>
    ensures { OnOk result (AppendsExpr code.old code.new (SetOf (tree.designators (map designator_of members.now)))) }
{
    emit(code, op::SET_NONE, 0, 0)?;
    for designator in members {
        designator_code(alloc, designator, code)?;
    }
    Ok(())
}

/// Appends the code of a member designator, which adds what it gives to the set on top.
#[cycle(expression)]
fn designator_code(
    alloc: Global,
    designator: &MemberDesignator,
    code: &mut Code,
) -> Result<(), NoMemory>
    ensures { OnOk result (AppendsDesignator code.old code.new (designator_of designator.now)) }
{
    match designator {
        MemberDesignator::Single(value) => single_code(alloc, value.get(), code),
        MemberDesignator::Range(first, last) => range_code(alloc, first.get(), last.get(), code),
    }
}

/// Appends the code of a value that is a member.
#[cycle(expression)]
#[tactic(auto, using(crate::proofs::SetForms::designator_forms))]
fn single_code(alloc: Global, value: &TypedExpr, code: &mut Code) -> Result<(), NoMemory>
    ensures { OnOk result (AppendsDesignator code.old code.new (Single (expr_of value.now))) }
{
    expression_code(alloc, value, code)?;
    emit(code, op::SET_ADD, 0, 0)
}

/// Appends the code of the first and the last of values that are members.
#[cycle(expression)]
#[tactic(auto, using(crate::proofs::SetForms::designator_forms))]
fn range_code(
    alloc: Global,
    first: &TypedExpr,
    last: &TypedExpr,
    code: &mut Code,
) -> Result<(), NoMemory>
    ensures { OnOk result (AppendsDesignator code.old code.new (Range (expr_of first.now) (expr_of last.now))) }
{
    expression_code(alloc, first, code)?;
    expression_code(alloc, last, code)?;
    emit(code, op::SET_SPAN, 0, 0)
}

/// Appends the code of an operation of two operands, of which the right one at least is a set.
#[cycle(expression)]
#[tactic(auto, using(crate::proofs::SetForms::set_forms))]
fn on_sets_code(
    alloc: Global,
    operation: SetOperation,
    left: &TypedExpr,
    right: &TypedExpr,
    code: &mut Code,
) -> Result<(), NoMemory>
    ensures { OnOk result (AppendsExpr code.old code.new (OnSets operation (expr_of left.now) (expr_of right.now))) }
{
    expression_code(alloc, left, code)?;
    expression_code(alloc, right, code)?;
    apply_on_sets(operation, code)
}

/// Appends the code of the number of a set's members.
#[cycle(expression)]
#[tactic(auto, using(crate::proofs::SetForms::set_forms))]
fn card_code(alloc: Global, operand: &TypedExpr, code: &mut Code) -> Result<(), NoMemory>
    ensures { OnOk result (AppendsExpr code.old code.new (Card (expr_of operand.now))) }
{
    expression_code(alloc, operand, code)?;
    emit(code, op::CARD, 0, 0)
}

/// Appends the code of actual parameters one after another.
#[cycle(expression)]
fn actuals_code(alloc: Global, given: &[Actual], code: &mut Code) -> Result<(), NoMemory>
    ensures { OnOk result (AppendsActuals code.old code.new (tree.actuals (map actual_of given.now))) }
{
    for actual in given {
        actual_code(alloc, actual, code)?;
    }
    Ok(())
}

/// Appends the code of an actual parameter, which leaves the value or the place (ISO 10206, 6.7.3).
#[cycle(expression)]
#[tactic(auto, using(crate::proofs::ActualForms::actual_forms))]
fn actual_code(alloc: Global, actual: &Actual, code: &mut Code) -> Result<(), NoMemory>
    ensures { OnOk result (AppendsActual code.old code.new (actual_of actual.now)) }
{
    match actual {
        Actual::Value(value) => expression_code(alloc, value.get(), code),
        Actual::Variable(place) => place_code(alloc, place, code),
    }
}

/// Appends the code of a structured value, by a variable without a name that is given the components.
#[cycle(expression)]
fn structured_code(
    alloc: Global,
    number: u32,
    elements: &[Element],
    code: &mut Code,
) -> Result<(), NoMemory>
    ensures { OnOk result
        (AppendsExpr code.old code.new (Structured number (tree.elements (map element_of elements.now)))) }
{
    begin_structured(number, code)?;
    elements_code(alloc, elements, code)?;
    end_structured(code)
}

/// Appends the code of what components of the place on top are given, in order.
#[cycle(expression)]
fn elements_code(alloc: Global, elements: &[Element], code: &mut Code) -> Result<(), NoMemory>
    ensures { OnOk result (AppendsElements code.old code.new (tree.elements (map element_of elements.now))) }
{
    for element in elements {
        element_code(alloc, element, code)?;
    }
    Ok(())
}

/// Appends the code of what a component of the place on top is given.
#[cycle(expression)]
fn element_code(alloc: Global, element: &Element, code: &mut Code) -> Result<(), NoMemory>
    ensures { OnOk result (AppendsElement code.old code.new (element_of element.now)) }
{
    match element {
        Element::AtIndex(index, value) => at_index_code(alloc, index.get(), value.get(), code),
        Element::AtField(steps, value) => at_field_code(alloc, steps.items(), value.get(), code),
        Element::SameField(from, to) => same_field_code(from.items(), to.items(), code),
        Element::AtRanges(ranges, value) => {
            at_ranges_code(alloc, ranges.items(), value.get(), code)
        }
        Element::AtIndexes(indexes, value) => {
            at_indexes_code(alloc, indexes.items(), value.get(), code)
        }
    }
}

/// Appends the code of what the component of an array at an index is given.
#[cycle(expression)]
fn at_index_code(
    alloc: Global,
    index: &TypedExpr,
    value: &TypedExpr,
    code: &mut Code,
) -> Result<(), NoMemory>
    ensures { OnOk result (AppendsElement code.old code.new (AtIndex (expr_of index.now) (expr_of value.now))) }
{
    emit(code, op::DUP, 0, 0)?;
    expression_code(alloc, index, code)?;
    emit(code, op::INDEX, 0, 0)?;
    expression_code(alloc, value, code)?;
    emit(code, op::STORE, 0, 0)
}

/// Appends the code of what the component of a record is given to which the steps lead.
#[cycle(expression)]
fn at_field_code(
    alloc: Global,
    steps: &[u32],
    value: &TypedExpr,
    code: &mut Code,
) -> Result<(), NoMemory>
    ensures { OnOk result (AppendsElement code.old code.new (AtField steps.now (expr_of value.now))) }
{
    reach_field(steps, code)?;
    expression_code(alloc, value, code)?;
    emit(code, op::STORE, 0, 0)
}

/// Appends the code of what the components of an array with the indexes of ranges are given.
#[cycle(expression)]
fn at_ranges_code(
    alloc: Global,
    ranges: &[CaseRange],
    value: &TypedExpr,
    code: &mut Code,
) -> Result<(), NoMemory>
    ensures { OnOk result (AppendsElement code.old code.new (AtRanges ranges.now (expr_of value.now))) }
{
    reach_first(ranges, code)?;
    expression_code(alloc, value, code)?;
    emit(code, op::STORE, 0, 0)?;
    fill_ranges(ranges, code)
}

/// Appends the code of a component of a record that is given what another one has.
#[tactic(auto, using(crate::proofs::StructuredForms::appends_same_field))]
fn same_field_code(from: &[u32], to: &[u32], code: &mut Code) -> Result<(), NoMemory>
    ensures { OnOk result (AppendsElement code.old code.new (SameField from.now to.now)) }
{
    same_field(from, to, code)
}

/// Appends the code of what the components of an array are given at indexes that are worked out.
#[cycle(expression)]
fn at_indexes_code(
    alloc: Global,
    indexes: &[MemberDesignator],
    value: &TypedExpr,
    code: &mut Code,
) -> Result<(), NoMemory>
    ensures { OnOk result (AppendsElement code.old code.new
        (AtIndexes (tree.designators (map designator_of indexes.now)) (expr_of value.now))) }
{
    indexes_code(alloc, indexes, code)?;
    expression_code(alloc, value, code)?;
    spread_values(indexes.len(), code)?;
    emit(code, op::DROP, 0, 0)
}

/// Appends the code of the indexes of ranges, in order, which leaves them below the array on top.
#[cycle(expression)]
fn indexes_code(
    alloc: Global,
    indexes: &[MemberDesignator],
    code: &mut Code,
) -> Result<(), NoMemory>
    ensures { OnOk result (AppendsIndexes code.old code.new (tree.designators (map designator_of indexes.now))) }
{
    for range in indexes {
        index_range_code(alloc, range, code)?;
    }
    Ok(())
}

/// Appends the code of the indexes of a range.
#[cycle(expression)]
fn index_range_code(
    alloc: Global,
    range: &MemberDesignator,
    code: &mut Code,
) -> Result<(), NoMemory>
    ensures { OnOk result (AppendsRange code.old code.new (designator_of range.now)) }
{
    match range {
        MemberDesignator::Single(index) => index_alone_code(alloc, index.get(), code),
        MemberDesignator::Range(first, last) => {
            index_pair_code(alloc, first.get(), last.get(), code)
        }
    }
}

/// Appends the code of an index alone, which is both the first and the last one of a range.
#[cycle(expression)]
fn index_alone_code(alloc: Global, index: &TypedExpr, code: &mut Code) -> Result<(), NoMemory>
    ensures { OnOk result (AppendsRange code.old code.new (Single (expr_of index.now))) }
{
    expression_code(alloc, index, code)?;
    emit(code, op::DUP, 0, 0)?;
    test_range(code)
}

/// Appends the code of the first and the last index of a range.
#[cycle(expression)]
#[tactic(auto, using(crate::proofs::RangeIndexes::appends_pair))]
fn index_pair_code(
    alloc: Global,
    first: &TypedExpr,
    last: &TypedExpr,
    code: &mut Code,
) -> Result<(), NoMemory>
    ensures { OnOk result (AppendsRange code.old code.new (Range (expr_of first.now) (expr_of last.now))) }
{
    expression_code(alloc, first, code)?;
    expression_code(alloc, last, code)?;
    test_range(code)
}
