//! The code that elaborates types (ISO 10206, 6.4.1).

ghost use Rattle.std.specs.Prelude.{◌≡◌, [], ◌∷◌, IfOk, OnOk, length, map, Some};
ghost use Rattle.ep_typed.specs.Denoters as denoters;
ghost use Rattle.ep_typed.specs.Trees.{denoters as in_order, elements, Array, AtField, AtRanges, Initial, Named, Record, Set, SetConstant, Structured};
ghost use Rattle.ep_typed.specs.Viewed.{bound_of, components_of, constant_expr, denoter_of, element_of, expr_of, field_of, selector_of, variant_of, variants_of};
ghost use Rattle.ep_gen_code.specs.Growth.{Grows};
ghost use Rattle.ep_gen_type.specs.TypeCode.{each_code, ordinal_code, part_code as code_of_part, parts_code, simple_code, start_code, type_code};

use ep_base::{Name, NoMemory};
use ep_gen_code::{Code, emit, field_number, place_number, type_reference};
use ep_gen_expr::{
    begin_structured, end_structured, fill_ranges, reach_field, reach_first, same_field,
};
use ep_object::op;
use ep_typed::{
    Bound, CaseRange, Denoter, Element, FieldPart, RecordField, RequiredType, Selector, TypedExpr,
    Value, Variant, VariantPart,
};

/// Appends the code that elaborates a denoter and leaves the type. What has no type value has no meaning and no code.
#[cycle(denoters)]
pub fn elaborate(denoter: &Denoter, code: &mut Code) -> Result<(), NoMemory>
    ensures { OnOk result (Grows code.old code.new (type_code code.old.line (denoter_of denoter.now))) }
{
    match denoter {
        Denoter::Required(r) => push_required(*r, code),
        Denoter::Named(index, tuple) => name_code(*index, tuple.items(), code),
        Denoter::Subrange(_, low, high) => push_subrange(*low, *high, code),
        Denoter::Enumeration(names) => push_enumeration(names.items(), code),
        Denoter::Array(index, component) => array_code(index.get(), component.get(), code),
        Denoter::Record(part) => record_code(part, code),
        Denoter::Set(base) => set_code(base.get(), code),
        Denoter::Initial(of, value) => initial_code(of.get(), value, code),
    }
}

/// Appends the code of a name: a call of the routine that elaborates the type.
fn name_code(number: u32, tuple: &[Bound], code: &mut Code) -> Result<(), NoMemory>
    ensures { OnOk result (Grows code.old code.new (type_code code.old.line (Named number (map bound_of tuple.now)))) }
{
    if !tuple.is_empty() {
        return Ok(());
    }
    emit(code, op::CALL, type_reference(number), 0)
}

/// Appends the code of an array, behind that of its index type and that of its components.
#[cycle(denoters)]
fn array_code(index: &Denoter, component: &Denoter, code: &mut Code) -> Result<(), NoMemory>
    ensures { OnOk result (Grows code.old code.new
        (type_code code.old.line
        (Array (denoter_of index.now) (denoter_of component.now)))) }
{
    elaborate(index, code)?;
    elaborate(component, code)?;
    emit(code, op::T_ARR, 0, 0)
}

/// Appends the code of a set, behind that of its base type.
#[cycle(denoters)]
fn set_code(base: &Denoter, code: &mut Code) -> Result<(), NoMemory>
    ensures { OnOk result (Grows code.old code.new
        (type_code code.old.line (Set (denoter_of base.now)))) }
{
    elaborate(base, code)?;
    emit(code, op::T_SET, 0, 0)
}

/// Appends the code of a type with an initial state, behind those of the type and of the state.
#[cycle(denoters)]
fn initial_code(of: &Denoter, value: &Value, code: &mut Code) -> Result<(), NoMemory>
    ensures { OnOk result (Grows code.old code.new
        (type_code code.old.line (Initial (denoter_of of.now) (constant_expr value.now)))) }
{
    elaborate(of, code)?;
    initial_state_code(value, code)?;
    emit(code, op::T_INIT, 0, 0)
}

/// Appends the code of a record or a variant, behind that of its components.
#[cycle(denoters)]
fn record_code(part: &FieldPart, code: &mut Code) -> Result<(), NoMemory>
    ensures { OnOk result (Grows code.old code.new
        (type_code code.old.line (Record (in_order (components_of part.now))))) }
{
    let count = components_count(part)?;
    part_code(part, code)?;
    emit(code, op::T_REC, count as i64, 0)
}

/// Appends the code of the components that a field part gives, one after another.
#[cycle(denoters)]
fn part_code(part: &FieldPart, code: &mut Code) -> Result<(), NoMemory>
    ensures { OnOk result (Grows code.old code.new
        (each_code code.old.line (in_order (components_of part.now)))) }
{
    fields_code(part.fields.items(), code)?;
    match &part.variant_part {
        None => Ok(()),
        Some(variants) => variant_part_code(variants.get(), code),
    }
}

/// Appends the code of the types of fields.
#[cycle(denoters)]
fn fields_code(fields: &[RecordField], code: &mut Code) -> Result<(), NoMemory>
    ensures { OnOk result (Grows code.old code.new
        (each_code code.old.line (in_order (map field_of fields.now)))) }
{
    for field in fields {
        field_code(field, code)?;
    }
    Ok(())
}

/// Appends the code of the type of a field.
#[cycle(denoters)]
fn field_code(field: &RecordField, code: &mut Code) -> Result<(), NoMemory>
    ensures { OnOk result (Grows code.old code.new
        (type_code code.old.line (field_of field.now))) }
{
    elaborate(&field.denoter, code)
}

/// Appends the code of what a variant part adds: the record of what selects a variant, and the variants.
#[cycle(denoters)]
fn variant_part_code(part: &VariantPart, code: &mut Code) -> Result<(), NoMemory>
    ensures { OnOk result (Grows code.old code.new
        (each_code code.old.line (in_order (variants_of part.now)))) }
{
    selector_code(&part.selector, code)?;
    variants_code(part.variants.items(), code)?;
    match &part.completing {
        None => Ok(()),
        Some(part) => record_code(part.get(), code),
    }
}

/// Appends the code of the record of what selects a variant.
#[cycle(denoters)]
fn selector_code(selector: &Selector, code: &mut Code) -> Result<(), NoMemory>
    ensures { OnOk result (Grows code.old code.new
        (type_code code.old.line (selector_of selector.now))) }
{
    match selector {
        Selector::Tag(_, of) => tag_code(of.get(), code),
    }
}

/// Appends the code of the record of a tag field.
#[cycle(denoters)]
fn tag_code(of: &Denoter, code: &mut Code) -> Result<(), NoMemory>
    ensures { OnOk result (Grows code.old code.new
        (type_code code.old.line (Record (in_order (denoter_of of.now ∷ []))))) }
{
    elaborate(of, code)?;
    emit(code, op::T_REC, 1, 0)
}

/// Appends the code of variants, one after another.
#[cycle(denoters)]
fn variants_code(variants: &[Variant], code: &mut Code) -> Result<(), NoMemory>
    ensures { OnOk result (Grows code.old code.new
        (each_code code.old.line (in_order (map variant_of variants.now)))) }
{
    for variant in variants {
        variant_code(variant, code)?;
    }
    Ok(())
}

/// Appends the code of a variant.
#[cycle(denoters)]
fn variant_code(variant: &Variant, code: &mut Code) -> Result<(), NoMemory>
    ensures { OnOk result (Grows code.old code.new
        (type_code code.old.line (variant_of variant.now))) }
{
    record_code(&variant.part, code)
}

/// Appends the code that leaves an initial state.
fn initial_state_code(value: &Value, code: &mut Code) -> Result<(), NoMemory>
    ensures { OnOk result (Grows code.old code.new (start_code code.old.line (constant_expr value.now))) }
{
    match value {
        Value::Word(number) => emit(code, op::PUSH, *number, 0),
        Value::Text(_) => Ok(()),
        Value::Set(members) => set_start_code(members.items(), code),
        Value::Structured(number, parts) => structured_start_code(
            *number,
            parts.get().items(),
            code,
        ),
    }
}

/// Appends the code that leaves a constant that a component of an initial state is given.
#[cycle(starts)]
fn constant_code(value: &TypedExpr, code: &mut Code) -> Result<(), NoMemory>
    ensures { OnOk result (Grows code.old code.new (start_code code.old.line (expr_of value.now))) }
{
    match value {
        TypedExpr::Constant(number) => emit(code, op::PUSH, *number, 0),
        TypedExpr::SetConstant(members) => set_start_code(members.items(), code),
        TypedExpr::Structured(number, parts) => structured_start_code(
            *number,
            parts.get().items(),
            code,
        ),
        _ => Ok(()),
    }
}

/// Appends the code that leaves an array or a record, by a variable without a name that is given the components.
#[cycle(starts)]
fn structured_start_code(number: u32, parts: &[Element], code: &mut Code) -> Result<(), NoMemory>
    ensures { OnOk result (Grows code.old code.new
        (start_code code.old.line (Structured number (elements (map element_of parts.now))))) }
{
    begin_structured(number, code)?;
    start_parts_code(parts, code)?;
    end_structured(code)
}

/// Appends the code of what components of it are given, in order.
#[cycle(starts)]
fn start_parts_code(parts: &[Element], code: &mut Code) -> Result<(), NoMemory>
    ensures { OnOk result (Grows code.old code.new
        (parts_code code.old.line (elements (map element_of parts.now)))) }
{
    for part in parts {
        start_part_code(part, code)?;
    }
    Ok(())
}

/// Appends the code of what components in ranges, or the one of a field, are given.
#[cycle(starts)]
fn start_part_code(part: &Element, code: &mut Code) -> Result<(), NoMemory>
    ensures { OnOk result (Grows code.old code.new (code_of_part code.old.line (element_of part.now))) }
{
    match part {
        Element::AtRanges(ranges, value) => ranges_start_code(ranges.items(), value.get(), code),
        Element::AtField(steps, value) => field_start_code(steps.items(), value.get(), code),
        Element::SameField(from, to) => same_field(from.items(), to.items(), code),
        Element::AtIndex(_, _) | Element::AtIndexes(_, _) => Ok(()),
    }
}

/// Appends the code of the components of an array in ranges, and of the value that all of them are given.
#[cycle(starts)]
fn ranges_start_code(
    ranges: &[CaseRange],
    value: &TypedExpr,
    code: &mut Code,
) -> Result<(), NoMemory>
    ensures { OnOk result (Grows code.old code.new
        (code_of_part code.old.line (AtRanges ranges.now (expr_of value.now)))) }
{
    reach_first(ranges, code)?;
    constant_code(value, code)?;
    emit(code, op::STORE, 0, 0)?;
    fill_ranges(ranges, code)
}

/// Appends the code of the component of a record to which steps lead, and of its value.
#[cycle(starts)]
fn field_start_code(steps: &[u32], value: &TypedExpr, code: &mut Code) -> Result<(), NoMemory>
    ensures { OnOk result (Grows code.old code.new
        (code_of_part code.old.line (AtField steps.now (expr_of value.now)))) }
{
    reach_field(steps, code)?;
    constant_code(value, code)?;
    emit(code, op::STORE, 0, 0)
}

/// Appends the code that leaves a set: the empty set, to which each member is added.
fn set_start_code(members: &[u8], code: &mut Code) -> Result<(), NoMemory>
    ensures { OnOk result (Grows code.old code.new (start_code code.old.line (SetConstant members.now))) }
{
    emit(code, op::SET_NONE, 0, 0)?;
    for member in members {
        emit(code, op::PUSH, *member as i64, 0)?;
        emit(code, op::SET_ADD, 0, 0)?;
    }
    Ok(())
}

/// How many components a field part gives. A number that a field cannot hold is refused.
fn components_count(part: &FieldPart) -> Result<u32, NoMemory>
    ensures { IfOk result (λ k. k ≡ length (components_of part.now)) }
{
    let own = field_number(part.fields.items().len())?;
    let behind = match &part.variant_part {
        None => 0,
        Some(variants) => variants_count(variants.get())?,
    };
    place_number(own as u64 + behind as u64)
}

/// How many of them a variant part adds.
fn variants_count(part: &VariantPart) -> Result<u32, NoMemory>
    ensures { IfOk result (λ k. k ≡ length (variants_of part.now)) }
{
    let count = field_number(part.variants.items().len())?;
    let completing = match part.completing {
        None => 0,
        Some(_) => 1,
    };
    place_number(1 + count as u64 + completing)
}

/// Appends the code that leaves a required type.
fn push_required(r: RequiredType, code: &mut Code) -> Result<(), NoMemory>
    ensures { OnOk result (Grows code.old code.new
        (simple_code code.old.line (Some (denoters.required_type r)))) }
{
    match r {
        RequiredType::Integer => push_ordinal(-i64::MAX, i64::MAX, code),
        RequiredType::Char => push_ordinal(0, u8::MAX as i64, code),
        RequiredType::Boolean => push_ordinal(0, 1, code),
    }
}

/// Appends the code that leaves a subrange.
fn push_subrange(low: Bound, high: Bound, code: &mut Code) -> Result<(), NoMemory>
    ensures { OnOk result (Grows code.old code.new
        (simple_code code.old.line (denoters.subrange_type (bound_of low) (bound_of high)))) }
{
    match (low, high) {
        (Bound::Constant(low), Bound::Constant(high)) => push_ordinal(low, high, code),
    }
}

/// Appends the code that leaves an enumeration.
fn push_enumeration(names: &[Name], code: &mut Code) -> Result<(), NoMemory>
    ensures { OnOk result (Grows code.old code.new
        (simple_code code.old.line (denoters.enumeration_type names.now))) }
{
    match names {
        [] => Ok(()),
        [_, others @ ..] => push_ordinal(0, others.len() as i64, code),
    }
}

/// Appends the code that leaves an ordinal type with these bounds.
fn push_ordinal(low: i64, high: i64, code: &mut Code) -> Result<(), NoMemory>
    ensures { OnOk result (Grows code.old code.new (ordinal_code code.old.line low high)) }
{
    emit(code, op::PUSH, low, 0)?;
    emit(code, op::PUSH, high, 0)?;
    emit(code, op::T_ORD, 0, 0)
}
