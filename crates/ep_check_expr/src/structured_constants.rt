//! What typed forms are as constants that may be arrays or records (ISO 10206, 6.6, 6.8.2 and 6.8.7).

ghost use Rattle.std.specs.Prelude.{◌≡◌, [], IfOk, IsTrue, Ok, Some, map};
ghost use Rattle.ep_scope.specs.Scopes.{structure_in};
ghost use Rattle.ep_typed.specs.Trees as tree;
ghost use Rattle.ep_typed.specs.Viewed.{element_of, expr_of};
ghost use Rattle.ep_typed.specs.declared.tree.Element.TheVariants as element;
ghost use Rattle.ep_check_expr.specs.StructuredConstants as spec;

use ep_base::{Boxed, List, NoMemory};
use ep_rules::{Folded, KnownValue, folded_form, number_in};
use ep_scope::{ArrayType, Composition, View, structure_of};
use ep_typed::{CaseRange, CaseRanges, Element, Elements, Shared, TypedExpr, Value};
use std::alloc::Global;

/// A constant.
#[derive(Drop)]
pub enum ConstantValue {
    /// A number or a set.
    Known(KnownValue),
    /// An array or a record: the number of its type, and what its components are given.
    Structured(u32, Shared<Elements>),
}

impl ConstantValue {
    /// Its value.
    pub(crate) fn into_value(self) -> Value
        ensures { result ≡ spec.value_in self }
    {
        match self {
            ConstantValue::Known(KnownValue::Number(z)) => Value::Word(z),
            ConstantValue::Known(KnownValue::Members(members)) => Value::Set(members),
            ConstantValue::Structured(number, given) => Value::Structured(number, given),
        }
    }

    /// The typed form that a component is given.
    fn into_form(self) -> TypedExpr
        ensures { result ≡ spec.form_in self }
    {
        match self {
            ConstantValue::Known(KnownValue::Number(z)) => TypedExpr::Constant(z),
            ConstantValue::Known(KnownValue::Members(members)) => TypedExpr::SetConstant(members),
            ConstantValue::Structured(number, given) => TypedExpr::Structured(number, given),
        }
    }
}

/// Why a form is no constant.
#[derive(Clone, Copy, Drop)]
pub enum NoConstant {
    /// A variable is read or a function is called.
    Varies,
    /// There would be an error.
    Errs,
}

/// What a typed form is as a constant.
#[cycle(constancies)]
pub(crate) fn constancy(
    alloc: Global,
    e: &TypedExpr,
    scopes: &View<'_>,
) -> Result<Result<ConstantValue, NoConstant>, NoMemory>
    ensures { IfOk result (λ c. c ≡ spec.constancy scopes.now (expr_of e.now)) }
{
    match e {
        TypedExpr::Structured(number, given) => {
            if are_settled(given.get().items()) {
                return Ok(Ok(ConstantValue::Structured(*number, given.share()?)));
            }
            let of = array_of(scopes, *number);
            let given = elements(alloc, of, given.get().items(), scopes)?;
            structured(alloc, *number, given)
        }
        other => Ok(known(folded_form(alloc, other)?)),
    }
}

/// What components are given.
#[cycle(constancies)]
fn elements(
    alloc: Global,
    of: Option<ArrayType>,
    all: &[Element],
    scopes: &View<'_>,
) -> Result<Result<Elements, NoConstant>, NoMemory>
    ensures { IfOk result (λ c. c ≡ spec.elements_constancy scopes.now of (tree.elements (map element_of all.now))) }
{
    let mut found = Ok(List::new(alloc));
    for one in all {
        let more = element(alloc, of, one, scopes)?;
        found = with_last(found, more)?;
    }
    Ok(found)
}

/// What a component is given, of a value of this array type or of a record; none, where no component is. Indexes that
/// designators give vary.
#[cycle(constancies)]
fn element(
    alloc: Global,
    of: Option<ArrayType>,
    e: &Element,
    scopes: &View<'_>,
) -> Result<Result<Option<Element>, NoConstant>, NoMemory>
    ensures { IfOk result (λ c. c ≡ spec.element_constancy scopes.now of (element_of e.now)) }
{
    match e {
        Element::AtIndex(index, value) => {
            let index = folded_form(alloc, index.get())?;
            let value = constancy(alloc, value.get(), scopes)?;
            ranges_given(alloc, index_ranges(alloc, of, &index)?, value)
        }
        Element::AtRanges(ranges, value) => {
            let value = constancy(alloc, value.get(), scopes)?;
            ranges_given(alloc, Ok(List::from_slice(alloc, ranges.items())?), value)
        }
        Element::AtField(steps, value) => {
            let value = constancy(alloc, value.get(), scopes)?;
            field_given(alloc, steps.items(), value)
        }
        Element::SameField(from, to) => same_given(alloc, from.items(), to.items()),
        Element::AtIndexes(indexes, value) => {
            if indexes.items().is_empty() {
                Ok(none_given(constancy(alloc, value.get(), scopes)?))
            } else {
                Ok(Err(NoConstant::Varies))
            }
        }
    }
}

/// Whether a form is a constant as it stands, whose components need not be made anew.
#[cycle(settled)]
fn is_settled(e: &TypedExpr) -> bool
    ensures { IsTrue result → spec.IsSettled e.now }
{
    match e {
        TypedExpr::Constant(_) | TypedExpr::SetConstant(_) => true,
        TypedExpr::Structured(_, given) => are_settled(given.get().items()),
        _ => false,
    }
}

/// Alike, of what a component is given.
#[cycle(settled)]
fn is_settled_element(e: &Element) -> bool
    ensures { IsTrue result → spec.IsSettledElement e.now }
{
    match e {
        Element::AtRanges(_, value) => is_settled(value.get()),
        Element::AtField(_, value) => is_settled(value.get()),
        Element::SameField(_, _) => true,
        Element::AtIndex(_, _) | Element::AtIndexes(_, _) => false,
    }
}

/// Alike, of what components are given.
#[cycle(settled)]
fn are_settled(all: &[Element]) -> bool
    ensures { IsTrue result → spec.AreSettled all.now }
{
    for one in all {
        if !is_settled_element(one) {
            return false;
        }
    }
    true
}

/// The array type of this number, where it is one.
fn array_of(scopes: &View<'_>, number: u32) -> Option<ArrayType>
    ensures { result ≡ spec.array_in (structure_in scopes.now number) }
{
    match structure_of(scopes, number) {
        Some(Composition::Array(of)) => Some(*of),
        _ => None,
    }
}

/// What is known of a form that is no array and no record.
fn known(folded: Folded) -> Result<ConstantValue, NoConstant>
    ensures { result ≡ spec.known_constancy folded }
{
    match folded {
        Folded::Known(value) => Ok(ConstantValue::Known(value)),
        Folded::Varies => Err(NoConstant::Varies),
        Folded::Errs => Err(NoConstant::Errs),
    }
}

/// Of two reasons, that a part varies, where one says so.
fn either(first: NoConstant, second: NoConstant) -> NoConstant
    ensures { result ≡ spec.either first second }
{
    match first {
        NoConstant::Varies => NoConstant::Varies,
        NoConstant::Errs => second,
    }
}

/// The range of one index of an array, which lies in the bounds.
fn index_range(
    alloc: Global,
    of: Option<ArrayType>,
    index: i64,
) -> Result<Result<CaseRanges, NoConstant>, NoMemory>
    ensures { IfOk result (λ c. c ≡ spec.index_range of index) }
{
    let Some(of) = of else {
        return Ok(Err(NoConstant::Errs));
    };
    if of.low <= index && index <= of.high {
        let mut ranges = List::new(alloc);
        ranges.push(CaseRange {
            low: index,
            high: index,
        })?;
        Ok(Ok(ranges))
    } else {
        Ok(Err(NoConstant::Errs))
    }
}

/// Alike, by what is known of the index.
fn index_ranges(
    alloc: Global,
    of: Option<ArrayType>,
    index: &Folded,
) -> Result<Result<CaseRanges, NoConstant>, NoMemory>
    ensures { IfOk result (λ c. c ≡ spec.index_constancy of index.now) }
{
    match index {
        Folded::Known(x) => index_range(alloc, of, number_in(x)),
        Folded::Varies => Ok(Err(NoConstant::Varies)),
        Folded::Errs => Ok(Err(NoConstant::Errs)),
    }
}

/// The components in ranges, and the value that all of them have.
fn ranges_given(
    alloc: Global,
    ranges: Result<CaseRanges, NoConstant>,
    value: Result<ConstantValue, NoConstant>,
) -> Result<Result<Option<Element>, NoConstant>, NoMemory>
    ensures { IfOk result (λ c. c ≡ spec.ranges_given ranges value) }
{
    match (ranges, value) {
        (Ok(ranges), Ok(value)) => {
            let value = Boxed::new(alloc, value.into_form())?;
            Ok(Ok(Some(Element::AtRanges(ranges, value))))
        }
        (Ok(_), Err(why)) => Ok(Err(why)),
        (Err(why), Ok(_)) => Ok(Err(why)),
        (Err(why), Err(other)) => Ok(Err(either(why, other))),
    }
}

/// No component, whose value is constant all the same.
fn none_given(value: Result<ConstantValue, NoConstant>) -> Result<Option<Element>, NoConstant>
    ensures { result ≡ spec.none_given value }
{
    match value {
        Ok(_) => Ok(None),
        Err(why) => Err(why),
    }
}

/// The component of a record to which steps lead, and its value.
fn field_given(
    alloc: Global,
    steps: &[u32],
    value: Result<ConstantValue, NoConstant>,
) -> Result<Result<Option<Element>, NoConstant>, NoMemory>
    ensures { IfOk result (λ c. c ≡ spec.field_given steps.now value) }
{
    match value {
        Ok(value) => {
            let steps = List::from_slice(alloc, steps)?;
            let value = Boxed::new(alloc, value.into_form())?;
            Ok(Ok(Some(Element::AtField(steps, value))))
        }
        Err(why) => Ok(Err(why)),
    }
}

/// The component of a record that is given what another one has.
fn same_given(
    alloc: Global,
    from: &[u32],
    to: &[u32],
) -> Result<Result<Option<Element>, NoConstant>, NoMemory>
    ensures { IfOk result (λ c. c ≡ Ok (Some (element.SameField from.now to.now))) }
{
    let from = List::from_slice(alloc, from)?;
    let to = List::from_slice(alloc, to)?;
    Ok(Ok(Some(Element::SameField(from, to))))
}

/// A value of the array or record type of this number.
fn structured(
    alloc: Global,
    number: u32,
    given: Result<Elements, NoConstant>,
) -> Result<Result<ConstantValue, NoConstant>, NoMemory>
    ensures { IfOk result (λ c. c ≡ spec.structured number given) }
{
    match given {
        Ok(given) => {
            let given = Shared::new(alloc, given)?;
            Ok(Ok(ConstantValue::Structured(number, given)))
        }
        Err(why) => Ok(Err(why)),
    }
}

/// What components are given, with one more, where there is one.
fn with_last(
    before: Result<Elements, NoConstant>,
    last: Result<Option<Element>, NoConstant>,
) -> Result<Result<Elements, NoConstant>, NoMemory>
    ensures { IfOk result (λ c. c ≡ spec.with_last before last) }
{
    match (before, last) {
        (Ok(mut before), Ok(last)) => {
            if let Some(last) = last {
                before.push(last)?;
            }
            Ok(Ok(before))
        }
        (Ok(_), Err(why)) => Ok(Err(why)),
        (Err(why), Ok(_)) => Ok(Err(why)),
        (Err(why), Err(other)) => Ok(Err(either(why, other))),
    }
}
