//! What is known of typed forms as constants, by the operations that a run has.

ghost use Rattle.std.specs.Prelude.{◌≡◌, IfOk, MatchOption, [], map, pos};
ghost use Rattle.ep_values.specs.Operations.{Number, ordinal_of, within, modulo, decides, unary_answer, binary_answer, step_answer};
ghost use Rattle.ep_values.specs.SetOperations.{set_answer};
ghost use Rattle.ep_values.specs.declared.run_error.TheConstants as run_error;
ghost use Rattle.ep_typed.specs.Trees.{designators};
ghost use Rattle.ep_typed.specs.Viewed.{designator_of, expr_of};
ghost use Rattle.ep_rules.specs.Folding as spec;
ghost use Rattle.ep_rules.specs.Folding.{AnswersPair, answered, as_known, folded, folded_member, folded_members, one_number, result_of, set_found, short_folded, two_folded, two_numbers};
ghost use Rattle.ep_rules.specs.SetFolding.{combination};
ghost use Rattle.ep_rules.specs.declared.folding.Folded.TheVariants.{Errs, Known};
ghost use Rattle.ep_rules.specs.declared.folding.KnownValue.TheVariants as known;

use crate::sets;
use ep_base::{Bytes, List, NoMemory};
use ep_typed::{MemberDesignator, TypedExpr};
use ep_values::{Binary, SetOperation, ShortOperation, Unary};
use std::alloc::Global;

/// A value that is known.
#[derive(Drop)]
pub enum KnownValue {
    /// The number of a value of an ordinal type.
    Number(i64),
    /// A set, by the ordinal numbers of its members in rising order.
    Members(Bytes),
}

/// What a typed form is as a constant.
#[derive(Drop)]
pub enum Folded {
    /// This value.
    Known(KnownValue),
    /// No constant, since a variable is read or a function is called.
    Varies,
    /// No constant, since there would be an error.
    Errs,
}

/// What is known of a typed form.
#[cycle(folded)]
pub fn folded_form(alloc: Global, e: &TypedExpr) -> Result<Folded, NoMemory>
    ensures { IfOk result (λ f. f ≡ folded (expr_of e.now)) }
{
    match e {
        TypedExpr::Constant(value) => Ok(number(*value)),
        TypedExpr::Text(_) => Ok(Folded::Errs),
        TypedExpr::Read(_) => Ok(Folded::Varies),
        TypedExpr::Function(_, _) => Ok(Folded::Varies),
        TypedExpr::IndexedValue(_, _) => Ok(Folded::Varies),
        TypedExpr::FieldValue(_, _) => Ok(Folded::Varies),
        TypedExpr::VariantValue(_, _, _) => Ok(Folded::Varies),
        TypedExpr::Structured(_, _) => Ok(Folded::Varies),
        TypedExpr::Unary(operation, operand) => {
            let operand = folded_form(alloc, operand.get())?;
            Ok(unary_folded(*operation, operand))
        }
        TypedExpr::Binary(operation, left, right) => {
            let left = folded_form(alloc, left.get())?;
            let right = folded_form(alloc, right.get())?;
            Ok(binary_folded(*operation, left, right))
        }
        TypedExpr::Short(operation, left, right) => {
            let left = folded_form(alloc, left.get())?;
            let right = folded_form(alloc, right.get())?;
            Ok(short(*operation, left, right))
        }
        TypedExpr::Step(down, low, high, value, count) => {
            let value = folded_form(alloc, value.get())?;
            let count = folded_form(alloc, count.get())?;
            Ok(step_folded(*down, low, high, value, count))
        }
        TypedExpr::SetConstant(members) => Ok(set(Bytes::from_slice(alloc, members.items())?)),
        TypedExpr::Set(designators) => members(alloc, designators.items()),
        TypedExpr::OnSets(operation, left, right) => {
            let left = folded_form(alloc, left.get())?;
            let right = folded_form(alloc, right.get())?;
            on_sets_folded(alloc, *operation, left, right)
        }
        TypedExpr::Card(operand) => Ok(counted(folded_form(alloc, operand.get())?)),
    }
}

/// What is known of a member designator.
#[cycle(folded)]
fn member(alloc: Global, designator: &MemberDesignator) -> Result<Folded, NoMemory>
    ensures { IfOk result (λ f. f ≡ folded_member (designator_of designator.now)) }
{
    match designator {
        MemberDesignator::Single(value) => {
            let value = folded_form(alloc, value.get())?;
            single_folded(alloc, value)
        }
        MemberDesignator::Range(first, last) => {
            let first = folded_form(alloc, first.get())?;
            let last = folded_form(alloc, last.get())?;
            range_folded(alloc, first, last)
        }
    }
}

/// What is known of member designators.
#[cycle(folded)]
fn members(alloc: Global, all: &[MemberDesignator]) -> Result<Folded, NoMemory>
    ensures { IfOk result
        (λ f. f ≡ folded_members (Known (known.Members [])) (designators (map designator_of all.now))) }
{
    let mut found = set(List::new(alloc));
    for designator in all {
        let more = member(alloc, designator)?;
        found = joined(alloc, found, more)?;
    }
    Ok(found)
}

/// A number that is known.
fn number(value: i64) -> Folded
    ensures { result ≡ Known (known.Number value) }
{
    Folded::Known(KnownValue::Number(value))
}

/// A set that is known.
fn set(members: Bytes) -> Folded
    ensures { result ≡ Known (known.Members members) }
{
    Folded::Known(KnownValue::Members(members))
}

/// The number that is known.
pub fn number_in(known: &KnownValue) -> i64
    ensures { result ≡ spec.number_in known.now }
{
    match known {
        KnownValue::Number(value) => *value,
        KnownValue::Members(_) => 0,
    }
}

/// The members of the set that is known.
fn members_in(known: &KnownValue) -> &[u8]
    ensures { result.now ≡ spec.members_in known.now }
{
    match known {
        KnownValue::Number(_) => &[],
        KnownValue::Members(members) => members.items(),
    }
}

/// The set of members, where each may be one.
fn found(members: Option<Bytes>) -> Folded
    ensures { result ≡ set_found members }
{
    match members {
        Some(members) => set(members),
        None => Folded::Errs,
    }
}

/// Two values, or what is known of a form of the two where they are not both known.
fn pair(left: Folded, right: Folded) -> Result<(KnownValue, KnownValue), Folded>
    ensures { AnswersPair left right result }
{
    match (left, right) {
        (Folded::Known(x), Folded::Known(y)) => Ok((x, y)),
        (Folded::Varies, _) => Err(Folded::Varies),
        (_, Folded::Varies) => Err(Folded::Varies),
        _ => Err(Folded::Errs),
    }
}

/// What is known of an operation of one number.
fn unary_folded(operation: Unary, operand: Folded) -> Folded
    ensures { result ≡ one_number (unary_answer operation) operand }
{
    match operand {
        Folded::Known(x) => unary(operation, number_in(&x)),
        other => other,
    }
}

/// What is known of an operation of two numbers.
fn binary_folded(operation: Binary, left: Folded, right: Folded) -> Folded
    ensures { result ≡ two_numbers (binary_answer operation) left right }
{
    match pair(left, right) {
        Ok((x, y)) => binary(operation, number_in(&x), number_in(&y)),
        Err(other) => other,
    }
}

/// What is known of `succ` and `pred`.
fn step_folded(down: bool, low: &i64, high: &i64, value: Folded, count: Folded) -> Folded
    ensures { result ≡ two_numbers (step_answer down low.now high.now) value count }
{
    match pair(value, count) {
        Ok((x, n)) => step(down, *low, *high, number_in(&x), number_in(&n)),
        Err(other) => other,
    }
}

/// What is known of an operation whose right operand at least is a set.
fn on_sets_folded(
    alloc: Global,
    operation: SetOperation,
    left: Folded,
    right: Folded,
) -> Result<Folded, NoMemory>
    ensures { IfOk result (λ f. f ≡ two_folded
        (λ a b. as_known (set_answer operation (result_of a) (result_of b))) left right) }
{
    match pair(left, right) {
        Ok((x, y)) => on_sets(alloc, operation, &x, &y),
        Err(other) => Ok(other),
    }
}

/// What is known of the set of what is in one of two.
fn joined(alloc: Global, left: Folded, right: Folded) -> Result<Folded, NoMemory>
    ensures { IfOk result (λ f. f ≡ spec.joined left right) }
{
    match pair(left, right) {
        Ok((x, y)) => combined(alloc, SetOperation::Union, members_in(&x), members_in(&y)),
        Err(other) => Ok(other),
    }
}

/// What is known of how many members there are.
fn counted(operand: Folded) -> Folded
    ensures { result ≡ spec.counted operand }
{
    match operand {
        Folded::Known(x) => number(members_in(&x).len() as i64),
        other => other,
    }
}

/// What is known of one value as a member.
fn single_folded(alloc: Global, value: Folded) -> Result<Folded, NoMemory>
    ensures { IfOk result (λ f. f ≡ spec.single_folded value) }
{
    match value {
        Folded::Known(x) => Ok(found(sets::single(alloc, number_in(&x))?)),
        other => Ok(other),
    }
}

/// What is known of the values from one to another as members.
fn range_folded(alloc: Global, first: Folded, last: Folded) -> Result<Folded, NoMemory>
    ensures { IfOk result (λ f. f ≡ spec.range_folded first last) }
{
    match pair(first, last) {
        Ok((x, y)) => Ok(found(sets::range(alloc, number_in(&x), number_in(&y))?)),
        Err(other) => Ok(other),
    }
}

/// What is known where the right operand may not be evaluated.
fn short(operation: ShortOperation, left: Folded, right: Folded) -> Folded
    ensures { result ≡ short_folded operation left right }
{
    match (left, right) {
        (Folded::Known(x), Folded::Known(y)) => {
            Folded::Known(if decides(operation, number_in(&x)) {
                x
            } else {
                y
            })
        }
        (Folded::Known(x), Folded::Errs) => {
            if decides(operation, number_in(&x)) {
                Folded::Known(x)
            } else {
                Folded::Errs
            }
        }
        (Folded::Varies, _) => Folded::Varies,
        (_, Folded::Varies) => Folded::Varies,
        _ => Folded::Errs,
    }
}

/// What an operation gives whose right operand at least is a set.
fn on_sets(
    alloc: Global,
    operation: SetOperation,
    x: &KnownValue,
    y: &KnownValue,
) -> Result<Folded, NoMemory>
    ensures { IfOk result (λ f. f ≡ as_known (set_answer operation (result_of x.now) (result_of y.now))) }
{
    let first = members_in(x);
    let second = members_in(y);
    match operation {
        SetOperation::Equal => Ok(bit(sets::is_same_set(first, second))),
        SetOperation::Unequal => Ok(bit(!sets::is_same_set(first, second))),
        SetOperation::Subset => Ok(bit(sets::is_subset(first, second))),
        SetOperation::Superset => Ok(bit(sets::is_subset(second, first))),
        SetOperation::In => Ok(bit(sets::is_member(number_in(x), second))),
        SetOperation::Union => combined(alloc, operation, first, second),
        SetOperation::Difference => combined(alloc, operation, first, second),
        SetOperation::Intersection => combined(alloc, operation, first, second),
        SetOperation::SymmetricDifference => combined(alloc, operation, first, second),
    }
}

/// The set that an operation makes of two, which is known.
fn combined(
    alloc: Global,
    operation: SetOperation,
    first: &[u8],
    second: &[u8],
) -> Result<Folded, NoMemory>
    ensures { IfOk result (λ f. f ≡ Known (known.Members (combination operation first.now second.now))) }
{
    Ok(set(sets::combined(alloc, operation, first, second)?))
}

/// Whether the left operand decides.
fn decides(operation: ShortOperation, x: i64) -> bool
    ensures { result ≡ decides operation x }
{
    match operation {
        ShortOperation::AndThen => x == 0,
        ShortOperation::OrElse => x != 0,
    }
}

/// A number, where it is an integer.
fn known(z: i64) -> Folded
    ensures { result ≡ answered (Number z) }
{
    if z > i64::MIN {
        number(z)
    } else {
        Folded::Errs
    }
}

/// A number that may have overflowed.
fn integer(z: Option<i64>) -> Folded
    ensures { MatchOption z (result ≡ Errs) (λ z. result ≡ answered (Number z)) }
{
    match z {
        None => Folded::Errs,
        Some(z) => known(z),
    }
}

/// The number of a Boolean.
fn bit(b: bool) -> Folded
    ensures known { result ≡ Known (known.Number (ordinal_of b)) }
    ensures answered { result ≡ answered (Number (ordinal_of b)) }
{
    number(if b { 1 } else { 0 })
}

/// A number from the least to the greatest one, or an error.
fn within(low: i64, high: i64, z: Option<i64>) -> Folded
    ensures { MatchOption z (result ≡ Errs) (λ z. result ≡ answered (within run_error.SUCCESSOR low high z)) }
{
    match z {
        None => Folded::Errs,
        Some(z) => {
            if low <= z && z <= high {
                known(z)
            } else {
                Folded::Errs
            }
        }
    }
}

/// An operation of one number.
fn unary(operation: Unary, x: i64) -> Folded
    ensures { result ≡ answered (unary_answer operation x) }
{
    match operation {
        Unary::Same => known(x),
        Unary::Negate => integer(x.checked_neg()),
        Unary::Not => integer(1i64.checked_sub(x)),
        Unary::Absolute => integer(x.checked_abs()),
        Unary::Square => integer(x.checked_mul(x)),
        Unary::Odd => known((x.unsigned_abs() % 2) as i64),
        Unary::Character => within(0, u8::MAX as i64, Some(x)),
    }
}

/// An operation of two numbers.
fn binary(operation: Binary, x: i64, y: i64) -> Folded
    ensures { result ≡ answered (binary_answer operation x y) }
{
    match operation {
        Binary::Add => integer(x.checked_add(y)),
        Binary::Subtract => integer(x.checked_sub(y)),
        Binary::Multiply => integer(x.checked_mul(y)),
        Binary::Divide => integer(x.checked_div(y)),
        Binary::Modulo => modulo(x, y),
        Binary::And => bit(x != 0 && y != 0),
        Binary::Or => bit(x != 0 || y != 0),
        Binary::Equal => bit(x == y),
        Binary::Unequal => bit(x != y),
        Binary::Less => bit(x < y),
        Binary::Greater => bit(x > y),
        Binary::AtMost => bit(x <= y),
        Binary::AtLeast => bit(x >= y),
    }
}

/// `mod`
fn modulo(x: i64, y: i64) -> Folded
    ensures { result ≡ answered (modulo x y) }
{
    if y > 0 {
        known(x.rem_euclid(y))
    } else {
        Folded::Errs
    }
}

/// `succ` and `pred` of a number by a count.
fn step(down: bool, low: i64, high: i64, x: i64, n: i64) -> Folded
    ensures { result ≡ answered (step_answer down low high x n) }
{
    if down {
        within(low, high, x.checked_sub(n))
    } else {
        within(low, high, x.checked_add(n))
    }
}
