//! The nesting of expressions and component values.

ghost use Rattle.std.specs.Prelude.{◌≡◌, min, max, map};
ghost use Rattle.ep_tree.specs.Nesting.{most_of, most_inside, component_value_nesting, element_nesting};
ghost use Rattle.ep_tree.specs.Nesting.{factor_nesting, selector_nesting, access_nesting, addend_nesting};
ghost use Rattle.ep_tree.specs.Nesting.{argument_nesting, expression_nesting, label_nesting, multiplier_nesting};
ghost use Rattle.ep_tree.specs.Nesting.{simple_nesting, term_nesting, values_nesting};

use crate::expression::{
    Access, Addend, Argument, ComponentValue, Element, Expression, Factor, Label, Multiplier,
    Selector, Simple, Term, Values,
};

#[cycle(levels)]
pub(super) fn expression(e: &Expression) -> u32
    ensures { result ≡ min (expression_nesting e.now) u32.MAX }
{
    let left = simple(&e.left);
    match &e.right {
        None => left,
        Some(comparison) => simple(&comparison.get().right).max(left),
    }
}

#[cycle(levels)]
fn simple(s: &Simple) -> u32
    ensures { result ≡ min (simple_nesting s.now) u32.MAX }
{
    term(&s.first).max(addends(s.more.items()))
}

#[cycle(levels)]
fn addends(all: &[Addend]) -> u32
    ensures { result ≡ min (most_of (map addend_nesting all.now)) u32.MAX }
{
    let mut most = 0;
    for addend in all {
        most = term(&addend.term).max(most);
    }
    most
}

#[cycle(levels)]
fn term(t: &Term) -> u32
    ensures { result ≡ min (term_nesting t.now) u32.MAX }
{
    factor(t.first.get()).max(multipliers(t.more.items()))
}

#[cycle(levels)]
fn multipliers(all: &[Multiplier]) -> u32
    ensures { result ≡ min (most_of (map multiplier_nesting all.now)) u32.MAX }
{
    let mut most = 0;
    for multiplier in all {
        most = factor(multiplier.factor.get()).max(most);
    }
    most
}

#[cycle(levels)]
fn factor(f: &Factor) -> u32
    ensures { result ≡ min (factor_nesting f.now) u32.MAX }
{
    match f {
        Factor::Access(a) => access(a),
        Factor::Number(_, _) => 0,
        Factor::Text(_, _) => 0,
        Factor::Nil(_) => 0,
        Factor::Parenthesized(_, inner) => expression(inner.get()).saturating_add(1),
        Factor::Not(_, inner) => factor(inner.get()).saturating_add(1),
        Factor::Set(_, members) => inner_labels(members.items()),
        Factor::Structured(_, _, v) => values(v.get()),
    }
}

#[cycle(levels)]
pub(super) fn access(a: &Access) -> u32
    ensures { result ≡ min (access_nesting a.now) u32.MAX }
{
    selectors(a.selectors.items())
}

#[cycle(levels)]
fn selectors(all: &[Selector]) -> u32
    ensures { result ≡ min (most_of (map selector_nesting all.now)) u32.MAX }
{
    let mut most = 0;
    for s in all {
        most = selector(s).max(most);
    }
    most
}

#[cycle(levels)]
fn selector(s: &Selector) -> u32
    ensures { result ≡ min (selector_nesting s.now) u32.MAX }
{
    match s {
        Selector::Field(_, _) => 0,
        Selector::Index(_, indexes) => inner_expressions(indexes.items()),
        Selector::Dereference(_) => 0,
        Selector::Arguments(_, arguments) => inner_arguments(arguments.items()),
    }
}

/// The nesting of the expressions directly inside a bracket.
#[cycle(levels)]
pub(super) fn inner_expressions(all: &[Expression]) -> u32
    ensures { result ≡ min (most_inside (map expression_nesting all.now)) u32.MAX }
{
    let mut most = 0;
    for e in all {
        most = expression(e).saturating_add(1).max(most);
    }
    most
}

#[cycle(levels)]
fn inner_arguments(all: &[Argument]) -> u32
    ensures { result ≡ min (most_inside (map argument_nesting all.now)) u32.MAX }
{
    let mut most = 0;
    for a in all {
        most = argument(a).saturating_add(1).max(most);
    }
    most
}

#[cycle(levels)]
fn argument(a: &Argument) -> u32
    ensures { result ≡ min (argument_nesting a.now) u32.MAX }
{
    let value = expression(a.value.get());
    match &a.width {
        None => value,
        Some(width) => expression(width.get()).max(value),
    }
}

/// The nesting of the labels of a set constructor.
#[cycle(levels)]
fn inner_labels(all: &[Label]) -> u32
    ensures { result ≡ min (most_inside (map label_nesting all.now)) u32.MAX }
{
    let mut most = 0;
    for l in all {
        most = label(l).saturating_add(1).max(most);
    }
    most
}

#[cycle(levels)]
fn label(l: &Label) -> u32
    ensures { result ≡ min (label_nesting l.now) u32.MAX }
{
    let low = expression(l.low.get());
    match &l.high {
        None => low,
        Some(high) => expression(high.get()).max(low),
    }
}

/// The nesting of labels that stand in no bracket of their own.
#[cycle(levels)]
pub(super) fn labels(all: &[Label]) -> u32
    ensures { result ≡ min (most_of (map label_nesting all.now)) u32.MAX }
{
    let mut most = 0;
    for l in all {
        most = label(l).max(most);
    }
    most
}

#[cycle(levels)]
pub(super) fn component_value(v: &ComponentValue) -> u32
    ensures { result ≡ min (component_value_nesting v.now) u32.MAX }
{
    match v {
        ComponentValue::Expression(e) => expression(e.get()),
        ComponentValue::Bracketed(_, inner) => values(inner.get()),
    }
}

#[cycle(levels)]
fn values(v: &Values) -> u32
    ensures { result ≡ min (values_nesting v.now) u32.MAX }
{
    let most = elements(v.elements.items());
    match &v.otherwise {
        None => most.saturating_add(1),
        Some(other) => component_value(other.get()).max(most).saturating_add(1),
    }
}

#[cycle(levels)]
fn elements(all: &[Element]) -> u32
    ensures { result ≡ min (most_of (map element_nesting all.now)) u32.MAX }
{
    let mut most = 0;
    for e in all {
        most = element(e).max(most);
    }
    most
}

#[cycle(levels)]
fn element(e: &Element) -> u32
    ensures { result ≡ min (element_nesting e.now) u32.MAX }
{
    match e {
        Element::Labelled(_, all, value) => labels(all.items()).max(component_value(value)),
        Element::Variant(_, _, chosen, None) => expression(chosen.get()),
        Element::Variant(_, _, chosen, Some(inner)) => {
            expression(chosen.get()).max(values(inner.get()))
        }
    }
}
