//! The first node of an expression or a component value that is not built.

ghost use Rattle.std.specs.Prelude.{◌≡◌, map};
ghost use Rattle.ep_built.specs.Built.{all_are_built, lines_in, addend_belonging, multiplier_belonging};
ghost use Rattle.ep_built.specs.Built.{selector_belonging, first_in, component_value_unbuilt, element_unbuilt};
ghost use Rattle.ep_built.specs.Built.{factor_unbuilt, argument_unbuilt, access_unbuilt, expression_unbuilt};
ghost use Rattle.ep_built.specs.Built.{label_unbuilt, simple_unbuilt, term_unbuilt, values_unbuilt};

use crate::built::{at_node, forms};
use ep_base::Line;
use ep_tree::{
    Access, Addend, Argument, ComponentValue, Element, Expression, Factor, Label, Multiplier,
    Selector, Simple, Term, Values,
};

#[cycle(lines)]
pub(super) fn expression(e: &Expression) -> Option<Line>
    ensures { result ≡ expression_unbuilt e.now }
{
    let left = simple(&e.left);
    match &e.right {
        None => left,
        Some(comparison) => at_node(
            forms::relation_is_built(comparison.get().operator),
            e.line,
            left.or(simple(&comparison.get().right)),
        ),
    }
}

#[cycle(lines)]
fn simple(s: &Simple) -> Option<Line>
    ensures { result ≡ simple_unbuilt s.now }
{
    let more = s.more.items();
    at_node(
        addends_are_built(more),
        s.line,
        term(&s.first).or(addends(more)),
    )
}

fn addends_are_built(all: &[Addend]) -> bool
    ensures { result ≡ all_are_built (map addend_belonging all.now) }
{
    for addend in all {
        if !forms::adding_is_built(addend.operator) {
            return false;
        }
    }
    true
}

#[cycle(lines)]
fn addends(all: &[Addend]) -> Option<Line>
    ensures { result ≡ lines_in (map addend_belonging all.now) }
{
    for addend in all {
        let line = term(&addend.term);
        if line.is_some() {
            return line;
        }
    }
    None
}

#[cycle(lines)]
fn term(t: &Term) -> Option<Line>
    ensures { result ≡ term_unbuilt t.now }
{
    let more = t.more.items();
    at_node(
        multipliers_are_built(more),
        t.line,
        factor(t.first.get()).or(multipliers(more)),
    )
}

fn multipliers_are_built(all: &[Multiplier]) -> bool
    ensures { result ≡ all_are_built (map multiplier_belonging all.now) }
{
    for multiplier in all {
        if !forms::multiplying_is_built(multiplier.operator) {
            return false;
        }
    }
    true
}

#[cycle(lines)]
fn multipliers(all: &[Multiplier]) -> Option<Line>
    ensures { result ≡ lines_in (map multiplier_belonging all.now) }
{
    for multiplier in all {
        let line = factor(multiplier.factor.get());
        if line.is_some() {
            return line;
        }
    }
    None
}

#[cycle(lines)]
fn factor(f: &Factor) -> Option<Line>
    ensures { result ≡ factor_unbuilt f.now }
{
    let built = forms::factor_is_built(f);
    match f {
        Factor::Access(a) => at_node(built, a.line, access(a)),
        Factor::Number(line, _) => at_node(built, *line, None),
        Factor::Text(line, _) => at_node(built, *line, None),
        Factor::Nil(line) => at_node(built, *line, None),
        Factor::Parenthesized(line, inner) => at_node(built, *line, expression(inner.get())),
        Factor::Not(line, inner) => at_node(built, *line, factor(inner.get())),
        Factor::Set(line, members) => at_node(built, *line, labels(members.items())),
        Factor::Structured(line, _, v) => at_node(built, *line, values(v.get())),
    }
}

#[cycle(lines)]
pub(super) fn access(a: &Access) -> Option<Line>
    ensures { result ≡ access_unbuilt a.now }
{
    let all = a.selectors.items();
    at_node(forms::access_is_built(&a.name, all), a.line, selectors(all))
}

#[cycle(lines)]
pub(super) fn selectors(all: &[Selector]) -> Option<Line>
    ensures { result ≡ lines_in (map selector_belonging all.now) }
{
    for s in all {
        let line = selector(s);
        if line.is_some() {
            return line;
        }
    }
    None
}

#[cycle(lines)]
fn selector(s: &Selector) -> Option<Line>
    ensures { result ≡ (selector_belonging s.now).1 }
{
    match s {
        Selector::Field(_, _) => None,
        Selector::Index(_, all) => expressions(all.items()),
        Selector::Dereference(_) => None,
        Selector::Arguments(_, all) => arguments(all.items()),
    }
}

#[cycle(lines)]
fn expressions(all: &[Expression]) -> Option<Line>
    ensures { result ≡ first_in (map expression_unbuilt all.now) }
{
    for e in all {
        let line = expression(e);
        if line.is_some() {
            return line;
        }
    }
    None
}

#[cycle(lines)]
pub(super) fn arguments(all: &[Argument]) -> Option<Line>
    ensures { result ≡ first_in (map argument_unbuilt all.now) }
{
    for a in all {
        let line = argument(a);
        if line.is_some() {
            return line;
        }
    }
    None
}

#[cycle(lines)]
fn argument(a: &Argument) -> Option<Line>
    ensures { result ≡ argument_unbuilt a.now }
{
    let value = expression(a.value.get());
    match &a.width {
        None => value,
        Some(width) => value.or(expression(width.get())),
    }
}

#[cycle(lines)]
pub(super) fn labels(all: &[Label]) -> Option<Line>
    ensures { result ≡ first_in (map label_unbuilt all.now) }
{
    for l in all {
        let line = label(l);
        if line.is_some() {
            return line;
        }
    }
    None
}

#[cycle(lines)]
fn label(l: &Label) -> Option<Line>
    ensures { result ≡ label_unbuilt l.now }
{
    let low = expression(l.low.get());
    match &l.high {
        None => low,
        Some(high) => low.or(expression(high.get())),
    }
}

#[cycle(lines)]
pub(super) fn component_value(v: &ComponentValue) -> Option<Line>
    ensures { result ≡ component_value_unbuilt v.now }
{
    match v {
        ComponentValue::Expression(e) => expression(e.get()),
        ComponentValue::Bracketed(_, inner) => values(inner.get()),
    }
}

#[cycle(lines)]
fn values(v: &Values) -> Option<Line>
    ensures { result ≡ values_unbuilt v.now }
{
    let line = elements(v.elements.items());
    match &v.otherwise {
        None => line,
        Some(other) => line.or(component_value(other.get())),
    }
}

#[cycle(lines)]
fn elements(all: &[Element]) -> Option<Line>
    ensures { result ≡ first_in (map element_unbuilt all.now) }
{
    for e in all {
        let line = element(e);
        if line.is_some() {
            return line;
        }
    }
    None
}

#[cycle(lines)]
fn element(e: &Element) -> Option<Line>
    ensures { result ≡ element_unbuilt e.now }
{
    match e {
        Element::Labelled(_, all, value) => labels(all.items()).or(component_value(value)),
        Element::Variant(_, _, tag, None) => expression(tag.get()),
        Element::Variant(_, _, tag, Some(inner)) => expression(tag.get()).or(values(inner.get())),
    }
}
