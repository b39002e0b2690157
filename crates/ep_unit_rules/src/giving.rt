//! Whether the text of statements gives the variable of a name a value.

ghost use Rattle.std.specs.Prelude.{◌≡◌, map, true};
ghost use Rattle.ep_threats.specs.Threats.{any_true};
ghost use Rattle.ep_unit_rules.specs.Giving as spec;
ghost use Rattle.ep_unit_rules.specs.Giving.{access_gives, addend_gives, any_inside, argument_gives, arm_gives, component_value_gives, element_gives, expression_gives, factor_gives, label_gives, multiplier_gives, selector_gives, simple_gives, statement_gives, term_gives, values_give};

use ep_base::Name;
use ep_tree::{
    Access, Addend, Argument, Arm, ComponentValue, Compound, Element, Expression, Factor, Label,
    Multiplier, Selector, Simple, Statement, Term, Values,
};

/// `expr`. It may be an access alone as an argument, here and below.
#[cycle(giving_expressions)]
fn expression(name: &Name, e: &Expression, alone: bool) -> bool
    ensures { result ≡ expression_gives name.now e.now alone }
{
    match &e.right {
        None => simple(name, &e.left, alone),
        Some(comparison) => {
            simple(name, &e.left, false) || simple(name, &comparison.get().right, false)
        }
    }
}

/// `simple`
#[cycle(giving_expressions)]
fn simple(name: &Name, s: &Simple, alone: bool) -> bool
    ensures { result ≡ simple_gives name.now s.now alone }
{
    let more = s.more.items();
    match more {
        [] => term(name, &s.first, alone && s.sign.is_none()),
        [_, ..] => term(name, &s.first, false) || addends(name, more),
    }
}

#[cycle(giving_expressions)]
fn addends(name: &Name, all: &[Addend]) -> bool
    ensures { result ≡ any_true (map (addend_gives name.now) all.now) }
{
    for addend in all {
        if term(name, &addend.term, false) {
            return true;
        }
    }
    false
}

/// `term`
#[cycle(giving_expressions)]
fn term(name: &Name, t: &Term, alone: bool) -> bool
    ensures { result ≡ term_gives name.now t.now alone }
{
    let more = t.more.items();
    match more {
        [] => factor(name, t.first.get(), alone),
        [_, ..] => factor(name, t.first.get(), false) || multipliers(name, more),
    }
}

#[cycle(giving_expressions)]
fn multipliers(name: &Name, all: &[Multiplier]) -> bool
    ensures { result ≡ any_true (map (multiplier_gives name.now) all.now) }
{
    for multiplier in all {
        if factor(name, multiplier.factor.get(), false) {
            return true;
        }
    }
    false
}

/// `factor`
#[cycle(giving_expressions)]
fn factor(name: &Name, f: &Factor, alone: bool) -> bool
    ensures { result ≡ factor_gives name.now f.now alone }
{
    match f {
        Factor::Access(a) => access(name, a, alone),
        Factor::Number(_, _) | Factor::Text(_, _) | Factor::Nil(_) => false,
        Factor::Parenthesized(_, inner) => expression(name, inner.get(), false),
        Factor::Not(_, inner) => factor(name, inner.get(), false),
        Factor::Set(_, members) => labels(name, members.items()),
        Factor::Structured(_, _, inner) => values(name, inner.get()),
    }
}

/// `access`
#[cycle(giving_expressions)]
fn access(name: &Name, a: &Access, alone: bool) -> bool
    ensures { result ≡ access_gives name.now a.now alone }
{
    alone && a.name.bytes() == name.bytes() || selectors(name, a.selectors.items())
}

#[cycle(giving_expressions)]
fn selectors(name: &Name, all: &[Selector]) -> bool
    ensures { result ≡ any_true (map (selector_gives name.now) all.now) }
{
    for s in all {
        if selector(name, s) {
            return true;
        }
    }
    false
}

#[cycle(giving_expressions)]
fn selector(name: &Name, s: &Selector) -> bool
    ensures { result ≡ selector_gives name.now s.now }
{
    match s {
        Selector::Field(_, _) | Selector::Dereference(_) => false,
        Selector::Index(_, all) => indexes(name, all.items()),
        Selector::Arguments(_, all) => arguments(name, all.items()),
    }
}

#[cycle(giving_expressions)]
fn indexes(name: &Name, all: &[Expression]) -> bool
    ensures { result ≡ any_inside (map (expression_gives name.now) all.now) }
{
    for e in all {
        if expression(name, e, false) {
            return true;
        }
    }
    false
}

#[cycle(giving_expressions)]
fn arguments(name: &Name, all: &[Argument]) -> bool
    ensures { result ≡ any_true (map (argument_gives name.now) all.now) }
{
    for a in all {
        if argument(name, a) {
            return true;
        }
    }
    false
}

/// `arg`
#[cycle(giving_expressions)]
fn argument(name: &Name, a: &Argument) -> bool
    ensures { result ≡ argument_gives name.now a.now }
{
    match &a.width {
        None => expression(name, a.value.get(), true),
        Some(width) => {
            expression(name, a.value.get(), true) || expression(name, width.get(), false)
        }
    }
}

#[cycle(giving_expressions)]
fn labels(name: &Name, all: &[Label]) -> bool
    ensures { result ≡ any_true (map (label_gives name.now) all.now) }
{
    for l in all {
        if label(name, l) {
            return true;
        }
    }
    false
}

/// `label`
#[cycle(giving_expressions)]
fn label(name: &Name, l: &Label) -> bool
    ensures { result ≡ label_gives name.now l.now }
{
    match &l.high {
        None => expression(name, l.low.get(), false),
        Some(high) => {
            expression(name, l.low.get(), false) || expression(name, high.get(), false)
        }
    }
}

/// `cvalue`
#[cycle(giving_expressions)]
fn component_value(name: &Name, v: &ComponentValue) -> bool
    ensures { result ≡ component_value_gives name.now v.now }
{
    match v {
        ComponentValue::Expression(e) => expression(name, e.get(), false),
        ComponentValue::Bracketed(_, inner) => values(name, inner.get()),
    }
}

/// `values`
#[cycle(giving_expressions)]
fn values(name: &Name, v: &Values) -> bool
    ensures { result ≡ values_give name.now v.now }
{
    match &v.otherwise {
        None => elements(name, v.elements.items()),
        Some(other) => { elements(name, v.elements.items()) || component_value(name, other.get()) }
    }
}

#[cycle(giving_expressions)]
fn elements(name: &Name, all: &[Element]) -> bool
    ensures { result ≡ any_true (map (element_gives name.now) all.now) }
{
    for e in all {
        if element(name, e) {
            return true;
        }
    }
    false
}

/// `element`
#[cycle(giving_expressions)]
fn element(name: &Name, e: &Element) -> bool
    ensures { result ≡ element_gives name.now e.now }
{
    match e {
        Element::Labelled(_, all, value) => {
            labels(name, all.items()) || component_value(name, value)
        }
        Element::Variant(_, _, tag, None) => expression(name, tag.get(), false),
        Element::Variant(_, _, tag, Some(inner)) => {
            expression(name, tag.get(), false) || values(name, inner.get())
        }
    }
}

/// Whether the text of a statement part gives the variable of this name a value.
#[cycle(giving_statements)]
pub(crate) fn gives(name: &Name, statements: &Compound) -> bool
    ensures { result ≡ spec.gives name.now statements.now }
{
    any_gives(name, statements.statements.items())
}

#[cycle(giving_statements)]
fn any_gives(name: &Name, all: &[Statement]) -> bool
    ensures { result ≡ any_true (map (statement_gives name.now) all.now) }
{
    for s in all {
        if statement(name, s) {
            return true;
        }
    }
    false
}

/// A statement, with those inside of it.
#[cycle(giving_statements)]
fn statement(name: &Name, s: &Statement) -> bool
    ensures { result ≡ statement_gives name.now s.now }
{
    match s {
        Statement::Empty(_) => false,
        Statement::Assignment(_, target, value) => {
            access(name, target, true) || component_value(name, value)
        }
        Statement::Call(_, callee) => access(name, callee, false),
        Statement::Compound(c) => gives(name, c),
        Statement::If(_, condition, then, None) => {
            expression(name, condition.get(), false) || statement(name, then.get())
        }
        Statement::If(_, condition, then, Some(other)) => {
            expression(name, condition.get(), false)
                || statement(name, then.get())
                || statement(name, other.get())
        }
        Statement::Case(_, selector, arms, None) => {
            expression(name, selector.get(), false) || any_arm_gives(name, arms.items())
        }
        Statement::Case(_, selector, arms, Some(other)) => {
            expression(name, selector.get(), false)
                || any_arm_gives(name, arms.items())
                || any_gives(name, other.statements.items())
        }
        Statement::Repeat(_, all, condition) => {
            any_gives(name, all.items()) || expression(name, condition.get(), false)
        }
        Statement::While(_, condition, body) => {
            expression(name, condition.get(), false) || statement(name, body.get())
        }
        Statement::For(_, variable, start, _, end, body) => {
            bounds_give(name, variable, start.get(), end.get()) || statement(name, body.get())
        }
        Statement::ForIn(_, variable, members, body) => {
            members_give(name, variable, members.get()) || statement(name, body.get())
        }
        Statement::With(_, accesses, body) => {
            any_is_given(name, accesses.items()) || statement(name, body.get())
        }
    }
}

/// Whether a `for` has the variable as control variable, or its bounds give it a value.
fn bounds_give(name: &Name, variable: &Name, start: &Expression, end: &Expression) -> bool
    ensures { result ≡ spec.bounds_give name.now variable.now start.now end.now }
{
    variable.bytes() == name.bytes()
        || expression(name, start, false)
        || expression(name, end, false)
}

/// Alike a `for` over members.
fn members_give(name: &Name, variable: &Name, members: &Expression) -> bool
    ensures { result ≡ spec.members_give name.now variable.now members.now }
{
    variable.bytes() == name.bytes() || expression(name, members, false)
}

/// Whether one of these accesses is the variable or a component of it, or has selectors that give it a value.
fn any_is_given(name: &Name, all: &[Access]) -> bool
    ensures { result ≡ any_true (map (λ a. access_gives name.now a true) all.now) }
{
    for a in all {
        if access(name, a, true) {
            return true;
        }
    }
    false
}

#[cycle(giving_statements)]
fn any_arm_gives(name: &Name, all: &[Arm]) -> bool
    ensures { result ≡ any_true (map (arm_gives name.now) all.now) }
{
    for a in all {
        if arm(name, a) {
            return true;
        }
    }
    false
}

#[cycle(giving_statements)]
fn arm(name: &Name, a: &Arm) -> bool
    ensures { result ≡ arm_gives name.now a.now }
{
    statement(name, a.body.get())
}
