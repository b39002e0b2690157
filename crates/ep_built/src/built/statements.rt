//! The first node of a statement that is not built.

ghost use Rattle.std.specs.Prelude.{◌≡◌, map};
ghost use Rattle.ep_built.specs.Built.{first_in, access_unbuilt, written_value_unbuilt, written_unbuilt, writes};
ghost use Rattle.ep_built.specs.Built.{call_arguments, call_unbuilt, in_arguments, statement_unbuilt, arm_unbuilt};
ghost use Rattle.ep_built.specs.Built.{compound_unbuilt};

use crate::built::expressions::{
    access, arguments, component_value, expression, labels, selectors,
};
use crate::built::{at_node, forms, names};
use ep_base::{Line, Name};
use ep_tree::{Access, Argument, Arm, Compound, Expression, Selector, Statement};

/// The first line in a compound statement, whose own form the node around it tells.
#[cycle(lines)]
pub(super) fn compound(c: &Compound) -> Option<Line>
    ensures { result ≡ compound_unbuilt c.now }
{
    statements(c.statements.items())
}

#[cycle(lines)]
fn statements(all: &[Statement]) -> Option<Line>
    ensures { result ≡ first_in (map statement_unbuilt all.now) }
{
    for s in all {
        let line = statement(s);
        if line.is_some() {
            return line;
        }
    }
    None
}

#[cycle(lines)]
fn statement(s: &Statement) -> Option<Line>
    ensures { result ≡ statement_unbuilt s.now }
{
    let built = forms::statement_is_built(s);
    match s {
        Statement::Empty(line) => at_node(built, *line, None),
        Statement::Assignment(line, a, value) => {
            at_node(built, *line, access(a).or(component_value(value)))
        }
        Statement::Call(line, a) => at_node(built, *line, call(a)),
        Statement::Compound(c) => at_node(built, c.line, compound(c)),
        Statement::If(line, condition, then, None) => {
            let inner = expression(condition.get()).or(statement(then.get()));
            at_node(built, *line, inner)
        }
        Statement::If(line, condition, then, Some(other)) => {
            let both = statement(then.get()).or(statement(other.get()));
            at_node(built, *line, expression(condition.get()).or(both))
        }
        Statement::Case(line, selector, all, None) => {
            let inner = expression(selector.get()).or(arms(all.items()));
            at_node(built, *line, inner)
        }
        Statement::Case(line, selector, all, Some(other)) => {
            let otherwise = statements(other.statements.items());
            let all = arms(all.items()).or(otherwise);
            at_node(built, *line, expression(selector.get()).or(all))
        }
        Statement::While(line, condition, body) => {
            let inner = expression(condition.get()).or(statement(body.get()));
            at_node(built, *line, inner)
        }
        Statement::Repeat(line, all, condition) => {
            let inner = statements(all.items()).or(expression(condition.get()));
            at_node(built, *line, inner)
        }
        Statement::For(line, _, start, _, end, body) => {
            let inner = expression(end.get()).or(statement(body.get()));
            at_node(built, *line, expression(start.get()).or(inner))
        }
        Statement::ForIn(line, _, members, body) => {
            let inner = expression(members.get()).or(statement(body.get()));
            at_node(built, *line, inner)
        }
        Statement::With(line, all, body) => {
            let inner = accesses(all.items()).or(statement(body.get()));
            at_node(built, *line, inner)
        }
    }
}

#[cycle(lines)]
fn arms(all: &[Arm]) -> Option<Line>
    ensures { result ≡ first_in (map arm_unbuilt all.now) }
{
    for a in all {
        let line = arm(a);
        if line.is_some() {
            return line;
        }
    }
    None
}

#[cycle(lines)]
fn arm(a: &Arm) -> Option<Line>
    ensures { result ≡ arm_unbuilt a.now }
{
    labels(a.labels.items()).or(statement(a.body.get()))
}

fn accesses(all: &[Access]) -> Option<Line>
    ensures { result ≡ first_in (map access_unbuilt all.now) }
{
    for a in all {
        let line = access(a);
        if line.is_some() {
            return line;
        }
    }
    None
}

/// The first line in the selectors of a call statement.
fn call(a: &Access) -> Option<Line>
    ensures { result ≡ call_unbuilt a.now }
{
    let all = a.selectors.items();
    call_arguments(&a.name, all).or(selectors(forms::behind_call(all)))
}

/// The first line in the arguments of a call of this name.
fn call_arguments(name: &Name, selectors: &[Selector]) -> Option<Line>
    ensures { result ≡ in_arguments (writes name.now) (call_arguments selectors.now) }
{
    match selectors {
        [Selector::Arguments(_, all), ..] => {
            if names::writes(name) {
                written(all.items())
            } else {
                arguments(all.items())
            }
        }
        _ => None,
    }
}

fn written(all: &[Argument]) -> Option<Line>
    ensures { result ≡ first_in (map written_unbuilt all.now) }
{
    for a in all {
        let line = written_argument(a);
        if line.is_some() {
            return line;
        }
    }
    None
}

fn written_argument(a: &Argument) -> Option<Line>
    ensures { result ≡ written_unbuilt a.now }
{
    let value = written_value(a.value.get());
    match &a.width {
        None => value,
        Some(width) => value.or(expression(width.get())),
    }
}

fn written_value(e: &Expression) -> Option<Line>
    ensures { result ≡ written_value_unbuilt e.now }
{
    if forms::is_bare_text(e) {
        None
    } else {
        expression(e)
    }
}
