//! The nesting of statements.

ghost use Rattle.std.specs.Prelude.{◌≡◌, min, max, map};
ghost use Rattle.ep_tree.specs.Nesting.{most_of, access_nesting, statement_nesting, arm_nesting, compound_nesting};

use crate::expression::Access;
use crate::levels::expressions::{access, component_value, expression, labels};
use crate::statement::{Arm, Compound, Statement};

#[cycle(levels)]
pub(super) fn statement(s: &Statement) -> u32
    ensures { result ≡ min (statement_nesting s.now) u32.MAX }
{
    match s {
        Statement::Empty(_) => 1,
        Statement::Assignment(_, a, value) => {
            access(a).max(component_value(value)).saturating_add(1)
        }
        Statement::Call(_, a) => access(a).saturating_add(1),
        Statement::Compound(c) => compound(c).saturating_add(1),
        Statement::If(_, condition, then, None) => {
            expression(condition.get())
                .max(statement(then.get()))
                .saturating_add(1)
        }
        Statement::If(_, condition, then, Some(other)) => {
            expression(condition.get())
                .max(statement(then.get()))
                .max(statement(other.get()))
                .saturating_add(1)
        }
        Statement::Case(_, selector, all, None) => {
            expression(selector.get())
                .max(arms(all.items()))
                .saturating_add(1)
        }
        Statement::Case(_, selector, all, Some(other)) => {
            expression(selector.get())
                .max(arms(all.items()))
                .max(statements(other.statements.items()))
                .saturating_add(1)
        }
        Statement::While(_, condition, body) => {
            expression(condition.get())
                .max(statement(body.get()))
                .saturating_add(1)
        }
        Statement::Repeat(_, all, condition) => {
            statements(all.items())
                .max(expression(condition.get()))
                .saturating_add(1)
        }
        Statement::For(_, _, start, _, end, body) => {
            expression(start.get())
                .max(expression(end.get()))
                .max(statement(body.get()))
                .saturating_add(1)
        }
        Statement::ForIn(_, _, members, body) => {
            expression(members.get())
                .max(statement(body.get()))
                .saturating_add(1)
        }
        Statement::With(_, all, body) => {
            accesses(all.items())
                .max(statement(body.get()))
                .saturating_add(1)
        }
    }
}

#[cycle(levels)]
pub(super) fn compound(c: &Compound) -> u32
    ensures { result ≡ min (compound_nesting c.now) u32.MAX }
{
    statements(c.statements.items())
}

#[cycle(levels)]
fn statements(all: &[Statement]) -> u32
    ensures { result ≡ min (most_of (map statement_nesting all.now)) u32.MAX }
{
    let mut most = 0;
    for s in all {
        most = statement(s).max(most);
    }
    most
}

#[cycle(levels)]
fn arms(all: &[Arm]) -> u32
    ensures { result ≡ min (most_of (map arm_nesting all.now)) u32.MAX }
{
    let mut most = 0;
    for a in all {
        most = arm(a).max(most);
    }
    most
}

#[cycle(levels)]
fn arm(a: &Arm) -> u32
    ensures { result ≡ min (arm_nesting a.now) u32.MAX }
{
    labels(a.labels.items()).max(statement(a.body.get()))
}

fn accesses(all: &[Access]) -> u32
    ensures { result ≡ min (most_of (map access_nesting all.now)) u32.MAX }
{
    let mut most = 0;
    for a in all {
        most = access(a).max(most);
    }
    most
}
