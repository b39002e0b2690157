//! Statements.

use crate::dump::Dump;
use crate::expressions::{access, component_value, expression, labels};
use ep_base::{Line, Name};
use ep_tree::{Access, Arm, Compound, Direction, Expression, Otherwise, Statement};

#[cycle(statement)]
pub fn statements(all: &[Statement], out: &mut Dump) {
    out.enter();
    for s in all {
        statement(s, out);
    }
    out.leave();
}

#[cycle(statement)]
pub fn inner(s: &Statement, out: &mut Dump) {
    out.enter();
    statement(s, out);
    out.leave();
}

#[cycle(statement)]
pub fn compound(c: &Compound, out: &mut Dump) {
    out.begin(c.line, "compound");
    statements(c.statements.items(), out)
}

#[cycle(statement)]
fn statement(s: &Statement, out: &mut Dump) {
    match s {
        Statement::Empty(line) => out.begin(*line, "empty"),
        Statement::Assignment(line, place, value) => {
            out.begin(*line, "assignment");
            access(place, out);
            out.word(":=");
            component_value(value, out)
        }
        Statement::Call(line, called) => {
            out.begin(*line, "call");
            access(called, out)
        }
        Statement::Compound(c) => compound(c, out),
        Statement::If(line, condition, yes, no) => {
            with_condition(*line, "if", condition.get(), out);
            inner(yes.get(), out);
            match no {
                Some(no) => inner(no.get(), out),
                None => {}
            }
        }
        Statement::Case(line, index, all, other) => {
            with_condition(*line, "case", index.get(), out);
            arms(all.items(), out);
            match other {
                Some(other) => otherwise(other, out),
                None => {}
            }
        }
        _ => repetitive(s, out),
    }
}

/// The statements that repeat another one, and `with`.
#[cycle(statement)]
fn repetitive(s: &Statement, out: &mut Dump) {
    match s {
        Statement::While(line, condition, body) => {
            with_condition(*line, "while", condition.get(), out);
            inner(body.get(), out)
        }
        Statement::Repeat(line, all, condition) => {
            with_condition(*line, "repeat until", condition.get(), out);
            statements(all.items(), out)
        }
        Statement::For(line, name, first, direction, last, body) => {
            for_beginning(*line, name, *direction, out);
            expression(first.get(), out);
            out.word("last");
            expression(last.get(), out);
            inner(body.get(), out)
        }
        Statement::ForIn(line, name, members, body) => {
            out.begin(*line, "for in");
            out.name(name);
            expression(members.get(), out);
            inner(body.get(), out)
        }
        Statement::With(line, all, body) => {
            with_beginning(*line, all.items(), out);
            inner(body.get(), out)
        }
        _ => {}
    }
}

/// A statement that begins with an expression.
fn with_condition(line: Line, word: &str, condition: &Expression, out: &mut Dump) {
    out.begin(line, word);
    expression(condition, out)
}

/// The beginning of a `for` that counts.
fn for_beginning(line: Line, name: &Name, direction: Direction, out: &mut Dump) {
    let word = match direction {
        Direction::To => "for to",
        Direction::Downto => "for downto",
    };
    out.begin(line, word);
    out.name(name);
    out.word("first")
}

/// The beginning of a `with`.
fn with_beginning(line: Line, all: &[Access], out: &mut Dump) {
    out.begin(line, "with");
    for each in all {
        access(each, out);
    }
}

#[cycle(statement)]
fn arms(all: &[Arm], out: &mut Dump) {
    out.enter();
    for arm in all {
        out.begin(arm.line, "arm");
        labels(arm.labels.items(), out);
        inner(arm.body.get(), out);
    }
    out.leave();
}

#[cycle(statement)]
fn otherwise(other: &Otherwise, out: &mut Dump) {
    out.enter();
    out.begin(other.line, "otherwise");
    statements(other.statements.items(), out);
    out.leave();
}
