//! Which auxiliary variables the statements of a block need, by the text, as specs/Auxiliaries.antt says. Nothing here takes
//! memory.

ghost use Rattle.std.specs.Prelude.{◌≡◌, map};
ghost use Rattle.ep_stmt_rules.specs.Auxiliaries as spec;
ghost use Rattle.ep_threats.specs.Threats.{any_true};

use ep_tree::{Arm, Compound, Statement};

/// A form of `for` statements.
#[derive(Clone, Copy)]
pub enum ForForm {
    /// With bounds (ISO 10206, 6.9.3.9.2).
    Bounds,
    /// Over the members of a set (ISO 10206, 6.9.3.9.3).
    Members,
}

/// Whether a statement part has a `for` with bounds, however deep.
pub fn has_for(statements: &Compound) -> bool
    ensures { result ≡ spec.has_for statements.now }
{
    compound_has(statements, ForForm::Bounds)
}

/// Whether it has one over members.
pub fn has_for_in(statements: &Compound) -> bool
    ensures { result ≡ spec.has_for_in statements.now }
{
    compound_has(statements, ForForm::Members)
}

/// Whether there is a `for` of this form among the statements.
#[cycle(for_statements)]
fn compound_has(c: &Compound, form: ForForm) -> bool
    ensures { result ≡ spec.compound_has form c.now }
{
    any_has(c.statements.items(), form)
}

#[cycle(for_statements)]
fn any_has(all: &[Statement], form: ForForm) -> bool
    ensures { result ≡ any_true (map (spec.statement_has form) all.now) }
{
    for s in all {
        if statement_has(s, form) {
            return true;
        }
    }
    false
}

#[cycle(for_statements)]
fn statement_has(s: &Statement, form: ForForm) -> bool
    ensures { result ≡ spec.statement_has form s.now }
{
    match s {
        Statement::Empty(_) | Statement::Assignment(_, _, _) | Statement::Call(_, _) => false,
        Statement::Compound(c) => compound_has(c, form),
        Statement::If(_, _, then, None) => statement_has(then.get(), form),
        Statement::If(_, _, then, Some(other)) => {
            statement_has(then.get(), form) || statement_has(other.get(), form)
        }
        Statement::Case(_, _, arms, None) => any_arm_has(arms.items(), form),
        Statement::Case(_, _, arms, Some(other)) => {
            any_arm_has(arms.items(), form) || any_has(other.statements.items(), form)
        }
        Statement::Repeat(_, all, _) => any_has(all.items(), form),
        Statement::While(_, _, body) => statement_has(body.get(), form),
        Statement::For(_, _, _, _, _, body) => is_bounded(form) || statement_has(body.get(), form),
        Statement::ForIn(_, _, _, body) => {
            is_over_members(form) || statement_has(body.get(), form)
        }
        Statement::With(_, _, body) => statement_has(body.get(), form),
    }
}

#[cycle(for_statements)]
fn any_arm_has(all: &[Arm], form: ForForm) -> bool
    ensures { result ≡ any_true (map (spec.arm_has form) all.now) }
{
    for a in all {
        if arm_has(a, form) {
            return true;
        }
    }
    false
}

#[cycle(for_statements)]
fn arm_has(a: &Arm, form: ForForm) -> bool
    ensures { result ≡ spec.arm_has form a.now }
{
    statement_has(a.body.get(), form)
}

fn is_bounded(form: ForForm) -> bool
    ensures { result ≡ spec.is_bounded form }
{
    match form {
        ForForm::Bounds => true,
        ForForm::Members => false,
    }
}

fn is_over_members(form: ForForm) -> bool
    ensures { result ≡ spec.is_over_members form }
{
    match form {
        ForForm::Bounds => false,
        ForForm::Members => true,
    }
}
