//! The numbers of the variables that stand for the records of `with` statements (ISO 10206, 6.9.3.10): each one has the
//! number behind those before it in the text.

ghost use Rattle.std.specs.Prelude.{◌≡◌, ℕ, ◌+◌, IfOk, min};
ghost use Rattle.ep_typed.specs.Auxiliaries.{with_variables, with_variables_in};
ghost use Rattle.ep_typed.specs.Trees as tree;
ghost use Rattle.ep_typed.specs.Trees.{Arms, Stmt};
ghost use Rattle.ep_typed.specs.Viewed.{arm_of, stmt_of};
ghost use Rattle.ep_stmt_rules.specs.Answers.{AnswersRow, arms_of, numbered, passed};
ghost use Rattle.ep_stmt_rules.specs.Statements as spec;
ghost use Rattle.ep_stmt_rules.specs.Statements.{Judgement};

use crate::outcome::{Admission, CheckRefusal};
use crate::statements::Row;
use ep_base::{Boxed, NoMemory};
use ep_typed::{CaseArm, CaseArms, TypedStmt, with_count, with_count_in};
use std::alloc::AllocError;

/// The number behind so many variables, of which there are at most the greatest `usize`.
fn behind(withs: u32, count: usize) -> Result<u32, NoMemory>
    ensures { (n : ℕ) → count ≡ min n usize.MAX → IfOk result (λ next. next ≡ withs + n) }
{
    let Ok(more) = u32::try_from(count) else {
        return Err(AllocError);
    };
    match withs.checked_add(more) {
        Some(next) => Ok(next),
        None => Err(AllocError),
    }
}

/// The number behind a statement.
#[tactic(auto, using(crate::proofs::Behind::behind_passes))]
pub fn behind_statement(withs: u32, found: &Admission<Boxed<TypedStmt>>) -> Result<u32, NoMemory>
    ensures { (c : spec.Context) → IfOk result (λ next.
        numbered c next ≡ spec.behind with_variables (numbered c withs) (passed stmt_of found.now)) }
{
    match found {
        Admission::Passes(form) => behind(withs, with_count(form.get())),
        Admission::Waits(_) => Ok(withs),
    }
}

/// The number behind an arm of a `case`.
#[tactic(auto, using(crate::proofs::Behind::behind_passes))]
pub fn behind_arm(withs: u32, found: &Admission<Boxed<CaseArm>>) -> Result<u32, NoMemory>
    ensures { (c : spec.Context) → IfOk result (λ next. numbered c next
        ≡ spec.behind (λ (a : tree.Arm). with_variables a.1) (numbered c withs) (passed arm_of found.now)) }
{
    match found {
        Admission::Passes(form) => behind(withs, with_count(form.get().body.get())),
        Admission::Waits(_) => Ok(withs),
    }
}

/// The number behind all arms of a `case`.
#[tactic(auto, using(crate::proofs::Behind::behind_passes))]
fn behind_all(withs: u32, found: &Admission<CaseArms>) -> Result<u32, NoMemory>
    ensures { (c : spec.Context) → IfOk result (λ next.
        numbered c next ≡ spec.behind with_variables_in (numbered c withs) (passed arms_of found.now)) }
{
    match found {
        Admission::Passes(all) => behind(withs, with_count_in(all.items())),
        Admission::Waits(_) => Ok(withs),
    }
}

/// The number behind the `then` part of an `if`.
#[tactic(auto, using(crate::proofs::Behind::behind_refused))]
pub fn behind_then(withs: u32, then: &Row<Boxed<TypedStmt>>) -> Result<u32, NoMemory>
    ensures { (c : spec.Context) (x : Judgement Stmt) → AnswersRow stmt_of then.now x → IfOk result (λ next.
        numbered c next ≡ spec.behind with_variables (numbered c withs) x) }
{
    match then {
        Ok(found) => behind_statement(withs, found),
        Err(CheckRefusal::Broken(_)) => Ok(withs),
        Err(CheckRefusal::NotBuilt(_)) => Ok(withs),
        Err(CheckRefusal::NoMemory) => Err(AllocError),
    }
}

/// The number behind the arms of a `case`.
#[tactic(auto, using(crate::proofs::Behind::behind_refused))]
pub fn behind_arms(withs: u32, arms: &Row<CaseArms>) -> Result<u32, NoMemory>
    ensures { (c : spec.Context) (x : Judgement Arms) → AnswersRow arms_of arms.now x → IfOk result (λ next.
        numbered c next ≡ spec.behind with_variables_in (numbered c withs) x) }
{
    match arms {
        Ok(found) => behind_all(withs, found),
        Err(CheckRefusal::Broken(_)) => Ok(withs),
        Err(CheckRefusal::NotBuilt(_)) => Ok(withs),
        Err(CheckRefusal::NoMemory) => Err(AllocError),
    }
}
