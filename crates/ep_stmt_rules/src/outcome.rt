//! What a check comes to, of a whole component and of the items in it.

ghost use Rattle.std.specs.Prelude.{◌≡◌};
ghost use Rattle.ep_stmt_rules.specs.Outcomes.{refused_at, item_at};
ghost use Rattle.ep_stmt_rules.specs.declared.outcome.CheckRefusal.TheVariants.{NoMemory};

use ep_base::Line;
use ep_check_expr::Broken;
use ep_rules::Refusal;
use std::alloc::AllocError;

/// Why a component has no typed unit.
#[derive(Clone, Copy, Drop)]
pub enum CheckRefusal {
    /// The first item that breaks a rule.
    Broken(Broken),
    /// No rule is broken, and the first item that is not built begins on this line.
    NotBuilt(Line),
    /// Memory is wanting.
    NoMemory,
}

impl From<AllocError> for CheckRefusal {
    ghost from_gives = { λ _ e. e ≡ NoMemory };

    fn from(_e: AllocError) -> CheckRefusal {
        CheckRefusal::NoMemory
    }
}

/// What items come to that break no rule: their form, or the line of the first one that is not built.
#[derive(Drop)]
pub enum Admission<T> {
    /// Their form.
    Passes(T),
    /// The line of the first one that is not built.
    Waits(Line),
}

/// The refusal of an item on this line.
pub fn refused_at(line: Line, refusal: Refusal) -> CheckRefusal
    ensures { result ≡ refused_at line refusal }
{
    match refusal {
        Refusal::Rule(rule) => CheckRefusal::Broken(Broken { rule, line }),
        Refusal::NoMemory => CheckRefusal::NoMemory,
    }
}

/// One item on this line.
pub fn item_at<T>(
    line: Line,
    form: Result<Option<T>, Refusal>,
) -> Result<Admission<T>, CheckRefusal>
    ensures { result ≡ item_at line form }
{
    match form {
        Ok(Some(form)) => Ok(Admission::Passes(form)),
        Ok(None) => Ok(Admission::Waits(line)),
        Err(refusal) => Err(refused_at(line, refusal)),
    }
}
