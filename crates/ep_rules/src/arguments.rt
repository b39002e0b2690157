//! Values that are given to variables, and the arguments of a call of a procedure or function of a unit.

ghost use Rattle.std.specs.Prelude.{◌≡◌, ◌++◌, ◌∷◌, [], IfOk, map};
ghost use Rattle.std.specs.Option.{option_map};
ghost use Rattle.ep_typed.specs.Viewed.{actual_of, expr_of};
ghost use Rattle.ep_rules.specs.Answers.{AnswersJudged, taken_of, typed_of};
ghost use Rattle.ep_rules.specs.Arguments.{IsReading, IsReadingIf, accessed, actual_taken, argument_taken, given_to, joined, nothing_taken, threatened, unless_protected, value_taken, variable_taken};
ghost use Rattle.ep_rules.specs.Judgements.{Accepts, both, when_accepted};
ghost use Rattle.ep_rules.specs.Operators.{map_both};

use crate::access::Access;
use crate::forms::{Refusal, Typed};
use ep_base::{Boxed, List, NoMemory};
use ep_scope::{FormalParameter, Host, Kind, Protection, TypeName, rule, same_host, same_type};
use ep_typed::{Actual, Actuals, FormalMode, TypedExpr};
use std::alloc::Global;

/// What is given for formal parameters: the actual parameters, where all are built, and how deep the deepest argument is.
pub struct Taken {
    /// The actual parameters.
    pub actuals: Option<Actuals>,
    /// The depth.
    pub depth: u32,
}

impl Drop for Taken {
    fn drop(self) {
        let Taken {
            actuals: _,
            depth: _,
        } = self;
    }
}

/// The form of a value that is given to something of this kind, where it is built.
pub fn given_value(to: Kind, value: Typed) -> Result<Option<Boxed<TypedExpr>>, Refusal>
    ensures { AnswersJudged (option_map expr_of) result
        (given_to (λ x. x) to value.kind (option_map expr_of value.form)) }
{
    match (to, value.kind) {
        (Kind::Ordinal(left), Kind::Ordinal(right)) if same_host(left, right) => {
            Ok(value.into_form())
        }
        (Kind::Ordinal(Host::Char), Kind::Text) => Ok(None),
        (Kind::Structured(left), Kind::Structured(right)) if left == right => {
            Ok(value.into_form())
        }
        (Kind::Set(left), Kind::Set(right)) if same_host(left, right) => Ok(value.into_form()),
        (Kind::Set(_), Kind::EmptySet) => Ok(value.into_form()),
        _ => Err(Refusal::Rule(rule::ASSIGNMENT)),
    }
}

/// The value for a value parameter of this kind, where it is built.
fn value_taken(kind: Kind, value: Typed) -> Result<Option<Actual>, Refusal>
    ensures { AnswersJudged (option_map actual_of) result (value_taken kind (typed_of value)) }
{
    let Some(form) = given_value(kind, value)? else {
        return Ok(None);
    };
    Ok(Some(Actual::Value(form)))
}

/// The variable whose value is read, where it is built.
fn accessed(value: Typed) -> Option<Actual>
    requires { IsReadingIf (option_map expr_of value.form) }
    ensures { option_map actual_of result ≡ accessed (option_map expr_of value.form) }
{
    let place = value.into_place()?;
    Some(Actual::Variable(place))
}

/// The variable for a variable parameter of this type, which is no tag.
fn variable_taken(parameter: TypeName, value: Typed) -> Result<Option<Actual>, Refusal>
    requires { IsReading value.access (option_map expr_of value.form) }
    ensures { AnswersJudged (option_map actual_of) result
        (variable_taken parameter value.access (option_map expr_of value.form)) }
{
    match &value.access {
        Access::Variable(of, _) => {
            if same_type(parameter, *of) {
                Ok(accessed(value))
            } else {
                Err(Refusal::Rule(rule::VARIABLE_ARGUMENT))
            }
        }
        Access::Tag(_, _, _) => Err(Refusal::Rule(rule::ARGUMENT_COMPONENT)),
        Access::File => Err(Refusal::Rule(rule::VARIABLE_ARGUMENT)),
        Access::Constant => Err(Refusal::Rule(rule::CONSTANT_THREATENED)),
        Access::Value => Err(Refusal::Rule(rule::VARIABLE_NEEDED)),
    }
}

/// What is protected is not threatened.
pub fn unless_protected(protection: Protection) -> Result<(), Refusal>
    ensures { AnswersJudged (λ done. done) result (unless_protected protection) }
{
    match protection {
        Protection::Unprotected => Ok(()),
        Protection::Protected => Err(Refusal::Rule(rule::PROTECTED)),
    }
}

/// A variable is not protected that is given for a variable parameter that is not.
fn threatened(access: &Access) -> Result<(), Refusal>
    ensures { AnswersJudged (λ done. done) result (threatened access.now) }
{
    match access {
        Access::Variable(_, protection) | Access::Tag(_, protection, _) => {
            unless_protected(*protection)
        }
        _ => Ok(()),
    }
}

/// The variable for a variable parameter of this type that is not protected.
fn unprotected_taken(parameter: TypeName, value: Typed) -> Result<Option<Actual>, Refusal>
    requires { IsReading value.access (option_map expr_of value.form) }
    ensures { AnswersJudged (option_map actual_of) result (both (λ actual done. Accepts actual)
        (variable_taken parameter value.access (option_map expr_of value.form))
        (threatened value.access)) }
{
    let threat = threatened(&value.access);
    let actual = variable_taken(parameter, value)?;
    threat?;
    Ok(actual)
}

/// What is given for a formal parameter, where it is built.
fn actual_taken(parameter: &FormalParameter, value: Typed) -> Result<Option<Actual>, Refusal>
    requires { IsReading value.access (option_map expr_of value.form) }
    ensures { AnswersJudged (option_map actual_of) result
        (actual_taken parameter.now.mode parameter.now (typed_of value)) }
{
    match parameter.mode {
        FormalMode::Value => value_taken(parameter.kind, value),
        FormalMode::ProtectedValue => value_taken(parameter.kind, value),
        FormalMode::Variable => unprotected_taken(parameter.of.is, value),
        FormalMode::ProtectedVariable => variable_taken(parameter.of.is, value),
    }
}

/// The actual parameters with one more at the end, where all are built.
fn added(list: Option<Actuals>, one: Option<Actual>) -> Result<Option<Actuals>, NoMemory>
    ensures { IfOk result (λ now. option_map (map actual_of) now ≡ map_both (λ xs ys. xs ++ ys)
        (option_map (map actual_of) list) (option_map (λ a. a ∷ []) (option_map actual_of one))) }
{
    let Some(mut list) = list else {
        return Ok(None);
    };
    let Some(one) = one else {
        return Ok(None);
    };
    list.push(one)?;
    Ok(Some(list))
}

impl Taken {
    /// The actual parameters alone.
    pub fn into_actuals(self) -> Option<Actuals>
        ensures { result ≡ self.actuals }
    {
        let Taken { actuals, depth: _ } = self;
        actuals
    }

    /// What is given for no parameter.
    pub fn nothing(alloc: Global) -> Taken
        ensures { taken_of result ≡ nothing_taken }
    {
        Taken {
            actuals: Some(List::new(alloc)),
            depth: 0,
        }
    }

    /// The same, and then a value for one parameter more.
    #[inline(never)]
    pub fn with(self, parameter: &FormalParameter, value: Typed) -> Result<Taken, Refusal>
        requires { IsReading value.access (option_map expr_of value.form) }
        ensures { AnswersJudged taken_of result
            (when_accepted (λ x. Accepts (joined (taken_of self) x))
            (argument_taken parameter.now (typed_of value))) }
    {
        let depth = self.depth.max(value.depth);
        let actual = actual_taken(parameter, value)?;
        let actuals = added(self.into_actuals(), actual)?;
        Ok(Taken { actuals, depth })
    }
}
