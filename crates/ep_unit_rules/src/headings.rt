//! Routines that are declared, and the variables with which their blocks begin.

ghost use Rattle.std.specs.Prelude.{◌≡◌, ◌∷◌, IfOk};
ghost use Rattle.ep_rules.specs.Answers.{AnswersForm};
ghost use Rattle.ep_unit_rules.specs.Own.{around_of};
ghost use Rattle.ep_unit_rules.specs.Headings.{own_variables, start_name};
ghost use Rattle.ep_rules.specs.Judgements.{Accepts};

use crate::functions::{HeadingResult, own_result};
use crate::numbers::number;
use crate::own::{Enclosing, OwnVariables};
use ep_base::{List, Name, NoMemory};
use ep_rules::Refusal;
use ep_scope::{FormalParameters, copied_parameters};
use ep_tree::{RoutineHeading, RoutineStart};
use ep_typed::RoutineNumbers;
use std::alloc::Global;

/// A routine that is declared.
pub struct Heading {
    /// Its number among the routines.
    pub number: u32,
    /// Its formal parameters.
    pub parameters: FormalParameters,
    /// Its result, where it is a function.
    pub result: Option<HeadingResult>,
}

impl Drop for Heading {
    fn drop(self) {
        let Heading {
            number: _,
            parameters: _,
            result: _,
        } = self;
    }
}

impl Heading {
    /// The variables with which the block of the routine begins, in these blocks.
    pub fn own_variables(
        &self,
        alloc: Global,
        around: &[Enclosing],
    ) -> Result<OwnVariables, Refusal>
        ensures { AnswersForm (λ own. own) result (Accepts
            (own_variables self.now.number self.now.parameters self.now.result around.now)) }
    {
        let variable = number(self.parameters.items().len())?;
        let parameters = copied_parameters(alloc, self.parameters.items())?;
        let given = own_result(self.number, variable, &self.result);
        let inner = Enclosing {
            number: self.number,
            result: given,
        };
        let enclosing = one_more(alloc, inner, around)?;
        Ok(OwnVariables::new(alloc, parameters, given, enclosing))
    }
}

/// A routine before those whose blocks are around its own.
fn one_more(
    alloc: Global,
    inner: Enclosing,
    around: &[Enclosing],
) -> Result<List<Enclosing>, NoMemory>
    ensures { IfOk result (λ all. all ≡ inner ∷ around.now) }
{
    let mut all = List::new(alloc);
    all.push(inner)?;
    for other in around {
        all.push(*other)?;
    }
    Ok(all)
}

/// The numbers of routines whose blocks are under way.
pub fn numbers(alloc: Global, enclosing: &[Enclosing]) -> Result<RoutineNumbers, NoMemory>
    ensures { IfOk result (λ all. all ≡ around_of enclosing.now) }
{
    let mut all = List::new(alloc);
    for one in enclosing {
        all.push(one.number)?;
    }
    Ok(all)
}

/// The name of a routine.
pub fn start_name(start: &RoutineStart) -> &Name
    ensures { result.now ≡ start_name start.now }
{
    match start {
        RoutineStart::Heading(RoutineHeading::Procedure(_, name, _)) => name,
        RoutineStart::Heading(RoutineHeading::Function(_, name, _, _, _)) => name,
        RoutineStart::Function(_, name) => name,
    }
}
