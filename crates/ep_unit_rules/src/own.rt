//! The variables of a routine whose block is under way.

ghost use Rattle.std.specs.Prelude.{◌≡◌, []};
ghost use Rattle.ep_unit_rules.specs.Numbers.{AnswersNumber};
ghost use Rattle.ep_unit_rules.specs.Own.{first_own, own_count, result_count};

use crate::numbers::number;
use ep_base::List;
use ep_rules::Refusal;
use ep_scope::{FormalParameters, Kind, WrittenType};
use ep_typed::UnitVariables;
use std::alloc::Global;

/// The result of the function whose block is under way.
#[derive(Clone, Copy, Drop)]
pub struct OwnResult {
    /// The number of the function among the routines.
    pub function: u32,
    /// The number of the variable that has the result, among those of the function.
    pub variable: u32,
    /// Its type.
    pub of: WrittenType,
    /// The kind of the type.
    pub kind: Kind,
    /// Whether it has a name of its own.
    pub named: bool,
}

/// A routine whose block is under way.
#[derive(Clone, Copy, Drop)]
pub struct Enclosing {
    /// Its number.
    pub number: u32,
    /// Its result, where it is a function.
    pub result: Option<OwnResult>,
}

/// The variables of the routine whose block is under way, and the routines around what is declared there.
pub struct OwnVariables {
    /// Its formal parameters, which come first.
    pub parameters: FormalParameters,
    /// Its result, which comes next.
    pub result: Option<OwnResult>,
    /// Those that it has declared so far.
    pub variables: UnitVariables,
    /// The routines whose blocks are under way, this one first; none outside of routines.
    pub enclosing: List<Enclosing>,
}

impl Drop for OwnVariables {
    fn drop(self) {
        let OwnVariables {
            parameters: _,
            result: _,
            variables: _,
            enclosing: _,
        } = self;
    }
}

impl OwnVariables {
    /// Those of a routine with these formal parameters and this result, which has declared none yet, in these blocks. It
    /// takes no memory.
    pub fn new(
        alloc: Global,
        parameters: FormalParameters,
        given: Option<OwnResult>,
        enclosing: List<Enclosing>,
    ) -> OwnVariables
        ensures { result ≡ record {
          parameters = parameters;
          result = given;
          variables = [];
          enclosing = enclosing;
        } }
    {
        OwnVariables {
            parameters,
            result: given,
            variables: List::new(alloc),
            enclosing,
        }
    }

    /// The number of the first one that is declared.
    pub fn first(&self) -> Result<u32, Refusal>
        ensures { AnswersNumber (first_own self.now) result }
    {
        let parameters = self.parameters.items().len();
        match parameters.checked_add(result_count(self.result)) {
            None => Err(Refusal::NoMemory),
            Some(first) => number(first),
        }
    }

    /// Their number, which the next one has.
    pub fn count(&self) -> Result<u32, Refusal>
        ensures { AnswersNumber (own_count self.now) result }
    {
        let first = self.first()?;
        match (first as usize).checked_add(self.variables.items().len()) {
            None => Err(Refusal::NoMemory),
            Some(count) => number(count),
        }
    }

    /// The declared ones alone.
    pub fn into_variables(self) -> UnitVariables
        ensures { result ≡ self.variables }
    {
        let OwnVariables {
            parameters: _,
            result: _,
            variables,
            enclosing: _,
        } = self;
        variables
    }
}

/// How many variables have the result.
pub(crate) fn result_count(given: Option<OwnResult>) -> usize
    ensures { result ≡ result_count given }
{
    match given {
        None => 0,
        Some(_) => 1,
    }
}
