//! Lists of formal parameters.

ghost use Rattle.std.specs.Prelude.{◌≡◌, IfOk, map};
ghost use Rattle.ep_rules.specs.Answers.{AnswersForm};
ghost use Rattle.ep_unit_rules.specs.Formals.{formal_of, is_repeated, parameters_added, section_mode};

use crate::distinct::DistinctParameters;
use crate::types::type_denoter;
use ep_base::{List, Name, NoMemory};
use ep_rules::Refusal;
use ep_scope::{FormalParameter, Kind, WrittenType, rule, same_parameters};
use ep_typed::{Formal, FormalMode, Formals};
use std::alloc::Global;

/// How the parameters of a section are given.
pub fn section_mode(protected: bool, variable: bool) -> FormalMode
    ensures { result ≡ section_mode protected variable }
{
    match (protected, variable) {
        (false, false) => FormalMode::Value,
        (false, true) => FormalMode::Variable,
        (true, false) => FormalMode::ProtectedValue,
        (true, true) => FormalMode::ProtectedVariable,
    }
}

/// The parameters with those of these names more, of a section of this number.
pub fn with_names(
    alloc: Global,
    mode: FormalMode,
    section: u32,
    of: WrittenType,
    kind: Kind,
    names: &[Name],
    before: DistinctParameters,
) -> Result<DistinctParameters, Refusal>
    ensures { AnswersForm (λ ps. ps) result
        (parameters_added mode section of kind names.now before) }
{
    let mut all = before;
    for name in names {
        if all.has(name) {
            return Err(Refusal::Rule(rule::TWICE));
        }
        let parameter = FormalParameter {
            name: name.copy(alloc)?,
            mode,
            section,
            of,
            kind,
        };
        all = all.with(alloc, parameter)?;
    }
    Ok(all)
}

/// Whether a heading that is given again has no parameters, or those of the first one.
pub fn is_repeated(parameters: &[FormalParameter], first: &[FormalParameter]) -> bool
    ensures { result ≡ is_repeated parameters.now first.now }
{
    parameters.is_empty() || same_parameters(parameters, first)
}

/// The formal parameters of a typed routine.
pub fn formals(alloc: Global, parameters: &[FormalParameter]) -> Result<Formals, NoMemory>
    ensures { IfOk result (λ all. all ≡ map formal_of parameters.now) }
{
    let mut all = List::new(alloc);
    for parameter in parameters {
        all.push(Formal {
            name: parameter.name.copy(alloc)?,
            mode: parameter.mode,
            section: parameter.section,
            denoter: type_denoter(alloc, parameter.of.name),
        })?;
    }
    Ok(all)
}
