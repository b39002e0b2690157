//! Headings of procedures and functions.

ghost use Rattle.std.specs.Prelude.{◌≡◌, ◌∷◌, ◌++◌, [], None, IfOk, OnOk, map, slice_get};
ghost use Rattle.ep_built.specs.Built.{first_in, section_unbuilt, start_unbuilt};
ghost use Rattle.ep_rules.specs.Answers.{AnswersForm};
ghost use Rattle.ep_check_unit.specs.Answers.{AnswersBlock, headed_in};
ghost use Rattle.ep_check_unit.specs.Blocks.{block_of, routine_form};
ghost use Rattle.ep_check_unit.specs.Functions.{own_name_at};
ghost use Rattle.ep_check_unit.specs.Routines.{function_headed, function_identified, has_body, headed_first, headed_form, headed_over, heading_entered, procedure_headed, routine_there, start_headed};
ghost use Rattle.ep_scope.specs.Required.{look_up};

use crate::block::Block;
use ep_base::{Line, List, Name, NoMemory};
use ep_rules::Refusal;
use ep_scope::{Declaration, FormalParameter, FormalParameters, Thing, copied_parameters, rule};
use ep_tree::{FormalSection, QualifiedName, RoutineHeading, RoutineStart};
use ep_typed::{TypedStmt, UnitRoutine};
use ep_unit_rules::{
    Enclosing, Heading, HeadingResult, copied_name, in_block, is_repeated, number,
    routine_declaration, routine_numbers, same_result, typed_formals, typed_result,
};
use std::alloc::Global;

/// A routine that does nothing, without variables, in the blocks of those around.
fn routine(
    alloc: Global,
    name: &Name,
    line: Line,
    parameters: &[FormalParameter],
    given: &Option<HeadingResult>,
    around: &[Enclosing],
) -> Result<UnitRoutine, NoMemory>
    ensures { IfOk result (λ r. routine_form r
        ≡ headed_form name.now line parameters.now given.now around.now) }
{
    let name = name.copy(alloc)?;
    let formals = typed_formals(alloc, parameters)?;
    let result = typed_result(alloc, given)?;
    let around = routine_numbers(alloc, around)?;
    Ok(UnitRoutine {
        name,
        line,
        formals,
        result,
        variables: List::new(alloc),
        around,
        block: TypedStmt::Empty,
    })
}

impl Block {
    /// One routine more.
    fn add_routine(&mut self, routine: UnitRoutine) -> Result<(), NoMemory>
        ensures { OnOk result (block_of self.new ≡ record (block_of self.old)
            { routines = (block_of self.old).routines ++ routine_form routine ∷ [] }) }
    {
        self.routines.push(routine)?;
        Ok(())
    }

    /// The first declaration of a routine on this line.
    fn add_heading(
        &mut self,
        alloc: Global,
        line: Line,
        name: &Name,
        given: Option<HeadingResult>,
        parameters: FormalParameters,
    ) -> Result<Heading, Refusal>
        ensures { AnswersForm (headed_in (block_of self.new)) result
            (headed_first name.now line parameters given (block_of self.old)) }
    {
        let number = number(self.routines.len())?;
        let around = self.own.enclosing.items();
        let routine = routine(alloc, name, line, parameters.items(), &given, around)?;
        self.add_routine(routine)?;
        let copy = copied_parameters(alloc, parameters.items())?;
        let thing = self.own_thing(alloc, number, routine_declaration(copy, &given))?;
        self.enter(alloc, name, thing)?;
        Ok(Heading {
            number,
            parameters,
            result: given,
        })
    }

    /// The name of its own that the result of the routine of this number has.
    fn own_name(&self, alloc: Global, number: u32) -> Result<Option<Name>, NoMemory>
        ensures { IfOk result (λ name. name
            ≡ own_name_at (slice_get (block_of self.now).routines number)) }
    {
        match self.routines.items().get(number as usize) {
            None => Ok(None),
            Some(routine) => match &routine.result {
                None => Ok(None),
                Some(given) => copied_name(alloc, &given.name),
            },
        }
    }

    /// The routine that is declared under a name already.
    fn routine_there(&self, alloc: Global, thing: &Thing) -> Result<Heading, Refusal>
        ensures { AnswersForm (headed_in (block_of self.now)) result
            (routine_there thing.now (block_of self.now)) }
    {
        let Thing::Declared(declared) = thing else {
            return Err(Refusal::Rule(rule::TWICE));
        };
        match &declared.what {
            Declaration::Procedure(parameters) => Ok(Heading {
                number: declared.number,
                parameters: copied_parameters(alloc, parameters.items())?,
                result: None,
            }),
            Declaration::Function(parameters, of, kind) => {
                let name = self.own_name(alloc, declared.number)?;
                Ok(Heading {
                    number: declared.number,
                    parameters: copied_parameters(alloc, parameters.items())?,
                    result: Some(HeadingResult {
                        name,
                        of: *of,
                        kind: *kind,
                    }),
                })
            }
            _ => Err(Refusal::Rule(rule::TWICE)),
        }
    }

    /// Whether the routine of this number has a body.
    fn has_body(&self, number: u32) -> bool
        ensures { result ≡ has_body number (block_of self.now) }
    {
        self.bodies.has(number)
    }

    /// A routine with these formal parameters and this result, by what its name stands for in the scope.
    fn head_with(
        &mut self,
        alloc: Global,
        line: Line,
        name: &Name,
        is_forward: bool,
        given: Option<HeadingResult>,
        parameters: FormalParameters,
    ) -> Result<Heading, Refusal>
        ensures { AnswersForm (headed_in (block_of self.new)) result
            (headed_over is_forward name.now line
            (look_up (block_of self.old).scopes.inner.entries name.now)
            (block_of self.old) given parameters) }
    {
        match self.scopes.find(name) {
            None => self.add_heading(alloc, line, name, given, parameters),
            Some(thing) => {
                let heading = self.routine_there(alloc, thing)?;
                if is_forward
                    || self.has_body(heading.number)
                    || !is_repeated(parameters.items(), heading.parameters.items())
                    || !same_result(&given, &heading.result)
                {
                    Err(Refusal::Rule(rule::REPEATED_HEADING))
                } else {
                    Ok(heading)
                }
            }
        }
    }

    /// `"procedure" id [ formals ]`
    fn head_procedure(
        &mut self,
        alloc: Global,
        line: Line,
        name: &Name,
        sections: &[FormalSection],
        is_forward: bool,
    ) -> Result<Heading, Refusal>
        requires { first_in (map section_unbuilt sections.now) ≡ None }
        ensures { AnswersForm (headed_in (block_of self.new)) result
            (procedure_headed is_forward line name.now sections.now (block_of self.old)) }
    {
        let parameters = self.parameters(alloc, name, sections)?;
        self.head_with(alloc, line, name, is_forward, None, parameters)
    }

    /// `"function" id [ formals ] [ "=" id ] ":" name`
    fn head_function(
        &mut self,
        alloc: Global,
        line: Line,
        name: &Name,
        sections: &[FormalSection],
        own: &Option<Name>,
        of: &QualifiedName,
        is_forward: bool,
    ) -> Result<Heading, Refusal>
        requires { first_in (map section_unbuilt sections.now) ≡ None }
        ensures { AnswersForm (headed_in (block_of self.new)) result (function_headed is_forward
            line name.now sections.now own.now of.now (block_of self.old)) }
    {
        let parameters = self.parameters(alloc, name, sections)?;
        let given = self.result(alloc, name, own, of)?;
        self.head_with(alloc, line, name, is_forward, Some(given), parameters)
    }

    /// `"function" id`
    fn identify(&self, alloc: Global, name: &Name, is_forward: bool) -> Result<Heading, Refusal>
        ensures { AnswersForm (headed_in (block_of self.now)) result
            (function_identified is_forward name.now (block_of self.now)) }
    {
        let Some(thing) = self.scopes.find(name) else {
            return Err(Refusal::Rule(rule::UNDECLARED));
        };
        let heading = self.routine_there(alloc, thing)?;
        if is_forward || self.has_body(heading.number) || heading.result.is_none() {
            Err(Refusal::Rule(rule::REPEATED_HEADING))
        } else {
            Ok(heading)
        }
    }

    /// The formal parameters of the routine under way, and a name of its own that the result has, are entered.
    pub(crate) fn enter_heading(&mut self, alloc: Global, heading: &Heading) -> Result<(), Refusal>
        ensures { AnswersBlock result (block_of self.new)
            (heading_entered (headed_in (block_of self.old) heading.now) (block_of self.old)) }
    {
        self.enter_formals(alloc, heading.parameters.items())?;
        let variable = number(heading.parameters.items().len())?;
        match &heading.result {
            None => Ok(()),
            Some(given) => {
                let own = in_block(heading.number, variable, given);
                self.enter_result(alloc, own, &given.name)
            }
        }
    }

    /// `rhead | "function" id`
    pub(crate) fn head(
        &mut self,
        alloc: Global,
        line: Line,
        start: &RoutineStart,
        is_forward: bool,
    ) -> Result<Heading, Refusal>
        requires { start_unbuilt start.now ≡ None }
        ensures { AnswersForm (headed_in (block_of self.new)) result
            (start_headed is_forward line start.now (block_of self.old)) }
    {
        match start {
            RoutineStart::Heading(RoutineHeading::Procedure(_, name, sections)) => {
                self.head_procedure(alloc, line, name, sections.items(), is_forward)
            }
            RoutineStart::Heading(RoutineHeading::Function(_, name, sections, own, of)) => {
                self.head_function(alloc, line, name, sections.items(), own, of, is_forward)
            }
            RoutineStart::Function(_, name) => self.identify(alloc, name, is_forward),
        }
    }
}
