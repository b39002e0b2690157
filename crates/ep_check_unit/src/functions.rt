//! Results of functions, and what gives them a value.

ghost use Rattle.std.specs.Option.{option_map};
ghost use Rattle.std.specs.Prelude.{◌≡◌, Some, IfOk, map};
ghost use Rattle.ep_rules.specs.Answers.{AnswersForm};
ghost use Rattle.ep_stmt_rules.specs.Answers.{passed, result_of, stmts_of};
ghost use Rattle.ep_check_unit.specs.Answers.{AnswersBlock, AnswersGiven};
ghost use Rattle.ep_check_unit.specs.Blocks.{block_callees, block_of};
ghost use Rattle.ep_check_unit.specs.Functions as spec;
ghost use Rattle.ep_check_unit.specs.Functions.{assigned_function, is_named, own_name_entered, row_gives};
ghost use Rattle.ep_check_unit.specs.Routines.{given_among, part_judged, result_judged, routine_judged};

use crate::block::Block;
use ep_base::{Line, List, Name, NoMemory};
use ep_rules::Refusal;
use ep_scope::{Declaration, Protection, meaning_of, rule};
use ep_stmt_rules::{Admission, CheckRefusal, FunctionResult, refused_at};
use ep_threats::{Callees, Entire, inner_threatens, threatens};
use ep_tree::{BlockPart, Compound, QualifiedName, Routine, RoutineBody};
use ep_typed::{TypedStmt, TypedStmts};
use ep_unit_rules::{
    DistinctParameters, HeadingResult, OwnResult, copied_name, has_unknown, is_that_function,
    text_gives,
};
use std::alloc::{AllocError, Global};

/// A rule fails at the declaration of a function on this line, unless its block gives the result.
pub(crate) fn if_given(line: Line, given: bool) -> Result<(), CheckRefusal>
    ensures { AnswersGiven line given result }
{
    if given {
        Ok(())
    } else {
        Err(refused_at(line, Refusal::Rule(rule::NO_RESULT)))
    }
}

impl Block {
    /// `[ "=" id ] ":" name`, behind the name of a function and its formal parameters.
    pub(crate) fn result(
        &self,
        alloc: Global,
        function: &Name,
        own: &Option<Name>,
        of: &QualifiedName,
    ) -> Result<HeadingResult, Refusal>
        ensures { AnswersForm (λ r. r) result
            (result_judged function.now own.now of.now (block_of self.now)) }
    {
        let none = DistinctParameters::new(alloc);
        let named = self.parameter_type(function, &none, of)?;
        Ok(HeadingResult {
            name: copied_name(alloc, own)?,
            of: named.written(),
            kind: named.kind,
        })
    }

    /// A name of its own that the result has is entered.
    pub(crate) fn enter_result(
        &mut self,
        alloc: Global,
        own: OwnResult,
        name: &Option<Name>,
    ) -> Result<(), Refusal>
        ensures { AnswersBlock result (block_of self.new)
            (own_name_entered own name.now (block_of self.old)) }
    {
        let Some(name) = name else {
            return Ok(());
        };
        let what = Declaration::Own(own.of.is, own.kind, Protection::Unprotected);
        let thing = self.own_thing(alloc, own.variable, what)?;
        self.enter(alloc, name, thing)
    }

    /// Whether the text of a block with these parts and statements gives the result by this name, of its own or not.
    pub(crate) fn is_assigned(&self, name: &Name, parts: &[BlockPart], body: &Compound) -> bool
        ensures { result ≡ spec.is_assigned (block_of self.now).own.result name.now
            (given_among (is_named (block_of self.now).own.result) name.now (map part_judged parts.now)) body.now }
    {
        match self.own.result {
            None => true,
            Some(own) => text_gives(own.named, name, body) || parts_give(own.named, name, parts),
        }
    }

    /// Whether its name means the function there.
    pub(crate) fn is_in_view(&self, name: &Name) -> bool
        ensures { result ≡ spec.is_in_view (block_of self.now).own.result name.now
            (block_of self.now) }
    {
        match self.own.result {
            None => true,
            Some(own) => {
                own.named
                    || {
                        let meaning = meaning_of(&self.scopes.in_view(), name);
                        is_that_function(&self.unit, own.function, &meaning)
                    }
            }
        }
    }

    /// Whether its statements, or those of a routine in it, threaten the variable that has the result. Where a routine in
    /// it waits this is not known, and they count as those that do.
    pub(crate) fn gives_result(&self, found: &Admission<TypedStmts>) -> Result<bool, NoMemory>
        ensures { IfOk result (λ gives. gives ≡ row_gives (block_of self.now) (passed stmts_of found.now)) }
    {
        match (self.own.result, found) {
            (Some(own), Admission::Passes(statements)) => {
                if self.waits.is_some() && has_unknown(own.function, self.routines.items()) {
                    return Ok(true);
                }
                self.is_threatened(own, statements.items())
            }
            _ => Ok(true),
        }
    }

    /// Whether these statements, or those of a routine in the function, threaten the variable that has its result.
    fn is_threatened(&self, own: OwnResult, statements: &[TypedStmt]) -> Result<bool, NoMemory>
        ensures { IfOk result (λ threatened. threatened ≡ spec.is_threatened (Some own)
            (block_callees (block_of self.now)) (stmts_of statements.now)) }
    {
        let callees = Callees::of(self.routines.items(), &[]);
        if threatens(&callees, Entire::Own(0, own.variable), statements) {
            return Ok(true);
        }
        inner_threatens(own.function, &self.routines, &[], own.variable)
    }

    /// The functions to whose names the block assigns, the innermost first.
    pub(crate) fn assigned_functions(&self, alloc: Global) -> Result<List<FunctionResult>, NoMemory>
        ensures { IfOk result (λ all. map result_of all
            ≡ spec.assigned_functions (block_of self.now).own.enclosing) }
    {
        let enclosing = self.own.enclosing.items();
        let mut all = List::new(alloc);
        for (place, one) in enclosing.iter().enumerate() {
            let Ok(level) = u32::try_from(enclosing.len() - place) else {
                return Err(AllocError);
            };
            if let Some(function) = assigned_function(level, one.result) {
                all.push(function)?;
            }
        }
        Ok(all)
    }
}

/// The function to whose name its block assigns, where its result has no name of its own, with so many routines around its
/// variables.
fn assigned_function(level: u32, given: Option<OwnResult>) -> Option<FunctionResult>
    ensures { option_map result_of result ≡ assigned_function level given }
{
    let Some(own) = given else {
        return None;
    };
    if own.named {
        return None;
    }
    Some(FunctionResult {
        function: own.function,
        level,
        variable: own.variable,
        kind: own.kind,
    })
}

/// Whether the text of statements in one of these parts gives a result by this name, of its own or not.
#[cycle(given)]
fn parts_give(named: bool, name: &Name, parts: &[BlockPart]) -> bool
    ensures { result ≡ given_among named name.now (map part_judged parts.now) }
{
    for part in parts {
        if part_gives(named, name, part) {
            return true;
        }
    }
    false
}

/// Whether that of a part does.
#[cycle(given)]
fn part_gives(named: bool, name: &Name, part: &BlockPart) -> bool
    ensures { result ≡ (part_judged part.now).gives_to named name.now }
{
    match part {
        BlockPart::Routine(r) => routine_gives(named, name, r),
        _ => false,
    }
}

/// Whether that of a routine does, in its block.
#[cycle(given)]
fn routine_gives(named: bool, name: &Name, r: &Routine) -> bool
    ensures { result ≡ (routine_judged r.now).gives_to named name.now }
{
    match &r.body {
        RoutineBody::Forward(_) => false,
        RoutineBody::Block(_, parts, body) => {
            text_gives(named, name, body) || parts_give(named, name, parts.items())
        }
    }
}
