//! The parts of a block, and declarations of procedures and functions.

ghost use Rattle.std.specs.Prelude.{◌≡◌, [], None, true, false, IfOk, map};
ghost use Rattle.ep_built.specs.Built.{compound_unbuilt, first_in, part_unbuilt, routine_unbuilt, start_unbuilt};
ghost use Rattle.ep_typed.specs.Trees as tree;
ghost use Rattle.ep_stmt_rules.specs.Answers.{AnswersRow, locals_of as locals_view, passed, stmts_of};
ghost use Rattle.ep_unit_rules.specs.Numbers.{AnswersNumber};
ghost use Rattle.ep_check_unit.specs.Answers.{AnswersLocals, AnswersStanding, headed_in};
ghost use Rattle.ep_check_unit.specs.Blocks.{block_of};
ghost use Rattle.ep_check_unit.specs.Declarations.{Stands};
ghost use Rattle.ep_unit_rules.specs.Headings.{start_name};
ghost use Rattle.ep_check_unit.specs.Routines.{all_declared, block_declared, body_closed, body_declared, forwarded, has_bounds, headed_then, inside_declared, locals_of, members_of, part_judged, routine_judged, start_headed, statements_judged, with_block, withs_behind};

use crate::block::{Block, Forward};
use crate::functions::if_given;
use ep_base::{Line, Name, NoMemory};
use ep_check_stmt::Context;
use ep_rules::Refusal;
use ep_scope::View;
use ep_stmt_rules::{
    Admission, CheckRefusal, Locals, assigns_tag, has_for, has_for_in, refused_at,
};
use ep_threats::{RoutineTable, Routines};
use ep_tree::{BlockPart, Compound, Routine, RoutineBody, RoutineStart};
use ep_typed::{TypedStmts, UnitVariables};
use ep_unit_rules::{Heading, OwnVariables, number, result_name, start_name};
use std::alloc::Global;
use std::mem;

/// How many auxiliary variables `for` statements with bounds and assignments to tags have (ISO 10206, 6.9.3.9.2 and 6.5.3.3).
const BOUNDS: u32 = 2;

/// Whether the statements of a block have a `for` with bounds or an assignment to a tag, in view of these scopes.
fn has_bounds(alloc: Global, scopes: &View<'_>, statements: &Compound) -> Result<bool, NoMemory>
    ensures { IfOk result (λ has. has ≡ has_bounds scopes.now statements.now) }
{
    if has_for(statements) {
        return Ok(true);
    }
    assigns_tag(alloc, scopes, statements)
}

/// The number of the auxiliary variable of `for` statements over members among these variables of a block, in view of these
/// scopes. It stands behind those of `for` statements with bounds and of assignments to tags, where its statements have
/// such ones.
fn members_of(
    alloc: Global,
    scopes: &View<'_>,
    locals: Locals<'_>,
    statements: &Compound,
) -> Result<u32, Refusal>
    ensures { AnswersNumber (members_of scopes.now (locals_view locals.entry) statements.now) result }
{
    let first = match locals {
        Locals::Unit(_, auxiliary) => auxiliary,
        Locals::Routine(_, _, auxiliary) => auxiliary,
    };
    if !has_bounds(alloc, scopes, statements)? {
        return Ok(first);
    }
    match first.checked_add(BOUNDS) {
        None => Err(Refusal::NoMemory),
        Some(number) => Ok(number),
    }
}

/// The number of the first variable of `with` statements among them, where that of `for` statements over members has this
/// number: behind that one, where the statements have such a `for`.
fn withs_behind(members: u32, statements: &Compound) -> Result<u32, Refusal>
    ensures { AnswersNumber (withs_behind members statements.now) result }
{
    if !has_for_in(statements) {
        return Ok(members);
    }
    match members.checked_add(1) {
        None => Err(Refusal::NoMemory),
        Some(number) => Ok(number),
    }
}

/// The routines of the unit, which is given no heading so far, as the statements of a block with these variables see them.
/// Where these have a `for`, it is gathered once which of the variables are threatened, since each `for` asks it of one.
fn known_routines<'a>(
    alloc: Global,
    locals: Locals<'a>,
    routines: &'a RoutineTable,
    statements: &Compound,
) -> Result<Routines<'a>, NoMemory>
    ensures { IfOk result (λ known. known ≡ (routines.now, [])) }
{
    if !has_for(statements) && !has_for_in(statements) {
        return Ok(Routines::new(alloc, routines, &[]));
    }
    match locals {
        Locals::Unit(unit, _) => Routines::of_unit(alloc, unit, routines, &[]),
        Locals::Routine(routine, _, _) => Routines::of_routine(alloc, routine, routines, &[]),
    }
}

impl Block {
    /// The parts of a block, in order.
    #[cycle(parts)]
    pub(crate) fn declare(&mut self, alloc: Global, parts: &[BlockPart]) -> Result<(), CheckRefusal>
        requires { first_in (map part_unbuilt parts.now) ≡ None }
        ensures { AnswersStanding result (block_of self.new)
            (all_declared (map part_judged parts.now) (block_of self.old)) }
    {
        for part in parts {
            self.declare_part(alloc, part)?;
        }
        Ok(())
    }

    #[cycle(parts)]
    fn declare_part(&mut self, alloc: Global, part: &BlockPart) -> Result<(), CheckRefusal>
        requires { part_unbuilt part.now ≡ None }
        ensures { AnswersStanding result (block_of self.new)
            ((part_judged part.now).declares (block_of self.old)) }
    {
        match part {
            BlockPart::Constants(c) => self.define_constants(alloc, c.definitions.items()),
            BlockPart::Types(t) => self.define_type_part(alloc, t),
            BlockPart::Variables(v) => self.declare_all(alloc, v.declarations.items()),
            BlockPart::Routine(r) => self.declare_routine(alloc, r),
        }
    }

    /// `rdecl`
    #[cycle(parts)]
    fn declare_routine(&mut self, alloc: Global, r: &Routine) -> Result<(), CheckRefusal>
        requires { routine_unbuilt r.now ≡ None }
        ensures { AnswersStanding result (block_of self.new)
            ((routine_judged r.now).declares (block_of self.old)) }
    {
        match &r.body {
            RoutineBody::Forward(_) => self.declare_forward(alloc, r.line, &r.start),
            RoutineBody::Block(_, parts, body) => {
                self.declare_with_block(alloc, r.line, &r.start, parts.items(), body)
            }
        }
    }

    /// A routine whose body comes later.
    fn declare_forward(
        &mut self,
        alloc: Global,
        line: Line,
        start: &RoutineStart,
    ) -> Result<(), CheckRefusal>
        requires { start_unbuilt start.now ≡ None }
        ensures { AnswersStanding result (block_of self.new) (headed_then line
            (λ h. Stands (forwarded line h))
            (start_headed true line start.now (block_of self.old))) }
    {
        match self.head(alloc, line, start, true) {
            Err(refusal) => Err(refused_at(line, refusal)),
            Ok(heading) => {
                let number = heading.number;
                self.forwards.push(Forward { number, line })?;
                Ok(())
            }
        }
    }

    /// A routine with its block.
    #[cycle(parts)]
    fn declare_with_block(
        &mut self,
        alloc: Global,
        line: Line,
        start: &RoutineStart,
        parts: &[BlockPart],
        body: &Compound,
    ) -> Result<(), CheckRefusal>
        requires start { start_unbuilt start.now ≡ None }
        requires parts { first_in (map part_unbuilt parts.now) ≡ None }
        requires body { compound_unbuilt body.now ≡ None }
        ensures { AnswersStanding result (block_of self.new) (headed_then line
            (block_declared line (start_name start.now) (map part_judged parts.now) body.now)
            (start_headed false line start.now (block_of self.old))) }
    {
        match self.head(alloc, line, start, false) {
            Err(refusal) => Err(refused_at(line, refusal)),
            Ok(heading) => {
                self.declare_block(alloc, line, start_name(start), heading, parts, body)
            }
        }
    }

    /// The block of a routine of this name, in a scope of its own.
    #[cycle(parts)]
    fn declare_block(
        &mut self,
        alloc: Global,
        line: Line,
        name: &Name,
        heading: Heading,
        parts: &[BlockPart],
        body: &Compound,
    ) -> Result<(), CheckRefusal>
        requires parts { first_in (map part_unbuilt parts.now) ≡ None }
        requires body { compound_unbuilt body.now ≡ None }
        ensures { AnswersStanding result (block_of self.new)
            (block_declared line name.now (map part_judged parts.now) body.now
            (headed_in (block_of self.old) heading)) }
    {
        let own = match heading.own_variables(alloc, self.own.enclosing.items()) {
            Ok(own) => own,
            Err(refusal) => return Err(refused_at(line, refusal)),
        };
        self.scopes.open()?;
        let before = mem::replace(&mut self.own, own);
        if let Err(refusal) = self.enter_heading(alloc, &heading) {
            return Err(refused_at(line, refusal));
        }
        self.declare_inside(
            alloc,
            line,
            name,
            result_name(name, &heading.result),
            heading.number,
            before,
            parts,
            body,
        )
    }

    /// The parts of the routine of this name and number, and then its statements. The text of both gives the result, by
    /// the second name.
    #[cycle(parts)]
    fn declare_inside(
        &mut self,
        alloc: Global,
        line: Line,
        name: &Name,
        own: &Name,
        number: u32,
        before: OwnVariables,
        parts: &[BlockPart],
        body: &Compound,
    ) -> Result<(), CheckRefusal>
        requires parts { first_in (map part_unbuilt parts.now) ≡ None }
        requires body { compound_unbuilt body.now ≡ None }
        ensures { AnswersStanding result (block_of self.new)
            (inside_declared line name.now own.now number before (map part_judged parts.now) body.now
            (block_of self.old)) }
    {
        if_given(line, self.is_assigned(own, parts, body))?;
        self.declare(alloc, parts)?;
        self.declare_body(alloc, line, name, number, before, body)
    }

    /// The statements of the routine of this name and number, in whose block the name means the routine.
    fn declare_body(
        &mut self,
        alloc: Global,
        line: Line,
        name: &Name,
        number: u32,
        before: OwnVariables,
        body: &Compound,
    ) -> Result<(), CheckRefusal>
        requires { compound_unbuilt body.now ≡ None }
        ensures { AnswersStanding result (block_of self.new)
            (body_declared line name.now number before body.now (block_of self.old)) }
    {
        if_given(line, self.is_in_view(name))?;
        let found = self.statements(alloc, body)?;
        if_given(line, self.gives_result(&found)?)?;
        self.end_body(line, number, before, found)
    }

    /// The statements of a block.
    pub(crate) fn statements(
        &self,
        alloc: Global,
        body: &Compound,
    ) -> Result<Admission<TypedStmts>, CheckRefusal>
        requires { compound_unbuilt body.now ≡ None }
        ensures { AnswersRow stmts_of result
            (statements_judged (block_of self.now) body.now) }
    {
        let locals = match self.locals() {
            Ok(locals) => locals,
            Err(refusal) => return Err(refused_at(body.line, refusal)),
        };
        let scopes = self.scopes.in_view();
        let members = match members_of(alloc, &scopes, locals, body) {
            Ok(members) => members,
            Err(refusal) => return Err(refused_at(body.line, refusal)),
        };
        let withs = match withs_behind(members, body) {
            Ok(withs) => withs,
            Err(refusal) => return Err(refused_at(body.line, refusal)),
        };
        let results = self.assigned_functions(alloc)?;
        let routines = known_routines(alloc, locals, &self.routines, body)?;
        let context = Context {
            alloc,
            unit: &self.unit,
            scopes: &scopes,
            files: self.files,
            results: results.items(),
            locals,
            members,
            routines: &routines,
            withs,
        };
        context.compound(body)
    }

    /// The variables of the block that is under way.
    fn locals(&self) -> Result<Locals<'_>, Refusal>
        ensures { AnswersLocals (locals_of (block_of self.now)) result }
    {
        match self.own.enclosing.items() {
            [] => {
                let auxiliary = number(self.variables.items().len())?;
                Ok(Locals::Unit(&self.unit, auxiliary))
            }
            [inner, ..] => {
                let first = self.own.first()?;
                let auxiliary = self.own.count()?;
                Ok(Locals::Routine(inner.number, first, auxiliary))
            }
        }
    }

    /// The end of the body of the routine of this number, and of its scope. These variables were there before.
    fn end_body(
        &mut self,
        line: Line,
        number: u32,
        before: OwnVariables,
        found: Admission<TypedStmts>,
    ) -> Result<(), CheckRefusal>
        ensures { AnswersStanding result (block_of self.new)
            (body_closed line number before (block_of self.old) (passed stmts_of found)) }
    {
        let own = mem::replace(&mut self.own, before);
        match found {
            Admission::Passes(statements) => {
                self.set_block(line, number, own.into_variables(), statements);
            }
            Admission::Waits(at) => self.note(false, at),
        }
        self.bodies.push(number)?;
        self.scopes.close();
        Ok(())
    }

    /// What the routine of this number does, with the variables that it has declared.
    fn set_block(
        &mut self,
        line: Line,
        number: u32,
        variables: UnitVariables,
        statements: TypedStmts,
    )
        ensures { block_of self.new
            ≡ with_block line number variables (tree.Compound (stmts_of statements)) (block_of self.old) }
    {
        self.routines.set_block(number, line, variables, statements);
    }
}
