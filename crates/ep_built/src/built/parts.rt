//! The first node of the parts of a block before its statements that is not built.

ghost use Rattle.std.specs.Prelude.{◌≡◌, map};
ghost use Rattle.ep_built.specs.Built.{first_in, constant_unbuilt, type_unbuilt, variable_unbuilt, part_unbuilt};
ghost use Rattle.ep_built.specs.Built.{body_unbuilt, routine_unbuilt, section_unbuilt, heading_unbuilt, start_unbuilt};

use crate::built::expressions::component_value;
use crate::built::statements::compound;
use crate::built::types::type_denoter;
use crate::built::{at_node, forms};
use ep_base::Line;
use ep_tree::{
    BlockPart, ConstantDefinition, FormalSection, Routine, RoutineBody, RoutineHeading,
    RoutineStart, TypeDefinition, VariableDeclaration,
};

#[cycle(lines)]
pub(super) fn parts(all: &[BlockPart]) -> Option<Line>
    ensures { result ≡ first_in (map part_unbuilt all.now) }
{
    for p in all {
        let line = part(p);
        if line.is_some() {
            return line;
        }
    }
    None
}

#[cycle(lines)]
fn part(p: &BlockPart) -> Option<Line>
    ensures { result ≡ part_unbuilt p.now }
{
    match p {
        BlockPart::Constants(c) => constants(c.definitions.items()),
        BlockPart::Types(t) => types(t.definitions.items()),
        BlockPart::Variables(v) => variables(v.declarations.items()),
        BlockPart::Routine(r) => routine(r),
    }
}

#[cycle(lines)]
fn routine(r: &Routine) -> Option<Line>
    ensures { result ≡ routine_unbuilt r.now }
{
    let inner = start(&r.start).or(body(&r.body));
    at_node(forms::routine_is_built(r), r.line, inner)
}

/// The first line in the body of a routine.
#[cycle(lines)]
fn body(b: &RoutineBody) -> Option<Line>
    ensures { result ≡ body_unbuilt b.now }
{
    match b {
        RoutineBody::Forward(_) => None,
        RoutineBody::Block(_, all, statements) => parts(all.items()).or(compound(statements)),
    }
}

/// The first line in the start of a routine.
fn start(s: &RoutineStart) -> Option<Line>
    ensures { result ≡ start_unbuilt s.now }
{
    match s {
        RoutineStart::Heading(h) => heading(h),
        RoutineStart::Function(_, _) => None,
    }
}

/// The first line in the heading of a routine, by its formal sections.
fn heading(h: &RoutineHeading) -> Option<Line>
    ensures { result ≡ heading_unbuilt h.now }
{
    match h {
        RoutineHeading::Procedure(_, _, formals) => sections(formals.items()),
        RoutineHeading::Function(_, _, formals, _, _) => sections(formals.items()),
    }
}

fn sections(all: &[FormalSection]) -> Option<Line>
    ensures { result ≡ first_in (map section_unbuilt all.now) }
{
    for s in all {
        let line = at_node(forms::section_is_built(s), s.line, None);
        if line.is_some() {
            return line;
        }
    }
    None
}

fn constants(all: &[ConstantDefinition]) -> Option<Line>
    ensures { result ≡ first_in (map constant_unbuilt all.now) }
{
    for definition in all {
        let line = component_value(&definition.value);
        if line.is_some() {
            return line;
        }
    }
    None
}

fn types(all: &[TypeDefinition]) -> Option<Line>
    ensures { result ≡ first_in (map type_unbuilt all.now) }
{
    for definition in all {
        let built = forms::type_definition_is_built(definition);
        let line = at_node(built, definition.line, type_denoter(&definition.of));
        if line.is_some() {
            return line;
        }
    }
    None
}

fn variables(all: &[VariableDeclaration]) -> Option<Line>
    ensures { result ≡ first_in (map variable_unbuilt all.now) }
{
    for declaration in all {
        let line = type_denoter(&declaration.of);
        if line.is_some() {
            return line;
        }
    }
    None
}
