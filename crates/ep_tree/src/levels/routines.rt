//! The nesting of declarations and routines.

ghost use Rattle.std.specs.Prelude.{◌≡◌, min, max, map};
ghost use Rattle.ep_tree.specs.Nesting.{most_of, constant_definition_nesting, type_definition_nesting};
ghost use Rattle.ep_tree.specs.Nesting.{variable_declaration_nesting, part_nesting, routine_body_nesting};
ghost use Rattle.ep_tree.specs.Nesting.{routine_nesting};

use crate::declaration::{ConstantDefinition, TypeDefinition, VariableDeclaration};
use crate::levels::expressions::component_value;
use crate::levels::statements::compound;
use crate::levels::types::type_denoter;
use crate::routine::{BlockPart, Routine, RoutineBody};

pub(super) fn constants(all: &[ConstantDefinition]) -> u32
    ensures { result ≡ min (most_of (map constant_definition_nesting all.now)) u32.MAX }
{
    let mut most = 0;
    for definition in all {
        most = component_value(&definition.value).max(most);
    }
    most
}

pub(super) fn types(all: &[TypeDefinition]) -> u32
    ensures { result ≡ min (most_of (map type_definition_nesting all.now)) u32.MAX }
{
    let mut most = 0;
    for definition in all {
        most = type_denoter(&definition.of).max(most);
    }
    most
}

pub(super) fn variables(all: &[VariableDeclaration]) -> u32
    ensures { result ≡ min (most_of (map variable_declaration_nesting all.now)) u32.MAX }
{
    let mut most = 0;
    for declaration in all {
        most = type_denoter(&declaration.of).max(most);
    }
    most
}

#[cycle(levels)]
pub(super) fn parts(all: &[BlockPart]) -> u32
    ensures { result ≡ min (most_of (map part_nesting all.now)) u32.MAX }
{
    let mut most = 0;
    for p in all {
        most = part(p).max(most);
    }
    most
}

#[cycle(levels)]
fn part(p: &BlockPart) -> u32
    ensures { result ≡ min (part_nesting p.now) u32.MAX }
{
    match p {
        BlockPart::Constants(c) => constants(c.definitions.items()),
        BlockPart::Types(t) => types(t.definitions.items()),
        BlockPart::Variables(v) => variables(v.declarations.items()),
        BlockPart::Routine(r) => routine(r),
    }
}

#[cycle(levels)]
fn routine(r: &Routine) -> u32
    ensures { result ≡ min (routine_nesting r.now) u32.MAX }
{
    body(&r.body).saturating_add(1)
}

#[cycle(levels)]
fn body(b: &RoutineBody) -> u32
    ensures { result ≡ min (routine_body_nesting b.now) u32.MAX }
{
    match b {
        RoutineBody::Forward(_) => 0,
        RoutineBody::Block(_, inner, statements) => {
            parts(inner.items()).max(compound(statements))
        }
    }
}
