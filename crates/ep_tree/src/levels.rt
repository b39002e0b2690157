//! The nesting of a tree, as specs/Nesting.antt says. One module for each cycle of the tree's types.

ghost use Rattle.std.specs.Prelude.{◌≡◌, min, max, map};
ghost use Rattle.ep_tree.specs.Nesting.{most_of, heading_part_nesting, heading_nesting, action_nesting, block_nesting};
ghost use Rattle.ep_tree.specs.Nesting.{component_nesting};

mod expressions;
mod routines;
mod statements;
mod types;

use crate::component::{Block, Component, Heading, HeadingPart};
use crate::statement::Statement;
use ep_base::Boxed;

/// The nesting of a component, at most the greatest `u32`. It takes no memory.
pub fn nesting(c: &Component) -> u32
    ensures { result ≡ min (component_nesting c.now) u32.MAX }
{
    match c {
        Component::Program(p) => {
            routines::parts(p.parts.items()).max(statements::compound(&p.body))
        }
        Component::Heading(h) => heading(h),
        Component::Block(b) => block(&b.block),
        Component::Module(m) => heading(&m.heading).max(block(&m.block)),
    }
}

fn heading(h: &Heading) -> u32
    ensures { result ≡ min (heading_nesting h.now) u32.MAX }
{
    heading_parts(h.parts.items())
}

fn heading_parts(all: &[HeadingPart]) -> u32
    ensures { result ≡ min (most_of (map heading_part_nesting all.now)) u32.MAX }
{
    let mut most = 0;
    for part in all {
        most = heading_part(part).max(most);
    }
    most
}

fn heading_part(p: &HeadingPart) -> u32
    ensures { result ≡ min (heading_part_nesting p.now) u32.MAX }
{
    match p {
        HeadingPart::Constants(c) => routines::constants(c.definitions.items()),
        HeadingPart::Types(t) => routines::types(t.definitions.items()),
        HeadingPart::Variables(v) => routines::variables(v.declarations.items()),
        HeadingPart::Routine(_) => 0,
    }
}

fn block(b: &Block) -> u32
    ensures { result ≡ min (block_nesting b.now) u32.MAX }
{
    routines::parts(b.parts.items())
        .max(action(&b.initialization))
        .max(action(&b.finalization))
}

fn action(s: &Option<Boxed<Statement>>) -> u32
    ensures { result ≡ min (action_nesting s.now) u32.MAX }
{
    match s {
        None => 0,
        Some(s) => statements::statement(s.get()),
    }
}
