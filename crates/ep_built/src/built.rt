//! The first node of a component that is not built, as specs/Built.antt says. What is built is told by the
//! table in built/forms.rt alone; the other functions go through the nodes in the order of the text.

ghost use Rattle.std.specs.Prelude.{◌≡◌, map};
ghost use Rattle.ep_built.specs.Built.{first_in, at_node, expression_unbuilt, import_unbuilt, program_unbuilt};
ghost use Rattle.ep_built.specs.Built.{component_unbuilt};

mod expressions;
mod forms;
mod names;
mod parts;
mod statements;
mod types;

use ep_base::Line;
use ep_tree::{Component, Expression, Import, Program};

/// The line of the first node in text order that is not built, the outer one first, or `None` exactly where
/// every node is built. It takes no memory.
pub fn unbuilt(c: &Component) -> Option<Line>
    ensures { result ≡ component_unbuilt c.now }
{
    let built = forms::component_is_built(c);
    match c {
        Component::Program(p) => at_node(built, p.line, program(p)),
        Component::Heading(h) => at_node(built, h.line, None),
        Component::Block(b) => at_node(built, b.line, None),
        Component::Module(m) => at_node(built, m.line, None),
    }
}

/// Alike, of an expression on its own.
pub fn expression_unbuilt(e: &Expression) -> Option<Line>
    ensures { result ≡ expression_unbuilt e.now }
{
    expressions::expression(e)
}

/// The line of a node that is not built, or else the first line in its parts.
fn at_node(built: bool, line: Line, inner: Option<Line>) -> Option<Line>
    ensures { result ≡ at_node built line inner }
{
    if built { inner } else { Some(line) }
}

fn program(p: &Program) -> Option<Line>
    ensures { result ≡ program_unbuilt p.now }
{
    let declared = imports(p.imports.items()).or(parts::parts(p.parts.items()));
    let inner = declared.or(statements::compound(&p.body));
    at_node(forms::program_is_built(p), p.line, inner)
}

fn imports(all: &[Import]) -> Option<Line>
    ensures { result ≡ first_in (map import_unbuilt all.now) }
{
    for i in all {
        let line = at_node(forms::import_is_built(i), i.line, None);
        if line.is_some() {
            return line;
        }
    }
    None
}
