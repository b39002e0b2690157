//! Components, their imports and exports.

use crate::declarations::{constants, heading as routine_heading, parts, types, variables};
use crate::dump::Dump;
use crate::statements::{compound, inner};
use ep_base::{Boxed, Line};
use ep_tree::{
    Block, Component, Export, ExportItem, Heading, HeadingPart, Import, Program, Statement,
};

/// All components of a text.
pub fn all(components: &[Component], out: &mut Dump) {
    for component in components {
        match component {
            Component::Program(p) => program(p, out),
            Component::Heading(h) => heading(h, out),
            Component::Block(b) => {
                out.begin(b.line, "implementation");
                out.name(&b.name);
                block(&b.block, out);
            }
            Component::Module(m) => {
                out.begin(m.line, "module");
                out.enter();
                heading(&m.heading, out);
                out.leave();
                block(&m.block, out);
            }
        }
    }
}

fn program(p: &Program, out: &mut Dump) {
    out.begin(p.line, "program");
    out.name(&p.name);
    out.names(&p.parameters);
    out.enter();
    imports(p.imports.items(), out);
    parts(p.parts.items(), out);
    compound(&p.body, out);
    out.leave();
}

fn heading(h: &Heading, out: &mut Dump) {
    out.begin(h.line, "heading");
    out.name(&h.name);
    out.names(&h.parameters);
    out.enter();
    exports(h.exports.items(), out);
    imports(h.imports.items(), out);
    for part in h.parts.items() {
        heading_part(part, out);
    }
    out.leave();
}

fn heading_part(part: &HeadingPart, out: &mut Dump) {
    match part {
        HeadingPart::Constants(c) => constants(c, out),
        HeadingPart::Types(t) => types(t, out),
        HeadingPart::Variables(v) => variables(v, out),
        HeadingPart::Routine(h) => routine_heading(h, out),
    }
}

fn block(b: &Block, out: &mut Dump) {
    out.enter();
    out.begin(b.line, "block");
    imports(b.imports.items(), out);
    parts(b.parts.items(), out);
    to_do(b.line, "to begin do", &b.initialization, out);
    to_do(b.line, "to end do", &b.finalization, out);
    out.leave();
}

/// A statement of a block, where it is there.
fn to_do(line: Line, word: &str, s: &Option<Boxed<Statement>>, out: &mut Dump) {
    let Some(s) = s else {
        return;
    };
    out.begin(line, word);
    inner(s.get(), out)
}

fn exports(all: &[Export], out: &mut Dump) {
    for export in all {
        out.begin(export.line, "export");
        out.name(&export.name);
        for item in export.items.items() {
            export_item(item, out);
        }
    }
}

fn export_item(item: &ExportItem, out: &mut Dump) {
    match item {
        ExportItem::Constituent(line, protected, name, renamed) => {
            out.node(*line, "constituent(");
            out.word_if(*protected, "protected");
            out.name(name);
            out.name_if("=>", renamed);
        }
        ExportItem::Range(line, first, last) => {
            out.node(*line, "range(");
            out.name(first);
            out.name(last);
        }
    }
    out.word(")")
}

fn imports(all: &[Import], out: &mut Dump) {
    for import in all {
        out.begin(import.line, "import");
        out.name(&import.interface);
        out.word_if(import.qualified, "qualified");
        out.word_if(import.only, "only");
        for item in import.items.items() {
            out.node(item.line, "item(");
            out.name(&item.name);
            out.name_if("=>", &item.renamed);
            out.word(")");
        }
    }
}
