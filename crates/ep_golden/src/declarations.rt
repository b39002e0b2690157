//! Definitions, declarations and routines.

use crate::dump::Dump;
use crate::expressions::component_value;
use crate::statements::compound;
use crate::types::denoter;
use ep_tree::{
    BlockPart, Constants, DiscriminantSection, FormalSection, FormalType, Routine, RoutineBody,
    RoutineHeading, RoutineStart, Types, Variables,
};

#[cycle(routine)]
pub fn parts(all: &[BlockPart], out: &mut Dump) {
    for part in all {
        match part {
            BlockPart::Constants(c) => constants(c, out),
            BlockPart::Types(t) => types(t, out),
            BlockPart::Variables(v) => variables(v, out),
            BlockPart::Routine(r) => routine(r, out),
        }
    }
}

pub fn constants(c: &Constants, out: &mut Dump) {
    out.begin(c.line, "constants");
    out.enter();
    for definition in c.definitions.items() {
        out.begin(definition.line, "constant");
        out.name(&definition.name);
        out.word("=");
        component_value(&definition.value, out);
    }
    out.leave();
}

pub fn types(t: &Types, out: &mut Dump) {
    out.begin(t.line, "types");
    out.enter();
    for definition in t.definitions.items() {
        out.begin(definition.line, "type");
        out.name(&definition.name);
        discriminants(definition.discriminants.items(), out);
        out.word("=");
        denoter(&definition.of, out);
    }
    out.leave();
}

fn discriminants(all: &[DiscriminantSection], out: &mut Dump) {
    for section in all {
        out.node(section.line, "discriminants(");
        out.names(&section.names);
        out.word(":");
        out.qualified(&section.of);
        out.word(")");
    }
}

pub fn variables(v: &Variables, out: &mut Dump) {
    out.begin(v.line, "variables");
    out.enter();
    for declaration in v.declarations.items() {
        out.begin(declaration.line, "variable");
        out.names(&declaration.names);
        out.word(":");
        denoter(&declaration.of, out);
    }
    out.leave();
}

#[cycle(routine)]
fn routine(r: &Routine, out: &mut Dump) {
    out.begin(r.line, "routine");
    out.enter();
    start(&r.start, out);
    match &r.body {
        RoutineBody::Forward(line) => out.begin(*line, "forward"),
        RoutineBody::Block(line, all, body) => {
            out.begin(*line, "block");
            parts(all.items(), out);
            compound(body, out);
        }
    }
    out.leave();
}

fn start(s: &RoutineStart, out: &mut Dump) {
    match s {
        RoutineStart::Heading(h) => heading(h, out),
        RoutineStart::Function(line, name) => {
            out.begin(*line, "function again");
            out.name(name)
        }
    }
}

pub fn heading(h: &RoutineHeading, out: &mut Dump) {
    match h {
        RoutineHeading::Procedure(line, name, formals) => {
            out.begin(*line, "procedure");
            out.name(name);
            sections(formals.items(), out)
        }
        RoutineHeading::Function(line, name, formals, variable, of) => {
            out.begin(*line, "function");
            out.name(name);
            sections(formals.items(), out);
            out.name_if("=", variable);
            out.word(":");
            out.qualified(of)
        }
    }
}

fn sections(all: &[FormalSection], out: &mut Dump) {
    for section in all {
        out.node(section.line, "formals(");
        out.word_if(section.protected, "protected");
        out.word_if(section.variable, "var");
        out.names(&section.names);
        out.word(":");
        formal_type(&section.of, out);
        out.word(")");
    }
}

fn formal_type(of: &FormalType, out: &mut Dump) {
    match of {
        FormalType::Named(name) => out.qualified(name),
        FormalType::TypeOf(line, name) => {
            out.node(*line, "type of");
            out.qualified(name)
        }
    }
}
