//! Type denoters.

use crate::dump::Dump;
use crate::expressions::{component_value, expression, expressions, labels};
use ep_tree::{
    Core, FieldSection, Fields, Plain, Structure, TypeDenoter, Variant, VariantPart,
    VariantSelector,
};

#[cycle(types)]
pub fn denoter(t: &TypeDenoter, out: &mut Dump) {
    out.at(t.line);
    plain(t.plain.get(), out);
    if let Some(initial) = &t.initial {
        out.word("value");
        component_value(initial, out);
    }
}

#[cycle(types)]
fn plain(p: &Plain, out: &mut Dump) {
    out.at(p.line);
    out.word_if(p.bindable, "bindable");
    core(&p.core, out)
}

#[cycle(types)]
fn core(c: &Core, out: &mut Dump) {
    match c {
        Core::Named(line, name, tuple) => {
            out.at(*line);
            out.qualified(name);
            out.word_if(!tuple.items().is_empty(), "tuple");
            expressions(tuple.items(), out)
        }
        Core::Range(line, low, high) => {
            out.node(*line, "range(");
            expression(low.get(), out);
            out.word("..");
            expression(high.get(), out);
            out.word(")")
        }
        Core::Enumeration(line, names) => {
            out.node(*line, "enumeration(");
            out.names(names);
            out.word(")")
        }
        Core::Pointer(line, name) => {
            out.node(*line, "^");
            out.qualified(name)
        }
        Core::Structured(line, packed, s) => {
            out.at(*line);
            out.word_if(*packed, "packed");
            structure(s, out)
        }
        Core::Restricted(line, name) => {
            out.node(*line, "restricted");
            out.qualified(name)
        }
        Core::TypeOf(line, name) => {
            out.node(*line, "type of");
            out.qualified(name)
        }
    }
}

#[cycle(types)]
fn structure(s: &Structure, out: &mut Dump) {
    match s {
        Structure::Array(line, indexes, component) => {
            out.node(*line, "array(");
            for index in indexes.items() {
                plain(index, out);
            }
            out.word("of");
            plain(component.get(), out);
        }
        Structure::Record(line, all) => {
            out.node(*line, "record(");
            fields(all, out);
        }
        Structure::Set(line, base) => {
            out.node(*line, "set of(");
            plain(base.get(), out);
        }
    }
    out.word(")")
}

#[cycle(types)]
fn fields(f: &Fields, out: &mut Dump) {
    out.node(f.line, "fields(");
    for s in f.sections.items() {
        section(s, out);
    }
    if let Some(part) = &f.variants {
        variant_part(part.get(), out);
    }
    out.word(")")
}

#[cycle(types)]
fn section(s: &FieldSection, out: &mut Dump) {
    out.node(s.line, "section(");
    out.names(&s.names);
    out.word(":");
    denoter(&s.of, out);
    out.word(")")
}

#[cycle(types)]
fn variant_part(v: &VariantPart, out: &mut Dump) {
    out.node(v.line, "case(");
    variant_selector(&v.selector, out);
    for each in v.variants.items() {
        variant(each, out);
    }
    if let Some(other) = &v.otherwise {
        out.word("otherwise");
        fields(other.get(), out);
    }
    out.word(")")
}

fn variant_selector(s: &VariantSelector, out: &mut Dump) {
    match s {
        VariantSelector::Tag(line, name, of) => {
            out.node(*line, "tag");
            out.name(name);
            out.word(":");
            out.qualified(of)
        }
        VariantSelector::Discriminant(line, name) => {
            out.node(*line, "discriminant");
            out.name(name)
        }
    }
}

#[cycle(types)]
fn variant(v: &Variant, out: &mut Dump) {
    out.node(v.line, "variant(");
    labels(v.labels.items(), out);
    out.word(":");
    fields(&v.fields, out);
    out.word(")")
}
