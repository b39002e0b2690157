//! The first node of a type denoter that is not built.

ghost use Rattle.std.specs.Prelude.{◌≡◌, map};
ghost use Rattle.ep_built.specs.Built.{core_unbuilt, field_section_unbuilt, fields_unbuilt, first_in, plain_unbuilt};
ghost use Rattle.ep_built.specs.Built.{structure_unbuilt, type_denoter_unbuilt, variant_part_unbuilt, variant_unbuilt};

use crate::built::expressions::{component_value, expression, labels};
use crate::built::{at_node, forms};
use ep_base::Line;
use ep_tree::{Core, FieldSection, Fields, Plain, Structure, TypeDenoter, Variant, VariantPart};

#[cycle(lines)]
pub(super) fn type_denoter(t: &TypeDenoter) -> Option<Line>
    ensures { result ≡ type_denoter_unbuilt t.now }
{
    let line = plain(t.plain.get());
    match &t.initial {
        None => line,
        Some(value) => line.or(component_value(value)),
    }
}

#[cycle(lines)]
fn plain(p: &Plain) -> Option<Line>
    ensures { result ≡ plain_unbuilt p.now }
{
    at_node(forms::plain_is_built(p), p.line, core(&p.core))
}

#[cycle(lines)]
fn plains(all: &[Plain]) -> Option<Line>
    ensures { result ≡ first_in (map plain_unbuilt all.now) }
{
    for p in all {
        let line = plain(p);
        if line.is_some() {
            return line;
        }
    }
    None
}

#[cycle(lines)]
fn core(c: &Core) -> Option<Line>
    ensures { result ≡ core_unbuilt c.now }
{
    let built = forms::core_is_built(c);
    match c {
        Core::Named(line, _, _) => at_node(built, *line, None),
        Core::Range(line, low, high) => {
            let inner = expression(low.get()).or(expression(high.get()));
            at_node(built, *line, inner)
        }
        Core::Enumeration(line, _) => at_node(built, *line, None),
        Core::Pointer(line, _) => at_node(built, *line, None),
        Core::Structured(line, _, s) => at_node(built, *line, structure(s)),
        Core::Restricted(line, _) => at_node(built, *line, None),
        Core::TypeOf(line, _) => at_node(built, *line, None),
    }
}

#[cycle(lines)]
fn structure(s: &Structure) -> Option<Line>
    ensures { result ≡ structure_unbuilt s.now }
{
    match s {
        Structure::Array(_, indexes, component) => {
            plains(indexes.items()).or(plain(component.get()))
        }
        Structure::Record(_, all) => fields(all),
        Structure::Set(_, base) => plain(base.get()),
    }
}

#[cycle(lines)]
fn fields(f: &Fields) -> Option<Line>
    ensures { result ≡ fields_unbuilt f.now }
{
    let line = sections(f.sections.items());
    match &f.variants {
        None => line,
        Some(variants) => line.or(variant_part(variants.get())),
    }
}

#[cycle(lines)]
fn sections(all: &[FieldSection]) -> Option<Line>
    ensures { result ≡ first_in (map field_section_unbuilt all.now) }
{
    for section in all {
        let line = type_denoter(&section.of);
        if line.is_some() {
            return line;
        }
    }
    None
}

#[cycle(lines)]
fn variant_part(p: &VariantPart) -> Option<Line>
    ensures { result ≡ variant_part_unbuilt p.now }
{
    let rest = match &p.otherwise {
        None => None,
        Some(other) => fields(other.get()),
    };
    let inner = variants(p.variants.items()).or(rest);
    at_node(forms::variant_part_is_built(p), p.line, inner)
}

#[cycle(lines)]
fn variants(all: &[Variant]) -> Option<Line>
    ensures { result ≡ first_in (map variant_unbuilt all.now) }
{
    for v in all {
        let line = labels(v.labels.items()).or(fields(&v.fields));
        if line.is_some() {
            return line;
        }
    }
    None
}
