//! The nesting of types.

ghost use Rattle.std.specs.Prelude.{◌≡◌, min, max, map};
ghost use Rattle.ep_tree.specs.Nesting.{most_of, most_if, core_nesting, structure_nesting, field_section_nesting};
ghost use Rattle.ep_tree.specs.Nesting.{fields_nesting, plain_nesting, type_denoter_nesting, variant_nesting};
ghost use Rattle.ep_tree.specs.Nesting.{variant_part_nesting};

use crate::levels::expressions;
use crate::types::{
    Core, FieldSection, Fields, Plain, Structure, TypeDenoter, Variant, VariantPart,
};

#[cycle(levels)]
pub(super) fn type_denoter(t: &TypeDenoter) -> u32
    ensures { result ≡ min (type_denoter_nesting t.now) u32.MAX }
{
    let most = plain(t.plain.get());
    match &t.initial {
        None => most,
        Some(value) => expressions::component_value(value).max(most),
    }
}

#[cycle(levels)]
fn plain(p: &Plain) -> u32
    ensures { result ≡ min (plain_nesting p.now) u32.MAX }
{
    core(&p.core).saturating_add(1)
}

#[cycle(levels)]
fn core(c: &Core) -> u32
    ensures { result ≡ min (core_nesting c.now) u32.MAX }
{
    match c {
        Core::Named(_, _, values) => expressions::inner_expressions(values.items()),
        Core::Range(_, low, high) => {
            expressions::expression(low.get()).max(expressions::expression(high.get()))
        }
        Core::Enumeration(_, _) => 0,
        Core::Pointer(_, _) => 0,
        Core::Structured(_, _, s) => structure(s),
        Core::Restricted(_, _) => 0,
        Core::TypeOf(_, _) => 0,
    }
}

#[cycle(levels)]
fn structure(s: &Structure) -> u32
    ensures { result ≡ min (structure_nesting s.now) u32.MAX }
{
    match s {
        Structure::Array(_, indexes, component) => {
            plains(indexes.items()).max(plain(component.get()))
        }
        Structure::Record(_, inner) => fields(inner),
        Structure::Set(_, base) => plain(base.get()),
    }
}

#[cycle(levels)]
fn plains(all: &[Plain]) -> u32
    ensures { result ≡ min (most_of (map plain_nesting all.now)) u32.MAX }
{
    let mut most = 0;
    for p in all {
        most = plain(p).max(most);
    }
    most
}

#[cycle(levels)]
fn fields(f: &Fields) -> u32
    ensures { result ≡ min (fields_nesting f.now) u32.MAX }
{
    let most = sections(f.sections.items());
    match &f.variants {
        None => most.saturating_add(1),
        Some(part) => variant_part(part.get()).max(most).saturating_add(1),
    }
}

#[cycle(levels)]
fn sections(all: &[FieldSection]) -> u32
    ensures { result ≡ min (most_of (map field_section_nesting all.now)) u32.MAX }
{
    let mut most = 0;
    for section in all {
        most = type_denoter(&section.of).max(most);
    }
    most
}

#[cycle(levels)]
fn variant_part(p: &VariantPart) -> u32
    ensures { result ≡ min (variant_part_nesting p.now) u32.MAX }
{
    let most = variants(p.variants.items());
    match &p.otherwise {
        None => most,
        Some(inner) => fields(inner.get()).max(most),
    }
}

#[cycle(levels)]
fn variants(all: &[Variant]) -> u32
    ensures { result ≡ min (most_of (map variant_nesting all.now)) u32.MAX }
{
    let mut most = 0;
    for v in all {
        most = variant(v).max(most);
    }
    most
}

#[cycle(levels)]
fn variant(v: &Variant) -> u32
    ensures { result ≡ min (variant_nesting v.now) u32.MAX }
{
    expressions::labels(v.labels.items()).max(fields(&v.fields))
}
