//! The records that one `with` statement opens, and how their fields are found.

ghost use Rattle.std.specs.Prelude.{◌≡◌, [], IfOk, length};
ghost use Rattle.std.specs.Option.{option_map};
ghost use Rattle.ep_scope.specs.Layers.{Adds, HasFields, IsTable, large_place, later, layer_field, layers_field, layers_in, place_field, place_in, small_place};
ghost use Rattle.ep_scope.specs.Meanings.{field_meant};

use crate::fields::{FieldTypes, field_number};
use crate::record::{OpenField, OpenRecord};
use crate::structure::FieldType;
use ep_base::{List, Name, NoMemory};
use indexmap::IndexMap;
use std::alloc::Global;

/// A record of at most so many fields has them in the table of its layer. One of more is asked itself, so that to open it
/// costs nothing for each of its fields.
const FEW: usize = 64;

/// Where a field of an open record stands.
#[derive(Clone, Copy, Drop)]
pub(crate) struct FieldPlace {
    /// The number of the record among those of its layer, counted from 0.
    pub(crate) number: usize,
    /// The place of the field among those of the record, counted from 0.
    pub(crate) field: usize,
}

/// How the fields of the records of a layer are found. It holds places alone, and borrows nothing.
pub(crate) struct FieldTable {
    /// For each name that a field of a record of few fields has, where the innermost of these has it.
    places: IndexMap<Vec<u8>, FieldPlace>,
    /// The numbers of the records of more fields, in order.
    large: List<usize>,
}

impl Drop for FieldTable {
    fn drop(self) {
        let FieldTable {
            places: _,
            large: _,
        } = self;
    }
}

/// The records of a layer, of which the last one is the innermost, with their table.
#[derive(Clone, Copy, Drop)]
pub(crate) struct Layer<'a> {
    pub(crate) records: &'a [OpenRecord<'a>],
    pub(crate) table: &'a FieldTable,
}

/// Where the record of this number has the field of this name.
fn place_in(records: &[OpenRecord<'_>], number: usize, name: &Name) -> Option<FieldPlace>
    ensures { result ≡ place_in records.now number name.now }
{
    match records.get(number) {
        None => None,
        Some(opened) => match field_number(opened.fields, name) {
            None => None,
            Some(field) => Some(FieldPlace { number, field }),
        },
    }
}

/// Where the last of the records of these numbers that has the field of this name has it.
fn large_place(records: &[OpenRecord<'_>], large: &[usize], name: &Name) -> Option<FieldPlace>
    ensures { result ≡ large_place records.now large.now name.now }
{
    for at in (0..large.len()).rev() {
        let found = place_in(records, large[at], name);
        if found.is_some() {
            return found;
        }
    }
    None
}

/// The place in the record that is inside of the other.
fn later(small: Option<FieldPlace>, large: Option<FieldPlace>) -> Option<FieldPlace>
    ensures { result ≡ later small large }
{
    match (small, large) {
        (None, _) => large,
        (_, None) => small,
        (Some(one), Some(other)) => {
            if one.number < other.number {
                large
            } else {
                small
            }
        }
    }
}

/// The field at a place.
fn field_at<'a>(records: &'a [OpenRecord<'a>], place: Option<FieldPlace>) -> Option<OpenField<'a>>
    ensures { option_map field_meant result ≡ place_field records.now place }
{
    let Some(place) = place else {
        return None;
    };
    let Some(opened) = records.get(place.number) else {
        return None;
    };
    match opened.fields.items().get(place.field) {
        None => None,
        Some(field) => Some(OpenField {
            variable: opened.variable,
            protection: opened.protection,
            field,
        }),
    }
}

/// What a table has under this name.
fn small_place(table: &FieldTable, name: &Name) -> Option<FieldPlace>
    ensures { result ≡ small_place table.now.places.entries name.now }
{
    match table.places.get(name.bytes()) {
        None => None,
        Some(place) => Some(*place),
    }
}

/// The field that a layer finds under this name.
fn field_of_layer<'a>(layer: Layer<'a>, name: &Name) -> Option<OpenField<'a>>
    ensures { option_map field_meant result ≡ layer_field layer.entry name.now }
{
    let small = small_place(layer.table, name);
    let large = large_place(layer.records, layer.table.large.items(), name);
    field_at(layer.records, later(small, large))
}

/// The field that the first of these layers that finds one finds.
fn field_around<'a>(around: &'a [Layer<'a>], name: &Name) -> Option<OpenField<'a>>
    ensures { option_map field_meant result ≡ layers_field around.now name.now }
{
    for layer in around {
        let found = field_of_layer(*layer, name);
        if found.is_some() {
            return found;
        }
    }
    None
}

/// Alike, where a layer may stand before them.
pub(crate) fn field_in<'a>(
    open: Option<Layer<'a>>,
    around: &'a [Layer<'a>],
    name: &Name,
) -> Option<OpenField<'a>>
    ensures { option_map field_meant result ≡ layers_field (layers_in open.entry around.now) name.now }
{
    let Some(layer) = open else {
        return field_around(around, name);
    };
    match field_of_layer(layer, name) {
        Some(field) => Some(field),
        None => field_around(around, name),
    }
}

/// All these layers, in order.
pub(crate) fn layers_in<'a>(
    alloc: Global,
    open: Option<Layer<'a>>,
    around: &[Layer<'a>],
) -> Result<List<Layer<'a>>, NoMemory>
    ensures { IfOk result (λ all. all ≡ layers_in open.entry around.now) }
{
    let mut all = List::new(alloc);
    if let Some(layer) = open {
        all.push(layer)?;
    }
    for other in around {
        all.push(*other)?;
    }
    Ok(all)
}

/// Places with those of these fields too, which are those of the record of this number, in place of those that have their
/// names.
fn with_fields(
    alloc: Global,
    places: IndexMap<Vec<u8>, FieldPlace>,
    number: usize,
    fields: &[FieldType],
) -> Result<IndexMap<Vec<u8>, FieldPlace>, NoMemory>
    ensures { IfOk result (λ all. HasFields places.entries number fields.now all.entries) }
{
    let mut places = places;
    for field in (0..fields.len()).rev() {
        let key = Vec::from_slice(alloc, fields[field].name.bytes())?;
        places.insert(key, FieldPlace { number, field })?;
    }
    Ok(places)
}

impl FieldTable {
    /// That of no records. It takes no memory.
    pub(crate) fn new(alloc: Global) -> FieldTable
        ensures { IsTable [] result }
    {
        FieldTable {
            places: IndexMap::new(alloc),
            large: List::new(alloc),
        }
    }

    /// That of one record more, which has this number and these fields.
    pub(crate) fn with(
        self,
        alloc: Global,
        number: usize,
        fields: &FieldTypes,
    ) -> Result<FieldTable, NoMemory>
        ensures { IfOk result (λ table. Adds self number fields.now table) }
    {
        let FieldTable { places, large } = self;
        if fields.items().len() > FEW {
            let mut large = large;
            large.push(number)?;
            return Ok(FieldTable { places, large });
        }
        let places = with_fields(alloc, places, number, fields.items())?;
        Ok(FieldTable { places, large })
    }
}
