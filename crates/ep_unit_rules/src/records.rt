//! Fields of records that are written, and lists of them; src/variants.rt has those of variants.

ghost use Rattle.std.specs.Prelude.{◌≡◌, IfOk, map};
ghost use Rattle.ep_rules.specs.Judgements.{Accepts};
ghost use Rattle.ep_rules.specs.Answers.{AnswersForm};
ghost use Rattle.ep_unit_rules.specs.Answers.{field_in, field_named};
ghost use Rattle.ep_unit_rules.specs.Records as spec;
ghost use Rattle.ep_unit_rules.specs.Records.{fields_named, fields_nodes, record_field};

use crate::distinct::WrittenFields;
use crate::numbers::number;
use crate::types::{NamedType, counted, type_denoter};
use ep_base::{List, Name, NoMemory};
use ep_rules::Refusal;
use ep_scope::{FieldType, FieldTypes, rule};
use ep_typed::{FieldPart, RecordField, RecordFields};
use std::alloc::Global;

/// A field of a record or of a variant that is written (ISO 10206, 6.4.3.4).
pub struct WrittenField {
    /// Its name.
    pub name: Name,
    /// Its type.
    pub of: NamedType,
}

impl Drop for WrittenField {
    fn drop(self) {
        let WrittenField { name: _, of: _ } = self;
    }
}

/// A list of fields that is written, with its variant part.
pub struct Listing {
    /// As a denoter has it.
    pub part: FieldPart,
    /// Its fields, tags and fields of variants among them, as the rules see them.
    pub fields: FieldTypes,
    /// How many nodes it has.
    pub nodes: u32,
}

impl Drop for Listing {
    fn drop(self) {
        let Listing {
            part: _,
            fields: _,
            nodes: _,
        } = self;
    }
}

impl Listing {
    /// As a denoter has it, and its fields.
    pub fn into_parts(self) -> (FieldPart, FieldTypes)
        ensures part { result.0 ≡ self.part }
        ensures fields { result.1 ≡ self.fields }
    {
        let Listing {
            part,
            fields,
            nodes: _,
        } = self;
        (part, fields)
    }
}

/// Fields with those of a type more, no two of one name.
pub fn add_fields(
    alloc: Global,
    names: &[Name],
    of: NamedType,
    before: WrittenFields,
) -> Result<WrittenFields, Refusal>
    ensures { AnswersForm (map field_in) result
        (fields_named (field_named of) names.now (map field_in before)) }
{
    let mut all = before;
    for name in names {
        if all.has(name) {
            return Err(Refusal::Rule(rule::TWICE));
        }
        let name = name.copy(alloc)?;
        all = all.with(alloc, WrittenField { name, of })?;
    }
    Ok(all)
}

/// Fields, as a denoter has them.
pub fn denoted(alloc: Global, fields: &[WrittenField]) -> Result<RecordFields, NoMemory>
    ensures { IfOk result (λ all. all ≡ map record_field (map field_in fields.now)) }
{
    let mut all = List::new(alloc);
    for field in fields {
        let name = field.name.copy(alloc)?;
        let denoter = type_denoter(alloc, field.of.name);
        all.push(RecordField { name, denoter })?;
    }
    Ok(all)
}

/// Fields that are none of a variant, as the rules see them.
pub fn own_fields(alloc: Global, fields: &[WrittenField]) -> Result<FieldTypes, Refusal>
    ensures { AnswersForm (λ all. all) result (Accepts (spec.own_fields 0 (map field_in fields.now))) }
{
    let mut all = FieldTypes::new(alloc);
    for (place, field) in fields.iter().enumerate() {
        let name = field.name.copy(alloc)?;
        let field = FieldType {
            name,
            of: field.of.of,
            kind: field.of.kind,
            path: List::new(alloc),
            number: number(place)?,
            tag: None,
        };
        all.push(alloc, field)?;
    }
    Ok(all)
}

/// The nodes of these fields.
pub fn nodes(fields: &[WrittenField]) -> u32
    ensures { result ≡ fields_nodes 0 (map field_in fields.now) }
{
    let mut nodes = 0;
    for field in fields {
        nodes = counted(nodes, field.of.nodes);
    }
    nodes
}
