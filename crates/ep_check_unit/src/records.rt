//! Records and their lists of fields as an item writes them; src/variants.rt has variants.

ghost use Rattle.ep_rules.specs.Judgements.{Accepts};
ghost use Rattle.ep_rules.specs.Answers.{AnswersForm};
ghost use Rattle.ep_check_unit.specs.Answers.{fields_in, listed_in, written_in};
ghost use Rattle.ep_check_unit.specs.Blocks.{Block as BlockNow, block_of};
ghost use Rattle.ep_check_unit.specs.Declarations as spec;
ghost use Rattle.ep_check_unit.specs.Declarations.{record_over};

use crate::block::Block;
use ep_rules::Refusal;
use ep_scope::{Composition, Kind, StructuredType, TypeName};
use ep_typed::{Denoter, FieldPart};
use ep_unit_rules::{Listing, Written, WrittenField, counted, denoted, nodes, number, own_fields};
use std::alloc::Global;

/// A list of these fields, without a variant part.
pub(crate) fn plain_list(alloc: Global, fields: &[WrittenField]) -> Result<Listing, Refusal>
    ensures { (b : BlockNow) → AnswersForm (listed_in b) result
        (Accepts (spec.plain_list (fields_in b fields.now))) }
{
    let own = own_fields(alloc, fields)?;
    let part = FieldPart {
        fields: denoted(alloc, fields)?,
        variant_part: None,
    };
    Ok(Listing {
        part,
        fields: own,
        nodes: nodes(fields),
    })
}

impl Block {
    /// The record type with these fields.
    pub(crate) fn record_over(&mut self, listing: Listing) -> Result<Written, Refusal>
        ensures { AnswersForm (written_in (block_of self.new)) result
            (Accepts (record_over (listed_in (block_of self.old) listing))) }
    {
        let number = number(self.types.items().len())?;
        let nodes = counted(1, listing.nodes);
        let (part, fields) = listing.into_parts();
        self.scopes.add_structure(StructuredType {
            number,
            composition: Composition::Record(fields),
        })?;
        Ok(Written {
            denoter: Denoter::Record(part),
            of: TypeName::Entry(number),
            kind: Kind::Structured(number),
            nodes,
        })
    }
}
