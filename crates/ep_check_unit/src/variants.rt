//! Variant parts as an item writes them (ISO 10206, 6.4.3.4).

ghost use Rattle.std.specs.Prelude.{◌≡◌, IfOk, None, true, map};
ghost use Rattle.ep_built.specs.Built.{built_selector, first_in, label_unbuilt};
ghost use Rattle.ep_rules.specs.Answers.{AnswersForm};
ghost use Rattle.ep_unit_rules.specs.Answers.{tag_in};
ghost use Rattle.ep_check_unit.specs.Answers.{fields_in, gathered_in, labelled_in, listed_in};
ghost use Rattle.ep_check_unit.specs.Blocks.{Block as BlockNow, block_of};
ghost use Rattle.ep_check_unit.specs.Declarations as spec;
ghost use Rattle.ep_check_unit.specs.Declarations.{tag_written, unless_left_out};

use crate::block::Block;
use ep_base::{Boxed, Line, List, NoMemory};
use ep_rules::Refusal;
use ep_scope::FieldTypes;
use ep_tree::{Label, VariantSelector};
use ep_typed::{
    CaseRanges, FieldPart, Selection, Selector, SharedSelection, Variant, VariantLabels,
    VariantPart, Variants,
};
use ep_unit_rules::{
    Labels, Listing, Tag, TagValues, WrittenField, all_fields, counted, denoted, nodes, number,
    take_variant, type_denoter, variant_nodes,
};
use std::alloc::Global;

/// What is gathered of the variants of a variant part.
pub(crate) struct Gathered {
    /// Their labels.
    pub(crate) labels: Labels,
    /// Them, as a denoter has them.
    pub(crate) variants: Variants,
    /// The fields of each, and then those of the one that completes the others, as the rules see them.
    pub(crate) lists: List<FieldTypes>,
    /// How many nodes they have.
    pub(crate) nodes: u32,
    /// The one that completes the others, where there is one, as a denoter has it.
    pub(crate) completing: Option<Boxed<FieldPart>>,
}

impl Drop for Gathered {
    fn drop(self) {
        let Gathered {
            labels: _,
            variants: _,
            lists: _,
            nodes: _,
            completing: _,
        } = self;
    }
}

impl Gathered {
    /// Nothing yet.
    pub(crate) fn new(alloc: Global) -> Gathered
        ensures { (b : BlockNow) → gathered_in b result ≡ spec.none_gathered b }
    {
        Gathered {
            labels: Labels::new(alloc),
            variants: List::new(alloc),
            lists: List::new(alloc),
            nodes: 0,
            completing: None,
        }
    }

    /// A variant more, with these ranges, whose labels are taken already.
    pub(crate) fn add(&mut self, ranges: CaseRanges, listing: Listing) -> Result<(), NoMemory>
        ensures { (b : BlockNow) → IfOk result (λ done. gathered_in b self.new
            ≡ spec.variant_added ranges self.old.labels (listed_in b listing) (gathered_in b self.old)) }
    {
        self.nodes = variant_nodes(self.nodes, ranges.items(), listing.nodes);
        let (part, fields) = listing.into_parts();
        self.lists.push(fields)?;
        self.variants.push(Variant { ranges, part })?;
        Ok(())
    }

    /// The variant that completes the others.
    pub(crate) fn complete(&mut self, alloc: Global, listing: Listing) -> Result<(), NoMemory>
        ensures { (b : BlockNow) → IfOk result (λ done. gathered_in b self.new
            ≡ spec.completing_added (listed_in b listing) (gathered_in b self.old)) }
    {
        self.nodes = variant_nodes(self.nodes, &[], listing.nodes);
        let (part, fields) = listing.into_parts();
        self.lists.push(fields)?;
        self.completing = Some(Boxed::new(alloc, part)?);
        Ok(())
    }

    /// No value of the tag is left out.
    pub(crate) fn unless_left_out(self, values: TagValues) -> Result<Gathered, Refusal>
        ensures { (b : BlockNow) → AnswersForm (gathered_in b) result
            (unless_left_out values (gathered_in b self)) }
    {
        self.labels.complete(values, self.completing.is_some())?;
        Ok(self)
    }

    /// The labels, the variants, their fields, and the one that completes the others.
    fn into_parts(
        self,
    ) -> (
        VariantLabels,
        Variants,
        List<FieldTypes>,
        Option<Boxed<FieldPart>>,
    )
        ensures labels { result.0 ≡ self.labels.before }
        ensures variants { result.1 ≡ self.variants }
        ensures lists { result.2 ≡ self.lists }
        ensures completing { result.3 ≡ self.completing }
    {
        let Gathered {
            labels,
            variants,
            lists,
            nodes: _,
            completing,
        } = self;
        (labels.into_before(), variants, lists, completing)
    }
}

// ---- lists with a variant part

/// The variant part, as a denoter has it.
fn variant_part(
    alloc: Global,
    tag: Tag<'_>,
    variants: Variants,
    completing: Option<Boxed<FieldPart>>,
) -> Result<Boxed<VariantPart>, NoMemory>
    ensures { (g : spec.Gathered) → g.variants ≡ variants → g.completing ≡ completing
        → IfOk result (λ part. part ≡ spec.variant_part (tag_in tag.entry) g) }
{
    let name = tag.name.copy(alloc)?;
    let denoter = Boxed::new(alloc, type_denoter(alloc, tag.of.name))?;
    let part = VariantPart {
        selector: Selector::Tag(name, denoter),
        variants,
        completing,
    };
    Boxed::new(alloc, part)
}

/// A list of these fields with these variants, of which no value of the tag is left out.
pub(crate) fn variant_list(
    alloc: Global,
    own: &[WrittenField],
    tag: Tag<'_>,
    gathered: Gathered,
) -> Result<Listing, Refusal>
    ensures { (b c : BlockNow) → AnswersForm (listed_in b) result
        (spec.variant_list (fields_in c own.now) (tag_in tag.entry) (gathered_in b gathered)) }
{
    let component = number(own.len())?;
    let nodes = counted(counted(nodes(own), tag.of.nodes), gathered.nodes);
    let (labels, variants, lists, completing) = gathered.into_parts();
    let selection = SharedSelection::new(
        alloc,
        Selection {
            tag: component,
            labels,
            completed: completing.is_some(),
        },
    )?;
    let fields = all_fields(alloc, &selection, component, tag, own, lists.items())?;
    let variant_part = Some(variant_part(alloc, tag, variants, completing)?);
    let part = FieldPart {
        fields: denoted(alloc, own)?,
        variant_part,
    };
    Ok(Listing {
        part,
        fields,
        nodes,
    })
}

impl Block {
    /// `id ":" name` before `of`
    pub(crate) fn tag<'a>(&self, selector: &'a VariantSelector) -> Result<Tag<'a>, Refusal>
        requires { built_selector selector.now ≡ true }
        ensures { AnswersForm tag_in result (tag_written selector.now (block_of self.now)) }
    {
        let VariantSelector::Tag(_, name, of) = selector else {
            unreachable!()
        };
        let of = self.named_type(of)?;
        let values = self.index_values(of)?;
        Ok(Tag { name, of, values })
    }

    /// The ranges of a variant of an item on this line, whose labels come after those of others.
    pub(crate) fn variant_labels(
        &mut self,
        alloc: Global,
        line: Line,
        values: TagValues,
        labels: &[Label],
        found: &mut Labels,
    ) -> Result<CaseRanges, Refusal>
        requires { first_in (map label_unbuilt labels.now) ≡ None }
        ensures { AnswersForm (λ ranges. labelled_in (block_of self.new) ranges found.new) result
            (spec.labels_noted line values labels.now (block_of self.old) found.old) }
    {
        let ranges = take_variant(alloc, &self.scopes.in_view(), values, labels, found)?;
        self.note(found.are_built(), line);
        Ok(ranges)
    }
}
