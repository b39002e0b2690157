//! Types as an item writes them.

ghost use Rattle.std.specs.Prelude.{◌≡◌, ℕ, List, [], None, IsTrue, map};
ghost use Rattle.std.specs.Option.{option_map};
ghost use Rattle.ep_built.specs.Built.{core_unbuilt, expression_unbuilt, field_section_unbuilt, fields_unbuilt, first_if, first_in, plain_unbuilt, structure_unbuilt, type_denoter_unbuilt, variant_part_unbuilt, variant_unbuilt};
ghost use Rattle.ep_scope.specs.Meanings.{meant_by};
ghost use Rattle.ep_check_expr.specs.Constants.{bound_judged};
ghost use Rattle.ep_rules.specs.Judgements.{Accepts, both, when_accepted};
ghost use Rattle.ep_rules.specs.Answers.{AnswersForm, fails_among};
ghost use Rattle.ep_unit_rules.specs.Answers.{index_of};
ghost use Rattle.ep_check_unit.specs.Answers.{AnswersBlock, arrays_below, fields_in, gathered_in, indexes_written, listed_in, named_in, written_in};
ghost use Rattle.ep_check_unit.specs.Declarations as spec;
ghost use Rattle.ep_check_unit.specs.Blocks.{Block as BlockNow, block_of};
ghost use Rattle.ep_unit_rules.specs.Types.{type_denoter};
ghost use Rattle.ep_check_unit.specs.Declarations.{array_over, core_part, core_written, unless_large, index_values, plain_part, settled, settled_part, settled_type, structure_part, type_written, completing_written, fields_judged, none_gathered, record_written, section_part, variant_judged, variant_written, variants_judged, variants_written, sections_written, enumerated, enumeration, next_type, range, scopes_of, type_meant};

use crate::block::Block;
use crate::records::plain_list;
use crate::variants::{Gathered, variant_list};
use ep_base::{Boxed, Line, List, Name};
use ep_check_expr::bound_value;
use ep_rules::{Refusal, undeclared};
use ep_scope::{
    ArrayType, Composition, Declaration, Enumeration, Host, Kind, Meaning, Required,
    StructuredType, TypeName, meaning_in, meaning_of, rule,
};
use ep_tree::{
    Core, Expression, FieldSection, Fields, Plain, QualifiedName, Structure, TypeDenoter, Variant,
    VariantPart,
};
use ep_typed::{Denoter, Value};
use ep_unit_rules::{
    IndexType, Listing, NamedType, TYPE_NODES, TagValues, Written, WrittenField, WrittenFields,
    add_fields, are_built, common_host, copied_names, counted, index_host, number, ordered,
    required_host, subrange, tag_values, type_denoter,
};
use std::alloc::Global;

/// The nodes of a subrange: itself, its host and its bounds.
const SUBRANGE_NODES: u32 = 4;

/// A type has not too many nodes.
fn unless_large(written: Written) -> Result<Written, Refusal>
    ensures { (b : BlockNow) → AnswersForm (written_in b) result (unless_large (written_in b written)) }
{
    if written.nodes <= TYPE_NODES {
        Ok(written)
    } else {
        Err(Refusal::Rule(rule::LARGE_TYPE))
    }
}

/// The type that a name means, where one of the rules of a name that means nothing is `missing`.
fn type_meant(meaning: &Meaning<'_>, missing: u32) -> Result<NamedType, Refusal>
    ensures { (rules : List ℕ) (b : BlockNow) → IsTrue (fails_among missing rules)
        → AnswersForm (named_in b) result (type_meant rules (meant_by meaning.now) b) }
{
    match meaning {
        Meaning::Declared(declared) => match &declared.what {
            Declaration::Type(of, kind, nodes) => Ok(NamedType {
                name: TypeName::Entry(declared.number),
                of: *of,
                kind: *kind,
                nodes: *nodes,
            }),
            _ => Err(Refusal::Rule(rule::OTHER_THING)),
        },
        Meaning::Required(Required::Type(required)) => Ok(NamedType {
            name: TypeName::Required(*required),
            of: TypeName::Required(*required),
            kind: Kind::Ordinal(required_host(*required)),
            nodes: 1,
        }),
        Meaning::Nothing => Err(Refusal::Rule(missing)),
        _ => Err(Refusal::Rule(rule::OTHER_THING)),
    }
}

impl Block {
    /// A type by its name, or by the name of an interface and that of its constituent.
    pub(crate) fn named_type(&self, name: &QualifiedName) -> Result<NamedType, Refusal>
        ensures { AnswersForm (named_in (block_of self.now)) result
            (spec.type_named name.now.first name.now.second (block_of self.now)) }
    {
        let scopes = self.scopes.in_view();
        match &name.second {
            None => {
                let meaning = meaning_of(&scopes, &name.first);
                type_meant(&meaning, undeclared(&name.first))
            }
            Some(constituent) => {
                let meaning = meaning_in(&scopes, &name.first, constituent);
                type_meant(&meaning, rule::UNDECLARED)
            }
        }
    }

    /// A type that is not there yet, which is the next one of the unit.
    pub(crate) fn next_type(&self) -> Result<TypeName, Refusal>
        ensures { AnswersForm (λ t. t) result (Accepts (next_type (block_of self.now))) }
    {
        Ok(TypeName::Entry(number(self.types.items().len())?))
    }

    /// `expr ".." expr` in an item on this line.
    fn range(
        &mut self,
        alloc: Global,
        line: Line,
        low: &Expression,
        high: &Expression,
    ) -> Result<Written, Refusal>
        requires low { expression_unbuilt low.now ≡ None }
        requires high { expression_unbuilt high.now ≡ None }
        ensures { AnswersForm (written_in (block_of self.new)) result
            (both (range line (block_of self.old))
            (bound_judged (scopes_of (block_of self.old)) low.now)
            (bound_judged (scopes_of (block_of self.old)) high.now)) }
    {
        let least = bound_value(alloc, low, &self.scopes.in_view())?;
        let greatest = bound_value(alloc, high, &self.scopes.in_view())?;
        let host = common_host(least.kind, greatest.kind)?;
        ordered(&least, &greatest)?;
        let of = self.next_type()?;
        self.note(are_built(&least, &greatest), line);
        let denoter = subrange(alloc, host, &least, &greatest)?;
        Ok(Written {
            denoter,
            of,
            kind: Kind::Ordinal(host),
            nodes: SUBRANGE_NODES,
        })
    }

    /// The constants of an enumeration are entered, in order.
    fn enumerate(&mut self, alloc: Global, host: Host, names: &[Name]) -> Result<(), Refusal>
        ensures { AnswersBlock result (block_of self.new)
            (enumerated host 0 names.now (block_of self.old)) }
    {
        for (place, name) in names.iter().enumerate() {
            let ordinal = Value::Word(i64::from(number(place)?));
            self.add_constant(alloc, name, Kind::Ordinal(host), &ordinal, 1)?;
        }
        Ok(())
    }

    /// `"(" ids ")"`
    fn enumeration(&mut self, alloc: Global, names: &[Name]) -> Result<Written, Refusal>
        ensures { AnswersForm (written_in (block_of self.new)) result
            (enumeration names.now (block_of self.old)) }
    {
        let Some((_, others)) = names.split_first() else {
            return Err(Refusal::Rule(rule::EMPTY_RANGE));
        };
        let host = Host::Enumeration(Enumeration {
            number: number(self.types.items().len())?,
            last: number(others.len())?,
        });
        let of = self.next_type()?;
        self.enumerate(alloc, host, names)?;
        let denoter = Denoter::Enumeration(copied_names(alloc, names)?);
        Ok(Written {
            denoter,
            of,
            kind: Kind::Ordinal(host),
            nodes: 1,
        })
    }

    /// `core` in an item on this line.
    #[cycle(denoters)]
    pub(crate) fn written_type(
        &mut self,
        alloc: Global,
        line: Line,
        core: &Core,
    ) -> Result<Written, Refusal>
        requires { core_unbuilt core.now ≡ None }
        ensures { AnswersForm (written_in (block_of self.new)) result
            (core_written line core.now (block_of self.old)) }
    {
        match core {
            Core::Named(_, name, _) => {
                let named = self.named_type(name)?;
                Ok(Written {
                    denoter: type_denoter(alloc, named.name),
                    of: named.of,
                    kind: named.kind,
                    nodes: named.nodes,
                })
            }
            Core::Range(_, low, high) => self.range(alloc, line, low.get(), high.get()),
            Core::Enumeration(_, names) => self.enumeration(alloc, names.items()),
            Core::Structured(_, _, structure) => self.structure(alloc, line, structure),
            _ => unreachable!(),
        }
    }

    /// `plain` in an item on this line.
    #[cycle(denoters)]
    fn written_plain(
        &mut self,
        alloc: Global,
        line: Line,
        plain: &Plain,
    ) -> Result<Written, Refusal>
        requires { plain_unbuilt plain.now ≡ None }
        ensures { AnswersForm (written_in (block_of self.new)) result
            ((plain_part plain.now).written line (block_of self.old)) }
    {
        self.written_type(alloc, line, &plain.core)
    }

    /// `struct`, which is an array, a record or a set.
    #[cycle(denoters)]
    fn structure(
        &mut self,
        alloc: Global,
        line: Line,
        structure: &Structure,
    ) -> Result<Written, Refusal>
        requires { structure_unbuilt structure.now ≡ None }
        ensures { AnswersForm (written_in (block_of self.new)) result
            ((structure_part structure.now).written line (block_of self.old)) }
    {
        match structure {
            Structure::Array(_, indexes, component) => {
                let made = self.index_types(alloc, line, indexes.items())?;
                let Some((first, others)) = made.items().split_first() else {
                    return self.written_plain(alloc, line, component.get());
                };
                let of = self.settled_plain(alloc, line, component.get())?;
                let below = self.arrays_below(alloc, line, others, of)?;
                self.array_over(alloc, *first, below)
            }
            Structure::Record(_, fields) => self.record(alloc, line, fields),
            Structure::Set(_, base) => {
                let of = self.settled_plain(alloc, line, base.get())?;
                self.set_on(alloc, of)
            }
        }
    }

    /// `"record" fields "end"`
    #[cycle(denoters)]
    fn record(&mut self, alloc: Global, line: Line, fields: &Fields) -> Result<Written, Refusal>
        requires { fields_unbuilt fields.now ≡ None }
        ensures { AnswersForm (written_in (block_of self.new)) result
            (record_written (fields_judged fields.now) line (block_of self.old)) }
    {
        let listing = self.fields(alloc, line, fields)?;
        self.record_over(listing)
    }

    /// `fields`, of a record or of a variant
    #[cycle(denoters)]
    fn fields(&mut self, alloc: Global, line: Line, fields: &Fields) -> Result<Listing, Refusal>
        requires { fields_unbuilt fields.now ≡ None }
        ensures { AnswersForm (listed_in (block_of self.new)) result
            (fields_judged fields.now line (block_of self.old)) }
    {
        let own = self.sections(alloc, line, fields.sections.items())?;
        match &fields.variants {
            None => plain_list(alloc, own.items()),
            Some(part) => self.variant_part(alloc, line, own.items(), part.get()),
        }
    }

    /// `vpart`, behind the fields of its list
    #[cycle(denoters)]
    fn variant_part(
        &mut self,
        alloc: Global,
        line: Line,
        own: &[WrittenField],
        part: &VariantPart,
    ) -> Result<Listing, Refusal>
        requires { variant_part_unbuilt part.now ≡ None }
        ensures { AnswersForm (listed_in (block_of self.new)) result
            (variants_judged part.now line (fields_in (block_of self.old) own.now)) }
    {
        let tag = self.tag(&part.selector)?;
        let gathered = self.variants(alloc, line, tag.values, part.variants.items())?;
        let gathered = self.completing(alloc, line, &part.otherwise, gathered)?;
        let gathered = gathered.unless_left_out(tag.values)?;
        variant_list(alloc, own, tag, gathered)
    }

    /// `variant { ";" variant }`
    #[cycle(denoters)]
    fn variants(
        &mut self,
        alloc: Global,
        line: Line,
        values: TagValues,
        variants: &[Variant],
    ) -> Result<Gathered, Refusal>
        requires { first_in (map variant_unbuilt variants.now) ≡ None }
        ensures { AnswersForm (gathered_in (block_of self.new)) result
            (variants_written line values (map variant_judged variants.now) (none_gathered (block_of self.old))) }
    {
        let mut gathered = Gathered::new(alloc);
        for variant in variants {
            gathered = self.variant(alloc, line, values, variant, gathered)?;
        }
        Ok(gathered)
    }

    /// `variant`, behind others
    #[cycle(denoters)]
    fn variant(
        &mut self,
        alloc: Global,
        line: Line,
        values: TagValues,
        variant: &Variant,
        before: Gathered,
    ) -> Result<Gathered, Refusal>
        requires { variant_unbuilt variant.now ≡ None }
        ensures { AnswersForm (gathered_in (block_of self.new)) result
            (variant_written line values (variant_judged variant.now) (gathered_in (block_of self.old) before)) }
    {
        let mut gathered = before;
        let labels = variant.labels.items();
        let ranges = self.variant_labels(alloc, line, values, labels, &mut gathered.labels)?;
        let listing = self.fields(alloc, line, &variant.fields)?;
        gathered.add(ranges, listing)?;
        Ok(gathered)
    }

    /// `[ "otherwise" "(" fields ")" ]`, behind the variants
    #[cycle(denoters)]
    fn completing(
        &mut self,
        alloc: Global,
        line: Line,
        other: &Option<Boxed<Fields>>,
        before: Gathered,
    ) -> Result<Gathered, Refusal>
        requires { first_if (option_map fields_unbuilt other.now) ≡ None }
        ensures { AnswersForm (gathered_in (block_of self.new)) result
            (completing_written line (option_map fields_judged other.now) (gathered_in (block_of self.old) before)) }
    {
        let Some(fields) = other else {
            return Ok(before);
        };
        let mut gathered = before;
        let listing = self.fields(alloc, line, fields.get())?;
        gathered.complete(alloc, listing)?;
        Ok(gathered)
    }

    /// `fsec { ";" fsec }`
    #[cycle(denoters)]
    fn sections(
        &mut self,
        alloc: Global,
        line: Line,
        sections: &[FieldSection],
    ) -> Result<WrittenFields, Refusal>
        requires { first_in (map field_section_unbuilt sections.now) ≡ None }
        ensures { AnswersForm (fields_in (block_of self.new)) result
            (sections_written line (map section_part sections.now) (fields_in (block_of self.old) [])) }
    {
        let mut all = WrittenFields::new(alloc);
        for section in sections {
            let of = self.settled_denoter(alloc, line, &section.of)?;
            all = add_fields(alloc, section.names.items(), of, all)?;
        }
        Ok(all)
    }

    /// The index types of an array, from left to right.
    #[cycle(denoters)]
    fn index_types(
        &mut self,
        alloc: Global,
        line: Line,
        plains: &[Plain],
    ) -> Result<List<IndexType>, Refusal>
        requires { first_in (map plain_unbuilt plains.now) ≡ None }
        ensures { AnswersForm (λ all. (map index_of all, block_of self.new)) result
            (indexes_written line (map plain_part plains.now) (block_of self.old)) }
    {
        let mut all = List::new(alloc);
        for plain in plains {
            let index = self.settled_plain(alloc, line, plain)?;
            let values = self.index_values(index)?;
            all.push(IndexType {
                name: index.name,
                values,
                nodes: index.nodes,
            })?;
        }
        Ok(all)
    }

    /// `plain` by its name, for which a type that has none gets an entry.
    #[cycle(denoters)]
    fn settled_plain(
        &mut self,
        alloc: Global,
        line: Line,
        plain: &Plain,
    ) -> Result<NamedType, Refusal>
        requires { plain_unbuilt plain.now ≡ None }
        ensures { AnswersForm (named_in (block_of self.new)) result
            (settled_part (plain_part plain.now) line (block_of self.old)) }
    {
        self.settled_core(alloc, line, &plain.core)
    }

    /// A type by its name in an item on this line, for which a type that has none gets an entry.
    #[cycle(denoters)]
    fn settled_core(&mut self, alloc: Global, line: Line, core: &Core) -> Result<NamedType, Refusal>
        requires { core_unbuilt core.now ≡ None }
        ensures { AnswersForm (named_in (block_of self.new)) result
            (settled_part (core_part core.now) line (block_of self.old)) }
    {
        if let Core::Named(_, name, _) = core {
            return self.named_type(name);
        }
        let written = self.written_type(alloc, line, core)?;
        self.settle(alloc, line, written)
    }

    /// `type` in an item on this line.
    #[cycle(denoters)]
    fn written_denoter(
        &mut self,
        alloc: Global,
        line: Line,
        denoter: &TypeDenoter,
    ) -> Result<Written, Refusal>
        requires { type_denoter_unbuilt denoter.now ≡ None }
        ensures { AnswersForm (written_in (block_of self.new)) result
            (type_written line denoter.now (block_of self.old)) }
    {
        match &denoter.initial {
            None => self.written_plain(alloc, line, denoter.plain.get()),
            Some(value) => {
                let of = self.settled_plain(alloc, line, denoter.plain.get())?;
                self.begun_with(alloc, line, of, value)
            }
        }
    }

    /// `type` by its name in an item on this line, for which a type that has none gets an entry.
    #[cycle(denoters)]
    fn settled_denoter(
        &mut self,
        alloc: Global,
        line: Line,
        denoter: &TypeDenoter,
    ) -> Result<NamedType, Refusal>
        requires { type_denoter_unbuilt denoter.now ≡ None }
        ensures { AnswersForm (named_in (block_of self.new)) result
            (settled_type line denoter.now (block_of self.old)) }
    {
        if denoter.initial.is_none() {
            return self.settled_plain(alloc, line, denoter.plain.get());
        }
        let written = self.written_denoter(alloc, line, denoter)?;
        self.settle(alloc, line, written)
    }

    /// The type of a definition in an item on this line.
    pub(crate) fn defined_type(
        &mut self,
        alloc: Global,
        line: Line,
        denoter: &TypeDenoter,
    ) -> Result<Written, Refusal>
        requires { type_denoter_unbuilt denoter.now ≡ None }
        ensures { AnswersForm (written_in (block_of self.new)) result
            (when_accepted unless_large (type_written line denoter.now (block_of self.old))) }
    {
        let written = self.written_denoter(alloc, line, denoter)?;
        unless_large(written)
    }

    /// The type of the variables of an item on this line, by its name.
    pub(crate) fn declared_type(
        &mut self,
        alloc: Global,
        line: Line,
        denoter: &TypeDenoter,
    ) -> Result<NamedType, Refusal>
        requires { type_denoter_unbuilt denoter.now ≡ None }
        ensures { AnswersForm (named_in (block_of self.new)) result
            (when_accepted unless_large (settled_type line denoter.now (block_of self.old))) }
    {
        let named = self.settled_denoter(alloc, line, denoter)?;
        if named.nodes <= TYPE_NODES {
            Ok(named)
        } else {
            Err(Refusal::Rule(rule::LARGE_TYPE))
        }
    }

    /// A type that has no name gets an entry.
    fn settle(&mut self, alloc: Global, line: Line, written: Written) -> Result<NamedType, Refusal>
        ensures { AnswersForm (named_in (block_of self.new)) result
            (Accepts (settled line (written_in (block_of self.old) written))) }
    {
        let of = written.of;
        let kind = written.kind;
        let nodes = written.nodes;
        let number = self.add_type(alloc, None, line, written)?;
        let name = TypeName::Entry(number);
        Ok(NamedType {
            name,
            of,
            kind,
            nodes,
        })
    }

    /// The values of an index type, or of the type of a tag.
    pub(crate) fn index_values(&self, of: NamedType) -> Result<TagValues, Refusal>
        ensures { AnswersForm (λ v. v) result (index_values (named_in (block_of self.now) of)) }
    {
        let host = index_host(of.kind)?;
        tag_values(self.types.items(), host, of.of)
    }

    /// The array type of this index type, whose components are so.
    fn array_over(
        &mut self,
        alloc: Global,
        index: IndexType,
        below: NamedType,
    ) -> Result<Written, Refusal>
        ensures { AnswersForm (written_in (block_of self.new)) result
            (Accepts (array_over (type_denoter index.name) index.nodes index.values (named_in (block_of self.old) below))) }
    {
        let number = number(self.types.items().len())?;
        let TagValues { host, low, high } = index.values;
        let composition = Composition::Array(ArrayType {
            index: host,
            low,
            high,
            component: below.of,
            kind: below.kind,
        });
        self.scopes.add_structure(StructuredType {
            number,
            composition,
        })?;
        let of = Boxed::new(alloc, type_denoter(alloc, index.name))?;
        let component = Boxed::new(alloc, type_denoter(alloc, below.name))?;
        Ok(Written {
            denoter: Denoter::Array(of, component),
            of: TypeName::Entry(number),
            kind: Kind::Structured(number),
            nodes: counted(counted(1, index.nodes), below.nodes),
        })
    }

    /// Arrays of these index types over a type, the innermost first, by their names.
    fn arrays_below(
        &mut self,
        alloc: Global,
        line: Line,
        indexes: &[IndexType],
        of: NamedType,
    ) -> Result<NamedType, Refusal>
        ensures { AnswersForm (named_in (block_of self.new)) result
            (Accepts (arrays_below line (map index_of indexes.now) (named_in (block_of self.old) of))) }
    {
        let mut below = of;
        for place in (0..indexes.len()).rev() {
            let written = self.array_over(alloc, indexes[place], below)?;
            below = self.settle(alloc, line, written)?;
        }
        Ok(below)
    }
}
