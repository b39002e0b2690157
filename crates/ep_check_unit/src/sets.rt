//! Set types as an item writes them.

ghost use Rattle.ep_rules.specs.Answers.{AnswersForm};
ghost use Rattle.ep_check_unit.specs.Answers.{named_in, written_in};
ghost use Rattle.ep_check_unit.specs.Blocks.{block_of};
ghost use Rattle.ep_check_unit.specs.Declarations.{set_on};

use crate::block::Block;
use ep_base::Boxed;
use ep_rules::Refusal;
use ep_scope::{Kind, rule};
use ep_typed::Denoter;
use ep_unit_rules::{NamedType, Written, are_members, counted, index_host, type_denoter};
use std::alloc::Global;

impl Block {
    /// The set type of this base type.
    pub(crate) fn set_on(&self, alloc: Global, base: NamedType) -> Result<Written, Refusal>
        ensures { AnswersForm (written_in (block_of self.now)) result
            (set_on (named_in (block_of self.now) base)) }
    {
        let host = index_host(base.kind)?;
        if !are_members(self.types.items(), base.of) {
            return Err(Refusal::Rule(rule::SET_BASE));
        }
        let of = self.next_type()?;
        let denoter = Boxed::new(alloc, type_denoter(alloc, base.name))?;
        Ok(Written {
            denoter: Denoter::Set(denoter),
            of,
            kind: Kind::Set(host),
            nodes: counted(1, base.nodes),
        })
    }
}
