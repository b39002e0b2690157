//! Initial states as an item writes them (ISO 10206, 6.6).

ghost use Rattle.std.specs.Prelude.{◌≡◌, None};
ghost use Rattle.ep_built.specs.Built.{component_value_unbuilt};
ghost use Rattle.ep_rules.specs.Answers.{AnswersForm};
ghost use Rattle.ep_check_unit.specs.Answers.{named_in, written_in};
ghost use Rattle.ep_check_unit.specs.Blocks.{block_of};
ghost use Rattle.ep_check_unit.specs.Declarations.{begun_with};

use crate::block::Block;
use ep_base::{Boxed, Line};
use ep_check_expr::{asked_by, initial_state_value};
use ep_rules::Refusal;
use ep_scope::rule;
use ep_tree::ComponentValue;
use ep_typed::Denoter;
use ep_unit_rules::{NamedType, Written, counted, may_begin, type_denoter};
use std::alloc::Global;

impl Block {
    /// A type, by its name, with an initial state, in an item on this line.
    pub(crate) fn begun_with(
        &mut self,
        alloc: Global,
        line: Line,
        of: NamedType,
        value: &ComponentValue,
    ) -> Result<Written, Refusal>
        requires { component_value_unbuilt value.now ≡ None }
        ensures { AnswersForm (written_in (block_of self.new)) result
            (begun_with line value.now (named_in (block_of self.old) of)) }
    {
        let asked = asked_by(of.kind);
        let constant = initial_state_value(alloc, value, asked, &self.scopes.in_view())?;
        if !may_begin(constant.kind, of.kind) {
            return Err(Refusal::Rule(rule::INITIAL_STATE));
        }
        self.note(constant.built, line);
        let bare = Boxed::new(alloc, type_denoter(alloc, of.name))?;
        Ok(Written {
            denoter: Denoter::Initial(bare, constant.into_value()),
            of: of.of,
            kind: of.kind,
            nodes: counted(1, of.nodes),
        })
    }
}
