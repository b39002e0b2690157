//! Lists of formal parameters.

ghost use Rattle.std.specs.Prelude.{◌≡◌, [], None, map};
ghost use Rattle.ep_built.specs.Built.{first_in, section_unbuilt};
ghost use Rattle.ep_rules.specs.Answers.{AnswersForm};
ghost use Rattle.ep_check_unit.specs.Answers.{AnswersBlock, named_in};
ghost use Rattle.ep_check_unit.specs.Blocks.{block_of};
ghost use Rattle.ep_check_unit.specs.Routines as spec;
ghost use Rattle.ep_check_unit.specs.Routines.{formals_entered, section_judged, sections_judged};

use crate::block::Block;
use ep_base::Name;
use ep_rules::Refusal;
use ep_scope::{Declaration, FormalParameter, FormalParameters, protection_of, rule};
use ep_tree::{FormalSection, FormalType, QualifiedName};
use ep_unit_rules::{DistinctParameters, NamedType, number, section_mode, with_names};
use std::alloc::Global;

impl Block {
    /// The formal parameters of a routine of this name with these sections.
    pub(crate) fn parameters(
        &self,
        alloc: Global,
        routine: &Name,
        sections: &[FormalSection],
    ) -> Result<FormalParameters, Refusal>
        requires { first_in (map section_unbuilt sections.now) ≡ None }
        ensures { AnswersForm (λ ps. ps) result
            (sections_judged routine.now 0 sections.now (block_of self.now) []) }
    {
        let mut all = DistinctParameters::new(alloc);
        for (place, section) in sections.iter().enumerate() {
            all = self.add_section(alloc, routine, number(place)?, section, all)?;
        }
        Ok(all.into_parameters())
    }

    /// The parameters with those of a section of this number more.
    fn add_section(
        &self,
        alloc: Global,
        routine: &Name,
        number: u32,
        section: &FormalSection,
        before: DistinctParameters,
    ) -> Result<DistinctParameters, Refusal>
        requires { section_unbuilt section.now ≡ None }
        ensures { AnswersForm (λ ps. ps) result
            (section_judged routine.now number section.now (block_of self.now) before) }
    {
        let FormalType::Named(name) = &section.of else {
            unreachable!()
        };
        let named = self.parameter_type(routine, &before, name)?;
        let mode = section_mode(section.protected, section.variable);
        let names = section.names.items();
        with_names(
            alloc,
            mode,
            number,
            named.written(),
            named.kind,
            names,
            before,
        )
    }

    /// A type by its name, behind the name of the routine and these parameters.
    pub(crate) fn parameter_type(
        &self,
        routine: &Name,
        before: &DistinctParameters,
        name: &QualifiedName,
    ) -> Result<NamedType, Refusal>
        ensures { AnswersForm (named_in (block_of self.now)) result (spec.parameter_type routine.now
            before.now name.now.first name.now.second (block_of self.now)) }
    {
        if routine.bytes() == name.first.bytes() || before.has(&name.first) {
            match &name.second {
                None => Err(Refusal::Rule(rule::OTHER_THING)),
                Some(_) => Err(Refusal::Rule(rule::UNDECLARED)),
            }
        } else {
            self.named_type(name)
        }
    }

    /// The formal parameters of the routine under way are entered, as its first variables.
    pub(crate) fn enter_formals(
        &mut self,
        alloc: Global,
        parameters: &[FormalParameter],
    ) -> Result<(), Refusal>
        ensures { AnswersBlock result (block_of self.new)
            (formals_entered 0 parameters.now (block_of self.old)) }
    {
        for (place, parameter) in parameters.iter().enumerate() {
            let what = Declaration::Own(
                parameter.of.is,
                parameter.kind,
                protection_of(parameter.mode),
            );
            let thing = self.own_thing(alloc, number(place)?, what)?;
            self.enter(alloc, &parameter.name, thing)?;
        }
        Ok(())
    }
}
