//! Declarations, item by item.

ghost use Rattle.std.specs.Prelude.{◌≡◌, None, IfOk, map};
ghost use Rattle.ep_built.specs.Built.{component_value_unbuilt, constant_unbuilt, first_in, type_denoter_unbuilt, type_unbuilt, variable_unbuilt};
ghost use Rattle.ep_rules.specs.Answers.{AnswersJudged};
ghost use Rattle.ep_rules.specs.Judgements.{when_accepted};
ghost use Rattle.ep_check_unit.specs.Answers.{AnswersBlock, AnswersStanding};
ghost use Rattle.ep_check_unit.specs.Blocks.{block_of};
ghost use Rattle.ep_unit_rules.specs.Types.{type_denoter};
ghost use Rattle.ep_check_unit.specs.Declarations.{all_variables_declared, at_line, constant_definition, constant_fitting, constants_declared, new_variable, type_definition, type_definitions, variable_declaration, variable_entered, variable_placed, variables_entered, with_own_variable, with_unit_variable};

use crate::block::Block;
use ep_base::{Line, List, Name, NoMemory};
use ep_check_expr::{ConstantForm, constant_value};
use ep_rules::Refusal;
use ep_scope::{Declaration, Protection, rule};
use ep_stmt_rules::{CheckRefusal, refused_at};
use ep_tree::{ComponentValue, ConstantDefinition, TypeDefinition, Types, VariableDeclaration};
use ep_typed::UnitVariable;
use ep_unit_rules::{NamedType, fits, number, type_denoter};
use std::alloc::Global;

impl Block {
    /// `types`, which is one item.
    pub(crate) fn define_type_part(&mut self, alloc: Global, t: &Types) -> Result<(), CheckRefusal>
        requires { first_in (map type_unbuilt t.now.definitions) ≡ None }
        ensures { AnswersStanding result (block_of self.new)
            (at_line t.now.line (type_definitions t.now.line t.now.definitions (block_of self.old))) }
    {
        match self.define_types(alloc, t.line, t.definitions.items()) {
            Ok(()) => Ok(()),
            Err(refusal) => Err(refused_at(t.line, refusal)),
        }
    }

    /// Constant definitions, each an item.
    pub(crate) fn define_constants(
        &mut self,
        alloc: Global,
        definitions: &[ConstantDefinition],
    ) -> Result<(), CheckRefusal>
        requires { first_in (map constant_unbuilt definitions.now) ≡ None }
        ensures { AnswersStanding result (block_of self.new)
            (constants_declared definitions.now (block_of self.old)) }
    {
        for definition in definitions {
            if let Err(refusal) = self.define_constant(alloc, definition) {
                return Err(refused_at(definition.line, refusal));
            }
        }
        Ok(())
    }

    /// The value of a constant definition, which lies in its type.
    fn constant_fitting(
        &self,
        alloc: Global,
        value: &ComponentValue,
    ) -> Result<ConstantForm, Refusal>
        requires { component_value_unbuilt value.now ≡ None }
        ensures { AnswersJudged (λ c. c) result (constant_fitting value.now (block_of self.now)) }
    {
        let scopes = self.scopes.in_view();
        let form = constant_value(alloc, value, &scopes)?;
        if fits(alloc, self.types.items(), &scopes, &form.value)? {
            Ok(form)
        } else {
            Err(Refusal::Rule(rule::CONSTANT))
        }
    }

    /// `id "=" cvalue`
    fn define_constant(
        &mut self,
        alloc: Global,
        definition: &ConstantDefinition,
    ) -> Result<(), Refusal>
        requires { component_value_unbuilt definition.now.value ≡ None }
        ensures { AnswersBlock result (block_of self.new)
            (constant_definition definition.now (block_of self.old)) }
    {
        let form = self.constant_fitting(alloc, &definition.value)?;
        self.add_constant(alloc, &definition.name, form.kind, &form.value, form.depth)?;
        self.note(form.built, definition.line);
        Ok(())
    }

    /// The definitions of a type part on this line, which is one item.
    fn define_types(
        &mut self,
        alloc: Global,
        line: Line,
        definitions: &[TypeDefinition],
    ) -> Result<(), Refusal>
        requires { first_in (map type_unbuilt definitions.now) ≡ None }
        ensures { AnswersBlock result (block_of self.new)
            (type_definitions line definitions.now (block_of self.old)) }
    {
        for definition in definitions {
            self.define_type(alloc, line, definition)?;
        }
        Ok(())
    }

    /// `id "=" type`
    fn define_type(
        &mut self,
        alloc: Global,
        line: Line,
        definition: &TypeDefinition,
    ) -> Result<(), Refusal>
        requires { type_unbuilt definition.now ≡ None }
        ensures { AnswersBlock result (block_of self.new)
            (type_definition line definition.now (block_of self.old)) }
    {
        let written = self.defined_type(alloc, line, &definition.of)?;
        let what = Declaration::Type(written.of, written.kind, written.nodes);
        let number = self.add_type(alloc, Some(&definition.name), definition.line, written)?;
        let thing = self.own_thing(alloc, number, what)?;
        self.enter(alloc, &definition.name, thing)
    }

    /// Variable declarations, each an item.
    pub(crate) fn declare_all(
        &mut self,
        alloc: Global,
        declarations: &[VariableDeclaration],
    ) -> Result<(), CheckRefusal>
        requires { first_in (map variable_unbuilt declarations.now) ≡ None }
        ensures { AnswersStanding result (block_of self.new)
            (all_variables_declared declarations.now (block_of self.old)) }
    {
        for declaration in declarations {
            if let Err(refusal) = self.declare_variables(alloc, declaration) {
                return Err(refused_at(declaration.line, refusal));
            }
        }
        Ok(())
    }

    /// `ids ":" type`
    fn declare_variables(
        &mut self,
        alloc: Global,
        declaration: &VariableDeclaration,
    ) -> Result<(), Refusal>
        requires { variable_unbuilt declaration.now ≡ None }
        ensures { AnswersBlock result (block_of self.new)
            (variable_declaration declaration.now (block_of self.old)) }
    {
        let named = self.declared_type(alloc, declaration.line, &declaration.of)?;
        for name in declaration.names.items() {
            self.declare_variable(alloc, declaration.line, named, name)?;
        }
        match self.declarations.checked_add(1) {
            None => Err(Refusal::NoMemory),
            Some(declarations) => {
                self.declarations = declarations;
                Ok(())
            }
        }
    }

    /// A variable of a declaration on this line.
    fn declare_variable(
        &mut self,
        alloc: Global,
        line: Line,
        named: NamedType,
        name: &Name,
    ) -> Result<(), Refusal>
        ensures { AnswersBlock result (block_of self.new)
            (variable_entered line (type_denoter named.name) named.of named.kind name.now (block_of self.old)) }
    {
        if self.own.enclosing.items().is_empty() {
            self.declare_unit_variable(alloc, line, named, name)
        } else {
            self.declare_own_variable(alloc, line, named, name)
        }
    }

    /// A variable of the unit.
    fn declare_unit_variable(
        &mut self,
        alloc: Global,
        line: Line,
        named: NamedType,
        name: &Name,
    ) -> Result<(), Refusal>
        ensures { AnswersBlock result (block_of self.new) (variable_placed
            (with_unit_variable line (type_denoter named.name) named.of named.kind name.now (block_of self.old))
            name.now (block_of self.old)) }
    {
        let number = number(self.variables.items().len())?;
        let what = Declaration::Variable(named.of, named.kind, Protection::Unprotected);
        let thing = self.own_thing(alloc, number, what)?;
        self.enter(alloc, name, thing)?;
        let variable = self.new_variable(alloc, line, named, name)?;
        self.variables.push(variable)?;
        Ok(())
    }

    /// A variable of the routine whose block is under way.
    fn declare_own_variable(
        &mut self,
        alloc: Global,
        line: Line,
        named: NamedType,
        name: &Name,
    ) -> Result<(), Refusal>
        ensures { AnswersBlock result (block_of self.new) (variable_placed
            (with_own_variable line (type_denoter named.name) named.of named.kind name.now (block_of self.old))
            name.now (block_of self.old)) }
    {
        let number = self.own.count()?;
        let what = Declaration::Own(named.of, named.kind, Protection::Unprotected);
        let thing = self.own_thing(alloc, number, what)?;
        self.enter(alloc, name, thing)?;
        let variable = self.new_variable(alloc, line, named, name)?;
        self.own.variables.push(variable)?;
        Ok(())
    }

    /// A variable of the declaration that is under way.
    fn new_variable(
        &self,
        alloc: Global,
        line: Line,
        named: NamedType,
        name: &Name,
    ) -> Result<UnitVariable, NoMemory>
        ensures { IfOk result (λ v. v ≡ new_variable line (type_denoter named.name) name.now
            (block_of self.now)) }
    {
        Ok(UnitVariable {
            name: name.copy(alloc)?,
            line,
            declaration: self.declarations,
            denoter: type_denoter(alloc, named.name),
            tuple: List::new(alloc),
            parameter: false,
        })
    }
}
