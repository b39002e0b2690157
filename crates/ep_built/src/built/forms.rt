//! The table of the built forms, in the order of the table of specs/Forms.antt. A form that is to be built is a row
//! of both.

ghost use Rattle.std.specs.Prelude.{◌≡◌, map};
ghost use Rattle.std.specs.List.{list_all};
ghost use Rattle.std.specs.Option.{option_copied};
ghost use Rattle.ep_tree.specs.Shapes.{bare};
ghost use Rattle.ep_built.specs.Built.{built_component, built_program, built_import, built_type_name, built_heading};
ghost use Rattle.ep_built.specs.Built.{built_start, built_routine, built_type_definition, built_plain};
ghost use Rattle.ep_built.specs.Built.{built_formal_type, built_section, built_core, built_selector};
ghost use Rattle.ep_built.specs.Built.{built_variant_part, selector_form, is_component, behind_call, is_call};
ghost use Rattle.ep_built.specs.Built.{built_target, built_control, built_call, behind_arguments, built_statement};
ghost use Rattle.ep_built.specs.Built.{built_relation, built_adding, built_multiplying, is_character, built_factor};
ghost use Rattle.ep_built.specs.Built.{built_access, form_told, selector_belonging, is_bare_text};
ghost use Rattle.ep_tree.specs.declared.expression.ComponentValue.{out-ComponentValue};
ghost use Rattle.ep_tree.specs.declared.expression.Factor.{out-Factor};
ghost use Rattle.ep_tree.specs.declared.types.Core.{out-Core};
ghost use Rattle.ep_tree.specs.declared.types.Plain.{out-Plain};
ghost use Rattle.ep_tree.specs.declared.types.VariantPart.{out-VariantPart};
ghost use Rattle.ep_tree.specs.declared.statement.Statement.{out-Statement};
ghost use Rattle.ep_tree.specs.declared.routine.Routine.{out-Routine};

use crate::built::names;
use ep_base::{Line, Name};
use ep_tree::{
    Access, AddingOperator, Component, ComponentValue, Core, Expression, Factor, FormalSection,
    FormalType, Import, MultiplyingOperator, Plain, Program, QualifiedName, RelationalOperator,
    Routine, RoutineHeading, RoutineStart, Selector, Statement, TypeDefinition, VariantPart,
    VariantSelector,
};

/// A component is a program.
pub(super) fn component_is_built(c: &Component) -> bool
    ensures { result ≡ built_component c.now }
{
    match c {
        Component::Program(_) => true,
        _ => false,
    }
}

/// A program has the parameters `input` and `output` alone.
pub(super) fn program_is_built(p: &Program) -> bool
    ensures { result ≡ built_program p.now }
{
    for name in p.parameters.items() {
        if !names::is_program_parameter(name) {
            return false;
        }
    }
    true
}

pub(super) fn import_is_built(_import: &Import) -> bool
    ensures { result ≡ built_import _import.now }
{
    false
}

/// A name of a type is that of an interface, or one that is built.
fn type_name_is_built(name: &QualifiedName) -> bool
    ensures { result ≡ built_type_name name.now }
{
    name.second.is_some() || !names::is_later(&name.first)
}

/// The heading of a function names the type of its result, with or without a name of the result.
fn heading_is_built(h: &RoutineHeading) -> bool
    ensures { result ≡ built_heading h.now }
{
    match h {
        RoutineHeading::Procedure(_, _, _) => true,
        RoutineHeading::Function(_, _, _, _, of) => type_name_is_built(of),
    }
}

/// A routine starts with such a heading, or with the name alone of a function that is declared `forward`.
fn start_is_built(s: &RoutineStart) -> bool
    ensures { result ≡ built_start s.now }
{
    match s {
        RoutineStart::Heading(heading) => heading_is_built(heading),
        RoutineStart::Function(_, _) => true,
    }
}

/// A routine is a procedure or a function that starts so, in whatever block it stands.
pub(super) fn routine_is_built(r: &Routine) -> bool
    ensures { result ≡ built_routine (out-Routine r.now) }
{
    start_is_built(&r.start)
}

/// A type definition has no discriminants.
pub(super) fn type_definition_is_built(d: &TypeDefinition) -> bool
    ensures { result ≡ built_type_definition d.now }
{
    d.discriminants.items().is_empty()
}

/// A type denoter without its initial state is not `bindable`.
pub(super) fn plain_is_built(p: &Plain) -> bool
    ensures { result ≡ built_plain (out-Plain p.now) }
{
    !p.bindable
}

/// The type of a formal section is a name, and not that of a variable.
fn formal_type_is_built(of: &FormalType) -> bool
    ensures { result ≡ built_formal_type of.now }
{
    match of {
        FormalType::Named(name) => type_name_is_built(name),
        _ => false,
    }
}

/// A formal section has such a type, with or without `protected` and `var`.
pub(super) fn section_is_built(s: &FormalSection) -> bool
    ensures { result ≡ built_section s.now }
{
    formal_type_is_built(&s.of)
}

/// A type is a name without a tuple, a subrange, an enumeration or a structure that is not `packed`.
pub(super) fn core_is_built(c: &Core) -> bool
    ensures { result ≡ built_core (out-Core c.now) }
{
    match c {
        Core::Named(_, name, tuple) => tuple.items().is_empty() && type_name_is_built(name),
        Core::Range(_, _, _) => true,
        Core::Enumeration(_, _) => true,
        Core::Structured(_, packed, _) => !*packed,
        _ => false,
    }
}

/// Variants are selected by a tag of a type whose name is built.
fn selector_is_built(selector: &VariantSelector) -> bool
    ensures { result ≡ built_selector selector.now }
{
    match selector {
        VariantSelector::Tag(_, _, of) => type_name_is_built(of),
        VariantSelector::Discriminant(_, _) => false,
    }
}

/// A variant part has such a selector.
pub(super) fn variant_part_is_built(part: &VariantPart) -> bool
    ensures { result ≡ built_variant_part (out-VariantPart part.now) }
{
    selector_is_built(&part.selector)
}

/// Whether a selector is one of components: indexes, or a field.
fn is_component(s: &Selector) -> bool
    ensures { result ≡ is_component (selector_form s.now) }
{
    matches!(s, Selector::Index(_, _) | Selector::Field(_, _))
}

/// Whether a selector is a pair of parentheses.
fn is_call(s: &Selector) -> bool
    ensures { result ≡ is_call (selector_form s.now) }
{
    matches!(s, Selector::Arguments(_, _))
}

/// Whether selectors are indexes and fields alone.
fn are_components(selectors: &[Selector]) -> bool
    ensures { result ≡ list_all is_component (map selector_form selectors.now) }
{
    for s in selectors {
        if !is_component(s) {
            return false;
        }
    }
    true
}

/// The selectors behind a pair of parentheses that comes first, or all where none does.
pub(super) fn behind_call(selectors: &[Selector]) -> &[Selector]
    ensures forms { map selector_form result.now ≡ behind_call (map selector_form selectors.now) }
    ensures selectors { result.now ≡ behind_arguments selectors.now }
{
    match selectors.split_first() {
        Some((first, more)) if is_call(first) => more,
        _ => selectors,
    }
}

/// What is assigned to is a name that is built, alone or with selectors that are.
fn target_is_built(a: &Access) -> bool
    ensures { result ≡ built_target a.now }
{
    are_components(behind_call(a.selectors.items())) && !names::is_later(&a.name)
}

/// The control variable of a `for` has a name that is built.
fn control_is_built(name: &Name) -> bool
    ensures { result ≡ built_control name.now }
{
    !names::is_later(name)
}

/// A call is one of a name that is built, alone or with selectors that are.
fn call_is_built(a: &Access) -> bool
    ensures { result ≡ built_call a.now }
{
    are_components(behind_call(a.selectors.items())) && !names::is_later(&a.name)
}

pub(super) fn statement_is_built(s: &Statement) -> bool
    ensures { result ≡ built_statement (out-Statement s.now) }
{
    match s {
        Statement::Empty(_) => true,
        Statement::Assignment(_, a, _) => target_is_built(a),
        Statement::Call(_, a) => call_is_built(a),
        Statement::Compound(_) => true,
        Statement::If(_, _, _, _) => true,
        Statement::Case(_, _, _, _) => true,
        Statement::While(_, _, _) => true,
        Statement::Repeat(_, _, _) => true,
        Statement::For(_, name, _, _, _, _) => control_is_built(name),
        Statement::ForIn(_, name, _, _) => control_is_built(name),
        Statement::With(_, _, _) => true,
    }
}

/// All relational operators.
pub(super) fn relation_is_built(_operator: RelationalOperator) -> bool
    ensures { result ≡ built_relation _operator }
{
    true
}

/// All adding operators.
pub(super) fn adding_is_built(_operator: AddingOperator) -> bool
    ensures { result ≡ built_adding _operator }
{
    true
}

/// All multiplying operators.
pub(super) fn multiplying_is_built(_operator: MultiplyingOperator) -> bool
    ensures { result ≡ built_multiplying _operator }
{
    true
}

/// A number of a text has no sign, and a character string is of length one.
pub(super) fn factor_is_built(f: &Factor) -> bool
    ensures { result ≡ built_factor (out-Factor f.now) }
{
    match f {
        Factor::Access(_) => true,
        Factor::Number(_, number) => *number >= 0,
        Factor::Text(_, text) => text.items().len() == 1,
        Factor::Parenthesized(_, _) => true,
        Factor::Not(_, _) => true,
        Factor::Set(_, _) => true,
        Factor::Structured(_, name, _) => type_name_is_built(name),
        _ => false,
    }
}

/// An access is a name that is built, alone or called, with indexes and fields or without.
#[tactic(auto, using(crate::proofs::Selectors::forms_told))]
pub(super) fn access_is_built(name: &Name, selectors: &[Selector]) -> bool
    ensures { result ≡ built_access name.now (map form_told (map selector_belonging selectors.now)) }
{
    are_components(behind_call(selectors)) && !names::is_later(name)
}

/// The factor of an expression that is nothing more.
fn bare(e: &Expression) -> Option<&Factor>
    ensures { option_copied result ≡ bare e.now }
{
    let simple = &e.left;
    let term = &simple.first;
    if e.right.is_some() || simple.sign.is_some() {
        return None;
    }
    if !simple.more.items().is_empty() || !term.more.items().is_empty() {
        return None;
    }
    Some(term.first.get())
}

/// Whether an expression is a character string and nothing more, which may be of any length where it is written.
pub(super) fn is_bare_text(e: &Expression) -> bool
    ensures { result ≡ is_bare_text (bare e.now) }
{
    match bare(e) {
        Some(Factor::Text(_, _)) => true,
        _ => false,
    }
}
