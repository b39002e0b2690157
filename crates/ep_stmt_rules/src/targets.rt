//! What is assigned to: variables and their components, tags among them, and the names of functions for their results (ISO
//! 10206, 6.9.2.2).

ghost use Rattle.std.specs.Prelude.{◌≡◌, IsTrue, None, Some, map};
ghost use Rattle.std.specs.Option.{option_map};
ghost use Rattle.ep_built.specs.Built.{access_unbuilt};
ghost use Rattle.ep_scope.specs.Meanings.{field_meant};
ghost use Rattle.ep_scope.specs.Scopes.{depth_in, meant};
ghost use Rattle.ep_typed.specs.Viewed.{expr_of, place_of};
ghost use Rattle.ep_rules.specs.Arguments.{IsReading};
ghost use Rattle.ep_check_expr.specs.Expressions.{name_judged};
ghost use Rattle.ep_rules.specs.Judgements.{when_accepted};
ghost use Rattle.ep_stmt_rules.specs.Answers.{AnswersForm, fails_among, result_of, target_of};
ghost use Rattle.ep_stmt_rules.specs.Statements as spec;
ghost use Rattle.ep_stmt_rules.specs.Statements.{declared_target, field_target, function_target, has_result, place_named, tag_target, target_rules, variable_target};

use crate::statements::FunctionResult;
use ep_base::Name;
use ep_check_expr::typed_access;
use ep_rules::{
    Access, Refusal, Typed, field_place, own_place, tagged_place, undeclared, unless_protected,
};
use ep_scope::{
    Declaration, Declared, Kind, Meaning, OpenField, Required, TagType, View, depth_in, meaning_of,
    rule,
};
use ep_typed::TypedPlace;
use std::alloc::Global;

/// Where a value is assigned.
#[derive(Drop)]
pub enum Receiver {
    /// To the variable at this place.
    At(TypedPlace),
    /// To the tag of the record at this place (ISO 10206, 6.5.3.3).
    TagOf(TypedPlace, TagType),
}

/// What is assigned to, and its kind.
pub struct Target {
    /// Where, where it is built.
    pub receiver: Option<Receiver>,
    /// The kind.
    pub kind: Kind,
}

impl Drop for Target {
    fn drop(self) {
        let Target {
            receiver: _,
            kind: _,
        } = self;
    }
}

impl Target {
    /// The variable at a place.
    fn at(place: TypedPlace, kind: Kind) -> Target
        ensures { target_of result ≡ record { receiver = Some (spec.At (place_of place)); kind = kind } }
    {
        let receiver = Some(Receiver::At(place));
        Target { receiver, kind }
    }

    /// The tag of a record that is at a place, where it is built.
    fn tag(tag: TagType, whole: Option<TypedPlace>) -> Target
        ensures { target_of result ≡ tag_target tag (option_map place_of whole) }
    {
        let kind = Kind::Ordinal(tag.host);
        let receiver = match whole {
            None => None,
            Some(whole) => Some(Receiver::TagOf(whole, tag)),
        };
        Target { receiver, kind }
    }

    /// Where it is assigned alone.
    pub fn into_receiver(self) -> Option<Receiver>
        ensures { result ≡ self.receiver }
    {
        let Target { receiver, kind: _ } = self;
        receiver
    }
}

/// Whether what is declared is this function of a unit.
fn has_result(unit: &Name, declared: &Declared, function: FunctionResult) -> bool
    ensures { result ≡ has_result unit.now declared.now (result_of function) }
{
    declared.number == function.function && declared.unit.bytes() == unit.bytes()
}

/// The name of a function as what is assigned to, in code of a depth, in the blocks of these functions of a unit.
fn function_target(
    depth: u32,
    unit: &Name,
    declared: &Declared,
    results: &[FunctionResult],
) -> Result<Target, Refusal>
    ensures { AnswersForm target_of result
        (function_target depth unit.now declared.now (map result_of results.now)) }
{
    for function in results {
        if has_result(unit, declared, *function) {
            let up = depth.saturating_sub(function.level);
            return Ok(Target::at(TypedPlace::Own(up, function.variable), function.kind));
        }
    }
    Err(Refusal::Rule(rule::FUNCTION_ASSIGNED))
}

/// A rule that fails where a required identifier is assigned to.
fn required_target(required: Required) -> u32
    ensures { IsTrue (fails_among result (target_rules required)) }
{
    match required {
        Required::Constant(_) => rule::CONSTANT_THREATENED,
        Required::Type(_) => rule::OTHER_THING,
        Required::Function(_) => rule::FUNCTION_ASSIGNED,
        Required::Procedure(_) => rule::OTHER_THING,
    }
}

/// What an access with selectors denotes, as what is assigned to.
fn variable_target(variable: Typed) -> Result<Target, Refusal>
    requires { IsReading variable.access (option_map expr_of variable.form) }
    ensures { AnswersForm target_of result
        (variable_target variable.access (option_map expr_of variable.form) variable.kind) }
{
    let kind = variable.kind;
    match &variable.access {
        Access::Variable(_, protected) => {
            unless_protected(*protected)?;
            let receiver = variable.into_place().map(Receiver::At);
            Ok(Target { receiver, kind })
        }
        Access::Tag(_, protected, tag) => {
            unless_protected(*protected)?;
            let tag = tag.share()?;
            Ok(Target::tag(tag, variable.into_tagged()))
        }
        Access::File => Ok(Target {
            receiver: None,
            kind: Kind::File,
        }),
        Access::Constant => Err(Refusal::Rule(rule::CONSTANT_THREATENED)),
        Access::Value => Err(Refusal::Rule(rule::VARIABLE_NEEDED)),
    }
}

/// A field of an open record as what is assigned to.
fn field_target(alloc: Global, field: OpenField<'_>) -> Result<Target, Refusal>
    ensures { AnswersForm target_of result (field_target (field_meant field.entry)) }
{
    unless_protected(field.protection)?;
    match &field.field.tag {
        None => Ok(Target::at(field_place(alloc, field)?, field.field.kind)),
        Some(tag) => {
            let tag = tag.share()?;
            Ok(Target::tag(tag, Some(tagged_place(alloc, field)?)))
        }
    }
}

/// The variable that an access denotes.
pub fn denoted(
    alloc: Global,
    scopes: &View<'_>,
    access: &ep_tree::Access,
) -> Result<Target, Refusal>
    requires { access_unbuilt access.now ≡ None }
    ensures { AnswersForm target_of result (when_accepted (λ t. variable_target t.access t.form t.kind)
        (name_judged scopes.now access.now)) }
{
    let variable = typed_access(alloc, access, scopes)?;
    variable_target(variable)
}

/// A name that is assigned to.
pub fn named_target(
    alloc: Global,
    unit: &Name,
    scopes: &View<'_>,
    results: &[FunctionResult],
    name: &Name,
) -> Result<Target, Refusal>
    ensures { AnswersForm target_of result
        (place_named (depth_in scopes.now) unit.now (map result_of results.now)
        name.now (meant scopes.now name.now)) }
{
    match &meaning_of(scopes, name) {
        Meaning::Declared(declared) => declared_target(alloc, unit, scopes, results, declared),
        Meaning::Standard(file) => { Ok(Target::at(TypedPlace::Standard(*file), Kind::File)) }
        Meaning::Required(required) => Err(Refusal::Rule(required_target(*required))),
        Meaning::Field(field) => field_target(alloc, *field),
        Meaning::Nothing => Err(Refusal::Rule(undeclared(name))),
    }
}

/// A declared name as what is assigned to.
fn declared_target(
    alloc: Global,
    unit: &Name,
    scopes: &View<'_>,
    results: &[FunctionResult],
    declared: &Declared,
) -> Result<Target, Refusal>
    ensures { AnswersForm target_of result
        (declared_target (depth_in scopes.now) unit.now (map result_of results.now)
        declared.now declared.now.what) }
{
    match &declared.what {
        Declaration::Variable(_, kind, protection) => {
            unless_protected(*protection)?;
            let unit = declared.unit.copy(alloc)?;
            let place = TypedPlace::Variable(unit, declared.number);
            Ok(Target::at(place, *kind))
        }
        Declaration::Own(_, kind, protection) => {
            unless_protected(*protection)?;
            let place = own_place(depth_in(scopes)?, declared);
            Ok(Target::at(place, *kind))
        }
        Declaration::Constant(_, _, _) => Err(Refusal::Rule(rule::CONSTANT_THREATENED)),
        Declaration::Type(_, _, _) => Err(Refusal::Rule(rule::OTHER_THING)),
        Declaration::Procedure(_) => Err(Refusal::Rule(rule::OTHER_THING)),
        Declaration::Function(_, _, _) => {
            function_target(depth_in(scopes)?, unit, declared, results)
        }
    }
}
