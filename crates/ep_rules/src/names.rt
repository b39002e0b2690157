//! Names as values.

ghost use Rattle.std.specs.Prelude.{◌≡◌, [], IsTrue};
ghost use Rattle.ep_scope.specs.Meanings.{field_meant, meant_by};
ghost use Rattle.ep_scope.specs.Scopes.{depth_in, meant};
ghost use Rattle.ep_rules.specs.Answers.{AnswersTyped};
ghost use Rattle.ep_rules.specs.Arguments.{callee_at, function_called};
ghost use Rattle.ep_rules.specs.Names as spec;
ghost use Rattle.ep_rules.specs.Names.{field_read, value_declared, value_required, constant_required, value_named, qualified_value, is_nothing, undeclared, is_one_of};

use crate::access::Access;
use crate::arguments::Taken;
use crate::fields::{designated, steps, variable_access};
use crate::forms::{Refusal, Typed};
use crate::levels::{field_place, own_place};
use ep_base::{Boxed, Name};
use ep_scope::{
    Declaration, Declared, FormalParameter, Host, Kind, Meaning, OpenField, Required,
    RequiredConstant, View, depth_in, meaning_in, meaning_of, rule,
};
use ep_typed::{TypedExpr, TypedPlace};
use std::alloc::{AllocError, Global};

/// Whether a name is that of a standard file.
fn is_standard(name: &Name) -> bool
    ensures { result ≡ spec.is_standard name.now }
{
    name.bytes() == b"input".as_slice() || name.bytes() == b"output".as_slice()
}

/// A rule that fails where a name stands for nothing.
pub fn undeclared(name: &Name) -> u32
    ensures { IsTrue (is_one_of result (undeclared name.now)) }
{
    if is_standard(name) {
        rule::STANDARD_FILE
    } else {
        rule::UNDECLARED
    }
}

/// A function with these formal parameters, without arguments (ISO 10206, 6.8.5).
fn function_alone(
    alloc: Global,
    depth: u32,
    d: &Declared,
    parameters: &[FormalParameter],
    kind: Kind,
) -> Result<Typed, Refusal>
    ensures { AnswersTyped result (function_called (callee_at depth d.now) parameters.now kind []) }
{
    match parameters {
        [] => Typed::function(alloc, depth, d, kind, Taken::nothing(alloc)),
        _ => Err(Refusal::Rule(rule::ARGUMENTS)),
    }
}

/// A declared name as a value, in code of a depth.
fn declared_value(alloc: Global, depth: u32, d: &Declared) -> Result<Typed, Refusal>
    ensures { AnswersTyped result (value_declared depth d.now d.now.what) }
{
    match &d.what {
        Declaration::Constant(kind, value, deep) => Typed::value(alloc, value, *kind, *deep),
        Declaration::Type(_, _, _) => Err(Refusal::Rule(rule::OTHER_THING)),
        Declaration::Variable(of, kind, guarded) => {
            let unit = d.unit.copy(alloc)?;
            let access = Access::Variable(*of, *guarded);
            Typed::read(alloc, TypedPlace::Variable(unit, d.number), *kind, access)
        }
        Declaration::Own(of, kind, guarded) => {
            let access = Access::Variable(*of, *guarded);
            Typed::read(alloc, own_place(depth, d), *kind, access)
        }
        Declaration::Procedure(_) => Err(Refusal::Rule(rule::PROCEDURE)),
        Declaration::Function(parameters, _, kind) => {
            function_alone(alloc, depth, d, parameters.items(), *kind)
        }
    }
}

/// A required constant.
fn required_constant(alloc: Global, constant: RequiredConstant) -> Result<Typed, Refusal>
    ensures { AnswersTyped result (constant_required constant) }
{
    let (value, host) = match constant {
        RequiredConstant::MaxInt => (i64::MAX, Host::Integer),
        RequiredConstant::MaxChar => (u8::MAX as i64, Host::Char),
        RequiredConstant::True => (1, Host::Boolean),
        RequiredConstant::False => (0, Host::Boolean),
    };
    Typed::constant(alloc, value, Kind::Ordinal(host), Access::Constant)
}

/// A required name as a value.
fn required_value(alloc: Global, required: Required) -> Result<Typed, Refusal>
    ensures { AnswersTyped result (value_required required) }
{
    match required {
        Required::Constant(constant) => required_constant(alloc, constant),
        Required::Type(_) => Err(Refusal::Rule(rule::OTHER_THING)),
        Required::Function(_) => Err(Refusal::Rule(rule::ARGUMENTS)),
        Required::Procedure(_) => Err(Refusal::Rule(rule::PROCEDURE)),
    }
}

/// A field of an open record as a value.
fn field_value(alloc: Global, field: OpenField<'_>) -> Result<Typed, Refusal>
    ensures { AnswersTyped result (field_read (field_meant field.entry)) }
{
    // the value and the variable, besides the places of the field
    let depth = steps(field.field).and_then(|steps| steps.checked_add(2));
    let Some(depth) = depth else {
        return Err(AllocError)?;
    };
    let access = variable_access(field.field.of, field.protection, &field.field.tag)?;
    let place = field_place(alloc, field)?;
    let form = Some(Boxed::new(alloc, TypedExpr::Read(place))?);
    Ok(Typed {
        form,
        kind: field.field.kind,
        depth,
        access,
    })
}

/// A name of this meaning as a value, in code of a depth.
fn value_of(alloc: Global, depth: u32, name: &Name, meaning: Meaning<'_>) -> Result<Typed, Refusal>
    ensures { AnswersTyped result (value_named depth name.now (meant_by meaning.entry)) }
{
    match meaning {
        Meaning::Declared(d) => declared_value(alloc, depth, d),
        Meaning::Standard(file) => {
            let place = TypedPlace::Standard(file);
            Typed::read(alloc, place, Kind::File, Access::File)
        }
        Meaning::Required(required) => required_value(alloc, required),
        Meaning::Field(field) => field_value(alloc, field),
        Meaning::Nothing => Err(Refusal::Rule(undeclared(name))),
    }
}

/// A name as a value.
#[inline(never)]
pub fn named(alloc: Global, name: &Name, scopes: &View<'_>) -> Result<Typed, Refusal>
    ensures { AnswersTyped result (value_named (depth_in scopes.now) name.now (meant scopes.now name.now)) }
{
    value_of(alloc, depth_in(scopes)?, name, meaning_of(scopes, name))
}

/// `i.a` as a value: a name that an interface has, or else a field.
#[inline(never)]
pub fn qualified(
    alloc: Global,
    first: &Name,
    second: &Name,
    scopes: &View<'_>,
) -> Result<Typed, Refusal>
    ensures { AnswersTyped result (qualified_value scopes.now first.now second.now) }
{
    let within = meaning_in(scopes, first, second);
    if is_nothing(within) {
        let variable = named(alloc, first, scopes)?;
        designated(alloc, second, variable, scopes)
    } else {
        value_of(alloc, depth_in(scopes)?, second, within)
    }
}

/// Whether a name stands for nothing.
fn is_nothing(meaning: Meaning<'_>) -> bool
    ensures { result ≡ is_nothing (meant_by meaning.entry) }
{
    match meaning {
        Meaning::Nothing => true,
        _ => false,
    }
}
