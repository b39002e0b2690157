//! Formal parameters, and the types that they have.

ghost use Rattle.std.specs.Prelude.{◌≡◌, IfOk};
ghost use Rattle.ep_scope.specs.Parameters.{protection_of, same_mode, same_parameter, same_parameters, same_required, same_type};

use crate::kind::Kind;
use ep_base::{List, Name, NoMemory};
use ep_typed::{FormalMode, RequiredType};
use std::alloc::Global;

/// A type, which a required name or a definition of the unit brings into being (ISO 10206, 6.4.1). A definition that only
/// gives a type another name does not.
#[derive(Clone, Copy, Drop)]
pub enum TypeName {
    /// A required type.
    Required(RequiredType),
    /// The type of this number of the unit.
    Entry(u32),
}

/// A type by the name that is written for it, which may have an initial state (ISO 10206, 6.6).
#[derive(Clone, Copy, Drop)]
pub struct WrittenType {
    /// The name.
    pub name: TypeName,
    /// Which type it is, whatever its name.
    pub is: TypeName,
}

/// Whether a variable is protected, so that nothing may threaten it (ISO 10206, 6.7.3.1 and 6.9.4).
#[derive(Clone, Copy, Drop)]
pub enum Protection {
    /// It may be assigned to, and given for a variable parameter.
    Unprotected,
    /// It is a protected parameter.
    Protected,
}

/// A formal parameter of a routine (ISO 10206, 6.7.3.1).
pub struct FormalParameter {
    /// Its name.
    pub name: Name,
    /// How it is given.
    pub mode: FormalMode,
    /// The number of its section, counted from 0.
    pub section: u32,
    /// Its type.
    pub of: WrittenType,
    /// The kind of its type.
    pub kind: Kind,
}

impl Drop for FormalParameter {
    fn drop(self) {
        let FormalParameter {
            name: _,
            mode: _,
            section: _,
            of: _,
            kind: _,
        } = self;
    }
}

/// The formal parameters of a routine, in order.
pub type FormalParameters = List<FormalParameter>;

/// Whether two required types are one.
fn same_required(left: RequiredType, right: RequiredType) -> bool
    ensures { result ≡ same_required left right }
{
    match (left, right) {
        (RequiredType::Integer, RequiredType::Integer) => true,
        (RequiredType::Char, RequiredType::Char) => true,
        (RequiredType::Boolean, RequiredType::Boolean) => true,
        _ => false,
    }
}

/// Whether two types are one.
pub fn same_type(left: TypeName, right: TypeName) -> bool
    ensures { result ≡ same_type left right }
{
    match (left, right) {
        (TypeName::Required(x), TypeName::Required(y)) => same_required(x, y),
        (TypeName::Entry(x), TypeName::Entry(y)) => x == y,
        _ => false,
    }
}

/// Whether two parameters are given alike.
fn same_mode(left: FormalMode, right: FormalMode) -> bool
    ensures { result ≡ same_mode left right }
{
    match (left, right) {
        (FormalMode::Value, FormalMode::Value) => true,
        (FormalMode::Variable, FormalMode::Variable) => true,
        (FormalMode::ProtectedValue, FormalMode::ProtectedValue) => true,
        (FormalMode::ProtectedVariable, FormalMode::ProtectedVariable) => true,
        _ => false,
    }
}

/// Whether two formal parameters have one name, section and type and are given alike.
fn same_parameter(left: &FormalParameter, right: &FormalParameter) -> bool
    ensures { result ≡ same_parameter left.now right.now }
{
    left.name.bytes() == right.name.bytes()
        && same_mode(left.mode, right.mode)
        && left.section == right.section
        && same_type(left.of.is, right.of.is)
}

/// Whether two lists of formal parameters are the same, one for one.
pub fn same_parameters(left: &[FormalParameter], right: &[FormalParameter]) -> bool
    ensures { result ≡ same_parameters left.now right.now }
{
    if left.len() != right.len() {
        return false;
    }
    for (place, parameter) in left.iter().enumerate() {
        if !same_parameter(parameter, &right[place]) {
            return false;
        }
    }
    true
}

/// The protection of a parameter that is given so.
pub fn protection_of(mode: FormalMode) -> Protection
    ensures { result ≡ protection_of mode }
{
    match mode {
        FormalMode::Value => Protection::Unprotected,
        FormalMode::Variable => Protection::Unprotected,
        FormalMode::ProtectedValue => Protection::Protected,
        FormalMode::ProtectedVariable => Protection::Protected,
    }
}

/// Equal parameters.
pub fn copied_parameters(
    alloc: Global,
    from: &[FormalParameter],
) -> Result<FormalParameters, NoMemory>
    ensures { IfOk result (λ copy. copy ≡ from.now) }
{
    let mut copy = List::new(alloc);
    for parameter in from {
        copy.push(FormalParameter {
            name: parameter.name.copy(alloc)?,
            mode: parameter.mode,
            section: parameter.section,
            of: parameter.of,
            kind: parameter.kind,
        })?;
    }
    Ok(copy)
}
