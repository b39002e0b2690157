//! The required identifiers (ISO 10206, 6.2.2.10).

ghost use Rattle.std.specs.Prelude.{◌≡◌};
ghost use Rattle.std.specs.Str.{bytes_eq};
ghost use Rattle.ep_scope.specs.Required.{look_up, required_of, required_constants, required_types, required_functions, required_procedures};

use ep_typed::RequiredType;

/// What a required identifier stands for where no scope has it.
#[derive(Clone, Copy, Drop)]
pub enum Required {
    /// A required constant.
    Constant(RequiredConstant),
    /// A required type.
    Type(RequiredType),
    /// A required function.
    Function(Function),
    /// A required procedure.
    Procedure(Procedure),
}

/// A required constant (ISO 10206, 6.4.2.2).
#[derive(Clone, Copy, Drop)]
pub enum RequiredConstant {
    /// `maxint`
    MaxInt,
    /// `maxchar`
    MaxChar,
    /// `True`
    True,
    /// `False`
    False,
}

/// A required function (ISO 10206, 6.7.6).
#[derive(Clone, Copy, Drop)]
pub enum Function {
    /// `abs`
    Absolute,
    /// `sqr`
    Square,
    /// `odd`
    Odd,
    /// `ord`
    Ordinal,
    /// `chr`
    Character,
    /// `succ`
    Successor,
    /// `pred`
    Predecessor,
    /// `card`
    Cardinality,
}

/// A required procedure (ISO 10206, 6.7.5 and 6.10).
#[derive(Clone, Copy, Drop)]
pub enum Procedure {
    /// `halt`
    Halt,
    /// `write`
    Write,
    /// `writeln`
    WriteLine,
}

/// What a name stands for as a required identifier.
pub fn required_identifier(name: &[u8]) -> Option<Required>
    ensures { result ≡ required_of name.now }
{
    if let Some(constant) = required_constant(name) {
        return Some(Required::Constant(constant));
    }
    if let Some(required) = required_type(name) {
        return Some(Required::Type(required));
    }
    if let Some(function) = required_function(name) {
        return Some(Required::Function(function));
    }
    match required_procedure(name) {
        None => None,
        Some(procedure) => Some(Required::Procedure(procedure)),
    }
}

/// Whether a name is a word.
fn is(name: &[u8], word: &[u8]) -> bool
    ensures { result ≡ bytes_eq name.now word.now }
{
    name == word
}

/// The required constant of a name.
fn required_constant(name: &[u8]) -> Option<RequiredConstant>
    ensures { result ≡ look_up required_constants name.now }
{
    if is(name, b"maxint".as_slice()) {
        Some(RequiredConstant::MaxInt)
    } else if is(name, b"maxchar".as_slice()) {
        Some(RequiredConstant::MaxChar)
    } else if is(name, b"true".as_slice()) {
        Some(RequiredConstant::True)
    } else if is(name, b"false".as_slice()) {
        Some(RequiredConstant::False)
    } else {
        None
    }
}

/// The required type of a name.
fn required_type(name: &[u8]) -> Option<RequiredType>
    ensures { result ≡ look_up required_types name.now }
{
    if is(name, b"integer".as_slice()) {
        Some(RequiredType::Integer)
    } else if is(name, b"char".as_slice()) {
        Some(RequiredType::Char)
    } else if is(name, b"boolean".as_slice()) {
        Some(RequiredType::Boolean)
    } else {
        None
    }
}

/// The required function of a name.
fn required_function(name: &[u8]) -> Option<Function>
    ensures { result ≡ look_up required_functions name.now }
{
    if is(name, b"abs".as_slice()) {
        Some(Function::Absolute)
    } else if is(name, b"sqr".as_slice()) {
        Some(Function::Square)
    } else if is(name, b"odd".as_slice()) {
        Some(Function::Odd)
    } else if is(name, b"ord".as_slice()) {
        Some(Function::Ordinal)
    } else if is(name, b"chr".as_slice()) {
        Some(Function::Character)
    } else if is(name, b"succ".as_slice()) {
        Some(Function::Successor)
    } else if is(name, b"pred".as_slice()) {
        Some(Function::Predecessor)
    } else if is(name, b"card".as_slice()) {
        Some(Function::Cardinality)
    } else {
        None
    }
}

/// The required procedure of a name.
fn required_procedure(name: &[u8]) -> Option<Procedure>
    ensures { result ≡ look_up required_procedures name.now }
{
    if is(name, b"halt".as_slice()) {
        Some(Procedure::Halt)
    } else if is(name, b"write".as_slice()) {
        Some(Procedure::Write)
    } else if is(name, b"writeln".as_slice()) {
        Some(Procedure::WriteLine)
    } else {
        None
    }
}
