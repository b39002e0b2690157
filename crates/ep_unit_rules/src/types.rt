//! Types that are written, by their parts.

ghost use Rattle.std.specs.Prelude.{◌≡◌, ◌&&◌, IfOk};
ghost use Rattle.ep_rules.specs.Answers.{AnswersForm};
ghost use Rattle.ep_unit_rules.specs.Types.{common_host, counted, index_host, host_denoter, number_in, ordered, required_host, subrange_denoter, type_denoter, written_by};

use crate::labels::TagValues;
use ep_base::{Boxed, List, Name, Names, NoMemory};
use ep_check_expr::ConstantForm;
use ep_rules::Refusal;
use ep_scope::{Host, Kind, TypeName, WrittenType, rule, same_host};
use ep_typed::{Bound, Denoter, RequiredType, Value};
use std::alloc::Global;

/// The most nodes that a type may have, with the names in it replaced by what they name.
pub const TYPE_NODES: u32 = 1_048_576;

/// Nodes of a type, counted up to one more than a type may have.
pub fn counted(nodes: u32, more: u32) -> u32
    ensures { result ≡ counted nodes more }
{
    let sum = nodes as u64 + more as u64;
    if sum <= TYPE_NODES as u64 {
        sum as u32
    } else {
        TYPE_NODES + 1
    }
}

/// A type by its name.
#[derive(Clone, Copy, Drop)]
pub struct NamedType {
    /// The name.
    pub name: TypeName,
    /// Which type it is, whatever its name.
    pub of: TypeName,
    /// Its kind.
    pub kind: Kind,
    /// How many nodes it has.
    pub nodes: u32,
}

impl NamedType {
    /// The name, and which type it is.
    pub fn written(self) -> WrittenType
        ensures { result ≡ written_by self.of (type_denoter self.name) }
    {
        WrittenType {
            name: self.name,
            is: self.of,
        }
    }
}

/// An index type of an array (ISO 10206, 6.4.3.2).
#[derive(Clone, Copy, Drop)]
pub struct IndexType {
    /// Its name.
    pub name: TypeName,
    /// Its values.
    pub values: TagValues,
    /// How many nodes it has.
    pub nodes: u32,
}

/// A type that is written.
pub struct Written {
    /// The denoter.
    pub denoter: Denoter,
    /// Which type it is.
    pub of: TypeName,
    /// Its kind.
    pub kind: Kind,
    /// How many nodes it has.
    pub nodes: u32,
}

impl Drop for Written {
    fn drop(self) {
        let Written {
            denoter: _,
            of: _,
            kind: _,
            nodes: _,
        } = self;
    }
}

impl Written {
    /// The denoter alone.
    pub fn into_denoter(self) -> Denoter
        ensures { result ≡ self.denoter }
    {
        let Written {
            denoter,
            of: _,
            kind: _,
            nodes: _,
        } = self;
        denoter
    }
}

/// A type as a denoter. It takes no memory.
pub fn type_denoter(alloc: Global, name: TypeName) -> Denoter
    ensures { result ≡ type_denoter name }
{
    match name {
        TypeName::Required(required) => Denoter::Required(required),
        TypeName::Entry(number) => Denoter::Named(number, List::new(alloc)),
    }
}

/// The type that is a host.
pub(crate) fn host_type(host: Host) -> TypeName
    ensures { type_denoter result ≡ host_denoter host }
{
    match host {
        Host::Integer => TypeName::Required(RequiredType::Integer),
        Host::Char => TypeName::Required(RequiredType::Char),
        Host::Boolean => TypeName::Required(RequiredType::Boolean),
        Host::Enumeration(e) => TypeName::Entry(e.number),
    }
}

/// The host of a required type.
pub fn required_host(required: RequiredType) -> Host
    ensures { result ≡ required_host required }
{
    match required {
        RequiredType::Integer => Host::Integer,
        RequiredType::Char => Host::Char,
        RequiredType::Boolean => Host::Boolean,
    }
}

/// The host of two bounds.
pub fn common_host(low: Kind, high: Kind) -> Result<Host, Refusal>
    ensures { AnswersForm (λ h. h) result (common_host low high) }
{
    match (low, high) {
        (Kind::Ordinal(left), Kind::Ordinal(right)) if same_host(left, right) => Ok(left),
        _ => Err(Refusal::Rule(rule::HOSTS)),
    }
}

/// The number of a value.
fn number_in(value: &Value) -> i64
    ensures { result ≡ number_in value.now }
{
    match value {
        Value::Word(word) => *word,
        Value::Text(_) | Value::Set(_) | Value::Structured(..) => 0,
    }
}

/// Whether two bounds are built.
pub fn are_built(low: &ConstantForm, high: &ConstantForm) -> bool
    ensures { result ≡ (low.now.built && high.now.built) }
{
    low.built && high.built
}

/// Two bounds are in order.
pub fn ordered(low: &ConstantForm, high: &ConstantForm) -> Result<(), Refusal>
    ensures { AnswersForm (λ done. done) result (ordered low.now high.now) }
{
    if are_built(low, high) && number_in(&low.value) > number_in(&high.value) {
        Err(Refusal::Rule(rule::EMPTY_RANGE))
    } else {
        Ok(())
    }
}

/// The denoter of a subrange of this host.
pub fn subrange(
    alloc: Global,
    host: Host,
    low: &ConstantForm,
    high: &ConstantForm,
) -> Result<Denoter, NoMemory>
    ensures { IfOk result (λ d. d ≡ subrange_denoter host low.now high.now) }
{
    let of = Boxed::new(alloc, type_denoter(alloc, host_type(host)))?;
    let least = Bound::Constant(number_in(&low.value));
    let greatest = Bound::Constant(number_in(&high.value));
    Ok(Denoter::Subrange(of, least, greatest))
}

/// Equal names.
pub fn copied(alloc: Global, names: &[Name]) -> Result<Names, NoMemory>
    ensures { IfOk result (λ copy. copy ≡ names.now) }
{
    let mut copy = List::new(alloc);
    for name in names {
        copy.push(name.copy(alloc)?)?;
    }
    Ok(copy)
}

/// The host of an index type (ISO 10206, 6.4.3.2) or of a base type (ISO 10206, 6.4.3.5), which are ordinal.
pub fn index_host(kind: Kind) -> Result<Host, Refusal>
    ensures { AnswersForm (λ h. h) result (index_host kind) }
{
    match kind {
        Kind::Ordinal(host) => Ok(host),
        _ => Err(Refusal::Rule(rule::ORDINAL)),
    }
}
