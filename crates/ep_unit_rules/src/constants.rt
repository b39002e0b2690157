//! Entries of the list of constants.

ghost use Rattle.std.specs.Prelude.{◌≡◌, IfOk};
ghost use Rattle.ep_unit_rules.specs.Constants.{entry_denoter, structured_denoter};

use crate::sets::set_denoter;
use crate::types::{host_type, type_denoter};
use ep_base::{List, NoMemory};
use ep_scope::{Host, Kind};
use ep_typed::{Denoter, Value};
use std::alloc::Global;

/// An equal value. What an array or a record is given is shared.
pub fn copied(alloc: Global, value: &Value) -> Result<Value, NoMemory>
    ensures { IfOk result (λ copy. copy ≡ value.now) }
{
    match value {
        Value::Word(word) => Ok(Value::Word(*word)),
        Value::Text(bytes) => Ok(Value::Text(List::from_slice(alloc, bytes.items())?)),
        Value::Set(members) => Ok(Value::Set(List::from_slice(alloc, members.items())?)),
        Value::Structured(number, given) => Ok(Value::Structured(*number, given.share()?)),
    }
}

/// The denoter of a constant of this kind in the list of constants, where it has one.
pub fn entry_denoter(alloc: Global, kind: Kind, value: &Value) -> Result<Option<Denoter>, NoMemory>
    ensures { IfOk result (λ d. d ≡ entry_denoter kind value.now) }
{
    match kind {
        Kind::Ordinal(host) => Ok(Some(type_denoter(alloc, host_type(host)))),
        Kind::Set(host) => Ok(Some(set_denoter(alloc, host)?)),
        Kind::EmptySet => Ok(Some(set_denoter(alloc, Host::Integer)?)),
        Kind::Structured(_) => Ok(structured_denoter(alloc, value)),
        Kind::Text | Kind::File => Ok(None),
    }
}

/// The denoter of the type of an array or a record.
fn structured_denoter(alloc: Global, value: &Value) -> Option<Denoter>
    ensures { result ≡ structured_denoter value.now }
{
    match value {
        Value::Structured(number, _) => Some(Denoter::Named(*number, List::new(alloc))),
        _ => None,
    }
}
