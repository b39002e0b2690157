//! The values of constants.

use crate::shared::Shared;
use crate::tree::Elements;
use ep_base::Bytes;

/// The value of a constant (ISO 10206, 6.3.1).
pub enum Value {
    /// A value of an ordinal type, by its ordinal number.
    Word(i64),
    /// A text.
    Text(Bytes),
    /// A set, by the ordinal numbers of its members in rising order.
    Set(Bytes),
    /// An array or a record (ISO 10206, 6.8.7): the number of its type in the unit's list of types, and what its components
    /// are given, of which all values are constants: forms `Constant`, `SetConstant` and `Structured`. Components of arrays
    /// are given by ranges.
    Structured(u32, Shared<Elements>),
}

impl Drop for Value {
    fn drop(self) {
        match self {
            Value::Word(_) => {}
            Value::Text(_) => {}
            Value::Set(_) => {}
            Value::Structured(_, _) => {}
        }
    }
}
