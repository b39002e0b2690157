//! What a name may stand for.

use crate::kind::Kind;
use crate::parameter::{FormalParameters, Protection, TypeName, WrittenType};
use ep_base::Name;
use ep_typed::{StandardFile, Value};

/// What a name of a scope stands for.
pub enum Thing {
    /// A declaration of a unit.
    Declared(Declared),
    /// `input` or `output`, as a parameter (ISO 10206, 6.12).
    Standard(StandardFile),
}

impl Drop for Thing {
    fn drop(self) {
        match self {
            Thing::Declared(_) => {}
            Thing::Standard(_) => {}
        }
    }
}

/// A declaration of a unit (ISO 10206, 6.2.1).
pub struct Declared {
    /// The unit.
    pub unit: Name,
    /// Its number among the unit's constants, types, variables or routines, or among the variables
    /// of the routine.
    pub number: u32,
    /// How many routines are around it: of a variable of a routine, one more than around that routine.
    pub level: u32,
    /// What is declared.
    pub what: Declaration,
}

impl Drop for Declared {
    fn drop(self) {
        let Declared {
            unit: _,
            number: _,
            level: _,
            what: _,
        } = self;
    }
}

/// What a declaration declares.
pub enum Declaration {
    /// A constant (ISO 10206, 6.3.1): its kind, its value, and how deep the form nests for which its name stands.
    Constant(Kind, Value, u32),
    /// A name of this type, its kind, and how many nodes it has (ISO 10206, 6.4.1).
    Type(TypeName, Kind, u32),
    /// A variable of a unit, of this type (ISO 10206, 6.5.1). In the unit that declares it nothing protects it.
    Variable(TypeName, Kind, Protection),
    /// A variable of a routine, one of its formal parameters, or its result (ISO 10206, 6.5.1, 6.7.2 and 6.7.3).
    Own(TypeName, Kind, Protection),
    /// A procedure with these formal parameters (ISO 10206, 6.7.1).
    Procedure(FormalParameters),
    /// A function with these formal parameters, and its result of this type and kind (ISO 10206, 6.7.2).
    Function(FormalParameters, WrittenType, Kind),
}

impl Drop for Declaration {
    fn drop(self) {
        match self {
            Declaration::Constant(_, _, _) => {}
            Declaration::Type(_, _, _) => {}
            Declaration::Variable(_, _, _) => {}
            Declaration::Own(_, _, _) => {}
            Declaration::Procedure(_) => {}
            Declaration::Function(_, _, _) => {}
        }
    }
}
