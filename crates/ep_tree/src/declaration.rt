//! Definitions and declarations that contain no block (ISO 10206, 6.3, 6.4, 6.5 and 6.7.3).

use crate::expression::ComponentValue;
use crate::operator::QualifiedName;
use crate::types::TypeDenoter;
use ep_base::{Line, List, Name, Names};

/// `consts = "const" id "=" cvalue ";" { id "=" cvalue ";" }`
pub struct Constants {
    pub line: Line,
    pub definitions: List<ConstantDefinition>,
}

impl Drop for Constants {
    fn drop(self) {
        let Constants {
            line: _,
            definitions: _,
        } = self;
    }
}

/// `id "=" cvalue`
pub struct ConstantDefinition {
    pub line: Line,
    pub name: Name,
    pub value: ComponentValue,
}

impl Drop for ConstantDefinition {
    fn drop(self) {
        let ConstantDefinition {
            line: _,
            name: _,
            value: _,
        } = self;
    }
}

/// `types = "type" tdef ";" { tdef ";" }`
pub struct Types {
    pub line: Line,
    pub definitions: List<TypeDefinition>,
}

impl Drop for Types {
    fn drop(self) {
        let Types {
            line: _,
            definitions: _,
        } = self;
    }
}

/// `tdef = id [ "(" dsec { ";" dsec } ")" ] "=" type`; without parentheses there are no discriminants.
pub struct TypeDefinition {
    pub line: Line,
    pub name: Name,
    pub discriminants: List<DiscriminantSection>,
    pub of: TypeDenoter,
}

impl Drop for TypeDefinition {
    fn drop(self) {
        let TypeDefinition {
            line: _,
            name: _,
            discriminants: _,
            of: _,
        } = self;
    }
}

/// `dsec = ids ":" name`
pub struct DiscriminantSection {
    pub line: Line,
    pub names: Names,
    pub of: QualifiedName,
}

impl Drop for DiscriminantSection {
    fn drop(self) {
        let DiscriminantSection {
            line: _,
            names: _,
            of: _,
        } = self;
    }
}

/// `vars = "var" ids ":" type ";" { ids ":" type ";" }`
pub struct Variables {
    pub line: Line,
    pub declarations: List<VariableDeclaration>,
}

impl Drop for Variables {
    fn drop(self) {
        let Variables {
            line: _,
            declarations: _,
        } = self;
    }
}

/// `ids ":" type`
pub struct VariableDeclaration {
    pub line: Line,
    pub names: Names,
    pub of: TypeDenoter,
}

impl Drop for VariableDeclaration {
    fn drop(self) {
        let VariableDeclaration {
            line: _,
            names: _,
            of: _,
        } = self;
    }
}

/// `rhead`; without parentheses there are no formals.
pub enum RoutineHeading {
    /// `"procedure" id [ formals ]`
    Procedure(Line, Name, List<FormalSection>),
    /// `"function" id [ formals ] [ "=" id ] ":" name`
    Function(Line, Name, List<FormalSection>, Option<Name>, QualifiedName),
}

impl Drop for RoutineHeading {
    fn drop(self) {
        match self {
            RoutineHeading::Procedure(_, _, _) => {}
            RoutineHeading::Function(_, _, _, _, _) => {}
        }
    }
}

/// `psec = [ "protected" ] [ "var" ] ids ":" ( name | "type" "of" name )`
pub struct FormalSection {
    pub line: Line,
    pub protected: bool,
    pub variable: bool,
    pub names: Names,
    pub of: FormalType,
}

impl Drop for FormalSection {
    fn drop(self) {
        let FormalSection {
            line: _,
            protected: _,
            variable: _,
            names: _,
            of: _,
        } = self;
    }
}

/// `name | "type" "of" name`
pub enum FormalType {
    /// A type or a schema.
    Named(QualifiedName),
    /// The type of a variable.
    TypeOf(Line, QualifiedName),
}

impl Drop for FormalType {
    fn drop(self) {
        match self {
            FormalType::Named(_) => {}
            FormalType::TypeOf(_, _) => {}
        }
    }
}
