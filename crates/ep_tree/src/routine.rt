//! Routines, and the parts of a block before its statements (ISO 10206, 6.2 and 6.7).

use crate::declaration::{Constants, RoutineHeading, Types, Variables};
use crate::statement::Compound;
use ep_base::{Line, List, Name};

/// One of `parts = { consts | types | vars | rdecl }`
#[cycle(routine)]
#[derive(Drop)]
pub enum BlockPart {
    /// `consts`
    Constants(Constants),
    /// `types`
    Types(Types),
    /// `vars`
    Variables(Variables),
    /// `rdecl`
    Routine(Routine),
}

/// `rdecl = ( rhead | "function" id ) ";" ( "forward" | parts compound ) ";"`
#[cycle(routine)]
#[derive(Drop)]
pub struct Routine {
    pub line: Line,
    pub start: RoutineStart,
    pub body: RoutineBody,
}

/// `rhead | "function" id`
pub enum RoutineStart {
    /// `rhead`
    Heading(RoutineHeading),
    /// `"function" id`
    Function(Line, Name),
}

impl Drop for RoutineStart {
    fn drop(self) {
        match self {
            RoutineStart::Heading(_) => {}
            RoutineStart::Function(_, _) => {}
        }
    }
}

/// `"forward" | parts compound`
#[cycle(routine)]
#[derive(Drop)]
pub enum RoutineBody {
    /// `"forward"`
    Forward(Line),
    /// `parts compound`
    Block(Line, List<BlockPart>, Compound),
}
