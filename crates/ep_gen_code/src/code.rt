//! Code under construction.

ghost use Rattle.std.specs.Prelude.{◌≡◌, [], ◌∷◌, IfOk, OnOk};
ghost use Rattle.ep_gen_code.specs.Instructions.{instr};
ghost use Rattle.ep_gen_code.specs.Growth.{Grows, IsTable, begun_code};

use crate::references::first_references;
use crate::tables::{ReferenceTable, TextTable};
use ep_base::{Line, List, NoMemory};
use ep_object::{ConstantTypes, Instr, Instrs};
use ep_typed::Unit;
use std::alloc::Global;

/// The line of instructions that no statement and no declaration asks for. No error has it.
pub const NO_LINE: Line = 0;

/// The instructions so far, and the tables that their fields are places of.
#[derive(Drop)]
pub struct Code {
    /// The instructions.
    pub instructions: Instrs,
    /// The texts.
    pub texts: TextTable,
    /// The routines and slots that instructions name.
    pub references: ReferenceTable,
    /// The constant types.
    pub constant_types: ConstantTypes,
    /// The line that every appended instruction gets: that of the statement or declaration.
    pub line: Line,
}

impl Code {
    /// No code of a unit yet, at no line, with its first references. Where memory is wanting, or a number would not fit a field, it
    /// is refused.
    pub fn new(alloc: Global, unit: &Unit) -> Result<Code, NoMemory>
        ensures begun { IfOk result (λ code. code ≡ begun_code unit.now) }
        ensures small { IfOk result (λ code. IsTable code.references) }
    {
        let references = first_references(alloc, unit)?;
        Ok(Code {
            instructions: List::new(alloc),
            texts: TextTable::new(alloc),
            references,
            constant_types: List::new(alloc),
            line: NO_LINE,
        })
    }
}

/// Appends one instruction, at the line that is set.
pub fn emit(code: &mut Code, op: u8, a: i64, b: u32) -> Result<(), NoMemory>
    ensures { OnOk result (Grows code.old code.new (instr op a b code.old.line ∷ [])) }
{
    let line = code.line;
    code.instructions.push(Instr { op, a, b, line })
}
