//! The code of statements and units.
//!
//! Promise: `program_code` answers exactly the object that specs/UnitCode.antt says a program is, and by
//! `laws_of_programs` (specs/ProgramLaws.antt) a run of its image tells what the program means, but for want of room,
//! within 64 ticks for a step and 64 steps for a tick. It stands on the code of expressions and types. Open
//! specs/StmtCode.antt first, then UnitCode.antt.
//! To change the code of a statement: specs/StmtCode.antt, src/statements.rt, loops.rt, tags.rt with
//! specs/TagCode.antt, items.rt for `write`; in proofs the file of its kind that ends in Forms for how it is put
//! together, and for what it does the one in Moves, or Branching, Simple or Writing; StmtMoves.antt and StmtStays.antt
//! for all. Routines and their variables: UnitCode.antt, src/program.rt, proofs/OwnMakes.antt, Routines.antt. Types:
//! TypeRoutines.antt.
#![tactic(auto)]

mod items;
mod laws;
mod loops;
mod program;
mod ranges;
mod statements;
mod tags;

pub use laws::{laws_of_programs, laws_of_statements, laws_of_units};
pub use program::program_code;
pub use statements::statement_code;
