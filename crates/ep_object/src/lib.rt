//! Objects and images, and the definition of the machine that runs them.
//!
//! Promise: by `laws_of_runs` a run comes to the same instruction by instruction and tick by tick, a longer run goes
//! on from a shorter one, and an ended one stays as it is. Of typed programs and their meaning it knows nothing: it
//! stands on ep_values for words, types and events, so that the machine is read and proved without the language. Open
//! specs/Table.antt first.
//! To change an instruction: src/op.rt, specs/Table.antt, and the row in the file of its kind (WordRows, Control,
//! Places, Parts, Pointers, Calls, SetRows, Types, Texts). The state: specs/State.antt, src/state.rt; frames:
//! Frames.antt. Which number a type has: `interned` of Types.antt, with TypeEntries.antt and src/type_entry.rt for
//! equality. How objects stand in an image: Placing.antt.
#![tactic(auto)]

mod code;
mod laws;
pub mod limit;
pub mod op;
mod state;
mod type_entry;

pub use code::{
    CodeRoutine, CodeRoutines, ConstantType, ConstantTypes, Image, ImageRoutine, ImageRoutines,
    ImageUnit, ImageUnits, Instr, Instrs, Numbers, Object, ObjectImport, ObjectImports, Reference,
    References, Texts, Words,
};
pub use laws::laws_of_runs;
pub use state::{
    FIRST_LIVE_WORDS, FrameNumber, INPUT_SEGMENT, OUTPUT_SEGMENT, Place, RecordPart, RecordParts,
    SET_MEMBERS, SET_WORDS, Segment, TEXT_TYPE, TypeEntry, TypeKind, WORD_MEMBERS,
};
