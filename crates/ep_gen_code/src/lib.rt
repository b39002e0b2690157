//! Code under construction: how it grows, its tables, jumps ahead, the references that it begins with, and the code of
//! constants.
//!
//! Promise: each call says exactly which instructions stand behind the earlier ones, which stay as they are, and that
//! a jump ahead gets its goal. It stands on ep_object, whose instructions it writes, and on ep_simulation, by which
//! the machine follows constants. Open specs/Growth.antt first.
//! To change how code grows: specs/Growth.antt, src/code.rt; jumps: specs/Jumps.antt, src/jumps.rt,
//! proofs/public/Landing.antt; the tables of texts and references: src/tables.rt, and how a reference is found src/keys.rt
//! with specs/Keys.antt; the references that a unit begins with: specs/Referring.antt, src/references.rt; what code may
//! cost beside its steps: specs/Credit.antt. How code stands in an image: proofs/public/Placed.antt.
#![tactic(auto)]

mod code;
mod jumps;
mod keys;
mod references;
mod tables;

pub use code::{Code, NO_LINE, emit};
pub use jumps::{field_number, land, leave_hole, next_place, place_number};
pub use references::{FILL, RANGE, SPREAD, SWAP, type_reference};
pub use tables::{ReferenceTable, TextTable};
