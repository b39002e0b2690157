//! What the machine takes its operands from and what its calls stand in: the operand stack and the calls under way.
//!
//! Promise: contracts see a `Stack` as the operands with the top first, and `Calls` as the frames of the definition,
//! the innermost first, and each call says what it makes of them. So that no small step asks for memory, the words of
//! all operands stand in one vector, and so do their texts, their sets, the slots and the arguments. It stands on
//! ep_object for operands and frames. Open specs/Stacks.antt first.
//! To change how an operand stands: specs/Stacks.antt, src/stack.rt, src/cell.rt; a set: specs/Members.antt,
//! src/members.rt, proofs/SetTops.antt. Frames, levels and arguments: specs/Calls.antt, src/calls.rt,
//! proofs/CallFrames.antt and CallEntry.antt.
#![tactic(auto)]

mod calls;
mod cell;
mod members;
mod stack;

pub use calls::{Argument, Calls};
pub use members::Members;
pub use stack::Stack;
