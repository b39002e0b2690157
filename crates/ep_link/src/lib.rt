//! The linker: where the parts of objects stand in the image that they are linked to.
//!
//! Promise: `linked_image` makes exactly the image that `linked` of ep_object's specs/Placing.antt is, and by
//! `laws_of_linking` each object stands in it, wherever no two have the same name. Time and memory are linear in the
//! objects, but for the look-up of names in an ordered map. Open src/image.rt first.
//! To change where parts stand: specs/Placing.antt of ep_object, src/span.rt, placement.rt. What references become:
//! src/units.rt for names, target.rt for numbers. What an instruction or a type becomes: instrs.rt, types.rt.
#![tactic(auto)]

mod image;
mod instrs;
mod laws;
mod placement;
mod span;
mod target;
mod types;
mod units;

pub use image::linked_image;
pub use laws::laws_of_linking;

#[cfg(test)]
mod tests;
