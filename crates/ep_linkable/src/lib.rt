//! Whether units can be linked, and in which order they are activated.
//!
//! Promise: `link_order` answers the order of activation, or else exactly the first of the eight link refusals that
//! holds, and in which order the units are listed changes neither, but which true circle is named. It stands on
//! ep_base and ep_order alone, so that the linker asks it of objects, of which it lends names and bytes. Open
//! specs/Refusals.antt first.
//! To change a refusal: specs/Refusals.antt, and src/programs.rt, names.rt, imports.rt, supply.rt or linkable.rt.
//! Which unit supplies which: specs/Supplies.antt, src/supply.rt. What is known of a unit: src/unit.rt.
#![tactic(auto)]

mod imports;
mod laws;
mod linkable;
mod names;
mod programs;
mod refusal;
mod register;
mod supply;
mod unit;

pub use laws::laws_of_link_order;
pub use linkable::{MAX_LINK, link_order};
pub use refusal::LinkRefusal;
pub use unit::{Import, LinkUnit};

#[cfg(test)]
mod tests;
