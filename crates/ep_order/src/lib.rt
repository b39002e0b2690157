//! The order in which the units of a system are activated.
//!
//! Promise: `activation_order` answers the order of activation exactly where there is one, and else a true circle of
//! units that supply one another. It stands on ep_base alone, so that the linker asks it of objects and of texts alike:
//! a unit is a name with the places of its suppliers. Open specs/Orders.antt and specs/Circles.antt first.
//! To change what comes next: specs/Orders.antt, src/queue.rt with specs/Queues.antt. What a circle is: specs/Circles.antt,
//! src/circle.rt with specs/Placings.antt. What a unit is, and what is asked of a system: specs/Dependents.antt,
//! src/dependent.rt. That the order of the list plays no part: specs/Laws.antt, src/laws.rt.
#![tactic(auto)]

mod circle;
mod dependent;
mod laws;
mod order;
mod places;
mod queue;

pub use dependent::{Activation, Dependent};
pub use laws::laws_of_activation;
pub use order::activation_order;

#[cfg(test)]
mod tests;
