//! Units and objects together: what the image does that objects are linked to, by what each object does alone.
//!
//! Promise: by `laws_of_composition` the image of objects, each of which implements its unit, implements the units. It
//! stands on ep_link and ep_simulation, and knows nothing of code: which object implements a unit is told by the crates of
//! code. Open specs/Laws.antt first, then specs/Joined.antt of ep_simulation.
//! To change in which order starts and stops run: proofs/Activations.antt; how one leads to the next: proofs/Turns.antt.
#![tactic(auto)]

mod laws;

pub use laws::laws_of_composition;
