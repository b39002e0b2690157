//! The machine as code: it runs an image within a budget of ticks.
//!
//! Promise: the run of `Machine::run` is the run that ep_object defines, with the same state, end, ticks and events,
//! in the words of specs/Machines.antt. It runs the operations of ep_decode, by the rows of ep_rows and by those here
//! that touch calls, code or output. Open src/run.rt first, with specs/Views.antt for what contracts see of a state.
//! To change a frequent operation: its arm in `quick` of src/fast.rt, in src/likely.rt where only one case stays in
//! the loop, in `swift` of src/swift.rt where it goes on without a second jump (proofs/Goings.antt, Onward.antt). A
//! rare one: `obey` of src/turns.rt, `is_rare` of specs/Turns.antt. Pairs: src/pairs.rt, specs/Pairs.antt,
//! proofs/Fusion.antt. What is written: src/output.rt.
#![tactic(auto)]

mod arguments;
mod end;
mod fast;
mod likely;
mod output;
mod pairs;
mod run;
mod start;
mod state;
mod step;
mod swift;
mod turns;

pub use end::End;
pub use run::Machine;
