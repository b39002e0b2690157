//! How the machine follows a program: each state of a run against a state of the meaning.
//!
//! Promise: by `laws_of_simulations` a run from a routine that simulates a computation ends as that does, within 64
//! ticks for a step and 64 steps for a tick, but for want of room; `laws_of_calls` says the same of a call. It stands
//! on ep_object and ep_meaning, the two sides, and only the crates of code and the top call stand on it. Open
//! specs/Follows.antt first, then Matching.antt and Simulates.antt.
//! To change when states match: the group of specs/Matching.antt that reads what changes, proofs/matching. A row: its
//! lemma in the file of its kind in proofs/rows. What a routine promises its callers: specs/Promises.antt,
//! proofs/following. What an activation knows of its variables: Activations.antt. What a run tells: Tells.antt. Lemmas
//! that the crates of code cite are in proofs/public.
#![tactic(auto)]

mod laws;

pub use laws::{laws_of_calls, laws_of_simulations};
