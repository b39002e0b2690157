//! What typed programs mean, and which of them the static rules give.
//!
//! Promise: by `laws_of_meanings` a meaning that has ended ends so with more steps too, and one that has not goes on
//! from there, so that no event is taken back. It is all definitions and lemmas over the trees of ep_typed, and no
//! code; the static rules prove validity, and ep_simulation starts from it. Open specs/Meaning.antt first.
//! To change what a form means: its case in specs/Meaning.antt, over Steps.antt for computations and states,
//! Results.antt for what variables give and take, Calls.antt for calls, Controls.antt for `for`, Nameless.antt for
//! structured values. Which forms are valid: specs/Valid.antt. Each form then needs its case in
//! proofs/public/Steady.antt and Lasting.antt.
#![tactic(auto)]

mod laws;

pub use laws::laws_of_meanings;
