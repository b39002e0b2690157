//! The tests of code and of the machine, of all that words of a command and answers cannot say: the code of typed
//! trees, the object of a program, and single instructions. What they can say is a case of ep_cases.
//!
//! It stands on the crates that make code (ep_gen_code, ep_gen_type, ep_gen_expr, ep_gen_unit) with the trees of
//! ep_typed, and on the machine (ep_machine) with the images of ep_object. No crate stands on it.
//!
//! Each file has tables of texts, a case a row, and the tests that go over them. Open instructions.rt first, which
//! says how an instruction is written as a text; then typed_trees.rt, which has trees with their code, programs.rt,
//! which has programs with their objects, machine.rt, which has code with what a run of it comes to, and units.rt, which
//! links the objects of units that name each other.
#![tactic(auto)]

#[cfg(test)]
mod instructions;
#[cfg(test)]
mod machine;
#[cfg(test)]
mod programs;
#[cfg(test)]
mod typed_trees;
#[cfg(test)]
mod units;
