//! The tests across the crates, of all that words of a command and answers cannot say: the tokens of texts, which of
//! two trees a text has and how deep it nests, what is answered of an expression on its own, the objects in memory,
//! the memory of a machine, and the words of types. What they can say is a case of ep_cases, and what is about code
//! or single instructions is in ep_code_suite.
//!
//! It stands on the crates whose calls it tries, ep_check_expr and ep_memory the highest of them. No crate stands on
//! it.
//!
//! Each file has tables for one of these, and the tests that go over them. Open tokens.rt first, which needs no other
//! file; texts.rt makes the trees with which choices.rt, nesting.rt and expressions.rt begin.
#![tactic(auto)]

#[cfg(test)]
mod choices;
#[cfg(test)]
mod expressions;
#[cfg(test)]
mod memory;
#[cfg(test)]
mod nesting;
#[cfg(test)]
mod outside;
#[cfg(test)]
mod texts;
#[cfg(test)]
mod tokens;
#[cfg(test)]
mod type_values;
