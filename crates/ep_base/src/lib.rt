//! The ground of every other crate: owned lists and boxes, names and bytes.
//!
//! Promise: contracts see a `List` or a `Boxed` as the items or the value that it holds, so a tree built of them is
//! plain data to every clause, `≡` is equality of trees, and a copy equals what it copies. It stands on nothing, since
//! all else stands on it: an edit here proves every crate anew. Open src/list.rt first.
//! To change what a name is: specs/Identifiers.antt, src/name.rt. How a type may contain itself through a list or a
//! box: specs/formers, with the small tree of src/tests.rt.
#![tactic(auto)]

mod boxed;
mod list;
mod name;

pub use boxed::Boxed;
pub use list::{Bytes, List, NoMemory};
pub use name::{MAX_NAME, Name, NameRefusal, Names};

/// The number of a line of a source text, counted from 1.
pub type Line = u32;

#[cfg(test)]
mod tests;
