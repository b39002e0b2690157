//! The forms of the language that are built.
//!
//! A tree has every form of the language, and the crates above take those alone whose nodes are all built.
//! `unbuilt` answers the line of the first node of a component that is not built, or `None` where every
//! node is, and `expression_unbuilt` alike of an expression: exactly what specs/Built.antt says.
//!
//! The crate stands on ep_tree, whose trees it goes over, and on ep_base for their names. It stands beside
//! the parser and not below it, so that no parser is checked again where a form gets built. Open
//! specs/Forms.antt first: it is the table of the built forms, row by row that of src/built/forms.rt; the
//! head of specs/Built.antt lists in words what is not built.
#![tactic(auto)]

mod built;

pub use built::{expression_unbuilt, unbuilt};
