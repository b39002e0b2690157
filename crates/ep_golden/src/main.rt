//! Prints the trees of the text in standard input, each node with its line. The file stdin of this crate has every
//! production of the grammar, and the file stdout, which is what must be printed of it, was written by hand from the
//! grammar: so each production is seen to put its parts where they belong.
//!
//! It stands on ep_token and ep_parse, which read the text, and on the trees of ep_tree. It promises nothing but that
//! it is safe and ends.
//!
//! Open dump.rt first, which says how nodes are printed; then the file of the part of the grammar. A declaration, a
//! statement and a component have lines of their own, which begin with the line of the node. Of the nodes inside, one
//! is marked by `@` and its line where that is another one than the last that was told.
#![tactic(auto)]

mod components;
mod declarations;
mod dump;
mod expressions;
mod statements;
mod types;

use dump::Dump;
use ep_token::{MAX_SOURCE, tokens};
use ep_tree::Component;
use std::alloc::Global;
use std::io;

fn main(rt: HostRuntime) -> io::Result<()> {
    let source = io::read_to_string(rt.alloc(), rt.reader())?;
    let mut dump = Dump::new(rt.alloc());
    tell(rt.alloc(), source.as_bytes(), &mut dump);
    println!(rt; "{}", dump.text())
}

/// Tells the components of a source, or that it has none.
fn tell(alloc: Global, source: &[u8], dump: &mut Dump) {
    match parsed(alloc, source) {
        Some(found) => components::all(found.as_slice(), dump),
        None => dump.word("refused"),
    }
}

/// The components of a source, or `None` where it is refused.
fn parsed(alloc: Global, source: &[u8]) -> Option<Vec<Component>> {
    if source.len() > MAX_SOURCE {
        return None;
    }
    let found = tokens(alloc, source).ok()?;
    if found.len() > MAX_SOURCE {
        return None;
    }
    ep_parse::components(alloc, found.as_slice()).ok()
}
