//! Texts as components.

use ep_parse::components;
use ep_token::{MAX_SOURCE, tokens};
use ep_tree::Component;
use std::alloc::Global;

/// The components of a text, or `None` where it is refused.
pub(crate) fn parsed(alloc: Global, text: &str) -> Option<Vec<Component>> {
    let source = text.as_bytes();
    if source.len() > MAX_SOURCE {
        return None;
    }
    let found = tokens(alloc, source).ok()?;
    if found.len() > MAX_SOURCE {
        return None;
    }
    components(alloc, found.as_slice()).ok()
}
