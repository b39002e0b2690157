//! What a mark is.

/// Whether a token starts a line, and in how many parts it stands that are written deeper.
#[derive(Clone, Copy)]
pub struct Mark {
    pub starts: bool,
    pub depth: u32,
}
