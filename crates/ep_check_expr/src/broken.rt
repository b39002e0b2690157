//! A static rule that fails at a place of the text.

use ep_base::Line;

/// A static rule that fails, and the line where it does.
#[derive(Clone, Copy, Drop)]
pub struct Broken {
    /// The number of the rule.
    pub rule: u32,
    /// The line.
    pub line: Line,
}
