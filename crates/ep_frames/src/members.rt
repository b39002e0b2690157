//! What stands for a set.

/// The members of a set. Each word tells of 32 ordinals, of the least one in its lowest bit.
#[derive(Clone, Copy, Drop)]
pub struct Members {
    /// The words, the one of the least ordinals first.
    pub words: [u32; 8],
}
