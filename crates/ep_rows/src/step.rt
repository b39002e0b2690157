//! What the code of a row answers.

/// What an instruction came to.
#[derive(Clone, Copy, Drop)]
pub enum Step {
    /// The run goes on with the next instruction.
    Next,
    /// It goes on at a place.
    Goto(u32),
    /// The run ends by an error.
    Error(u8),
    /// The code is broken.
    Broken,
    /// The instruction would pass the limit, and nothing is done.
    Full,
    /// Memory is wanting.
    NoMemory,
    /// The instruction is not a frequent one, and nothing is done.
    Rare,
}
