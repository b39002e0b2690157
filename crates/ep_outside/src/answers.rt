//! What the calls of the outside answer.

/// What a read answers.
#[derive(Clone, Copy, PartialEq, Eq)]
pub enum ReadAnswer {
    /// This many bytes were put in front of the buffer; none means that nothing is left.
    Got(usize),
    /// A fault, and nothing was taken.
    Failed,
}

/// What a write, a create or an append answers.
#[derive(Clone, Copy, PartialEq, Eq)]
pub enum WriteAnswer {
    /// All of it is done.
    Done,
    /// A fault, and some front of it may be done.
    Failed,
    /// Memory is wanting, and nothing is done.
    NoMemory,
}

/// What a load answers.
#[derive(Clone, Copy, PartialEq, Eq)]
pub enum LoadAnswer {
    /// The file's bytes were put into the buffer.
    Held,
    /// There is no file of that name.
    Missing,
    /// The file has this many bytes, more than the limit.
    TooLong(u64),
    /// A fault.
    Failed,
    /// Memory is wanting.
    NoMemory,
}
