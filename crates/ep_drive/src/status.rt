//! What a call of the program comes to.

/// How a command ended. The numbers are the exit statuses.
#[derive(Clone, Copy, Debug, PartialEq, Eq)]
pub enum Status {
    /// The command finished; a run ended normally.
    Done = 0,
    /// The run ended by `halt`.
    Halted = 1,
    /// The run ended by an error.
    RunError = 2,
    /// A source text is refused.
    SourceRefused = 3,
    /// The units cannot be linked.
    LinkRefused = 4,
    /// An interface, object or image file has bytes outside its grammar.
    FileRefused = 5,
    /// The words are no command.
    Usage = 6,
    /// The run has not ended within its budget.
    Budget = 7,
    /// A named file is missing or too long.
    FileMissing = 8,
    /// The input had a fault.
    ReadFault = 9,
    /// The output or the report had a fault.
    WriteFault = 10,
    /// The files had a fault.
    FileFault = 11,
    /// The image has an instruction that has no meaning where it stands.
    BrokenImage = 12,
    /// Memory is wanting.
    NoMemory = 13,
    /// An accepted form is not built yet.
    Unbuilt = 14,
}
