//! The standard files that code may use.

ghost use Rattle.std.specs.Prelude.{◌≡◌};
ghost use Rattle.ep_scope.specs.Standard.{is_usable};

use ep_typed::StandardFile;

/// Which of the standard files the code of a block may use, also by default: those that are parameters of its program or
/// module (ISO 10206, 6.11.1 and 6.12), and those whose required interface it imports, under whatever name (6.11.4).
#[derive(Clone, Copy, Drop)]
pub struct StandardFiles {
    /// Whether `input` is one.
    pub input: bool,
    /// Whether `output` is.
    pub output: bool,
}

impl StandardFiles {
    /// Whether this file is one of them.
    pub fn has(self, file: StandardFile) -> bool
        ensures { result ≡ is_usable self file }
    {
        match file {
            StandardFile::Input => self.input,
            StandardFile::Output => self.output,
        }
    }
}
