//! How many cases there were, and how many differ.

/// The two counts. Each stays at the end of its type.
#[derive(Clone, Copy)]
pub struct Tally {
    pub cases: u64,
    pub differ: u64,
}

impl Tally {
    /// No case so far.
    pub fn new() -> Tally {
        Tally {
            cases: 0,
            differ: 0,
        }
    }

    /// Counts a case.
    pub fn count(&mut self, differs: bool) {
        self.cases = self.cases.saturating_add(1);
        if differs {
            self.differ = self.differ.saturating_add(1);
        }
    }
}
