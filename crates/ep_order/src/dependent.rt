//! Units with the places of their suppliers, and what is answered of them.

use ep_base::{List, Name};

/// A unit of a list of units.
pub struct Dependent<'a> {
    /// Its name.
    pub name: &'a Name,
    /// Whether it is a program, or else a module.
    pub is_program: bool,
    /// The places in the list of the units that supply it; a place may stand there more than once.
    pub suppliers: List<u32>,
}

impl Drop for Dependent<'_> {
    fn drop(self) {
        let Dependent {
            name: _,
            is_program: _,
            suppliers: _,
        } = self;
    }
}

/// In which order the units of a list are activated.
#[derive(Drop)]
pub enum Activation {
    /// The places of all units, in the order of their activation.
    Ordered(List<u32>),
    /// The places of units of which each supplies the next and the last one the first, so that none can be the first
    /// to be activated.
    Circle(List<u32>),
}
