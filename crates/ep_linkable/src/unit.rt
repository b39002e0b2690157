//! What the linker knows of units.

use ep_base::{List, Name};

/// An interface that a unit imports.
#[derive(Clone, Copy)]
pub struct Import<'a> {
    /// The interface's name.
    pub interface: &'a Name,
    /// The interface file of its exporter, as the unit was compiled with it.
    pub file: &'a [u8],
}

/// A unit that is to be linked.
pub struct LinkUnit<'a> {
    /// Its name.
    pub name: &'a Name,
    /// Whether it is a program, or else a module.
    pub is_program: bool,
    /// The names of the interfaces that it exports. What stands there for a program plays no part.
    pub exports: &'a [Name],
    /// The interfaces that it imports, but for the two standard ones.
    pub imports: List<Import<'a>>,
    /// Its own interface file.
    pub interface: &'a [u8],
    /// How many bytes its object file has.
    pub size: u64,
}

impl Drop for LinkUnit<'_> {
    fn drop(self) {
        let LinkUnit {
            name: _,
            is_program: _,
            exports: _,
            imports: _,
            interface: _,
            size: _,
        } = self;
    }
}
