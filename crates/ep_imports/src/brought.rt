//! What is answered of imports.

use ep_base::{List, Name};
use ep_interface::ConstituentKind;

/// An interface that is given to every component, and that no heading exports (ISO 10206, 6.11.4).
#[derive(Clone, Copy, Drop)]
pub enum RequiredInterface {
    /// `StandardInput`, whose one constituent is `input`.
    StandardInput,
    /// `StandardOutput`, whose one constituent is `output`.
    StandardOutput,
}

/// What exports an interface.
#[derive(Clone, Copy, Drop)]
pub enum Exporter {
    /// The heading at this place among those that are given, counted from 0.
    Heading(usize),
    /// No heading, since it is required.
    Required(RequiredInterface),
}

/// What a constituent of an interface denotes (ISO 10206, 6.11.2).
#[derive(Clone, Copy, Drop)]
pub struct Denoted {
    /// What it is.
    pub kind: ConstituentKind,
    /// Its place in the list of its kind in the interface of the heading, counted from 0; 0 for a standard file.
    pub index: u32,
    /// Whether it is exported as protected.
    pub protected: bool,
}

/// A name that an import brings (ISO 10206, 6.11.3).
pub struct Brought {
    /// The name here.
    pub here: Name,
    /// What it denotes.
    pub denoted: Denoted,
}

impl Drop for Brought {
    fn drop(self) {
        let Brought {
            here: _,
            denoted: _,
        } = self;
    }
}

/// An import that is opened.
pub struct Imported {
    /// What exports the interface.
    pub exporter: Exporter,
    /// Whether the names are reached only as `interface.name`, and not plainly too.
    pub qualified: bool,
    /// The names that it brings: those of the listed constituents in the order of the text, and then those of all
    /// others in the order of the interface.
    pub brought: List<Brought>,
}

impl Drop for Imported {
    fn drop(self) {
        let Imported {
            exporter: _,
            qualified: _,
            brought: _,
        } = self;
    }
}

/// Why an import is not opened. Of several reasons the first one here is told.
pub enum ImportRefusal {
    /// Not exactly one of the given headings exports the interface of this name.
    NoInterface(Name),
    /// The interface does not have this constituent, the first one of those listed.
    NoConstituent(Name),
    /// This name is brought twice, the first one of those brought.
    Twice(Name),
    /// Memory is wanting.
    NoMemory,
}

impl Drop for ImportRefusal {
    fn drop(self) {
        match self {
            ImportRefusal::NoInterface(_) => {}
            ImportRefusal::NoConstituent(_) => {}
            ImportRefusal::Twice(_) => {}
            ImportRefusal::NoMemory => {}
        }
    }
}

/// The first import of several that is refused.
pub struct RefusedImport {
    /// Its place among them, counted from 0.
    pub place: usize,
    /// Why it is refused.
    pub refusal: ImportRefusal,
}

impl Drop for RefusedImport {
    fn drop(self) {
        let RefusedImport {
            place: _,
            refusal: _,
        } = self;
    }
}
