//! What an import brings, by names alone, before any type is looked at.
//!
//! Promise: `open_import` answers exactly which of the given headings exports an interface, which names the import
//! brings, in order, and what each of them denotes, or why it is refused; `open_imports` does so for all imports of a
//! heading or of a block. It stands on ep_interface for the headings that are given, and on no scope: the scopes enter
//! what is brought, a plain name where the import is not qualified and `interface.name` in any case, and find its type
//! in the interface of the heading whose place is told. A crate of rules asks `open_imports` for rules 1, 4 and 5.
//! Open specs/Brought.antt first.
//! To change what is given, and who exports it: specs/Offers.antt, src/offer.rt,
//! src/required.rt, src/exports.rt. What one import brings:
//! specs/Brought.antt, specs/Imports.antt, src/import.rt. What imports bring together: specs/Sequences.antt,
//! src/imports.rt. How names are found: specs/Found.antt, src/names.rt.
#![tactic(auto)]

mod brought;
mod exports;
mod import;
mod imports;
mod names;
mod offer;
mod required;

pub use brought::{
    Brought, Denoted, Exporter, ImportRefusal, Imported, RefusedImport, RequiredInterface,
};
pub use exports::GivenExports;
pub use import::open_import;
pub use imports::open_imports;

#[cfg(test)]
mod tests;
