//! Interfaces: what a unit offers to other units, as interface files have it.
//!
//! Promise: the types alone. Every entry is whole: a denoter has what is nested in it written out, and names only the
//! types of the interface's own list. It stands on ep_base alone, so that formats and the linker read interfaces
//! without typed programs. Open src/interface.rt first, then src/denoter.rt and src/value.rt.
//! To change what an entry has: its file here, and then its format in ep_iface.
#![tactic(auto)]

mod denoter;
mod interface;
mod value;

pub use denoter::{
    EntryDenoter, EntryField, EntryFieldPart, EntryFields, EntryRequired, EntrySelector,
    EntryVariant, EntryVariantPart, EntryVariants,
};
pub use interface::{
    ConstantEntries, ConstantEntry, Constituent, ConstituentKind, Constituents, ExportEntries,
    ExportEntry, Formal, FormalMode, Formals, ImportSpec, ImportSpecs, Interface, NamePair,
    NamePairs, RoutineEntries, RoutineEntry, RoutineResult, SchemaFormal, SchemaFormals,
    TypeEntries, TypeEntry, VariableEntries, VariableEntry,
};
pub use value::{
    ArrayElement, ArrayElements, BoundOperation, BoundPair, BoundPairs, EntryBound, EntryBounds,
    EntryValue, Members, NumberedValue, NumberedValues, RecordValue, TagValue,
};
