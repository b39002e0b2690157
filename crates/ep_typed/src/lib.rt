//! Typed programs: what the static rules make of a source, and what code is made of.
//!
//! Promise: `unit_nodes` counts exactly the nodes that specs/Nodes.antt counts, and by `laws_of_denoters` a denoter
//! has at most one type value. It stands on ep_values for types and operations, and says nothing of meaning, so that
//! an edit of the meaning proves no static rule anew. Open specs/Trees.antt first, with src/tree.rt beside it.
//! To change a typed form: src/tree.rt, specs/Trees.antt, Viewed.antt, Nodes.antt with src/nodes.rt; a statement also
//! specs/Parts.antt with src/parts.rt, which all walks over statements go by. A denoter:
//! src/denoter.rt, specs/Denoters.antt, and Hosts.antt for hosts. Units and interfaces: src/unit.rt, src/interface.rt.
//! The numbers of a routine's variables: specs/Routines.antt; the auxiliary ones: Auxiliaries.antt, src/auxiliary.rt.
//! Constants that share their elements, and uses of variants that share their labels: src/value.rt, src/shared.rt,
//! src/selection.rt.
#![tactic(auto)]

mod auxiliary;
mod denoter;
mod interface;
mod laws;
mod nodes;
mod parts;
mod selection;
mod shared;
mod tree;
mod unit;
mod value;

pub use auxiliary::{
    auxiliary_variables, block_auxiliaries, first_for, first_for_in, unit_auxiliaries,
    unit_with_count, with_count, with_count_in,
};
pub use denoter::{
    Bound, Bounds, Denoter, FieldPart, RecordField, RecordFields, RequiredType, Selector, Variant,
    VariantPart, Variants,
};
pub use interface::{
    ConstantEntries, ConstantEntry, Constituent, ConstituentKind, Constituents, ExportEntries,
    ExportEntry, Formal, FormalMode, Formals, ImportSpec, ImportSpecs, Interface, NamePair,
    NamePairs, RoutineEntries, RoutineEntry, RoutineResult, SchemaFormal, SchemaFormals,
    TypeEntries, TypeEntry, VariableEntries, VariableEntry,
};
pub use laws::laws_of_denoters;
pub use nodes::unit_nodes;
pub use selection::SharedSelection;
pub use shared::Shared;
pub use tree::{
    Actual, Actuals, Callee, CaseArm, CaseArms, CaseRange, CaseRanges, ComponentSteps, Element,
    Elements, EntireVariable, ForControl, MemberControl, MemberDesignator, MemberDesignators,
    Selection, StandardFile, TagControl, TypedExpr, TypedExprs, TypedPlace, TypedStmt, TypedStmts,
    VariantLabels, WithRecord, WithRecords, WriteItem, WriteItems,
};
pub use unit::{
    RoutineNumbers, Unit, UnitRoutine, UnitRoutines, UnitType, UnitTypes, UnitVariable,
    UnitVariables,
};
pub use value::Value;
