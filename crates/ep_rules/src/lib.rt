//! The static rules of expressions, on parts that are accepted.
//!
//! Promise: each rule answers the typed form that its parts have together, or one of the rules that fail for them, as
//! its definition says (specs/Judgements.antt, Answers.antt). It stands on ep_scope for names and kinds, and below the
//! walk over trees, so that a rule is changed without the cycle of functions that asks it. Open specs/Operators.antt
//! first.
//! To change a rule: the file of specs that has it (Operators, Functions, Arguments, Constructors, Indexing,
//! FieldDesignators, Names, VariantSteps) and the file of src with its name; that what it gives is valid is shown in
//! ep_expr_laws. What is known of constants: specs/Folding.antt, SetFolding.antt, src/folding.rt, src/sets.rt;
//! components of constants: specs/ConstantAccesses.antt, KnownFields.antt. Levels of calls and variables:
//! src/levels.rt.
//! What the walk calls at each level is `inline(never)`: a frame of the walk would hold what all of the inlined hold,
//! and the walk goes a hundred levels down.
#![tactic(auto)]

mod access;
mod apart;
mod arguments;
mod constant_accesses;
mod constructors;
mod fields;
mod folding;
mod forms;
mod functions;
mod indexing;
mod levels;
mod names;
mod operators;
mod sets;
mod variants;

pub use access::Access;
pub use apart::ApartRanges;
pub use arguments::{Taken, given_value, unless_protected};
pub use constant_accesses::{has_index, value_of_field};
pub use constructors::{Members, with_designator};
pub use fields::designated;
pub use folding::{Folded, KnownValue, folded_form, number_in};
pub use forms::{DEPTH, Refusal, Typed, above, greatest, least};
pub use functions::{applied_to_one, applied_to_two, takes};
pub use indexing::indexed;
pub use levels::{callee_at, field_place, own_place, tagged_place};
pub use names::{named, qualified, undeclared};
pub use operators::{added, are_compatible, compared, multiplied, negated, signed};
pub use variants::{field_steps, selected_variant};
