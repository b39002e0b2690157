//! The static rules of declarations, on parts that are accepted.
//!
//! Promise: each rule answers what its parts come to, or one of the rules that fail for them, as its definition says. It
//! stands beside ep_check_stmt, and below what is declared in a block (`Block` of ep_check_unit), which asks it. Open
//! specs/Types.antt first.
//! To change what is said of types: specs/Types.antt, src/types.rt, for sets sets.rt, for constants in them
//! specs/FittingConstants.antt, src/fitting.rt; of fields and variants: src/records.rt, variants.rt, for labels
//! specs/Labels.antt; of headings: src/formals.rt, functions.rt, headings.rt; of what gives a result a value:
//! specs/Giving.antt, src/giving.rt. How a name of a list, or a routine that has a body, is found: src/distinct.rt,
//! bodied.rt. How large a type may be: `counted` of specs/Types.antt.
#![tactic(auto)]

mod bodied;
mod constants;
mod definitions;
mod distinct;
mod fitting;
mod formals;
mod functions;
mod giving;
mod headings;
mod initial_states;
mod labels;
mod numbers;
mod own;
mod records;
mod sets;
mod types;
mod variants;

pub use bodied::Bodies;
pub use constants::{copied as copied_value, entry_denoter};
pub use distinct::{DistinctParameters, WrittenFields};
pub use fitting::fits;
pub use formals::{formals as typed_formals, is_repeated, section_mode, with_names};
pub use functions::{
    HeadingResult, copied_name, has_unknown, in_block, is_that_function, result_name,
    routine_declaration, same_result, text_gives, typed_result,
};
pub use headings::{Heading, numbers as routine_numbers, start_name};
pub use initial_states::may_begin;
pub use labels::{Labels, TagValues, tag_values, take_variant};
pub use numbers::{has_number, number};
pub use own::{Enclosing, OwnResult, OwnVariables};
pub use records::{Listing, WrittenField, add_fields, denoted, nodes, own_fields};
pub use sets::are_members;
pub use types::{
    IndexType, NamedType, TYPE_NODES, Written, are_built, common_host, copied as copied_names,
    counted, index_host, ordered, required_host, subrange, type_denoter,
};
pub use variants::{Tag, all_fields, variant_nodes};
