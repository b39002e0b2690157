//! The static rules of statements, on parts.
//!
//! Promise: each function here says of parts of a statement what specs/Statements.antt says of them: what is assigned to,
//! what a `for` counts with, which labels an arm has, what is written, which records a `with` opens, and what form a
//! statement has of the forms of its parts. None knows all that a block knows (`Context` of ep_check_stmt), which walks
//! over statements and asks these functions on the way. Open specs/Statements.antt first.
//! To change the forms of a statement: src/statements.rt; what is assigned to: src/targets.rt, tags: specs/Tags.antt,
//! src/tags.rt; `for`: src/loops.rt, over members src/members.rt; `case`: specs/Cases.antt, src/cases.rt; `with`:
//! src/records.rt, src/numbering.rt; `write`: src/writing.rt. Threats are ep_threats. Auxiliary variables:
//! specs/Auxiliaries.antt. Lemmas on what rules judge: proofs/public.
#![tactic(auto)]

mod auxiliaries;
mod cases;
mod loops;
mod members;
mod numbering;
mod outcome;
mod records;
mod statements;
mod tags;
mod targets;
mod writing;

pub use auxiliaries::{ForForm, has_for, has_for_in};
pub use cases::{
    CaseSelector, Labels, arm_form, case_form, no_otherwise, otherwise_form, own_ranges, selector,
};
pub use loops::{
    Counted, ForHead, control_named, counted_by, falls_by, for_form, head, is_threatened_in,
    one_more, unless_head_threatens, unless_statement_threatens, unless_value_threatens,
};
pub use members::{MemberHead, for_in_form, member_head, unless_member_threatens};
pub use numbering::{behind_arm, behind_arms, behind_statement, behind_then};
pub use outcome::{Admission, CheckRefusal, item_at, refused_at};
pub use records::{Opened, RecordNamed, named_record, unless_places_threaten, with_form};
pub use statements::{
    FunctionResult, Locals, Row, assigned, call_arguments, component_rule, compound_form, if_form,
    repeat_form, tested, while_form,
};
pub use tags::{Reached, assignment, assigns_tag};
pub use targets::{Receiver, Target, denoted, named_target};
pub use writing::{identifier, write_to};
