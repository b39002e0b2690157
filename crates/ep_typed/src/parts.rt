//! The statements that stand right in a statement, as specs/Parts.antt says. The walks over statements go by them.

ghost use Rattle.std.specs.Prelude.{◌≡◌, []};
ghost use Rattle.ep_typed.specs.Parts as spec;

use crate::tree::{CaseArm, TypedStmt};
use std::slice;

/// The statements right in a statement, in the order of the text.
#[derive(Clone, Copy, Drop)]
pub(crate) struct Parts<'a> {
    /// Those before any arms.
    pub(crate) first: &'a [TypedStmt],
    /// The arms of a `case`.
    pub(crate) arms: &'a [CaseArm],
    /// Those behind arms, or the second one of an `if`.
    pub(crate) last: &'a [TypedStmt],
}

/// The parts of a statement.
pub(crate) fn parts_of(s: &TypedStmt) -> Parts<'_>
    ensures first { result.first.now ≡ (spec.parts_of s.now).first }
    ensures arms { result.arms.now ≡ (spec.parts_of s.now).arms }
    ensures last { result.last.now ≡ (spec.parts_of s.now).last }
{
    match s {
        TypedStmt::Compound(all) | TypedStmt::Repeat(_, all, _) => front(all.items()),
        TypedStmt::If(_, _, then_part, else_part) => Parts {
            first: slice::from_ref(then_part.get()),
            arms: &[],
            last: slice::from_ref(else_part.get()),
        },
        TypedStmt::While(_, _, body)
        | TypedStmt::For(_, _, _, _, body)
        | TypedStmt::ForIn(_, _, _, body)
        | TypedStmt::With(_, _, body) => front(slice::from_ref(body.get())),
        TypedStmt::Case(_, _, arms, other) => Parts {
            first: &[],
            arms: arms.items(),
            last: match other {
                None => &[],
                Some(all) => all.items(),
            },
        },
        TypedStmt::Empty
        | TypedStmt::Assign(_, _, _)
        | TypedStmt::AssignTag(_, _, _, _, _)
        | TypedStmt::Procedure(_, _, _)
        | TypedStmt::Halt(_)
        | TypedStmt::Write(_, _, _) => front(&[]),
    }
}

fn front(first: &[TypedStmt]) -> Parts<'_>
    ensures first { result.first.now ≡ first.now }
    ensures arms { result.arms.now ≡ [] }
    ensures last { result.last.now ≡ [] }
{
    Parts {
        first,
        arms: &[],
        last: &[],
    }
}
