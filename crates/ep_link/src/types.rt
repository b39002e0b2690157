//! The constant types of an object, as they stand in the image.

ghost use Rattle.std.specs.Prelude.{◌≡◌, ◌++◌, map, IfOk, OnOk};
ghost use Rattle.ep_object.specs.Placing.{moved_type, placed_type};

use crate::span::Span;
use ep_base::{List, NoMemory};
use ep_object::{ConstantType, ConstantTypes, Numbers};
use std::alloc::Global;

/// Appends constant types of an object.
#[tactic(auto, using(crate::proofs::Appended::appended))]
pub fn append_types(
    alloc: Global,
    image: &mut ConstantTypes,
    span: &Span,
    types: &[ConstantType],
) -> Result<(), NoMemory>
    ensures { OnOk result (image.new ≡ image.old ++ map (placed_type span.now) types.now) }
{
    for constant_type in types {
        image.push(placed_type(alloc, span, constant_type)?)?;
    }
    Ok(())
}

/// A constant type as it stands in the image.
fn placed_type(
    alloc: Global,
    span: &Span,
    constant_type: &ConstantType,
) -> Result<ConstantType, NoMemory>
    ensures { IfOk result (λ placed. placed ≡ placed_type span.now constant_type.now) }
{
    let placed = match constant_type {
        ConstantType::Ord(lo, hi) => ConstantType::Ord(*lo, *hi),
        ConstantType::Set(lo, hi) => ConstantType::Set(*lo, *hi),
        ConstantType::Str(capacity) => ConstantType::Str(*capacity),
        ConstantType::Arr {
            fixed,
            lo,
            hi,
            component,
        } => ConstantType::Arr {
            fixed: *fixed,
            lo: *lo,
            hi: *hi,
            component: span.moved_type(*component),
        },
        ConstantType::Rec(components) => {
            ConstantType::Rec(moved_types(alloc, span, components.items())?)
        }
        ConstantType::Init(number, words) => ConstantType::Init(
            span.moved_type(*number),
            List::from_slice(alloc, words.items())?,
        ),
    };
    Ok(placed)
}

/// Numbers of types as they are in the image.
#[tactic(auto, using(crate::proofs::Appended::mapped))]
fn moved_types(alloc: Global, span: &Span, numbers: &[u32]) -> Result<Numbers, NoMemory>
    ensures { IfOk result (λ moved. moved ≡ map (moved_type span.now) numbers.now) }
{
    let mut moved = List::new(alloc);
    for number in numbers {
        moved.push(span.moved_type(*number))?;
    }
    Ok(moved)
}
