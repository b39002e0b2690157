//! The instructions of an object, as they stand in the image.

ghost use Rattle.std.specs.Prelude.{◌≡◌, ◌++◌, map, OnOk};
ghost use Rattle.ep_link.specs.Instrs.{moved_instr, placed_instr};

use crate::placement::Placement;
use crate::span::Span;
use crate::target::{Target, target_at};
use ep_base::NoMemory;
use ep_object::{Instr, Instrs, op};

/// Appends instructions of an object whose references have these targets.
#[tactic(auto, using(crate::proofs::Appended::appended))]
pub fn append_instrs(
    image: &mut Instrs,
    placement: &Placement,
    targets: &[Target],
    instrs: &[Instr],
) -> Result<(), NoMemory>
    ensures { OnOk result (image.new ≡ image.old ++ map (placed_instr placement.now targets.now) instrs.now) }
{
    for instr in instrs {
        image.push(placed_instr(placement, targets, *instr))?;
    }
    Ok(())
}

/// An instruction as it stands in the image.
fn placed_instr(placement: &Placement, targets: &[Target], instr: Instr) -> Instr
    ensures { result ≡ placed_instr placement.now targets.now instr }
{
    match instr.op {
        op::TEXT => moved_instr(&placement.texts, instr),
        op::JUMP | op::JUMP_FALSE => moved_instr(&placement.instructions, instr),
        op::T_CONST => moved_instr(&placement.constant_types, instr),
        op::CALL => Instr {
            a: i64::from(target_at(targets, instr.a).routine),
            ..instr
        },
        // The place of a standard file.
        op::UNIT if instr.a == -1 => instr,
        op::UNIT => {
            let target = target_at(targets, instr.a);
            Instr {
                a: i64::from(target.unit),
                b: target.slot,
                ..instr
            }
        }
        _ => instr,
    }
}

/// An instruction whose first field is a number of the object's own.
fn moved_instr(span: &Span, instr: Instr) -> Instr
    ensures { result ≡ moved_instr span.now instr }
{
    Instr {
        a: span.moved_field(instr.a),
        ..instr
    }
}
