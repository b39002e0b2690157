//! The row that writes.

ghost use Rattle.std.specs.Prelude.{◌≡◌, ◌<◌, ◌≤◌, ◌+◌, List, [], ◌∷◌, Option, Some, None, MatchOption, IfSome};
ghost use Rattle.ep_object.specs.Effects.{Continues};
ghost use Rattle.ep_object.specs.Operands.{Operand};
ghost use Rattle.ep_object.specs.Texts.{put_of, put_row, written};
ghost use Rattle.ep_outside.specs.Known.{Keeps};
ghost use Rattle.ep_outside.specs.Answers.{Writes, write_faults};
ghost use Rattle.ep_values.specs.Events.{Write};
ghost use Rattle.ep_machine.specs.Outputs.{OnNoMemory, IsRefusal, UnlessDone, IsPut, OnFault, IsOfWriting, IsWriting, text_kind_in};

use crate::step::Outward;
use ep_frames::Stack;
use ep_memory::{Cell, Memory};
use ep_object::{OUTPUT_SEGMENT, Place, TypeEntry, TypeKind};
use ep_outside::{Sink, WriteAnswer};
use ep_rows::control::spend;
use ep_rows::{Step, segments};
use ep_values::run_error;

/// Writes a text, if it is not empty.
#[tactic(auto, using(crate::proofs::Outputs::writing))]
fn write_text<O: Sink>(output: &mut O, text: &[u8]) -> WriteAnswer
    ensures writes { Writes result (O.held output.old) (O.held output.new) text.now }
    ensures faults { O.faults output.old + write_faults result ≤ O.faults output.new }
    ensures event { UnlessDone result (written text.now ≡ Write text.now ∷ []) }
{
    if text.is_empty() {
        return WriteAnswer::Done;
    }
    output.write(text)
}

/// Whether a type is that of text files.
fn is_text(types: &[TypeEntry], type_number: u32) -> Option<bool>
    ensures { result ≡ text_kind_in types.now type_number }
{
    match types.get(type_number as usize) {
        Some(entry) => match &entry.kind {
            TypeKind::Text => Some(true),
            TypeKind::Ord(_, _) => Some(false),
            TypeKind::Pointer => Some(false),
            TypeKind::Array(_, _, _) => Some(false),
            TypeKind::Record(_) => Some(false),
            TypeKind::Set(_, _) => Some(false),
        },
        None => None,
    }
}

/// How the row ends where no text can go to the file at a place.
fn refusal(store: &Memory, p: Place) -> Option<Step>
    ensures refused { IsRefusal store.now.segments p result }
    ensures kind { IfSome result IsOfWriting }
{
    match store.load(p.segment, u64::from(p.offset)) {
        Cell::Gone => Some(segments::gone(p.segment, store)),
        Cell::Outside => Some(Step::Broken),
        Cell::Word(_) if p.segment == OUTPUT_SEGMENT && p.offset == 0 => None,
        Cell::Word(_) => Some(Step::Error(run_error::FILE_STATE)),
    }
}

/// A text goes to a text file.
#[tactic(auto, using(crate::proofs::Outputs::putting))]
pub fn put<O: Sink>(
    types: &[TypeEntry],
    store: &Memory,
    limit: u64,
    ticks: &mut u64,
    stack: &mut Stack,
    output: &mut O,
) -> Outward
    requires { ticks.old < limit }
    ensures within { ticks.new < limit }
    ensures counts { O.faults output.old ≤ O.faults output.new }
    ensures fault { OnFault result (O.faults output.old < O.faults output.new) }
    ensures kind { IsWriting result }
    ensures quiet { OnNoMemory result (Keeps (O.held output.old) (O.held output.new)) }
    ensures done { IsPut limit (put_row types.now store.now.segments stack.old) result ticks.old ticks.new
        stack.old stack.new (O.held output.old) (O.held output.new) }
{
    let Some(p) = stack.place_under_text() else {
        return Outward::Row(Step::Broken);
    };
    let Some(text) = stack.text_top() else {
        return Outward::Row(Step::Broken);
    };
    let Some(true) = is_text(types, p.type_number) else {
        return Outward::Row(Step::Broken);
    };
    if !spend(limit, ticks, text.len() as u64) {
        return Outward::Row(Step::Full);
    }
    if let Some(step) = refusal(store, p) {
        return Outward::Row(step);
    }
    match write_text(output, text) {
        WriteAnswer::Done => {
            stack.pop();
            stack.pop();
            Outward::Row(Step::Next)
        }
        WriteAnswer::Failed => Outward::WriteFault,
        WriteAnswer::NoMemory => Outward::Row(Step::NoMemory),
    }
}
