//! The numbers of texts and references in the tables of the code: each text is there once, and so is each reference.
//!
//! A number of an instruction's field has 32 bits, and the greatest is that of what is missing, so a table
//! has fewer than 2 ^ 32 entries. A table that would grow further is a want of memory: no caller could promise
//! more than that it has not come so far.

ghost use Rattle.std.specs.Prelude.{◌≡◌, IfOk};
ghost use Rattle.ep_gen_expr.specs.Growth.{NumbersText, NumbersReference};
ghost use Rattle.ep_gen_code.specs.Instructions.{reference};

use ep_base::{Name, NoMemory};
use ep_gen_code::{Code, field_number};
use std::alloc::Global;

/// The number of a text in the table of texts, where it is put if it is not there yet.
#[tactic(auto, using(crate::proofs::Forms::numbers))]
pub fn text_number(alloc: Global, bytes: &[u8], code: &mut Code) -> Result<u32, NoMemory>
    ensures { IfOk result (λ k. NumbersText code.old code.new bytes.now k) }
{
    match code.texts.find(bytes) {
        Some(place) => field_number(place),
        None => {
            let number = field_number(code.texts.count())?;
            code.texts.push(alloc, bytes)?;
            Ok(number)
        }
    }
}

/// The number of a reference in the table of references, where it is put if it is not there yet.
#[tactic(auto, using(crate::proofs::Forms::numbers))]
pub fn reference_number(
    alloc: Global,
    unit: &Name,
    number: u32,
    code: &mut Code,
) -> Result<u32, NoMemory>
    ensures { IfOk result (λ k. NumbersReference code.old code.new (reference unit.now number) k) }
{
    match code.references.find(unit, number) {
        Some(place) => field_number(place),
        None => {
            let place = field_number(code.references.count())?;
            code.references.push(alloc, unit, number)?;
            Ok(place)
        }
    }
}
