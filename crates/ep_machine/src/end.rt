//! How a run ends.

ghost use Rattle.std.specs.Prelude.{◌≡◌, IsTrue, is_some};
ghost use Rattle.ep_decode.specs.Decoding.{op_at};
ghost use Rattle.ep_machine.specs.Turns.{error_end, is_named};

use ep_base::{Line, Name};
use ep_object::Image;

/// How a run ended, or why it stopped.
#[derive(Drop)]
pub enum End {
    /// By itself.
    Normal,
    /// By halt.
    Halt,
    /// By an error.
    Error {
        /// Its number.
        number: u8,
        /// The unit in which it came.
        unit: Name,
        /// The line at which it came.
        line: Line,
    },
    /// The budget is spent, and a further run goes on.
    Budget,
    /// The code is broken.
    Broken {
        /// The place of the instruction.
        pc: u32,
    },
    /// A read of the input failed.
    ReadFault,
    /// A write to the output failed.
    WriteFault,
    /// A call of the files failed.
    FileFault,
    /// Memory is wanting.
    NoMemory,
}

/// The same, with the number of the unit in place of its name.
#[derive(Clone, Copy, Drop)]
pub enum Ended {
    /// By itself.
    Normal,
    /// By halt.
    Halt,
    /// By an error with a number, in a unit, at a line.
    Error(u8, u32, u32),
    /// The budget is spent.
    Budget,
    /// The code is broken at a place.
    Broken(u32),
    /// A write failed.
    WriteFault,
    /// Memory is wanting.
    NoMemory,
}

impl Ended {
    /// The end by an error of the instruction at a place, while a routine runs.
    #[cold]
    #[inline(never)]
    pub fn error(image: &Image, routine: u32, place: u32, number: u8) -> Ended
        requires named { IsTrue (is_named image.now routine) }
        requires there { IsTrue (is_some (op_at image.now place)) }
        ensures { result ≡ error_end image.now routine place number }
    {
        let Some(routine) = image.routines.items().get(routine as usize) else {
            unreachable!()
        };
        let Some(instr) = image.instructions.items().get(place as usize) else {
            unreachable!()
        };
        Ended::Error(number, routine.unit, instr.line)
    }
}
