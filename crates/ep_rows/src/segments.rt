//! Segments that end, and those that do not live.

ghost use Rattle.std.specs.Prelude.{◌≡◌, ◌-◌, slice_get};
ghost use Rattle.ep_memory.specs.Stores.{live};
ghost use Rattle.ep_object.specs.Calls.{ended, words_of};
ghost use Rattle.ep_rows.specs.Segments.{gone_of};

use crate::step::Step;
use ep_memory::Memory;
use ep_values::run_error;

/// How a row ends on a segment that does not live: by an error where it has ended.
#[inline(always)]
pub fn gone(segment: u64, memory: &Memory) -> Step
    ensures { result ≡ gone_of (slice_get memory.now.segments segment) }
{
    if segment > memory.made() {
        Step::Broken
    } else {
        Step::Error(run_error::DISPOSED)
    }
}

/// These segments end.
pub fn end(made: &[u64], memory: &mut Memory)
    ensures segments { memory.new.segments ≡ ended made.now memory.old.segments }
    ensures live { live memory.new ≡ live memory.old - words_of made.now memory.old.segments }
{
    for number in made {
        memory.release(*number);
    }
}
