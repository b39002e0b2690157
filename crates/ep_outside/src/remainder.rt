//! What is left of some bytes.

ghost use Rattle.std.specs.Prelude.{◌≡◌, ◌<◌, ◌≤◌, ℕ, List, [], ◌++◌, length, take, drop};

use ep_base::Bytes;

/// Bytes of which a front was taken.
#[derive(Drop)]
pub struct Remainder {
    held: Bytes,
    place: usize,
    ghost within: { place ≤ length held },
}

impl Remainder {
    ghost use Rattle.ep_outside.specs.Remainders.{bytes_left};

    /// Nothing of these bytes was taken. It takes no memory.
    pub fn new(held: Bytes) -> Remainder
        ensures { bytes_left result ≡ held }
    {
        Remainder { held, place: 0 }
    }

    /// Puts the next bytes in front of the buffer, as many as there are and fit, and tells how many.
    pub fn take(&mut self, into: &mut [u8]) -> usize
        ensures fits { result ≤ length into.old }
        ensures taken { bytes_left self.old ≡ take result into.new ++ bytes_left self.new }
        ensures end { result ≡ 0 → 0 < length into.old → bytes_left self.new ≡ [] }
    {
        let rest = &self.held.items()[self.place..];
        let count = rest.len().min(into.len());
        into[..count].copy_from_slice(&rest[..count]);
        self.place += count;
        count
    }
}
