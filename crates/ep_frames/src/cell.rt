//! What stands on the operand stack for an operand.

ghost use Rattle.std.specs.Prelude.{◌≡◌, ◌∷◌, []};
ghost use Rattle.ep_frames.specs.Stacks.{cell_weights};

use ep_object::Place;

/// An operand. Of a text and of a value of many words only the length stands here, and its bytes or words stand on a
/// stack of their own, as the sets do, so that every cell is small and none owns memory.
#[derive(Clone, Copy, Drop)]
pub enum Cell {
    /// A word.
    Word(i64),
    /// A place.
    Place(Place),
    /// A text of so many bytes.
    Text(usize),
    /// A value of the type of this number, of so many words.
    Value(u32, u32),
    /// A set.
    Set,
}

impl Cell {
    /// How many bytes its text or words its value has.
    pub fn weight(&self) -> u64
        ensures { result ≡ cell_weights (self.now ∷ []) }
    {
        match self {
            Cell::Text(bytes) => *bytes as u64,
            Cell::Value(_, words) => u64::from(*words),
            Cell::Word(_) | Cell::Place(_) | Cell::Set => 0,
        }
    }
}
