//! The one owned list that every list type of the project is an alias of.

ghost use Rattle.std.specs.Prelude.{◌≡◌, [], ◌∷◌, ◌++◌, ◌<◌, length, slice_set, IfOk, MatchOption, OnOk, OnErr};

use std::alloc::{AllocError, Global};
use std::marker::Model;

/// The refusal of every call that takes memory and finds none.
pub type NoMemory = AllocError;

/// An owned list of bytes.
pub type Bytes = List<u8>;

/// A `Vec` that contracts see as the list of its items.
#[derive(Debug, Drop)]
pub struct List<T> {
    items: Vec<T>,
}

impl<T> Model for List<T> {
    ghost use Rattle.std.specs.Prelude.{List};
    ghost use Rattle.std.specs.Coded.{coded_list};

    ghost Value = { List T };

    ghost coded = { coded_list T.code };

    ghost view = { λ l. l.items.items };
}

impl<T> List<T> {
    /// An empty list. It takes no memory.
    pub fn new(alloc: Global) -> List<T>
        ensures { result ≡ [] }
    {
        List {
            items: Vec::new(alloc),
        }
    }

    /// The items of a vector, in the memory where they are.
    pub fn from_vec(items: Vec<T>) -> List<T>
        ensures { result ≡ items.items }
    {
        List { items }
    }

    /// All items, in order. It takes no memory.
    pub fn items(&self) -> &[T]
        ensures { result.now ≡ self.now }
    {
        self.items.as_slice()
    }

    /// Takes the last item off, or answers `None` exactly where there is none.
    pub fn pop(&mut self) -> Option<T>
        ensures { MatchOption result ((self.old ≡ []) × (self.new ≡ [])) (λ last. self.old ≡ self.new ++ last ∷ []) }
    {
        self.items.pop()
    }
}

impl<T: Copy> List<T> {
    /// A list of the same items.
    pub fn from_slice(alloc: Global, from: &[T]) -> Result<List<T>, NoMemory>
        ensures { IfOk result (λ l. l ≡ from.now) }
    {
        let items = Vec::from_slice(alloc, from)?;
        Ok(List { items })
    }
}

impl<T: Drop> List<T> {
    /// An empty list with room for so many items.
    pub fn with_room(alloc: Global, room: usize) -> Result<List<T>, NoMemory>
        ensures { IfOk result (λ l. l ≡ []) }
    {
        let items = Vec::with_capacity(alloc, room)?;
        Ok(List { items })
    }

    /// Adds an item at the end. Where memory is wanting the list is as before, and the item is dropped. The first item has room
    /// for itself alone, since most lists of a tree have one item.
    pub fn push(&mut self, item: T) -> Result<(), NoMemory>
        ensures ok { OnOk result (self.new ≡ self.old ++ item ∷ []) }
        ensures err { OnErr result (self.new ≡ self.old) }
    {
        self.room_for_first()?;
        self.items.push(item)?;
        Ok(())
    }

    /// Takes room for one item where there is none: a vector would take room for four.
    fn room_for_first(&mut self) -> Result<(), NoMemory>
        ensures { self.new ≡ self.old }
    {
        if self.items.capacity() == 0 {
            self.items.reserve_exact(1)?;
        }
        Ok(())
    }

    /// Puts an item at a place, counted from 0. It takes no memory.
    pub fn set(&mut self, place: u32, item: T)
        requires { place < length self.old }
        ensures { self.new ≡ slice_set self.old place item }
    {
        self.items[place as usize] = item;
    }
}
