//! The fields of record types, which are found by their names.

ghost use Rattle.std.specs.Prelude.{◌≡◌, [], ◌∷◌, ◌++◌, OnOk, OnErr};
ghost use Rattle.ep_scope.specs.Fields.{field_number};

use crate::structure::FieldType;
use ep_base::{List, Name, NoMemory};
use indexmap::IndexMap;
use std::alloc::Global;
use std::marker::Model;

/// The fields of a record type, with its tags and those of its variants, in the order of the text.
pub struct FieldTypes {
    all: List<FieldType>,
    /// For each name the place of the first field that has it.
    places: IndexMap<Vec<u8>, usize>,
}

impl Model for FieldTypes {
    ghost use Rattle.std.specs.Prelude.{List};
    ghost use Rattle.ep_scope.specs.declared.structure.FieldType.{FieldType};
    ghost use Rattle.ep_scope.specs.Fields.{AreFieldPlaces};

    ghost Value = { List FieldType };

    ghost view = { λ f. f.all };

    ghost invariant = { λ f. AreFieldPlaces f.places.entries f.all };
}

impl Drop for FieldTypes {
    fn drop(self) {
        let FieldTypes { all: _, places: _ } = self;
    }
}

impl FieldTypes {
    /// No fields. It takes no memory.
    pub fn new(alloc: Global) -> FieldTypes
        ensures { result ≡ [] }
    {
        FieldTypes {
            all: List::new(alloc),
            places: IndexMap::new(alloc),
        }
    }

    /// All of them, in order. It takes no memory.
    pub fn items(&self) -> &[FieldType]
        ensures { result.now ≡ self.now }
    {
        self.all.items()
    }

    /// Adds a field at the end. Where memory is wanting the fields are as before, and the field is dropped.
    pub fn push(&mut self, alloc: Global, field: FieldType) -> Result<(), NoMemory>
        ensures ok { OnOk result (self.new ≡ self.old ++ field ∷ []) }
        ensures err { OnErr result (self.new ≡ self.old) }
    {
        let place = self.all.items().len();
        let key = Vec::from_slice(alloc, field.name.bytes())?;
        let is_there = self.places.contains_key(field.name.bytes());
        self.places.reserve(1)?;
        self.all.push(field)?;
        if !is_there {
            match self.places.insert(key, place) {
                Ok(_) => {}
                Err(_) => unreachable!(),
            }
        }
        Ok(())
    }
}

/// The place of the field of this name among these, counted from 0. `None` comes exactly where there is none. It takes no
/// memory.
pub fn field_number(fields: &FieldTypes, name: &Name) -> Option<usize>
    ensures { result ≡ field_number fields.now name.now }
{
    match fields.places.get(name.bytes()) {
        None => None,
        Some(place) => Some(*place),
    }
}
