//! What a machine begins with.

ghost use Rattle.std.specs.Prelude.{◌≡◌, List, [], map, take, IfOk};
ghost use Rattle.ep_machine.specs.Views.{state_at};
ghost use Rattle.ep_memory.specs.Stores.{live};
ghost use Rattle.ep_object.specs.declared.code.Image.{Image};
ghost use Rattle.ep_object.specs.State.{first_live, first_state, empty_slots, first_types, first_segments, integer_entry, char_entry, boolean_entry, text_entry, pointer_entry, plain};

use crate::state::{Configuration, Environment};
use ep_base::List;
use ep_frames::{Calls, Stack};
use ep_memory::{Memory, UNDEFINED};
use ep_object::{ImageUnit, Place, TEXT_TYPE, TypeEntry, TypeKind};
use ep_rows::TypeTable;
use std::alloc::{AllocError, Global};

/// The slots of the frames of all units, which hold no place yet.
fn frames(alloc: Global, units: &[ImageUnit]) -> Result<Vec<List<Option<Place>>>, AllocError>
    ensures { IfOk result (λ v. v.items ≡ map empty_slots units.now) }
{
    let mut frames = Vec::new(alloc);
    for unit in units {
        let slots = List::from_vec(vec![in alloc; None; unit.slots as usize]?);
        frames.push(slots)?;
    }
    Ok(frames)
}

fn entry(kind: TypeKind) -> TypeEntry
    ensures { result ≡ plain kind 1 }
{
    TypeEntry {
        kind,
        size: 1,
        start: None,
        bare: None,
    }
}

/// The types from the start.
fn types(alloc: Global) -> Result<TypeTable, AllocError>
    ensures { IfOk result (λ types. types ≡ first_types) }
{
    let mut types = TypeTable::new(alloc);
    types.add(entry(TypeKind::Ord(-i64::MAX, i64::MAX)))?;
    types.add(entry(TypeKind::Ord(0, 255)))?;
    types.add(entry(TypeKind::Ord(0, 1)))?;
    types.add(entry(TypeKind::Text))?;
    types.add(entry(TypeKind::Pointer))?;
    Ok(types)
}

/// The segments from the start, which are `input` and `output`.
fn store(alloc: Global) -> Result<Memory, AllocError>
    ensures { IfOk result (λ m. (m.segments ≡ first_segments) × (live m ≡ first_live)) }
{
    let mut store = Memory::new(alloc);
    let input = store.make(TEXT_TYPE, &[UNDEFINED]);
    let output = store.make(TEXT_TYPE, &[UNDEFINED]);
    match (input, output) {
        (Ok(_), Ok(_)) => Ok(store),
        _ => Err(AllocError),
    }
}

/// The state before the first start.
pub fn state(alloc: Global, units: &[ImageUnit]) -> Result<Configuration, AllocError>
    ensures state { (image : Image) → image.units ≡ units.now
        → IfOk result (λ c. state_at c [] ≡ first_state image) }
    ensures ticks { IfOk result (λ c. c.ticks ≡ 0) }
    ensures calls { IfOk result (λ c. c.environment.calls ≡ []) }
{
    let units = frames(alloc, units)?;
    let types = types(alloc)?;
    let store = store(alloc)?;
    let environment = Environment {
        turn: 0,
        routine: 0,
        unit: 0,
        units,
        calls: Calls::new(alloc),
        types,
        store,
    };
    Ok(Configuration {
        place: 0,
        ticks: 0,
        stack: Stack::new(alloc),
        environment,
        alloc,
    })
}
