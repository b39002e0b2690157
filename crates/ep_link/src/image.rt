//! The image of objects that are linked.

ghost use Rattle.std.specs.Prelude.{◌≡◌, ◌<◌, ◌++◌, length, map, All, IfOk, OnOk};
ghost use Rattle.ep_object.specs.Placing.{empty_image, joined, linked};
ghost use Rattle.ep_link.specs.Linking.{in_order};
ghost use Rattle.ep_link.specs.Parts.{object_part, placed_unit, placed_routine};

use crate::instrs::append_instrs;
use crate::placement::{Bases, Placement};
use crate::target::targets_of;
use crate::types::append_types;
use crate::units::{Units, units_of};
use ep_base::{Bytes, List, NoMemory};
use ep_object::{CodeRoutine, Image, ImageRoutine, ImageRoutines, ImageUnit, Object, Texts};
use std::alloc::Global;

/// The image of these objects in this order of their numbers, in which their units are started, the program last.
/// Memory is wanting also where an image has no numbers for all parts: it has at most 4,294,967,295 units, and
/// 4,294,967,288 routines, texts, constant types and instructions each.
pub fn linked_image(alloc: Global, objects: &[Object], order: &[u32]) -> Result<Image, NoMemory>
    requires { All (λ place. place < length objects.now) order.now }
    ensures { IfOk result (λ image. image ≡ linked (in_order objects.now order.now)) }
{
    let units = units_of(alloc, objects, order)?;
    let mut image = empty_image(alloc);
    let mut bases = Bases::first();
    for place in order {
        let object = &objects[*place as usize];
        let placement = bases.placement(object)?;
        append_object(alloc, &mut image, &units, &placement, object)?;
        bases = placement.end()?;
    }
    Ok(image)
}

/// An image without units. It takes no memory.
fn empty_image(alloc: Global) -> Image
    ensures { result ≡ empty_image }
{
    Image {
        units: List::new(alloc),
        routines: List::new(alloc),
        texts: List::new(alloc),
        constant_types: List::new(alloc),
        instructions: List::new(alloc),
    }
}

/// Appends the parts of an object.
fn append_object(
    alloc: Global,
    image: &mut Image,
    units: &Units,
    placement: &Placement,
    object: &Object,
) -> Result<(), NoMemory>
    ensures { OnOk result (image.new ≡ joined image.old (object_part units.now placement.now object.now)) }
{
    let unit = placed_unit(alloc, placement, object)?;
    image.units.push(unit)?;
    append_routines(&mut image.routines, placement, object.routines.items())?;
    append_texts(alloc, &mut image.texts, object.texts.items())?;
    let types = object.constant_types.items();
    append_types(
        alloc,
        &mut image.constant_types,
        &placement.constant_types,
        types,
    )?;
    let targets = targets_of(alloc, units, object.references.items())?;
    let instrs = object.instructions.items();
    append_instrs(
        &mut image.instructions,
        placement,
        targets.as_slice(),
        instrs,
    )
}

/// The unit of an object.
fn placed_unit(alloc: Global, placement: &Placement, object: &Object) -> Result<ImageUnit, NoMemory>
    ensures { IfOk result (λ unit. unit ≡ placed_unit placement.now object.now) }
{
    Ok(ImageUnit {
        name: object.name.copy(alloc)?,
        slots: object.unit_slots,
        start: placement.routines.moved(object.start),
        stop: placement.routines.moved(object.stop),
    })
}

/// Appends routines of an object.
#[tactic(auto, using(crate::proofs::Appended::appended))]
fn append_routines(
    image: &mut ImageRoutines,
    placement: &Placement,
    routines: &[CodeRoutine],
) -> Result<(), NoMemory>
    ensures { OnOk result (image.new ≡ image.old ++ map (placed_routine placement.now) routines.now) }
{
    for routine in routines {
        image.push(placed_routine(placement, *routine))?;
    }
    Ok(())
}

/// A routine as it stands in the image.
fn placed_routine(placement: &Placement, routine: CodeRoutine) -> ImageRoutine
    ensures { result ≡ placed_routine placement.now routine }
{
    ImageRoutine {
        entry: placement.instructions.moved(routine.entry),
        unit: placement.unit,
        arguments: routine.arguments,
        slots: routine.slots,
    }
}

/// Appends copies of texts.
#[tactic(auto, using(crate::proofs::Appended::copied))]
fn append_texts(alloc: Global, image: &mut Texts, texts: &[Bytes]) -> Result<(), NoMemory>
    ensures { OnOk result (image.new ≡ image.old ++ texts.now) }
{
    for text in texts {
        image.push(Bytes::from_slice(alloc, text.items())?)?;
    }
    Ok(())
}
