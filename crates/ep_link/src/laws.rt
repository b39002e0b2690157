//! The laws of linking.

ghost use Rattle.ep_link.specs.Laws.{LinkedStand, LinkedAreDistinct, LinkedHasAllUnits, LinkedAlone};

/// Does nothing: its contract states what holds of every image that objects are linked to. Where no two of them have
/// the same name, each stands in it as the unit of its number, and no two units have the same name. There are as many
/// units as objects, each with a routine that starts it, and the image of one object is that of the object alone.
pub fn laws_of_linking()
    ensures stand { LinkedStand }
    ensures distinct { LinkedAreDistinct }
    ensures units { LinkedHasAllUnits }
    ensures alone { LinkedAlone }
{}
