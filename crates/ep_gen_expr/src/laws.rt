//! The laws of code.

ghost use Rattle.ep_gen_expr.specs.Following.{PlacesAreFollowed, ExpressionsAreFollowed};
ghost use Rattle.ep_gen_expr.specs.Laws.{PlaceCodeStays, ExprCodeStays, PlaceCodeIsShort, ExprCodeIsShort};

/// Does nothing: its contract states what holds of the code of every expression and place. It stays code when the
/// tables grow, and has at most 32 instructions for each typed node.
pub fn laws_of_code()
    ensures place_stays { PlaceCodeStays }
    ensures expr_stays { ExprCodeStays }
    ensures place_short { PlaceCodeIsShort }
    ensures expr_short { ExprCodeIsShort }
{}

/// Does nothing: its contract states that wherever the code of an expression or of a place stands in an image, the
/// machine follows its meaning through the code and leaves the value or the place on top, up to each number of steps
/// with which the routines that are declared keep their promises.
pub fn laws_of_following()
    ensures places { PlacesAreFollowed }
    ensures expressions { ExpressionsAreFollowed }
{}
