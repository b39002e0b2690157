//! The laws of pieces.

ghost use Rattle.ep_pieces.specs.Joining.{GapsKeepPieces};
ghost use Rattle.ep_pieces.specs.Pieces.{KindsArePieces, OneListOfPieces, TokensArePieces};

/// Does nothing: its contract states what holds of the pieces of every text.
pub fn laws_of_pieces()
    ensures one { OneListOfPieces }
    ensures tokens { TokensArePieces }
    ensures kinds { KindsArePieces }
    ensures gaps { GapsKeepPieces }
{}
