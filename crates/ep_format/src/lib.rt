//! The layout of a source text: the one text that its pieces are written as.
//!
//! `laws_of_layout` promises that the layout of a text has the pieces of the text, so that nothing is lost and nothing
//! comes to it, and that it is a text of the grammar where the text is one. The layout is a function of pieces alone:
//! texts with equal pieces have one layout, and the layout of a layout is the same.
//! The crate stands on ep_pieces, which says what pieces are and where they join, and on ep_marks, which says which
//! tokens start a line and how deep they stand.
//! Open specs/Layout.antt first, then specs/Formatted.antt, which has the law as a whole.
#![tactic(auto)]

ghost use Rattle.ep_format.specs.Formatted.{LayoutIsFormatted};
ghost use Rattle.ep_format.specs.Kinds.{KindsDecide};
ghost use Rattle.ep_format.specs.Layout.{LayoutKeepsPieces, LayoutKnowsTokens, LayoutOnce};

/// Does nothing: its contract states what holds of the layout of every text.
pub fn laws_of_layout()
    ensures tokens { LayoutKnowsTokens }
    ensures pieces { LayoutKeepsPieces }
    ensures once { LayoutOnce }
    ensures kinds { KindsDecide }
    ensures formatted { LayoutIsFormatted }
{}
