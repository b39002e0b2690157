//! How many levels a text takes: where the grammar derives a list of components, it does so with just as many levels
//! as the deepest of its components nests.
//!
//! specs/Levels.antt states this law, which the contract of `laws_of_levels` names, and `nests_within` tests it of a
//! list. The crate stands on ep_grammar, whose derivations it counts, on ep_tree, whose `nesting` they are held
//! against, and on ep_token and ep_base for the texts. No parser stands on it, so that its proofs cost none of them.
//!
//! Open specs/Levels.antt first. proofs/Depth.antt counts the levels that a derivation takes, the files named for a
//! part of the grammar show for each production that these are as many as its node nests, and proofs/Knot.antt
//! concludes.
#![tactic(auto)]

ghost use Rattle.std.specs.Prelude.{◌≡◌, ◌<◌, ◌↔◌, ℕ, List, IsTrue};
ghost use Rattle.ep_token.specs.declared.token.Token.{Token};
ghost use Rattle.ep_grammar.specs.Rules.{Grammar};
ghost use Rattle.ep_levels.specs.Levels.{LevelsAreNesting};

use ep_tree::{Component, nesting};

/// Does nothing: its contract states, of every text, with which numbers of levels the grammar derives it.
pub fn laws_of_levels()
    ensures { LevelsAreNesting }
{}

/// Whether components that have a text have it with this number of levels too. It takes no memory. With the greatest
/// `u32` the answer is yes, since the nesting is counted to that number.
pub fn nests_within(components: &[Component], levels: u32) -> bool
    ensures exact { levels < u32.MAX →
        (ts : List Token) (m : ℕ) → Grammar m ts components.now →
        (IsTrue result ↔ Grammar levels ts components.now) }
    ensures greatest { levels ≡ u32.MAX → IsTrue result }
{
    components
        .iter()
        .all(|component| nesting(component) <= levels)
}
