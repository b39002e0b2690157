//! Looking up a text in a table of spellings.

ghost use Rattle.std.specs.Prelude.{◌≡◌, ◌<◌, length, map, IfSome};
ghost use Rattle.ep_token.specs.Spellings.{place_of};

/// The first place of a text in a table.
pub(crate) fn place_of(table: &[&[u8]], text: &[u8]) -> Option<usize>
    ensures place { result ≡ place_of (map (λ spelling. spelling.now) table.now) text.now }
    ensures within { IfSome result (λ place. place < length table.now) }
{
    for (place, spelling) in table.iter().enumerate() {
        if *spelling == text {
            return Some(place);
        }
    }
    None
}
