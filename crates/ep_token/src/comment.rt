//! Comments (ISO 10206, 6.1.10).

ghost use Rattle.std.specs.Prelude.{◌≡◌, ◌<◌, ◌≤◌, true, false, length, IfSome};
ghost use Rattle.ep_token.specs.Comments.{opens_comment};
ghost use Rattle.ep_token.specs.Reading.{Gives, comment_at, comment_end};

use crate::piece::Piece;
use crate::refusal::TokenRefusal;
use ep_base::Line;

/// Whether a comment begins at the front.
pub(crate) fn opens_comment(bytes: &[u8]) -> bool
    requires { 0 < length bytes.now }
    ensures { result ≡ opens_comment bytes.now }
{
    bytes[0] == b'{' || (bytes[0] == b'(' && bytes.len() > 1 && bytes[1] == b'*')
}

/// The comment at the front, where `{` or `(*` stands.
#[tactic(auto, unfolding(crate::specs::Reading::comment_at))]
pub(crate) fn comment_at(line: Line, bytes: &[u8]) -> Result<Piece, TokenRefusal>
    requires some { 0 < length bytes.now }
    requires opens { opens_comment bytes.now ≡ true }
    ensures { Gives result (comment_at line bytes.now) }
{
    let opener = if bytes[0] == b'{' { 1 } else { 2 };
    match comment_end(&bytes[opener..]) {
        None => Err(TokenRefusal::OpenComment(line)),
        Some(end) => Ok((opener + end, None)),
    }
}

/// The end of the comment whose opening mark stands before the bytes. The closing mark may be of either form.
#[tactic(auto, using(crate::proofs::Comments::walk))]
fn comment_end(text: &[u8]) -> Option<usize>
    ensures end { result ≡ comment_end false 0 text.now }
    ensures within { IfSome result (λ end. end ≤ length text.now) }
{
    let mut after_star = false;
    for (i, byte) in text.iter().enumerate() {
        if *byte == b'}' || (*byte == b')' && after_star) {
            return Some(i + 1);
        }
        after_star = *byte == b'*';
    }
    None
}
