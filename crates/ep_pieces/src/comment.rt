//! What stands between two tokens.

ghost use Rattle.std.specs.Prelude.{◌≡◌, ◌<◌, ◌≤◌, ℕ, false, length, IfSome, None};
ghost use Rattle.ep_token.specs.Reading.{comment_end};
ghost use Rattle.ep_token.specs.Tokens.{IsTaken};
ghost use Rattle.ep_pieces.specs.Pieces.{begins_mark, opener_length};

/// The number of bytes of the separating byte or comment at the front.
pub(crate) fn blank_len(bytes: &[u8]) -> usize
    requires some { 0 < length bytes.now }
    requires blank { (n : ℕ) × IsTaken bytes.now n None }
    ensures { IsTaken bytes.now result None }
{
    if !begins_mark(bytes[0]) {
        return 1;
    }
    let opener = opener_len(bytes);
    match comment_end(&bytes[opener..]) {
        Some(end) => opener + end,
        None => unreachable!(),
    }
}

/// Whether a mark that opens a comment begins with a byte.
fn begins_mark(byte: u8) -> bool
    ensures { result ≡ begins_mark byte }
{
    byte == b'{' || byte == b'('
}

/// How many bytes the mark has that opens the comment at the front.
pub(crate) fn opener_len(bytes: &[u8]) -> usize
    requires { 0 < length bytes.now }
    ensures { result ≡ opener_length bytes.now }
{
    if bytes[0] == b'{' { 1 } else { 2 }
}

/// The end of the comment whose opening mark stands before the bytes. The closing mark may be of either form.
#[tactic(auto, using(crate::proofs::Comments::walk))]
fn comment_end(text: &[u8]) -> Option<usize>
    ensures end { result ≡ comment_end false 0 text.now }
    ensures within { IfSome result (λ end. end ≤ length text.now) }
{
    let mut after_star = false;
    for (i, byte) in text.iter().enumerate() {
        if *byte == b'}' || (*byte == b')' && after_star) {
            return Some(i + 1);
        }
        after_star = *byte == b'*';
    }
    None
}
