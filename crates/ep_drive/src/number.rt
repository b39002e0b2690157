//! Numbers of decimal digits.

ghost use Rattle.std.specs.Prelude.{◌≡◌};
ghost use Rattle.std.specs.List.{list_all};
ghost use Rattle.std.specs.Char.{is_ascii_digit};
ghost use Rattle.ep_drive.specs.Numbers.{number_of};

/// maxint (ISO 10206, 6.4.2.2)
const MAX_INTEGER: u64 = 9_223_372_036_854_775_807;

/// The number that digits spell, where it is at most maxint.
#[tactic(auto, using(crate::proofs::Numbers::digits))]
pub fn number_of(digits: &[u8]) -> Option<u64>
    ensures { result ≡ number_of digits.now }
{
    let mut number: u64 = 0;
    for digit in digits {
        if number > MAX_INTEGER / 10 {
            return None;
        }
        number = 10 * number + u64::from(digit.saturating_sub(b'0'));
        if number > MAX_INTEGER {
            return None;
        }
    }
    Some(number)
}

/// Whether a text has digits alone.
pub fn all_digits(text: &[u8]) -> bool
    ensures { result ≡ list_all is_ascii_digit text.now }
{
    text.iter().all(|byte| byte.is_ascii_digit())
}
