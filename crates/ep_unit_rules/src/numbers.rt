//! Numbers of what a unit declares.

ghost use Rattle.std.specs.Prelude.{◌≡◌};
ghost use Rattle.ep_unit_rules.specs.Numbers.{AnswersNumber, has_number};

use ep_rules::Refusal;

/// A count as a number of a unit, which has 32 bits.
pub fn number(count: usize) -> Result<u32, Refusal>
    ensures { AnswersNumber count result }
{
    match u32::try_from(count) {
        Ok(number) => Ok(number),
        Err(_) => Err(Refusal::NoMemory),
    }
}

/// Whether a list has a number.
pub fn has_number(number: u32, numbers: &[u32]) -> bool
    ensures { result ≡ has_number number numbers.now }
{
    numbers.contains(&number)
}
