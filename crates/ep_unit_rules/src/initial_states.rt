//! Which constants may be initial states of a type (ISO 10206, 6.6).

ghost use Rattle.std.specs.Prelude.{◌≡◌};
ghost use Rattle.ep_unit_rules.specs.InitialStates.{may_begin};

use ep_scope::{Kind, same_host};

/// Whether a constant of the one kind may be the initial state of a type of the other.
pub fn may_begin(constant: Kind, of: Kind) -> bool
    ensures { result ≡ may_begin constant of }
{
    match (constant, of) {
        (Kind::Ordinal(given), Kind::Ordinal(host)) => same_host(host, given),
        (Kind::Structured(given), Kind::Structured(number)) => given == number,
        (Kind::Set(given), Kind::Set(host)) => same_host(host, given),
        (Kind::EmptySet, Kind::Set(_)) => true,
        _ => false,
    }
}
