//! The kinds of values that the static rules tell apart.

ghost use Rattle.std.specs.Prelude.{◌≡◌};
ghost use Rattle.ep_scope.specs.Kinds.{same_host};

/// The host type of an ordinal type (ISO 10206, 6.4.2.4).
#[derive(Clone, Copy, Drop)]
pub enum Host {
    /// `integer`
    Integer,
    /// `char`
    Char,
    /// `Boolean`
    Boolean,
    /// An enumerated type (ISO 10206, 6.4.2.3).
    Enumeration(Enumeration),
}

/// An enumerated type, which is no other one with the same constants (ISO 10206, 6.4.2.3).
#[derive(Clone, Copy, Drop)]
pub struct Enumeration {
    /// Its number among the types of the unit.
    pub number: u32,
    /// The ordinal number of its last constant.
    pub last: u32,
}

/// What the static rules see of a value's type.
#[derive(Clone, Copy, Drop)]
pub enum Kind {
    /// An ordinal type with this host.
    Ordinal(Host),
    /// The structured type of this number among the types of the unit, an array or a record (ISO 10206, 6.4.3.1).
    Structured(u32),
    /// A set type over this host (ISO 10206, 6.4.3.5).
    Set(Host),
    /// That of the empty set, which is a value of every set type (ISO 10206, 6.8.7.4).
    EmptySet,
    /// A string type but `char` (ISO 10206, 6.4.3.3).
    Text,
    /// The type of text files (ISO 10206, 6.4.3.6).
    File,
}

/// Whether two hosts are the same type.
pub fn same_host(left: Host, right: Host) -> bool
    ensures { result ≡ same_host left right }
{
    match (left, right) {
        (Host::Integer, Host::Integer) => true,
        (Host::Char, Host::Char) => true,
        (Host::Boolean, Host::Boolean) => true,
        (Host::Enumeration(x), Host::Enumeration(y)) => x.number == y.number && x.last == y.last,
        _ => false,
    }
}
