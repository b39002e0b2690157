//! Why units cannot be linked.

ghost use Rattle.std.specs.Prelude.{◌≡◌};
ghost use Rattle.ep_linkable.specs.declared.refusal.LinkRefusal.TheVariants.{NoMemory};

use ep_base::{Name, Names};
use std::alloc::AllocError;

/// Why units cannot be linked. The first one that holds is answered.
pub enum LinkRefusal {
    /// None of them is a program.
    NoProgram,
    /// Two of them or more are programs; these are the two least names of programs.
    TwoPrograms(Name, Name),
    /// Two of them have this name, the least such.
    TwoUnits(Name),
    /// An interface of this name is exported twice, the least such.
    TwoInterfaces(Name),
    /// No module exports this interface, which the unit of the second name imports: the least such unit, and the least
    /// such interface of it.
    NoModule(Name, Name),
    /// The exporter's own interface file is another one than the unit of the second name was compiled with: the least
    /// such unit, and the least such interface of it.
    InterfaceDiffers(Name, Name),
    /// Each of these supplies the next, and the last one the first, which has the least name.
    Circle(Names),
    /// Their object files have so many bytes together, or more than can be counted.
    TooLarge(u64),
    /// Memory is wanting.
    NoMemory,
}

impl From<AllocError> for LinkRefusal {
    ghost from_gives = { λ _ e. e ≡ NoMemory };

    fn from(_e: AllocError) -> LinkRefusal {
        LinkRefusal::NoMemory
    }
}

impl Drop for LinkRefusal {
    fn drop(self) {
        match self {
            LinkRefusal::TwoPrograms(_, _) => {}
            LinkRefusal::NoModule(_, _) => {}
            LinkRefusal::InterfaceDiffers(_, _) => {}
            LinkRefusal::TwoUnits(_) => {}
            LinkRefusal::TwoInterfaces(_) => {}
            LinkRefusal::Circle(_) => {}
            LinkRefusal::NoProgram | LinkRefusal::TooLarge(_) | LinkRefusal::NoMemory => {}
        }
    }
}
