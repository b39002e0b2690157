//! The required interfaces, which are always given (ISO 10206, 6.11.4).

ghost use Rattle.std.specs.Prelude.{◌≡◌, IfOk};
ghost use Rattle.std.specs.Option.{option_map};
ghost use Rattle.std.specs.Str.{bytes_eq};
ghost use Rattle.ep_imports.specs.Required.{offered_in};
ghost use Rattle.ep_imports.specs.Offers.{file_of, offered_always, required_of};

use crate::brought::RequiredInterface;
use ep_base::{List, Name, NameRefusal, NoMemory};
use ep_interface::{Constituent, ConstituentKind, Constituents};
use std::alloc::{AllocError, Global};

/// A required interface with its constituents.
pub(crate) struct RequiredOffer {
    /// Which one it is.
    pub(crate) interface: RequiredInterface,
    /// Its one constituent.
    pub(crate) constituents: Constituents,
}

impl Drop for RequiredOffer {
    fn drop(self) {
        let RequiredOffer {
            interface: _,
            constituents: _,
        } = self;
    }
}

/// The one of this name, where there is one.
pub(crate) fn required_of(alloc: Global, name: &Name) -> Result<Option<RequiredOffer>, NoMemory>
    ensures { IfOk result (λ o. option_map offered_in o ≡ required_of name.now) }
{
    if is(name.bytes(), b"standardinput".as_slice()) {
        let input = required_offer(alloc, RequiredInterface::StandardInput)?;
        Ok(Some(input))
    } else if is(name.bytes(), b"standardoutput".as_slice()) {
        let output = required_offer(alloc, RequiredInterface::StandardOutput)?;
        Ok(Some(output))
    } else {
        Ok(None)
    }
}

/// Whether a name is a word.
fn is(name: &[u8], word: &[u8]) -> bool
    ensures { result ≡ bytes_eq name.now word.now }
{
    name == word
}

/// A required interface.
fn required_offer(alloc: Global, interface: RequiredInterface) -> Result<RequiredOffer, NoMemory>
    ensures { IfOk result (λ r. offered_in r ≡ offered_always interface) }
{
    let name = file_name(alloc, interface)?;
    let mut constituents = List::new(alloc);
    constituents.push(Constituent {
        name,
        kind: ConstituentKind::Variable,
        index: 0,
        protected: false,
    })?;
    Ok(RequiredOffer {
        interface,
        constituents,
    })
}

/// The name of its file.
fn file_name(alloc: Global, interface: RequiredInterface) -> Result<Name, NoMemory>
    ensures { IfOk result (λ name. name ≡ file_of interface) }
{
    let bytes = match interface {
        RequiredInterface::StandardInput => b"input".as_slice(),
        RequiredInterface::StandardOutput => b"output".as_slice(),
    };
    match Name::from_bytes(alloc, bytes) {
        Ok(name) => Ok(name),
        Err(NameRefusal::NoMemory) => Err(AllocError),
        Err(_) => unreachable!(),
    }
}
