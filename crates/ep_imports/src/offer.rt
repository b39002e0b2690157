//! An interface that is given, whose constituents are found by their names.

ghost use Rattle.std.specs.Prelude.{◌≡◌, ℕ, List, IfOk};
ghost use Rattle.ep_imports.specs.Brought.{denoted_as, denoted_of};
ghost use Rattle.ep_imports.specs.Found.{found};
ghost use Rattle.ep_imports.specs.Tables.{is_heading};

use crate::brought::{Denoted, Exporter};
use crate::names::Named;
use ep_base::{Name, NoMemory};
use ep_interface::Constituent;
use std::alloc::Global;
use std::marker::Model;

/// An interface, and what exports it.
pub(crate) struct Offer<'a> {
    exporter: Exporter,
    constituents: &'a [Constituent],
    /// What they denote, by their names.
    denoted: Named<Denoted>,
}

impl<'a> Model for Offer<'a> {
    ghost use Rattle.std.specs.Prelude.{List, ℕ, ◌≡◌};
    ghost use Rattle.ep_imports.specs.Brought.{denoted_as};
    ghost use Rattle.ep_imports.specs.Found.{found};
    ghost use Rattle.ep_imports.specs.Offers.{Offered};

    ghost Value = { Offered };

    ghost view = { λ o. record { exporter = o.exporter; constituents = o.constituents.now } };

    ghost invariant = { λ o. (name : List ℕ) → found o.denoted name ≡ denoted_as o.constituents.now name };
}

impl Drop for Offer<'_> {
    fn drop(self) {
        let Offer {
            exporter: _,
            constituents: _,
            denoted: _,
        } = self;
    }
}

impl<'a> Offer<'a> {
    /// The interface of these constituents.
    pub(crate) fn new(
        alloc: Global,
        exporter: Exporter,
        constituents: &'a [Constituent],
    ) -> Result<Offer<'a>, NoMemory>
        ensures { IfOk result (λ o. o ≡ record { exporter = exporter; constituents = constituents.now }) }
    {
        let denoted = by_names(alloc, constituents)?;
        Ok(Offer {
            exporter,
            constituents,
            denoted,
        })
    }

    /// What exports it.
    pub(crate) fn exporter(&self) -> Exporter
        ensures { result ≡ self.now.exporter }
    {
        self.exporter
    }

    /// Whether the heading at this place exports it.
    pub(crate) fn is_of(&self, place: usize) -> bool
        ensures { result ≡ is_heading self.now.exporter place }
    {
        match self.exporter {
            Exporter::Heading(other) => other == place,
            Exporter::Required(_) => false,
        }
    }

    /// Its constituents, in order.
    pub(crate) fn constituents(&self) -> &'a [Constituent]
        ensures { result.now ≡ self.now.constituents }
    {
        self.constituents
    }

    /// What the first constituent of this name denotes.
    pub(crate) fn find(&self, name: &Name) -> Option<Denoted>
        ensures { result ≡ denoted_as self.now.constituents name.now }
    {
        match self.denoted.find(name.bytes()) {
            None => None,
            Some(denoted) => Some(*denoted),
        }
    }
}

/// What a constituent denotes.
pub(crate) fn denoted_of(constituent: &Constituent) -> Denoted
    ensures { result ≡ denoted_of constituent.now }
{
    Denoted {
        kind: constituent.kind,
        index: constituent.index,
        protected: constituent.protected,
    }
}

/// What constituents denote, by their names; of a name that stands twice the first one.
fn by_names(alloc: Global, constituents: &[Constituent]) -> Result<Named<Denoted>, NoMemory>
    ensures { IfOk result (λ named. (name : List ℕ) → found named name ≡ denoted_as constituents.now name) }
{
    let mut denoted = Named::new(alloc);
    for constituent in constituents {
        denoted.add_first(alloc, constituent.name.bytes(), denoted_of(constituent))?;
    }
    Ok(denoted)
}
