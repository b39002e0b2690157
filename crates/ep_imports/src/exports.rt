//! The headings that are given, whose interfaces are found by their names.

ghost use Rattle.std.specs.Prelude.{◌≡◌, ◌++◌, ◌∷◌, [], None, Some, List, IfOk, OnOk, length, map, is_some};
ghost use Rattle.std.specs.Option.{option_copied, option_map};
ghost use Rattle.ep_interface.specs.declared.interface.ExportEntry.{ExportEntry};
ghost use Rattle.ep_imports.specs.Found.{found};
ghost use Rattle.ep_imports.specs.Imports.{AnswersImport, AnswersSole};
ghost use Rattle.ep_imports.specs.Offers.{Offered, offered_from, required_of, sole};
ghost use Rattle.ep_imports.specs.Required.{offered_in};
ghost use Rattle.ep_imports.specs.Tables.{IsTable, is_heading};

use crate::brought::{Exporter, ImportRefusal, Imported};
use crate::import::{no_interface, open_offer, open_required};
use crate::names::{Named, Texts};
use crate::offer::Offer;
use crate::required::{RequiredOffer, required_of};
use ep_base::NoMemory;
use ep_interface::{ExportEntry, ImportSpec, Interface};
use std::alloc::Global;
use std::marker::Model;

/// The interfaces that headings export, by their names.
struct ExportTable<'a> {
    /// Of each interface the first heading that exports it.
    offers: Named<Offer<'a>>,
    /// The interfaces that two headings export.
    doubled: Texts,
}

impl Drop for ExportTable<'_> {
    fn drop(self) {
        let ExportTable {
            offers: _,
            doubled: _,
        } = self;
    }
}

impl<'a> ExportTable<'a> {
    /// The table of no heading.
    fn new(alloc: Global) -> ExportTable<'a>
        ensures { IsTable result.offers result.doubled [] }
    {
        ExportTable {
            offers: Named::new(alloc),
            doubled: Texts::new(alloc),
        }
    }

    /// One heading more, which stands at this place.
    fn add_heading(
        &mut self,
        alloc: Global,
        place: usize,
        exports: &'a [ExportEntry],
    ) -> Result<(), NoMemory>
        ensures { OnOk result ((rows : List (List ExportEntry)) → length rows ≡ place
            → IsTable self.old.offers self.old.doubled rows
            → IsTable self.new.offers self.new.doubled (rows ++ exports.now ∷ [])) }
    {
        for export in exports {
            self.add_export(alloc, place, export)?;
        }
        Ok(())
    }

    /// One export more of the last heading, which stands at this place.
    fn add_export(
        &mut self,
        alloc: Global,
        place: usize,
        export: &'a ExportEntry,
    ) -> Result<(), NoMemory>
        ensures { OnOk result ((rows : List (List ExportEntry)) (exports : List ExportEntry) → length rows ≡ place
            → IsTable self.old.offers self.old.doubled (rows ++ exports ∷ [])
            → IsTable self.new.offers self.new.doubled (rows ++ (exports ++ export.now ∷ []) ∷ [])) }
    {
        match self.offers.find(export.interface.bytes()) {
            None => self.add_new(alloc, place, export),
            Some(offer) => {
                let is_of = offer.is_of(place);
                self.add_again(alloc, is_of, export)
            }
        }
    }

    /// One export more, of an interface that no heading exports so far.
    fn add_new(
        &mut self,
        alloc: Global,
        place: usize,
        export: &'a ExportEntry,
    ) -> Result<(), NoMemory>
        requires { found self.old.offers export.now.interface ≡ None }
        ensures { OnOk result ((rows : List (List ExportEntry)) (exports : List ExportEntry) → length rows ≡ place
            → IsTable self.old.offers self.old.doubled (rows ++ exports ∷ [])
            → IsTable self.new.offers self.new.doubled (rows ++ (exports ++ export.now ∷ []) ∷ [])) }
    {
        let constituents = export.constituents.items();
        let offer = Offer::new(alloc, Exporter::Heading(place), constituents)?;
        self.offers.add(alloc, export.interface.bytes(), offer)?;
        Ok(())
    }

    /// One export more, of an interface of which is known whether the last heading is the first that exports it.
    fn add_again(
        &mut self,
        alloc: Global,
        is_of: bool,
        export: &ExportEntry,
    ) -> Result<(), NoMemory>
        ensures { OnOk result ((rows : List (List ExportEntry)) (exports : List ExportEntry) (offer : Offered)
            → found self.old.offers export.now.interface ≡ Some offer → is_of ≡ is_heading offer.exporter (length rows)
            → IsTable self.old.offers self.old.doubled (rows ++ exports ∷ [])
            → IsTable self.new.offers self.new.doubled (rows ++ (exports ++ export.now ∷ []) ∷ [])) }
    {
        if is_of {
            Ok(())
        } else {
            self.doubled.add(alloc, export.interface.bytes())?;
            Ok(())
        }
    }

    /// The interface of this name, where exactly one heading exports it.
    fn sole(&self, name: &[u8]) -> Option<&Offer<'a>>
        ensures { (rows : List (List ExportEntry)) → IsTable self.now.offers self.now.doubled rows
            → option_copied result ≡ sole (offered_from 0 rows name.now) }
    {
        let is_doubled = self.doubled.has(name);
        if is_doubled {
            None
        } else {
            self.offers.find(name)
        }
    }

    /// Whether a heading exports the interface of this name.
    fn has(&self, name: &[u8]) -> bool
        ensures { result ≡ is_some (found self.now.offers name.now) }
    {
        self.offers.find(name).is_some()
    }
}

/// Headings that are given to an import, whose interfaces are found without a walk over them.
pub struct GivenExports<'a> {
    headings: &'a [Interface],
    table: ExportTable<'a>,
}

impl<'a> Model for GivenExports<'a> {
    ghost use Rattle.std.specs.Prelude.{List, map};
    ghost use Rattle.ep_interface.specs.declared.interface.Interface.{Interface};
    ghost use Rattle.ep_interface.specs.contracts.interface.Interface as interface;
    ghost use Rattle.std.specs.Coded.{codes};
    ghost use Rattle.ep_imports.specs.Tables.{IsTable};

    ghost Value = { List Interface };

    ghost coded = { Prim.hlevel (codes, interface.the_row.coded) };

    ghost view = { λ g. g.headings.now };

    ghost invariant = { λ g. IsTable g.table.offers g.table.doubled (map (λ i. i.exports) g.headings.now) };
}

impl Drop for GivenExports<'_> {
    fn drop(self) {
        let GivenExports {
            headings: _,
            table: _,
        } = self;
    }
}

impl<'a> GivenExports<'a> {
    /// These headings. It takes time and memory as all that they export.
    pub fn new(alloc: Global, headings: &'a [Interface]) -> Result<GivenExports<'a>, NoMemory>
        ensures { IfOk result (λ given. given ≡ headings.now) }
    {
        let table = table_of(alloc, headings)?;
        Ok(GivenExports { headings, table })
    }

    /// Opens an import, as `open_import` does. It takes time as what the import lists and brings.
    pub fn open(&self, alloc: Global, spec: &ImportSpec) -> Result<Imported, ImportRefusal>
        ensures { AnswersImport spec.now self.now result }
    {
        match required_of(alloc, &spec.interface) {
            Ok(required) => self.open_beside(alloc, spec, required),
            Err(_) => Err(ImportRefusal::NoMemory),
        }
    }

    /// Opens an import, where the required interface of its name is known, if there is one.
    fn open_beside(
        &self,
        alloc: Global,
        spec: &ImportSpec,
        required: Option<RequiredOffer>,
    ) -> Result<Imported, ImportRefusal>
        requires { option_map offered_in required ≡ required_of spec.now.interface }
        ensures { AnswersImport spec.now self.now result }
    {
        match required {
            None => self.open_exported(alloc, spec),
            Some(required) => self.open_unless_exported(alloc, spec, &required),
        }
    }

    /// Opens an import of an interface that is not required.
    fn open_exported(&self, alloc: Global, spec: &ImportSpec) -> Result<Imported, ImportRefusal>
        ensures { AnswersSole spec.now
            (sole (offered_from 0 (map (λ i. i.exports) self.now) spec.now.interface)) result }
    {
        match self.table.sole(spec.interface.bytes()) {
            None => no_interface(alloc, spec),
            Some(offer) => open_offer(alloc, spec, offer),
        }
    }

    /// Opens an import of a required interface, which no heading may export too.
    fn open_unless_exported(
        &self,
        alloc: Global,
        spec: &ImportSpec,
        required: &RequiredOffer,
    ) -> Result<Imported, ImportRefusal>
        ensures { AnswersSole spec.now
            (sole (offered_in required.now ∷ offered_from 0 (map (λ i. i.exports) self.now) spec.now.interface))
            result }
    {
        let is_exported = self.table.has(spec.interface.bytes());
        if is_exported {
            no_interface(alloc, spec)
        } else {
            open_required(alloc, spec, required)
        }
    }
}

/// The table of headings.
fn table_of(alloc: Global, headings: &[Interface]) -> Result<ExportTable<'_>, NoMemory>
    ensures { IfOk result (λ t. IsTable t.offers t.doubled (map (λ i. i.exports) headings.now)) }
{
    let mut table = ExportTable::new(alloc);
    for (place, heading) in headings.iter().enumerate() {
        table.add_heading(alloc, place, heading.exports.items())?;
    }
    Ok(table)
}
