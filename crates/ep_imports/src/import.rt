//! One import.

ghost use Rattle.std.specs.Prelude.{◌≡◌, ◌++◌, ◌∷◌, [], ℕ, List, IfOk, OnOk, None, Some, if◌then◌else◌};
ghost use Rattle.std.specs.List.{list_any};
ghost use Rattle.std.specs.Option.{option_copied, option_map};
ghost use Rattle.std.specs.Str.{bytes_eq};
ghost use Rattle.ep_imports.specs.Brought.{brought, brought_as, denoted_as, first_absent};
ghost use Rattle.ep_imports.specs.Brought.{is_listed, listed, own_name, unlisted};
ghost use Rattle.ep_imports.specs.Imports.{AnswersImport, AnswersNone, AnswersOffered};
ghost use Rattle.ep_imports.specs.Parts.{IsFirstDoubled};
ghost use Rattle.ep_imports.specs.Required.{offered_in};

use crate::brought::{Brought, Exporter, ImportRefusal, Imported};
use crate::exports::GivenExports;
use crate::names::Texts;
use crate::offer::{Offer, denoted_of};
use crate::required::RequiredOffer;
use ep_base::{List, Name, NoMemory};
use ep_interface::{Constituent, ImportSpec, Interface, NamePair};
use std::alloc::Global;

/// What an import brings where these headings are given, and the required interfaces (ISO 10206, 6.11.3). It takes
/// time and memory as the headings and the import: for many imports of the same headings make `GivenExports` once.
/// `NoInterface` comes exactly where not exactly one of those given exports the interface, then `NoConstituent`, then
/// `Twice`. A constituent that is listed twice is brought by both names: that it may not be is a rule of its own.
pub fn open_import(
    alloc: Global,
    spec: &ImportSpec,
    given: &[Interface],
) -> Result<Imported, ImportRefusal>
    ensures { AnswersImport spec.now given.now result }
{
    match GivenExports::new(alloc, given) {
        Ok(exports) => exports.open(alloc, spec),
        Err(_) => Err(ImportRefusal::NoMemory),
    }
}

/// Refuses an import whose interface is not exported by exactly one of those given.
pub(crate) fn no_interface(alloc: Global, spec: &ImportSpec) -> Result<Imported, ImportRefusal>
    ensures { AnswersNone spec.now result }
{
    match spec.interface.copy(alloc) {
        Ok(name) => Err(ImportRefusal::NoInterface(name)),
        Err(_) => Err(ImportRefusal::NoMemory),
    }
}

/// What an import of a required interface brings.
pub(crate) fn open_required(
    alloc: Global,
    spec: &ImportSpec,
    required: &RequiredOffer,
) -> Result<Imported, ImportRefusal>
    ensures { AnswersOffered spec.now (offered_in required.now) result }
{
    let exporter = Exporter::Required(required.interface);
    match Offer::new(alloc, exporter, required.constituents.items()) {
        Ok(offer) => open_offer(alloc, spec, &offer),
        Err(_) => Err(ImportRefusal::NoMemory),
    }
}

/// What an import of this interface brings.
pub(crate) fn open_offer(
    alloc: Global,
    spec: &ImportSpec,
    offer: &Offer<'_>,
) -> Result<Imported, ImportRefusal>
    ensures { AnswersOffered spec.now offer.now result }
{
    match first_absent(spec.pairs.items(), offer) {
        None => open_present(alloc, spec, offer),
        Some(name) => match name.copy(alloc) {
            Ok(name) => Err(ImportRefusal::NoConstituent(name)),
            Err(_) => Err(ImportRefusal::NoMemory),
        },
    }
}

/// The first listed constituent that the interface does not have.
fn first_absent<'a>(pairs: &'a [NamePair], offer: &Offer<'_>) -> Option<&'a Name>
    ensures { option_copied result ≡ first_absent offer.now.constituents pairs.now }
{
    for pair in pairs {
        match offer.find(&pair.constituent) {
            Some(_) => {}
            None => return Some(&pair.constituent),
        }
    }
    None
}

/// What an import of this interface brings where all listed constituents are there.
fn open_present(
    alloc: Global,
    spec: &ImportSpec,
    offer: &Offer<'_>,
) -> Result<Imported, ImportRefusal>
    requires { first_absent offer.now.constituents spec.now.pairs ≡ None }
    ensures { AnswersOffered spec.now offer.now result }
{
    match brought(alloc, spec, offer) {
        Ok(names) => unless_doubled(alloc, spec, offer, names),
        Err(_) => Err(ImportRefusal::NoMemory),
    }
}

/// The import that brings these names, where none is doubled.
fn unless_doubled(
    alloc: Global,
    spec: &ImportSpec,
    offer: &Offer<'_>,
    names: List<Brought>,
) -> Result<Imported, ImportRefusal>
    requires present { first_absent offer.now.constituents spec.now.pairs ≡ None }
    requires names { names ≡ brought spec.now offer.now.constituents }
    ensures { AnswersOffered spec.now offer.now result }
{
    let Ok(doubled) = place_doubled(alloc, names.items()) else {
        return Err(ImportRefusal::NoMemory);
    };
    match doubled {
        None => Ok(Imported {
            exporter: offer.exporter(),
            qualified: spec.qualified,
            brought: names,
        }),
        Some(place) => match names.items()[place].here.copy(alloc) {
            Ok(name) => Err(ImportRefusal::Twice(name)),
            Err(_) => Err(ImportRefusal::NoMemory),
        },
    }
}

/// All names that it brings, in order.
fn brought(alloc: Global, spec: &ImportSpec, offer: &Offer<'_>) -> Result<List<Brought>, NoMemory>
    ensures { IfOk result (λ all. all ≡ brought spec.now offer.now.constituents) }
{
    let pairs = spec.pairs.items();
    let listed = listed(alloc, pairs, offer)?;
    with_rest(alloc, spec.only, pairs, offer.constituents(), listed)
}

/// What the listed pairs bring, in the order of the text.
fn listed(alloc: Global, pairs: &[NamePair], offer: &Offer<'_>) -> Result<List<Brought>, NoMemory>
    ensures { IfOk result (λ all. all ≡ listed offer.now.constituents pairs.now) }
{
    let mut all = List::new(alloc);
    for pair in pairs {
        add_pair(alloc, pair, offer, &mut all)?;
    }
    Ok(all)
}

/// What a listed pair brings, behind others.
fn add_pair(
    alloc: Global,
    pair: &NamePair,
    offer: &Offer<'_>,
    all: &mut List<Brought>,
) -> Result<(), NoMemory>
    ensures { OnOk result
        (all.new ≡ all.old ++ brought_as pair.now.here (denoted_as offer.now.constituents pair.now.constituent)) }
{
    match offer.find(&pair.constituent) {
        None => Ok(()),
        Some(denoted) => {
            let here = pair.here.copy(alloc)?;
            all.push(Brought { here, denoted })?;
            Ok(())
        }
    }
}

/// What is listed, and with no `only` the rest behind it.
fn with_rest(
    alloc: Global,
    only: bool,
    pairs: &[NamePair],
    constituents: &[Constituent],
    listed: List<Brought>,
) -> Result<List<Brought>, NoMemory>
    ensures { IfOk result (λ all. all ≡ listed ++ (if only then [] else unlisted pairs.now constituents.now)) }
{
    if only {
        Ok(listed)
    } else {
        with_unlisted(alloc, pairs, constituents, listed)
    }
}

/// What is listed, and then the constituents that are not listed, under their own names.
fn with_unlisted(
    alloc: Global,
    pairs: &[NamePair],
    constituents: &[Constituent],
    listed: List<Brought>,
) -> Result<List<Brought>, NoMemory>
    ensures { IfOk result (λ all. all ≡ listed ++ unlisted pairs.now constituents.now) }
{
    let names = names_listed(alloc, pairs)?;
    let mut all = listed;
    for constituent in constituents {
        add_unlisted(alloc, &names, constituent, &mut all)?;
    }
    Ok(all)
}

/// A constituent under its own name behind others, where it is not among these names.
fn add_unlisted(
    alloc: Global,
    names: &Texts,
    constituent: &Constituent,
    all: &mut List<Brought>,
) -> Result<(), NoMemory>
    ensures { OnOk result (all.new ≡ all.old
        ++ (if list_any (bytes_eq constituent.now.name) names.now then [] else own_name constituent.now ∷ [])) }
{
    let is_listed = names.has(constituent.name.bytes());
    if is_listed {
        Ok(())
    } else {
        let here = constituent.name.copy(alloc)?;
        let denoted = denoted_of(constituent);
        all.push(Brought { here, denoted })?;
        Ok(())
    }
}

/// The names of the constituents that are listed.
fn names_listed(alloc: Global, pairs: &[NamePair]) -> Result<Texts, NoMemory>
    ensures { IfOk result (λ names. (name : List ℕ) → list_any (bytes_eq name) names ≡ is_listed pairs.now name) }
{
    let mut names = Texts::new(alloc);
    for pair in pairs {
        names.add(alloc, pair.constituent.bytes())?;
    }
    Ok(names)
}

/// The place of the first name that stands again behind it.
fn place_doubled(alloc: Global, brought: &[Brought]) -> Result<Option<usize>, NoMemory>
    ensures { IfOk result (λ place. IsFirstDoubled brought.now brought.now place) }
{
    let mut behind = Texts::new(alloc);
    let mut doubled = None;
    for place in (0..brought.len()).rev() {
        let name = brought[place].here.bytes();
        doubled = place_or(behind.has(name), place, doubled);
        behind.add(alloc, name)?;
    }
    Ok(doubled)
}

/// A place, where it is one, or else the other.
fn place_or(is: bool, place: usize, other: Option<usize>) -> Option<usize>
    ensures { result ≡ (if is then Some place else other) }
{
    if is { Some(place) } else { other }
}
