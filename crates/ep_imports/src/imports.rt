//! All imports of a heading or of a block.

ghost use Rattle.std.specs.Prelude.{◌≡◌, ◌++◌, ◌∷◌, [], Some, IfOk, OnOk, Ok, ◌||◌, ◌&&◌, if◌then◌else◌};
ghost use Rattle.ep_imports.specs.Imports.{AnswersImport};
ghost use Rattle.ep_imports.specs.Parts.{AnswersNext, HaveSame, told_of};
ghost use Rattle.ep_imports.specs.Sequences.{AnswersBehind, AnswersImports, any_among, first_shared};
ghost use Rattle.ep_imports.specs.Sequences.{qualified_name, spellings, spellings_of};

use crate::brought::{Brought, ImportRefusal, Imported, RefusedImport};
use crate::exports::GivenExports;
use crate::names::Texts;
use ep_base::{Bytes, List, Name, NoMemory};
use ep_interface::{ImportSpec, Interface};
use std::alloc::Global;

/// What the imports of a heading or of a block bring, in the order of the text, where these headings are given and the
/// required interfaces. The first that is refused is told with its place. An interface may be imported more than once;
/// a name that two imports bring, plainly or as `interface.name`, is refused at the second one, behind the reasons
/// that the import has on its own (ISO 10206, 6.11.3). Time and memory grow as the headings and the imports together.
pub fn open_imports(
    alloc: Global,
    specs: &[ImportSpec],
    given: &[Interface],
) -> Result<List<Imported>, RefusedImport>
    ensures { AnswersImports specs.now given.now result }
{
    match GivenExports::new(alloc, given) {
        Ok(exports) => opened(alloc, specs, &exports),
        Err(_) => Err(RefusedImport {
            place: 0,
            refusal: ImportRefusal::NoMemory,
        }),
    }
}

/// The imports, one behind the other.
fn opened(
    alloc: Global,
    specs: &[ImportSpec],
    given: &GivenExports<'_>,
) -> Result<List<Imported>, RefusedImport>
    ensures { AnswersImports specs.now given.now result }
{
    let mut imports = List::new(alloc);
    let mut spelled = Texts::new(alloc);
    for (place, spec) in specs.iter().enumerate() {
        match open_next(alloc, spec, given, &mut imports, &mut spelled) {
            Ok(()) => {}
            Err(refusal) => return Err(RefusedImport { place, refusal }),
        }
    }
    Ok(imports)
}

/// Opens an import behind others, and keeps it with its spellings.
fn open_next(
    alloc: Global,
    spec: &ImportSpec,
    given: &GivenExports<'_>,
    imports: &mut List<Imported>,
    spelled: &mut Texts,
) -> Result<(), ImportRefusal>
    ensures { AnswersNext spec.now given.now imports.old spelled.old result imports.new spelled.new }
{
    match open_behind(alloc, spec, given, spelled) {
        Ok(imported) => told(keep(alloc, spec, imported, imports, spelled)),
        Err(refusal) => Err(refusal),
    }
}

/// What is told of an import that is kept, or for which memory is wanting.
fn told(kept: Result<(), NoMemory>) -> Result<(), ImportRefusal>
    ensures { result ≡ told_of kept }
{
    match kept {
        Ok(()) => Ok(()),
        Err(_) => Err(ImportRefusal::NoMemory),
    }
}

/// Opens an import behind others, with whose spellings it may share none.
fn open_behind(
    alloc: Global,
    spec: &ImportSpec,
    given: &GivenExports<'_>,
    spelled: &Texts,
) -> Result<Imported, ImportRefusal>
    ensures { AnswersBehind spec.now given.now spelled.now result }
{
    match given.open(alloc, spec) {
        Ok(imported) => unless_shared(alloc, spec, given, imported, spelled),
        Err(refusal) => Err(refusal),
    }
}

/// An import that is opened on its own, where it shares no spelling.
fn unless_shared(
    alloc: Global,
    spec: &ImportSpec,
    given: &GivenExports<'_>,
    imported: Imported,
    spelled: &Texts,
) -> Result<Imported, ImportRefusal>
    requires { AnswersImport spec.now given.now (Ok imported) }
    ensures { AnswersBehind spec.now given.now spelled.now result }
{
    let names = imported.brought.items();
    let Ok(shared) = shared(alloc, &spec.interface, imported.qualified, names, spelled) else {
        return Err(ImportRefusal::NoMemory);
    };
    match shared {
        None => Ok(imported),
        Some(name) => Err(ImportRefusal::Twice(name)),
    }
}

/// Keeps an import with its spellings.
fn keep(
    alloc: Global,
    spec: &ImportSpec,
    imported: Imported,
    imports: &mut List<Imported>,
    spelled: &mut Texts,
) -> Result<(), NoMemory>
    ensures imports { OnOk result (imports.new ≡ imports.old ++ imported ∷ []) }
    ensures spelled { OnOk result (HaveSame spelled.new
        (spelled.old ++ spellings_of spec.now.interface imported.qualified imported.brought)) }
{
    let names = imported.brought.items();
    spell(alloc, &spec.interface, imported.qualified, names, spelled)?;
    imports.push(imported)?;
    Ok(())
}

/// The first of these names of an import that is reached by a spelling which is there.
fn shared(
    alloc: Global,
    interface: &Name,
    qualified: bool,
    brought: &[Brought],
    spelled: &Texts,
) -> Result<Option<Name>, NoMemory>
    ensures { IfOk result (λ name. name ≡ first_shared spelled.now interface.now qualified brought.now) }
{
    for one in brought {
        let there = is_spelled(alloc, interface, qualified, &one.here, spelled)?;
        if there {
            return named(alloc, &one.here);
        }
    }
    Ok(None)
}

/// An equal name.
fn named(alloc: Global, name: &Name) -> Result<Option<Name>, NoMemory>
    ensures { IfOk result (λ o. o ≡ Some name.now) }
{
    let name = name.copy(alloc)?;
    Ok(Some(name))
}

/// Whether a spelling of a name is there.
fn is_spelled(
    alloc: Global,
    interface: &Name,
    qualified: bool,
    name: &Name,
    spelled: &Texts,
) -> Result<bool, NoMemory>
    ensures { IfOk result (λ there. there ≡ any_among (spellings interface.now qualified name.now) spelled.now) }
{
    let long = qualified_name(alloc, interface, name)?;
    Ok(is_either(
        spelled.has(long.items()),
        !qualified,
        spelled.has(name.bytes()),
    ))
}

/// Whether a name is spelled in one way, or else may be spelled in a second one and is.
fn is_either(first: bool, may: bool, second: bool) -> bool
    ensures { result ≡ (first || may && second) }
{
    first || (may && second)
}

/// The spellings of these names of an import more.
fn spell(
    alloc: Global,
    interface: &Name,
    qualified: bool,
    brought: &[Brought],
    spelled: &mut Texts,
) -> Result<(), NoMemory>
    ensures { OnOk result (HaveSame spelled.new (spelled.old ++ spellings_of interface.now qualified brought.now)) }
{
    for one in brought {
        spell_name(alloc, interface, qualified, &one.here, spelled)?;
    }
    Ok(())
}

/// The spellings of a name more.
fn spell_name(
    alloc: Global,
    interface: &Name,
    qualified: bool,
    name: &Name,
    spelled: &mut Texts,
) -> Result<(), NoMemory>
    ensures { OnOk result (HaveSame spelled.new (spelled.old ++ spellings interface.now qualified name.now)) }
{
    let long = qualified_name(alloc, interface, name)?;
    spelled.add(alloc, long.items())?;
    spell_plainly(alloc, qualified, name, spelled)?;
    Ok(())
}

/// The plain spelling of a name more, where it is not qualified.
fn spell_plainly(
    alloc: Global,
    qualified: bool,
    name: &Name,
    spelled: &mut Texts,
) -> Result<(), NoMemory>
    ensures { OnOk result (HaveSame spelled.new (spelled.old ++ (if qualified then [] else name.now ∷ []))) }
{
    if qualified {
        Ok(())
    } else {
        spelled.add(alloc, name.bytes())?;
        Ok(())
    }
}

/// `interface.name`
fn qualified_name(alloc: Global, interface: &Name, name: &Name) -> Result<Bytes, NoMemory>
    ensures { IfOk result (λ text. text ≡ qualified_name interface.now name.now) }
{
    let mut text = Vec::from_slice(alloc, interface.bytes())?;
    text.push(b'.')?;
    text.extend_from_slice(name.bytes())?;
    Ok(List::from_vec(text))
}
