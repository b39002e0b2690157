//! The scopes that code sees, with the records that are open there.

ghost use Rattle.std.specs.Prelude.{◌≡◌, IfOk};
ghost use Rattle.std.specs.Option.{option_copied};
ghost use Rattle.ep_scope.specs.Meanings.{meant_by};
ghost use Rattle.ep_scope.specs.Records.{open_of};
ghost use Rattle.ep_scope.specs.Scopes.{depth_in, meant, meant_in, structure_in, within};

use crate::layer::{FieldTable, Layer, field_in, layers_in};
use crate::meaning::{Meaning, meaning_after, meaning_among};
use crate::record::OpenRecord;
use crate::scope::Scope;
use crate::structure::{Composition, structure_among};
use ep_base::{List, Name, NoMemory};
use std::alloc::{AllocError, Global};
use std::marker::Model;

/// The scopes in view, the innermost first, and the records that are open inside of them, in a layer for each `with`.
#[derive(Drop)]
pub struct View<'a> {
    /// The records of the innermost `with`, where there is one.
    open: Option<Layer<'a>>,
    /// Those of the others, the innermost first.
    around: &'a [Layer<'a>],
    scopes: &'a [Scope],
}

impl<'a> Model for View<'a> {
    ghost use Rattle.std.specs.Prelude.{List};
    ghost use Rattle.ep_scope.specs.Layers.{AreLayers, layers_in, records_of};
    ghost use Rattle.ep_scope.specs.Scopes.{Region, within_all};
    ghost use Rattle.std.specs.Coded.{codes};
    ghost use Rattle.ep_typed.specs.contracts.value.Value as value;

    ghost Value = { List Region };

    ghost coded = { Prim.hlevel (codes, value.the_row.coded) };

    ghost view = { λ v. within_all (records_of (layers_in v.open v.around.now)) v.scopes.now };

    ghost invariant = { λ v. AreLayers (layers_in v.open v.around.now) };
}

impl<'a> View<'a> {
    /// These scopes, where no record is open.
    pub fn of(scopes: &'a [Scope]) -> View<'a>
        ensures { result ≡ scopes.now }
    {
        View {
            open: None,
            around: &[],
            scopes,
        }
    }

    /// What is in view before a `with` opens its records.
    pub fn inner(&self, alloc: Global) -> Result<Inner<'a>, NoMemory>
        ensures { IfOk result (λ inner. inner ≡ self.now) }
    {
        Ok(Inner {
            records: List::new(alloc),
            table: FieldTable::new(alloc),
            around: layers_in(alloc, self.open, self.around)?,
            scopes: self.scopes,
        })
    }
}

/// The scopes in view in the statement of a `with`, whose records are open inside of them.
pub struct Inner<'a> {
    /// The records, of which the last one is the innermost.
    records: List<OpenRecord<'a>>,
    /// How their fields are found.
    table: FieldTable,
    /// The records of the `with` statements around, the innermost first.
    around: List<Layer<'a>>,
    scopes: &'a [Scope],
}

impl<'a> Model for Inner<'a> {
    ghost use Rattle.std.specs.Prelude.{List};
    ghost use Rattle.ep_scope.specs.Layers.{AreLayers, IsTable, inside_out, records_of};
    ghost use Rattle.ep_scope.specs.Scopes.{Region, within_all};
    ghost use Rattle.std.specs.Coded.{codes};
    ghost use Rattle.ep_typed.specs.contracts.value.Value as value;

    ghost Value = { List Region };

    ghost coded = { Prim.hlevel (codes, value.the_row.coded) };

    ghost view = { λ v. within_all (inside_out v.records (records_of v.around)) v.scopes.now };

    ghost invariant = { λ v. IsTable v.records v.table × AreLayers v.around };
}

impl<'a> Drop for Inner<'a> {
    fn drop(self) {
        let Inner {
            records: _,
            table: _,
            around: _,
            scopes: _,
        } = self;
    }
}

impl<'a> Inner<'a> {
    /// The same, where this record is open inside of all that are.
    pub fn within(self, alloc: Global, opened: OpenRecord<'a>) -> Result<Inner<'a>, NoMemory>
        ensures { IfOk result (λ inner. inner ≡ within (open_of opened.entry) self.entry) }
    {
        let Inner {
            records,
            table,
            around,
            scopes,
        } = self;
        let mut records = records;
        let table = table.with(alloc, records.items().len(), opened.fields)?;
        records.push(opened)?;
        Ok(Inner {
            records,
            table,
            around,
            scopes,
        })
    }

    /// What code there sees.
    pub fn view(&self) -> View<'_>
        ensures { result ≡ self.now }
    {
        View {
            open: Some(Layer {
                records: self.records.items(),
                table: &self.table,
            }),
            around: self.around.items(),
            scopes: self.scopes,
        }
    }
}

/// How many routines are around code that sees these scopes, of which the last one is around the block of the unit. It takes
/// no memory; an error comes where 32 bits do not hold the number.
pub fn depth_in(view: &View<'_>) -> Result<u32, NoMemory>
    ensures { IfOk result (λ depth. depth ≡ depth_in view.now) }
{
    match u32::try_from(view.scopes.len().saturating_sub(2)) {
        Ok(depth) => Ok(depth),
        Err(_) => Err(AllocError),
    }
}

/// What a name means in these scopes: the field of an open record, or else what the scopes say. It takes no memory.
pub fn meaning_of<'a>(view: &View<'a>, name: &Name) -> Meaning<'a>
    ensures { meant_by result ≡ meant view.now name.now }
{
    match field_in(view.open, view.around, name) {
        Some(field) => Meaning::Field(field),
        None => meaning_among(view.scopes, name),
    }
}

/// What a name means after the name of an interface and a dot. It takes no memory.
pub fn meaning_in<'a>(view: &View<'a>, interface: &Name, name: &Name) -> Meaning<'a>
    ensures { meant_by result ≡ meant_in view.now interface.now name.now }
{
    match field_in(view.open, view.around, interface) {
        Some(_) => Meaning::Nothing,
        None => meaning_after(view.scopes, interface, name),
    }
}

/// What the structured type of this number is made of in these scopes. `None` comes exactly where none of them has it. It
/// takes no memory.
pub fn structure_of<'a>(view: &View<'a>, number: u32) -> Option<&'a Composition>
    ensures { option_copied result ≡ structure_in view.now number }
{
    structure_among(view.scopes, number)
}
