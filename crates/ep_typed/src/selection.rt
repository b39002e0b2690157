//! How the variants of a variant part are selected, with several owners.

ghost use Rattle.std.specs.Prelude.{◌≡◌, IfOk, min};
ghost use Rattle.ep_typed.specs.Selections.{labels_nodes};

use crate::shared::Shared;
use crate::tree::{CaseRanges, Selection};
use ep_base::NoMemory;
use std::alloc::Global;
use std::marker::Model;

/// A selection that all uses of a variant part share. Contracts see it as the selection.
pub struct SharedSelection {
    selection: Shared<Selection>,
    /// How many nodes its labels are, at most the greatest `u64`. Each use counts them, so they are counted once.
    nodes: u64,
}

impl Drop for SharedSelection {
    fn drop(self) {
        let SharedSelection {
            selection: _,
            nodes: _,
        } = self;
    }
}

impl Model for SharedSelection {
    ghost use Rattle.std.specs.Prelude.{◌≡◌, min};
    ghost use Rattle.ep_typed.specs.declared.tree.Selection.{Selection};

    ghost Value = { Selection };

    ghost use Rattle.ep_typed.specs.Selections.{labels_nodes};

    ghost view = { λ s. s.selection };

    ghost invariant = { λ s. s.nodes ≡ min (labels_nodes s.selection.labels) 18446744073709551615 };
}

impl SharedSelection {
    /// The selection, with one owner. Where memory is wanting it is dropped.
    pub fn new(alloc: Global, selection: Selection) -> Result<SharedSelection, NoMemory>
        ensures { IfOk result (λ s. s ≡ selection) }
    {
        let nodes = labels_nodes(selection.labels.items());
        Ok(SharedSelection {
            selection: Shared::new(alloc, selection)?,
            nodes,
        })
    }

    /// The same selection for one owner more. The refusal comes where there are more owners than can be counted.
    pub fn share(&self) -> Result<SharedSelection, NoMemory>
        ensures { IfOk result (λ s. s ≡ self.now) }
    {
        Ok(SharedSelection {
            selection: self.selection.share()?,
            nodes: self.nodes,
        })
    }

    /// The selection.
    pub fn get(&self) -> &Selection
        ensures { result.now ≡ self.now }
    {
        self.selection.get()
    }

    /// The nodes of its labels, at most the greatest `u64`.
    pub(crate) fn nodes(&self) -> u64
        ensures { result ≡ min (labels_nodes self.now.labels) u64.MAX }
    {
        self.nodes
    }
}

/// The nodes of the labels of variants, at most the greatest `u64`.
fn labels_nodes(all: &[CaseRanges]) -> u64
    ensures { result ≡ min (labels_nodes all.now) u64.MAX }
{
    let mut total = 0;
    for ranges in all {
        total = (ranges.items().len() as u64)
            .saturating_mul(3)
            .saturating_add(total);
    }
    total
}
