//! The classes of cells: cells that lie in the same lists of labels share a class.

ghost use Rattle.std.specs.Prelude.{◌≡◌, ℕ, ◌+◌, ◌<◌, ◌^◌, length, slice_get, Some, IfOk, OnOk};
ghost use Rattle.std.specs.List.{Contains};
ghost use Rattle.lalrpop_build.specs.Internal.Alphabet.{AreCells, AreGroups};
ghost use Rattle.lalrpop_build.specs.Internal.Grouped.{AreBoundaries, AreClasses};
ghost use Rattle.lalrpop_build.specs.Internal.Signatures.{HaveNoClasses};
ghost use Rattle.lalrpop_build.specs.Internal.Numbered.{GotClasses, AreNumbered, IsNumbered, AreAllClassed};

use crate::alphabet::groups::Labels;
use crate::alphabet::signatures::{CellSignatures, Signature, mark_lists};
use crate::alphabet::{Cell, Group};
use std::alloc::{AllocError, Global};
use std::collections::BTreeMap;

/// The cells with their classes, the group of each list of labels, and the number of classes.
#[derive(Drop)]
pub(crate) struct Classed {
    pub(crate) cells: Vec<Cell>,
    pub(crate) groups: Vec<Group>,
    pub(crate) count: usize,
}

// The classes of the signatures met so far, and the groups that have these classes.
#[derive(Drop)]
struct Numbering {
    known: BTreeMap<Signature, usize>,
    groups: Vec<Group>,
    count: usize,
}

// Adds a class to the groups with these numbers.
fn add_class(groups: &mut Vec<Group>, numbers: &[usize], class: usize) -> Result<(), AllocError>
    requires within { (n : ℕ) → Contains numbers.now n → n < length groups.old.items }
    ensures { OnOk result (GotClasses groups.old.items groups.new.items
        (λ n c. Contains numbers.now n × (c ≡ class))) }
{
    for number in numbers {
        groups[*number].classes.push(class)?;
    }
    Ok(())
}

impl Numbering {
    // The class of a signature: the next one, unless an equal signature already has one.
    fn class_of(&mut self, signature: Signature) -> Result<usize, AllocError>
        requires within { (n : ℕ) → Contains signature.lists.items n
            → n < length self.old.groups.items }
        requires numbered { AreNumbered self.old.known self.old.groups.items self.old.count }
        requires room { self.old.count + 1 < 2 ^ 64 }
        ensures numbered { OnOk result
            (AreNumbered self.new.known self.new.groups.items self.new.count) }
        ensures class { IfOk result (IsNumbered self.old.groups.items self.new.groups.items
            self.old.count self.new.count signature) }
    {
        if let Some(class) = self.known.get(&signature) {
            return Ok(*class);
        }
        let class = self.count;
        add_class(&mut self.groups, &signature.lists, class)?;
        self.known.insert(signature, class)?;
        self.count += 1;
        Ok(class)
    }
}

// Numbers the signatures of the cells that begin at these boundaries.
fn number_cells(
    alloc: Global,
    boundaries: &[u64],
    cell_signatures: CellSignatures,
) -> Result<Classed, AllocError>
    requires same_length { length cell_signatures.signatures.items ≡ length boundaries.now }
    requires within { (k n : ℕ) (s : Signature) → slice_get cell_signatures.signatures.items k ≡ Some s
        → Contains s.lists.items n → n < length cell_signatures.groups.items }
    requires no_classes { HaveNoClasses cell_signatures.groups.items }
    ensures { IfOk result (λ x. AreAllClassed boundaries.now
        cell_signatures.signatures.items cell_signatures.groups.items
        x.cells.items x.groups.items x.count) }
{
    let CellSignatures { signatures, groups } = cell_signatures;
    let mut numbering = Numbering {
        known: BTreeMap::new(alloc),
        groups,
        count: 0,
    };
    let mut cells = Vec::with_capacity(alloc, boundaries.len())?;
    for signature in signatures {
        let class = numbering.class_of(signature)?;
        let first = boundaries[cells.len()];
        cells.push(Cell { first, class })?;
    }
    let Numbering { groups, count, .. } = numbering;
    Ok(Classed {
        cells,
        groups,
        count,
    })
}

/// The cells that begin at these boundaries with their classes, and the group of each list of labels.
///
/// No step is quadratic: a signature is looked up once for each cell, and its class is added to its lists once.
pub(crate) fn classes_of(
    alloc: Global,
    lists: &[Labels],
    boundaries: &[u64],
) -> Result<Classed, AllocError>
    requires { AreBoundaries lists.now boundaries.now }
    ensures cells { IfOk result (λ x. AreCells x.cells.items x.count) }
    ensures groups { IfOk result (λ x. AreGroups x.groups.items x.cells.items x.count) }
    ensures classes { IfOk result (λ x. AreClasses lists.now x.cells.items x.groups.items) }
{
    let cell_signatures = mark_lists(alloc, lists, boundaries)?;
    number_cells(alloc, boundaries, cell_signatures)
}
