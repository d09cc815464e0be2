//! The lists of labels that cover each cell, and the cells at which their labels begin or are over.

ghost use Rattle.std.specs.Prelude.{◌≡◌, ℕ, ◌<◌, ◌≤◌, ◌↔◌, length, slice_get, Some, IfOk, OnOk};
ghost use Rattle.std.specs.List.{Contains};
ghost use Rattle.lalrpop_hir.specs.Range.{Range, Covers};
ghost use Rattle.lalrpop_build.specs.Internal.Grouped.{AreBoundaries};
ghost use Rattle.lalrpop_build.specs.Internal.Signatures.{AreRising, HasEndsIn, IsEndAt, EndsAt, CoversAny, CoversIn, Added, Marked, Gained, AreSigned, HaveEnds, HaveNoClasses};

use crate::alphabet::Group;
use crate::alphabet::groups::Labels;
use lalrpop_hir::Test;
use std::alloc::{AllocError, Global};

/// The numbers of the lists that have a label covering a cell, in ascending order.
#[derive(PartialEq, Eq, PartialOrd, Ord, Drop)]
pub(crate) struct Signature {
    pub(crate) lists: Vec<usize>,
}

/// The signature of each cell, and for each list a group that has no classes yet.
#[derive(Drop)]
pub(crate) struct CellSignatures {
    pub(crate) signatures: Vec<Signature>,
    pub(crate) groups: Vec<Group>,
}

// Adds a number, unless it is the last one.
fn add(numbers: &mut Vec<usize>, number: usize) -> Result<(), AllocError>
    ensures { OnOk result (Added numbers.old.items numbers.new.items (λ n. n ≡ number)) }
{
    if let Some(last) = numbers.last() {
        if *last == number {
            return Ok(());
        }
    }
    numbers.push(number)?;
    Ok(())
}

// The place of a value among the boundaries, of which it is one: the number of the cell that begins there.
fn place_of(boundaries: &[u64], value: u64) -> usize
    requires rising { AreRising boundaries.now }
    requires there { Contains boundaries.now value }
    ensures { slice_get boundaries.now result ≡ Some value }
{
    boundaries.partition_point(|boundary| *boundary < value)
}

// Adds the number of a list to the cells from one place up to another.
fn mark_cells(
    signatures: &mut Vec<Signature>,
    from: usize,
    until: usize,
    number: usize,
) -> Result<(), AllocError>
    requires within { until ≤ length signatures.old.items }
    ensures { OnOk result (Marked signatures.old.items signatures.new.items
        (λ k n. (n ≡ number) × (from ≤ k) × (k < until))) }
{
    for cell in from..until {
        add(&mut signatures[cell].lists, number)?;
    }
    Ok(())
}

// Adds the number of a list to the cells that a label of it covers, and adds the label's ends.
fn mark_label(
    boundaries: &[u64],
    label: &Test,
    number: usize,
    signatures: &mut Vec<Signature>,
    ends: &mut Vec<usize>,
) -> Result<(), AllocError>
    requires rising { AreRising boundaries.now }
    requires ends_in { HasEndsIn boundaries.now label.now }
    requires same_length { length signatures.old.items ≡ length boundaries.now }
    ensures gained { OnOk result (Gained boundaries.now signatures.old.items signatures.new.items
        (λ v n. (n ≡ number) × Covers label.now v)) }
    ensures ends { OnOk result (Added ends.old.items ends.new.items (IsEndAt boundaries.now label.now)) }
{
    if label.is_empty() {
        return Ok(());
    }
    let from = place_of(boundaries, u64::from(label.start()));
    let until = place_of(boundaries, u64::from(label.end()) + 1);
    mark_cells(signatures, from, until, number)?;
    add(ends, from)?;
    add(ends, until)?;
    Ok(())
}

// Adds the number of a list to the cells that its labels cover, and returns the ends of its labels.
fn mark_list(
    alloc: Global,
    boundaries: &[u64],
    labels: &[Test],
    number: usize,
    signatures: &mut Vec<Signature>,
) -> Result<Vec<usize>, AllocError>
    requires rising { AreRising boundaries.now }
    requires ends_in { (r : Range) → Contains labels.now r → HasEndsIn boundaries.now r }
    requires same_length { length signatures.old.items ≡ length boundaries.now }
    ensures gained { OnOk result (Gained boundaries.now signatures.old.items signatures.new.items
        (λ v n. (n ≡ number) × CoversAny labels.now v)) }
    ensures ends { IfOk result (λ ends. (k : ℕ)
        → Contains ends.items k ↔ EndsAt boundaries.now labels.now k) }
{
    let mut ends = Vec::new(alloc);
    for label in labels {
        mark_label(boundaries, label, number, signatures, &mut ends)?;
    }
    Ok(ends)
}

// `count` signatures of cells that no list covers.
fn blank(alloc: Global, count: usize) -> Result<Vec<Signature>, AllocError>
    ensures len { IfOk result (λ signatures. length signatures.items ≡ count) }
    ensures none { IfOk result (λ signatures. (k : ℕ) (s : Signature)
        → slice_get signatures.items k ≡ Some s → (n : ℕ) → Contains s.lists.items n → ⊥) }
{
    let mut signatures = Vec::with_capacity(alloc, count)?;
    for _ in 0..count {
        signatures.push(Signature {
            lists: Vec::new(alloc),
        })?;
    }
    Ok(signatures)
}

/// The signatures of the cells that begin at these boundaries, and the groups of the lists.
///
/// The cost is a step for each cell in each label, and two searches among the boundaries for each label.
pub(crate) fn mark_lists(
    alloc: Global,
    lists: &[Labels],
    boundaries: &[u64],
) -> Result<CellSignatures, AllocError>
    requires { AreBoundaries lists.now boundaries.now }
    ensures signed { IfOk result (λ m.
        AreSigned boundaries.now m.signatures.items (λ v n. CoversIn lists.now n v)) }
    ensures same_length { IfOk result (λ m. length m.groups.items ≡ length lists.now) }
    ensures ends { IfOk result (λ m. HaveEnds lists.now boundaries.now m.groups.items) }
    ensures no_classes { IfOk result (λ m. HaveNoClasses m.groups.items) }
{
    let mut signatures = blank(alloc, boundaries.len())?;
    let mut groups = Vec::with_capacity(alloc, lists.len())?;
    for (number, labels) in lists.iter().enumerate() {
        let ends = mark_list(alloc, boundaries, &labels.list, number, &mut signatures)?;
        groups.push(Group {
            boundaries: ends,
            classes: Vec::new(alloc),
        })?;
    }
    Ok(CellSignatures { signatures, groups })
}
