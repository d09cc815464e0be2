//! The boundaries: values at which a label begins or is over.

ghost use Rattle.std.specs.Prelude.{ℕ, ◌≤◌, ◌↔◌, IfOk, OnOk};
ghost use Rattle.std.specs.List.{Contains};
ghost use Rattle.lalrpop_hir.specs.Range.{Range};
ghost use Rattle.lalrpop_nfa.specs.Partition.{AreAscending};
ghost use Rattle.lalrpop_build.specs.Internal.Grouped.{HasLabel, AreBoundaries};
ghost use Rattle.lalrpop_build.specs.Internal.Boundaries.{AreRising, HoldOne, HasAlso, AreEndsOf, HasAllOf};

use crate::alphabet::groups::Labels;
use lalrpop_hir::Test;
use lalrpop_nfa::overlap::remove_overlap;
use std::alloc::{AllocError, Global};
use std::collections::BTreeSet;

// Adds these labels.
fn insert_labels(labels: &mut BTreeSet<Test>, list: &[Test]) -> Result<(), AllocError>
    ensures { OnOk result (HasAllOf labels.old.keys list.now labels.new.keys) }
{
    for label in list {
        let label = label.clone()?;
        labels.insert(label)?;
    }
    Ok(())
}

// The labels of all lists.
fn labels_of(alloc: Global, lists: &[Labels]) -> Result<BTreeSet<Test>, AllocError>
    ensures { IfOk result (λ labels. (r : Range)
        → Contains labels.keys r ↔ ((n : ℕ) × HasLabel lists.now n r)) }
{
    let mut labels = BTreeSet::new(alloc);
    for list in lists {
        insert_labels(&mut labels, &list.list)?;
    }
    Ok(labels)
}

// Adds a boundary that is not below the last one, unless it equals that one.
fn add_boundary(boundaries: &mut Vec<u64>, boundary: u64) -> Result<(), AllocError>
    requires rising { AreRising boundaries.old.items }
    requires not_below { (v : ℕ) → Contains boundaries.old.items v → v ≤ boundary }
    ensures rising { OnOk result (AreRising boundaries.new.items) }
    ensures boundaries { OnOk result (HasAlso boundaries.old.items boundary boundaries.new.items) }
{
    if boundaries.last() != Some(&boundary) {
        boundaries.push(boundary)?;
    }
    Ok(())
}

// The values at which the blocks begin and at which they are over.
fn ends_of(alloc: Global, blocks: &[Test]) -> Result<Vec<u64>, AllocError>
    requires ascending { AreAscending blocks.now }
    requires hold_one { HoldOne blocks.now }
    ensures rising { IfOk result (λ boundaries. AreRising boundaries.items) }
    ensures within { IfOk result (λ boundaries. (v : ℕ) → Contains boundaries.items v → v ≤ 4294967296) }
    ensures ends { IfOk result (λ boundaries. AreEndsOf blocks.now boundaries.items) }
{
    let mut boundaries = Vec::new(alloc);
    for block in blocks {
        add_boundary(&mut boundaries, u64::from(block.start()))?;
        add_boundary(&mut boundaries, u64::from(block.end()) + 1)?;
    }
    Ok(boundaries)
}

/// The values at which the blocks of the partition of all labels begin or are over, in ascending order.
pub(crate) fn boundaries_of(alloc: Global, lists: &[Labels]) -> Result<Vec<u64>, AllocError>
    ensures { IfOk result (λ boundaries. AreBoundaries lists.now boundaries.items) }
{
    let labels = labels_of(alloc, lists)?;
    let blocks = remove_overlap(alloc, &labels)?;
    ends_of(alloc, &blocks)
}
