//! The partition of the ranges of a set.

ghost use Rattle.std.specs.Prelude.{◌+◌, ◌-◌, ◌*◌, ◌≤◌, length, IfOk};
ghost use Rattle.std.specs.List.{Contains, count_by};
ghost use Rattle.lalrpop_nfa.specs.Partition.{IsPartition, has_value};

use lalrpop_nfa::overlap::remove_overlap_counted;
use lalrpop_nfa::{Steps, Test};
use std::alloc::{AllocError, Global};
use std::collections::BTreeSet;

// Needs lalrpop_nfa::remove_overlap_counted: partition, count, never_falls, cost.
/// The blocks of each of two sets of ranges, on one counter.
pub fn blocks_of_both(
    alloc: Global,
    left: &BTreeSet<Test>,
    right: &BTreeSet<Test>,
    steps: &mut Steps,
) -> Result<(Vec<Test>, Vec<Test>), AllocError>
    ensures left { IfOk result (λ both. IsPartition (Contains left.now.keys) both.0.items) }
    ensures right { IfOk result (λ both. IsPartition (Contains right.now.keys) both.1.items) }
    ensures few { IfOk result (λ both.
        length both.0.items ≤ 2 * count_by has_value left.now.keys - 1) }
    ensures never_falls { steps.old ≤ steps.new }
    ensures cost { steps.new ≤ steps.old + 2 * count_by has_value left.now.keys
        + 2 * count_by has_value right.now.keys }
{
    let left_blocks = remove_overlap_counted(alloc, left, steps)?;
    let right_blocks = remove_overlap_counted(alloc, right, steps)?;
    Ok((left_blocks, right_blocks))
}
