//! The partition of a set of ranges.

ghost use Rattle.std.specs.Prelude.{◌≡◌, ◌+◌, ◌-◌, ◌*◌, ◌<◌, ◌≤◌, IfOk, IsTrue, IsFalse, length, slice_index};
ghost use Rattle.std.specs.List.{Contains, count_by};
ghost use Rattle.lalrpop_nfa.specs.Partition.{IsPartition, has_value};
ghost use Rattle.lalrpop_nfa.specs.Internal.Sweep.{starts_of, ends_of};

use crate::{Steps, Test};
use std::alloc::{AllocError, Global};
use std::collections::BTreeSet;

/// The maximal intervals of values that lie in the same ranges, and in at least one, in ascending order: at most 2n - 1 of
/// them for n nonempty ranges. Empty ranges have no effect.
///
/// It sorts the starts and the ends, and goes over them once.
///
/// # Errors
///
/// `AllocError` if a request for memory was refused.
pub fn remove_overlap(alloc: Global, ranges: &BTreeSet<Test>) -> Result<Vec<Test>, AllocError>
    ensures partition { IfOk result (λ blocks.
        IsPartition (Contains ranges.now.keys) blocks.items) }
    ensures count { IfOk result (λ blocks.
        length blocks.items ≤ 2 * count_by has_value ranges.now.keys - 1) }
{
    remove_overlap_counted(alloc, ranges, &mut Steps::new())
}

/// The same answer. Counts a step for each start and each end that it takes up: at most two for each nonempty range,
/// whether it succeeds or fails.
///
/// # Errors
///
/// `AllocError` if a request for memory was refused.
pub fn remove_overlap_counted(
    alloc: Global,
    ranges: &BTreeSet<Test>,
    steps: &mut Steps,
) -> Result<Vec<Test>, AllocError>
    ensures partition { IfOk result (λ blocks.
        IsPartition (Contains ranges.now.keys) blocks.items) }
    ensures count { IfOk result (λ blocks.
        length blocks.items ≤ 2 * count_by has_value ranges.now.keys - 1) }
    ensures never_falls { steps.old ≤ steps.new }
    ensures cost { steps.new ≤ steps.old + 2 * count_by has_value ranges.now.keys }
{
    let Ends {
        mut starts,
        mut ends,
    } = ends_of_ranges(alloc, ranges)?;
    starts.sort_unstable();
    ends.sort_unstable();
    let mut blocks = Vec::new(alloc);
    // The values below `from` are done: `begun` starts and `ended` ends are taken up. If `begun` is greater, some range
    // is open. Equal boundaries in a row do no harm, since nothing lies between them.
    let mut from = 0;
    let mut begun = 0;
    let mut ended = 0;
    while ended < ends.len() {
        steps.tick();
        let (boundary, is_start) = next_boundary(&starts, &ends, begun, ended);
        if from < boundary && ended < begun {
            blocks.push(Test::new(from as u32..=(boundary - 1) as u32))?;
        }
        from = boundary;
        if is_start {
            begun += 1;
        } else {
            ended += 1;
        }
    }
    Ok(blocks)
}

// The starts and the ends of the ranges that contain some value.
#[derive(Drop)]
struct Ends {
    starts: Vec<u32>,
    ends: Vec<u32>,
}

fn ends_of_ranges(alloc: Global, ranges: &BTreeSet<Test>) -> Result<Ends, AllocError>
    ensures starts { IfOk result (λ e. e.starts.items ≡ starts_of ranges.now.keys) }
    ensures ends { IfOk result (λ e. e.ends.items ≡ ends_of ranges.now.keys) }
{
    let mut starts = Vec::new(alloc);
    let mut ends = Vec::new(alloc);
    for range in ranges {
        if !range.is_empty() {
            starts.push(range.start())?;
            ends.push(range.end())?;
        }
    }
    Ok(Ends { starts, ends })
}

// The next value at which a range starts or is over, and whether one starts there.
fn next_boundary(starts: &[u32], ends: &[u32], begun: usize, ended: usize) -> (u64, bool)
    requires { ended < length ends.now }
    ensures start_in { IsTrue result.1 → begun < length starts.now }
    ensures start { IsTrue result.1 → result.0 ≡ slice_index starts.now begun }
    ensures end { IsFalse result.1 → result.0 ≡ slice_index ends.now ended + 1 }
    ensures least_start { begun < length starts.now → result.0 ≤ slice_index starts.now begun }
    ensures least_end { result.0 ≤ slice_index ends.now ended + 1 }
    ensures within { result.0 ≤ 4294967296 }
{
    let end = ends[ended] as u64 + 1;
    if begun < starts.len() && starts[begun] as u64 <= end {
        (starts[begun] as u64, true)
    } else {
        (end, false)
    }
}
