//! Classes of bytes.
ghost use Rattle.std.specs.Prelude.{◌≡◌, ◌≤◌, min, max, IfOk};
ghost use Rattle.std.specs.List.Sorted.{IsNonDecreasingBy};
ghost use Rattle.lalrpop_hir.specs.Range.{Covered};
ghost use Rattle.lalrpop_hir.specs.Runs.{AreByteRuns, IsByteCanon, next_byte};

use super::{ClassBytes, ClassBytesRange};
use std::alloc::{AllocError, Global};

impl ClassBytesRange {
    /// The range with the ends `a` and `b`, which may be given in either order.
    pub fn new(a: u8, b: u8) -> ClassBytesRange
        ensures ends { result ≡ record { start = min a b; end = max a b } }
    {
        if a <= b {
            ClassBytesRange { start: a, end: b }
        } else {
            ClassBytesRange { start: b, end: a }
        }
    }

    /// The least byte of the range.
    pub fn start(&self) -> u8
        ensures value { result ≡ self.now.start }
        ensures ordered { self.now.start ≤ self.now.end }
    {
        self.start
    }

    /// The greatest byte of the range.
    pub fn end(&self) -> u8
        ensures value { result ≡ self.now.end }
        ensures ordered { self.now.start ≤ self.now.end }
    {
        self.end
    }
}

impl ClassBytes {
    /// The set of the bytes that lie in any of the ranges, which may overlap and come in any order.
    /// With no ranges it is empty. Takes time n log n for n ranges.
    ///
    /// # Errors
    ///
    /// `AllocError` if a request for memory was refused.
    pub fn new(alloc: Global, mut ranges: Vec<ClassBytesRange>) -> Result<ClassBytes, AllocError>
        ensures runs { IfOk result (λ class. IsByteCanon (Covered ranges.items) class) }
    {
        ranges.sort_unstable_by_key(|range| range.start);
        let ranges = join_bytes(alloc, &ranges)?;
        Ok(ClassBytes { ranges })
    }

    /// The runs of the set, in ascending order. Between any two of them lies a byte that is not in the set.
    pub fn ranges(&self) -> &[ClassBytesRange]
        ensures value { result.now ≡ self.now }
        ensures canonical { AreByteRuns self.now }
    {
        &self.ranges
    }
}

// The number of the next byte.
fn byte_after(b: u8) -> u16
    ensures { result ≡ next_byte b }
{
    u16::from(b) + 1
}

// The maximal runs of what the ranges cover. The ranges ascend by their starts, so one pass is enough:
// a range that starts beyond the value after the last run's end leaves a gap, and so begins the next run.
fn join_bytes(alloc: Global, ranges: &[ClassBytesRange]) -> Result<Vec<ClassBytesRange>, AllocError>
    requires { IsNonDecreasingBy (λ range. range.start) ranges.now }
    ensures { IfOk result (λ runs. IsByteCanon (Covered ranges.now) runs.items) }
{
    let mut runs = Vec::new(alloc);
    let Some((first, rest)) = ranges.split_first() else {
        return Ok(runs);
    };
    let mut start = first.start;
    let mut end = first.end;
    for range in rest {
        if byte_after(end) < range.start as u16 {
            runs.push(ClassBytesRange { start, end })?;
            start = range.start;
            end = range.end;
        } else {
            end = end.max(range.end);
        }
    }
    runs.push(ClassBytesRange { start, end })?;
    Ok(runs)
}
