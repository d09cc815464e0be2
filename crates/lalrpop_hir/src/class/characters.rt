//! Classes of characters.
ghost use Rattle.std.specs.Prelude.{◌≡◌, ◌≤◌, min, max, IfOk};
ghost use Rattle.std.specs.List.Sorted.{IsNonDecreasingBy};
ghost use Rattle.lalrpop_hir.specs.Range.{Covered};
ghost use Rattle.lalrpop_hir.specs.Runs.{IsCanonical, IsCanon, next_scalar};

use super::{ClassUnicode, ClassUnicodeRange};
use std::alloc::{AllocError, Global};

impl ClassUnicodeRange {
    /// The range with the ends `a` and `b`, which may be given in either order.
    pub fn new(a: char, b: char) -> ClassUnicodeRange
        ensures ends { result ≡ record { start = min a b; end = max a b } }
    {
        if a <= b {
            ClassUnicodeRange { start: a, end: b }
        } else {
            ClassUnicodeRange { start: b, end: a }
        }
    }

    /// The least character of the range.
    pub fn start(&self) -> char
        ensures value { result ≡ self.now.start }
        ensures ordered { self.now.start ≤ self.now.end }
    {
        self.start
    }

    /// The greatest character of the range.
    pub fn end(&self) -> char
        ensures value { result ≡ self.now.end }
        ensures ordered { self.now.start ≤ self.now.end }
    {
        self.end
    }
}

impl ClassUnicode {
    /// The set of the characters that lie in any of the ranges, which may overlap and come in any order.
    /// With no ranges it is empty. Takes time n log n for n ranges.
    ///
    /// # Errors
    ///
    /// `AllocError` if a request for memory was refused.
    pub fn new(
        alloc: Global,
        mut ranges: Vec<ClassUnicodeRange>,
    ) -> Result<ClassUnicode, AllocError>
        ensures runs { IfOk result (λ class. IsCanon (Covered ranges.items) class) }
    {
        ranges.sort_unstable_by_key(|range| range.start);
        let ranges = join_characters(alloc, &ranges)?;
        Ok(ClassUnicode { ranges })
    }

    /// The runs of the set, in ascending order. Between any two of them lies a character that is not in the set.
    pub fn ranges(&self) -> &[ClassUnicodeRange]
        ensures value { result.now ≡ self.now }
        ensures canonical { IsCanonical self.now }
    {
        &self.ranges
    }
}

// The code of the next character, where U+E000 follows U+D7FF.
pub(super) fn code_after(c: char) -> u32
    ensures { result ≡ next_scalar c }
{
    if c == '\u{D7FF}' {
        0xE000
    } else {
        c as u32 + 1
    }
}

// The maximal runs of what the ranges cover. The ranges ascend by their starts, so one pass is enough:
// a range that starts beyond the value after the last run's end leaves a gap, and so begins the next run.
pub(super) fn join_characters(
    alloc: Global,
    ranges: &[ClassUnicodeRange],
) -> Result<Vec<ClassUnicodeRange>, AllocError>
    requires { IsNonDecreasingBy (λ range. range.start) ranges.now }
    ensures { IfOk result (λ runs. IsCanon (Covered ranges.now) runs.items) }
{
    let mut runs = Vec::new(alloc);
    let Some((first, rest)) = ranges.split_first() else {
        return Ok(runs);
    };
    let mut start = first.start;
    let mut end = first.end;
    for range in rest {
        if code_after(end) < range.start as u32 {
            runs.push(ClassUnicodeRange { start, end })?;
            start = range.start;
            end = range.end;
        } else {
            end = end.max(range.end);
        }
    }
    runs.push(ClassUnicodeRange { start, end })?;
    Ok(runs)
}
