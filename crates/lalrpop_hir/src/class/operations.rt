//! Union, intersection, difference, symmetric difference and complement of sets of characters.
ghost use Rattle.std.specs.Prelude.{◌≡◌, ℕ, ◌<◌, ◌↔◌, IfOk};
ghost use Rattle.std.specs.List.Sorted.{IsNonDecreasingBy};
ghost use Rattle.lalrpop_hir.specs.Range.{Covered};
ghost use Rattle.lalrpop_hir.specs.Runs.{IsCanonical, IsCanon, IsScalar, InEither, InBoth, InFirstAlone, InJustOne, next_scalar};

use super::characters::{code_after, join_characters};
use super::{ClassUnicode, ClassUnicodeRange};
use std::alloc::{AllocError, Global};

impl ClassUnicode {
    /// The characters that are in either set. Takes time linear in the number of runs of both.
    ///
    /// # Errors
    ///
    /// `AllocError` if a request for memory was refused.
    pub fn union(&self, alloc: Global, other: &ClassUnicode) -> Result<ClassUnicode, AllocError>
        ensures runs { IfOk result (λ class. IsCanon (InEither self.now other.now) class) }
    {
        let ranges = merge_characters(alloc, self.ranges(), other.ranges())?;
        let ranges = join_characters(alloc, &ranges)?;
        Ok(ClassUnicode { ranges })
    }

    /// The characters that are in both sets. Takes time linear in the number of runs of both.
    ///
    /// # Errors
    ///
    /// `AllocError` if a request for memory was refused.
    pub fn intersection(
        &self,
        alloc: Global,
        other: &ClassUnicode,
    ) -> Result<ClassUnicode, AllocError>
        ensures runs { IfOk result (λ class. IsCanon (InBoth self.now other.now) class) }
    {
        let outside = self.complement(alloc)?;
        let outside_other = other.complement(alloc)?;
        outside.union(alloc, &outside_other)?.complement(alloc)
    }

    /// The characters that are in this set and not in the other one. Takes time linear in the number of runs
    /// of both.
    ///
    /// # Errors
    ///
    /// `AllocError` if a request for memory was refused.
    pub fn difference(
        &self,
        alloc: Global,
        other: &ClassUnicode,
    ) -> Result<ClassUnicode, AllocError>
        ensures runs { IfOk result (λ class. IsCanon (InFirstAlone self.now other.now) class) }
    {
        let outside = self.complement(alloc)?;
        outside.union(alloc, other)?.complement(alloc)
    }

    /// The characters that are in exactly one of the sets. Takes time linear in the number of runs of both.
    ///
    /// # Errors
    ///
    /// `AllocError` if a request for memory was refused.
    pub fn symmetric_difference(
        &self,
        alloc: Global,
        other: &ClassUnicode,
    ) -> Result<ClassUnicode, AllocError>
        ensures runs { IfOk result (λ class. IsCanon (InJustOne self.now other.now) class) }
    {
        let here = self.difference(alloc, other)?;
        let there = other.difference(alloc, self)?;
        here.union(alloc, &there)
    }

    /// The characters that are not in the set. Takes time linear in the number of its runs.
    ///
    /// # Errors
    ///
    /// `AllocError` if a request for memory was refused.
    pub fn complement(&self, alloc: Global) -> Result<ClassUnicode, AllocError>
        ensures runs { IfOk result (λ class. IsCanon (λ c. ¬ Covered self.now c) class) }
    {
        let ranges = character_gaps(alloc, self.ranges())?;
        Ok(ClassUnicode { ranges })
    }
}

// The ranges of both lists, by their starts.
fn merge_characters(
    alloc: Global,
    left: &[ClassUnicodeRange],
    right: &[ClassUnicodeRange],
) -> Result<Vec<ClassUnicodeRange>, AllocError>
    requires left_canonical { IsCanonical left.now }
    requires right_canonical { IsCanonical right.now }
    ensures ascending { IfOk result (λ ranges.
        IsNonDecreasingBy (λ range. range.start) ranges.items) }
    ensures covers { IfOk result (λ ranges. (c : ℕ)
        → InEither left.now right.now c ↔ Covered ranges.items c) }
{
    let mut ranges = Vec::new(alloc);
    let mut i = 0;
    let mut j = 0;
    while i < left.len() && j < right.len() {
        if right[j].start() < left[i].start() {
            ranges.push(right[j])?;
            j += 1;
        } else {
            ranges.push(left[i])?;
            i += 1;
        }
    }
    ranges.extend_from_slice(&left[i..])?;
    ranges.extend_from_slice(&right[j..])?;
    Ok(ranges)
}

// The gaps between the runs, before the first and after the last.
fn character_gaps(
    alloc: Global,
    runs: &[ClassUnicodeRange],
) -> Result<Vec<ClassUnicodeRange>, AllocError>
    requires { IsCanonical runs.now }
    ensures { IfOk result (λ gaps. IsCanon (λ c. ¬ Covered runs.now c) gaps.items) }
{
    let mut gaps = Vec::new(alloc);
    let mut low = 0;
    for run in runs {
        let start = run.start();
        if low < start as u32 {
            gaps.push(ClassUnicodeRange::new(character(low), character_before(start)))?;
        }
        low = code_after(run.end());
    }
    if low <= 0x10FFFF {
        gaps.push(ClassUnicodeRange::new(character(low), '\u{10FFFF}'))?;
    }
    Ok(gaps)
}

// The character with this code, which is a scalar value.
fn character(code: u32) -> char
    requires { IsScalar code }
    ensures { result ≡ code }
{
    char::from_u32(code).unwrap_or('\0')
}

// The character before c.
fn character_before(c: char) -> char
    requires { 0 < c }
    ensures scalar { IsScalar result }
    ensures before { next_scalar result ≡ c }
{
    if c == '\u{E000}' {
        '\u{D7FF}'
    } else {
        character(c as u32 - 1)
    }
}
