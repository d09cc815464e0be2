//! Classes of characters, made of ranges, and their runs.
ghost use Rattle.std.specs.Prelude.{◌≡◌, ◌∷◌, [], min, max, IfOk};
ghost use Rattle.lalrpop_hir.specs.Range.{Covers, Covered};
ghost use Rattle.lalrpop_hir.specs.Runs.{IsCanonical, IsCanon};

use lalrpop_hir::{ClassUnicode, ClassUnicodeRange};
use std::alloc::{AllocError, Global};

/// The characters between two, whichever comes first.
// Needs lalrpop_hir::ClassUnicodeRange::new: ends.
pub fn between(a: char, b: char) -> ClassUnicodeRange
    ensures { result ≡ record { start = min a b; end = max a b } }
{
    ClassUnicodeRange::new(a, b)
}

/// The least character of a range and the greatest, which are in it.
// Needs lalrpop_hir::ClassUnicodeRange::start: value, ordered.
// Needs lalrpop_hir::ClassUnicodeRange::end: value, ordered.
pub fn ends(range: &ClassUnicodeRange) -> (char, char)
    ensures values { range.now ≡ record { start = result.0; end = result.1 } }
    ensures least { Covers range.now result.0 }
    ensures greatest { Covers range.now result.1 }
{
    (range.start(), range.end())
}

/// The class of the characters in one of two ranges.
// Needs lalrpop_hir::ClassUnicode::new: runs.
pub fn either_range(
    alloc: Global,
    a: ClassUnicodeRange,
    b: ClassUnicodeRange,
) -> Result<ClassUnicode, AllocError>
    ensures { IfOk result (λ class. IsCanon (Covered (a ∷ b ∷ [])) class) }
{
    ClassUnicode::new(alloc, vec![in alloc; a, b]?)
}

/// The runs of a class, in ascending order.
// Needs lalrpop_hir::ClassUnicode::ranges: value, canonical.
pub fn runs(class: &ClassUnicode) -> &[ClassUnicodeRange]
    ensures value { result.now ≡ class.now }
    ensures canonical { IsCanonical result.now }
{
    class.ranges()
}
