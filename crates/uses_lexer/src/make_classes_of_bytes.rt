//! Classes of bytes, made of ranges, and their runs.
ghost use Rattle.std.specs.Prelude.{◌≡◌, ◌∷◌, [], min, max, IfOk};
ghost use Rattle.lalrpop_hir.specs.Range.{Covers, Covered};
ghost use Rattle.lalrpop_hir.specs.Runs.{AreByteRuns, IsByteCanon};

use lalrpop_hir::{ClassBytes, ClassBytesRange};
use std::alloc::{AllocError, Global};

/// The bytes between two, whichever comes first.
// Needs lalrpop_hir::ClassBytesRange::new: ends.
pub fn between(a: u8, b: u8) -> ClassBytesRange
    ensures { result ≡ record { start = min a b; end = max a b } }
{
    ClassBytesRange::new(a, b)
}

/// The least byte of a range and the greatest, which are in it.
// Needs lalrpop_hir::ClassBytesRange::start: value, ordered.
// Needs lalrpop_hir::ClassBytesRange::end: value, ordered.
pub fn ends(range: &ClassBytesRange) -> (u8, u8)
    ensures values { range.now ≡ record { start = result.0; end = result.1 } }
    ensures least { Covers range.now result.0 }
    ensures greatest { Covers range.now result.1 }
{
    (range.start(), range.end())
}

/// The class of the bytes in one of two ranges.
// Needs lalrpop_hir::ClassBytes::new: runs.
pub fn either_range(
    alloc: Global,
    a: ClassBytesRange,
    b: ClassBytesRange,
) -> Result<ClassBytes, AllocError>
    ensures { IfOk result (λ class. IsByteCanon (Covered (a ∷ b ∷ [])) class) }
{
    ClassBytes::new(alloc, vec![in alloc; a, b]?)
}

/// The runs of a class, in ascending order.
// Needs lalrpop_hir::ClassBytes::ranges: value, canonical.
pub fn runs(class: &ClassBytes) -> &[ClassBytesRange]
    ensures value { result.now ≡ class.now }
    ensures canonical { AreByteRuns result.now }
{
    class.ranges()
}
