//! Simple case folding of sets.
ghost use Rattle.std.specs.Prelude.{◌≡◌, ◌≤◌, ◌↔◌, ◌⊎◌, ℕ, [], ◌∷◌, IfOk, OnOk, Contains};
ghost use Rattle.lalrpop_hir.specs.Range.{Covered};
ghost use Rattle.lalrpop_hir.specs.Runs.{IsScalar};
ghost use Rattle.lalrpop_re.specs.CharacterSet.{Set, fold, HasRuns};
ghost use Rattle.lalrpop_re.specs.Internal.Sets.{AreAlike, HasPartner};

use lalrpop_hir::{ClassUnicode, ClassUnicodeRange};
use std::alloc::{AllocError, Global};

/// The members of `class`, and all characters that share a simple case folding with one, by the crate `unicode`.
/// Takes time n log n for n runs and partners.
///
/// # Errors
///
/// `AllocError` if a request for memory was refused.
pub fn fold(alloc: Global, class: &ClassUnicode) -> Result<ClassUnicode, AllocError>
    ensures runs { IfOk result (λ r. (s : Set) → HasRuns class.now s → HasRuns r (fold s)) }
{
    let mut ranges = Vec::from_slice(alloc, class.ranges())?;
    for range in class.ranges() {
        push_partners(&mut ranges, range)?;
    }
    ClassUnicode::new(alloc, ranges)
}

// Appends the characters that fold like another character in the range.
fn push_partners(
    ranges: &mut Vec<ClassUnicodeRange>,
    range: &ClassUnicodeRange,
) -> Result<(), AllocError>
    ensures { OnOk result ((c : ℕ) → IsScalar c
        → Covered ranges.new.items c ↔ (Covered ranges.old.items c
        ⊎ HasPartner (range.now ∷ []) c)) }
{
    for pair in pairs_from(range.start(), range.end()) {
        if let Some(partner) = char::from_u32(pair.1) {
            ranges.push(ClassUnicodeRange::new(partner, partner))?;
        }
    }
    Ok(())
}

// The pairs of characters that fold alike whose first is between the two, ends included. The table of all pairs is sorted.
fn pairs_from(low: char, high: char) -> &'static [(u32, u32)]
    ensures { (d c : ℕ) → Contains result.now (d, c) ↔ ((low ≤ d) × (d ≤ high) × AreAlike d c) }
{
    let pairs = unicode::case::fold_pairs();
    let rest = &pairs[pairs.partition_point(|pair| pair.0 < low as u32)..];
    &rest[..rest.partition_point(|pair| pair.0 <= high as u32)]
}
