//! Which rows of a block are those of ends, by vectors.
ghost use Rattle.std.specs.Prelude.{◌≡◌, ◌↔◌, ◌^◌, ◌<◌, ◌≤◌, ℕ, length, slice_index};
ghost use Rattle.std.specs.Int.{bit_at};

use crate::run::AheadCell;
use std::simd::prelude::*;

// Which of 16 rows are at or above this one: a bit for each, the lowest for the first.
#[inline(always)]
fn some_ends(rows: &[AheadCell], least: AheadCell) -> u64
    requires { length rows.now ≡ 16 }
    ensures small { result < 2 ^ 16 }
    ensures are { (k : ℕ) → k < 16 → ((bit_at result k ≡ 1) ↔ (least ≤ slice_index rows.now k)) }
{
    let lanes = u32x16::from_slice(rows);
    lanes.simd_ge(u32x16::splat(least)).to_bitmask()
}

// Which of 64 rows are those of ends: a bit for each, the lowest for the first.
pub(crate) fn ends_of(rows: &[AheadCell], least: usize) -> u64
    requires { length rows.now ≡ 64 }
    ensures { (k : ℕ) → k < 64 → ((bit_at result k ≡ 1) ↔ (least ≤ slice_index rows.now k)) }
{
    if least > AheadCell::MAX as usize {
        return 0;
    }
    let mut bits = 0;
    for k in 1..=4 {
        bits = bits * 65536 + some_ends(&rows[64 - 16 * k..80 - 16 * k], least as AheadCell);
    }
    bits
}
