//! Runs of bytes, found 32 bytes at a time.

ghost use Rattle.std.specs.Prelude.{◌≡◌, ℕ, ◌+◌, ◌<◌, ◌≤◌, length, slice_index};
ghost use Rattle.bajofeki_rules.specs.Internal.ByteRuns.{IsPlain, IsInLine, first_set};

use std::simd::prelude::*;

/// How many bytes are tested at once.
pub(crate) const LANES: usize = 32;

// The place of the lowest bit that is set, or `LANES` if none is.
#[inline(always)]
fn first_set(mask: u64) -> usize
    ensures { result ≡ first_set mask }
{
    if mask == 0 {
        LANES
    } else {
        mask.trailing_zeros() as usize
    }
}

/// How many bytes from the place on are characters of ASCII that quotes leave as they are, `LANES` at most.
#[inline(always)]
pub(crate) fn plain_run(bytes: &[u8], at: usize) -> usize
    requires { at + LANES ≤ length bytes.now }
    ensures short { result ≤ LANES }
    ensures plain { (k : ℕ) → at ≤ k → k < at + result → IsPlain (slice_index bytes.now k) }
{
    let lanes = u8x32::from_slice(&bytes[at..]);
    let stops = lanes.simd_lt(u8x32::splat(b' '))
        | lanes.simd_gt(u8x32::splat(b'~'))
        | lanes.simd_eq(u8x32::splat(b'"'))
        | lanes.simd_eq(u8x32::splat(b'\\'));
    first_set(stops.to_bitmask())
}

/// How many bytes from the place on are characters of ASCII other than line feeds, `LANES` at most.
#[inline(always)]
pub(crate) fn line_run(bytes: &[u8], at: usize) -> usize
    requires { at + LANES ≤ length bytes.now }
    ensures short { result ≤ LANES }
    ensures line { (k : ℕ) → at ≤ k → k < at + result → IsInLine (slice_index bytes.now k) }
{
    let lanes = u8x32::from_slice(&bytes[at..]);
    let stops = lanes.simd_ge(u8x32::splat(128)) | lanes.simd_eq(u8x32::splat(b'\n'));
    first_set(stops.to_bitmask())
}
