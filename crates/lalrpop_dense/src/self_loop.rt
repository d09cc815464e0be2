//! Bytes on which a row of a fused table leads back to itself.

ghost use Rattle.std.specs.Prelude.{◌≡◌, ◌↔◌, ℕ, ◌+◌, ◌<◌, ◌≤◌, length, map, slice_index, IsTrue};
ghost use Rattle.std.specs.Simd.Lanes.{Each1};
ghost use Rattle.lalrpop_dense.specs.Internal.SelfLoops.{IsIn, AreIn, first_set};

use std::simd::prelude::*;

// How many bytes are tested at once.
const LANES: usize = 32;

// The place of the lowest bit that is set, or `LANES` if none is.
#[inline(always)]
fn first_set(mask: u64) -> usize
    ensures { result ≡ first_set mask }
{
    if mask == 0 {
        LANES
    } else {
        mask.trailing_zeros() as usize
    }
}

// For each high half of a byte its bit in a set's entry. Bytes that aren't ASCII have none.
const HIGH_BITS: [u8; 16] = [1, 2, 4, 8, 16, 32, 64, 128, 0, 0, 0, 0, 0, 0, 0, 0];

// The entries of the table at the places.
#[inline(always)]
fn look_up(table: [u8; 16], places: u8x32) -> u8x32
    requires { Each1 (λ place. place < 16) places }
    ensures { result ≡ map (λ place. slice_index table place) places }
{
    let twice = u8x16::from_array(table).swizzle([
        0, 1, 2, 3, 4, 5, 6, 7, 8, 9, 10, 11, 12, 13, 14, 15, 0, 1, 2, 3, 4, 5, 6, 7, 8, 9, 10, 11,
        12, 13, 14, 15,
    ]);
    twice.swizzle_dyn_within::<16>(places)
}

/// The bytes on which a row leads back to itself. All are ASCII.
#[derive(Clone, Copy, Debug)]
pub(crate) struct SelfLoop {
    pub(crate) row: u32,
    // The entry of a byte's low half has a bit for its high half.
    pub(crate) set: [u8; 16],
}

impl SelfLoop {
    /// Whether the byte is one of them.
    pub(crate) fn has(&self, byte: u8) -> bool
        ensures { IsTrue result ↔ IsIn self.now byte }
    {
        byte < 128 && (self.set[(byte % 16) as usize] >> (byte / 16)) % 2 == 1
    }

    // How many bytes from the place on are among them, `LANES` at most.
    #[inline(always)]
    fn run(self, bytes: &[u8], at: usize) -> usize
        requires { at + LANES ≤ length bytes.now }
        ensures short { result ≤ LANES }
        ensures within { AreIn self bytes.now at (at + result) }
        ensures stops { result < LANES → ¬ IsIn self (slice_index bytes.now (at + result)) }
    {
        let lanes = u8x32::from_slice(&bytes[at..]);
        let entries = look_up(self.set, lanes & u8x32::splat(15));
        let bits = look_up(HIGH_BITS, lanes >> u8x32::splat(4));
        let stops = (entries & bits).simd_eq(u8x32::splat(0));
        first_set(stops.to_bitmask())
    }

    /// A place up to which all bytes from `at` on are among them. The byte there isn't, unless fewer than `LANES` are left.
    #[inline(always)]
    pub(crate) fn end(self, bytes: &[u8], at: usize, end: usize) -> usize
        requires ordered { at ≤ end }
        requires within { end ≤ length bytes.now }
        ensures on { at ≤ result }
        ensures within { result ≤ end }
        ensures stays { AreIn self bytes.now at result }
        ensures far { result + LANES ≤ end → ¬ IsIn self (slice_index bytes.now result) }
    {
        let mut to = at;
        'staying: while end - to >= LANES {
            let run = self.run(bytes, to);
            to += run;
            if run < LANES {
                return to;
            }
        }
        to
    }
}
