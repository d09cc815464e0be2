//! Which rows of a block are those of ends, in an emitted lexer in Rust: that has no vectors, so a byte is made for each row.
//! `lane_ends.rt` gives the same, and quicker.
ghost use Rattle.std.specs.Prelude.{◌≡◌, ◌↔◌, ◌<◌, ◌≤◌, ℕ, length, slice_index};
ghost use Rattle.std.specs.Int.{bit_at};

use crate::run::AheadCell;

// Which of 64 rows are at or above this one: a byte for each, 1 where it is, else 0. They are compared with a cell of their own
// size and the answers are kept apart, so that a processor can do many at once.
fn flags_of(rows: &[AheadCell], least: AheadCell) -> [u8; 64]
    requires { length rows.now ≡ 64 }
    ensures flags { (k : ℕ) → k < 64 → slice_index result k ≤ 1 }
    ensures are { (k : ℕ) → k < 64
        → ((slice_index result k ≡ 1) ↔ (least ≤ slice_index rows.now k)) }
{
    let mut flags = [0; 64];
    for (k, row) in rows.iter().enumerate() {
        flags[k] = u8::from(*row >= least);
    }
    flags
}

// Eight flags as bits, the lowest for the first. The flag of the byte k is the bit 8 * k of a number, and the bit 56 - 7 * k of the
// factor moves it to the bit 56 + k. No two bits of the product meet, so nothing is carried.
fn eight_bits(flags: &[u8]) -> u64
    requires eight { length flags.now ≡ 8 }
    requires flags { (k : ℕ) → k < 8 → slice_index flags.now k ≤ 1 }
    ensures small { result < 256 }
    ensures bits { (k : ℕ) → k < 8 → bit_at result k ≡ slice_index flags.now k }
{
    let bytes = [
        flags[0], flags[1], flags[2], flags[3], flags[4], flags[5], flags[6], flags[7],
    ];
    u64::from_le_bytes(bytes).wrapping_mul(0x0102_0408_1020_4080) >> 56
}

// 64 flags as bits, the lowest for the first.
fn bits_of(flags: &[u8]) -> u64
    requires long { length flags.now ≡ 64 }
    requires flags { (k : ℕ) → k < 64 → slice_index flags.now k ≤ 1 }
    ensures { (k : ℕ) → k < 64 → bit_at result k ≡ slice_index flags.now k }
{
    let mut bits = 0;
    for k in 1..=8 {
        bits = bits * 256 + eight_bits(&flags[64 - 8 * k..72 - 8 * k]);
    }
    bits
}

// Which of 64 rows are those of ends: a bit for each, the lowest for the first.
pub(crate) fn ends_of(rows: &[AheadCell], least: usize) -> u64
    requires { length rows.now ≡ 64 }
    ensures { (k : ℕ) → k < 64 → ((bit_at result k ≡ 1) ↔ (least ≤ slice_index rows.now k)) }
{
    if least > AheadCell::MAX as usize {
        return 0;
    }
    bits_of(&flags_of(rows, least as AheadCell))
}
