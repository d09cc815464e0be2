//! The ends of the tokens of a text, found by a fused table.

ghost use Rattle.std.specs.Prelude.{◌≡◌, ℕ, ◌+◌, ◌<◌, ◌≤◌, ◌⊎◌, length, map, slice_index, take, IsTrue};
ghost use Rattle.std.specs.List.{All};
ghost use Rattle.std.specs.Str.{IsCharBoundary};
ghost use Rattle.lalrpop_dense.specs.Internal.Table.{IsTableOf, numbers_of};
ghost use Rattle.lalrpop_dense.specs.Internal.Fused.{IsFusedOf};
ghost use Rattle.lalrpop_dense.specs.Internal.Marks.{AreMarks, named};

use crate::fused::Fused;
use crate::run::read_class;
use crate::table::{Layout, Rows, StoredCells};
use lalrpop_dfa::Dfa;
use lalrpop_hir::Steps;
use std::simd::prelude::*;

// How many bytes are marked at once at most, and on to the end of the last character.
const BLOCK: usize = 2048;

// How many bytes of ASCII are read at once, without a test of each.
const EIGHT: usize = 8;

/// The end of a token.
#[derive(Clone, Copy, Debug)]
pub(crate) struct Mark {
    // How many bytes after the place from which ends are marked it ends.
    pub(crate) place: u32,
    // The fused row, which its pattern follows, and later the pattern. As wide as the place, so that both are written at once.
    pub(crate) number: u32,
}

/// An automaton, its table, and its fused table.
#[derive(Clone, Copy)]
pub(crate) struct Engine<'table> {
    pub(crate) dfa: &'table Dfa,
    pub(crate) layout: &'table Layout,
    pub(crate) cells: &'table StoredCells,
    pub(crate) fused: &'table Fused,
}

/// How far the ends of tokens were marked.
#[derive(Clone, Copy)]
pub(crate) struct Marked {
    // How many marks there are.
    pub(crate) count: usize,
    // Up to where the text was read.
    pub(crate) at: usize,
}

// How many marks are kept when this row is reached: one if it is a copy, else none.
#[inline(always)]
fn kept(row: u32, emit: u32) -> usize
    ensures { ((row < emit) × (result ≡ 0)) ⊎ ((emit ≤ row) × (result ≡ 1)) }
{
    (row >= emit) as usize
}

// Whether the next `EIGHT` bytes come before the end and are all ASCII.
#[inline(always)]
fn are_ascii(bytes: &[u8], at: usize, end: usize) -> bool
    requires ordered { at ≤ end }
    requires within { end ≤ length bytes.now }
    ensures { IsTrue result → (at + EIGHT ≤ end)
        × ((k : ℕ) → at ≤ k → k < at + EIGHT → slice_index bytes.now k < 128) }
{
    end - at >= EIGHT && no_high_bit(bytes, at)
}

#[inline(always)]
fn no_high_bit(bytes: &[u8], at: usize) -> bool
    requires { at + EIGHT ≤ length bytes.now }
    ensures { IsTrue result
        → (k : ℕ) → at ≤ k → k < at + EIGHT → slice_index bytes.now k < 128 }
{
    let lanes = u8x8::from_slice(&bytes[at..]);
    lanes.simd_ge(u8x8::splat(128)).to_bitmask() == 0
}

// Counts steps. It does nothing when it runs.
#[inline(always)]
fn add_steps(steps: &mut Steps, count: usize)
    ensures { steps.new ≡ steps.old + count }
{
    for counted in 0..count {
        steps.tick();
    }
}

/// Marks the ends of the tokens from the place on, in `limit` bytes and one block at most, while there is room for them. A step
/// is counted for each character read.
///
/// A mark is written at each character, and kept if a token ended before it, so that no branch depends on that. If the row is
/// the same as eight bytes before, the bytes on which it stays are skipped.
pub(crate) fn mark_ends<R: Rows>(
    engine: &Engine,
    cells: R,
    text: &str,
    from: usize,
    limit: usize,
    marks: &mut [Mark],
    steps: &mut Steps,
) -> Marked
    requires table { IsTableOf engine.now.layout.now (numbers_of engine.now.cells.now) engine.now.dfa.now }
    requires fused { IsFusedOf engine.now.fused.now engine.now.layout.now (numbers_of engine.now.cells.now) }
    requires cells { R.numbers cells ≡ numbers_of engine.now.fused.now.cells }
    requires boundary { IsCharBoundary text.now from }
    ensures length { length marks.new ≡ length marks.old }
    ensures within { result.count ≤ length marks.new }
    ensures marks { (to : ℕ) × (to ≤ result.at)
        × AreMarks engine.now.fused.now engine.now.layout.now engine.now.dfa.now
        text.now from from to (take result.count marks.new) }
    ensures cost { steps.new + from ≤ steps.old + result.at }
    ensures limit { steps.new ≤ steps.old + limit }
    ensures read { steps.old + result.count ≤ steps.new }
{
    // There is a state, so START is one.
    let _states = engine.dfa.states();
    let (fused, layout) = (engine.fused, engine.layout);
    let (bytes, blocks) = (text.as_bytes(), layout.blocks.as_slice());
    let emit = fused.emit;
    let end = text.len().min(from + limit.min(BLOCK));
    let mut row = fused.first;
    let mut at = from;
    let mut count = 0;
    'marking: while at < end && marks.len() - count >= EIGHT {
        'eights: while marks.len() - count >= EIGHT && are_ascii(bytes, at, end) {
            let before = row;
            'eight: for step in 0..EIGHT {
                let place = at + step;
                let class = blocks[bytes[place] as usize];
                let next = cells.cell(row, class);
                steps.tick();
                if next == 0 {
                    return Marked {
                        count,
                        at: place + 1,
                    };
                }
                marks[count] = Mark {
                    place: (place - from) as u32,
                    number: row,
                };
                count += kept(next, emit);
                row = next;
            }
            let to = fused.stay_end(before, row, bytes, at + EIGHT, end);
            add_steps(steps, to - at - EIGHT);
            at = to;
        }
        if at >= end || marks.len() - count < EIGHT {
            return Marked { count, at };
        }
        let place = (at - from) as u32;
        let class = read_class(layout, text, &mut at);
        let next = cells.cell(row, class);
        steps.tick();
        if next == 0 {
            return Marked { count, at };
        }
        marks[count] = Mark { place, number: row };
        count += kept(next, emit);
        row = next;
    }
    Marked { count, at }
}

/// Replaces the row in each mark by the pattern that follows the row.
pub(crate) fn name_patterns<R: Rows>(cells: R, width: usize, marks: &mut [Mark])
    requires { All (λ m. m.number + width < length (R.numbers cells)) marks.old }
    ensures { marks.new ≡ map (named (R.numbers cells) width) marks.old }
{
    for mark in marks.iter_mut() {
        mark.number = cells.pattern(mark.number, width);
    }
}
