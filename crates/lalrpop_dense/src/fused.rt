//! A table that leads on past the end of a match, so that a whole text can be cut without a branch at a token's end.

ghost use Rattle.std.specs.Prelude.{◌≡◌, ℕ, ◌+◌, ◌<◌, ◌≤◌, length, slice_index, IsTrue};
ghost use Rattle.lalrpop_dense.specs.Internal.Fused.{IsRow, EndsBefore, Leads, IsRightRow, LeadsBack, IsFusedOf, StaysOn};
ghost use Rattle.lalrpop_dense.specs.Internal.Table.{HasClasses, class_of, numbers_of};

use crate::self_loop::SelfLoop;
use crate::table::{Cells, Layout, StoredCells};
use std::alloc::{AllocError, Global};

/// A row of a fused table.
#[derive(Clone, Copy, Debug)]
pub(crate) struct FusedRow {
    // Where it begins.
    pub(crate) start: u32,
    // Where the row of its state begins in the table that was fused.
    pub(crate) origin: u32,
}

/// A table in which an accepting state that can't go on leads straight to where START leads by the same character. There it
/// leads to a copy of the row: the copies are the rows from `emit` on.
#[derive(Debug, Drop)]
pub(crate) struct Fused {
    // For each row a cell for each class of characters, and the pattern. The first row has no state: a cell of 0 leads nowhere.
    pub(crate) cells: StoredCells,
    pub(crate) rows: Vec<FusedRow>,
    // The row of START.
    pub(crate) first: u32,
    // Where the first copy begins.
    pub(crate) emit: u32,
    // The bytes on which rows stay: those of a row are at its start shifted right by `shift` bits.
    pub(crate) stays: Vec<SelfLoop>,
    pub(crate) shift: u8,
}

impl Fused {
    /// A place up to which the row leads back to itself from `at` on. It is `at` itself unless the row is the same as
    /// `before`.
    #[inline(always)]
    pub(crate) fn stay_end(
        &self,
        before: u32,
        row: u32,
        bytes: &[u8],
        at: usize,
        end: usize,
    ) -> usize
        requires ordered { at ≤ end }
        requires within { end ≤ length bytes.now }
        ensures on { at ≤ result }
        ensures within { result ≤ end }
        ensures stays { StaysOn self.now row bytes.now at result }
    {
        if before != row {
            return at;
        }
        match self.stays.get((row >> (self.shift % 32)) as usize) {
            Some(stay) if stay.row == row => stay.end(bytes, at, end),
            _ => at,
        }
    }
}

// Whether the fused row at `start` is for the row at `origin`. The rows are listed in order, without the first.
fn is_row(fused: &Fused, width: usize, start: usize, origin: usize) -> bool
    requires { width < 65536 }
    ensures { IsTrue result → IsRow fused.now start origin }
{
    let place = (start / (width + 1)).wrapping_sub(1);
    match fused.rows.get(place) {
        Some(row) => row.start as usize == start && row.origin as usize == origin,
        None => false,
    }
}

fn ends_before(layout: &Layout, cells: &[u32], row: usize, class: usize) -> bool
    requires rows { 0 < length layout.now.rows.items }
    requires within { row + class < length cells.now }
    ensures { IsTrue result → EndsBefore layout.now cells.now row class }
{
    layout.live <= row
        && layout.accept <= row
        && row != layout.rows[0] as usize
        && (cells[row + class] as usize) < layout.live
}

// Whether the cell of the class leads where it should.
fn leads_right(fused: &Fused, layout: &Layout, cells: &[u32], row: FusedRow, class: usize) -> bool
    requires narrow { layout.now.width < 65536 }
    requires class { class < layout.now.width }
    requires start { row.start + layout.now.width < length (numbers_of fused.now.cells) }
    requires origin { row.origin + layout.now.width < length cells.now }
    ensures { IsTrue result → Leads fused.now layout.now cells.now row class }
{
    let to = fused.cells.at(row.start as usize + class);
    if to == 0 {
        return true;
    }
    if to < fused.emit as usize {
        let target = cells[row.origin as usize + class];
        return is_row(fused, layout.width, to, target as usize);
    }
    if layout.rows.is_empty() || layout.rows[0] as usize + layout.width >= cells.len() {
        return false;
    }
    let target = cells[layout.rows[0] as usize + class];
    ends_before(layout, cells, row.origin as usize, class)
        && is_row(fused, layout.width, to, target as usize)
}

fn is_right_row(fused: &Fused, layout: &Layout, cells: &[u32], row: FusedRow) -> bool
    requires { layout.now.width < 65536 }
    ensures { IsTrue result → IsRightRow fused.now layout.now cells.now row }
{
    if row.start as usize + layout.width >= fused.cells.len()
        || row.origin as usize + layout.width >= cells.len()
        || fused.cells.at(row.start as usize + layout.width)
            != cells[row.origin as usize + layout.width] as usize
    {
        return false;
    }
    for class in 0..layout.width {
        if !leads_right(fused, layout, cells, row, class) {
            return false;
        }
    }
    true
}

fn is_back(fused: &Fused, layout: &Layout, row: u32, byte: u8) -> bool
    requires { HasClasses layout.now }
    ensures { IsTrue result
        → slice_index (numbers_of fused.now.cells) (row + class_of layout.now byte) ≡ row }
{
    let place = row as usize + layout.class(u32::from(byte)) as usize;
    place < fused.cells.len() && fused.cells.at(place) == row as usize
}

// Whether the row leads back to itself on each of the bytes.
fn leads_back(fused: &Fused, layout: &Layout, stay: SelfLoop) -> bool
    requires { HasClasses layout.now }
    ensures { IsTrue result → LeadsBack fused.now layout.now stay }
{
    if stay.row == 0 || stay.row >= fused.emit {
        return false;
    }
    for byte in 0..128 {
        if stay.has(byte) && !is_back(fused, layout, stay.row, byte) {
            return false;
        }
    }
    true
}

/// Whether the fused table is right for the table.
pub(crate) fn is_fused_of(fused: &Fused, layout: &Layout, cells: &[u32]) -> bool
    requires { HasClasses layout.now }
    ensures { IsTrue result → IsFusedOf fused.now layout.now cells.now }
{
    if layout.rows.is_empty()
        || layout.width > 65535
        || !is_row(
            fused,
            layout.width,
            fused.first as usize,
            layout.rows[0] as usize,
        )
    {
        return false;
    }
    for row in &fused.rows {
        if !is_right_row(fused, layout, cells, *row) {
            return false;
        }
    }
    for stay in &fused.stays {
        if !leads_back(fused, layout, *stay) {
            return false;
        }
    }
    true
}
