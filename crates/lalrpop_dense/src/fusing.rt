//! A fused table that is yet to be checked. Nothing is promised about how it is made.

use crate::fused::{Fused, FusedRow};
use crate::self_loop::SelfLoop;
use crate::table::{Layout, stored};
use std::alloc::{AllocError, Global};

// The most cells that 32 bits can number.
const MOST: usize = 1 << 32;

fn low(number: usize) -> u32 {
    (number & 0xFFFF_FFFF) as u32
}

// The table to fuse. Its rows are numbered from 0, those of reject states first.
#[derive(Clone, Copy)]
struct Plain<'table> {
    layout: &'table Layout,
    cells: &'table [u32],
    // How long a row is, with the pattern.
    stride: usize,
    // How many rows are of reject states.
    dead: usize,
    // The row of START.
    start: usize,
}

impl<'table> Plain<'table> {
    fn cell(&self, row: usize, place: usize) -> usize {
        let row = row.wrapping_mul(self.stride);
        self.cells
            .get(row.wrapping_add(place))
            .copied()
            .unwrap_or(0) as usize
    }

    // The row to which a row leads by a class.
    fn target(&self, row: usize, class: usize) -> usize {
        self.cell(row, class) / self.stride.max(1)
    }

    fn accepts(&self, row: usize) -> bool {
        row.wrapping_mul(self.stride) >= self.layout.accept
    }
}

// A fused table in the making, whose cells all have 32 bits.
#[derive(Drop)]
struct Draft {
    cells: Vec<u32>,
    rows: Vec<FusedRow>,
    first: u32,
    emit: u32,
    stays: Vec<SelfLoop>,
    shift: u8,
}

// For each fused row, the row that it stands for.
#[derive(Drop)]
struct Origins {
    origins: Vec<usize>,
    // For each class, where the copy begins of the row that START leads to by it, or 0.
    copies: Vec<usize>,
    // How many fused rows aren't copies.
    plain: usize,
}

// A fused row for each row of a state that doesn't reject, then a copy of each one that START leads to.
fn origins_of(alloc: Global, table: &Plain, count: usize) -> Result<Origins, AllocError> {
    let mut origins = Vec::new(alloc);
    for row in table.dead..count {
        origins.push(row)?;
    }
    let plain = origins.len();
    // For each row, where its copy begins, or 0.
    let mut places = vec![in alloc; 0usize; count]?;
    let mut copies = Vec::new(alloc);
    for class in 0..table.layout.width {
        let row = table.target(table.start, class);
        let mut copy = 0;
        if row >= table.dead {
            if let Some(place) = places.get_mut(row) {
                if *place == 0 {
                    origins.push(row)?;
                    *place = origins.len().wrapping_mul(table.stride);
                }
                copy = *place;
            }
        }
        copies.push(copy)?;
    }
    Ok(Origins {
        origins,
        copies,
        plain,
    })
}

// Where the fused row begins to which the fused row of this one leads by the class, or 0 if it leads nowhere. Fused rows that
// aren't copies are in the order of their rows, behind an empty one.
fn leads_to(table: &Plain, origins: &Origins, row: usize, class: usize) -> usize {
    let target = table.cell(row, class);
    if target >= table.layout.live {
        return target
            .wrapping_sub(table.layout.live)
            .wrapping_add(table.stride);
    }
    if row == table.start || !table.accepts(row) {
        return 0;
    }
    origins.copies.get(class).copied().unwrap_or(0)
}

fn push_row(
    fused: &mut Draft,
    table: &Plain,
    origins: &Origins,
    row: usize,
) -> Result<(), AllocError> {
    fused.rows.push(FusedRow {
        start: low(fused.cells.len()),
        origin: low(row.wrapping_mul(table.stride)),
    })?;
    for class in 0..table.layout.width {
        let target = leads_to(table, origins, row, class);
        fused.cells.push(low(target))?;
    }
    fused.cells.push(low(table.cell(row, table.layout.width)))?;
    Ok(())
}

// How many low bits of two rows' starts can be dropped so that they still differ.
fn shift_of(stride: usize) -> u8 {
    (stride.checked_ilog2().unwrap_or(0) & 31) as u8
}

// Only bytes below this are tried as ones on which rows stay.
const ASCII_END: u8 = 128;

// How much is gained if a row stays on the byte. Blanks follow one another more often than any other byte.
fn weight_of(byte: u8) -> u32 {
    if byte == b' ' { LEAST_WEIGHT } else { 1 }
}

// Bytes of less weight aren't worth a look.
const LEAST_WEIGHT: u32 = 8;

fn stays_on(fused: &Draft, layout: &Layout, row: u32, byte: u8) -> bool {
    let class = layout.blocks.get(byte as usize).copied().unwrap_or(0);
    let cell = fused.cells.get((row as usize).wrapping_add(class as usize));
    cell.copied() == Some(row)
}

// Whether the row leads to itself at all. Most rows don't.
fn leads_to_itself(fused: &Draft, width: usize, row: u32) -> bool {
    for class in 0..width {
        let cell = fused.cells.get((row as usize).wrapping_add(class));
        if cell.copied() == Some(row) {
            return true;
        }
    }
    false
}

// The bytes on which the row stays, if they are worth a look.
fn stay_of(fused: &Draft, layout: &Layout, row: u32) -> Option<SelfLoop> {
    if !leads_to_itself(fused, layout.width, row) {
        return None;
    }
    let mut set = [0; 16];
    let mut weight = 0u32;
    for byte in 0..ASCII_END {
        if stays_on(fused, layout, row, byte) {
            set[(byte % 16) as usize] |= 1 << (byte / 16);
            weight = weight.wrapping_add(weight_of(byte));
        }
    }
    if weight < LEAST_WEIGHT {
        return None;
    }
    Some(SelfLoop { row, set })
}

// Adds the bytes on which each row that isn't a copy stays, at the row's start shifted.
fn push_stays(fused: &mut Draft, layout: &Layout, plain: usize) -> Result<(), AllocError> {
    let shift = fused.shift % 32;
    let none = SelfLoop {
        row: fused.first,
        set: [0; 16],
    };
    for _ in 0..(fused.cells.len() >> shift).wrapping_add(1) {
        fused.stays.push(none)?;
    }
    for place in 0..plain {
        let Some(row) = fused.rows.get(place).copied() else {
            break;
        };
        let start = row.start;
        if let Some(stay) = stay_of(fused, layout, start)
            && let Some(slot) = fused.stays.get_mut((start >> shift) as usize)
        {
            *slot = stay;
        }
    }
    Ok(())
}

/// A fused table that may be right for the table: the caller checks it. None if it would have too many cells.
///
/// # Errors
///
/// `AllocError` if a request for memory was refused.
pub(crate) fn make_fused(
    alloc: Global,
    layout: &Layout,
    cells: &[u32],
) -> Result<Option<Fused>, AllocError> {
    let stride = layout.width.wrapping_add(1);
    if stride == 0 {
        return Ok(None);
    }
    let table = Plain {
        layout,
        cells,
        stride,
        dead: layout.live / stride,
        start: layout.rows.first().copied().unwrap_or(0) as usize / stride,
    };
    let origins = origins_of(alloc, &table, cells.len() / stride)?;
    if origins.origins.len().wrapping_add(1).wrapping_mul(stride) >= MOST {
        return Ok(None);
    }
    let first = table.start.wrapping_sub(table.dead).wrapping_add(1);
    let mut fused = Draft {
        cells: vec![in alloc; 0u32; stride]?,
        rows: Vec::new(alloc),
        first: low(first.wrapping_mul(stride)),
        emit: low(origins.plain.wrapping_add(1).wrapping_mul(stride)),
        stays: Vec::new(alloc),
        shift: shift_of(stride),
    };
    for row in &origins.origins {
        push_row(&mut fused, &table, &origins, *row)?;
    }
    push_stays(&mut fused, layout, origins.plain)?;
    let Draft {
        cells,
        rows,
        first,
        emit,
        stays,
        shift,
    } = fused;
    Ok(Some(Fused {
        cells: stored(alloc, cells)?,
        rows,
        first,
        emit,
        stays,
        shift,
    }))
}
