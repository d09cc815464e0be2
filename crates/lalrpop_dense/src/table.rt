//! A table of where characters lead.

ghost use Rattle.std.specs.Prelude.{◌≡◌, ℕ, ◌+◌, ◌<◌, List, length, slice_index, IfOk, IfSome};
ghost use Rattle.lalrpop_dense.specs.Internal.Table.{numbers_of};

use crate::fused::Fused;
use std::alloc::{AllocError, Global};

/// The layout of a table's cells: a row for each state, with a cell for each class of characters and a last one for the
/// pattern that the state accepts. The rows of reject states come first, those of accepting states last.
#[derive(Debug, Drop)]
pub(crate) struct Layout {
    // The classes of the characters, in blocks of 128.
    pub(crate) blocks: Vec<u8>,
    // For each page of 128 characters the number of its block, up to the last page that differs from the one before.
    pub(crate) pages: Vec<u16>,
    // Where the row of each state begins.
    pub(crate) rows: Vec<u32>,
    // How long a row is, without the pattern.
    pub(crate) width: usize,
    // Where the first row of a state that doesn't reject begins.
    pub(crate) live: usize,
    // Where the first row of an accepting state begins.
    pub(crate) accept: usize,
}

impl Layout {
    ghost use Rattle.lalrpop_dense.specs.Internal.Table.{HasClasses, class_of, page_of};

    /// The block of the page with this number.
    #[inline(always)]
    pub(crate) fn page(&self, number: usize) -> u16
        requires { 0 < length self.now.pages.items }
        ensures { result ≡ page_of self.now number }
    {
        self.pages[number.min(self.pages.len() - 1)]
    }

    /// The class of a character.
    #[inline(always)]
    pub(crate) fn class(&self, value: u32) -> u8
        requires { HasClasses self.now }
        ensures { result ≡ class_of self.now value }
    {
        let value = value as usize;
        self.blocks[self.page(value / 128) as usize * 128 + value % 128]
    }
}

/// Cells: each is where a state's row begins, or a pattern.
pub(crate) trait Cells {
    ghost numbers: { Self → List ℕ };

    /// The cell at the place.
    fn at(&self, place: usize) -> usize
        requires { place < length (numbers self.now) }
        ensures { result ≡ slice_index (numbers self.now) place };
}

impl Cells for Vec<u16> {
    ghost numbers = { λ cells. cells.items };

    #[inline(always)]
    fn at(&self, place: usize) -> usize {
        self[place] as usize
    }
}

impl Cells for Vec<u32> {
    ghost numbers = { λ cells. cells.items };

    #[inline(always)]
    fn at(&self, place: usize) -> usize {
        self[place] as usize
    }
}

/// Cells of 16 bits, or of 32 if they don't fit.
#[derive(Debug, Drop)]
pub(crate) enum StoredCells {
    Narrow(Vec<u16>),
    Wide(Vec<u32>),
}

impl Cells for StoredCells {
    ghost numbers = { numbers_of };

    fn at(&self, place: usize) -> usize {
        match self {
            StoredCells::Narrow(cells) => cells.at(place),
            StoredCells::Wide(cells) => cells.at(place),
        }
    }
}

impl StoredCells {
    /// How many there are.
    pub(crate) fn len(&self) -> usize
        ensures { result ≡ length (numbers_of self.now) }
    {
        match self {
            StoredCells::Narrow(cells) => cells.len(),
            StoredCells::Wide(cells) => cells.len(),
        }
    }
}

/// Cells of one size, as a slice, which are read by a row and a class.
pub(crate) trait Rows: Copy {
    ghost numbers: { Self → List ℕ };

    /// The pattern after the row, which has this width.
    fn pattern(&self, row: u32, width: usize) -> u32
        requires { row + width < length (numbers self.now) }
        ensures { result ≡ slice_index (numbers self.now) (row + width) };

    /// The cell of the row for the class. The class is added first, since it's known before the row is.
    fn cell(&self, row: u32, class: u8) -> u32
        requires { row + class < length (numbers self.now) }
        ensures { result ≡ slice_index (numbers self.now) (row + class) };
}

impl Rows for &[u16] {
    ghost numbers = { λ cells. cells.now };

    #[inline(always)]
    fn pattern(&self, row: u32, width: usize) -> u32 {
        self[row as usize + width] as u32
    }

    #[inline(always)]
    fn cell(&self, row: u32, class: u8) -> u32 {
        self[class as usize..][row as usize] as u32
    }
}

impl Rows for &[u32] {
    ghost numbers = { λ cells. cells.now };

    #[inline(always)]
    fn pattern(&self, row: u32, width: usize) -> u32 {
        self[row as usize + width]
    }

    #[inline(always)]
    fn cell(&self, row: u32, class: u8) -> u32 {
        self[class as usize..][row as usize]
    }
}

// The same cells in 16 bits, if they fit.
fn narrow(alloc: Global, cells: &[u32]) -> Result<Option<Vec<u16>>, AllocError>
    ensures { IfOk result (λ found. IfSome found (λ narrow. narrow.items ≡ cells.now)) }
{
    let mut narrow = Vec::new(alloc);
    for cell in cells {
        match u16::try_from(*cell) {
            Ok(cell) => narrow.push(cell)?,
            Err(_) => return Ok(None),
        }
    }
    Ok(Some(narrow))
}

/// Stores the cells in 16 bits if they fit, else in 32.
///
/// # Errors
///
/// `AllocError` if a request for memory was refused.
pub(crate) fn stored(alloc: Global, cells: Vec<u32>) -> Result<StoredCells, AllocError>
    ensures { IfOk result (λ stored. numbers_of stored ≡ cells.items) }
{
    match narrow(alloc, &cells)? {
        Some(cells) => Ok(StoredCells::Narrow(cells)),
        None => Ok(StoredCells::Wide(cells)),
    }
}

/// A table: its cells, their layout, and its fused table.
#[derive(Debug, Drop)]
pub(crate) struct Table {
    pub(crate) layout: Layout,
    pub(crate) cells: StoredCells,
    // None if it would be too large.
    pub(crate) fused: Option<Fused>,
}
