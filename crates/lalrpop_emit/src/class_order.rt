//! The order of the classes of a table: first come those of characters beyond ASCII.
//!
//! The numbers are made with no promise, and then checked. What is proved is the check.
ghost use Rattle.std.specs.Prelude.{ℕ, ◌+◌, ◌<◌, ◌^◌, List, IsTrue, IfOk};
ghost use Rattle.lalrpop_dfa.specs.Dfa.{Row};
ghost use Rattle.lalrpop_dense.specs.DenseTable.{IsTableFor};
ghost use Rattle.lalrpop_emit.specs.NumberedRules.{IsStorableTable};
ghost use Rattle.lalrpop_emit.specs.Internal.ClassOrder.{AreMovedBlocks, AreMovedCells, IsMovedCell, IsMovedRow, IsRenumbered, IsRowPlace};
ghost use Rattle.lalrpop_emit.specs.Internal.Lists.{list_numbers};
ghost use Rattle.lalrpop_emit.specs.Internal.Walking.{AreRulesBelow, IsWalkable};

use crate::standing::cell;
use crate::table_lists::TableLists;
use std::alloc::{AllocError, Global};

fn low(number: usize) -> u32 {
    (number & 0xFFFF_FFFF) as u32
}

// Marks the classes of the block.
fn mark_block(blocks: &[u32], block: u32, marks: &mut [bool]) {
    let first = block as usize * 128;
    for place in first..first + 128 {
        if let Some(class) = blocks.get(place) {
            if let Some(mark) = marks.get_mut(*class as usize) {
                *mark = true;
            }
        }
    }
}

// For each class whether it occurs beyond ASCII. Pages after the last one have its block, also if it is that of ASCII.
fn beyond_ascii(alloc: Global, table: &TableLists) -> Result<Vec<bool>, AllocError> {
    let mut marks = vec![in alloc; false; table.width]?;
    let first = if table.pages.len() > 1 { 1 } else { 0 };
    for page in first..table.pages.len() {
        // Most pages have the block of the page before them.
        if page == first || table.pages[page] != table.pages[page - 1] {
            mark_block(&table.blocks, table.pages[page], &mut marks);
        }
    }
    Ok(marks)
}

// Appends the classes with this mark.
fn push_marked(classes: &mut Vec<u32>, marks: &[bool], wanted: bool) -> Result<(), AllocError> {
    for (class, mark) in marks.iter().enumerate() {
        if *mark == wanted {
            classes.push(low(class))?;
        }
    }
    Ok(())
}

// The classes in their new order.
fn ordered_classes(alloc: Global, table: &TableLists) -> Result<Vec<u32>, AllocError> {
    let marks = beyond_ascii(alloc, table)?;
    let mut classes = Vec::new(alloc);
    push_marked(&mut classes, &marks, true)?;
    push_marked(&mut classes, &marks, false)?;
    Ok(classes)
}

// For each class its place in the order.
fn new_numbers(alloc: Global, classes: &[u32]) -> Result<Vec<u32>, AllocError> {
    let mut numbers = vec![in alloc; 0; classes.len()]?;
    for (place, class) in classes.iter().enumerate() {
        if let Some(number) = numbers.get_mut(*class as usize) {
            *number = low(place);
        }
    }
    Ok(numbers)
}

fn moved_blocks(alloc: Global, blocks: &[u32], numbers: &[u32]) -> Result<Vec<u32>, AllocError> {
    let mut moved = Vec::new(alloc);
    for class in blocks {
        moved.push(cell(numbers, 0, *class as usize))?;
    }
    Ok(moved)
}

// The cells of each row in the new order, and after them the cell of the rule, which stays.
fn moved_cells(alloc: Global, table: &TableLists, classes: &[u32]) -> Result<Vec<u32>, AllocError> {
    let mut moved = Vec::new(alloc);
    for row in (0..table.cells.len()).step_by(table.width.saturating_add(1)) {
        for class in classes {
            moved.push(cell(&table.cells, row, *class as usize))?;
        }
        moved.push(cell(&table.cells, row, table.width))?;
    }
    Ok(moved)
}

// Whether each class of the blocks has its new number, which is one of a class and fits eight bits.
fn are_moved_blocks(table: &TableLists, blocks: &[u32], numbers: &[u32]) -> bool
    ensures { IsTrue result → AreMovedBlocks (list_numbers table.now) blocks.now numbers.now }
{
    if blocks.len() != table.blocks.len() {
        return false;
    }
    for place in 0..blocks.len() {
        let class = blocks[place];
        if class != cell(numbers, 0, table.blocks[place] as usize)
            || class as usize >= table.width
            || class >= 256
        {
            return false;
        }
    }
    true
}

// Whether a row begins at the place, if it is within the cells.
fn is_row_place(table: &TableLists, place: usize) -> bool
    requires { table.now.width + 1 < 2 ^ 64 }
    ensures { IsTrue result → IsRowPlace (list_numbers table.now) place }
{
    place % (table.width + 1) == 0
}

// Whether the class leads from the row by its new number to the same row, and a row begins there.
fn is_moved_cell(
    table: &TableLists,
    cells: &[u32],
    numbers: &[u32],
    row: usize,
    class: usize,
) -> bool
    requires { table.now.width + 1 < 2 ^ 64 }
    ensures { IsTrue result → IsMovedCell (list_numbers table.now) cells.now numbers.now row class }
{
    let target = cell(&table.cells, row, class);
    cell(cells, row, cell(numbers, 0, class) as usize) == target
        && is_row_place(table, target as usize)
}

// Whether each class leads from the row by its new number to the same row, and the rule stays.
fn is_moved_row(table: &TableLists, cells: &[u32], numbers: &[u32], row: usize) -> bool
    requires { table.now.width + 1 < 2 ^ 64 }
    ensures { IsTrue result → IsMovedRow (list_numbers table.now) cells.now numbers.now row }
{
    for class in 0..table.width {
        if !is_moved_cell(table, cells, numbers, row, class) {
            return false;
        }
    }
    cell(cells, row, table.width) == cell(&table.cells, row, table.width)
}

// Whether each row is the same by the new numbers.
fn are_moved_cells(table: &TableLists, cells: &[u32], numbers: &[u32]) -> bool
    requires { table.now.width + 1 < 2 ^ 64 }
    ensures { IsTrue result → AreMovedCells (list_numbers table.now) cells.now numbers.now }
{
    if cells.len() != table.cells.len() {
        return false;
    }
    let stride = table.width + 1;
    for number in 0..cells.len() / stride {
        if !is_moved_row(table, cells, numbers, number * stride) {
            return false;
        }
    }
    true
}

// Whether the blocks and cells are those of the table, by the new numbers.
fn is_renumbered(table: &TableLists, blocks: &[u32], cells: &[u32], numbers: &[u32]) -> bool
    ensures { IsTrue result
        → IsRenumbered (list_numbers table.now) blocks.now cells.now numbers.now }
{
    table.width < usize::MAX
        && is_row_place(table, table.start)
        && are_moved_blocks(table, blocks, numbers)
        && are_moved_cells(table, cells, numbers)
}

/// The same table, with its classes in another order: first come those of characters beyond ASCII. It stays as it is if the check
/// finds the new numbers wrong.
///
/// # Errors
///
/// `AllocError` if a request for memory was refused.
pub(crate) fn in_class_order(alloc: Global, table: TableLists) -> Result<TableLists, AllocError>
    ensures right { IfOk result (λ made.
        (d : List Row) → IsTableFor (list_numbers table) d → IsTableFor (list_numbers made) d) }
    ensures storable { IfOk result (λ made.
        IsStorableTable (list_numbers table) → IsStorableTable (list_numbers made)) }
    ensures rules { IfOk result (λ made. (count : ℕ) → IsWalkable (list_numbers table)
        → AreRulesBelow (list_numbers table) count → AreRulesBelow (list_numbers made) count) }
{
    let classes = ordered_classes(alloc, &table)?;
    let numbers = new_numbers(alloc, &classes)?;
    let blocks = moved_blocks(alloc, &table.blocks, &numbers)?;
    let cells = moved_cells(alloc, &table, &classes)?;
    if is_renumbered(&table, &blocks, &cells, &numbers) {
        Ok(TableLists {
            blocks,
            cells,
            ..table
        })
    } else {
        Ok(table)
    }
}
