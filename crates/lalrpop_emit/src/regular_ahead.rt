//! The table that runs ahead of a regular table.
ghost use Rattle.std.specs.Prelude.{◌≡◌, ◌+◌, ◌*◌, ◌++◌, ◌-◌, ◌<◌, ◌≤◌, ◌^◌, ℕ, length, map, slice_index, IfOk, OnOk};
ghost use Rattle.std.specs.List.{All, range_with_len};
ghost use Rattle.lalrpop_emit.specs.Ahead.{Again, In, by_column};
ghost use Rattle.lalrpop_emit.specs.Internal.Lists.{ahead_numbers, list_numbers};
ghost use Rattle.lalrpop_emit.specs.Internal.Regular.{IsRegular};
ghost use Rattle.lalrpop_emit.specs.Internal.Walking.{CanRunAhead};
ghost use Rattle.lalrpop_emit.specs.NumberedRules.{IsStorableAhead};
ghost use Rattle.lalrpop_emit.specs.Internal.MadeRows.{AreRowsOf};
ghost use Rattle.lalrpop_emit.specs.Internal.Standings.{IsAmong, live_row, place_in, standing_at, standing_cells, standings_of};

use crate::ahead_table::AheadLists;
use crate::standing::{Standing, by_column, rule_number};
use crate::table_lists::TableLists;
use std::alloc::{AllocError, Global};

/// The rows of a regular table: how long each is, how many are dead, how many are live, and how many of these
/// wait, all of which are taken to wait long.
#[derive(Clone, Copy)]
pub(crate) struct Shape {
    pub(crate) stride: usize,
    pub(crate) dead: usize,
    pub(crate) live: usize,
    pub(crate) waiting: usize,
}

// Where the live row with this number begins.
fn live_row(shape: Shape, number: usize) -> u32
    requires some { 0 < shape.stride }
    requires within { number < shape.live }
    requires few { (shape.dead + shape.live) * shape.stride < 2 ^ 32 }
    ensures row { result ≡ live_row shape number }
{
    ((shape.dead + number) * shape.stride) as u32
}

// The number of the row that stands for this.
fn place_in(shape: Shape, standing: Standing) -> usize
    requires some { 0 < shape.stride }
    requires few { shape.live < 2 ^ 32 }
    ensures place { result ≡ place_in shape standing }
{
    match standing {
        Standing::Lost => 0,
        Standing::Begin => shape.live + 1,
        Standing::In(row) => (row as usize / shape.stride).saturating_sub(shape.dead) + 1,
        Standing::Ended => shape.live + 2,
        Standing::Again(row) => {
            (row as usize / shape.stride).saturating_sub(shape.dead) + shape.live + 3
        }
    }
}

// Appends what stands for the live rows.
fn push_in(standings: &mut Vec<Standing>, shape: Shape) -> Result<(), AllocError>
    requires some { 0 < shape.stride }
    requires few { (shape.dead + shape.live) * shape.stride < 2 ^ 32 }
    ensures live { OnOk result (standings.new.items
        ≡ standings.old.items ++ map (λ k. In (live_row shape k)) (range_with_len 0 shape.live)) }
{
    for number in 0..shape.live {
        standings.push(Standing::In(live_row(shape, number)))?;
    }
    Ok(())
}

// The same of a token that has just begun where another ended.
fn push_again(standings: &mut Vec<Standing>, shape: Shape) -> Result<(), AllocError>
    requires some { 0 < shape.stride }
    requires few { (shape.dead + shape.live) * shape.stride < 2 ^ 32 }
    ensures live { OnOk result (standings.new.items
        ≡ standings.old.items ++ map (λ k. Again (live_row shape k))
        (range_with_len 0 shape.live)) }
{
    for number in 0..shape.live {
        standings.push(Standing::Again(live_row(shape, number)))?;
    }
    Ok(())
}

// What the rows stand for.
fn standing_list(alloc: Global, shape: Shape) -> Result<Vec<Standing>, AllocError>
    requires some { 0 < shape.stride }
    requires few { (shape.dead + shape.live) * shape.stride < 2 ^ 32 }
    ensures standings { IfOk result (λ standings. standings.items ≡ standings_of shape) }
{
    let mut standings = Vec::new(alloc);
    standings.push(Standing::Lost)?;
    push_in(&mut standings, shape)?;
    standings.push(Standing::Begin)?;
    standings.push(Standing::Ended)?;
    push_again(&mut standings, shape)?;
    Ok(standings)
}

// Where the row begins to which the column leads from one that stands for this.
fn target(table: &TableLists, shape: Shape, width: usize, standing: Standing, column: usize) -> u32
    requires regular { IsRegular (list_numbers table.now) shape.dead (shape.dead + shape.live) }
    requires stride { shape.stride ≡ table.now.width + 1 }
    requires width { width ≡ table.now.width + 130 }
    requires few { (2 * shape.live + 3) * (width + 1) ≤ 2 ^ 30 }
    requires among { IsAmong shape standing }
    requires column { column < width }
    ensures target { result
        ≡ place_in shape (by_column (list_numbers table.now) width standing column) * (width + 1) }
    ensures small { result < 2 ^ 30 }
{
    (place_in(shape, by_column(table, width, standing, column)) * (width + 1)) as u32
}

// Appends the cells of a row that stands for this.
fn push_cells(
    cells: &mut Vec<u32>,
    table: &TableLists,
    shape: Shape,
    width: usize,
    standing: Standing,
) -> Result<(), AllocError>
    requires regular { IsRegular (list_numbers table.now) shape.dead (shape.dead + shape.live) }
    requires stride { shape.stride ≡ table.now.width + 1 }
    requires width { width ≡ table.now.width + 130 }
    requires few { (2 * shape.live + 3) * (width + 1) ≤ 2 ^ 30 }
    requires among { IsAmong shape standing }
    requires small { All (λ n. n < 2 ^ 32) cells.old.items }
    ensures small { OnOk result (All (λ n. n < 2 ^ 32) cells.new.items) }
    ensures cells { OnOk result (cells.new.items
        ≡ cells.old.items ++ standing_cells (list_numbers table.now) shape width standing) }
{
    for column in 0..width {
        cells.push(target(table, shape, width, standing, column))?;
    }
    cells.push(rule_number(table, standing))?;
    Ok(())
}

// The cells of all rows.
fn all_cells(
    alloc: Global,
    table: &TableLists,
    shape: Shape,
    width: usize,
    standings: &[Standing],
) -> Result<Vec<u32>, AllocError>
    requires regular { IsRegular (list_numbers table.now) shape.dead (shape.dead + shape.live) }
    requires stride { shape.stride ≡ table.now.width + 1 }
    requires width { width ≡ table.now.width + 130 }
    requires few { (2 * shape.live + 3) * (width + 1) ≤ 2 ^ 30 }
    requires standings { standings.now ≡ standings_of shape }
    ensures small { IfOk result (λ cells. All (λ n. n < 2 ^ 32) cells.items) }
    ensures cells { IfOk result (λ cells. AreRowsOf
        (λ k. standing_cells (list_numbers table.now) shape width (standing_at shape k))
        width cells.items (2 * shape.live + 3)) }
{
    let mut cells = Vec::new(alloc);
    for standing in standings {
        push_cells(&mut cells, table, shape, width, *standing)?;
    }
    Ok(cells)
}

/// The table that runs ahead of a regular table, of whose rows the first `dead` ones are dead.
///
/// # Errors
///
/// `AllocError` if a request for memory was refused.
pub(crate) fn regular_ahead(
    alloc: Global,
    table: &TableLists,
    shape: Shape,
) -> Result<AheadLists, AllocError>
    requires regular { IsRegular (list_numbers table.now) shape.dead (shape.dead + shape.live) }
    requires stride { shape.stride ≡ table.now.width + 1 }
    requires few { (2 * shape.live + 3) * (table.now.width + 131) ≤ 2 ^ 30 }
    requires small { (shape.dead + shape.live) * shape.stride < 2 ^ 32 }
    requires narrow { table.now.width ≤ 255 }
    requires waiting { shape.waiting ≤ shape.live }
    requires accept { table.now.accept ≡ (shape.dead + shape.waiting) * shape.stride }
    ensures right { IfOk result
        (λ ahead. CanRunAhead (ahead_numbers ahead) (list_numbers table.now)) }
    ensures storable { IfOk result (λ ahead. IsStorableAhead (ahead_numbers ahead)) }
{
    let width = table.width + 130;
    let standings = standing_list(alloc, shape)?;
    let cells = all_cells(alloc, table, shape, width, &standings)?;
    Ok(AheadLists {
        start: (shape.live + 1) * (width + 1),
        width,
        ends: (shape.live + 2) * (width + 1),
        waiting: shape.waiting,
        before: 0,
        cells,
    })
}
