//! The numbers of a table that runs ahead: it reads each byte of a text, on past the ends of tokens.
//!
//! The numbers are made with no promise, and then checked. What is proved is the check.
ghost use Rattle.std.specs.Prelude.{◌≡◌, ◌+◌, ◌-◌, ◌*◌, ◌<◌, ◌≤◌, ◌^◌, ℕ, length, max, min, IsTrue, IfOk, IfSome};
ghost use Rattle.lalrpop_dense.specs.DenseTable.{AreClasses, block_of_page, character_class};
ghost use Rattle.lalrpop_emit.specs.Ahead.{Begin, IsAheadOf, StandsFor, by_column, is_waiting, within_column};
ghost use Rattle.lalrpop_emit.specs.NumberedRules.{IsStorableAhead};
ghost use Rattle.lalrpop_emit.specs.Internal.Lists.{AreSmall, IsCountedRight, IsRightRow, LeadsRight, ahead_numbers, list_numbers, patience_in};
ghost use Rattle.lalrpop_emit.specs.Internal.Walking.{CanRunAhead, IsWalkable};

use crate::driver::{block, class};
use crate::standing::{
    Standing, by_column, cell, is_end, is_live, is_lost, is_told, is_waiting, row_by, rule_number,
};
use crate::table_lists::TableLists;
use std::alloc::{AllocError, Global};

/// The numbers of a table that runs ahead: where the row begins that every run begins in, how many columns there are, where the
/// first row begins that says that a token ended before the last byte; how many rows wait long, in which a token is open and
/// doesn't end, and how many those of the modes before do; then for each row a cell for each column, and one for the rule.
#[derive(Debug, Drop)]
pub(crate) struct AheadLists {
    pub(crate) start: usize,
    pub(crate) width: usize,
    pub(crate) ends: usize,
    pub(crate) waiting: usize,
    pub(crate) before: usize,
    pub(crate) cells: Vec<u32>,
}

// The most cells.
const MOST: usize = 1 << 29;

// And no more columns than this.
const MOST_COLUMNS: usize = 1 << 16;

// The most pages: one for each 128 characters.
const PAGES: usize = 8704;

// How many columns there are beside those of classes.
const OTHER_COLUMNS: usize = 130;

// A row waits long if it can wait for as many characters more.
const LONG: u32 = 16;

// What each row stands for, and where it begins.
#[derive(Drop)]
struct Rows {
    standings: Vec<Standing>,
    // How many wait long.
    waiting: usize,
    // Where the next row begins.
    end: usize,
    // How long a row is.
    stride: usize,
    // For each `slot` where its row begins; 0 if it has none.
    starts: Vec<u32>,
}

fn low(number: usize) -> u32 {
    (number & 0xFFFF_FFFF) as u32
}

// For each standing a place of its own.
fn slot(standing: Standing) -> usize {
    match standing {
        Standing::Begin => 0,
        Standing::Lost => 1,
        Standing::Ended => 2,
        Standing::In(row) => 3 + 2 * row as usize,
        Standing::Again(row) => 4 + 2 * row as usize,
    }
}

impl Rows {
    // Where the row of the standing begins, 0 if it has none.
    fn start(&self, standing: Standing) -> u32 {
        self.starts.get(slot(standing)).copied().unwrap_or(0)
    }

    fn push(&mut self, standing: Standing) -> Result<(), AllocError> {
        if let Some(start) = self.starts.get_mut(slot(standing)) {
            *start = low(self.end);
        }
        self.end = self.end.wrapping_add(self.stride);
        self.standings.push(standing)?;
        Ok(())
    }
}

// Whether some class leads from the row to one that waits, and that for this many characters more.
fn can_wait(table: &TableLists, patience: &[u32], row: usize, more: u32) -> bool {
    for class in 0..table.width {
        let next = row_by(table, row, class);
        let standing = Standing::In(next);
        if is_live(table, next)
            && is_waiting(table, standing)
            && patience_in(table, patience, standing) >= more
        {
            return true;
        }
    }
    false
}

// For how many characters more each row of the table can wait; `LONG` for all that can for more. Each round finds the rows that can
// wait for one more, among those of the round before.
fn patience_of(alloc: Global, table: &TableLists) -> Result<Vec<u32>, AllocError> {
    let stride = table.width.saturating_add(1);
    let mut patience = vec![in alloc; 0u32; table.cells.len() / stride]?;
    for more in 0..LONG {
        let mut is_same = true;
        for row in (table.live..table.accept).step_by(stride) {
            if patience.get(row / stride) == Some(&more) && can_wait(table, &patience, row, more) {
                if let Some(it) = patience.get_mut(row / stride) {
                    *it = more + 1;
                    is_same = false;
                }
            }
        }
        if is_same {
            return Ok(patience);
        }
    }
    Ok(patience)
}

// For how many characters more the standing can wait, by the list for the rows of the table.
fn patience_in(table: &TableLists, patience: &[u32], standing: Standing) -> u32
    ensures { table.now.width < 2 ^ 16
        → result ≡ patience_in patience.now (table.now.width + 1) standing }
{
    match standing {
        Standing::In(row) => {
            let number = row as usize / table.width.saturating_add(1);
            patience.get(number).copied().unwrap_or(0)
        }
        Standing::Begin | Standing::Lost | Standing::Ended | Standing::Again(_) => 0,
    }
}

// First comes the row of `Lost`, which so begins at 0, then those that wait long; those of ends come last. A token begins right
// after another only in a row to which the first row leads.
fn rows_of(
    alloc: Global,
    table: &TableLists,
    patience: &[u32],
    stride: usize,
) -> Result<Rows, AllocError> {
    let slots = table.cells.len().saturating_mul(2).saturating_add(5);
    let mut rows = Rows {
        standings: Vec::new(alloc),
        waiting: 0,
        end: 0,
        stride,
        starts: vec![in alloc; 0; slots]?,
    };
    rows.push(Standing::Lost)?;
    for waits_long in [true, false] {
        for row in (table.live..table.cells.len()).step_by(table.width.saturating_add(1)) {
            let standing = Standing::In(low(row));
            if (patience_in(table, patience, standing) >= LONG) == waits_long {
                rows.push(standing)?;
            }
        }
        if waits_long {
            rows.waiting = rows.standings.len().saturating_sub(1);
        }
    }
    rows.push(Standing::Begin)?;
    rows.push(Standing::Ended)?;
    for class in 0..table.width {
        let row = row_by(table, table.start, class);
        if is_live(table, row) && rows.start(Standing::Again(row)) == 0 {
            rows.push(Standing::Again(row))?;
        }
    }
    Ok(rows)
}

// The cells of the rows: where each column leads, and the rule.
fn cells_of(
    alloc: Global,
    table: &TableLists,
    rows: &Rows,
    width: usize,
) -> Result<Vec<u32>, AllocError>
    requires { IsWalkable (list_numbers table.now) }
    ensures { IfOk result (λ cells. AreSmall cells.items) }
{
    let mut cells = Vec::new(alloc);
    for standing in &rows.standings {
        for column in 0..width {
            cells.push(rows.start(by_column(table, width, *standing, column)))?;
        }
        cells.push(rule_number(table, *standing))?;
    }
    Ok(cells)
}

// Whether the row is one that stands for this.
fn stands_for(ahead: &AheadLists, standings: &[Standing], row: usize, standing: Standing) -> bool
    requires { ahead.now.width + 1 < 2 ^ 64 }
    ensures { IsTrue result → StandsFor (ahead_numbers ahead.now) standings.now row standing }
{
    let stride = ahead.width + 1;
    row % stride == 0 && standings.get(row / stride) == Some(&standing)
}

// Whether each column leads from the row, which stands for this, where it should.
fn leads_right(
    ahead: &AheadLists,
    table: &TableLists,
    standings: &[Standing],
    row: usize,
    standing: Standing,
) -> bool
    requires walkable { IsWalkable (list_numbers table.now) }
    requires narrow { ahead.now.width + 1 < 2 ^ 64 }
    ensures { IsTrue result
        → LeadsRight (ahead_numbers ahead.now) (list_numbers table.now) standings.now row standing
        ahead.now.width }
{
    for column in 0..ahead.width {
        let target = cell(&ahead.cells, row, column) as usize;
        let led = by_column(table, ahead.width, standing, column);
        if !stands_for(ahead, standings, target, led) {
            return false;
        }
    }
    true
}

// Whether each standing that waits, and to which a character leads from this one, can wait for fewer characters more.
fn leads_to_fewer(
    table: &TableLists,
    patience: &[u32],
    width: usize,
    standing: Standing,
    most: u32,
) -> bool
    requires classes { AreClasses (list_numbers table.now) }
    requires few { table.now.width < 2 ^ 16 }
    ensures { IsTrue result → (column : ℕ) → column < within_column width
        → IsTrue (is_waiting (list_numbers table.now) (by_column (list_numbers table.now) width standing column))
        → patience_in patience.now (table.now.width + 1)
        (by_column (list_numbers table.now) width standing column) < most }
{
    for column in 0..width.saturating_sub(2) {
        let next = by_column(table, width, standing, column);
        if is_waiting(table, next) && patience_in(table, patience, next) >= most {
            return false;
        }
    }
    true
}

// Whether the row is counted just if it should be: if it is, it waits, and can for long; if it waits and isn't, then it can't for
// long, since each that waits after it can for fewer characters more.
fn is_counted_right(
    ahead: &AheadLists,
    table: &TableLists,
    patience: &[u32],
    row: usize,
    standing: Standing,
) -> bool
    requires classes { AreClasses (list_numbers table.now) }
    requires few { table.now.width < 2 ^ 16 }
    requires waiting { ahead.now.waiting * (ahead.now.width + 1) < 2 ^ 64 }
    requires narrow { ahead.now.width + 1 < 2 ^ 64 }
    ensures { IsTrue result → IsCountedRight (ahead_numbers ahead.now) (list_numbers table.now)
        patience.now row standing }
{
    let own = patience_in(table, patience, standing);
    if 0 < row && row <= ahead.waiting * (ahead.width + 1) {
        return is_waiting(table, standing) && own >= LONG;
    }
    !is_waiting(table, standing)
        || (own < LONG && leads_to_fewer(table, patience, ahead.width, standing, own))
}

// Whether the cells of the row are those of one that stands for this; it is among the rows of ends just if this is one, begins
// at 0 just if this is `Lost`, and is counted as it should be.
fn is_right_row(
    ahead: &AheadLists,
    table: &TableLists,
    standings: &[Standing],
    patience: &[u32],
    row: usize,
    standing: Standing,
) -> bool
    requires walkable { IsWalkable (list_numbers table.now) }
    requires few { table.now.width < 2 ^ 16 }
    requires narrow { ahead.now.width + 1 < 2 ^ 64 }
    requires waiting { ahead.now.waiting * (ahead.now.width + 1) < 2 ^ 64 }
    ensures { IsTrue result → IsRightRow (ahead_numbers ahead.now) (list_numbers table.now)
        standings.now patience.now row standing }
{
    leads_right(ahead, table, standings, row, standing)
        && cell(&ahead.cells, row, ahead.width) == rule_number(table, standing)
        && is_told(table, standing)
        && is_end(standing) == (ahead.ends <= row)
        && is_lost(standing) == (row == 0)
        && is_counted_right(ahead, table, patience, row, standing)
}

// Where the pages end that are looked at: those after the last one have its block, and one at least lies beyond ASCII.
fn page_end(table: &TableLists) -> usize
    ensures { result ≡ min (max (length table.now.pages.items) 2) 8704 }
{
    table.pages.len().max(2).min(PAGES)
}

// Whether the page has the block of the page before it, as most do.
fn is_as_before(table: &TableLists, page: usize) -> bool
    requires pages { 0 < length table.now.pages.items }
    requires after { 0 < page }
    ensures { IsTrue result → block_of_page (list_numbers table.now) page
        ≡ block_of_page (list_numbers table.now) (page - 1) }
{
    block(table, page) == block(table, page - 1)
}

// The greatest class of a character of the page.
fn greatest_of_page(table: &TableLists, page: usize) -> usize
    requires classes { AreClasses (list_numbers table.now) }
    requires page { page < 8704 }
    ensures { (c : ℕ) → page * 128 ≤ c → c < page * 128 + 128
        → character_class (list_numbers table.now) c ≤ result }
{
    let mut greatest = 0;
    for code in page * 128..page * 128 + 128 {
        greatest = greatest.max(class(table, code as u32));
    }
    greatest
}

// The greatest class of a character beyond ASCII.
fn greatest_class(table: &TableLists) -> usize
    requires { AreClasses (list_numbers table.now) }
    ensures { (c : ℕ) → 128 ≤ c → c < 1114112
        → character_class (list_numbers table.now) c ≤ result }
{
    let mut greatest = greatest_of_page(table, 1);
    for page in 2..page_end(table) {
        if !is_as_before(table, page) {
            greatest = greatest.max(greatest_of_page(table, page));
        }
    }
    greatest
}

// Whether the numbers are those of the table.
fn is_ahead(
    ahead: &AheadLists,
    table: &TableLists,
    standings: &[Standing],
    patience: &[u32],
) -> bool
    requires walkable { IsWalkable (list_numbers table.now) }
    requires few { table.now.width < 2 ^ 16 }
    requires narrow { ahead.now.width ≤ 2 ^ 16 }
    requires waiting { ahead.now.waiting < 2 ^ 32 }
    requires columns { 130 ≤ ahead.now.width }
    requires beyond { (c : ℕ) → 128 ≤ c → c < 1114112
        → character_class (list_numbers table.now) c < ahead.now.width - 130 }
    ensures { IsTrue result → IsAheadOf (ahead_numbers ahead.now) (list_numbers table.now) }
{
    if standings.len().checked_mul(ahead.width + 1) != Some(ahead.cells.len())
        || !stands_for(ahead, standings, ahead.start, Standing::Begin)
    {
        return false;
    }
    for number in 0..standings.len() {
        let row = number * (ahead.width + 1);
        if !is_right_row(ahead, table, standings, patience, row, standings[number]) {
            return false;
        }
    }
    true
}

/// The numbers of the table that runs ahead by this one. `None` if there would be more than 536,870,912 cells or 65,536 columns,
/// or if the check finds the numbers wrong.
///
/// # Errors
///
/// `AllocError` if a request for memory was refused.
pub(crate) fn ahead_of(alloc: Global, table: &TableLists) -> Result<Option<AheadLists>, AllocError>
    requires { IsWalkable (list_numbers table.now) }
    ensures right { IfOk result (λ made. IfSome made (λ ahead.
        CanRunAhead (ahead_numbers ahead) (list_numbers table.now))) }
    ensures storable { IfOk result
        (λ made. IfSome made (λ ahead. IsStorableAhead (ahead_numbers ahead))) }
{
    let greatest = greatest_class(table);
    if greatest >= MOST_COLUMNS - OTHER_COLUMNS || table.width >= MOST_COLUMNS {
        return Ok(None);
    }
    let width = greatest + 1 + OTHER_COLUMNS;
    let patience = patience_of(alloc, table)?;
    let rows = rows_of(alloc, table, &patience, width + 1)?;
    if rows.end > MOST {
        return Ok(None);
    }
    let ahead = AheadLists {
        start: rows.start(Standing::Begin) as usize,
        width,
        ends: rows.start(Standing::Ended) as usize,
        waiting: low(rows.waiting) as usize,
        before: 0,
        cells: cells_of(alloc, table, &rows, width)?,
    };
    if is_ahead(&ahead, table, &rows.standings, &patience) {
        Ok(Some(ahead))
    } else {
        Ok(None)
    }
}
