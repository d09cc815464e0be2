//! The rows of a block of a text, by a table that runs ahead: six walks at once, each along a part of the block, which are then
//! joined to one.
ghost use Rattle.std.specs.Prelude.{◌≡◌, ◌+◌, ◌*◌, ◌<◌, ◌≤◌, ◌^◌, ◌⊎◌, ℕ, length, drop, slice_index};
ghost use Rattle.std.specs.List.{All};
ghost use Rattle.lalrpop_dense.specs.DenseTable.{AreClasses};
ghost use Rattle.lalrpop_emit.specs.Ahead.{IsAheadOf};
ghost use Rattle.lalrpop_emit.specs.Internal.Columns.{AreColumns};
ghost use Rattle.lalrpop_emit.specs.Internal.AheadRows.{IsRowOf, IsClosed, IsStepAt, IsRun, AreRuns, AreStandings};
ghost use Rattle.lalrpop_emit.specs.Internal.Lists.{list_numbers, ahead_numbers};

use crate::ahead_columns::columns_of;
use crate::ahead_table::AheadLists as Ahead;
use crate::run::{AheadCell, MOST};
use crate::table_lists::TableLists as Table;

// How many walks are done at once.
const WALKS: usize = 6;

// The row that the column leads to from the row. It is given the cells, not the lists, which would be read anew after each row
// that is written.
#[inline(always)]
fn step(cells: &[AheadCell], row: usize, column: u16) -> AheadCell
    requires { row + column < length cells.now }
    ensures { result ≡ slice_index cells.now (row + column) }
{
    cells[row + column as usize]
}

// Walks along each part of the columns from the start on. The walks don't wait for each other, so they are quick; but the walks
// along later parts begin with what may be wrong.
#[inline(always)]
fn walk_parts(ahead: &Ahead, columns: &[u16], rows: &mut [AheadCell])
    requires closed { IsClosed (ahead_numbers ahead.now) }
    requires columns { All (λ column. column < ahead.now.width) columns.now }
    requires parts { (part : ℕ) × (length columns.now ≡ 6 * part) }
    requires as_many { length rows.old ≡ length columns.now }
    ensures rows { All (IsRowOf (ahead_numbers ahead.now)) rows.new }
    ensures runs { (part : ℕ) → length columns.now ≡ 6 * part
        → AreRuns (ahead_numbers ahead.now) part columns.now rows.new }
{
    let cells: &[AheadCell] = &ahead.cells;
    let part = columns.len() / WALKS;
    let mut last = [ahead.start; WALKS];
    for k in 0..part {
        for walk in 0..WALKS {
            let place = walk * part + k;
            let row = step(cells, last[walk], columns[place]);
            last[walk] = row as usize;
            rows[place] = row;
        }
    }
}

// The same. It is quickest along parts whose length is known when this is compiled.
fn walk(ahead: &Ahead, columns: &[u16], rows: &mut [AheadCell])
    requires closed { IsClosed (ahead_numbers ahead.now) }
    requires columns { All (λ column. column < ahead.now.width) columns.now }
    requires parts { (part : ℕ) × (length columns.now ≡ 6 * part) }
    requires as_many { length rows.old ≡ length columns.now }
    ensures rows { All (IsRowOf (ahead_numbers ahead.now)) rows.new }
    ensures runs { (part : ℕ) → length columns.now ≡ 6 * part
        → AreRuns (ahead_numbers ahead.now) part columns.now rows.new }
{
    if columns.len() == MOST {
        walk_parts(ahead, &columns[..MOST], &mut rows[..MOST]);
    } else {
        walk_parts(ahead, columns, rows);
    }
}

// Walks on from the row before the place until the row is the one that stands there.
fn walk_on(ahead: &Ahead, columns: &[u16], from: usize, rows: &mut [AheadCell])
    requires closed { IsClosed (ahead_numbers ahead.now) }
    requires columns { All (λ column. column < ahead.now.width) columns.now }
    requires as_many { length rows.old ≡ length columns.now }
    requires rows { All (IsRowOf (ahead_numbers ahead.now)) rows.old }
    requires place { (0 < from) × (from ≤ length columns.now) }
    ensures rows { All (IsRowOf (ahead_numbers ahead.now)) rows.new }
    ensures steps { (k : ℕ) → k < length columns.now
        → (k ≡ from) ⊎ IsStepAt (ahead_numbers ahead.now) columns.now rows.old k
        → IsStepAt (ahead_numbers ahead.now) columns.now rows.new k }
{
    let cells: &[AheadCell] = &ahead.cells;
    let mut row = rows[from - 1];
    let mut at = from;
    'walk: while at < columns.len() {
        let next = step(cells, row as usize, columns[at]);
        if rows[at] == next {
            return;
        }
        rows[at] = next;
        at += 1;
        // A row often leads to itself, and such steps don't wait for each other.
        'same: while next == row
            && at < columns.len()
            && rows[at] != next
            && step(cells, next as usize, columns[at]) == next
        {
            rows[at] = next;
            at += 1;
        }
        row = next;
    }
}

// Makes one run of those along the parts.
fn join(ahead: &Ahead, columns: &[u16], rows: &mut [AheadCell])
    requires closed { IsClosed (ahead_numbers ahead.now) }
    requires columns { All (λ column. column < ahead.now.width) columns.now }
    requires as_many { length rows.old ≡ length columns.now }
    requires rows { All (IsRowOf (ahead_numbers ahead.now)) rows.old }
    requires runs { (part : ℕ) × (0 < part) × (length columns.now ≡ 6 * part)
        × AreRuns (ahead_numbers ahead.now) part columns.now rows.old }
    ensures { IsRun (ahead_numbers ahead.now) columns.now rows.new }
{
    let part = columns.len() / WALKS;
    for walk in 1..WALKS {
        walk_on(ahead, columns, walk * part, rows);
    }
}

/// The columns of the bytes of the text from a place on, and the rows that they lead to from the start, one after another: each
/// stands for what is known after its byte.
pub(crate) fn fill(
    ahead: &Ahead,
    table: &Table,
    text: &[u8],
    from: usize,
    columns: &mut [u16],
    rows: &mut [AheadCell],
)
    requires ahead { IsAheadOf (ahead_numbers ahead.now) (list_numbers table.now) }
    requires classes { AreClasses (list_numbers table.now) }
    requires few { ahead.now.width ≤ 2 ^ 16 }
    requires place { from ≤ length text.now }
    requires parts { (part : ℕ) × (0 < part) × (length columns.old ≡ 6 * part) }
    requires as_many { length rows.old ≡ length columns.old }
    ensures columns { AreColumns (list_numbers table.now) ahead.now.width 0 (drop from text.now)
        columns.new }
    ensures rows { (is_ahead : IsAheadOf (ahead_numbers ahead.now) (list_numbers table.now))
        → AreStandings (ahead_numbers ahead.now) (list_numbers table.now) is_ahead.standings
        columns.new rows.new }
{
    columns_of(ahead, table, text, from, columns);
    walk(ahead, columns, rows);
    join(ahead, columns, rows);
}
