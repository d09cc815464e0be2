//! What is known at a place of a text where a table runs ahead, and where the next byte leads.
ghost use Rattle.std.specs.Prelude.{◌≡◌, ◌≢◌, ◌+◌, slice_index, IsTrue, Some};
ghost use Rattle.lalrpop_dense.specs.DenseTable.{AreClasses};
ghost use Rattle.lalrpop_emit.specs.Ahead.{Begin, accepts, by_bad, by_class, by_column, by_within, is_end, is_live, is_lost, is_waiting, led, no_rule, opened, row_by, rule_at, rule_number};
ghost use Rattle.lalrpop_emit.specs.Internal.Lists.{list_numbers};

use crate::driver::class;
use crate::table_lists::TableLists;

/// What is known at a place of a text of which each byte is read, on past the ends of tokens.
#[derive(Clone, Copy, Debug, PartialEq, Eq)]
pub(crate) enum Standing {
    /// The run begins here.
    Begin,
    /// No token is open.
    Lost,
    /// A token ended before the last byte, which opens none.
    Ended,
    /// This row was reached in the open token.
    In(u32),
    /// The same, and a token ended before the last byte, which opens this one.
    Again(u32),
}

/// No rule has this number.
pub(crate) const NO_RULE: u32 = 65535;

/// The cell in this column of the row that begins at the place, 0 if there is none.
pub(crate) fn cell(cells: &[u32], row: usize, column: usize) -> u32
    ensures { result ≡ slice_index cells.now (row + column) }
{
    match row.checked_add(column) {
        Some(place) => cells.get(place).copied().unwrap_or(0),
        None => 0,
    }
}

/// The row to which the class leads from the row.
pub(crate) fn row_by(table: &TableLists, row: usize, class: usize) -> u32
    ensures { result ≡ row_by (list_numbers table.now) row class }
{
    cell(&table.cells, row, class)
}

/// Whether a match can go on from the row.
pub(crate) fn is_live(table: &TableLists, row: u32) -> bool
    ensures { result ≡ is_live (list_numbers table.now) row }
{
    row as usize >= table.live
}

fn accepts(table: &TableLists, row: u32) -> bool
    ensures { result ≡ accepts (list_numbers table.now) row }
{
    row as usize >= table.accept
}

// Where the class leads, if it opens a token where one has ended or none is open; else `none`.
fn opened(table: &TableLists, class: usize, none: Standing) -> Standing
    ensures { result ≡ opened (list_numbers table.now) class none }
{
    let row = row_by(table, table.start, class);
    if is_live(table, row) {
        Standing::Again(row)
    } else {
        none
    }
}

// Where the class leads at the beginning of a run.
fn begun(table: &TableLists, class: usize) -> Standing
    ensures { result ≡ by_class (list_numbers table.now) class Begin }
{
    let row = row_by(table, table.start, class);
    if is_live(table, row) {
        Standing::In(row)
    } else {
        Standing::Lost
    }
}

// Where the class leads in an open token: on, or the token ends before it, or nothing matches.
fn led(table: &TableLists, row: u32, class: usize) -> Standing
    ensures { result ≡ led (list_numbers table.now) row class }
{
    let next = row_by(table, row as usize, class);
    if is_live(table, next) {
        Standing::In(next)
    } else if accepts(table, row) {
        opened(table, class, Standing::Ended)
    } else {
        Standing::Lost
    }
}

fn by_class(table: &TableLists, class: usize, standing: Standing) -> Standing
    ensures { result ≡ by_class (list_numbers table.now) class standing }
{
    match standing {
        Standing::Begin => begun(table, class),
        Standing::Lost | Standing::Ended => opened(table, class, Standing::Lost),
        Standing::In(row) | Standing::Again(row) => led(table, row, class),
    }
}

// A byte within a character leads nowhere new.
fn by_within(standing: Standing) -> Standing
    ensures { result ≡ by_within standing }
{
    match standing {
        Standing::In(row) | Standing::Again(row) => Standing::In(row),
        Standing::Begin | Standing::Lost | Standing::Ended => Standing::Lost,
    }
}

// A byte that begins no character ends what is open.
fn by_bad(table: &TableLists, standing: Standing) -> Standing
    ensures { result ≡ by_bad (list_numbers table.now) standing }
{
    match standing {
        Standing::In(row) | Standing::Again(row) if accepts(table, row) => Standing::Ended,
        _ => Standing::Lost,
    }
}

/// Where a byte of this column leads, where there are `width` columns: first one for each character of ASCII, then one for each
/// class; the last two are for bytes within a character, and for bytes that begin none.
pub(crate) fn by_column(
    table: &TableLists,
    width: usize,
    standing: Standing,
    column: usize,
) -> Standing
    requires { AreClasses (list_numbers table.now) }
    ensures { result ≡ by_column (list_numbers table.now) width standing column }
{
    let within = width.saturating_sub(2);
    if column < 128 {
        by_class(table, class(table, column as u32), standing)
    } else if column < within {
        by_class(table, column - 128, standing)
    } else if column == within {
        by_within(standing)
    } else {
        by_bad(table, standing)
    }
}

/// Whether a token ended before the last byte.
pub(crate) fn is_end(standing: Standing) -> bool
    ensures { result ≡ is_end standing }
{
    matches!(standing, Standing::Ended | Standing::Again(_))
}

/// Whether no token is open.
pub(crate) fn is_lost(standing: Standing) -> bool
    ensures { result ≡ is_lost standing }
{
    matches!(standing, Standing::Lost)
}

/// Whether a token is open, and doesn't end here.
pub(crate) fn is_waiting(table: &TableLists, standing: Standing) -> bool
    ensures { result ≡ is_waiting (list_numbers table.now) standing }
{
    match standing {
        Standing::In(row) => !accepts(table, row),
        Standing::Begin | Standing::Lost | Standing::Ended | Standing::Again(_) => false,
    }
}

/// Whether the rule of the token that ends here, if one does, has a number that tells it from none.
pub(crate) fn is_told(table: &TableLists, standing: Standing) -> bool
    ensures { IsTrue result → rule_at (list_numbers table.now) standing ≢ Some no_rule }
{
    match standing {
        Standing::In(row) | Standing::Again(row) if accepts(table, row) => {
            cell(&table.cells, row as usize, table.width) != NO_RULE
        }
        _ => true,
    }
}

/// The number of the rule of the token that ends here; 65,535 if none does.
pub(crate) fn rule_number(table: &TableLists, standing: Standing) -> u32
    ensures { result ≡ rule_number (rule_at (list_numbers table.now) standing) }
{
    match standing {
        Standing::In(row) | Standing::Again(row) if accepts(table, row) => {
            cell(&table.cells, row as usize, table.width)
        }
        _ => NO_RULE,
    }
}
