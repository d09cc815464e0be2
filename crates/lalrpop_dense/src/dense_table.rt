//! The numbers of a table, for a caller that runs the automaton by itself.

ghost use Rattle.lalrpop_dense.specs.Internal.Fused.{IsTable};

use crate::table::{StoredCells, Table};
use lalrpop_dfa::Dfa;

/// Cells of 16 bits, or of 32 if they don't fit. Each is where a row begins, or a pattern.
///
/// ```
/// use lalrpop_lexer::lexer::dfa::TableCells;
///
/// fn count(cells: TableCells<'_>) -> usize {
///     match cells {
///         TableCells::Narrow(cells) => cells.len(),
///         TableCells::Wide(cells) => cells.len(),
///     }
/// }
/// ```
#[derive(Clone, Copy, Debug)]
pub enum TableCells<'table> {
    /// They fit 16 bits.
    Narrow(&'table [u16]),
    /// At least one does not.
    Wide(&'table [u32]),
}

/// A table of where characters lead: a row for each state, with a cell for each class of characters and a last one for the
/// pattern that the state accepts. Rows are named by the place of their first cell.
///
/// The character `c` is in page `c / 128`, whose block is `pages[c / 128]`, or the last one of `pages` if there are fewer. Its
/// class is `blocks[block * 128 + c % 128]`. From a row it leads to the row `cells[row + class]`.
///
/// ```
/// use lalrpop_lexer::lexer::dfa::DenseTable;
///
/// fn is_dead(table: &DenseTable<'_>, row: usize) -> bool {
///     row < table.live
/// }
/// ```
#[derive(Clone, Copy, Debug)]
pub struct DenseTable<'table> {
    /// The classes of characters, in blocks of 128.
    pub blocks: &'table [u8],
    /// The block of each page of 128 characters. Pages after the last one have its block.
    pub pages: &'table [u16],
    /// The row of the start.
    pub start: usize,
    /// How many classes there are. In an accepting row the pattern follows them.
    pub width: usize,
    /// The first row that isn't dead. The dead rows, all before it, are those of states that reject.
    pub live: usize,
    /// The first row that accepts a pattern.
    pub accept: usize,
    /// The cells of all rows.
    pub cells: TableCells<'table>,
}

impl Table {
    ghost use Rattle.lalrpop_dense.specs.DenseTable.{AreAlikeInClasses, IsTableFor, table_numbers};

    /// The numbers of the table.
    pub(crate) fn numbers(&self, dfa: &Dfa) -> DenseTable<'_>
        requires { IsTable self.now dfa.now }
        ensures right { IsTableFor (table_numbers result) dfa.now }
        ensures alike { AreAlikeInClasses (table_numbers result) dfa.now }
    {
        // There is a state, so START is one.
        let _states = dfa.states();
        let cells = match &self.cells {
            StoredCells::Narrow(cells) => TableCells::Narrow(cells),
            StoredCells::Wide(cells) => TableCells::Wide(cells),
        };
        DenseTable {
            blocks: &self.layout.blocks,
            pages: &self.layout.pages,
            start: self.layout.rows[0] as usize,
            width: self.layout.width,
            live: self.layout.live,
            accept: self.layout.accept,
            cells,
        }
    }
}
