//! A walk along a lexer's automaton, by its table if it has one.

ghost use Rattle.std.specs.Prelude.{◌≡◌, ℕ, ◌+◌, ◌*◌, ◌<◌, ◌≤◌, length, slice_get, slice_index, true, false, IsTrue, IfSome, IfNone, ◌↔◌};
ghost use Rattle.lalrpop_dfa.specs.Dfa.{IsReject, step};
ghost use Rattle.lalrpop_dense.specs.DenseTable.{AreClasses, cell_numbers, character_class, next_row, table_numbers};
ghost use Rattle.bajofeki.specs.Internal.Walking.{cell_of_block, row_says, state_says};

use lalrpop_dense::{DenseDfa, DenseTable, TableCells};
use lalrpop_dfa::{Dfa, DfaStateIndex, Kind, NfaIndex, START};

// How many values characters have: each is below.
const CHARACTERS: usize = 1114112;

// How many characters a page of a table has.
const PAGE: usize = 128;

// How many pages the characters take.
const PAGES: usize = 8704;

/// A walk over the characters of a text, from place to place. A place is a row of the table, or a state where there is no table.
#[derive(Clone, Copy)]
pub(crate) enum Walker<'a> {
    /// By the table.
    Table(DenseTable<'a>),
    /// By the automaton itself.
    States(&'a Dfa),
}

impl<'a> Walker<'a> {
    ghost use Rattle.lalrpop_dfa.specs.declared.Kind.TheVariants.{Reject};
    ghost use Rattle.bajofeki.specs.Internal.Walking.{HasOnePlace, IsMet, IsRight, IsWalkerOf, Reads, first_of, next_of, says};
    ghost use Rattle.std.specs.Str.{IsCharBoundary};

    /// The walk along this automaton.
    pub(crate) fn of(dense: &'a DenseDfa) -> Walker<'a>
        ensures right { IsRight result }
        ensures same { IsWalkerOf result dense.now }
        ensures one { HasOnePlace result dense.now }
    {
        match dense.table() {
            Some(table) => Walker::Table(table),
            None => {
                let dfa = dense.dfa();
                // Its states are those of an automaton.
                let _states = dfa.states();
                Walker::States(dfa)
            }
        }
    }

    /// The place where each walk begins.
    #[inline(always)]
    pub(crate) fn start(&self) -> usize
        ensures { result ≡ first_of self.now }
    {
        match self {
            Walker::Table(table) => table.start,
            Walker::States(_) => START.index(),
        }
    }

    /// The place that the character leads to.
    #[inline(always)]
    pub(crate) fn next(&self, place: usize, c: char) -> usize
        requires right { IsRight self.now }
        requires met { IsMet self.now place }
        ensures { result ≡ next_of self.now place c }
    {
        match self {
            Walker::Table(table) => cell(table, place, class(table, c) as usize),
            Walker::States(dfa) => dfa.step(DfaStateIndex::new(place), u32::from(c)).index(),
        }
    }

    /// The place that the character of the text at the byte `at` leads to, which moves after it.
    #[inline(always)]
    pub(crate) fn read(&self, place: usize, text: &str, at: &mut usize) -> usize
        requires right { IsRight self.now }
        requires met { IsMet self.now place }
        requires boundary { IsCharBoundary text.now at.old }
        requires within { at.old < length text.now }
        ensures read { Reads self.now text.now place at.old result at.new }
    {
        let first = text.as_bytes()[*at];
        if first < 128 {
            *at += 1;
            return self.next(place, char::from(first));
        }
        match text[*at..].chars().next() {
            Some(c) => {
                *at += c.len_utf8();
                self.next(place, c)
            }
            // The text goes on.
            None => unreachable!(),
        }
    }

    /// What the place says of the words that lead to it.
    #[inline(always)]
    pub(crate) fn kind(&self, place: usize) -> Kind
        requires right { IsRight self.now }
        requires met { IsMet self.now place }
        ensures { result ≡ says self.now place }
    {
        match self {
            Walker::Table(table) => row_kind(table, place),
            Walker::States(dfa) => state_kind(dfa, DfaStateIndex::new(place)),
        }
    }

    /// Whether each character leads from the place to one that rejects.
    pub(crate) fn is_last(&self, place: usize) -> bool
        requires right { IsRight self.now }
        requires met { IsMet self.now place }
        ensures last { result ≡ true → (c : ℕ) → c < 1114112
            → says self.now (next_of self.now place c) ≡ Reject }
        ensures goes_on { result ≡ false → (c : ℕ)
            × ((c < 1114112) × ¬ (says self.now (next_of self.now place c) ≡ Reject)) }
    {
        match self {
            Walker::Table(table) => is_last_row(table, place),
            Walker::States(dfa) => is_last_state(dfa, DfaStateIndex::new(place)),
        }
    }
}

// The cell of the row in this column, where cells have 16 bits.
#[inline(always)]
fn narrow_cell(cells: &[u16], row: usize, column: usize) -> usize
    requires { row + column < length cells.now }
    ensures { result ≡ slice_index cells.now (row + column) }
{
    cells[row + column] as usize
}

// The cell of the row in this column, where cells have 32 bits.
#[inline(always)]
fn wide_cell(cells: &[u32], row: usize, column: usize) -> usize
    requires { row + column < length cells.now }
    ensures { result ≡ slice_index cells.now (row + column) }
{
    cells[row + column] as usize
}

// The cell of the row in this column.
#[inline(always)]
fn cell(table: &DenseTable<'_>, row: usize, column: usize) -> usize
    requires { row + column < length (cell_numbers table.now.cells) }
    ensures { result ≡ slice_index (cell_numbers table.now.cells) (row + column) }
{
    match table.cells {
        TableCells::Narrow(cells) => narrow_cell(cells, row, column),
        TableCells::Wide(cells) => wide_cell(cells, row, column),
    }
}

// The class of the character.
#[inline(always)]
fn class(table: &DenseTable<'_>, c: char) -> u8
    requires { AreClasses (table_numbers table.now) }
    ensures class { result ≡ character_class (table_numbers table.now) c }
    ensures below { result < table.now.width }
{
    let value = u32::from(c) as usize;
    // ASCII is the first block.
    if value < PAGE {
        return table.blocks[value];
    }
    let page = (value / PAGE).min(table.pages.len() - 1);
    table.blocks[table.pages[page] as usize * PAGE + value % PAGE]
}

// What the row says of the words that lead to it.
#[inline(always)]
fn row_kind(table: &DenseTable<'_>, row: usize) -> Kind
    requires { row + table.now.width < length (cell_numbers table.now.cells) }
    ensures { result ≡ row_says (table_numbers table.now) row }
{
    if row < table.live {
        return Kind::Reject;
    }
    if row < table.accept {
        return Kind::Neither;
    }
    Kind::Accepts(NfaIndex::new(cell(table, row, table.width)))
}

// What the state says of the words that lead to it.
fn state_kind(dfa: &Dfa, state: DfaStateIndex) -> Kind
    requires { state < length dfa.now }
    ensures { result ≡ state_says (slice_get dfa.now state) }
{
    match dfa.state(state).kind() {
        Kind::Accepts(index) => Kind::Accepts(*index),
        Kind::Reject => Kind::Reject,
        Kind::Neither => Kind::Neither,
    }
}

// Whether each class leads from the row to a dead one.
fn is_before_dead_rows(table: &DenseTable<'_>, row: usize) -> bool
    requires { row + table.now.width < length (cell_numbers table.now.cells) }
    ensures { result ≡ true → (class : ℕ) → class < table.now.width
        → slice_index (cell_numbers table.now.cells) (row + class) < table.now.live }
{
    for class in 0..table.width {
        if cell(table, row, class) >= table.live {
            return false;
        }
    }
    true
}

// The first character of a page with this block that leads from the row to one that isn't dead, as its offset in the page.
fn first_on_in_block(table: &DenseTable<'_>, row: usize, block: usize) -> Option<usize>
    requires classes { AreClasses (table_numbers table.now) }
    requires row { row + table.now.width < length (cell_numbers table.now.cells) }
    requires block { block * 128 + 128 ≤ length table.now.blocks.now }
    ensures some { IfSome result (λ offset. (offset < 128)
        × (table.now.live ≤ cell_of_block (table_numbers table.now) row block offset)) }
    ensures none { IfNone result ((offset : ℕ) → offset < 128
        → cell_of_block (table_numbers table.now) row block offset < table.now.live) }
{
    for offset in 0..PAGE {
        let class = table.blocks[block * PAGE + offset] as usize;
        if cell(table, row, class) >= table.live {
            return Some(offset);
        }
    }
    None
}

// Whether each character leads from the row to a dead one.
fn is_last_row(table: &DenseTable<'_>, row: usize) -> bool
    requires classes { AreClasses (table_numbers table.now) }
    requires within { row + table.now.width < length (cell_numbers table.now.cells) }
    ensures last { result ≡ true → (c : ℕ) → c < 1114112
        → next_row (table_numbers table.now) row c < table.now.live }
    ensures goes_on { result ≡ false → (c : ℕ)
        × ((c < 1114112) × (table.now.live ≤ next_row (table_numbers table.now) row c)) }
{
    if is_before_dead_rows(table, row) {
        return true;
    }
    for page in 0..table.pages.len().min(PAGES) {
        let block = table.pages[page];
        // Most pages have the block of the page before.
        if page > 0 && block == table.pages[page - 1] {
            continue;
        }
        if first_on_in_block(table, row, block as usize).is_some() {
            return false;
        }
    }
    true
}

// Whether the state rejects.
fn rejects(dfa: &Dfa, state: DfaStateIndex) -> bool
    requires within { state < length dfa.now }
    ensures { IsTrue result ↔ IsReject dfa.now state }
{
    matches!(dfa.state(state).kind(), Kind::Reject)
}

// The first value that leads from the state to one that doesn't reject.
fn first_on(dfa: &Dfa, state: DfaStateIndex) -> Option<usize>
    requires within { state < length dfa.now }
    ensures some { IfSome result (λ first. (¬ IsReject dfa.now (step dfa.now state first))
        × ((c : ℕ) → c < first → IsReject dfa.now (step dfa.now state c))) }
    ensures none { IfNone result ((c : ℕ) → IsReject dfa.now (step dfa.now state c)) }
{
    let others_reject = rejects(dfa, dfa.state(state).other_edge());
    // Behind the tests so far.
    let mut next = 0;
    for (test, target) in dfa.test_edges(state) {
        let start = test.start() as usize;
        if next < start && !others_reject {
            return Some(next);
        }
        if !rejects(dfa, *target) {
            return Some(start);
        }
        next = test.end() as usize + 1;
    }
    if others_reject { None } else { Some(next) }
}

// Whether each character leads from the state to one that rejects.
fn is_last_state(dfa: &Dfa, state: DfaStateIndex) -> bool
    requires within { state < length dfa.now }
    ensures last { result ≡ true → (c : ℕ) → c < 1114112
        → IsReject dfa.now (step dfa.now state c) }
    ensures goes_on { result ≡ false → (c : ℕ)
        × ((c < 1114112) × ¬ IsReject dfa.now (step dfa.now state c)) }
{
    match first_on(dfa, state) {
        Some(first) => first >= CHARACTERS,
        None => true,
    }
}
