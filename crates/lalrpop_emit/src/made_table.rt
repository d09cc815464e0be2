//! Tables made from the classes of characters, for automata whose dense table isn't there. It takes longer to make them, and they
//! are larger, but it is proved that they are right, whatever the automaton is: nothing is checked, so nothing can fail.
ghost use Rattle.std.specs.Prelude.{◌≡◌, ◌+◌, ◌*◌, ◌%◌, ◌++◌, ◌<◌, ◌^◌, ℕ, length, slice_index, IfOk, IfErr, OnOk};
ghost use Rattle.lalrpop_dfa.specs.Dfa.{step};
ghost use Rattle.lalrpop_dense.specs.DenseTable.{IsTableFor};
ghost use Rattle.lalrpop_emit.specs.EmitErrors.{IsTooLarge};
ghost use Rattle.lalrpop_emit.specs.Internal.Classes.{AreClassesOf, IsTableError};
ghost use Rattle.lalrpop_emit.specs.Internal.Lists.{AreBelow, ahead_numbers, list_numbers};
ghost use Rattle.lalrpop_emit.specs.Internal.MadeRows.{AreRows, kind_at, pattern_of, row_cells, row_number};
ghost use Rattle.lalrpop_emit.specs.Internal.Regular.{IsRegular};
ghost use Rattle.lalrpop_emit.specs.Internal.Walking.{CanRunAhead};
ghost use Rattle.lalrpop_emit.specs.NumberedRules.{IsStorableAhead, IsStorableTable};

use crate::classes::{CharacterClasses, few_classes};
use crate::error::EmitError;
use crate::regular_ahead::{Shape, regular_ahead};
use crate::table_lists::{ModeTable, TableLists};
use lalrpop_dfa::{Dfa, DfaStateIndex, Kind, START};
use std::alloc::{AllocError, Global};

// The number of the state's row. There are three rows for each state; of a reject state the one in the first third is taken, of an
// accepting one that in the last.
fn row_number(dfa: &Dfa, state: DfaStateIndex) -> usize
    requires within { state < length dfa.now }
    requires few { 3 * length dfa.now < 2 ^ 32 }
    ensures number { result ≡ row_number dfa.now state }
{
    let count = dfa.states().len();
    match dfa.state(state).kind() {
        Kind::Reject => state.index(),
        Kind::Neither => count + state.index(),
        Kind::Accepts(_) => 2 * count + state.index(),
    }
}

// The pattern that the state accepts, 0 if it accepts none.
fn pattern(dfa: &Dfa, state: DfaStateIndex) -> u32
    requires within { state < length dfa.now }
    requires below { AreBelow dfa.now 65535 }
    ensures pattern { result ≡ pattern_of (kind_at dfa.now state) }
{
    match dfa.state(state).kind() {
        Kind::Accepts(pattern) => pattern.index() as u32,
        Kind::Reject | Kind::Neither => 0,
    }
}

// Where the row begins to which the character leads from the state.
fn target(dfa: &Dfa, state: DfaStateIndex, value: u32, stride: usize) -> u32
    requires within { state < length dfa.now }
    requires few { 3 * length dfa.now * stride < 2 ^ 32 }
    requires some { 0 < stride }
    ensures target { result ≡ row_number dfa.now (step dfa.now state value) * stride }
{
    (row_number(dfa, dfa.step(state, value)) * stride) as u32
}

// Appends a row of the state.
fn push_row(
    cells: &mut Vec<u32>,
    dfa: &Dfa,
    firsts: &[u32],
    state: DfaStateIndex,
) -> Result<(), AllocError>
    requires within { state < length dfa.now }
    requires below { AreBelow dfa.now 65535 }
    requires few { 3 * length dfa.now * (length firsts.now + 1) < 2 ^ 32 }
    ensures row { OnOk result
        (cells.new.items ≡ cells.old.items ++ row_cells dfa.now firsts.now state) }
{
    let stride = firsts.len() + 1;
    for first in firsts {
        cells.push(target(dfa, state, *first, stride))?;
    }
    cells.push(pattern(dfa, state))?;
    Ok(())
}

// The cells of all rows.
fn all_rows(alloc: Global, dfa: &Dfa, firsts: &[u32]) -> Result<Vec<u32>, AllocError>
    requires below { AreBelow dfa.now 65535 }
    requires few { 3 * length dfa.now * (length firsts.now + 1) < 2 ^ 32 }
    ensures rows { IfOk result
        (λ cells. AreRows dfa.now firsts.now cells.items (3 * length dfa.now)) }
{
    let count = dfa.states().len();
    let mut cells = Vec::new(alloc);
    for number in 0..3 * count {
        push_row(&mut cells, dfa, firsts, DfaStateIndex::new(number % count))?;
    }
    Ok(cells)
}

// A page for each 128 characters, each with its own block.
fn all_pages(alloc: Global) -> Result<Vec<u32>, AllocError>
    ensures { IfOk result (λ pages. (length pages.items ≡ 8704)
        × ((k : ℕ) → k < 8704 → slice_index pages.items k ≡ k)) }
{
    let mut pages = Vec::new(alloc);
    for page in 0..8704 {
        pages.push(page)?;
    }
    Ok(pages)
}

// The table of an automaton, by the classes of characters.
fn made_table(alloc: Global, dfa: &Dfa, classes: CharacterClasses) -> Result<TableLists, AllocError>
    requires classes { AreClassesOf dfa.now classes }
    requires below { AreBelow dfa.now 65535 }
    requires few { 3 * length dfa.now * (length classes.firsts.items + 1) < 2 ^ 32 }
    ensures right { IfOk result (λ table. IsTableFor (list_numbers table) dfa.now) }
    ensures regular { IfOk result (λ table.
        IsRegular (list_numbers table) (length dfa.now) (3 * length dfa.now)) }
    ensures storable { IfOk result (λ table. IsStorableTable (list_numbers table)) }
    ensures width { IfOk result (λ table. table.width ≡ length classes.firsts.items) }
    ensures accept { IfOk result (λ table. table.accept ≡ 2 * length dfa.now * (table.width + 1)) }
{
    let width = classes.firsts.len();
    let count = dfa.states().len();
    let cells = all_rows(alloc, dfa, &classes.firsts)?;
    let pages = all_pages(alloc)?;
    Ok(TableLists {
        blocks: classes.classes,
        pages,
        start: row_number(dfa, START) * (width + 1),
        width,
        live: count * (width + 1),
        accept: 2 * count * (width + 1),
        cells,
    })
}

/// The tables of the automaton, made from the classes of characters.
///
/// # Errors
///
/// `NoTable` if it is too large, `OutOfMemory` if a request for memory was refused.
pub(crate) fn made_tables(alloc: Global, dfa: &Dfa) -> Result<ModeTable, EmitError>
    requires below { AreBelow dfa.now 65535 }
    ensures right { IfOk result (λ made. IsTableFor (list_numbers made.table) dfa.now) }
    ensures storable { IfOk result (λ made. IsStorableTable (list_numbers made.table)) }
    ensures ahead { IfOk result (λ made.
        CanRunAhead (ahead_numbers made.ahead) (list_numbers made.table)) }
    ensures storable_ahead { IfOk result (λ made. IsStorableAhead (ahead_numbers made.ahead)) }
    ensures small { OnOk result (¬ IsTooLarge dfa.now) }
    ensures error { IfErr result (IsTableError dfa.now) }
{
    let classes = few_classes(alloc, dfa)?;
    let width = classes.firsts.len();
    let count = dfa.states().len();
    let table = made_table(alloc, dfa, classes)?;
    let shape = Shape {
        stride: width + 1,
        dead: count,
        live: 2 * count,
        waiting: count,
    };
    let ahead = regular_ahead(alloc, &table, shape)?;
    Ok(ModeTable { table, ahead })
}
