//! The numbers of tables, in lists of their own.
ghost use Rattle.std.specs.Prelude.{◌≡◌, ◌<◌, ◌^◌, ℕ, length, map, IfOk, IfErr, IfSome, OnOk};
ghost use Rattle.std.specs.List.{All};
ghost use Rattle.lalrpop_dense.specs.DenseTable.{IsTableFor, cell_numbers, table_numbers};
ghost use Rattle.lalrpop_emit.specs.EmitErrors.{IsNumbersError, IsTooLarge};
ghost use Rattle.lalrpop_emit.specs.NumberedRules.{AreCounted, IsStorableAhead, IsStorableTable};
ghost use Rattle.lalrpop_emit.specs.Internal.Classes.{IsTableError};
ghost use Rattle.lalrpop_emit.specs.Internal.Lists.{AreAheadTables, AreBelow, AreModeTables, FitsTable, IsModeTable, ahead_numbers, list_numbers};
ghost use Rattle.lalrpop_emit.specs.Internal.Walking.{CanRunAhead};

use crate::ahead_table::{AheadLists, ahead_of};
use crate::class_order::in_class_order;
use crate::classes::has_room;
use crate::error::EmitError;
use crate::made_table::made_tables;
use crate::patterns::unnamed_pattern;
use lalrpop_dense::{DenseDfa, DenseTable, TableCells};
use lalrpop_rules::RuleLexer;
use std::alloc::{AllocError, Global};

/// The numbers of a table, all of 32 bits: see `DenseTable`.
#[derive(Debug, Drop)]
pub(crate) struct TableLists {
    pub(crate) blocks: Vec<u32>,
    pub(crate) pages: Vec<u32>,
    pub(crate) start: usize,
    pub(crate) width: usize,
    pub(crate) live: usize,
    pub(crate) accept: usize,
    pub(crate) cells: Vec<u32>,
}

fn copied_cells(alloc: Global, cells: &[u32]) -> Result<Vec<u32>, AllocError>
    ensures { IfOk result (λ copy. copy.items ≡ cells.now) }
{
    let mut copy = Vec::new(alloc);
    for cell in cells {
        copy.push(*cell)?;
    }
    Ok(copy)
}

fn widened_cells(alloc: Global, cells: TableCells<'_>) -> Result<Vec<u32>, AllocError>
    ensures { IfOk result (λ wide. wide.items ≡ cell_numbers cells.entry) }
{
    match cells {
        TableCells::Narrow(cells) => cells.iter().map(|cell| u32::from(*cell)).collect(alloc),
        TableCells::Wide(cells) => copied_cells(alloc, cells),
    }
}

// Copies the numbers of a table.
fn table_lists(alloc: Global, table: &DenseTable<'_>) -> Result<TableLists, AllocError>
    ensures same { IfOk result (λ lists. list_numbers lists ≡ table_numbers table.now) }
    ensures storable { IfOk result (λ lists. IsStorableTable (list_numbers lists)) }
{
    let blocks = table
        .blocks
        .iter()
        .map(|class| u32::from(*class))
        .collect(alloc)?;
    let pages = table
        .pages
        .iter()
        .map(|block| u32::from(*block))
        .collect(alloc)?;
    let cells = widened_cells(alloc, table.cells)?;
    let (start, width) = (table.start, table.width);
    let (live, accept) = (table.live, table.accept);
    Ok(TableLists {
        blocks,
        pages,
        start,
        width,
        live,
        accept,
        cells,
    })
}

// The table of an automaton that has one, in the order of its classes, if it isn't too large.
fn ordered_table(alloc: Global, dense: &DenseDfa) -> Result<Option<TableLists>, AllocError>
    ensures right { IfOk result (λ found. IfSome found (λ table.
        IsTableFor (list_numbers table) dense.now)) }
    ensures storable { IfOk result (λ found. IfSome found (λ table.
        IsStorableTable (list_numbers table))) }
    ensures small { IfOk result (λ found. IfSome found (λ table. ¬ IsTooLarge dense.now)) }
{
    let Some(table) = dense.table() else {
        return Ok(None);
    };
    let width = table.width;
    if width > 255 || !has_room(dense.dfa(), width) {
        return Ok(None);
    }
    let lists = table_lists(alloc, &table)?;
    let ordered = in_class_order(alloc, lists)?;
    Ok(Some(ordered))
}

// The tables of an automaton that has one, if one that runs ahead is found.
fn found_tables(alloc: Global, dense: &DenseDfa) -> Result<Option<ModeTable>, AllocError>
    ensures right { IfOk result (λ found. IfSome found (λ made.
        IsTableFor (list_numbers made.table) dense.now)) }
    ensures storable { IfOk result (λ found. IfSome found (λ made.
        IsStorableTable (list_numbers made.table))) }
    ensures ahead { IfOk result (λ found. IfSome found (λ made.
        CanRunAhead (ahead_numbers made.ahead) (list_numbers made.table))) }
    ensures storable_ahead { IfOk result (λ found. IfSome found (λ made.
        IsStorableAhead (ahead_numbers made.ahead))) }
    ensures small { IfOk result (λ found. IfSome found (λ made. ¬ IsTooLarge dense.now)) }
{
    let Some(table) = ordered_table(alloc, dense)? else {
        return Ok(None);
    };
    let Some(ahead) = ahead_of(alloc, &table)? else {
        return Ok(None);
    };
    Ok(Some(ModeTable { table, ahead }))
}

/// The tables of a mode: the one that its automaton runs by, and the one that runs ahead of it.
#[derive(Drop)]
pub(crate) struct ModeTable {
    pub(crate) table: TableLists,
    pub(crate) ahead: AheadLists,
}

// The tables of the automaton. Where it has none, or none that runs ahead is found, they are made anew, which takes longer.
fn tables_of(alloc: Global, dense: &DenseDfa) -> Result<ModeTable, EmitError>
    requires below { AreBelow dense.now 65535 }
    ensures right { IfOk result (λ made. IsTableFor (list_numbers made.table) dense.now) }
    ensures storable { IfOk result (λ made. IsStorableTable (list_numbers made.table)) }
    ensures ahead { IfOk result (λ made.
        CanRunAhead (ahead_numbers made.ahead) (list_numbers made.table)) }
    ensures storable_ahead { IfOk result (λ made. IsStorableAhead (ahead_numbers made.ahead)) }
    ensures small { OnOk result (¬ IsTooLarge dense.now) }
    ensures error { IfErr result (IsTableError dense.now) }
{
    match found_tables(alloc, dense)? {
        Some(found) => Ok(found),
        None => made_tables(alloc, dense.dfa()),
    }
}

// The tables of a mode, if each rule that it accepts has a name.
fn mode_table(alloc: Global, rules: &RuleLexer, mode: usize) -> Result<ModeTable, EmitError>
    requires there { mode < rules.now.modes }
    requires few { length rules.now.names < 2 ^ 16 }
    ensures table { IfOk result (λ made. IsModeTable rules.now mode (list_numbers made.table)) }
    ensures ahead { IfOk result (λ made.
        CanRunAhead (ahead_numbers made.ahead) (list_numbers made.table)) }
    ensures storable { IfOk result (λ made. IsStorableAhead (ahead_numbers made.ahead)) }
    ensures fits { OnOk result (FitsTable rules.now mode) }
    ensures error { IfErr result (IsNumbersError rules.now) }
{
    let dense = rules.lexer(mode).dense();
    if let Some(pattern) = unnamed_pattern(dense.dfa(), rules.names().len()) {
        return Err(EmitError::NoName { pattern });
    }
    tables_of(alloc, dense)
}

/// The numbers of the tables of each mode.
#[derive(Drop)]
pub(crate) struct ModeTables {
    pub(crate) tables: Vec<TableLists>,
    pub(crate) aheads: Vec<AheadLists>,
}

// The table that runs ahead, where as many rows as this wait long in the modes before.
fn placed(mut ahead: AheadLists, before: usize) -> AheadLists
    ensures numbers { (result.start ≡ ahead.start) × (result.width ≡ ahead.width) × (result.ends ≡ ahead.ends)
        × (result.waiting ≡ ahead.waiting) × (result.cells ≡ ahead.cells) }
    ensures before { result.before ≡ before }
{
    ahead.before = before;
    ahead
}

/// The numbers of the tables of each mode.
///
/// # Errors
///
/// `NoName` if an automaton accepts a pattern that has no name, `NoTable` if one is too large, `OutOfMemory` if a request for
/// memory was refused.
pub(crate) fn mode_tables(alloc: Global, rules: &RuleLexer) -> Result<ModeTables, EmitError>
    requires few { length rules.now.names < 2 ^ 16 }
    requires few_modes { rules.now.modes < 2 ^ 16 }
    ensures modes { IfOk result (λ made. length made.tables.items ≡ rules.now.modes) }
    ensures tables { IfOk result (λ made.
        AreModeTables rules.now (map list_numbers made.tables.items)) }
    ensures all { IfOk result (λ made. length made.aheads.items ≡ rules.now.modes) }
    ensures ahead { IfOk result (λ made.
        AreAheadTables (map ahead_numbers made.aheads.items) (map list_numbers made.tables.items)) }
    ensures storable { IfOk result (λ made.
        All IsStorableAhead (map ahead_numbers made.aheads.items)) }
    ensures counted { IfOk result (λ made. AreCounted (map ahead_numbers made.aheads.items)) }
    ensures fit { OnOk result ((m : ℕ) → m < rules.now.modes → FitsTable rules.now m) }
    ensures error { IfErr result (IsNumbersError rules.now) }
{
    let mut tables = Vec::new(alloc);
    let mut aheads = Vec::new(alloc);
    let mut waiting = 0;
    for mode in 0..rules.modes() {
        let made = mode_table(alloc, rules, mode)?;
        tables.push(made.table)?;
        let ahead = placed(made.ahead, waiting);
        waiting += ahead.waiting;
        aheads.push(ahead)?;
    }
    Ok(ModeTables { tables, aheads })
}
