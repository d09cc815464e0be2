//! Whether a table is right for an automaton.

ghost use Rattle.std.specs.Prelude.{◌≡◌, ℕ, ◌+◌, ◌*◌, ◌<◌, ◌≤◌, length, slice_index, EachIndex, IsTrue, IfOk};
ghost use Rattle.std.specs.List.{All};
ghost use Rattle.lalrpop_dfa.specs.Dfa.{edge_target, AreAscendingTests};
ghost use Rattle.lalrpop_dfa.specs.Stored.{EndBefore};
ghost use Rattle.lalrpop_dense.specs.Internal.Table.{HasClasses, HaveOwnRows, IsRowOfKind, IsTableOf, LeadsRight};
ghost use Rattle.lalrpop_dense.specs.Internal.Runs.{IsRun, AreRuns, IsPageAgain, LeadsRightBelow, LeadsOn, LeadOnAlike};
ghost use Rattle.lalrpop_dense.specs.Internal.Alikes.{AreAlikes, IsAlike};

use crate::alike::Alike;
use crate::table::Layout;
use lalrpop_dfa::{Dfa, DfaStateIndex, Kind};
use lalrpop_hir::Test;
use std::alloc::{AllocError, Global};

// All characters are below this.
const END: u32 = 1_114_112;

// Characters from `start` on and below `end`, all of one class.
#[derive(Clone, Copy)]
pub(crate) struct Run {
    start: u32,
    end: u32,
    class: u8,
}

fn are_within(pages: &[u16], len: usize) -> bool
    ensures { IsTrue result
        → EachIndex pages.now (λ k. slice_index pages.now k * 128 + 128 ≤ len) }
{
    pages.iter().all(|page| *page as usize * 128 + 128 <= len)
}

fn are_below(classes: &[u8], width: usize) -> bool
    ensures { IsTrue result → EachIndex classes.now (λ k. slice_index classes.now k < width) }
{
    classes.iter().all(|class| (*class as usize) < width)
}

fn have_cells(rows: &[u32], width: usize, len: usize) -> bool
    requires { width < 65536 }
    ensures { IsTrue result → EachIndex rows.now (λ k. slice_index rows.now k + width < len) }
{
    rows.iter().all(|row| *row as usize + width < len)
}

// Whether no two states have one row. Each row begins among so many cells.
fn have_own_rows(alloc: Global, rows: &[u32], len: usize) -> Result<bool, AllocError>
    requires within { EachIndex rows.now (λ k. slice_index rows.now k < len) }
    ensures { IfOk result (λ own. IsTrue own → HaveOwnRows rows.now) }
{
    let mut taken = vec![in alloc; false; len]?;
    for row in rows {
        let place = *row as usize;
        if taken[place] {
            return Ok(false);
        }
        taken[place] = true;
    }
    Ok(true)
}

fn has_classes(layout: &Layout) -> bool
    ensures { IsTrue result → HasClasses layout.now }
{
    !layout.pages.is_empty()
        && layout.pages[0] == 0
        && are_within(&layout.pages, layout.blocks.len())
        && are_below(&layout.blocks, layout.width)
}

// Whether the page that begins at the value has the block of the page before it.
fn is_same_page(layout: &Layout, value: u32) -> bool
    requires { 0 < length layout.now.pages.items }
    ensures { IsTrue result → IsPageAgain layout.now value }
{
    let page = value as usize / 128;
    value % 128 == 0 && page > 0 && layout.page(page) == layout.page(page - 1)
}

// The longest run that begins at `start`. A page that has the block of the page before it is skipped as a whole.
fn run_from(layout: &Layout, start: u32) -> Run
    requires classes { HasClasses layout.now }
    requires within { start < 1114112 }
    ensures run { IsRun layout.now result }
    ensures begins { result.start ≡ start }
    ensures some { start < result.end }
    ensures end { result.end ≤ 1114112 }
{
    let class = layout.class(start);
    let mut end = start + 1;
    while end < END {
        if end - start >= 128 && is_same_page(layout, end) {
            end += 128;
        } else if layout.class(end) == class {
            end += 1;
        } else {
            break;
        }
    }
    Run { start, end, class }
}

// All characters in runs, ascending.
#[derive(Drop)]
pub(crate) struct Runs {
    list: Vec<Run>,
    // For each class, where its last run ends.
    ends: Vec<u32>,
}

fn runs_of(alloc: Global, layout: &Layout) -> Result<Runs, AllocError>
    requires classes { HasClasses layout.now }
    requires narrow { layout.now.width ≤ 256 }
    ensures { IfOk result (AreRuns layout.now) }
{
    let mut list = Vec::new(alloc);
    let mut ends = vec![in alloc; 0; 256]?;
    let mut start = 0;
    while start < END {
        let run = run_from(layout, start);
        start = run.end;
        ends[run.class as usize] = run.end;
        list.push(run)?;
    }
    Ok(Runs { list, ends })
}

fn is_row_of_kind(layout: &Layout, cells: &[u32], row: usize, kind: &Kind) -> bool
    requires { row + layout.now.width < length cells.now }
    ensures { IsTrue result → IsRowOfKind layout.now cells.now row kind.now }
{
    match kind {
        Kind::Reject => row < layout.live,
        Kind::Neither => layout.live <= row && row < layout.accept,
        Kind::Accepts(pattern) => {
            layout.live <= row
                && layout.accept <= row
                && cells[row + layout.width] as usize == pattern.index()
        }
    }
}

// Where the value leads, by the edge that holds it or else by the other edge, and the first value after it that may lead
// elsewhere. `place` moves on to the first edge that doesn't end before the value.
fn segment_at(
    value: u32,
    edges: &[(Test, DfaStateIndex)],
    other: DfaStateIndex,
    place: &mut usize,
) -> (DfaStateIndex, u64)
    requires ascending { AreAscendingTests edges.now }
    requires passed { EndBefore edges.now place.old value }
    ensures leads { (c : ℕ) → value ≤ c → c < result.1
        → edge_target edges.now other c ≡ result.0 }
    ensures passed { EndBefore edges.now place.new value }
    ensures some { value < result.1 }
{
    while *place < edges.len() && edges[*place].0.end() < value {
        *place += 1;
    }
    match edges.get(*place) {
        Some((test, target)) if test.start() <= value => (*target, test.end() as u64 + 1),
        Some((test, _)) => (other, test.start() as u64),
        None => (other, 0x1_0000_0000),
    }
}

// Whether the row of the state leads each character below the stop where the state does.
fn leads_right_below(
    layout: &Layout,
    cells: &[u32],
    dfa: &Dfa,
    index: DfaStateIndex,
    runs: &[Run],
    stop: u32,
) -> bool
    requires within { index < length dfa.now }
    requires rows { length layout.now.rows.items ≡ length dfa.now }
    requires cells { EachIndex layout.now.rows.items (λ k.
        slice_index layout.now.rows.items k + layout.now.width < length cells.now) }
    requires runs { All (IsRun layout.now) runs.now }
    ensures { IsTrue result → LeadsRightBelow layout.now cells.now dfa.now index stop }
{
    let edges = dfa.test_edges(index);
    let other = dfa.state(index).other_edge();
    let row = layout.rows[index.index()] as usize;
    let mut value = 0;
    let mut place = 0;
    for run in runs {
        if value >= stop {
            return true;
        }
        if run.start != value || run.class as usize >= layout.width {
            return false;
        }
        while value < run.end {
            let (target, end) = segment_at(value, edges, other, &mut place);
            if cells[row + run.class as usize] != layout.rows[target.index()] {
                return false;
            }
            value = if end < run.end as u64 {
                end as u32
            } else {
                run.end
            };
        }
    }
    value >= stop
}

// A value from which on all characters lead to one state, and that state.
fn tail_of(edges: &[(Test, DfaStateIndex)], other: DfaStateIndex) -> (u32, DfaStateIndex)
    requires { AreAscendingTests edges.now }
    ensures { (c : ℕ) → result.0 ≤ c → c < 1114112 → edge_target edges.now other c ≡ result.1 }
{
    match edges.last() {
        None => (0, other),
        Some((test, target)) => {
            if test.end() < END - 1 {
                (test.end() + 1, other)
            } else {
                (test.start(), *target)
            }
        }
    }
}

// Whether a row leads to the target by each class that has a character from the value on.
fn leads_on(cells: &[u32], row: usize, target: u32, width: usize, ends: &[u32], from: u32) -> bool
    requires ends { width ≤ length ends.now }
    requires row { row + width < length cells.now }
    ensures { IsTrue result → LeadsOn cells.now row target width ends.now from }
{
    for class in 0..width {
        if ends[class] > from && cells[row + class] != target {
            return false;
        }
    }
    true
}

// Whether two rows lead on alike by each class that has a character from the value on.
fn lead_on_alike(
    cells: &[u32],
    row: usize,
    earlier: usize,
    width: usize,
    ends: &[u32],
    from: u32,
) -> bool
    requires ends { width ≤ length ends.now }
    requires row { row + width < length cells.now }
    requires earlier { earlier + width < length cells.now }
    ensures { IsTrue result → LeadOnAlike cells.now row earlier width ends.now from }
{
    for class in 0..width {
        if ends[class] > from && cells[row + class] != cells[earlier + class] {
            return false;
        }
    }
    true
}

// Whether the row of the state leads each character where the state does, which is beside one whose row does.
fn leads_right_beside(
    layout: &Layout,
    cells: &[u32],
    dfa: &Dfa,
    index: DfaStateIndex,
    runs: &Runs,
    alike: &Alike,
) -> bool
    requires within { index < length dfa.now }
    requires earlier { alike.now.earlier < length dfa.now }
    requires rows { length layout.now.rows.items ≡ length dfa.now }
    requires cells { EachIndex layout.now.rows.items (λ k.
        slice_index layout.now.rows.items k + layout.now.width < length cells.now) }
    requires classes { HasClasses layout.now }
    requires runs { AreRuns layout.now runs.now }
    requires alike { IsAlike dfa.now index alike.now }
    requires right { LeadsRight layout.now cells.now dfa.now alike.now.earlier }
    ensures { IsTrue result → LeadsRight layout.now cells.now dfa.now index }
{
    let row = layout.rows[index.index()] as usize;
    let earlier = layout.rows[alike.earlier] as usize;
    let from = alike.from;
    lead_on_alike(cells, row, earlier, layout.width, &runs.ends, from)
        && leads_right_below(layout, cells, dfa, index, &runs.list, from.min(END))
}

// Whether the row of the state leads each character where the state does.
fn leads_right(layout: &Layout, cells: &[u32], dfa: &Dfa, index: DfaStateIndex, runs: &Runs) -> bool
    requires within { index < length dfa.now }
    requires rows { length layout.now.rows.items ≡ length dfa.now }
    requires cells { EachIndex layout.now.rows.items (λ k.
        slice_index layout.now.rows.items k + layout.now.width < length cells.now) }
    requires classes { HasClasses layout.now }
    requires runs { AreRuns layout.now runs.now }
    ensures { IsTrue result → LeadsRight layout.now cells.now dfa.now index }
{
    let row = layout.rows[index.index()] as usize;
    let (from, target) = tail_of(dfa.test_edges(index), dfa.state(index).other_edge());
    match layout.rows.get(target.index()) {
        Some(target) => {
            leads_on(cells, row, *target, layout.width, &runs.ends, from)
                && leads_right_below(layout, cells, dfa, index, &runs.list, from.min(END))
        }
        None => false,
    }
}

/// Whether the table is right for the automaton.
///
/// # Errors
///
/// `AllocError` if a request for memory was refused.
pub(crate) fn is_table_of(
    alloc: Global,
    layout: &Layout,
    cells: &[u32],
    dfa: &Dfa,
    alikes: &[Alike],
) -> Result<bool, AllocError>
    requires { AreAlikes dfa.now alikes.now }
    ensures { IfOk result (λ is. IsTrue is → IsTableOf layout.now cells.now dfa.now) }
{
    if !has_classes(layout)
        || layout.rows.len() != dfa.states().len()
        || layout.width > 256
        || !have_cells(&layout.rows, layout.width, cells.len())
    {
        return Ok(false);
    }
    if !have_own_rows(alloc, &layout.rows, cells.len())? {
        return Ok(false);
    }
    let runs = runs_of(alloc, layout)?;
    for number in 0..dfa.states().len() {
        let index = DfaStateIndex::new(number);
        let row = layout.rows[number] as usize;
        let alike = &alikes[number];
        let is_right = if alike.earlier < number {
            leads_right_beside(layout, cells, dfa, index, &runs, alike)
        } else {
            leads_right(layout, cells, dfa, index, &runs)
        };
        if !is_right || !is_row_of_kind(layout, cells, row, dfa.state(index).kind()) {
            return Ok(false);
        }
    }
    Ok(true)
}
