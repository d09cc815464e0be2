//! Cutting a text by a table that runs ahead: a block is run through at once, and then the ends of its tokens are read off.
ghost use Rattle.std.specs.Prelude.{◌≡◌, ◌+◌, ◌-◌, ◌*◌, ◌/◌, ◌<◌, ◌≤◌, ◌⊎◌, ℕ, List, length, take, drop, slice_index, IfSome, MatchOption};
ghost use Rattle.lalrpop_dense.specs.DenseTable.{TableNumbers, AreClasses};
ghost use Rattle.lalrpop_emit.specs.Ahead.{AheadNumbers, IsAheadOf};
ghost use Rattle.lalrpop_emit.specs.Internal.Columns.{AreColumns};
ghost use Rattle.lalrpop_emit.specs.Internal.AheadRows.{AreStandings};
ghost use Rattle.lalrpop_emit.specs.Internal.Lists.{ahead_numbers, list_numbers};
ghost use Rattle.lalrpop_emit.specs.Internal.Walking.{CanRunAhead};
ghost use Rattle.lalrpop_emit.specs.Internal.Running.{HasNoEnd, HasRoom, IsAtPlace, IsBlock, IsLastIn, IsNextEnd, IsRunThrough, IsSameBlock, IsTokenAt, IsWordOf, Serves};

use crate::ahead_rows::fill;
use crate::ahead_table::AheadLists as Ahead;
use crate::driver::Match;
use crate::lane_ends::ends_of;
use crate::run::{AheadCell, LEAST, Run};
use crate::standing::NO_RULE;
use crate::table_lists::TableLists as Table;

// Writes a bit for each row: whether it is one of an end. Rows after the last 64 have none.
fn mark_ends(rows: &[AheadCell], least: usize, ends: &mut [u64])
    requires { length rows.now / 64 ≤ length ends.old }
    ensures { (w : ℕ) → w < length rows.now / 64
        → IsWordOf least rows.now w (slice_index ends.new w) }
{
    for word in 0..rows.len() / 64 {
        ends[word] = ends_of(&rows[word * 64..word * 64 + 64], least);
    }
}

// Runs through `size` bytes of the text from the place on: their columns, and the rows after them.
fn run_through(
    ahead: &Ahead,
    table: &Table,
    text: &[u8],
    at: usize,
    size: usize,
    columns: &mut [u16],
    rows: &mut [AheadCell],
)
    requires right { CanRunAhead (ahead_numbers ahead.now) (list_numbers table.now) }
    requires classes { AreClasses (list_numbers table.now) }
    requires parts { (words : ℕ) × (0 < words) × (size ≡ 384 * words) }
    requires place { at ≤ length text.now }
    requires room { (size ≤ length columns.old) × (size ≤ length rows.old) }
    ensures columns { AreColumns (list_numbers table.now) ahead.now.width 0 (drop at text.now)
        (take size columns.new) }
    ensures rows { (right : IsAheadOf (ahead_numbers ahead.now) (list_numbers table.now))
        → AreStandings (ahead_numbers ahead.now) (list_numbers table.now) right.standings
        (take size columns.new) (take size rows.new) }
{
    fill(
        ahead,
        table,
        text,
        at,
        &mut columns[..size],
        &mut rows[..size],
    );
}

// Makes a block of this size of the text from the place on, by the tables of the mode.
pub(crate) fn fill_block(
    ahead: &Ahead,
    table: &Table,
    text: &[u8],
    at: usize,
    mode: u16,
    size: usize,
    run: &mut Run,
)
    requires right { CanRunAhead (ahead_numbers ahead.now) (list_numbers table.now) }
    requires classes { AreClasses (list_numbers table.now) }
    requires parts { (words : ℕ) × (0 < words) × (size ≡ 384 * words) }
    requires left { at + size ≤ length text.now }
    requires most { size ≤ length run.old.rows.items }
    requires room { HasRoom run.old }
    ensures run { IsRunThrough (ahead_numbers ahead.now) (list_numbers table.now) text.now run.new }
    ensures place { IsAtPlace ahead.now.ends run.new 0 }
    ensures begins { (run.new.base ≡ at) × (run.new.mode ≡ mode) × (run.new.since ≡ run.old.since) }
    ensures room { HasRoom run.new }
{
    run_through(
        ahead,
        table,
        text,
        at,
        size,
        &mut run.columns,
        &mut run.rows,
    );
    mark_ends(&run.rows[..size], ahead.ends, &mut run.ends);
    run.base = at;
    run.length = size;
    run.mode = mode;
    run.word = 0;
    run.bits = run.ends[0];
}

// The next end in the block. `None` if none is left.
#[inline(always)]
fn next_end(run: &mut Run) -> Option<usize>
    requires room { HasRoom run.old }
    requires place { HasNoEnd run.old
        ⊎ ((least : ℕ) × ((place : ℕ) × IsAtPlace least run.old place)) }
    ensures place { (least place : ℕ) → IsAtPlace least run.old place
        → IsAtPlace least run.new place }
    ensures end { (least place : ℕ) → IsAtPlace least run.old place
        → MatchOption result (IsLastIn least run.new place) (IsNextEnd least run.new place) }
    ensures none { HasNoEnd run.old → MatchOption result (HasNoEnd run.new) (λ end. ⊥) }
    ensures same { IsSameBlock run.old run.new }
    ensures room { HasRoom run.new }
{
    'words: while run.bits == 0 {
        if run.word + 1 >= run.length / 64 {
            return None;
        }
        run.word += 1;
        run.bits = run.ends[run.word];
    }
    Some(run.word * 64 + run.bits.trailing_zeros() as usize)
}

// Goes on after the token that ends next.
#[inline(always)]
pub(crate) fn take(run: &mut Run)
    requires { (least : ℕ) × ((place : ℕ) × ((end : ℕ)
        × (IsAtPlace least run.old place × IsNextEnd least run.old place end))) }
    ensures place { (least place end : ℕ) → IsAtPlace least run.old place
        → IsNextEnd least run.old place end → IsAtPlace least run.new end }
    ensures same { IsSameBlock run.old run.new }
    ensures word { run.new.word ≡ run.old.word }
{
    run.bits &= run.bits - 1;
}

// The token that begins where the text goes on, if the block tells. It doesn't where that token is a fault, ends after the
// block, or ends before a longer one that then doesn't match.
#[inline(always)]
pub(crate) fn known(ahead: &Ahead, run: &mut Run) -> Option<Match>
    requires room { HasRoom run.old }
    requires serves { (t : TableNumbers) × ((text : List ℕ) × ((at : ℕ)
        × Serves (ahead_numbers ahead.now) t text run.old at)) }
    ensures serves { (t : TableNumbers) (text : List ℕ) (at : ℕ)
        → Serves (ahead_numbers ahead.now) t text run.old at
        → Serves (ahead_numbers ahead.now) t text run.new at }
    ensures token { (t : TableNumbers) (text : List ℕ) (at : ℕ)
        → Serves (ahead_numbers ahead.now) t text run.old at
        → IfSome result (λ m. IsTokenAt t text at m.rule m.end) }
    ensures end { (t : TableNumbers) (text : List ℕ) (at : ℕ)
        → Serves (ahead_numbers ahead.now) t text run.old at
        → IfSome result (λ m. IsAtPlace ahead.now.ends run.new (at - run.new.base)
        × IsNextEnd ahead.now.ends run.new (at - run.new.base) (m.end - run.new.base)) }
    ensures same { IsSameBlock run.old run.new }
    ensures room { HasRoom run.new }
{
    let end = next_end(run)?;
    let rule = ahead.cells[run.rows[end - 1] as usize + ahead.width];
    if rule == NO_RULE {
        return None;
    }
    Some(Match {
        rule: rule as usize,
        end: run.base + end,
    })
}

// Goes on in the block at this place of the text, where this mode is on top, if that is an end in it. Otherwise no end is left
// for now.
pub(crate) fn resume(run: &mut Run, at: usize, mode: u16)
    requires room { HasRoom run.old }
    requires behind { run.old.base ≤ at }
    ensures serves { (a : AheadNumbers) (t : TableNumbers) (text : List ℕ)
        → (mode ≡ run.old.mode → IsBlock a t text run.old) → Serves a t text run.new at }
    ensures same { IsSameBlock run.old run.new }
    ensures room { HasRoom run.new }
{
    let place = at - run.base;
    if mode == run.mode && place < run.length && run.ends[place / 64] >> (place % 64) & 1 == 1 {
        run.word = place / 64;
        run.bits = ((run.ends[place / 64] >> (place % 64)) - 1) << (place % 64);
    } else {
        run.word = run.length / 64;
        run.bits = 0;
    }
}

// How many bytes to run through from the place on, where this mode is on top; 0 for none. At most as many as this mode has been
// on top for, so a mode that is soon left costs little. The present block is used first, as far as it serves.
pub(crate) fn block_length(text: &[u8], at: usize, mode: u16, run: &Run) -> usize
    requires within { at ≤ length text.now }
    requires behind { (run.now.base ≤ at) × (run.now.since ≤ at) }
    ensures parts { (words : ℕ) × (result ≡ 384 * words) }
    ensures left { at + result ≤ length text.now }
    ensures most { result ≤ length run.now.rows.items }
{
    if at - run.since < LEAST {
        return 0;
    }
    let is_inside = mode == run.mode && at - run.base < run.length;
    if is_inside && (at == run.base || run.bits != 0 || run.word == run.length / 64) {
        return 0;
    }
    run.rows.len().min(text.len() - at).min(at - run.since) / LEAST * LEAST
}
