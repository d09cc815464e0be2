//! The columns of the bytes of a text, which lead from row to row in a table that runs ahead.
ghost use Rattle.std.specs.Prelude.{◌≡◌, ◌+◌, ◌<◌, ◌≤◌, ◌^◌, ℕ, List, ◌∷◌, length, drop, slice_index};
ghost use Rattle.std.specs.Bool.{OnTrue};
ghost use Rattle.lalrpop_dense.specs.DenseTable.{AreClasses, character_class};
ghost use Rattle.lalrpop_emit.specs.Ahead.{IsAheadOf, character_column};
ghost use Rattle.lalrpop_emit.specs.Internal.Columns.{AreColumns};
ghost use Rattle.lalrpop_emit.specs.Internal.Lists.{ahead_numbers, list_numbers};

use crate::ahead_table::AheadLists as Ahead;
use crate::driver::{class, read};
use crate::table_lists::TableLists as Table;

// The number of bytes that are looked at together: where all are ASCII, each is its own column.
const RUN: usize = 32;

// The column of a byte, and how many bytes of its character are still to come.
#[derive(Clone, Copy)]
struct Column {
    number: u16,
    left: usize,
}

// The column of the first byte of a character.
pub(crate) fn column_of(table: &Table, code: u32) -> usize
    requires classes { AreClasses (list_numbers table.now) }
    requires small { 128 ≤ code → 128 + character_class (list_numbers table.now) code < 2 ^ 64 }
    ensures { result ≡ character_column (list_numbers table.now) code }
{
    if code < 128 {
        return code as usize;
    }
    128 + class(table, code)
}

// The column of the byte at the place, which may lie after the text. Of the character before it, `left` bytes are still to
// come.
fn next_column(ahead: &Ahead, table: &Table, text: &[u8], at: usize, left: usize) -> Column
    requires ahead { IsAheadOf (ahead_numbers ahead.now) (list_numbers table.now) }
    requires classes { AreClasses (list_numbers table.now) }
    requires few { ahead.now.width ≤ 2 ^ 16 }
    ensures { (rest : List ℕ)
        → AreColumns (list_numbers table.now) ahead.now.width result.left
        (drop (at + 1) text.now) rest
        → AreColumns (list_numbers table.now) ahead.now.width left (drop at text.now)
        (result.number ∷ rest) }
{
    let within = ahead.width - 2;
    let bad = Column {
        number: (within + 1) as u16,
        left: 0,
    };
    if at >= text.len() {
        return bad;
    }
    if left > 0 {
        return Column {
            number: within as u16,
            left: left - 1,
        };
    }
    match read(text, at) {
        Some(character) => Column {
            number: column_of(table, character.code) as u16,
            left: character.size - 1,
        },
        None => bad,
    }
}

// Whether the bytes of a run from the place on are all within the text, and ASCII.
fn is_ascii_run(text: &[u8], at: usize) -> bool
    ensures { OnTrue result ((k : ℕ) → at ≤ k → k < at + 32
        → (k < length text.now) × (slice_index text.now k < 128)) }
{
    if text.len() < RUN || at > text.len() - RUN {
        return false;
    }
    let mut all = 0;
    let run = &text[at..at + RUN];
    for byte in run {
        all |= byte;
    }
    all < 128
}

// The columns of bytes of ASCII: the bytes. These are two slices of one length, so that a processor can do many at once.
fn ascii_columns(columns: &mut [u16], bytes: &[u8])
    requires { length columns.old ≡ length bytes.now }
    ensures { columns.new ≡ bytes.now }
{
    for (k, byte) in bytes[..columns.len()].iter().enumerate() {
        columns[k] = u16::from(*byte);
    }
}

/// The columns of the bytes of the text from a place on, and of what follows it.
pub(crate) fn columns_of(
    ahead: &Ahead,
    table: &Table,
    text: &[u8],
    from: usize,
    columns: &mut [u16],
)
    requires ahead { IsAheadOf (ahead_numbers ahead.now) (list_numbers table.now) }
    requires classes { AreClasses (list_numbers table.now) }
    requires few { ahead.now.width ≤ 2 ^ 16 }
    requires place { from ≤ length text.now }
    ensures { AreColumns (list_numbers table.now) ahead.now.width 0 (drop from text.now)
        columns.new }
{
    let mut left = 0;
    let mut at = 0;
    'runs: while at < columns.len() {
        let stop = (at + RUN).min(columns.len());
        if left == 0 && is_ascii_run(text, from + at) {
            let bytes = &text[from + at..from + stop];
            ascii_columns(&mut columns[at..stop], bytes);
        } else {
            'any: for k in at..stop {
                let next = next_column(ahead, table, text, from + k, left);
                columns[k] = next.number;
                left = next.left;
            }
        }
        at = stop;
    }
}
