//! The longest match at a place, a character at a time, by a table that runs ahead.
//!
//! A memo makes this quick where matches are short but much must be read to find that no longer one comes. It has a bit for each
//! row that waits long, in which a token is open that may not end for 16 characters more, and each 64 bytes of the text: whether no
//! match comes if a walk passes there in this row. That is so wherever the walk began. So a walk stops where the bit is set; and
//! where one has read on in vain, it sets the bits on its way. The caller lends the memory: `memo_words` words, or fewer, of which
//! each is 0 at first. If there are all, each bit pays for 64 bytes that are read in vain, and only 192 more in each call aren't paid
//! for.
ghost use Rattle.std.specs.Prelude.{◌≡◌, ◌≢◌, ◌↔◌, ◌+◌, ◌-◌, ◌*◌, ◌/◌, ◌^◌, ◌<◌, ◌≤◌, ◌⊎◌, ℕ, List, length, min, take, drop, slice_index, IfSome, IsTrue, MatchOption};
ghost use Rattle.std.specs.Char.{encode_utf8};
ghost use Rattle.std.specs.Option.{option_map};
ghost use Rattle.lalrpop_hir.specs.Tree.{Tree};
ghost use Rattle.lalrpop_hir.specs.Longest.{IsLongest};
ghost use Rattle.lalrpop_dfa.specs.Dfa.{Row, Recognizes};
ghost use Rattle.lalrpop_dense.specs.DenseTable.{AreClasses, IsTableFor, TableNumbers, character_class};
ghost use Rattle.lalrpop_rules.specs.Found.{MatchesAt};
ghost use Rattle.lalrpop_rules.specs.Pieces.{IsFault};
ghost use Rattle.lalrpop_emit.specs.Ahead.{IsAheadOf, character_column, no_rule};
ghost use Rattle.lalrpop_emit.specs.Internal.AheadRows.{IsRowOf};
ghost use Rattle.lalrpop_emit.specs.Internal.Characters.{IsCharacterAt};
ghost use Rattle.lalrpop_emit.specs.Internal.Lists.{ahead_numbers, list_numbers};
ghost use Rattle.lalrpop_emit.specs.Internal.Memo.{IsInVain, IsLastMatch, IsMemoFor, IsNoted, IsPassed, IsReadTo, IsRoomy, IsStep, IsWaitingRow, NothingFrom, StopsAt, memo_word, noted_count};
ghost use Rattle.lalrpop_emit.specs.Internal.Walking.{AreRulesBelow};
ghost use Rattle.lalrpop_emit.specs.NumberedRules.{row_words};

use crate::ahead_columns::column_of;
use crate::ahead_table::AheadLists as Ahead;
use crate::driver::{Match, read};
use crate::run::AheadCell;
use crate::standing::NO_RULE;
use crate::table_lists::TableLists as Table;

// A walk along a text: the row that it has reached, and the place.
#[derive(Clone, Copy)]
struct Walk {
    row: usize,
    at: usize,
}

// The column of a character, and how many bytes it has.
#[derive(Clone, Copy)]
struct CharacterColumn {
    number: usize,
    size: usize,
}

// The column of the character at the place. `None` if the bytes there aren't a character. Most are ASCII, so that is looked at
// first.
#[inline(always)]
fn column_at(table: &Table, text: &[u8], at: usize) -> Option<CharacterColumn>
    requires classes { AreClasses (list_numbers table.now) }
    requires small { (c : ℕ) → 128 ≤ c → c < 1114112
        → 128 + character_class (list_numbers table.now) c < 2 ^ 64 }
    requires place { at < length text.now }
    ensures { MatchOption result ((c : ℕ) → ¬ IsCharacterAt text.now at c)
        (λ r. (c : ℕ) × (IsCharacterAt text.now at c
        × (r.number ≡ character_column (list_numbers table.now) c)
        × (r.size ≡ length (encode_utf8 c)))) }
{
    let first = text[at];
    if first < 128 {
        return Some(CharacterColumn {
            number: first as usize,
            size: 1,
        });
    }
    let Some(character) = read(text, at) else {
        return None;
    };
    Some(CharacterColumn {
        number: column_of(table, character.code),
        size: character.size,
    })
}

// Whether a token is open in the row: it is neither that of `Lost` nor that of an end.
fn is_open(ahead: &Ahead, row: usize) -> bool
    ensures { IsTrue result ↔ ((0 < row) × (row < ahead.now.ends)) }
{
    row > 0 && row < ahead.ends
}

// The walk after one more character. `None` if there is none, or it leads to a row in which the token isn't open.
#[inline(always)]
fn walked(ahead: &Ahead, table: &Table, text: &[u8], walk: Walk) -> Option<Walk>
    requires ahead { IsAheadOf (ahead_numbers ahead.now) (list_numbers table.now) }
    requires classes { AreClasses (list_numbers table.now) }
    requires narrow { ahead.now.width + 1 < 2 ^ 64 }
    requires row { IsRowOf (ahead_numbers ahead.now) walk.row }
    ensures step { MatchOption result
        (StopsAt (ahead_numbers ahead.now) (list_numbers table.now) text.now walk.row walk.at)
        (λ next. IsStep (ahead_numbers ahead.now) (list_numbers table.now) text.now walk.row walk.at
        next.row next.at) }
    ensures place { IfSome result (λ next. (walk.at < next.at) × (next.at ≤ length text.now)) }
    ensures row { IfSome result (λ next.
        IsRowOf (ahead_numbers ahead.now) next.row × (0 < next.row)) }
{
    if walk.at >= text.len() {
        return None;
    }
    let Some(column) = column_at(table, text, walk.at) else {
        return None;
    };
    let row = ahead.cells[walk.row + column.number] as usize;
    if !is_open(ahead, row) {
        return None;
    }
    Some(Walk {
        row,
        at: walk.at + column.size,
    })
}

// The number of the rule of the token that ends in the row; `NO_RULE` if none does.
fn rule_of(ahead: &Ahead, row: usize) -> AheadCell
    requires { IsRowOf (ahead_numbers ahead.now) row }
    ensures { result ≡ slice_index ahead.now.cells.items (row + ahead.now.width) }
{
    ahead.cells[row + ahead.width]
}

// How many words of a memo each row has for a text of this size: a bit for each 64 bytes.
fn row_words(size: usize) -> usize
    ensures { result ≡ row_words size }
{
    if size < 64 { 0 } else { size / 4096 + 1 }
}

// How many words this many rows have.
pub(crate) fn memo_words(rows: usize, size: usize) -> usize
    ensures { result ≡ min (rows * row_words size) usize.MAX }
{
    rows.saturating_mul(row_words(size))
}

// The word of the memo in which the walk's bit is. `None` if a memo of `words` words doesn't have it.
fn word_of(ahead: &Ahead, size: usize, walk: Walk, words: usize) -> Option<usize>
    requires narrow { ahead.now.width + 1 < 2 ^ 64 }
    requires row { ahead.now.width < walk.row }
    requires place { (64 ≤ walk.at) × (walk.at ≤ size) }
    ensures { MatchOption result (words / (size / 4096 + 1) ≤ walk.row / (ahead.now.width + 1) - 1)
        (λ word. (word ≡ memo_word (ahead_numbers ahead.now) size walk.row walk.at)
        × (word < words)) }
{
    let row_words = row_words(size);
    let number = walk.row / (ahead.width + 1) - 1;
    if number >= words / row_words {
        return None;
    }
    Some(number * row_words + walk.at / 4096)
}

// Whether it is noted that no match comes.
fn is_noted(ahead: &Ahead, size: usize, walk: Walk, memo: &[u64]) -> bool
    requires narrow { ahead.now.width + 1 < 2 ^ 64 }
    requires row { IsRowOf (ahead_numbers ahead.now) walk.row × (0 < walk.row) }
    requires place { (64 ≤ walk.at) × (walk.at ≤ size) }
    ensures noted { IsTrue result
        → IsNoted memo.now (ahead_numbers ahead.now) size walk.row walk.at }
    ensures not_noted { IsWaitingRow (ahead_numbers ahead.now) walk.row
        → IsRoomy (ahead_numbers ahead.now) size memo.now
        → IsNoted memo.now (ahead_numbers ahead.now) size walk.row walk.at → IsTrue result }
{
    match word_of(ahead, size, walk, memo.len()) {
        Some(word) => (memo[word] >> (walk.at / 64 % 64)) % 2 == 1,
        None => false,
    }
}

// Whether the step from the walk passes a multiple of 64: comes to it, or beyond it. This is asked at each character, and was
// measured to be quicker than a comparison of quotients.
fn passes(walk: Walk, next: Walk) -> bool
    requires further { walk.at < next.at }
    requires short { next.at ≤ walk.at + 64 }
    ensures { IsTrue result ↔ (walk.at / 64 < next.at / 64) }
{
    next.at % 64 < next.at - walk.at
}

// Notes that no match comes. Where the memo has room, that sets one bit, and no other.
fn note(ahead: &Ahead, text: &[u8], walk: Walk, memo: &mut [u64])
    requires narrow { ahead.now.width + 1 < 2 ^ 64 }
    requires place { (64 ≤ walk.at) × (walk.at ≤ length text.now) }
    requires row { IsRowOf (ahead_numbers ahead.now) walk.row × (0 < walk.row) }
    requires passed { IsPassed text.now walk.at }
    ensures right { (t : TableNumbers)
        → NothingFrom (ahead_numbers ahead.now) t text.now walk.row walk.at
        → IsMemoFor (ahead_numbers ahead.now) t text.now memo.old
        → IsMemoFor (ahead_numbers ahead.now) t text.now memo.new }
    ensures others { (row at : ℕ) → IsRowOf (ahead_numbers ahead.now) row → 0 < row
        → IsPassed text.now at
        → IsNoted memo.new (ahead_numbers ahead.now) (length text.now) row at
        → IsNoted memo.old (ahead_numbers ahead.now) (length text.now) row at ⊎ (at ≡ walk.at) }
    ensures never_fewer { noted_count memo.old ≤ noted_count memo.new }
    ensures one_more { IsWaitingRow (ahead_numbers ahead.now) walk.row
        → IsRoomy (ahead_numbers ahead.now) (length text.now) memo.old
        → ¬ IsNoted memo.old (ahead_numbers ahead.now) (length text.now) walk.row walk.at
        → noted_count memo.new ≡ noted_count memo.old + 1 }
{
    if let Some(word) = word_of(ahead, text.len(), walk, memo.len()) {
        memo[word] |= 1u64 << (walk.at / 64 % 64);
    }
}

// Walks up to the end again, on which no match comes, and notes it. Where no bit was in the way, each multiple of 64 that it
// passes costs a new one, but for the last.
fn note_walk(ahead: &Ahead, table: &Table, text: &[u8], from: Walk, end: usize, memo: &mut [u64])
    requires ahead { IsAheadOf (ahead_numbers ahead.now) (list_numbers table.now) }
    requires classes { AreClasses (list_numbers table.now) }
    requires narrow { ahead.now.width + 1 < 2 ^ 64 }
    requires row { IsRowOf (ahead_numbers ahead.now) from.row }
    requires nothing { NothingFrom (ahead_numbers ahead.now) (list_numbers table.now) text.now
        from.row from.at }
    requires memo { IsMemoFor (ahead_numbers ahead.now) (list_numbers table.now) text.now memo.old }
    ensures memo { IsMemoFor (ahead_numbers ahead.now) (list_numbers table.now) text.now memo.new }
    ensures paid { IsRoomy (ahead_numbers ahead.now) (length text.now) memo.old
        → IsInVain (ahead_numbers ahead.now) (list_numbers table.now) text.now memo.old end
        from.row from.at
        → end / 64 + noted_count memo.old ≤ from.at / 64 + noted_count memo.new + 2 }
{
    let mut walk = from;
    'again: while walk.at < end {
        let Some(next) = walked(ahead, table, text, walk) else {
            return;
        };
        if passes(walk, next) {
            note(ahead, text, next, memo);
        }
        walk = next;
    }
}

// Where the last match ends: there, if one does, or else where it did before.
fn last_of(ahead: &Ahead, last: Walk, there: Walk) -> Walk
    requires { IsRowOf (ahead_numbers ahead.now) there.row }
    ensures { ((slice_index ahead.now.cells.items (there.row + ahead.now.width) ≢ no_rule)
        × (result ≡ there))
        ⊎ ((slice_index ahead.now.cells.items (there.row + ahead.now.width) ≡ no_rule) × (result ≡ last)) }
{
    if rule_of(ahead, there.row) != NO_RULE {
        there
    } else {
        last
    }
}

// How far a walk went: where the last match ends, or the start if there is none; and up to where it went on in vain.
#[derive(Clone, Copy)]
struct Reading {
    last: Walk,
    end: usize,
}

// Reads on from the start until no match comes.
fn read_on(ahead: &Ahead, table: &Table, text: &[u8], start: usize, memo: &[u64]) -> Reading
    requires ahead { IsAheadOf (ahead_numbers ahead.now) (list_numbers table.now) }
    requires classes { AreClasses (list_numbers table.now) }
    requires narrow { ahead.now.width + 1 < 2 ^ 64 }
    requires memo { IsMemoFor (ahead_numbers ahead.now) (list_numbers table.now) text.now memo.now }
    ensures row { IsRowOf (ahead_numbers ahead.now) result.last.row }
    ensures last { IsLastMatch (ahead_numbers ahead.now) (list_numbers table.now) text.now start
        result.last.row result.last.at }
    ensures nothing { NothingFrom (ahead_numbers ahead.now) (list_numbers table.now) text.now
        result.last.row result.last.at }
    ensures behind { result.last.at ≤ result.end }
    ensures read { IsReadTo (ahead_numbers ahead.now) (list_numbers table.now) text.now memo.now
        result.last.row result.last.at result.end }
    ensures in_vain { IsRoomy (ahead_numbers ahead.now) (length text.now) memo.now
        → IsInVain (ahead_numbers ahead.now) (list_numbers table.now) text.now memo.now
        result.end result.last.row result.last.at }
{
    let mut walk = Walk {
        row: ahead.start,
        at: start,
    };
    let mut last = walk;
    'walk: loop {
        let Some(next) = walked(ahead, table, text, walk) else {
            return Reading { last, end: walk.at };
        };
        last = last_of(ahead, last, next);
        if passes(walk, next) && is_noted(ahead, text.len(), next, memo) {
            return Reading { last, end: next.at };
        }
        walk = next;
    }
}

// The match that ends there, if it isn't the start.
fn match_to(ahead: &Ahead, start: usize, last: Walk) -> Option<Match>
    requires { IsRowOf (ahead_numbers ahead.now) last.row }
    ensures { MatchOption result (last.at ≡ start)
        (λ m. (last.at ≢ start) × (m.end ≡ last.at)
        × (m.rule ≡ slice_index ahead.now.cells.items (last.row + ahead.now.width))) }
{
    if last.at == start {
        return None;
    }
    Some(Match {
        rule: rule_of(ahead, last.row) as usize,
        end: last.at,
    })
}

// Reads on from the start until no match comes, and notes where that was in vain. Bits that are new pay for what was read in
// vain, 64 bytes each, all but the last 192.
fn read_and_note(
    ahead: &Ahead,
    table: &Table,
    text: &[u8],
    start: usize,
    memo: &mut [u64],
) -> Reading
    requires ahead { IsAheadOf (ahead_numbers ahead.now) (list_numbers table.now) }
    requires classes { AreClasses (list_numbers table.now) }
    requires narrow { ahead.now.width + 1 < 2 ^ 64 }
    requires memo { IsMemoFor (ahead_numbers ahead.now) (list_numbers table.now) text.now memo.old }
    ensures row { IsRowOf (ahead_numbers ahead.now) result.last.row }
    ensures last { IsLastMatch (ahead_numbers ahead.now) (list_numbers table.now) text.now start
        result.last.row result.last.at }
    ensures nothing { NothingFrom (ahead_numbers ahead.now) (list_numbers table.now) text.now
        result.last.row result.last.at }
    ensures behind { result.last.at ≤ result.end }
    ensures read { IsReadTo (ahead_numbers ahead.now) (list_numbers table.now) text.now memo.old
        result.last.row result.last.at result.end }
    ensures memo { IsMemoFor (ahead_numbers ahead.now) (list_numbers table.now) text.now memo.new }
    ensures size { length memo.new ≡ length memo.old }
    ensures paid { IsRoomy (ahead_numbers ahead.now) (length text.now) memo.old
        → result.end + 64 * noted_count memo.old
        ≤ result.last.at + 64 * noted_count memo.new + 192 }
{
    let reading = read_on(ahead, table, text, start, memo);
    if !memo.is_empty() && reading.last.at / 64 < reading.end / 64 {
        note_walk(ahead, table, text, reading.last, reading.end, memo);
    }
    reading
}

// Where the longest match from the place on ends, and its rule. `None` if nothing matches there.
pub(crate) fn longest(
    ahead: &Ahead,
    table: &Table,
    text: &[u8],
    start: usize,
    memo: &mut [u64],
) -> Option<Match>
    requires ahead { IsAheadOf (ahead_numbers ahead.now) (list_numbers table.now) }
    requires classes { AreClasses (list_numbers table.now) }
    requires narrow { ahead.now.width + 1 < 2 ^ 64 }
    requires memo { IsMemoFor (ahead_numbers ahead.now) (list_numbers table.now) text.now memo.old }
    ensures answer { (d : List Row) → IsTableFor (list_numbers table.now) d
        → (ts : List Tree) (ps : List ℕ) → Recognizes d ts ps
        → IsLongest ts ps (drop start text.now)
        (option_map (λ m. (m.rule, take (m.end - start) (drop start text.now))) result) }
    ensures place { IfSome result (λ m. (start < m.end) × (m.end ≤ length text.now)) }
    ensures rule { (count : ℕ) → AreRulesBelow (list_numbers table.now) count
        → IfSome result (λ m. m.rule < count) }
    ensures memo { IsMemoFor (ahead_numbers ahead.now) (list_numbers table.now) text.now memo.new }
{
    let reading = read_and_note(ahead, table, text, start, memo);
    match_to(ahead, start, reading.last)
}

// Where the fault at the place ends: before the next place where a rule matches, or with the text.
pub(crate) fn fault_end(
    ahead: &Ahead,
    table: &Table,
    text: &[u8],
    start: usize,
    memo: &mut [u64],
) -> usize
    requires ahead { IsAheadOf (ahead_numbers ahead.now) (list_numbers table.now) }
    requires classes { AreClasses (list_numbers table.now) }
    requires narrow { ahead.now.width + 1 < 2 ^ 64 }
    requires within { start < length text.now }
    requires memo { IsMemoFor (ahead_numbers ahead.now) (list_numbers table.now) text.now memo.old }
    ensures fault { (d : List Row) → IsTableFor (list_numbers table.now) d
        → (ts : List Tree) (ps : List ℕ) → Recognizes d ts ps → ¬ MatchesAt ts text.now start
        → IsFault ts (drop start text.now) (take (result - start) (drop start text.now)) }
    ensures place { (start < result) × (result ≤ length text.now) }
    ensures memo { IsMemoFor (ahead_numbers ahead.now) (list_numbers table.now) text.now memo.new }
{
    let mut end = start + 1;
    'fault: while end < text.len() {
        if longest(ahead, table, text, end, memo).is_some() {
            return end;
        }
        end += 1;
    }
    end
}
