//! The code of an emitted lexer: the Rust source has this text without its contracts, and the C source says the same line by
//! line, in functions of the same names. These functions are proved; that the lines of C say the same is trusted. To
//! compare with C:
//!
//! - `text: &[u8]` stands for `text` and `length`, and `columns` and `rows` for these and `count`; `table` and `numbers` for static
//!   tables; `cells` for `ahead`, which has them; `state`, `below`, `run` and `memo` for `lexer`, which has the text, too, where it
//!   goes on and the mode.
//! - `None` stands for a size of 0, an end of 0 or an answer of 0, and from `longest` and `found` for an end that is the start.
//!   What is in a `Some` is what C returns or writes through a pointer.
//! - A kind of `None` is `_fault`, and `fault` is `_fault_piece`. `Step::End` is 0, `Step::TooDeep` is -1, and a piece is 1.
//! - Loops of a fixed length may be written out, or done by instructions for many numbers at once. Attributes may differ: they
//!   change only how quick a function is.
//!
//! The same holds of `longest_match.rt`, and of `ahead_columns.rt`, `ahead_rows.rt`, `flag_ends.rt` and `ahead_driver.rt`, which cut
//! a text in blocks. But here `ahead_driver.rt` calls `ends_of` of `lane_ends.rt`: stable Rust has no vectors, so an emitted lexer has
//! that of `flag_ends.rt`, whose contract is the same.
ghost use Rattle.std.specs.Prelude.{◌≡◌, [], None, IsFalse, ◌+◌, ◌-◌, ◌*◌, ◌^◌, ◌<◌, ◌≤◌, ℕ, List, Some, length, take, drop, slice_get, IsTrue, IfSome, ◌↔◌, MatchOption, min, max};
ghost use Rattle.std.specs.Char.{encode_utf8, IsScalar};
ghost use Rattle.std.specs.Option.{option_map};
ghost use Rattle.lalrpop_hir.specs.Tree.{Tree};
ghost use Rattle.lalrpop_hir.specs.Longest.{IsLongest};
ghost use Rattle.lalrpop_dfa.specs.Dfa.{Row, Recognizes};
ghost use Rattle.lalrpop_dense.specs.DenseTable.{AreClasses, IsTableFor, TableNumbers, block_of_page, character_class};
ghost use Rattle.lalrpop_rules.specs.Found.{MatchesAt};
ghost use Rattle.lalrpop_rules.specs.Pieces.{IsFault};
ghost use Rattle.bajofeki_rules.specs.Stack.{Stack, act_all, actions_of};
ghost use Rattle.lalrpop_rules.specs.Modes.{ModeRules};
ghost use Rattle.bajofeki_rules.specs.declared.action.Action.{Action};
ghost use Rattle.lalrpop_emit.specs.BytePieces.{Fits};
ghost use Rattle.lalrpop_emit.specs.BytePositions.{byte_position_of};
ghost use Rattle.lalrpop_emit.specs.NumberedRules.{AreNumbersOf, row_words, waiting_rows};
ghost use Rattle.lalrpop_emit.specs.Internal.Characters.{IsCharacterAt, IsFollowing};
ghost use Rattle.lalrpop_emit.specs.Internal.Driving.{IsState, ComesNext, GoesOn, GoesOnIf, stack_of};
ghost use Rattle.lalrpop_emit.specs.Internal.Lists.{list_numbers};
ghost use Rattle.lalrpop_emit.specs.Internal.Memo.{IsMemoOf};
ghost use Rattle.lalrpop_emit.specs.Internal.Running.{IsRunOf, IsTokenAt};
ghost use Rattle.lalrpop_emit.specs.Internal.Walking.{AreRulesBelow, AreActionsAt};

use crate::ahead_driver::{block_length, fill_block, known, resume, take};
use crate::ahead_table::AheadLists as Ahead;
use crate::byte_positions::BytePosition as Position;
use crate::longest_match::{fault_end, longest, memo_words};
use crate::numbered_piece::NumberedPiece;
use crate::numbers::LexerNumbers as Numbers;
use crate::run::Run;
use crate::table_lists::TableLists as Table;

// A character in a text of bytes: how many bytes it has, and its code.
#[derive(Clone, Copy)]
pub(crate) struct Character {
    pub(crate) size: usize,
    pub(crate) code: u32,
}

// A match in a text: its rule, and where it ends.
#[derive(Clone, Copy)]
pub(crate) struct Match {
    pub(crate) rule: usize,
    pub(crate) end: usize,
}

// Where a text is cut.
#[derive(Clone, Copy)]
pub(crate) struct State {
    pub(crate) at: usize,
    // The mode on top.
    pub(crate) mode: u16,
    // How many modes lie below it.
    pub(crate) depth: usize,
}

// What comes next in a text.
#[derive(Clone, Copy)]
pub(crate) enum Step {
    Piece(NumberedPiece),
    End,
    // There is no room for a mode that the next token puts on top.
    TooDeep,
}

// Whether the byte at the place is one that follows in a character.
fn follows(text: &[u8], at: usize) -> bool
    ensures { IsTrue result ↔ IsFollowing text.now at }
{
    at < text.len() && text[at] >= 0x80 && text[at] < 0xC0
}

// The size and the code. `None` if the code isn't a character's, or a shorter form would do.
fn sized_character(size: usize, least: u32, code: u32) -> Option<Character>
    ensures { MatchOption result (¬ ((least ≤ code) × IsScalar code))
        (λ c. (least ≤ code) × IsScalar code × (c.size ≡ size) × (c.code ≡ code)) }
{
    if code < least || code >= 0x110000 || matches!(code, 0xD800..=0xDFFF) {
        return None;
    }
    Some(Character { size, code })
}

// How many bytes the character at the place has, and its code. `None` if the bytes there aren't a character (RFC 3629).
#[inline(always)]
pub(crate) fn read(text: &[u8], at: usize) -> Option<Character>
    requires { at < length text.now }
    ensures { MatchOption result ((c : ℕ) → ¬ IsCharacterAt text.now at c)
        (λ r. IsCharacterAt text.now at r.code × (r.size ≡ length (encode_utf8 r.code))) }
{
    let first = u32::from(text[at]);
    if first < 0x80 {
        return sized_character(1, 0, first);
    }
    if first < 0xC0 || !follows(text, at + 1) {
        return None;
    }
    let second = u32::from(text[at + 1]) - 0x80;
    if first < 0xE0 {
        return sized_character(2, 0x80, (first - 0xC0) * 64 + second);
    }
    if !follows(text, at + 2) {
        return None;
    }
    let third = u32::from(text[at + 2]) - 0x80;
    if first < 0xF0 {
        return sized_character(3, 0x800, ((first - 0xE0) * 64 + second) * 64 + third);
    }
    if first >= 0xF8 || !follows(text, at + 3) {
        return None;
    }
    let fourth = u32::from(text[at + 3]) - 0x80;
    sized_character(
        4,
        0x10000,
        (((first - 0xF0) * 64 + second) * 64 + third) * 64 + fourth,
    )
}

// The block of the page with this number. Pages after the last one have its block.
pub(crate) fn block(table: &Table, page: usize) -> usize
    requires { 0 < length table.now.pages.items }
    ensures { result ≡ block_of_page (list_numbers table.now) page }
{
    table.pages[page.min(table.pages.len() - 1)] as usize
}

// The class of a character. ASCII is the first block.
pub(crate) fn class(table: &Table, code: u32) -> usize
    requires { AreClasses (list_numbers table.now) }
    ensures { result ≡ character_class (list_numbers table.now) code }
{
    let code = code as usize;
    if code < 128 {
        return table.blocks[code] as usize;
    }
    table.blocks[block(table, code / 128) * 128 + code % 128] as usize
}

// Whether there is room for the modes that the actions from the place on put on top, where this many modes lie below.
fn has_room(numbers: &Numbers, first: usize, depth: usize, room: usize) -> bool
    requires actions { (actions : List Action)
        × AreActionsAt numbers.now.actions (length numbers.now.tables) first actions }
    requires within { depth ≤ room }
    ensures { (actions : List Action)
        → AreActionsAt numbers.now.actions (length numbers.now.tables) first actions
        → (s : Stack) → length s.below ≡ depth → (IsTrue result ↔ Fits room actions s) }
{
    let mut place = first;
    let mut depth = depth;
    'actions: while numbers.actions[place] != 0 {
        let action = numbers.actions[place];
        if action == 1 {
            depth = depth.saturating_sub(1);
        } else if action % 2 == 1 {
            if depth >= room {
                return false;
            }
            depth += 1;
        }
        place += 1;
    }
    true
}

// Does the actions from the place on: 1 takes away the mode on top, 2m + 2 puts the mode m in its place, 2m + 3 puts m on top.
fn act(numbers: &Numbers, first: usize, state: &mut State, below: &mut [u16])
    requires actions { (actions : List Action)
        × (AreActionsAt numbers.now.actions (length numbers.now.tables) first actions
        × Fits (length below.old) actions (stack_of state.old below.old)) }
    requires within { state.old.depth ≤ length below.old }
    ensures acted { (actions : List Action)
        → AreActionsAt numbers.now.actions (length numbers.now.tables) first actions
        → Fits (length below.old) actions (stack_of state.old below.old)
        → stack_of state.new below.new ≡ act_all actions (stack_of state.old below.old) }
    ensures within { state.new.depth ≤ length below.old }
    ensures at { state.new.at ≡ state.old.at }
{
    let mut place = first;
    'actions: while numbers.actions[place] != 0 {
        let action = numbers.actions[place];
        if action != 1 {
            if action % 2 == 1 {
                below[state.depth] = state.mode;
                state.depth += 1;
            }
            state.mode = (action / 2 - 1) as u16;
        } else if state.depth > 0 {
            state.depth -= 1;
            state.mode = below[state.depth];
        }
        place += 1;
    }
}

// How many words the memo for a text of this size has: those of the rows that wait long, of all modes.
pub(crate) fn memo_size(numbers: &Numbers, size: usize) -> usize
    ensures size { result ≡ min (waiting_rows numbers.now.ahead * row_words size) (2 ^ 64 - 1) }
{
    let last = &numbers.ahead[numbers.ahead.len() - 1];
    memo_words(last.before + last.waiting, size)
}

// Where the part of the table begins and ends in a memo of `words` words for a text of this size: after those of the modes before.
fn memo_part(ahead: &Ahead, size: usize, words: usize) -> (usize, usize)
    requires { ahead.now.before + ahead.now.waiting < 2 ^ 64 }
    ensures from { result.0 ≡ min (ahead.now.before * row_words size) words }
    ensures to { result.1 ≡ min ((ahead.now.before + ahead.now.waiting) * row_words size) words }
    ensures order { (result.0 ≤ result.1) × (result.1 ≤ words) }
{
    let from = memo_words(ahead.before, size).min(words);
    let to = memo_words(ahead.before + ahead.waiting, size).min(words);
    (from, to)
}

// Where the longest match from the place on ends, and its rule, by a new block or without. `None` if nothing matches there.
fn found(
    numbers: &Numbers,
    text: &[u8],
    at: usize,
    mode: u16,
    run: &mut Run,
    memo: &mut [u64],
) -> Option<Match>
    requires mode { mode < length numbers.now.tables }
    requires within { at ≤ length text.now }
    requires run { IsRunOf numbers.now mode at text.now run.old }
    requires memo { IsMemoOf numbers.now text.now memo.old }
    ensures answer { (t : TableNumbers) → slice_get numbers.now.tables mode ≡ Some t
        → (d : List Row) → IsTableFor t d
        → (ts : List Tree) (ps : List ℕ) → Recognizes d ts ps → IsLongest ts ps (drop at text.now)
        (option_map (λ m. (m.rule, take (m.end - at) (drop at text.now))) result) }
    ensures place { IfSome result (λ m. (at < m.end) × (m.end ≤ length text.now)) }
    ensures rule { (t : TableNumbers) → slice_get numbers.now.tables mode ≡ Some t
        → (count : ℕ) → AreRulesBelow t count → IfSome result (λ m. m.rule < count) }
    ensures run { IsRunOf numbers.now mode at text.now run.new }
    ensures memo { IsMemoOf numbers.now text.now memo.new }
{
    let table = &numbers.tables[mode as usize];
    let ahead = &numbers.ahead[mode as usize];
    let length = block_length(text, at, mode, run);
    if length > 0 {
        fill_block(ahead, table, text, at, mode, length, run);
        let token = known(ahead, run);
        if token.is_some() {
            return token;
        }
    }
    let (from, to) = memo_part(ahead, text.len(), memo.len());
    longest(ahead, table, text, at, &mut memo[from..to])
}

// Whether the pieces of the rule have actions.
#[inline(always)]
fn has_actions(numbers: &Numbers, rule: usize) -> bool
    requires { rule < length numbers.now.kinds }
    ensures { IsFalse result → (r : ModeRules) → AreNumbersOf r numbers.now
        → actions_of r.actions rule ≡ [] }
{
    numbers.actions.len() > numbers.first_actions.len()
        && numbers.actions[numbers.first_actions[rule] as usize] != 0
}

// The token as a piece that begins at the start.
#[inline(always)]
fn token_piece(numbers: &Numbers, start: usize, token: Match) -> NumberedPiece
    requires rule { token.rule < length numbers.now.kinds }
    requires end { start ≤ token.end }
    ensures kind { MatchOption result.kind ⊥
        (λ kind. slice_get numbers.now.kinds token.rule ≡ Some kind) }
    ensures rest { (result.rule ≡ token.rule) × (result.start ≡ start)
        × (result.length ≡ token.end - start) }
{
    NumberedPiece {
        kind: Some(numbers.kinds[token.rule]),
        rule: token.rule,
        start,
        length: token.end - start,
    }
}

// The fault that begins where the text goes on, after which it then goes on.
fn fault(numbers: &Numbers, text: &[u8], state: &mut State, memo: &mut [u64]) -> NumberedPiece
    requires mode { state.old.mode < length numbers.now.tables }
    requires within { state.old.at < length text.now }
    requires memo { IsMemoOf numbers.now text.now memo.old }
    ensures fault { (t : TableNumbers) → slice_get numbers.now.tables state.old.mode ≡ Some t
        → (d : List Row) → IsTableFor t d
        → (ts : List Tree) (ps : List ℕ) → Recognizes d ts ps → ¬ MatchesAt ts text.now state.old.at
        → IsFault ts (drop state.old.at text.now) (take result.length (drop state.old.at text.now)) }
    ensures piece { (result.kind ≡ None) × (result.rule ≡ 0) × (result.start ≡ state.old.at) }
    ensures place { GoesOn text.now state.old.at result.start result.length state.new.at }
    ensures stack { (state.new.mode ≡ state.old.mode) × (state.new.depth ≡ state.old.depth) }
    ensures memo { IsMemoOf numbers.now text.now memo.new }
{
    let table = &numbers.tables[state.mode as usize];
    let ahead = &numbers.ahead[state.mode as usize];
    let start = state.at;
    let (from, to) = memo_part(ahead, text.len(), memo.len());
    state.at = fault_end(ahead, table, text, start, &mut memo[from..to]);
    NumberedPiece {
        kind: None,
        rule: 0,
        start,
        length: state.at - start,
    }
}

// As `next`, where the block doesn't tell the token, or the token's rule has actions.
#[inline(never)]
fn next_apart(
    numbers: &Numbers,
    text: &[u8],
    state: &mut State,
    below: &mut [u16],
    run: &mut Run,
    known: Option<Match>,
    memo: &mut [u64],
) -> Step
    requires state { IsState (length numbers.now.tables) state.old below.old }
    requires run { IsRunOf numbers.now state.old.mode state.old.at text.now run.old }
    requires memo { IsMemoOf numbers.now text.now memo.old }
    requires known { IfSome known (λ m. (t : TableNumbers)
        → slice_get numbers.now.tables state.old.mode ≡ Some t
        → IsTokenAt t text.now state.old.at m.rule m.end) }
    ensures next { (r : ModeRules) → AreNumbersOf r numbers.now
        → ComesNext r numbers.now.kinds (length below.old) text.now state.old.at
        (stack_of state.old below.old) result (stack_of state.new below.new) }
    ensures state { IsState (length numbers.now.tables) state.new below.new }
    ensures goes_on { GoesOnIf text.now state.old.at result state.new.at }
    ensures run { IsRunOf numbers.now state.new.mode state.new.at text.now run.new }
    ensures memo { IsMemoOf numbers.now text.now memo.new }
{
    let start = state.at;
    let mode = state.mode;
    if start >= text.len() {
        return Step::End;
    }
    let token = match known {
        Some(token) => Some(token),
        None => found(numbers, text, start, mode, run, memo),
    };
    let Some(token) = token else {
        let piece = fault(numbers, text, state, memo);
        resume(run, state.at, mode);
        return Step::Piece(piece);
    };
    let first = numbers.first_actions[token.rule] as usize;
    if !has_room(numbers, first, state.depth, below.len()) {
        return Step::TooDeep;
    }
    act(numbers, first, state, below);
    state.at = token.end;
    if state.mode != mode {
        run.since = token.end;
    }
    resume(run, token.end, state.mode);
    Step::Piece(token_piece(numbers, start, token))
}

// The next piece, a token or a fault, after which the text is cut on.
#[inline(always)]
pub(crate) fn next(
    numbers: &Numbers,
    text: &[u8],
    state: &mut State,
    below: &mut [u16],
    run: &mut Run,
    memo: &mut [u64],
) -> Step
    requires state { IsState (length numbers.now.tables) state.old below.old }
    requires run { IsRunOf numbers.now state.old.mode state.old.at text.now run.old }
    requires memo { IsMemoOf numbers.now text.now memo.old }
    ensures next { (r : ModeRules) → AreNumbersOf r numbers.now
        → ComesNext r numbers.now.kinds (length below.old) text.now state.old.at
        (stack_of state.old below.old) result (stack_of state.new below.new) }
    ensures state { IsState (length numbers.now.tables) state.new below.new }
    ensures goes_on { GoesOnIf text.now state.old.at result state.new.at }
    ensures run { IsRunOf numbers.now state.new.mode state.new.at text.now run.new }
    ensures memo { IsMemoOf numbers.now text.now memo.new }
{
    let start = state.at;
    let token = known(&numbers.ahead[state.mode as usize], run);
    if let Some(token) = token {
        if !has_actions(numbers, token.rule) {
            take(run);
            state.at = token.end;
            return Step::Piece(token_piece(numbers, start, token));
        }
    }
    next_apart(numbers, text, state, below, run, token, memo)
}

// Moves on to the offset, if it is further on, and to the end of the text at most. A line feed ends its line, and a byte that
// doesn't follow in a character is a column.
pub(crate) fn move_on(text: &[u8], position: &mut Position, to: usize)
    requires { position.old ≡ byte_position_of text.now position.old.at }
    ensures { position.new
        ≡ byte_position_of text.now (max position.old.at (min to (length text.now))) }
{
    while position.at < to && position.at < text.len() {
        if text[position.at] == b'\n' {
            position.line += 1;
            position.column = 1;
        } else if !follows(text, position.at) {
            position.column += 1;
        }
        position.at += 1;
    }
}
