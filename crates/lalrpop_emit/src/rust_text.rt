//! The parts of a lexer in Rust that are the same for all rules.

/// What stands before `Kind`.
pub(crate) const HEAD: &str =
    r##"// A lexer in Rust, made from rules. The numbers at the end are those of the rules; the code
// before them is the same for all rules.

/// The kinds of rules: those with one name are of one kind.
#[allow(
    non_camel_case_types,
    missing_docs,
    clippy::enum_variant_names,
    clippy::upper_case_acronyms
)]
#[derive(Clone, Copy, Debug, PartialEq, Eq, PartialOrd, Ord, Hash)]
"##;

/// What stands between `Kind` and the driver.
pub(crate) const INTERFACE: &str = r##"
#[allow(dead_code)]
impl Kind {
    /// The name of its rules.
    pub fn name(self) -> &'static str {
        NUMBERS.names[self as usize]
    }
}

/// A piece of a text: a token, skipped or not, or a fault, which is bytes at none of which a rule matches.
#[derive(Clone, Copy, Debug, PartialEq, Eq)]
pub struct Piece {
    /// The kind of its rule; `None` in a fault.
    pub kind: Option<Kind>,
    /// The index of its rule; 0 in a fault.
    pub rule: usize,
    /// Where it begins, in bytes.
    pub start: usize,
    /// How long it is, in bytes.
    pub length: usize,
}

#[allow(dead_code)]
impl Piece {
    /// Where its bytes stand in the text.
    pub fn range(&self) -> core::ops::Range<usize> {
        self.start..self.start + self.length
    }

    /// Whether it is a token of a rule that is skipped.
    pub fn is_skipped(&self) -> bool {
        self.kind.is_some() && NUMBERS.skipped[self.rule] == 1
    }
}

/// A place in a text of bytes. Lines and columns count from 1, and a line feed ends its line.
#[allow(dead_code)]
#[derive(Clone, Copy, Debug, PartialEq, Eq)]
pub struct Position {
    /// The offset in bytes.
    pub at: usize,
    /// One more than the number of line feeds before the place.
    pub line: usize,
    /// One more than the number of characters that begin between the last line feed before the place and the place itself.
    pub column: usize,
}

#[allow(dead_code)]
impl Position {
    /// The beginning of a text.
    pub const START: Self = Position {
        at: 0,
        line: 1,
        column: 1,
    };

    /// Moves on to this offset of the text, if it is further on, and to the end of the text at most.
    pub fn move_to(&mut self, text: &[u8], to: usize) {
        move_on(text, self, to);
    }
}

/// More than 1024 modes would lie below the one on top.
#[derive(Clone, Copy, Debug, PartialEq, Eq)]
pub struct TooDeep;

impl core::fmt::Display for TooDeep {
    fn fmt(&self, f: &mut core::fmt::Formatter<'_>) -> core::fmt::Result {
        f.write_str("more than 1024 modes would lie below the one on top")
    }
}

impl core::error::Error for TooDeep {}

/// The pieces of a text, one after another, up to its end. Behind an error there are no more.
pub struct Lexer<'text> {
    text: &'text [u8],
    state: State,
    below: [u16; 1024],
    run: Run,
    // An equal part for each mode, in which a bit says that no match comes.
    memo: &'text mut [u64],
}

#[allow(dead_code)]
impl<'text> Lexer<'text> {
    /// A lexer at the beginning of a text, which may be any bytes. What isn't UTF-8 matches nothing.
    ///
    /// On a hostile text it can take time that grows with the square of its length; with [`Lexer::linear`] none does.
    pub fn new(text: &'text [u8]) -> Self {
        Self::linear(text, &mut [])
    }

    /// As [`Lexer::new`], with the same pieces, in time that grows with the length of the text alone.
    ///
    /// For that the lexer notes in the memo what it has read in vain. The memo has as many words as [`Lexer::memo_size`] says of
    /// the length of the text, and must be all 0, as `vec![0; Lexer::memo_size(text.len())]` is. Another text takes another one,
    /// or this one filled with 0 again. With fewer words the pieces are the same, but the time can be that of [`Lexer::new`].
    pub fn linear(text: &'text [u8], memo: &'text mut [u64]) -> Self {
        Lexer {
            text,
            state: State {
                at: 0,
                mode: 0,
                depth: 0,
            },
            below: [0; 1024],
            run: Run {
                base: 0,
                length: 0,
                mode: 0,
                since: 0,
                word: 0,
                bits: 0,
                columns: [0; MOST],
                rows: [0; MOST],
                ends: [0; MOST / 64],
            },
            memo,
        }
    }

    /// How many words the memo of a text of `length` bytes takes; `usize::MAX` at most.
    pub fn memo_size(length: usize) -> usize {
        memo_size(&NUMBERS, length)
    }
}

impl Iterator for Lexer<'_> {
    type Item = Result<Piece, TooDeep>;

    #[inline]
    fn next(&mut self) -> Option<Result<Piece, TooDeep>> {
        let (state, below, run) = (&mut self.state, &mut self.below, &mut self.run);
        match next(&NUMBERS, self.text, state, below, run, self.memo) {
            Step::Piece(piece) => Some(Ok(Piece {
                kind: piece.kind.map(|kind| NUMBERS.variants[kind as usize]),
                rule: piece.rule,
                start: piece.start,
                length: piece.length,
            })),
            Step::End => None,
            Step::TooDeep => {
                self.state.at = self.text.len();
                Some(Err(TooDeep))
            }
        }
    }
}

// The numbers of the rules.
struct Numbers {
    variants: &'static [Kind],
    names: &'static [&'static str],
    kinds: &'static [u32],
    skipped: &'static [u8],
    first_actions: &'static [u32],
    actions: &'static [u32],
    tables: &'static [Table],
    ahead: &'static [Ahead],
}

// The table of a mode that runs ahead: it reads each byte, on past the ends of tokens. Its cells lead from a row by a column to a
// row; after those of a row stands the rule of the token that ends there. A row waits long if a token is open in it that may not end
// for 16 characters more. Those rows come right after the first one.
struct Ahead {
    start: usize,
    width: usize,
    // From this row on a token ended before the last byte.
    ends: usize,
    // How many rows wait long.
    waiting: usize,
    // How many do in the tables of the modes before.
    before: usize,
    cells: &'static [AheadCell],
}

// The table of a mode: the classes of characters, by pages of 128, each of which has a block of classes.
struct Table {
    blocks: &'static [u8],
    pages: &'static [u16],
}

// No rule has this number.
const NO_RULE: AheadCell = 65535;

// No block has more bytes than this.
const MOST: usize = 6144;

// The least bytes of a block: a word for each of the six walks. Each block has a multiple of them.
const LEAST: usize = 384;

// A block of a text that a table has run through, ahead of the tokens that are cut in it.
struct Run {
    // Where the block begins in the text.
    base: usize,
    // How many bytes it has; 0 if there is none.
    length: usize,
    // By whose table.
    mode: u16,
    // Where in the text the mode on top came there.
    since: usize,
    // The word of `ends` that is looked at; after the last one if none is.
    word: usize,
    // What is left of it: the ends after the place where the next token begins.
    bits: u64,
    // The column of each byte.
    columns: [u16; MOST],
    // The row after each byte.
    rows: [AheadCell; MOST],
    // A bit for each byte: whether a token ends before it.
    ends: [u64; MOST / 64],
}

// A piece of a text, with the number of its kind.
#[derive(Clone, Copy)]
struct NumberedPiece {
    kind: Option<u32>,
    rule: usize,
    start: usize,
    length: usize,
}

"##;

/// The code that finds the pieces: that of `driver.rt`, `longest_match.rt`, `ahead_columns.rt`, `ahead_rows.rt` and
/// `ahead_driver.rt`, one after another, without their contracts. `.ci/pages --write` writes it.
pub(crate) const DRIVER: &str =
    r##"// A character in a text of bytes: how many bytes it has, and its code.
#[derive(Clone, Copy)]
struct Character {
    size: usize,
    code: u32,
}

// A match in a text: its rule, and where it ends.
#[derive(Clone, Copy)]
struct Match {
    rule: usize,
    end: usize,
}

// Where a text is cut.
#[derive(Clone, Copy)]
struct State {
    at: usize,
    // The mode on top.
    mode: u16,
    // How many modes lie below it.
    depth: usize,
}

// What comes next in a text.
#[derive(Clone, Copy)]
enum Step {
    Piece(NumberedPiece),
    End,
    // There is no room for a mode that the next token puts on top.
    TooDeep,
}

// Whether the byte at the place is one that follows in a character.
fn follows(text: &[u8], at: usize) -> bool {
    at < text.len() && text[at] >= 0x80 && text[at] < 0xC0
}

// The size and the code. `None` if the code isn't a character's, or a shorter form would do.
fn sized_character(size: usize, least: u32, code: u32) -> Option<Character> {
    if code < least || code >= 0x110000 || matches!(code, 0xD800..=0xDFFF) {
        return None;
    }
    Some(Character { size, code })
}

// How many bytes the character at the place has, and its code. `None` if the bytes there aren't a character (RFC 3629).
#[inline(always)]
fn read(text: &[u8], at: usize) -> Option<Character> {
    let first = u32::from(text[at]);
    if first < 0x80 {
        return sized_character(1, 0, first);
    }
    if first < 0xC0 || !follows(text, at + 1) {
        return None;
    }
    let second = u32::from(text[at + 1]) - 0x80;
    if first < 0xE0 {
        return sized_character(2, 0x80, (first - 0xC0) * 64 + second);
    }
    if !follows(text, at + 2) {
        return None;
    }
    let third = u32::from(text[at + 2]) - 0x80;
    if first < 0xF0 {
        return sized_character(3, 0x800, ((first - 0xE0) * 64 + second) * 64 + third);
    }
    if first >= 0xF8 || !follows(text, at + 3) {
        return None;
    }
    let fourth = u32::from(text[at + 3]) - 0x80;
    sized_character(
        4,
        0x10000,
        (((first - 0xF0) * 64 + second) * 64 + third) * 64 + fourth,
    )
}

// The block of the page with this number. Pages after the last one have its block.
fn block(table: &Table, page: usize) -> usize {
    table.pages[page.min(table.pages.len() - 1)] as usize
}

// The class of a character. ASCII is the first block.
fn class(table: &Table, code: u32) -> usize {
    let code = code as usize;
    if code < 128 {
        return table.blocks[code] as usize;
    }
    table.blocks[block(table, code / 128) * 128 + code % 128] as usize
}

// Whether there is room for the modes that the actions from the place on put on top, where this many modes lie below.
fn has_room(numbers: &Numbers, first: usize, depth: usize, room: usize) -> bool {
    let mut place = first;
    let mut depth = depth;
    while numbers.actions[place] != 0 {
        let action = numbers.actions[place];
        if action == 1 {
            depth = depth.saturating_sub(1);
        } else if action % 2 == 1 {
            if depth >= room {
                return false;
            }
            depth += 1;
        }
        place += 1;
    }
    true
}

// Does the actions from the place on: 1 takes away the mode on top, 2m + 2 puts the mode m in its place, 2m + 3 puts m on top.
fn act(numbers: &Numbers, first: usize, state: &mut State, below: &mut [u16]) {
    let mut place = first;
    while numbers.actions[place] != 0 {
        let action = numbers.actions[place];
        if action != 1 {
            if action % 2 == 1 {
                below[state.depth] = state.mode;
                state.depth += 1;
            }
            state.mode = (action / 2 - 1) as u16;
        } else if state.depth > 0 {
            state.depth -= 1;
            state.mode = below[state.depth];
        }
        place += 1;
    }
}

// How many words the memo for a text of this size has: those of the rows that wait long, of all modes.
fn memo_size(numbers: &Numbers, size: usize) -> usize {
    let last = &numbers.ahead[numbers.ahead.len() - 1];
    memo_words(last.before + last.waiting, size)
}

// Where the part of the table begins and ends in a memo of `words` words for a text of this size: after those of the modes before.
fn memo_part(ahead: &Ahead, size: usize, words: usize) -> (usize, usize) {
    let from = memo_words(ahead.before, size).min(words);
    let to = memo_words(ahead.before + ahead.waiting, size).min(words);
    (from, to)
}

// Where the longest match from the place on ends, and its rule, by a new block or without. `None` if nothing matches there.
fn found(
    numbers: &Numbers,
    text: &[u8],
    at: usize,
    mode: u16,
    run: &mut Run,
    memo: &mut [u64],
) -> Option<Match> {
    let table = &numbers.tables[mode as usize];
    let ahead = &numbers.ahead[mode as usize];
    let length = block_length(text, at, mode, run);
    if length > 0 {
        fill_block(ahead, table, text, at, mode, length, run);
        let token = known(ahead, run);
        if token.is_some() {
            return token;
        }
    }
    let (from, to) = memo_part(ahead, text.len(), memo.len());
    longest(ahead, table, text, at, &mut memo[from..to])
}

// Whether the pieces of the rule have actions.
#[inline(always)]
fn has_actions(numbers: &Numbers, rule: usize) -> bool {
    numbers.actions.len() > numbers.first_actions.len()
        && numbers.actions[numbers.first_actions[rule] as usize] != 0
}

// The token as a piece that begins at the start.
#[inline(always)]
fn token_piece(numbers: &Numbers, start: usize, token: Match) -> NumberedPiece {
    NumberedPiece {
        kind: Some(numbers.kinds[token.rule]),
        rule: token.rule,
        start,
        length: token.end - start,
    }
}

// The fault that begins where the text goes on, after which it then goes on.
fn fault(numbers: &Numbers, text: &[u8], state: &mut State, memo: &mut [u64]) -> NumberedPiece {
    let table = &numbers.tables[state.mode as usize];
    let ahead = &numbers.ahead[state.mode as usize];
    let start = state.at;
    let (from, to) = memo_part(ahead, text.len(), memo.len());
    state.at = fault_end(ahead, table, text, start, &mut memo[from..to]);
    NumberedPiece {
        kind: None,
        rule: 0,
        start,
        length: state.at - start,
    }
}

// As `next`, where the block doesn't tell the token, or the token's rule has actions.
#[inline(never)]
fn next_apart(
    numbers: &Numbers,
    text: &[u8],
    state: &mut State,
    below: &mut [u16],
    run: &mut Run,
    known: Option<Match>,
    memo: &mut [u64],
) -> Step {
    let start = state.at;
    let mode = state.mode;
    if start >= text.len() {
        return Step::End;
    }
    let token = match known {
        Some(token) => Some(token),
        None => found(numbers, text, start, mode, run, memo),
    };
    let Some(token) = token else {
        let piece = fault(numbers, text, state, memo);
        resume(run, state.at, mode);
        return Step::Piece(piece);
    };
    let first = numbers.first_actions[token.rule] as usize;
    if !has_room(numbers, first, state.depth, below.len()) {
        return Step::TooDeep;
    }
    act(numbers, first, state, below);
    state.at = token.end;
    if state.mode != mode {
        run.since = token.end;
    }
    resume(run, token.end, state.mode);
    Step::Piece(token_piece(numbers, start, token))
}

// The next piece, a token or a fault, after which the text is cut on.
#[inline(always)]
fn next(
    numbers: &Numbers,
    text: &[u8],
    state: &mut State,
    below: &mut [u16],
    run: &mut Run,
    memo: &mut [u64],
) -> Step {
    let start = state.at;
    let token = known(&numbers.ahead[state.mode as usize], run);
    if let Some(token) = token {
        if !has_actions(numbers, token.rule) {
            take(run);
            state.at = token.end;
            return Step::Piece(token_piece(numbers, start, token));
        }
    }
    next_apart(numbers, text, state, below, run, token, memo)
}

// Moves on to the offset, if it is further on, and to the end of the text at most. A line feed ends its line, and a byte that
// doesn't follow in a character is a column.
fn move_on(text: &[u8], position: &mut Position, to: usize) {
    while position.at < to && position.at < text.len() {
        if text[position.at] == b'\n' {
            position.line += 1;
            position.column = 1;
        } else if !follows(text, position.at) {
            position.column += 1;
        }
        position.at += 1;
    }
}

// A walk along a text: the row that it has reached, and the place.
#[derive(Clone, Copy)]
struct Walk {
    row: usize,
    at: usize,
}

// The column of a character, and how many bytes it has.
#[derive(Clone, Copy)]
struct CharacterColumn {
    number: usize,
    size: usize,
}

// The column of the character at the place. `None` if the bytes there aren't a character. Most are ASCII, so that is looked at
// first.
#[inline(always)]
fn column_at(table: &Table, text: &[u8], at: usize) -> Option<CharacterColumn> {
    let first = text[at];
    if first < 128 {
        return Some(CharacterColumn {
            number: first as usize,
            size: 1,
        });
    }
    let Some(character) = read(text, at) else {
        return None;
    };
    Some(CharacterColumn {
        number: column_of(table, character.code),
        size: character.size,
    })
}

// Whether a token is open in the row: it is neither that of `Lost` nor that of an end.
fn is_open(ahead: &Ahead, row: usize) -> bool {
    row > 0 && row < ahead.ends
}

// The walk after one more character. `None` if there is none, or it leads to a row in which the token isn't open.
#[inline(always)]
fn walked(ahead: &Ahead, table: &Table, text: &[u8], walk: Walk) -> Option<Walk> {
    if walk.at >= text.len() {
        return None;
    }
    let Some(column) = column_at(table, text, walk.at) else {
        return None;
    };
    let row = ahead.cells[walk.row + column.number] as usize;
    if !is_open(ahead, row) {
        return None;
    }
    Some(Walk {
        row,
        at: walk.at + column.size,
    })
}

// The number of the rule of the token that ends in the row; `NO_RULE` if none does.
fn rule_of(ahead: &Ahead, row: usize) -> AheadCell {
    ahead.cells[row + ahead.width]
}

// How many words of a memo each row has for a text of this size: a bit for each 64 bytes.
fn row_words(size: usize) -> usize {
    if size < 64 { 0 } else { size / 4096 + 1 }
}

// How many words this many rows have.
fn memo_words(rows: usize, size: usize) -> usize {
    rows.saturating_mul(row_words(size))
}

// The word of the memo in which the walk's bit is. `None` if a memo of `words` words doesn't have it.
fn word_of(ahead: &Ahead, size: usize, walk: Walk, words: usize) -> Option<usize> {
    let row_words = row_words(size);
    let number = walk.row / (ahead.width + 1) - 1;
    if number >= words / row_words {
        return None;
    }
    Some(number * row_words + walk.at / 4096)
}

// Whether it is noted that no match comes.
fn is_noted(ahead: &Ahead, size: usize, walk: Walk, memo: &[u64]) -> bool {
    match word_of(ahead, size, walk, memo.len()) {
        Some(word) => (memo[word] >> (walk.at / 64 % 64)) % 2 == 1,
        None => false,
    }
}

// Whether the step from the walk passes a multiple of 64: comes to it, or beyond it. This is asked at each character, and was
// measured to be quicker than a comparison of quotients.
fn passes(walk: Walk, next: Walk) -> bool {
    next.at % 64 < next.at - walk.at
}

// Notes that no match comes. Where the memo has room, that sets one bit, and no other.
fn note(ahead: &Ahead, text: &[u8], walk: Walk, memo: &mut [u64]) {
    if let Some(word) = word_of(ahead, text.len(), walk, memo.len()) {
        memo[word] |= 1u64 << (walk.at / 64 % 64);
    }
}

// Walks up to the end again, on which no match comes, and notes it. Where no bit was in the way, each multiple of 64 that it
// passes costs a new one, but for the last.
fn note_walk(ahead: &Ahead, table: &Table, text: &[u8], from: Walk, end: usize, memo: &mut [u64]) {
    let mut walk = from;
    while walk.at < end {
        let Some(next) = walked(ahead, table, text, walk) else {
            return;
        };
        if passes(walk, next) {
            note(ahead, text, next, memo);
        }
        walk = next;
    }
}

// Where the last match ends: there, if one does, or else where it did before.
fn last_of(ahead: &Ahead, last: Walk, there: Walk) -> Walk {
    if rule_of(ahead, there.row) != NO_RULE {
        there
    } else {
        last
    }
}

// How far a walk went: where the last match ends, or the start if there is none; and up to where it went on in vain.
#[derive(Clone, Copy)]
struct Reading {
    last: Walk,
    end: usize,
}

// Reads on from the start until no match comes.
fn read_on(ahead: &Ahead, table: &Table, text: &[u8], start: usize, memo: &[u64]) -> Reading {
    let mut walk = Walk {
        row: ahead.start,
        at: start,
    };
    let mut last = walk;
    loop {
        let Some(next) = walked(ahead, table, text, walk) else {
            return Reading { last, end: walk.at };
        };
        last = last_of(ahead, last, next);
        if passes(walk, next) && is_noted(ahead, text.len(), next, memo) {
            return Reading { last, end: next.at };
        }
        walk = next;
    }
}

// The match that ends there, if it isn't the start.
fn match_to(ahead: &Ahead, start: usize, last: Walk) -> Option<Match> {
    if last.at == start {
        return None;
    }
    Some(Match {
        rule: rule_of(ahead, last.row) as usize,
        end: last.at,
    })
}

// Reads on from the start until no match comes, and notes where that was in vain. Bits that are new pay for what was read in
// vain, 64 bytes each, all but the last 192.
fn read_and_note(
    ahead: &Ahead,
    table: &Table,
    text: &[u8],
    start: usize,
    memo: &mut [u64],
) -> Reading {
    let reading = read_on(ahead, table, text, start, memo);
    if !memo.is_empty() && reading.last.at / 64 < reading.end / 64 {
        note_walk(ahead, table, text, reading.last, reading.end, memo);
    }
    reading
}

// Where the longest match from the place on ends, and its rule. `None` if nothing matches there.
fn longest(
    ahead: &Ahead,
    table: &Table,
    text: &[u8],
    start: usize,
    memo: &mut [u64],
) -> Option<Match> {
    let reading = read_and_note(ahead, table, text, start, memo);
    match_to(ahead, start, reading.last)
}

// Where the fault at the place ends: before the next place where a rule matches, or with the text.
fn fault_end(
    ahead: &Ahead,
    table: &Table,
    text: &[u8],
    start: usize,
    memo: &mut [u64],
) -> usize {
    let mut end = start + 1;
    while end < text.len() {
        if longest(ahead, table, text, end, memo).is_some() {
            return end;
        }
        end += 1;
    }
    end
}

// The number of bytes that are looked at together: where all are ASCII, each is its own column.
const RUN: usize = 32;

// The column of a byte, and how many bytes of its character are still to come.
#[derive(Clone, Copy)]
struct Column {
    number: u16,
    left: usize,
}

// The column of the first byte of a character.
fn column_of(table: &Table, code: u32) -> usize {
    if code < 128 {
        return code as usize;
    }
    128 + class(table, code)
}

// The column of the byte at the place, which may lie after the text. Of the character before it, `left` bytes are still to
// come.
fn next_column(ahead: &Ahead, table: &Table, text: &[u8], at: usize, left: usize) -> Column {
    let within = ahead.width - 2;
    let bad = Column {
        number: (within + 1) as u16,
        left: 0,
    };
    if at >= text.len() {
        return bad;
    }
    if left > 0 {
        return Column {
            number: within as u16,
            left: left - 1,
        };
    }
    match read(text, at) {
        Some(character) => Column {
            number: column_of(table, character.code) as u16,
            left: character.size - 1,
        },
        None => bad,
    }
}

// Whether the bytes of a run from the place on are all within the text, and ASCII.
fn is_ascii_run(text: &[u8], at: usize) -> bool {
    if text.len() < RUN || at > text.len() - RUN {
        return false;
    }
    let mut all = 0;
    let run = &text[at..at + RUN];
    for byte in run {
        all |= byte;
    }
    all < 128
}

// The columns of bytes of ASCII: the bytes. These are two slices of one length, so that a processor can do many at once.
fn ascii_columns(columns: &mut [u16], bytes: &[u8]) {
    for (k, byte) in bytes[..columns.len()].iter().enumerate() {
        columns[k] = u16::from(*byte);
    }
}

// The columns of the bytes of the text from a place on, and of what follows it.
fn columns_of(
    ahead: &Ahead,
    table: &Table,
    text: &[u8],
    from: usize,
    columns: &mut [u16],
) {
    let mut left = 0;
    let mut at = 0;
    while at < columns.len() {
        let stop = (at + RUN).min(columns.len());
        if left == 0 && is_ascii_run(text, from + at) {
            let bytes = &text[from + at..from + stop];
            ascii_columns(&mut columns[at..stop], bytes);
        } else {
            for k in at..stop {
                let next = next_column(ahead, table, text, from + k, left);
                columns[k] = next.number;
                left = next.left;
            }
        }
        at = stop;
    }
}

// How many walks are done at once.
const WALKS: usize = 6;

// The row that the column leads to from the row. It is given the cells, not the lists, which would be read anew after each row
// that is written.
#[inline(always)]
fn step(cells: &[AheadCell], row: usize, column: u16) -> AheadCell {
    cells[row + column as usize]
}

// Walks along each part of the columns from the start on. The walks don't wait for each other, so they are quick; but the walks
// along later parts begin with what may be wrong.
#[inline(always)]
fn walk_parts(ahead: &Ahead, columns: &[u16], rows: &mut [AheadCell]) {
    let cells: &[AheadCell] = &ahead.cells;
    let part = columns.len() / WALKS;
    let mut last = [ahead.start; WALKS];
    for k in 0..part {
        for walk in 0..WALKS {
            let place = walk * part + k;
            let row = step(cells, last[walk], columns[place]);
            last[walk] = row as usize;
            rows[place] = row;
        }
    }
}

// The same. It is quickest along parts whose length is known when this is compiled.
fn walk(ahead: &Ahead, columns: &[u16], rows: &mut [AheadCell]) {
    if columns.len() == MOST {
        walk_parts(ahead, &columns[..MOST], &mut rows[..MOST]);
    } else {
        walk_parts(ahead, columns, rows);
    }
}

// Walks on from the row before the place until the row is the one that stands there.
fn walk_on(ahead: &Ahead, columns: &[u16], from: usize, rows: &mut [AheadCell]) {
    let cells: &[AheadCell] = &ahead.cells;
    let mut row = rows[from - 1];
    let mut at = from;
    while at < columns.len() {
        let next = step(cells, row as usize, columns[at]);
        if rows[at] == next {
            return;
        }
        rows[at] = next;
        at += 1;
        // A row often leads to itself, and such steps don't wait for each other.
        while next == row
            && at < columns.len()
            && rows[at] != next
            && step(cells, next as usize, columns[at]) == next
        {
            rows[at] = next;
            at += 1;
        }
        row = next;
    }
}

// Makes one run of those along the parts.
fn join(ahead: &Ahead, columns: &[u16], rows: &mut [AheadCell]) {
    let part = columns.len() / WALKS;
    for walk in 1..WALKS {
        walk_on(ahead, columns, walk * part, rows);
    }
}

// The columns of the bytes of the text from a place on, and the rows that they lead to from the start, one after another: each
// stands for what is known after its byte.
fn fill(
    ahead: &Ahead,
    table: &Table,
    text: &[u8],
    from: usize,
    columns: &mut [u16],
    rows: &mut [AheadCell],
) {
    columns_of(ahead, table, text, from, columns);
    walk(ahead, columns, rows);
    join(ahead, columns, rows);
}

// Which of 64 rows are at or above this one: a byte for each, 1 where it is, else 0. They are compared with a cell of their own
// size and the answers are kept apart, so that a processor can do many at once.
fn flags_of(rows: &[AheadCell], least: AheadCell) -> [u8; 64] {
    let mut flags = [0; 64];
    for (k, row) in rows.iter().enumerate() {
        flags[k] = u8::from(*row >= least);
    }
    flags
}

// Eight flags as bits, the lowest for the first. The flag of the byte k is the bit 8 * k of a number, and the bit 56 - 7 * k of the
// factor moves it to the bit 56 + k. No two bits of the product meet, so nothing is carried.
fn eight_bits(flags: &[u8]) -> u64 {
    let bytes = [
        flags[0], flags[1], flags[2], flags[3], flags[4], flags[5], flags[6], flags[7],
    ];
    u64::from_le_bytes(bytes).wrapping_mul(0x0102_0408_1020_4080) >> 56
}

// 64 flags as bits, the lowest for the first.
fn bits_of(flags: &[u8]) -> u64 {
    let mut bits = 0;
    for k in 1..=8 {
        bits = bits * 256 + eight_bits(&flags[64 - 8 * k..72 - 8 * k]);
    }
    bits
}

// Which of 64 rows are those of ends: a bit for each, the lowest for the first.
fn ends_of(rows: &[AheadCell], least: usize) -> u64 {
    if least > AheadCell::MAX as usize {
        return 0;
    }
    bits_of(&flags_of(rows, least as AheadCell))
}

// Writes a bit for each row: whether it is one of an end. Rows after the last 64 have none.
fn mark_ends(rows: &[AheadCell], least: usize, ends: &mut [u64]) {
    for word in 0..rows.len() / 64 {
        ends[word] = ends_of(&rows[word * 64..word * 64 + 64], least);
    }
}

// Runs through `size` bytes of the text from the place on: their columns, and the rows after them.
fn run_through(
    ahead: &Ahead,
    table: &Table,
    text: &[u8],
    at: usize,
    size: usize,
    columns: &mut [u16],
    rows: &mut [AheadCell],
) {
    fill(
        ahead,
        table,
        text,
        at,
        &mut columns[..size],
        &mut rows[..size],
    );
}

// Makes a block of this size of the text from the place on, by the tables of the mode.
fn fill_block(
    ahead: &Ahead,
    table: &Table,
    text: &[u8],
    at: usize,
    mode: u16,
    size: usize,
    run: &mut Run,
) {
    run_through(
        ahead,
        table,
        text,
        at,
        size,
        &mut run.columns,
        &mut run.rows,
    );
    mark_ends(&run.rows[..size], ahead.ends, &mut run.ends);
    run.base = at;
    run.length = size;
    run.mode = mode;
    run.word = 0;
    run.bits = run.ends[0];
}

// The next end in the block. `None` if none is left.
#[inline(always)]
fn next_end(run: &mut Run) -> Option<usize> {
    while run.bits == 0 {
        if run.word + 1 >= run.length / 64 {
            return None;
        }
        run.word += 1;
        run.bits = run.ends[run.word];
    }
    Some(run.word * 64 + run.bits.trailing_zeros() as usize)
}

// Goes on after the token that ends next.
#[inline(always)]
fn take(run: &mut Run) {
    run.bits &= run.bits - 1;
}

// The token that begins where the text goes on, if the block tells. It doesn't where that token is a fault, ends after the
// block, or ends before a longer one that then doesn't match.
#[inline(always)]
fn known(ahead: &Ahead, run: &mut Run) -> Option<Match> {
    let end = next_end(run)?;
    let rule = ahead.cells[run.rows[end - 1] as usize + ahead.width];
    if rule == NO_RULE {
        return None;
    }
    Some(Match {
        rule: rule as usize,
        end: run.base + end,
    })
}

// Goes on in the block at this place of the text, where this mode is on top, if that is an end in it. Otherwise no end is left
// for now.
fn resume(run: &mut Run, at: usize, mode: u16) {
    let place = at - run.base;
    if mode == run.mode && place < run.length && run.ends[place / 64] >> (place % 64) & 1 == 1 {
        run.word = place / 64;
        run.bits = ((run.ends[place / 64] >> (place % 64)) - 1) << (place % 64);
    } else {
        run.word = run.length / 64;
        run.bits = 0;
    }
}

// How many bytes to run through from the place on, where this mode is on top; 0 for none. At most as many as this mode has been
// on top for, so a mode that is soon left costs little. The present block is used first, as far as it serves.
fn block_length(text: &[u8], at: usize, mode: u16, run: &Run) -> usize {
    if at - run.since < LEAST {
        return 0;
    }
    let is_inside = mode == run.mode && at - run.base < run.length;
    if is_inside && (at == run.base || run.bits != 0 || run.word == run.length / 64) {
        return 0;
    }
    run.rows.len().min(text.len() - at).min(at - run.since) / LEAST * LEAST
}
"##;
