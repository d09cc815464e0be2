//! Tables of what calls are given and what they answer. One function makes all calls, so that no test has an answer of its own, which would
//! have to be dropped wherever the test ends.

use crate::files::Side;
use crate::rules::{Asked, Lines};
use crate::{files, rules};
use std::alloc::{AllocError, Global};
use std::process::Abort;

#[derive(Clone, Copy)]
pub(crate) enum Call {
    // Rules by hand, and a text.
    Rules(Asked),
    InModes,
    // A text for the rules of a file; and a file, for which there may be no lexer, and no text.
    By(Lines, Asked),
    File(Asked),
    // What a file is read as, also where `;` stands for a line feed.
    Read(Side),
    ReadLine(Side),
}

// The answer on one line, or out of memory. Here and below a helper that can't go on says that it is out of memory, which no row wants.
fn answer(alloc: Global, call: Call, given: &[u8]) -> Result<String, AllocError> {
    match call {
        Call::Rules(asked) => rules::by_hand(alloc, asked, given),
        Call::InModes => rules::in_modes(alloc, given),
        Call::By(lines, asked) => rules::by_file(alloc, asked, lines.bytes(), given),
        Call::File(asked) => rules::by_file(alloc, asked, given, b""),
        Call::Read(side) => files::read(alloc, side, given),
        Call::ReadLine(side) => files::read_line(alloc, side, given),
    }
}

fn is_answer(alloc: Global, call: Call, given: &[u8], wanted: &str) -> Result<bool, AllocError> {
    Ok(answer(alloc, call, given)?.as_str() == wanted)
}

// A call that was refused memory is made again, since only one request is refused in a run, and then it has its answer.
fn is_answer_at_last(alloc: Global, call: Call, given: &[u8], wanted: &str) -> bool {
    match is_answer(alloc, call, given, wanted) {
        Ok(holds) => holds,
        Err(AllocError) => matches!(is_answer(alloc, call, given, wanted), Ok(true)),
    }
}

/// Each row has what the call is given and its answer.
pub(crate) fn expect(rt: &impl Abort, alloc: Global, call: Call, rows: &[(&[u8], &str)]) {
    for (given, wanted) in rows {
        assert!(rt; is_answer_at_last(alloc, call, *given, *wanted), "{wanted}");
    }
}

/// The same, a row a line.
pub(crate) fn expect_lines(rt: &impl Abort, alloc: Global, call: Call, table: &str) {
    for row in table.trim_matches('\n').lines() {
        let (given, wanted) = halves(row, " => ");
        assert!(rt;
            is_answer_at_last(alloc, call, given.as_bytes(), wanted),
            "{row}"
        );
    }
}

/// The two parts of a row. A row without a second part gets an empty one.
pub(crate) fn halves<'a>(row: &'a str, between: &str) -> (&'a str, &'a str) {
    row.split_once(between).unwrap_or((row, ""))
}

pub(crate) fn number(digits: &str) -> usize {
    digits.parse().unwrap_or(0)
}
