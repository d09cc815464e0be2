//! Tables of what calls are given and what they answer. One function makes all calls, so that no test has an answer of its own, which would
//! have to be dropped wherever the test ends.

use crate::lexers::Asked;
use crate::parts::Parts;
use crate::{automata, great, kernels, lexers, parts, trees, without};
use std::alloc::{AllocError, Global};
use std::process::Abort;

#[derive(Clone, Copy)]
pub(crate) enum Call {
    Pattern,
    Literal,
    AnyCase,
    Escape,
    Unescape,
    Copy,
    Prefixes,
    Nested,
    With(Parts),
    Part,
    Delimited,
    Outcome,
    Edges,
    Run,
    Ranges,
    Bytes,
    Nothing,
    Printed,
    Lexer(Asked),
    Joined,
    Kernels,
    Deep,
    Counted,
    Without,
}

// The answer on one line, or out of memory. Here and below a helper that can't go on says that it is out of memory, which no row wants.
pub(crate) fn answer(alloc: Global, call: Call, given: &str) -> Result<String, AllocError> {
    match call {
        Call::Pattern => trees::pattern(alloc, given),
        Call::Literal => trees::literal(alloc, given),
        Call::AnyCase => trees::any_case(alloc, given),
        Call::Escape => trees::escaped(alloc, given),
        Call::Unescape => trees::unescaped(alloc, given),
        Call::Copy => trees::copied(alloc, given),
        Call::Prefixes => trees::prefixes(alloc, given),
        Call::Nested => great::levels(alloc, given),
        Call::With(parts) => parts::with(alloc, parts, given),
        Call::Part => parts::part(alloc, given),
        Call::Delimited => lexers::delimited(alloc, given),
        Call::Outcome => automata::outcome(alloc, given),
        Call::Edges => automata::edges(alloc, given),
        Call::Run => automata::run(alloc, given),
        Call::Ranges => automata::ranges(alloc, given),
        Call::Bytes => automata::by_bytes(alloc, given),
        Call::Nothing => automata::by_nothing(alloc, given),
        Call::Printed => automata::printed(alloc, given),
        Call::Lexer(asked) => lexers::answer(alloc, asked, given),
        Call::Joined => lexers::joined(alloc, given),
        Call::Kernels => kernels::gone(alloc, given),
        Call::Deep => great::deep(alloc, given),
        Call::Counted => great::counted(alloc, given),
        Call::Without => without::shown(alloc, given),
    }
}

fn is_answer(alloc: Global, call: Call, given: &str, wanted: &str) -> Result<bool, AllocError> {
    Ok(answer(alloc, call, given)?.as_str() == wanted)
}

// A call that was refused memory is made again, since only one request is refused in a run, and then it has its answer.
fn is_answer_at_last(alloc: Global, call: Call, given: &str, wanted: &str) -> bool {
    match is_answer(alloc, call, given, wanted) {
        Ok(holds) => holds,
        Err(AllocError) => matches!(is_answer(alloc, call, given, wanted), Ok(true)),
    }
}

/// Each row has what the call is given and its answer.
pub(crate) fn expect(rt: &impl Abort, alloc: Global, call: Call, rows: &[(&str, &str)]) {
    for (given, wanted) in rows {
        assert!(rt; is_answer_at_last(alloc, call, *given, *wanted), "{given}");
    }
}

/// The same, a row a line.
pub(crate) fn expect_lines(rt: &impl Abort, alloc: Global, call: Call, table: &str) {
    for row in table.trim_matches('\n').lines() {
        let (given, wanted) = halves(row, " => ");
        assert!(rt; is_answer_at_last(alloc, call, given, wanted), "{row}");
    }
}

/// The two parts of a row. A row without a second part gets an empty one.
pub(crate) fn halves<'a>(row: &'a str, between: &str) -> (&'a str, &'a str) {
    row.split_once(between).unwrap_or((row, ""))
}

pub(crate) fn number(digits: &str) -> usize {
    digits.parse().unwrap_or(0)
}
