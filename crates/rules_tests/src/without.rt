//! Calls that take no memory. `.ci/refusals` refuses every request that is made after `from_here_on`, and they still answer.

use lalrpop_emit::{BytePosition, byte_position};
use lexdfa_lib::{Outcome, RunError, Watched, Word, arguments};
use std::alloc::{AllocError, Global};

// A request of this size, granted or not, is the sign to refuse all that follow.
fn from_here_on(alloc: Global) {
    let _sign: Result<Vec<u8>, AllocError> = Vec::with_capacity(alloc, 54_321);
}

fn is_word(word: Word, values: &[u32]) -> bool {
    word.values() == values && word.into_vec().as_slice() == values
}

fn word_is_shown(alloc: Global) -> Result<bool, AllocError> {
    let values = vec![in alloc; 99, 108]?;
    from_here_on(alloc);
    Ok(is_word(Word::new(values), &[99, 108]))
}

#[test]
fn words_of_clashes(rt: HostRuntime) {
    assert!(rt; word_is_shown(rt.alloc()) == Ok(true));
}

fn holds_its_end(end: Watched<u8>) -> bool {
    !end.failed() && end.into_inner() == 7
}

fn program_answers(alloc: Global, words: &[String]) -> bool {
    from_here_on(alloc);
    arguments(words) == Some((false, ""))
        && holds_its_end(Watched::new(7))
        && Outcome::NoMatch.status() == 1
        && RunError::OutOfMemory.status() == 5
}

fn the_program_is_shown(alloc: Global) -> Result<bool, AllocError> {
    Ok(program_answers(alloc, &[String::from_str(alloc, "")?]))
}

#[test]
fn the_program(rt: HostRuntime) {
    assert!(rt; the_program_is_shown(rt.alloc()) == Ok(true));
}

fn is_place(text: &[u8], at: usize, line: usize, column: usize) -> bool {
    byte_position(text, at) == BytePosition { at, line, column }
}

const TEXT: &[u8] = b"a\nb\xc3\xa9 c";

// A place, its line and its column.
const PLACES: &[(usize, usize, usize)] = &[
    (0, 1, 1),
    // The line feed and what comes after it.
    (1, 1, 2),
    (2, 2, 1),
    // `é` with its second byte, the space, `c` and the end.
    (3, 2, 2),
    (4, 2, 3),
    (5, 2, 3),
    (6, 2, 4),
    (7, 2, 5),
];

#[test]
fn places_count_lines_and_characters(rt: HostRuntime) {
    from_here_on(rt.alloc());
    for (at, line, column) in PLACES {
        assert!(rt; is_place(TEXT, *at, *line, *column));
    }
    // Past the end is the end.
    assert!(rt; byte_position(TEXT, 9) == byte_position(TEXT, 7));
    // A byte that can't stand in a character is a column, and the second byte of `é` without its first is none.
    assert!(rt; is_place(b"\xff\xa9a", 3, 1, 3));
}
