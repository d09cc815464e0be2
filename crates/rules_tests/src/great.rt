//! Long texts, and modes that are too deep.

use crate::calls::{Call, expect, number};
use crate::emit::count;
use crate::rules::{Asked, Lines};
use lalrpop_rules::{Piece, Pieces, RuleLexer};
use std::alloc::{AllocError, Global};

fn counts_of(alloc: Global, pieces: Pieces<'_>) -> Result<String, AllocError> {
    let (mut tokens, mut faults) = (0usize, 0usize);
    for piece in pieces {
        match piece {
            Ok(Piece::Token(_)) => tokens = tokens.wrapping_add(1),
            Ok(Piece::Fault { .. }) => faults = faults.wrapping_add(1),
            Ok(Piece::Skipped(_)) => {}
            Err(error) => return Err(error),
        }
    }
    format!(in alloc; "{tokens} {faults}")
}

/// How many tokens and faults a text of 40,000 parts has.
pub(crate) fn counts(alloc: Global, lexer: &RuleLexer, part: &str) -> Result<String, AllocError> {
    let text = part.repeat(alloc, 40_000)?;
    counts_of(alloc, lexer.pieces(alloc, &text)?)
}

/// How many pieces as many signs have, and whether the modes weren't too deep for more.
pub(crate) fn depth(alloc: Global, lexer: &RuleLexer, signs: &str) -> Result<String, AllocError> {
    let text = "<".repeat(alloc, number(signs))?;
    count(alloc, lexer, text.as_bytes())
}

// At each `/` a comment may begin that is never closed: cut one by one, each reads to the end.
#[test]
fn texts_are_cut_in_linear_time(rt: HostRuntime) {
    expect(
        &rt,
        rt.alloc(),
        Call::By(Lines::Names, Asked::Counts),
        &[(b"/*!", "80000 40000")],
    );
}

#[test]
fn modes_may_be_too_deep(rt: HostRuntime) {
    let rows: &[(&[u8], &str)] = &[(b"1024", "1024 true"), (b"1026", "1024 false")];
    expect(
        &rt,
        rt.alloc(),
        Call::By(Lines::Numbers, Asked::Depth),
        rows,
    );
}
