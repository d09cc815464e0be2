//! `guide editor RULES TEXT [--check]`: holds the text of a file with its pieces, and edits it.
//!
//! Each line of standard input is an edit: two places in the text, `LINE:COLUMN`, and what comes in place of what lies between
//! them, with escapes as in a pattern, so that `\n` is a line feed. For each edit it writes what changed: a line in bytes, such as
//! `4..5 -> 4..6: 1 out, 1 in`, and a line for each piece that came, with its place, and `!` where no rule matches. With `--check`,
//! the whole text is cut again after each edit, at once and in chunks, and it is an error if that gives other pieces or places.
//! The text of the file isn't changed.
#![tactic(auto)]

use crate::files::{lexer_of, text_of};
use anyhow::{Context, Result, bail, ensure};
use bajofeki::{Change, Document, EditError, GivenPiece, Piece, Position, RuleLexer, Stream};
use lalrpop_lexer::lexer::re::unescape;
use std::alloc::{AllocError, Global};
use std::io::{self, Print};
use std::slice::Iter;
use std::{env, str};

// The place that a word `LINE:COLUMN` names.
fn place_of(word: &str) -> Option<Position> {
    let (line, column) = word.split_once(':')?;
    Some(Position {
        line: line.parse().ok()?,
        column: column.parse().ok()?,
    })
}

// The byte offset of a place `LINE:COLUMN` in the text.
fn offset_of(text: &Document<'_>, word: &str) -> Result<usize> {
    let offset = place_of(word).and_then(|place| text.offset(place));
    offset.context(format_args!("the text has no place LINE:COLUMN {word:?}"))
}

// Does the edit of a line `FROM TO TEXT`.
fn edit(alloc: Global, text: &mut Document<'_>, line: &str) -> Result<Change> {
    let mut words = line.splitn(3, ' ');
    let (Some(from), Some(to)) = (words.next(), words.next()) else {
        bail!("an edit is two places and a text");
    };
    let range = offset_of(text, from)?..offset_of(text, to)?;
    let new = unescape(alloc, words.next().unwrap_or(""))?;
    Ok(text.edit(alloc, range, &new)?)
}

// The name of the rule of a piece.
fn name_of<'text>(lexer: &'text RuleLexer, piece: &Piece<'_>) -> &'text str {
    match piece {
        Piece::Token(token) | Piece::Skipped(token) => lexer.name(token.index).unwrap_or("?"),
        Piece::Fault { .. } => "!",
    }
}

// Writes what changed, and the pieces that came.
fn show(rt: &impl Print, alloc: Global, text: &Document<'_>, change: &Change) -> Result<()> {
    let Change {
        removed,
        inserted,
        start,
        old_end,
        new_end,
        ..
    } = *change;
    println!(rt; "{start}..{old_end} -> {start}..{new_end}: {removed} out, {inserted} in")?;
    for piece in text.pieces(alloc, start..new_end)? {
        if let Some(Position { line, column }) = text.position(piece.start()) {
            let name = name_of(text.lexer(), &piece);
            println!(rt; "{line}:{column} {name} {:?}", piece.slice())?;
        }
    }
    Ok(())
}

// Whether the lines and columns up to the place, counted again, are those of the text.
fn is_placed(text: &Document<'_>, at: usize) -> bool {
    text.position(at) == Position::get(text.text(), at)
}

// Whether a new cut gives these pieces, at the places that the text says.
fn is_cut_so(alloc: Global, text: &Document<'_>, pieces: &[Piece<'_>]) -> Result<bool, AllocError> {
    let mut rest = pieces.iter();
    for piece in text.lexer().pieces(alloc, text.text())? {
        match piece {
            Ok(piece) if rest.next() == Some(&piece) && is_placed(text, piece.start()) => {}
            Ok(_) => return Ok(false),
            Err(error) => return Err(error),
        }
    }
    Ok(rest.next().is_none())
}

// Whether this piece was given, with this slice.
fn is_piece(given: &GivenPiece, slice: &[u8], piece: &Piece<'_>) -> bool {
    match str::from_utf8(slice) {
        Ok(text) => given.with_slice(text) == *piece,
        Err(_) => false,
    }
}

// Whether the pieces that can be given are the next ones.
fn gives(chunks: &mut Stream<'_>, rest: &mut Iter<'_, Piece<'_>>) -> Result<bool, EditError> {
    // A piece has one byte at least.
    for _ in 0..chunks.rest().len() {
        let Some(given) = chunks.next_piece()? else {
            break;
        };
        match rest.next() {
            Some(piece) if is_piece(&given, chunks.slice(), piece) => {}
            _ => return Ok(false),
        }
    }
    Ok(true)
}

// Whether the text in chunks of one and two bytes gives these pieces.
fn is_given_so(
    alloc: Global,
    text: &Document<'_>,
    pieces: &[Piece<'_>],
) -> Result<bool, EditError> {
    let mut chunks = Stream::new(alloc, text.lexer());
    let mut rest = pieces.iter();
    let bytes = text.text().as_bytes();
    for chunk in bytes.chunks(3).flat_map(|three| three.chunks(2)) {
        chunks.feed(chunk)?;
        if !gives(&mut chunks, &mut rest)? {
            return Ok(false);
        }
    }
    chunks.finish();
    Ok(gives(&mut chunks, &mut rest)? && rest.next().is_none())
}

// Cuts the whole text again, and compares.
fn check(alloc: Global, text: &Document<'_>) -> Result<()> {
    let pieces = text.pieces(alloc, 0..text.text().len())?;
    ensure!(
        is_cut_so(alloc, text, &pieces)?,
        "a cut from nothing gives other pieces"
    );
    ensure!(
        is_given_so(alloc, text, &pieces)?,
        "chunks give other pieces"
    );
    Ok(())
}

// Does the edits of standard input, and shows what each changed.
fn edit_all(rt: &HostRuntime, rules: &str, text: &str, is_checked: bool) -> Result<()> {
    let alloc = rt.alloc();
    let lexer = lexer_of(rt, rules)?;
    let mut text = Document::new(alloc, &lexer, &text_of(rt, text)?)?;
    for line in io::read_to_string(alloc, rt.reader())?.lines() {
        let change = edit(alloc, &mut text, line)?;
        if is_checked {
            check(alloc, &text)?;
        }
        show(rt, alloc, &text, &change)?;
    }
    Ok(())
}

/// Reads the arguments. The first two words name the program, and this one of the programs that it has.
pub fn main(rt: HostRuntime) -> Result<()> {
    let words: Vec<String> = env::args(&rt)?.collect(rt.alloc())?;
    match words.as_slice() {
        [_, _, rules, text] => edit_all(&rt, rules, text, false),
        [_, _, rules, text, flag] if flag.as_str() == "--check" => {
            edit_all(&rt, rules, text, true)
        }
        _ => bail!("usage: guide editor RULES TEXT [--check] < EDITS"),
    }
}
