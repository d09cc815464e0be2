//! Texts that are edited, and texts that come in chunks.

use crate::calls::{Call, expect, expect_lines, halves, number};
use crate::rules::{Asked, Lines, add_piece};
use bajofeki::{Document, EditError, Stream};
use lalrpop_rules::RuleLexer;
use std::alloc::{AllocError, Global};
use std::ops::Range;

fn pieces(
    alloc: Global,
    document: &Document<'_>,
    start: usize,
    end: usize,
) -> Result<String, AllocError> {
    let mut line = String::new(alloc);
    for piece in document.pieces(alloc, start..end)? {
        add_piece(&mut line, &piece)?;
    }
    Ok(line)
}

fn all_pieces(alloc: Global, document: &Document<'_>) -> Result<String, AllocError> {
    pieces(alloc, document, 0, document.text().len())
}

// A refusal, if the text and its pieces are the old ones.
fn refused(
    alloc: Global,
    document: &Document<'_>,
    text: &str,
    before: &str,
) -> Result<String, AllocError> {
    if document.text() == text && all_pieces(alloc, document)?.as_str() == before {
        return Err(AllocError);
    }
    String::from_str(alloc, "the text or the pieces changed")
}

// What an edit of the text changes, or the pieces after it. If it is refused, the text and its pieces are the old ones.
fn edit_once(
    alloc: Global,
    asked: Asked,
    document: &mut Document<'_>,
    text: &str,
    range: Range<usize>,
    new: &str,
) -> Result<String, AllocError> {
    let before = all_pieces(alloc, document)?;
    match document.edit(alloc, range, new) {
        Ok(_) if matches!(asked, Asked::Edited) => all_pieces(alloc, document),
        Ok(change) => format!(in alloc; "{change:?}"),
        Err(EditError::OutOfMemory) => refused(alloc, document, text, before.as_str()),
        Err(error) => format!(in alloc; "{error:?}"),
    }
}

/// The document of the text in `START END NEW|TEXT` is asked for its pieces in this range, or has it replaced by the new text.
pub(crate) fn edited(
    alloc: Global,
    asked: Asked,
    lexer: &RuleLexer,
    row: &str,
) -> Result<String, AllocError> {
    let (edit, text) = halves(row, "|");
    let (start, rest) = halves(edit, " ");
    let (end, new) = halves(rest, " ");
    let (start, end) = (number(start), number(end));
    match Document::new(alloc, lexer, text) {
        Ok(document) if matches!(asked, Asked::Between) => pieces(alloc, &document, start, end),
        Ok(mut document) => edit_once(alloc, asked, &mut document, text, start..end, new),
        Err(EditError::OutOfMemory) => Err(AllocError),
        Err(error) => format!(in alloc; "{error:?}"),
    }
}

fn add_slice(chunks: &Stream<'_>, line: &mut String) -> Result<(), AllocError> {
    let slice = String::from_utf8_lossy(*line.allocator(), chunks.slice())?;
    line.push_str(&slice)?;
    line.push(' ')
}

// Adds the pieces that no later chunk can change, and then `|`. A piece that is refused is asked for again.
fn add_pieces(chunks: &mut Stream<'_>, line: &mut String, most: usize) -> Result<(), AllocError> {
    let mut is_refused = false;
    // A piece has one byte at least.
    for _ in 0..=most {
        match chunks.next_piece() {
            Ok(Some(_)) => add_slice(chunks, line)?,
            Ok(None) => return line.push_str("| "),
            Err(_) if is_refused => return Err(AllocError),
            Err(_) => is_refused = true,
        }
    }
    Ok(())
}

// Feeds a chunk, again if it is refused, and adds what is settled then.
fn add_chunk(
    chunks: &mut Stream<'_>,
    line: &mut String,
    chunk: &str,
    most: usize,
) -> Result<(), AllocError> {
    // Nothing ends the text before the last chunk.
    if chunks.is_ended() {
        return line.push_str("ended");
    }
    if chunks.feed(chunk.as_bytes()).is_err() {
        chunks.feed(chunk.as_bytes())?;
    }
    add_pieces(chunks, line, most)
}

/// The pieces of a text that comes in chunks with `|` between them.
pub(crate) fn in_chunks(
    alloc: Global,
    lexer: &RuleLexer,
    text: &str,
) -> Result<String, AllocError> {
    let mut chunks = Stream::new(alloc, lexer);
    let mut line = String::new(alloc);
    for chunk in text.split('|') {
        add_chunk(&mut chunks, &mut line, chunk, text.len())?;
    }
    chunks.finish();
    add_pieces(&mut chunks, &mut line, text.len())?;
    Ok(line)
}

// Outside of a comment `>` is a fault. What depends on the second byte is cut anew, up to where the comment ends.
const CHANGES: &str = "
4 4 x|ab cd ef => Change { first: 2, removed: 1, inserted: 1, start: 3, old_end: 5, new_end: 6 }
2 3 <|ab cd> ef => Change { first: 0, removed: 4, inserted: 5, start: 0, old_end: 6, new_end: 6 }
2 2 c|bäb => NoBoundary
3 1 c|bäb => NoBoundary
";

const EDITED: &str = r#"
2 2 (b(|aabb => 0 "aa" 0, 1 "(" 2, 4 "b" 3, 2 "(" 4, 4 "bb" 5, 
1 1 a|aa => 0 "aaa" 0, 
"#;

// A range may cut pieces, and characters, and go on past the text.
const BETWEEN: &str = r#"
1 4|ab cä> => 0 "ab" 0, (1 " " 2), 0 "cä" 3, 
5 9|ab cä> => 0 "cä" 3, ! ">" 6, 
2 3|ab cä> => (1 " " 2), 
3 3|ab cä> => 
7 9|ab cä> => 
"#;

#[test]
fn texts_are_edited(rt: HostRuntime) {
    expect_lines(
        &rt,
        rt.alloc(),
        Call::By(Lines::Edits, Asked::Change),
        CHANGES,
    );
    expect_lines(
        &rt,
        rt.alloc(),
        Call::By(Lines::Brackets, Asked::Edited),
        EDITED,
    );
    expect_lines(
        &rt,
        rt.alloc(),
        Call::By(Lines::Edits, Asked::Between),
        BETWEEN,
    );
}

#[test]
fn texts_come_in_chunks(rt: HostRuntime) {
    let rows: &[(&[u8], &str)] = &[(b"a|a(b|b)", "| aa ( | bb ) | | ")];
    expect(
        &rt,
        rt.alloc(),
        Call::By(Lines::Brackets, Asked::Stream),
        rows,
    );
}
