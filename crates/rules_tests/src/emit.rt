//! Lexers in numbers: the pieces of texts of bytes, which needn't be UTF-8, and the lexers as source files. Which bytes are characters is
//! taken from RFC 3629.
ghost use Rattle.lalrpop_emit.specs.ByteCut.{IsCutOf};

use crate::calls::{Call, expect, expect_lines};
use crate::rules::{Asked, Lines};
use lalrpop_emit::{ByteCutter, EmitError, LexerNumbers, NumberedPiece, c_source, rust_source};
use lalrpop_rules::RuleLexer;
use std::alloc::{AllocError, Global};
use std::fmt::Write;

// A token's rule, its kind if that is another rule, and its length; or of a fault `!` and its length.
fn add_piece(line: &mut String, piece: &NumberedPiece) -> Result<(), AllocError> {
    let (rule, length) = (piece.rule, piece.length);
    match piece.kind {
        Some(kind) if kind as usize == rule => write!(line, "{rule}:{length} "),
        Some(kind) => write!(line, "{rule} of {kind}:{length} "),
        None => write!(line, "!{length} "),
    }
}

fn add_pieces(line: &mut String, pieces: &[NumberedPiece]) -> Result<(), AllocError> {
    for piece in pieces {
        add_piece(line, piece)?;
    }
    Ok(())
}

fn pieces(alloc: Global, numbers: &LexerNumbers, bytes: &[u8]) -> Result<String, AllocError> {
    let cut = numbers.pieces(alloc, bytes)?;
    let mut line = String::new(alloc);
    add_pieces(&mut line, &cut.pieces)?;
    Ok(line)
}

// The same pieces, cut one at a time.
fn add_cut(
    line: &mut String,
    numbers: &LexerNumbers,
    cutter: &mut ByteCutter,
    text: &[u8],
) -> Result<(), AllocError>
    requires cut { IsCutOf numbers.now text.now cutter.old }
    ensures cut { IsCutOf numbers.now text.now cutter.new }
{
    'pieces: while let Ok(Some(piece)) = cutter.next_piece(numbers, text) {
        add_piece(line, &piece)?;
    }
    Ok(())
}

fn cut_on(alloc: Global, numbers: &LexerNumbers, text: &[u8]) -> Result<String, AllocError> {
    let mut cutter = ByteCutter::new(alloc, numbers, text.len())?;
    let mut line = String::new(alloc);
    add_cut(&mut line, numbers, &mut cutter, text)?;
    Ok(line)
}

// The pieces of each line, by one cutter.
fn cut_lines(alloc: Global, numbers: &LexerNumbers, text: &[u8]) -> Result<String, AllocError> {
    let mut cutter = ByteCutter::new(alloc, numbers, 0)?;
    let mut line = String::new(alloc);
    'lines: for bytes in text.split(|byte| *byte == b'\n') {
        cutter.restart(numbers, bytes.len())?;
        add_cut(&mut line, numbers, &mut cutter, bytes)?;
        line.push_str("| ")?;
    }
    Ok(line)
}

fn begins(source: Result<String, EmitError>, front: &str) -> Result<bool, AllocError> {
    match source {
        Ok(source) => Ok(source.starts_with(front)),
        Err(_) => Err(AllocError),
    }
}

// Whether the lexer is written in C and in Rust.
fn sources(alloc: Global, numbers: &LexerNumbers) -> Result<String, AllocError> {
    let is_c = begins(c_source(alloc, numbers, "lex"), "/* lex: a lexer in C")?;
    let is_rust = begins(rust_source(alloc, numbers), "// A lexer in Rust")?;
    format!(in alloc; "{is_c} {is_rust}")
}

/// What the lexer in numbers answers for the bytes, or why there is none.
pub(crate) fn cut(
    alloc: Global,
    asked: Asked,
    lexer: &RuleLexer,
    bytes: &[u8],
) -> Result<String, AllocError> {
    match LexerNumbers::new(alloc, lexer) {
        Ok(numbers) => match asked {
            Asked::Cutter => cut_on(alloc, &numbers, bytes),
            Asked::Again => cut_lines(alloc, &numbers, bytes),
            Asked::Sources => sources(alloc, &numbers),
            _ => pieces(alloc, &numbers, bytes),
        },
        Err(EmitError::OutOfMemory) => Err(AllocError),
        Err(error) => format!(in alloc; "{error:?}"),
    }
}

// How many pieces the bytes have, and whether the modes weren't too deep for more.
pub(crate) fn count(alloc: Global, lexer: &RuleLexer, bytes: &[u8]) -> Result<String, AllocError> {
    match LexerNumbers::new(alloc, lexer) {
        Ok(numbers) => {
            let cut = numbers.pieces(alloc, bytes)?;
            format!(in alloc; "{} {}", cut.pieces.len(), cut.is_whole)
        }
        Err(_) => Err(AllocError),
    }
}

// The last row has only the second byte of `é`.
const NAMED: &[(&[u8], &str)] = &[
    (b"", ""),
    (
        b"if: iffy \xc3\xa9t\xc3\xa9 \xc3\xa0",
        "0:2 !2 1:4 !1 1:5 !3 ",
    ),
    (b"a\xffb", "1:1 !1 1:1 "),
    (b"\xa9if", "!1 0:2 "),
];

const CUT: &[(&[u8], &str)] = &[
    // `a` in one byte, and in two, three and four.
    (b"\x61", "0:1 "),
    (b"\xc1\xa1", "!2 "),
    (b"\xe0\x81\xa1", "!3 "),
    (b"\xf0\x80\x81\xa1", "!4 "),
    // The least characters of two, three and four bytes: U+0080, U+0800 and U+10000.
    (b"\xc2\x80", "0:2 "),
    (b"\xe0\xa0\x80", "0:3 "),
    (b"\xf0\x90\x80\x80", "0:4 "),
    // U+D7FF, the surrogates D800 and DFFF, and U+E000.
    (b"\xed\x9f\xbf", "0:3 "),
    (b"\xed\xa0\x80", "!3 "),
    (b"\xed\xbf\xbf", "!3 "),
    (b"\xee\x80\x80", "0:3 "),
    // U+10FFFF, 110000 and 208000.
    (b"\xf4\x8f\xbf\xbf", "0:4 "),
    (b"\xf4\x90\x80\x80", "!4 "),
    (b"\xf8\x88\x80\x80", "!4 "),
    // `é`, `€` and an emoji without the last byte, at the end of a text and before a letter.
    (b"\xc3", "!1 "),
    (b"\xc3\x61", "!1 0:1 "),
    (b"\xe2\x82", "!2 "),
    (b"\xe2\x82\x61", "!2 0:1 "),
    (b"\xf0\x9f\x98", "!3 "),
    (b"\xf0\x9f\x98\x61", "!3 0:1 "),
];

const SIGNS: &[(&[u8], &str)] = &[(b"1<ab<c>>a", "0:1 1:1 3:2 1:1 3:1 2:1 2:1 !1 ")];

const IN_BRACKETS: &[(&[u8], &str)] = &[(b"a((bb)b)!a", "0:1 1:1 2:1 4:2 3:1 4:1 3:1 !1 0:1 ")];

// Each line begins in the first mode, whatever the one before ended in.
const LINES: &[(&[u8], &str)] = &[(b"aa(b\naa)\n\n(bb", "0:2 1:1 4:1 | 0:2 !1 | | 1:1 4:2 | ")];

#[test]
fn bytes_that_are_no_characters_are_faults(rt: HostRuntime) {
    expect(
        &rt,
        rt.alloc(),
        Call::By(Lines::Bytes, Asked::Numbers),
        NAMED,
    );
    expect(
        &rt,
        rt.alloc(),
        Call::By(Lines::Characters, Asked::Numbers),
        CUT,
    );
    expect(
        &rt,
        rt.alloc(),
        Call::By(Lines::Numbers, Asked::Numbers),
        SIGNS,
    );
    expect(
        &rt,
        rt.alloc(),
        Call::By(Lines::Brackets, Asked::Numbers),
        IN_BRACKETS,
    );
    expect(
        &rt,
        rt.alloc(),
        Call::By(Lines::Brackets, Asked::Cutter),
        IN_BRACKETS,
    );
    expect(
        &rt,
        rt.alloc(),
        Call::By(Lines::Brackets, Asked::Again),
        LINES,
    );
}

#[test]
fn lexers_are_written_or_refused(rt: HostRuntime) {
    expect(
        &rt,
        rt.alloc(),
        Call::By(Lines::Brackets, Asked::Sources),
        &[(b"", "true true")],
    );
    expect(
        &rt,
        rt.alloc(),
        Call::File(Asked::Numbers),
        &[(b"", "NoRules")],
    );
    let dashed = "IF l if / A-NAME l a <-  => BadName { rule: 1 }";
    expect_lines(&rt, rt.alloc(), Call::Rules(Asked::Numbers), dashed);
}
