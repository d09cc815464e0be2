//! Paints the log that standard input brings, by the rules of a file: each piece in the colour of its rule, as soon as it is known.
//! A file in place of standard input is named after the rules.
#![tactic(auto)]

use crate::files::lexer_of;
use anyhow::{Context, Result, bail};
use bajofeki::{Painter, RuleLexer, Stream};
use std::alloc::Global;
use std::env;
use std::fs::File;
use std::io::{Print, Read};

// Paints the pieces that nothing that comes can change, with U+FFFD for what isn't UTF-8.
fn paint(
    rt: &impl Print,
    alloc: Global,
    chunks: &mut Stream<'_>,
    painter: &mut Painter<'_>,
) -> Result<()> {
    let mut page = String::new(alloc);
    // A piece has one byte at least.
    for _ in 0..chunks.rest().len() {
        match chunks.next_piece()? {
            Some(piece) => {
                let text = String::from_utf8_lossy(alloc, chunks.slice())?;
                painter.push(&mut page, &piece.with_slice(&text))?;
            }
            None => break,
        }
    }
    print!(rt; "{page}")?;
    Ok(())
}

// Paints what the reader gives, up to its end.
fn paint_all<R: Read>(
    rt: &impl Print,
    alloc: Global,
    lexer: &RuleLexer,
    reader: &mut R,
) -> Result<()> {
    let mut chunks = Stream::new(alloc, lexer);
    let mut painter = Painter::new(alloc, lexer.names())?;
    let mut buffer = [0u8; 4096];
    // Each loop ends, and a pipe may not.
    for _ in 0..u64::MAX {
        let count = reader.read(&mut buffer)?;
        if count == 0 {
            break;
        }
        chunks.feed(&buffer[..count])?;
        paint(rt, alloc, &mut chunks, &mut painter)?;
    }
    chunks.finish();
    paint(rt, alloc, &mut chunks, &mut painter)
}

/// Reads the rules, and paints the log.
pub fn main(rt: HostRuntime) -> Result<()> {
    let alloc = rt.alloc();
    let words: Vec<String> = env::args(&rt)?.collect(alloc)?;
    match words.as_slice() {
        [_, rules] => paint_all(&rt, alloc, &lexer_of(&rt, rules)?, &mut rt.reader()),
        [_, rules, log] => {
            let mut log = File::open(&rt, log).context(format_args!("{log:?}"))?;
            paint_all(&rt, alloc, &lexer_of(&rt, rules)?, &mut log)
        }
        _ => bail!("usage: log_highlighter RULES [LOG]"),
    }
}
