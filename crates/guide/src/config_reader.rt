//! Cuts a text by the rules of a file, both named on the command line, and shows each token with a kind of this program's own.
#![tactic(auto)]

use crate::files::{lexer_of, text_of};
use anyhow::{Result, bail};
use bajofeki::{Piece, Position, RuleLexer};
use std::alloc::Global;
use std::env;
use std::io::Print;

#[derive(Clone, Copy, Debug)]
enum Kind {
    Boolean,
    Key,
    Number,
    Text,
    Sign,
    Mistake,
}

// The kind of a rule, by its name in the file.
fn kind_of(name: &str) -> Kind {
    match name {
        "TRUE" | "FALSE" => Kind::Boolean,
        "KEY" => Kind::Key,
        "NUMBER" => Kind::Number,
        "STRING" => Kind::Text,
        _ => Kind::Sign,
    }
}

// Writes the place of a piece of the text, its kind and its characters.
fn show_piece(rt: &impl Print, text: &str, start: usize, kind: Kind, slice: &str) -> Result<()> {
    if let Some(Position { line, column }) = Position::get(text, start) {
        println!(rt; "{line}:{column} {kind:?} {slice:?}")?;
    }
    Ok(())
}

// Writes each token. The stack of modes may need memory, so a piece may be an error.
fn show<'x>(rt: &impl Print, alloc: Global, lexer: &'x RuleLexer, text: &'x str) -> Result<()> {
    for piece in lexer.pieces(alloc, text)? {
        match piece {
            Ok(Piece::Token(token)) => {
                let kind = kind_of(lexer.name(token.index).unwrap_or(""));
                show_piece(rt, text, token.start, kind, token.slice)?;
            }
            Ok(Piece::Skipped(_)) => {}
            Ok(Piece::Fault { start, slice }) => show_piece(rt, text, start, Kind::Mistake, slice)?,
            Err(error) => return Err(error.into()),
        }
    }
    Ok(())
}

/// Reads both files and writes the tokens of the second.
pub fn main(rt: HostRuntime) -> Result<()> {
    let alloc = rt.alloc();
    let words: Vec<String> = env::args(&rt)?.collect(alloc)?;
    let [_, rules, text] = words.as_slice() else {
        bail!("usage: config_reader RULES TEXT");
    };
    let lexer = lexer_of(&rt, rules)?;
    let text = text_of(&rt, text)?;
    show(&rt, alloc, &lexer, &text)
}
