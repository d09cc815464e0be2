//! The tokens of a small language, read from standard input: rules with names, white space and comments skipped, mistakes
//! shown and passed over.
#![tactic(auto)]

use anyhow::Result;
use bajofeki::{Piece, Position, Rule, RuleLexer};
use std::alloc::Global;
use std::io::{self, Print};

fn lexer(alloc: Global) -> Result<RuleLexer> {
    let rules = [
        // A keyword is a name too. Literals have precedence 1 and patterns 0, so the keyword wins.
        Rule::literal("LET", "let"),
        Rule::pattern("NAME", r"\pL[\pL0-9]*"),
        Rule::pattern("NUMBER", r"[0-9]+(\.[0-9]+)?"),
        Rule::pattern("SIGN", r"[-+*/()=]"),
        Rule::pattern("SPACE", r"\s+").skipped(),
        Rule::pattern("COMMENT", r"#[^\n]*").skipped(),
    ];
    Ok(RuleLexer::from_rules(alloc, &rules)?)
}

// Writes the place of a piece of the text, its name and its characters.
fn show_piece(rt: &impl Print, text: &str, start: usize, name: &str, slice: &str) -> Result<()> {
    if let Some(Position { line, column }) = Position::get(text, start) {
        println!(rt; "{line}:{column} {name} {slice:?}")?;
    }
    Ok(())
}

// Writes each token, and `!` for the name where no rule matches.
fn show<'x>(rt: &impl Print, alloc: Global, lexer: &'x RuleLexer, text: &'x str) -> Result<()> {
    for piece in lexer.pieces(alloc, text)? {
        match piece {
            Ok(Piece::Token(token)) => {
                let name = lexer.name(token.index).unwrap_or("?");
                show_piece(rt, text, token.start, name, token.slice)?;
            }
            Ok(Piece::Skipped(_)) => {}
            Ok(Piece::Fault { start, slice }) => show_piece(rt, text, start, "!", slice)?,
            Err(error) => return Err(error.into()),
        }
    }
    Ok(())
}

/// Cuts standard input and writes its tokens.
pub fn main(rt: HostRuntime) -> Result<()> {
    let alloc = rt.alloc();
    let lexer = lexer(alloc)?;
    let text = io::read_to_string(alloc, rt.reader())?;
    show(&rt, alloc, &lexer, &text)
}
