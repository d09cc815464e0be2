//! The smallest program with a lexer: two terminals, and the tokens of one text.
#![tactic(auto)]

use anyhow::Result;
use lalrpop_lexer::lexer::dfa::Precedence;
use lalrpop_lexer::{Form, Lexer};

/// Cuts one text and writes its tokens.
pub fn main(rt: HostRuntime) -> Result<()> {
    let alloc = rt.alloc();
    let patterns = [
        (Precedence(1), Form::Literal, "if"),
        (Precedence(0), Form::Pattern, "[a-z]+| +"),
    ];
    let lexer = Lexer::from_patterns(alloc, &patterns)?;
    for item in lexer.tokens(alloc, "if iffy!")? {
        match item {
            Ok((index, slice)) => println!(rt; "{} {slice:?}", index.index())?,
            Err(fault) => println!(rt; "{fault}")?,
        }
    }
    Ok(())
}
