//! What a line says: the tree of its terminal.
ghost use Rattle.std.specs.Prelude.{IfOk};
ghost use Rattle.lalrpop_lexer.specs.Line.{LineSays};

use crate::form::tree_of;
use crate::line::line_parts;
use lalrpop_re::{Regex, RegexError};
use std::alloc::{AllocError, Global};

/// What a line says.
#[derive(Drop)]
pub enum TerminalLine {
    /// The line has another form, or isn't UTF-8.
    Bad,
    /// The line's pattern doesn't parse.
    NoTree,
    /// The line is a terminal.
    Terminal { precedence: usize, regex: Regex },
}

/// What the line says. A line whose pattern doesn't parse is `NoTree`, not `Bad`.
///
/// # Errors
///
/// `AllocError` if a request for memory was refused.
pub fn parse_terminal(alloc: Global, line: &[u8]) -> Result<TerminalLine, AllocError>
    ensures said { IfOk result (λ meaning. LineSays line.now meaning) }
{
    let Some((precedence, form, text)) = line_parts(line) else {
        return Ok(TerminalLine::Bad);
    };
    match tree_of(alloc, form, text) {
        Ok(regex) => Ok(TerminalLine::Terminal { precedence, regex }),
        Err(RegexError::Syntax { .. }) => Ok(TerminalLine::NoTree),
        Err(RegexError::OutOfMemory) => Err(AllocError),
    }
}
