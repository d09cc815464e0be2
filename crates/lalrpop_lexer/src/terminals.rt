//! Reading terminals, one a line.
ghost use Rattle.std.specs.Prelude.{IfOk};
ghost use Rattle.lalrpop_lexer.specs.Terminals.{AreSaid};

use crate::terminal_line::{TerminalLine, parse_terminal};
use bajofeki_rules::split_line;
use lalrpop_build::Precedence;
use lalrpop_re::Regex;
use std::alloc::{AllocError, Global};

/// What the lines say. Lines are numbered from 0.
///
/// ```
/// use anyhow::bail;
/// use lalrpop_lexer::{Terminals, read_terminals};
///
/// let regexs = match read_terminals(alloc, b"1 l class\n0 r [a-z]+\n")? {
///     Terminals::All { regexs, .. } => regexs,
///     Terminals::Bad { line } | Terminals::NoTree { line } => bail!("line {line}"),
/// };
/// ```
#[derive(Drop)]
pub enum Terminals {
    /// Each line is a terminal; these are their patterns and precedences, in order.
    All {
        regexs: Vec<Regex>,
        precedences: Vec<Precedence>,
    },
    /// The first bad line: it doesn't have the form of a terminal.
    Bad {
        line: usize,
    },
    /// The first bad line: its pattern doesn't parse.
    NoTree {
        line: usize,
    },
}

/// Reads terminals, one a line, up to the first bad line: `P l TEXT` or `P r PATTERN`, where P is a precedence of 1 to 20
/// decimal digits, and both gaps are exactly one space. Each line ends at a line feed, which the last may lack.
///
/// # Errors
///
/// `AllocError` if a request for memory was refused.
pub fn read_terminals(alloc: Global, bytes: &[u8]) -> Result<Terminals, AllocError>
    ensures said { IfOk result (λ terminals. AreSaid bytes.now terminals) }
{
    let mut regexs = Vec::new(alloc);
    let mut precedences = Vec::new(alloc);
    let mut rest = bytes;
    while let Some((line, after)) = split_line(rest) {
        let number = regexs.len();
        match parse_terminal(alloc, line)? {
            TerminalLine::Bad => return Ok(Terminals::Bad { line: number }),
            TerminalLine::NoTree => return Ok(Terminals::NoTree { line: number }),
            TerminalLine::Terminal { precedence, regex } => {
                regexs.push(regex)?;
                precedences.push(Precedence(precedence))?;
            }
        }
        rest = after;
    }
    Ok(Terminals::All {
        regexs,
        precedences,
    })
}
