//! Terminals are read from lines, and a lexer is built from them.
ghost use Rattle.std.specs.Prelude.{◌⊎◌, IfOk, IfErr};
ghost use Rattle.bajofeki_rules.specs.Lines.{lines};
ghost use Rattle.lalrpop_lexer.specs.Terminals.{AreTerminals, FirstSays};
ghost use Rattle.lalrpop_lexer.specs.declared.terminal_line.TerminalLine.TheVariants.{Bad, NoTree};

use lalrpop_lexer::lexer::dfa::DfaConstructionError;
use lalrpop_lexer::{Lexer, Terminals, read_terminals};
use std::alloc::Global;

// Needs lalrpop_lexer::read_terminals: said.
/// The lexer of the terminals in these lines, or the first line that isn't a terminal.
///
/// # Errors
///
/// Why the terminals have no lexer, or out of memory.
pub fn lexer_of_lines(
    alloc: Global,
    bytes: &[u8],
) -> Result<Result<Lexer, usize>, DfaConstructionError>
    ensures terminals { IfOk result (λ found. IfOk found (λ lexer.
        AreTerminals (lines bytes.now) lexer.trees lexer.precedences)) }
    ensures wrong { IfOk result (λ found. IfErr found (λ i.
        FirstSays (lines bytes.now) i Bad ⊎ FirstSays (lines bytes.now) i NoTree)) }
{
    match read_terminals(alloc, bytes)? {
        Terminals::All {
            regexs,
            precedences,
        } => Ok(Ok(Lexer::new(alloc, regexs, precedences)?)),
        Terminals::Bad { line } => Ok(Err(line)),
        Terminals::NoTree { line } => Ok(Err(line)),
    }
}
