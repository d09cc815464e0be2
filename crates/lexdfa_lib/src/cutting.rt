//! Cutting a text into tokens: a line for each, and the outcome.
ghost use Rattle.std.specs.Prelude.{◌≡◌, ◌++◌, ℕ, List, length, map, flat_map, string_bytes, IfOk, OnOk};
ghost use Rattle.lexdfa_lib.specs.Answer.{IsReported, HaveAutomaton};
ghost use Rattle.bajofeki_rules.specs.Lines.{lines};
ghost use Rattle.lexdfa_lib.specs.Printed.{line_of};
ghost use Rattle.lalrpop_lexer.specs.Terminals.{AreTerminals};
ghost use Rattle.lexdfa_lib.specs.Whole.{Token, Cuts, AreAnswers, token_line};
ghost use Rattle.lexdfa_lib.specs.declared.outcome.Outcome.{Outcome};

use crate::outcome::{Outcome, outcome_line};
use crate::report::outcome_of_error;
use lalrpop_lexer::lexer::dfa::{NfaIndex, Precedence};
use lalrpop_lexer::lexer::re::Regex;
use lalrpop_lexer::{Lexer, Terminals, read_terminals};
use std::alloc::{AllocError, Global};

/// The outcome for a whole text, and all its lines.
#[derive(Drop)]
pub(crate) struct Answers {
    pub(crate) outcome: Outcome,
    pub(crate) lines: String,
}

fn push_token(lines: &mut String, index: NfaIndex, slice: &str) -> Result<(), AllocError>
    ensures { OnOk result (string_bytes lines.new
        ≡ string_bytes lines.old ++ line_of (Outcome.Match index (length slice.now))) }
{
    let terminal = index.index();
    let bytes = slice.len();
    write!(lines, "match {terminal} {bytes}\n")
}

// These lines, followed by the line of the outcome.
fn with_outcome(alloc: Global, mut lines: String, outcome: Outcome) -> Result<Answers, AllocError>
    ensures { IfOk result (λ answers. (answers.outcome ≡ outcome)
        × (string_bytes answers.lines ≡ string_bytes lines ++ line_of outcome)) }
{
    let line = outcome_line(alloc, &outcome)?;
    lines.push_str(line.as_str())?;
    Ok(Answers { outcome, lines })
}

// The tokens of the text, and its fault, if any.
fn cut(alloc: Global, lexer: &Lexer, text: &str) -> Result<Answers, AllocError>
    ensures { IfOk result (λ answers. (tokens : List Token)
        × (Cuts lexer.now.trees lexer.now.precedences text.now tokens answers.outcome
        × (string_bytes answers.lines ≡ flat_map token_line tokens ++ line_of answers.outcome))) }
{
    let mut lines = String::new(alloc);
    let mut count = 0;
    let mut items = lexer.tokens(alloc, text)?;
    while let Some(item) = items.next() {
        match item {
            Ok(token) => {
                push_token(&mut lines, token.0, token.1)?;
                count += 1;
            }
            Err(fault) => {
                let outcome = Outcome::Stopped {
                    tokens: count,
                    at: fault.at,
                };
                return with_outcome(alloc, lines, outcome);
            }
        }
    }
    with_outcome(alloc, lines, Outcome::All { tokens: count })
}

// The tokens into which the patterns cut the text.
fn cut_by(
    alloc: Global,
    regexs: Vec<Regex>,
    precedences: Vec<Precedence>,
    text: &str,
) -> Result<Answers, AllocError>
    requires same_len { length regexs.items ≡ length precedences.items }
    ensures { IfOk result (λ answers. (bytes : List ℕ)
        → AreTerminals (lines bytes) regexs.items (map (λ p. p.0) precedences.items)
        → AreAnswers bytes text.now answers.outcome (string_bytes answers.lines)) }
{
    match Lexer::new(alloc, regexs, precedences) {
        Ok(lexer) => cut(alloc, &lexer, text),
        Err(error) => with_outcome(alloc, String::new(alloc), outcome_of_error(error)?),
    }
}

/// The outcome and all lines for these bytes and the text.
///
/// # Errors
///
/// `AllocError` if a request for memory was refused.
pub(crate) fn answers_of(alloc: Global, bytes: &[u8], text: &str) -> Result<Answers, AllocError>
    ensures answers { IfOk result (λ answers.
        AreAnswers bytes.now text.now answers.outcome (string_bytes answers.lines)) }
    ensures only { IfOk result (λ answers. (outcome : Outcome) (written : List ℕ)
        → AreAnswers bytes.now text.now outcome written
        → (answers.outcome ≡ outcome) × (string_bytes answers.lines ≡ written)) }
{
    let outcome = match read_terminals(alloc, bytes)? {
        Terminals::All {
            regexs,
            precedences,
        } => return cut_by(alloc, regexs, precedences, text),
        Terminals::Bad { line } => Outcome::Line { line },
        Terminals::NoTree { line } => Outcome::Syntax { terminal: line },
    };
    with_outcome(alloc, String::new(alloc), outcome)
}
