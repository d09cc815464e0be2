//! The whole run: reads bytes, builds the automaton of their terminals, and writes the lines of the outcome.
ghost use Rattle.std.specs.Prelude.{◌≡◌, ℕ, List, true, false, map, length, string_bytes, IfOk, IfErr};
ghost use Rattle.lexdfa_lib.specs.Answer.{IsOutcome};
ghost use Rattle.bajofeki_rules.specs.Lines.{lines};
ghost use Rattle.lalrpop_lexer.specs.Terminals.{AreTerminals};
ghost use Rattle.lexdfa_lib.specs.Run.{AreLines, Answers as RunAnswers, Fails};
ghost use Rattle.lexdfa_lib.specs.declared.outcome.Outcome.{Outcome};

use crate::cutting::{Answers, answers_of};
use crate::error::RunError;
use crate::outcome::{Outcome, outcome_line};
use crate::report::outcome_of_error;
use crate::streams::{Reader, Sink, Source, Writer, read_whole};
use lalrpop_lexer::lexer::dfa::Precedence;
use lalrpop_lexer::lexer::re::Regex;
use lalrpop_lexer::{Terminals, longest_match, read_terminals};
use std::alloc::{AllocError, Global};

// What the patterns find in the text.
fn find(
    alloc: Global,
    regexs: &[Regex],
    precedences: &[Precedence],
    text: &str,
) -> Result<Outcome, AllocError>
    requires same_len { length regexs.now ≡ length precedences.now }
    ensures { IfOk result (λ outcome. (bytes : List ℕ)
        → AreTerminals (lines bytes) regexs.now (map (λ p. p.0) precedences.now)
        → IsOutcome bytes text.now outcome) }
{
    match longest_match(alloc, regexs, precedences, text) {
        Ok(Some((index, matched))) => Ok(Outcome::Match {
            terminal: index.index(),
            bytes: matched.len(),
        }),
        Ok(None) => Ok(Outcome::NoMatch),
        Err(error) => outcome_of_error(error),
    }
}

// The outcome for these bytes and the text.
fn outcome_of(alloc: Global, bytes: &[u8], text: &str) -> Result<Outcome, AllocError>
    ensures outcome { IfOk result (λ outcome. IsOutcome bytes.now text.now outcome) }
    ensures only { IfOk result (λ outcome. (other : Outcome) → IsOutcome bytes.now text.now other
        → outcome ≡ other) }
{
    match read_terminals(alloc, bytes)? {
        Terminals::All {
            regexs,
            precedences,
        } => find(alloc, &regexs, &precedences, text),
        Terminals::Bad { line } => Ok(Outcome::Line { line }),
        Terminals::NoTree { line } => Ok(Outcome::Syntax { terminal: line }),
    }
}

// The outcome for these bytes and the text, and all lines: of the longest match, or, if all of the text is cut, of its tokens.
fn answers(alloc: Global, all: bool, bytes: &[u8], text: &str) -> Result<Answers, AllocError>
    ensures { IfOk result (λ answers.
        AreLines all text.now bytes.now answers.outcome (string_bytes answers.lines)) }
{
    if all {
        return answers_of(alloc, bytes, text);
    }
    let outcome = outcome_of(alloc, bytes, text)?;
    let lines = outcome_line(alloc, &outcome)?;
    Ok(Answers { outcome, lines })
}

/// `run_all`, or `run` if not all of the text is to be cut.
pub(crate) fn run_over<I: Source, O: Sink>(
    alloc: Global,
    all: bool,
    reader: &mut Reader<I>,
    text: &str,
    writer: &mut Writer<O>,
) -> Result<Outcome, RunError>
    ensures answer { IfOk result (λ outcome. RunAnswers (AreLines all text.now)
        reader.old reader.new writer.old writer.new outcome) }
    ensures fails { IfErr result (λ e. Fails (AreLines all text.now)
        reader.old reader.new writer.old writer.new e) }
{
    let bytes = read_whole(alloc, reader)?;
    let Answers { outcome, lines } = answers(alloc, all, &bytes, text)?;
    writer.write(lines.as_bytes())?;
    Ok(outcome)
}

/// Reads the reader to its end, and writes the line of the outcome for the bytes and the text.
///
/// Each line of input is a terminal `P l TEXT` or `P r PATTERN`: a precedence of 1 to 20 decimal digits, a space, the letter
/// `l` or `r`, a space, and a literal or a pattern. Each line ends with a line feed, which the last line may lack. No call is
/// tried again: once a call of the reader or the writer has failed, it is not called any more.
///
/// ```
/// use lexdfa_lib::{Reader, Writer, run};
///
/// let mut reader = Reader::new("0 r [a-z]+\n".as_bytes());
/// let mut writer = Writer::new(Vec::new(alloc));
/// run(alloc, &mut reader, "let x", &mut writer)?;
/// let line = writer.into_sink(); // the bytes of "match 0 3\n"
/// ```
///
/// # Errors
///
/// `OutOfMemory` if a request for memory was refused, and `Read` if a read failed: nothing was written. `Write` if a
/// write failed or took no byte: a prefix of the line was written.
pub fn run<I: Source, O: Sink>(
    alloc: Global,
    reader: &mut Reader<I>,
    text: &str,
    writer: &mut Writer<O>,
) -> Result<Outcome, RunError>
    ensures answer { IfOk result (λ outcome. RunAnswers (AreLines false text.now)
        reader.old reader.new writer.old writer.new outcome) }
    ensures fails { IfErr result (λ e. Fails (AreLines false text.now)
        reader.old reader.new writer.old writer.new e) }
{
    run_over(alloc, false, reader, text, writer)
}

/// Reads the reader to its end, cuts the whole text into tokens by the terminals that were read, and writes a line for each
/// token, and then one for the fault, if there is one. If the terminals have no automaton, it writes the one line of `run`.
///
/// The input has the form that `run` reads. All lines are made before the first is written. No call is tried again: once a call
/// of the reader or the writer has failed, it is not called any more.
///
/// # Errors
///
/// `OutOfMemory` if a request for memory was refused, and `Read` if a read failed: nothing was written. `Write` if a
/// write failed or took no byte: a prefix of the lines was written.
pub fn run_all<I: Source, O: Sink>(
    alloc: Global,
    reader: &mut Reader<I>,
    text: &str,
    writer: &mut Writer<O>,
) -> Result<Outcome, RunError>
    ensures answer { IfOk result (λ outcome. RunAnswers (AreLines true text.now)
        reader.old reader.new writer.old writer.new outcome) }
    ensures fails { IfErr result (λ e. Fails (AreLines true text.now)
        reader.old reader.new writer.old writer.new e) }
{
    run_over(alloc, true, reader, text, writer)
}
