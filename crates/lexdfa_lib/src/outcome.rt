//! What a run finds, and its line.
ghost use Rattle.std.specs.Prelude.{◌≡◌, IfOk, string_bytes};
ghost use Rattle.lexdfa_lib.specs.Status.{outcome_status};
ghost use Rattle.lexdfa_lib.specs.Printed.{name_of, line_of};

use crate::word::Word;
use lalrpop_lexer::lexer::nfa::NfaConstructionError;
use std::alloc::{AllocError, Global};

/// What a run found. Terminals and lines are numbered from 0.
///
/// ```
/// use lexdfa_lib::{Outcome, outcome_line};
///
/// let line = outcome_line(alloc, &Outcome::Match { terminal: 1, bytes: 6 })?; // "match 1 6\n"
/// ```
#[derive(Debug, PartialEq, Eq, Drop)]
pub enum Outcome {
    /// This terminal has the longest match, of this many bytes.
    Match {
        terminal: usize,
        bytes: usize,
    },
    /// No terminal matches a nonempty prefix of the text.
    NoMatch,
    /// The whole text was cut into this many tokens.
    All {
        tokens: usize,
    },
    /// After this many tokens, no terminal matches a nonempty prefix of the rest, which begins at this byte of the text.
    Stopped {
        tokens: usize,
        at: usize,
    },
    /// This terminal is the first that can't be compiled.
    Refused {
        terminal: usize,
        error: NfaConstructionError,
    },
    /// Some word has two or more strongest terminals: `word` is the shortest, then least, such word, and `match0` and `match1`
    /// are the last two of its strongest terminals.
    Ambiguous {
        match0: usize,
        match1: usize,
        word: Word,
    },
    /// The terminal's pattern doesn't parse.
    Syntax {
        terminal: usize,
    },
    /// The line has another form.
    Line {
        line: usize,
    },
}

impl Outcome {
    /// The exit status: 0 for a match and for a text that was cut to its end, 1 if nothing matches the text or its rest, 2 if
    /// no automaton was built, 3 if the input is wrong.
    pub fn status(&self) -> u8
        ensures status { result ≡ outcome_status self.now }
    {
        match self {
            Outcome::Match { .. } => 0,
            Outcome::NoMatch => 1,
            Outcome::All { .. } => 0,
            Outcome::Stopped { .. } => 1,
            Outcome::Refused { .. } => 2,
            Outcome::Ambiguous { .. } => 2,
            Outcome::Syntax { .. } => 3,
            Outcome::Line { .. } => 3,
        }
    }
}

fn error_name(error: &NfaConstructionError) -> &'static str
    ensures { result.now ≡ name_of error.now }
{
    match error {
        NfaConstructionError::NamedCaptures => "NamedCaptures",
        NfaConstructionError::NonGreedy => "NonGreedy",
        NfaConstructionError::LookAround => "LookAround",
        NfaConstructionError::ByteRegex => "ByteRegex",
        NfaConstructionError::OutOfMemory => "OutOfMemory",
    }
}

/// The line of a clash, with its line feed: the numbers of the two terminals in decimal, and each value of the word in
/// lower-case hexadecimal.
///
/// # Errors
///
/// `AllocError` if a request for memory was refused.
pub fn clash_line(
    alloc: Global,
    match0: usize,
    match1: usize,
    word: &Word,
) -> Result<String, AllocError>
    ensures line { IfOk result (λ line.
        string_bytes line ≡ line_of (Outcome.Ambiguous match0 match1 word.now)) }
{
    format!(in alloc; "ambiguous {match0} {match1}{word}\n")
}

/// The line of the outcome, with its line feed. It is empty for `All`, whose tokens have a line each.
///
/// # Errors
///
/// `AllocError` if a request for memory was refused.
pub fn outcome_line(alloc: Global, outcome: &Outcome) -> Result<String, AllocError>
    ensures line { IfOk result (λ line. string_bytes line ≡ line_of outcome.now) }
{
    match outcome {
        Outcome::Match { terminal, bytes } => format!(in alloc; "match {terminal} {bytes}\n"),
        Outcome::NoMatch => String::from_str(alloc, "none\n"),
        Outcome::All { .. } => Ok(String::new(alloc)),
        Outcome::Stopped { at, .. } => format!(in alloc; "stop {at}\n"),
        Outcome::Refused { terminal, error } => {
            let name = error_name(error);
            format!(in alloc; "refused {terminal} {name}\n")
        }
        Outcome::Ambiguous {
            match0,
            match1,
            word,
        } => clash_line(alloc, *match0, *match1, word),
        Outcome::Syntax { terminal } => format!(in alloc; "syntax {terminal}\n"),
        Outcome::Line { line } => format!(in alloc; "line {line}\n"),
    }
}
