//! A lexer of the rules of a file, in one call.
ghost use Rattle.std.specs.Prelude.{◌≡◌, ◌<◌, length, IfOk, IfErr};
ghost use Rattle.lalrpop_rules.specs.Modes.{NoModeClash};
ghost use Rattle.lalrpop_rules.specs.FileLexer.{IsFileError, IsLexerOfFile, file_error, memory_error, place_in, rule_of as rule_named};
ghost use Rattle.lalrpop_rules.specs.Internal.FileRules.{IsLexerOfRules, IsRefusalOfRules};

use crate::error::RulesError;
use crate::rule_lexer::RuleLexer;
use bajofeki_rules::Position;
use lalrpop_rule_file::{FileRule, RuleFile, RuleFileError, read_rules};
use std::alloc::{AllocError, Global};
use thiserror::Error;

/// Why a file of rules makes no lexer.
///
/// ```
/// use lalrpop_rules::{FileError, RuleLexer};
///
/// let place = match RuleLexer::from_file(alloc, b"A = 'a'\nB = /b(/\n") {
///     Err(FileError::Rules { place, .. }) => place, // `Some` of line 2, column 6
///     _ => None,
/// };
/// ```
#[derive(Debug, Drop, Error)]
pub enum FileError {
    /// A line, a part or an action of the file is wrong, or memory was refused: the error says where, and why.
    #[error("{0}")]
    File(RuleFileError),
    /// The rules make no lexer: the error says why, and `place` where the text of its `rule` begins, in a clash the later of the
    /// two. It is `None` if the error names no rule, as one for memory does.
    #[error("{error}")]
    Rules {
        place: Option<Position>,
        error: RulesError,
    },
}

impl From<RuleFileError> for FileError {
    ghost from_gives = { λ error e. e ≡ file_error error };

    fn from(error: RuleFileError) -> FileError {
        FileError::File(error)
    }
}

impl From<AllocError> for FileError {
    ghost from_gives = { λ _ e. e ≡ memory_error };

    fn from(_error: AllocError) -> FileError {
        FileError::File(RuleFileError::OutOfMemory)
    }
}

// The rule that the error names first.
fn rule_of(error: &RulesError) -> Option<usize>
    ensures { result ≡ rule_named error.now }
{
    match error {
        RulesError::NoSuchMode { rule, .. }
        | RulesError::NotParsed { rule, .. }
        | RulesError::BadEnd { rule, .. }
        | RulesError::NotCompiled { rule, .. }
        | RulesError::Clash { rule, .. } => Some(*rule),
        RulesError::OutOfMemory => None,
    }
}

// Where its text begins.
fn place_of(rules: &[FileRule<'_>], error: &RulesError) -> Option<Position>
    ensures { result ≡ place_in rules.now error.now }
{
    match rules.get(rule_of(error)?) {
        Some(rule) => Some(rule.place),
        None => None,
    }
}

// The lexer of the rules of a file that was read.
fn lexer_of(alloc: Global, file: &RuleFile<'_>) -> Result<RuleLexer, FileError>
    requires some { 0 < length file.now.modes.items }
    ensures lexer { IfOk result (IsLexerOfRules file.now) }
    ensures no_clash { IfOk result NoModeClash }
    ensures error { IfErr result (IsRefusalOfRules file.now) }
{
    let rules = file.mode_rules(alloc)?;
    match RuleLexer::with_modes(alloc, &rules, &file.modes) {
        Ok(lexer) => Ok(lexer),
        Err(error) => {
            let place = place_of(&file.rules, &error);
            Err(FileError::Rules { place, error })
        }
    }
}

impl RuleLexer {
    /// The lexer of the rules of a file, which `read_rules` describes. Its modes are those of the file, in the order in
    /// which they first appear.
    ///
    /// ```
    /// use lalrpop_rules::RuleLexer;
    ///
    /// let lexer = RuleLexer::from_file(alloc, b"NAME = /[a-z]+/\nSPACE skip = / +/\n")?;
    /// let count = lexer.names().len(); // 2
    /// ```
    ///
    /// # Errors
    ///
    /// That of `read_rules`, or else that of `RuleLexer::with_modes` with the place of the rule's text; or out of memory.
    pub fn from_file(alloc: Global, bytes: &[u8]) -> Result<RuleLexer, FileError>
        ensures lexer { IfOk result (IsLexerOfFile bytes.now) }
        ensures no_clash { IfOk result NoModeClash }
        ensures error { IfErr result (IsFileError bytes.now) }
    {
        let file = read_rules(alloc, bytes)?;
        lexer_of(alloc, &file)
    }
}
