//! What the program says of files of rules that give no lexer, for programs of one's own.
ghost use Rattle.std.specs.Prelude.{◌≡◌, ℕ, List, map, string_bytes, IfOk};
ghost use Rattle.bajofeki_rules.specs.Lines.{lines};
ghost use Rattle.lalrpop_rules.specs.ModeSet.{rules_of};
ghost use Rattle.lalrpop_rule_file.specs.RuleFile.{without_mark as without_mark_of};
ghost use Rattle.reports_lib.specs.Answer.{about, headed};
ghost use Rattle.reports_lib.specs.Reasons.{CanBeSaid, SaysBadLine, SaysRules};

use crate::mode_file::ModeFile;
use crate::rule_explain::{bad_line_explained, can_be_said, rules_explained};
use lalrpop_rule_file::{RuleFileError, without_mark};
use lalrpop_rules::RulesError;
use std::alloc::{AllocError, Global};

/// A message about a file: its name, and then this.
///
/// # Errors
///
/// `AllocError` if a request for memory was refused.
pub fn headed(alloc: Global, file: &str, rest: &str) -> Result<String, AllocError>
    ensures message { IfOk result (λ message. string_bytes message ≡ headed file.now rest.now) }
{
    format!(in alloc; "tokens: {file}:{rest}")
}

/// The line that says that a file gives no text, and why.
///
/// # Errors
///
/// `AllocError` if a request for memory was refused.
pub fn about(alloc: Global, file: &str, reason: &str) -> Result<String, AllocError>
    ensures message { IfOk result (λ message. string_bytes message ≡ about file.now reason.now) }
{
    format!(in alloc; "tokens: {file}: {reason}\n")
}

/// What the program says of the first bad line of a file of rules: the file's name, the line and the column, both from 1, and
/// the reason, and below them the line with a caret under the place. It ends with a line feed.
///
/// The bytes are those that `lalrpop_rule_file::read_rules` was given, and the error is its own.
///
/// ```
/// use tokens_lib::{bad_line_message, read_rules};
///
/// if let Err(error) = read_rules(alloc, bytes) {
///     let message = bad_line_message(alloc, "c.rules", bytes, &error)?; // "tokens: c.rules:2:3: `=` is missing: ..\n"
/// }
/// ```
///
/// # Errors
///
/// `AllocError` if a request for memory was refused, as it always is where the error is `OutOfMemory`.
pub fn bad_line_message(
    alloc: Global,
    name: &str,
    bytes: &[u8],
    error: &RuleFileError,
) -> Result<String, AllocError>
    ensures message { IfOk result (λ message. (said : List ℕ)
        × (SaysBadLine (lines (without_mark_of bytes.now)) error.now said
        × (string_bytes message ≡ headed name.now said))) }
{
    let said = bad_line_explained(alloc, without_mark(bytes), error)?;
    headed(alloc, name, said.as_str())
}

/// What the program says of rules that make no lexer: the file's name, where the rule stands, and the reason, and below them
/// its line; of a clash both lines, the word, and what can be done. It ends with a line feed.
///
/// The bytes are those that `lalrpop_rule_file::read_rules` was given, the file is what it read, and the error is one of
/// `RuleLexer::with_modes` or `mode_clashes` for its rules. Any other error is only said not to be one of these rules.
///
/// ```
/// use tokens_lib::{ModeFile, RuleLexer, read_rules, rules_message};
///
/// let read = read_rules(alloc, bytes)?;
/// let file = ModeFile::of(alloc, &read)?;
/// if let Err(error) = RuleLexer::with_modes(alloc, &file.rules, &file.modes) {
///     let message = rules_message(alloc, "c.rules", bytes, &file, &error)?; // "tokens: c.rules:2: B clashes with A ..\n"
/// }
/// ```
///
/// # Errors
///
/// `AllocError` if a request for memory was refused, as it always is where the error is `OutOfMemory`.
pub fn rules_message(
    alloc: Global,
    name: &str,
    bytes: &[u8],
    file: &ModeFile<'_>,
    error: &RulesError,
) -> Result<String, AllocError>
    ensures message { IfOk result (λ message.
        CanBeSaid (rules_of file.now.rules.items) error.now → (said : List ℕ)
        × (SaysRules (lines (without_mark_of bytes.now)) (map (λ m. m.now) file.now.modes.items)
        (rules_of file.now.rules.items) file.now.places.items error.now said
        × (string_bytes message ≡ headed name.now said))) }
{
    if !can_be_said(file, error) {
        return about(alloc, name, "this error isn't one of these rules");
    }
    let said = rules_explained(alloc, without_mark(bytes), file, error)?;
    headed(alloc, name, said.as_str())
}
