//! The lexer of a file of rules.
ghost use Rattle.std.specs.Prelude.{◌≡◌, ◌<◌, ℕ, List, length, slice_get, Some, Ok, Err, map, string_bytes, IfOk, IfErr};
ghost use Rattle.bajofeki_rules.specs.Lines.{lines};
ghost use Rattle.lalrpop_rules.specs.ModeSet.{rules_of};
ghost use Rattle.lalrpop_rule_file.specs.RuleFile.{AreFileParts, AreRules, ArePlaces, NamesMode, without_mark as without_mark_of};
ghost use Rattle.lalrpop_rule_file.specs.declared.file_rule.FileRule.{FileRule as FileRuleValue};
ghost use Rattle.lexdfa_lib.specs.Streams.{GivesWhole};
ghost use Rattle.reports_lib.specs.Answer.{Answer, about as about_text, followed, headed, refusal, remark};
ghost use Rattle.reports_lib.specs.Reasons.{CanBeSaid, SaysBadLine, SaysRules};
ghost use Rattle.lexdfa_lib.specs.declared.layout.LineForm.TheVariants.{Plain};
ghost use Rattle.reports_lib.specs.NamedRules.{BytesAnswer, StandAt, IsSetOf, AreRulesOf, LinesAnswer, RulesOf, RulesRefused, rules_status, NameOnly};
ghost use Rattle.reports_lib.specs.WarningsSaid.{Warned, SaysIfAsked};

use crate::messages::{about, headed};
use crate::mode_file::ModeFile;
use crate::reply::Reply;
use crate::rule_explain::{bad_line_explained, rules_explained};
use crate::warnings::warnings_message;
use lalrpop_rule_file::{RuleFile, RuleFileError, read_rules, without_mark};
use lalrpop_rules::{RuleLexer, RulesError};
use lexdfa_lib::{Files, Verbosity, bytes_of};
use std::alloc::{AllocError, Global};

// The status of a bad line, and of a rule's text that doesn't parse.
const BAD_LINE: u8 = 3;

/// The status if a file gave no text.
pub const NO_TEXT: u8 = 6;

// The status of rules that can't be compiled or clash.
const REFUSED: u8 = 2;

/// The lexer of a file of rules, and the warnings about the file.
///
/// ```
/// use lexdfa_lib::Verbosity;
/// use reports_lib::{WarnedLexer, lexer_by_name};
///
/// match lexer_by_name(alloc, Verbosity::Warnings, &files, "my.rules")? {
///     Ok(WarnedLexer { lexer, said }) => {} // `said` is empty if there is nothing to warn of
///     Err(reply) => {} // why there is no lexer
/// }
/// ```
#[derive(Drop)]
pub struct WarnedLexer {
    /// The lexer.
    pub lexer: RuleLexer,
    /// The warnings, as they are said.
    pub said: String,
}

/// The warnings about the file of rules that these bytes are; nothing, if only errors are said.
///
/// # Errors
///
/// `AllocError` if a request for memory was refused.
pub fn warnings_said(
    alloc: Global,
    verbosity: Verbosity,
    name: &str,
    bytes: &[u8],
    file: &RuleFile<'_>,
) -> Result<String, AllocError>
    ensures said { IfOk result (λ message. SaysIfAsked Plain verbosity name.now
        (lines (without_mark_of bytes.now)) file.now (string_bytes message)) }
{
    match verbosity {
        Verbosity::Quiet => Ok(String::new(alloc)),
        Verbosity::Warnings | Verbosity::Progress => warnings_message(alloc, name, bytes, file),
    }
}

/// What is answered to a file that gives no bytes, for this reason.
///
/// # Errors
///
/// `AllocError` if a request for memory was refused.
pub fn unread(alloc: Global, name: &str, reason: &str) -> Result<Reply, AllocError>
    ensures answer { IfOk result (λ reply. reply ≡ refusal 6 (about_text name.now reason.now)) }
{
    Ok(Reply::refusal(alloc, NO_TEXT, about(alloc, name, reason)?))
}

/// What is answered to a bad line of the file of rules that these bytes are: it is said what is wrong with it.
///
/// # Errors
///
/// `AllocError` if a request for memory was refused.
pub fn line_refused(
    alloc: Global,
    name: &str,
    bytes: &[u8],
    error: &RuleFileError,
) -> Result<Reply, AllocError>
    ensures answer { IfOk result (λ reply. (said : List ℕ)
        × (SaysBadLine (lines bytes.now) error.now said
        × (reply ≡ refusal 3 (headed name.now said)))) }
{
    let said = bad_line_explained(alloc, bytes, error)?;
    let message = headed(alloc, name, said.as_str())?;
    Ok(Reply::refusal(alloc, BAD_LINE, message))
}

// The status of rules with this error.
fn status_of(error: &RulesError) -> u8
    ensures { result ≡ rules_status error.now }
{
    match error {
        RulesError::NotParsed { .. } | RulesError::BadEnd { .. } => BAD_LINE,
        _ => REFUSED,
    }
}

/// What is answered to rules of which no lexer can be made: it is said why.
///
/// # Errors
///
/// `AllocError` if a request for memory was refused.
pub fn rules_refused(
    alloc: Global,
    name: &str,
    bytes: &[u8],
    file: &ModeFile<'_>,
    error: &RulesError,
) -> Result<Reply, AllocError>
    requires error { CanBeSaid (rules_of file.now.rules.items) error.now }
    ensures answer { IfOk result (λ reply. (said : List ℕ)
        × (SaysRules (lines bytes.now) (map (λ m. m.now) file.now.modes.items)
        (rules_of file.now.rules.items) file.now.places.items error.now said
        × (reply ≡ refusal (rules_status error.now) (headed name.now said)))) }
{
    let said = rules_explained(alloc, bytes, file, error)?;
    let message = headed(alloc, name, said.as_str())?;
    Ok(Reply::refusal(alloc, status_of(error), message))
}

// The lexer of the rules of a file; or what is answered, if there is none.
fn lexer_of_file(
    alloc: Global,
    name: &str,
    bytes: &[u8],
    file: &ModeFile<'_>,
) -> Result<Result<RuleLexer, Reply>, AllocError>
    requires places { StandAt (lines bytes.now) file.now.rules.items file.now.places.items }
    requires some { 0 < length file.now.modes.items }
    requires within { NameOnly file.now.rules.items (length file.now.modes.items) }
    ensures lexer { IfOk result (λ found. IfOk found (λ f.
        IsSetOf file.now.rules.items (map (λ m. m.now) file.now.modes.items) f)) }
    ensures names { IfOk result (λ found. IfOk found (λ f.
        f.mode_names ≡ map (λ m. m.now) file.now.modes.items)) }
    ensures refused { IfOk result (λ found. IfErr found
        (RulesRefused name.now (lines bytes.now) (map (λ m. m.now) file.now.modes.items)
        file.now.rules.items)) }
{
    match RuleLexer::with_modes(alloc, &file.rules, &file.modes) {
        Ok(lexer) => Ok(Ok(lexer)),
        Err(error) => Ok(Err(rules_refused(alloc, name, bytes, file, &error)?)),
    }
}

// The lexer of the rules of the file that these bytes are; or what is answered, if there is none.
fn lexer_of_rules(
    alloc: Global,
    name: &str,
    bytes: &[u8],
    file: &RuleFile<'_>,
) -> Result<Result<RuleLexer, Reply>, AllocError>
    requires rules { AreRules (lines (without_mark_of bytes.now))
        (map (λ m. m.now) file.now.modes.items) file.now.rules.items }
    requires parts { AreFileParts (lines (without_mark_of bytes.now)) file.now.parts.items }
    requires places { ArePlaces (lines (without_mark_of bytes.now)) file.now.rules.items }
    requires some { 0 < length file.now.modes.items }
    requires within { (i m : ℕ) (r : FileRuleValue)
        → slice_get file.now.rules.items i ≡ Some r → NamesMode r m
        → m < length file.now.modes.items }
    ensures lexer { IfOk result (λ found. IfOk found (λ f.
        AreRulesOf bytes.now f f.mode_names)) }
    ensures refused { IfOk result (λ found. IfErr found
        (LinesAnswer RulesRefused name.now (lines (without_mark_of bytes.now)))) }
{
    let file = ModeFile::of(alloc, file)?;
    lexer_of_file(alloc, name, without_mark(bytes), &file)
}

// The lexer of the rules of the file that these bytes are, with the warnings that are said; or what is answered after them.
fn warned_lexer(
    found: Result<RuleLexer, Reply>,
    said: String,
) -> Result<Result<WarnedLexer, Reply>, AllocError>
    ensures lexer { IfOk result (λ all. IfOk all (λ w.
        (found ≡ Ok w.lexer) × (w.said ≡ said))) }
    ensures refused { IfOk result (λ all. IfErr all (λ reply. (own : Answer)
        × ((found ≡ Err own) × (reply ≡ followed (remark (string_bytes said)) own)))) }
{
    match found {
        Ok(lexer) => Ok(Ok(WarnedLexer { lexer, said })),
        Err(reply) => Ok(Err(reply.after(0, said)?)),
    }
}

/// The lexer of the rules that these bytes are, in a file of this name; or what is answered, if there is none.
///
/// # Errors
///
/// `AllocError` if a request for memory was refused.
pub fn lexer_of_bytes(
    alloc: Global,
    verbosity: Verbosity,
    name: &str,
    bytes: &[u8],
) -> Result<Result<WarnedLexer, Reply>, AllocError>
    ensures lexer { IfOk result (λ found. IfOk found (λ f.
        AreRulesOf bytes.now f.lexer f.lexer.mode_names)) }
    ensures warned { IfOk result (λ found. IfOk found (λ f.
        Warned Plain verbosity name.now (lines (without_mark_of bytes.now))
        (string_bytes f.said))) }
    ensures refused { IfOk result (λ found. IfErr found
        (RulesOf verbosity RulesRefused name.now bytes.now)) }
{
    match read_rules(alloc, bytes) {
        Ok(file) => {
            let said = warnings_said(alloc, verbosity, name, bytes, &file)?;
            warned_lexer(lexer_of_rules(alloc, name, bytes, &file)?, said)
        }
        Err(error) => Ok(Err(line_refused(alloc, name, without_mark(bytes), &error)?)),
    }
}

/// The lexer of the rules of a file; or what is answered, if there is none.
///
/// # Errors
///
/// `AllocError` if a request for memory was refused.
pub fn lexer_by_name<F: Files>(
    alloc: Global,
    verbosity: Verbosity,
    files: &F,
    name: &str,
) -> Result<Result<WarnedLexer, Reply>, AllocError>
    ensures lexer { IfOk result (λ found. IfOk found (λ f. (bytes : List ℕ)
        × (GivesWhole (F.gives files.now) name.now (Ok bytes)
        × (AreRulesOf bytes f.lexer f.lexer.mode_names
        × Warned Plain verbosity name.now (lines (without_mark_of bytes))
        (string_bytes f.said))))) }
    ensures refused { IfOk result (λ found. IfErr found
        (BytesAnswer (GivesWhole (F.gives files.now)) (RulesOf verbosity RulesRefused) name.now)) }
{
    match bytes_of(alloc, files, name)? {
        Ok(bytes) => lexer_of_bytes(alloc, verbosity, name, &bytes),
        Err(reason) => Ok(Err(unread(alloc, name, reason.as_str())?)),
    }
}
