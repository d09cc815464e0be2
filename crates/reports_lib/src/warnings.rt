//! What is said of what a file of rules says, but surely doesn't mean.
ghost use Rattle.std.specs.Prelude.{◌≡◌, map, string_bytes, IfOk};
ghost use Rattle.bajofeki_rules.specs.Lines.{lines};
ghost use Rattle.lalrpop_rule_file.specs.RuleFile.{without_mark as without_mark_of};
ghost use Rattle.reports_lib.specs.PieceLines.{name_at};
ghost use Rattle.reports_lib.specs.Reasons.{place_at};
ghost use Rattle.reports_lib.specs.Warned.{SaysWarnings, text_place as text_place_of, warned_at, warned_of, warning_line};
ghost use Rattle.reports_lib.specs.Internal.ModePlaces.{section_at};
ghost use Rattle.lexdfa_lib.specs.declared.layout.LineForm.TheVariants.{Plain};

use crate::mode_place::mode_place;
use crate::reported_file::NO_PLACE;
use lalrpop_lexer::Position;
use lalrpop_rule_file::{FileRule, PartLine, RuleFile, Warning, without_mark};
use std::alloc::{AllocError, Global};

// What is said of texts.
const TEXT_GOES_ON: &str =
    "this text goes on to the last delimiter of the line, past one that seems to end it";

const CLASS_OUTSIDE: &str =
    "a bracket such as [:alpha:] is a set of its characters: a class stands in brackets, as [[:alpha:]]";

const END_PASSED: &str =
    "a match goes on past the first end to the last one: write from 'A' to 'B', or `[^x]*x` for `.*x`";

// A warning about the whole file.
fn warned_of(alloc: Global, name: &str, words: &str) -> Result<String, AllocError>
    ensures { IfOk result (λ line. string_bytes line ≡ warned_of name.now words.now) }
{
    format!(in alloc; "tokens: {name}: warning: {words}\n")
}

// A warning about a place in it.
fn warned_at(alloc: Global, name: &str, place: Position, words: &str) -> Result<String, AllocError>
    ensures { IfOk result (λ line. string_bytes line ≡ warned_at name.now place words.now) }
{
    let Position { line, column } = place;
    format!(in alloc; "tokens: {name}:{line}:{column}: warning: {words}\n")
}

/// The name of the part with this index.
pub(crate) fn part_name<'text>(parts: &[PartLine<'text>], part: usize) -> &'text str
    ensures { result.now ≡ name_at (map (λ p. p.name.now) parts.now) part }
{
    match parts.get(part) {
        Some(line) => line.name,
        None => "",
    }
}

/// Where its line begins the name.
pub(crate) fn part_place(parts: &[PartLine<'_>], part: usize) -> Position
    ensures { result ≡ place_at (map (λ p. p.place) parts.now) part }
{
    match parts.get(part) {
        Some(line) => line.place,
        None => NO_PLACE,
    }
}

/// The name of the mode with this number.
pub(crate) fn mode_name<'text>(modes: &[&'text str], mode: usize) -> &'text str
    ensures { result.now ≡ name_at (map (λ name. name.now) modes.now) mode }
{
    match modes.get(mode) {
        Some(name) => *name,
        None => "",
    }
}

/// Where the text of the rule with this index begins.
pub(crate) fn text_place(rules: &[FileRule<'_>], rule: usize) -> Position
    ensures { result ≡ place_at (map (λ r. r.place) rules.now) rule }
{
    match rules.get(rule) {
        Some(rule) => rule.place,
        None => NO_PLACE,
    }
}

// A warning about the mode, where its first section begins.
fn warned_of_mode(
    alloc: Global,
    name: &str,
    bytes: &[u8],
    mode: &str,
    words: &str,
) -> Result<String, AllocError>
    ensures { IfOk result (λ line. string_bytes line
        ≡ warned_at name.now (section_at (lines bytes.now) mode.now) words.now) }
{
    let place = mode_place(bytes, mode);
    warned_at(alloc, name, place, words)
}

// A warning about the rule with this index, where its text begins.
fn warned_of_text(
    alloc: Global,
    name: &str,
    file: &RuleFile<'_>,
    rule: usize,
    words: &str,
) -> Result<String, AllocError>
    ensures { IfOk result (λ line. string_bytes line
        ≡ warned_at name.now (text_place_of file.now rule) words.now) }
{
    let place = text_place(&file.rules, rule);
    warned_at(alloc, name, place, words)
}

// The line of a warning about the file with these lines.
fn warning_line(
    alloc: Global,
    name: &str,
    bytes: &[u8],
    file: &RuleFile<'_>,
    warning: Warning,
) -> Result<String, AllocError>
    ensures { IfOk result (λ line. string_bytes line
        ≡ warning_line name.now (section_at (lines bytes.now)) file.now warning) }
{
    match warning {
        Warning::NoRules => warned_of(
            alloc,
            name,
            "there is no rule in this file: a rule is a line NAME = 'TEXT' or NAME = /PATTERN/",
        ),
        Warning::PartUnused { part } => {
            let unused = part_name(&file.part_lines, part);
            let place = part_place(&file.part_lines, part);
            let words = format!(in alloc; "no pattern below uses the part {{{unused}}}")?;
            warned_at(alloc, name, place, words.as_str())
        }
        Warning::ModeNotEntered { mode } => {
            let mode = mode_name(&file.modes, mode);
            let words = format!(in alloc; "no rule enters the mode {mode}")?;
            warned_of_mode(alloc, name, bytes, mode, words.as_str())
        }
        Warning::ModeNotLeft { mode } => {
            let mode = mode_name(&file.modes, mode);
            let words = format!(in alloc;
                "no rule leaves the mode {mode}: none pops it or puts another mode in its place"
            )?;
            warned_of_mode(alloc, name, bytes, mode, words.as_str())
        }
        Warning::TextGoesOn { rule } => warned_of_text(alloc, name, file, rule, TEXT_GOES_ON),
        Warning::ClassOutside { rule } => warned_of_text(alloc, name, file, rule, CLASS_OUTSIDE),
        Warning::EndPassed { rule } => warned_of_text(alloc, name, file, rule, END_PASSED),
    }
}

/// What the program says of what a file of rules says, but surely doesn't mean (`RuleFile::warnings`): a line for each warning,
/// with the file's name, and the line and the column, both from 1, unless the warning is about the whole file. It is empty if
/// there is no warning. `bytes` are those that the file was read from.
///
/// ```
/// use tokens_lib::{read_rules, warnings_message};
///
/// let bytes = b"D part = /0/\nA = 'a'\n";
/// let file = read_rules(alloc, bytes)?;
/// let message = warnings_message(alloc, "c.rules", bytes, &file)?; // "tokens: c.rules:1:1: warning: no pattern below uses the part {D}\n"
/// ```
///
/// # Errors
///
/// `AllocError` if a request for memory was refused.
pub fn warnings_message(
    alloc: Global,
    name: &str,
    bytes: &[u8],
    file: &RuleFile<'_>,
) -> Result<String, AllocError>
    ensures message { IfOk result (λ message. SaysWarnings Plain name.now
        (lines (without_mark_of bytes.now)) file.now (string_bytes message)) }
{
    let text = without_mark(bytes);
    let warnings = file.warnings(alloc)?;
    let mut message = String::new(alloc);
    for warning in &warnings {
        let line = warning_line(alloc, name, text, file, *warning)?;
        message.push_str(line.as_str())?;
    }
    Ok(message)
}
