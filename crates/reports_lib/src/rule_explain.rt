//! Why a file of rules gives no lexer, in words for people.
ghost use Rattle.std.specs.Prelude.{◌≡◌, ◌+◌, ◌++◌, false, true, map, option_map, string_bytes, IfOk};
ghost use Rattle.bajofeki_rules.specs.Lines.{lines};
ghost use Rattle.lalrpop_rules.specs.ModeSet.{rules_of};
ghost use Rattle.lalrpop_rules.specs.RuleSet.{names_of};
ghost use Rattle.bajofeki_rules.specs.Quoted.{quoted_word};
ghost use Rattle.lalrpop_rule_file.specs.RuleFault.{reason_of};
ghost use Rattle.reports_lib.specs.PieceLines.{mode_named as mode_named_of, name_at};
ghost use Rattle.reports_lib.specs.ShownLine.{numbered};
ghost use Rattle.reports_lib.specs.Reasons.{CanBeSaid, SaysBadLine, SaysRules, clash_advice, clash_text, mode_said, parsed_text as what_is_parsed, place_at, placed, syntax_text, text_at};

use crate::mode_file::ModeFile;
use crate::named_clashes::{mode_named, name_of};
use crate::reasons::{
    bad_end_text, characters_before, clash_advice, place_explained, quoted_word, refusal_text,
    syntax_text,
};
use crate::shown_line::numbered;
use lalrpop_lexer::Position;
use lalrpop_lexer::lexer::re::SyntaxKind;
use lalrpop_rule_file::{LineFault, RuleFileError};
use lalrpop_rules::{ModeRule, RuleText, RulesError};
use std::alloc::{AllocError, Global};

// Where the text of the rule with this index begins.
fn place_of(file: &ModeFile<'_>, rule: usize) -> Position
    ensures { result ≡ place_at file.now.places.items rule }
{
    match file.places.get(rule) {
        Some(place) => *place,
        None => Position { line: 1, column: 1 },
    }
}

// What of a text is parsed: a literal with escapes, or a pattern.
fn parsed_text<'text>(text: &RuleText<'text>) -> &'text str
    ensures { result.now ≡ what_is_parsed text.now }
{
    match text {
        RuleText::Escaped(text) | RuleText::Pattern(text) | RuleText::PatternWith { text, .. } =>
            text,
        RuleText::Literal(_) | RuleText::AnyCase(_) | RuleText::FromTo { .. } => "",
    }
}

// The text of the rule with this index, or the empty string if no rule has it.
fn text_of<'text>(rules: &[ModeRule<'text>], index: usize) -> &'text str
    ensures { result.now ≡ text_at (rules_of rules.now) index }
{
    match rules.get(index) {
        Some(rule) => parsed_text(&rule.rule.text),
        None => "",
    }
}

// Where and why the pattern of a rule doesn't parse: `inside` characters after the place where its text begins.
fn syntax_explained(
    alloc: Global,
    bytes: &[u8],
    place: Position,
    inside: usize,
    kind: SyntaxKind,
) -> Result<String, AllocError>
    ensures said { IfOk result (λ message. string_bytes message
        ≡ placed (lines bytes.now) place.line (place.column + inside) (syntax_text kind)) }
{
    // No file is so long that this overflows.
    let Some(column) = place.column.checked_add(inside) else {
        return Err(AllocError);
    };
    place_explained(alloc, bytes, place.line, column, syntax_text(kind))
}

// What is wrong with the text that begins at the place.
fn text_explained(
    alloc: Global,
    bytes: &[u8],
    place: Position,
    reason: &str,
) -> Result<String, AllocError>
    ensures said { IfOk result (λ message.
        string_bytes message ≡ placed (lines bytes.now) place.line place.column reason.now) }
{
    place_explained(alloc, bytes, place.line, place.column, reason)
}

// In which mode rules clash, if there are several modes.
fn mode_shown(alloc: Global, mode: Option<&str>) -> Result<String, AllocError>
    ensures shown { IfOk result (λ shown.
        string_bytes shown ≡ mode_said (option_map (λ m. m.now) mode.entry)) }
{
    match mode {
        Some(name) => format!(in alloc; " in mode {name}"),
        None => Ok(String::new(alloc)),
    }
}

// Both lines with their numbers, the earlier first.
fn both_lines(
    alloc: Global,
    bytes: &[u8],
    earlier: usize,
    later: usize,
) -> Result<String, AllocError>
    ensures { IfOk result (λ text. string_bytes text
        ≡ numbered (lines bytes.now) earlier ++ numbered (lines bytes.now) later) }
{
    let mut text = numbered(alloc, bytes, earlier)?;
    text.push_str(&numbered(alloc, bytes, later)?)?;
    Ok(text)
}

// The message about a clash: the number of the later line with its rule's name, those of the earlier one, in which mode, the
// word in quotes, and what stands below.
fn clash_told(
    alloc: Global,
    later: (usize, &str),
    earlier: (usize, &str),
    mode: &str,
    word: &str,
    below: (&str, &str),
) -> Result<String, AllocError>
    ensures told { IfOk result (λ message. string_bytes message
        ≡ clash_text later.entry.0 later.entry.1.now earlier.entry.0 earlier.entry.1.now
        mode.now word.now below.entry.0.now below.entry.1.now) }
{
    let (later, later_name) = later;
    let (earlier, earlier_name) = earlier;
    let (lines, advice) = below;
    format!(in alloc;
        "{later}: {later_name} clashes with {earlier_name} of line {earlier}{mode}: both match the word {word}, and neither wins\n\
        {lines}{advice}\n"
    )
}

// What the clash is and how to resolve it: both lines, the mode and the word.
fn clash_explained(
    alloc: Global,
    bytes: &[u8],
    file: &ModeFile<'_>,
    mode: usize,
    rules: (usize, usize),
    word: &[u32],
) -> Result<String, AllocError>
    ensures said { IfOk result (λ message. string_bytes message ≡ clash_text
        (place_at file.now.places.items rules.1).line
        (name_at (names_of (rules_of file.now.rules.items)) rules.1)
        (place_at file.now.places.items rules.0).line
        (name_at (names_of (rules_of file.now.rules.items)) rules.0)
        (mode_said (mode_named_of (map (λ m. m.now) file.now.modes.items) mode))
        (quoted_word word.now)
        (numbered (lines bytes.now) (place_at file.now.places.items rules.0).line
        ++ numbered (lines bytes.now) (place_at file.now.places.items rules.1).line)
        (clash_advice word.now)) }
{
    let (other, rule) = rules;
    let earlier = place_of(file, other).line;
    let later = place_of(file, rule).line;
    let earlier_name = name_of(&file.rules, other);
    let later_name = name_of(&file.rules, rule);
    let advice = clash_advice(word);
    let quoted = quoted_word(alloc, word)?;
    let mode = mode_shown(alloc, mode_named(&file.modes, mode))?;
    let lines = both_lines(alloc, bytes, earlier, later)?;
    clash_told(
        alloc,
        (later, later_name),
        (earlier, earlier_name),
        mode.as_str(),
        quoted.as_str(),
        (lines.as_str(), advice),
    )
}

/// Whether rules of a file can have this error.
pub(crate) fn can_be_said(file: &ModeFile<'_>, error: &RulesError) -> bool
    ensures yes { result ≡ true → CanBeSaid (rules_of file.now.rules.items) error.now }
    ensures no { result ≡ false → ¬ CanBeSaid (rules_of file.now.rules.items) error.now }
{
    match error {
        RulesError::NoSuchMode { .. } => false,
        RulesError::NotParsed { rule, position, .. } => {
            text_of(&file.rules, *rule).is_char_boundary(*position)
        }
        _ => true,
    }
}

/// What is wrong with the rules of a file without its byte order mark, to stand after the file's name: the number of the line,
/// the reason, and the line itself.
///
/// # Errors
///
/// `AllocError` if a request for memory was refused.
pub fn rules_explained(
    alloc: Global,
    bytes: &[u8],
    file: &ModeFile<'_>,
    error: &RulesError,
) -> Result<String, AllocError>
    requires error { CanBeSaid (rules_of file.now.rules.items) error.now }
    ensures said { IfOk result (λ message.
        SaysRules (lines bytes.now) (map (λ m. m.now) file.now.modes.items)
        (rules_of file.now.rules.items) file.now.places.items error.now (string_bytes message)) }
{
    match error {
        // A file names the modes that it has.
        RulesError::NoSuchMode { .. } => unreachable!(),
        RulesError::NotParsed {
            rule,
            position,
            kind,
        } => {
            let inside = characters_before(text_of(&file.rules, *rule), *position);
            syntax_explained(alloc, bytes, place_of(file, *rule), inside, *kind)
        }
        RulesError::BadEnd { rule, error } => {
            text_explained(alloc, bytes, place_of(file, *rule), bad_end_text(*error))
        }
        RulesError::NotCompiled { rule, error } => {
            text_explained(alloc, bytes, place_of(file, *rule), refusal_text(*error))
        }
        RulesError::Clash {
            mode,
            rule,
            other,
            word,
        } => clash_explained(alloc, bytes, file, *mode, (*other, *rule), word),
        RulesError::OutOfMemory => Err(AllocError),
    }
}

// What is wrong with the line at this line and column.
fn fault_explained(
    alloc: Global,
    bytes: &[u8],
    place: (usize, usize),
    fault: LineFault,
) -> Result<String, AllocError>
    ensures said { IfOk result (λ message. string_bytes message
        ≡ placed (lines bytes.now) place.0 place.1 (reason_of fault)) }
{
    let reason = format!(in alloc; "{fault}")?;
    place_explained(alloc, bytes, place.0, place.1, reason.as_str())
}

/// What is wrong with the first bad line of a file of rules without its byte order mark, to stand after the file's name: the
/// line and the column, the reason, and the line itself.
///
/// # Errors
///
/// `AllocError` if a request for memory was refused.
pub fn bad_line_explained(
    alloc: Global,
    bytes: &[u8],
    error: &RuleFileError,
) -> Result<String, AllocError>
    ensures said { IfOk result (λ message.
        SaysBadLine (lines bytes.now) error.now (string_bytes message)) }
{
    match error {
        RuleFileError::BadLine {
            line,
            column,
            fault,
        } => fault_explained(alloc, bytes, (*line, *column), *fault),
        RuleFileError::BadPart { line, column, kind } => {
            let reason = syntax_text(*kind);
            place_explained(alloc, bytes, *line, *column, reason)
        }
        RuleFileError::RepeatedPart { line, column } => {
            place_explained(alloc, bytes, *line, *column, "a part above has this name")
        }
        RuleFileError::NoSuchMode { line, column } => {
            place_explained(alloc, bytes, *line, *column, "no section names this mode")
        }
        RuleFileError::OutOfMemory => Err(AllocError),
    }
}
