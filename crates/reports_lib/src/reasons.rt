//! What is wrong with a pattern, in words for people, and the place in its line.
ghost use Rattle.std.specs.Prelude.{◌≡◌, chars, length, string_bytes, take, IfOk};
ghost use Rattle.std.specs.Str.{IsCharBoundary};
ghost use Rattle.bajofeki_rules.specs.Lines.{lines};
ghost use Rattle.bajofeki_rules.specs.Quoted.{quoted_word};
ghost use Rattle.reports_lib.specs.Reasons.{bad_end_text, clash_advice, placed, refusal_text, syntax_text};

use crate::shown_line::pointed;
use lalrpop_lexer::ShownWord;
use lalrpop_lexer::lexer::nfa::NfaConstructionError;
use lalrpop_lexer::lexer::re::SyntaxKind;
use lalrpop_re::FromToError;
use std::alloc::{AllocError, Global};

/// Why a pattern doesn't parse.
pub(crate) fn syntax_text(kind: SyntaxKind) -> &'static str
    ensures text { result.now ≡ syntax_text kind }
{
    match kind {
        SyntaxKind::UnclosedGroup => "this group isn't closed",
        SyntaxKind::UnopenedGroup => "this `)` closes no group",
        SyntaxKind::UnclosedClass => "this bracket isn't closed",
        SyntaxKind::ClassRangeInvalid => "this range ends before it starts",
        SyntaxKind::ClassRangeLiteral => "a range needs a single character at both ends",
        SyntaxKind::ClassEscapeInvalid => "this escape can't stand in brackets",
        SyntaxKind::EscapeUnexpectedEof => "the pattern ends inside an escape",
        SyntaxKind::EscapeUnrecognized =>
            "this escape is unknown: a character by its number is \\u{0}",
        SyntaxKind::EscapeHex => "this number names no character",
        SyntaxKind::UnicodeSetUnknown => "there is no set of characters by this name",
        SyntaxKind::RepetitionMissing =>
            "there is nothing to repeat before this operator: the character itself has a backslash before it",
        SyntaxKind::RepetitionCount =>
            "this count is malformed, too great or out of order: a count is {2}, {2,} or {0,2}, a part {NAME}, and a brace itself \\{",
        SyntaxKind::Flag => "this flag is unknown, missing or written twice",
        SyntaxKind::GroupName => "this group name is malformed, missing or taken",
        SyntaxKind::UnsupportedLookAround => "patterns have no look-around",
        SyntaxKind::UnsupportedBackreference => "patterns have no references to groups",
        SyntaxKind::NestLimitExceeded => "groups, brackets and repetitions nest too deeply",
        SyntaxKind::PartUnknown =>
            "no part above has this name: a part is a line NAME part = /PATTERN/ above this one, and a rule isn't a part",
        SyntaxKind::PartUnderFlag => "a part stands only where no flag is on",
        SyntaxKind::PartName =>
            "this name of a part is malformed, or its brace isn't closed: a part is {NAME}, and a brace itself \\{",
    }
}

/// Why a pattern can't be compiled.
pub(crate) fn refusal_text(error: NfaConstructionError) -> &'static str
    ensures text { result.now ≡ refusal_text error }
{
    match error {
        NfaConstructionError::NamedCaptures => "a lexer can't have named groups: write `(?:..)`",
        NfaConstructionError::NonGreedy =>
            "a lexer can't have lazy repetitions: write `[^x]*x` for `.*?x`, and `/\\*([^*]|\\*+[^*/])*\\*+/` for `/\\*.*?\\*/`",
        NfaConstructionError::LookAround =>
            "a lexer can't have look-around, so no `^`, `$` or `\\b`: a match begins where the last one ended",
        NfaConstructionError::ByteRegex => "a lexer can't have patterns of bytes",
        NfaConstructionError::OutOfMemory => "out of memory",
    }
}

/// The number of characters of the text before this byte.
pub(crate) fn characters_before(text: &str, byte: usize) -> usize
    requires boundary { IsCharBoundary text.now byte }
    ensures count { result ≡ length (chars (take byte text.now)) }
{
    text[..byte].chars().count()
}

/// How to resolve a clash on this word.
pub(crate) fn clash_advice(word: &[u32]) -> &'static str
    ensures text { result.now ≡ clash_advice word.now }
{
    if word.is_empty() {
        "No token is empty: let them match one character or more, as by `+` in place of `*`."
    } else {
        "Give the one that should win a greater precedence."
    }
}

/// The place and the reason, and the line with a caret under the place. Lines and columns count from 1, columns in characters.
/// Of a long line only what surrounds the place is shown. The file's name stands before it.
///
/// # Errors
///
/// `AllocError` if a request for memory was refused.
pub(crate) fn place_explained(
    alloc: Global,
    bytes: &[u8],
    number: usize,
    column: usize,
    reason: &str,
) -> Result<String, AllocError>
    ensures placed { IfOk result (λ message.
        string_bytes message ≡ placed (lines bytes.now) number column reason.now) }
{
    let below = pointed(alloc, bytes, number, column)?;
    format!(in alloc; "{number}:{column}: {reason}\n{below}")
}

/// Why the end of a text from one word to another is wrong.
pub(crate) fn bad_end_text(error: FromToError) -> &'static str
    ensures text { result.now ≡ bad_end_text error }
{
    match error {
        FromToError::EmptyEnd => "nothing stands between the apostrophes after `to`",
        FromToError::LongEnd => "the text after `to` has more than 64 characters",
        FromToError::OutOfMemory => "out of memory",
    }
}

/// The word in quotes.
///
/// # Errors
///
/// `AllocError` if a request for memory was refused.
pub(crate) fn quoted_word(alloc: Global, word: &[u32]) -> Result<String, AllocError>
    ensures quoted { IfOk result (λ text. string_bytes text ≡ quoted_word word.now) }
{
    format!(in alloc; "{}", ShownWord(word))
}
