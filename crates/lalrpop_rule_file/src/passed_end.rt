//! Patterns that pass their end.
ghost use Rattle.std.specs.Prelude.{◌≡◌, ◌<◌, ◌↔◌, ℕ, List, Contains, IfSome, IfNone, IsTrue, length};
ghost use Rattle.lalrpop_re.specs.Escape.{is_mark};
ghost use Rattle.lalrpop_re.specs.Pattern.{is_special};
ghost use Rattle.lalrpop_rule_file.specs.PassedEnd.{ArePlain, HasPassedEnd, IsBetweenPlain, IsWordThenPlain, PassesEnd, after_plain};
ghost use Rattle.lalrpop_rule_file.specs.Internal.Lines.{names_in};

use crate::word::after_word;
use bajofeki_rules::RuleText;

// Repetitions of any character.
const WILDS: [&str; 12] = [
    ".*",
    ".+",
    "(?s:.)*",
    "(?s:.)+",
    "(?s:.*)",
    "(?s:.+)",
    "(.|\\n)*",
    "(.|\\n)+",
    "(?:.|\\n)*",
    "(?:.|\\n)+",
    "[\\s\\S]*",
    "[\\s\\S]+",
];

// Whether the character doesn't stand for itself.
fn is_special(byte: u8) -> bool
    ensures { result ≡ is_special byte }
{
    matches!(
        byte,
        b'\\' | b'.' | b'+' | b'*' | b'?' | b'(' | b')' | b'|' | b'[' | b'{' | b'^' | b'$'
    )
}

// Whether it does after a backslash.
fn is_mark(byte: u8) -> bool
    ensures { result ≡ is_mark byte }
{
    byte.is_ascii() && !byte.is_ascii_alphanumeric() && byte != b'<' && byte != b'>'
}

// What follows the plain character at the front.
fn after_one(text: &[u8]) -> Option<&[u8]>
    ensures shorter { IfSome result (λ rest. length rest.now < length text.now) }
    ensures some { IfSome result (λ rest. after_plain text.now ≡ after_plain rest.now) }
    ensures none { IfNone result (after_plain text.now ≡ text.now) }
{
    let (first, rest) = text.split_first()?;
    if !is_special(*first) {
        return Some(rest);
    }
    let (second, behind) = rest.split_first()?;
    if *first == b'\\' && is_mark(*second) {
        return Some(behind);
    }
    None
}

// What follows the plain characters at the front.
fn after_plain(text: &[u8]) -> &[u8]
    ensures { result.now ≡ after_plain text.now }
{
    let mut rest = text;
    while let Some(next) = after_one(rest) {
        rest = next;
    }
    rest
}

// Whether there is a character, and all are plain.
fn are_plain(text: &[u8]) -> bool
    ensures { IsTrue result ↔ ArePlain text.now }
{
    if text.is_empty() {
        return false;
    }
    after_plain(text).is_empty()
}

// Whether the text is this word and plain characters after it.
fn is_word_then_plain(word: &str, text: &[u8]) -> bool
    ensures { IsTrue result ↔ IsWordThenPlain text.now word.now }
{
    match after_word(text, word) {
        Some(rest) => are_plain(rest),
        None => false,
    }
}

// Whether it is one of these words and plain characters after it.
fn is_one_then_plain(words: &[&str], text: &[u8]) -> bool
    ensures { IsTrue result ↔ ((word : List ℕ) × (Contains (names_in words.now) word
        × IsWordThenPlain text.now word)) }
{
    for word in words {
        if is_word_then_plain(word, text) {
            return true;
        }
    }
    false
}

// Whether such a repetition stands between plain characters.
fn is_between_plain(pattern: &[u8]) -> bool
    ensures { IsTrue result ↔ IsBetweenPlain pattern.now }
{
    let here = after_plain(pattern);
    if here == pattern {
        return false;
    }
    is_one_then_plain(&WILDS, here)
}

// Whether the pattern passes its end.
fn passes_end(pattern: &str) -> bool
    ensures { IsTrue result ↔ PassesEnd pattern.now }
{
    if is_between_plain(pattern.as_bytes()) {
        return true;
    }
    match pattern.strip_prefix("(?s)") {
        Some(rest) => is_between_plain(rest.as_bytes()),
        None => false,
    }
}

/// Whether the text of a rule is a pattern that does.
pub(crate) fn has_passed_end(text: &RuleText<'_>) -> bool
    ensures { IsTrue result ↔ HasPassedEnd text.now }
{
    match text {
        RuleText::Pattern(text) => passes_end(text),
        RuleText::PatternWith { text, .. } => passes_end(text),
        RuleText::Literal(_)
        | RuleText::Escaped(_)
        | RuleText::AnyCase(_)
        | RuleText::FromTo { .. } => false,
    }
}
