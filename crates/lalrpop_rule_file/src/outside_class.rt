//! POSIX classes that stand outside of brackets.
ghost use Rattle.std.specs.Prelude.{◌≡◌, ◌≤◌, ◌<◌, ◌+◌, ◌-◌, ◌^◌, ◌↔◌, IsTrue, length};
ghost use Rattle.lalrpop_rule_file.specs.OutsideClass.{BeginsOne, HasClass, HasOutsideClass, after_one, after_opening};
ghost use Rattle.lalrpop_rule_file.specs.Internal.Lines.{names_in};

use crate::word::after_word;
use bajofeki_rules::RuleText;

// The classes, and their complements.
const CLASSES: [&str; 28] = [
    "[:alnum:]",
    "[:alpha:]",
    "[:ascii:]",
    "[:blank:]",
    "[:cntrl:]",
    "[:digit:]",
    "[:graph:]",
    "[:lower:]",
    "[:print:]",
    "[:punct:]",
    "[:space:]",
    "[:upper:]",
    "[:word:]",
    "[:xdigit:]",
    "[:^alnum:]",
    "[:^alpha:]",
    "[:^ascii:]",
    "[:^blank:]",
    "[:^cntrl:]",
    "[:^digit:]",
    "[:^graph:]",
    "[:^lower:]",
    "[:^print:]",
    "[:^punct:]",
    "[:^space:]",
    "[:^upper:]",
    "[:^word:]",
    "[:^xdigit:]",
];

// Whether one of the words is at the front.
fn begins_one(words: &[&str], text: &[u8]) -> bool
    ensures { IsTrue result ↔ BeginsOne (names_in words.now) text.now }
{
    for word in words {
        if after_word(text, word).is_some() {
            return true;
        }
    }
    false
}

// A bracket after its `[`, and after a `]` that doesn't close it.
fn after_opening(text: &[u8]) -> &[u8]
    ensures value { result.now ≡ after_opening text.now }
    ensures shorter { length result.now ≤ length text.now }
{
    match text {
        [b']', rest @ ..] => rest,
        [b'^', b']', rest @ ..] => rest,
        _ => text,
    }
}

// How many brackets are open after this character, or the escape that it begins, and the text from there on.
fn after_one(depth: usize, first: u8, text: &[u8]) -> (usize, &[u8])
    requires few { depth < 2 ^ 64 - 1 }
    ensures value { (result.0, result.1.now) ≡ after_one depth first text.now }
    ensures shorter { length result.1.now ≤ length text.now }
    ensures few { result.0 ≤ depth + 1 }
{
    match (first, text) {
        (b'[', _) => (depth + 1, after_opening(text)),
        (b']', _) => (depth.saturating_sub(1), text),
        (b'\\', [_, rest @ ..]) => (depth, rest),
        _ => (depth, text),
    }
}

// Whether a class stands in the pattern where no bracket is open.
fn has_class(pattern: &[u8]) -> bool
    ensures { IsTrue result ↔ HasClass 0 pattern.now }
{
    let mut depth: usize = 0;
    let mut rest = pattern;
    while let Some((first, text)) = rest.split_first() {
        if depth == 0 && begins_one(&CLASSES, rest) {
            return true;
        }
        (depth, rest) = after_one(depth, *first, text);
    }
    false
}

/// Whether the text of a rule is a pattern with a class outside brackets.
pub(crate) fn has_outside_class(text: &RuleText<'_>) -> bool
    ensures { IsTrue result ↔ HasOutsideClass text.now }
{
    match text {
        RuleText::Pattern(text) => has_class(text.as_bytes()),
        RuleText::PatternWith { text, .. } => has_class(text.as_bytes()),
        RuleText::Literal(_)
        | RuleText::Escaped(_)
        | RuleText::AnyCase(_)
        | RuleText::FromTo { .. } => false,
    }
}
