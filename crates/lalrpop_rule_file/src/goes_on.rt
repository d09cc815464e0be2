//! Texts that go on after they seem to end.
ghost use Rattle.std.specs.Prelude.{◌<◌, ◌⊎◌, ◌↔◌, IsTrue};
ghost use Rattle.lalrpop_rule_file.specs.GoesOn.{EndsInBackslash, GoesOn, IsGoingOn, LooksLikeComment, LooksLikeMore, LooksLikeRule, SeemsToEnd};

use crate::span::{Class, split_front};
use crate::word::{begins_name, behind};
use bajofeki_rules::RuleText;

// Whether a name, blanks and `=` are at the front.
fn looks_like_rule(text: &str) -> bool
    ensures { IsTrue result ↔ LooksLikeRule text.now }
{
    if !begins_name(text) {
        return false;
    }
    let (_, after) = split_front(text, Class::Name);
    let (_, equals) = split_front(after, Class::Blank);
    behind(equals, '=').is_some()
}

// Whether a comment or a rule seems to be at the front.
fn looks_like_line(here: &str) -> bool
    ensures { IsTrue result ↔ (LooksLikeComment here.now ⊎ LooksLikeRule here.now) }
{
    if behind(here, '#').is_some() {
        return true;
    }
    looks_like_rule(here)
}

// Whether one seems to follow one blank or more.
fn looks_like_more(text: &str) -> bool
    ensures { IsTrue result ↔ LooksLikeMore text.now }
{
    let (gap, here) = split_front(text, Class::Blank);
    if gap.is_empty() {
        return false;
    }
    looks_like_line(here)
}

// Whether the last byte is a backslash.
fn ends_in_backslash(text: &str) -> bool
    ensures { IsTrue result ↔ EndsInBackslash text.now }
{
    text.strip_suffix('\\').is_some()
}

// Whether a delimiter is at the front of the rest, and the text seems to end there.
fn seems_to_end(mark: char, front: &str, here: &str) -> bool
    requires { mark < 128 }
    ensures { IsTrue result ↔ SeemsToEnd mark front.now here.now }
{
    if ends_in_backslash(front) {
        return false;
    }
    match behind(here, mark) {
        Some(rest) => looks_like_more(rest),
        None => false,
    }
}

// Whether it seems to end before its end.
fn goes_on(mark: char, text: &str) -> bool
    requires { mark < 128 }
    ensures { IsTrue result ↔ GoesOn mark text.now }
{
    for at in 0..text.len() {
        if text.is_char_boundary(at) && seems_to_end(mark, &text[..at], &text[at..]) {
            return true;
        }
    }
    false
}

/// Whether the text of a rule does.
pub(crate) fn is_going_on(text: &RuleText<'_>) -> bool
    ensures { IsTrue result ↔ IsGoingOn text.now }
{
    match text {
        RuleText::Literal(text) | RuleText::AnyCase(text) => goes_on('\'', text),
        RuleText::Escaped(text) => goes_on('"', text),
        RuleText::Pattern(text) => goes_on('/', text),
        RuleText::PatternWith { text, .. } => goes_on('/', text),
        RuleText::FromTo { to, .. } => goes_on('\'', to),
    }
}
