//! What follows the `(` of a group or of a flag directive.
ghost use Rattle.std.specs.Prelude.{◌≡◌, ◌≤◌, ◌==◌, ℕ, not, drop, OnOk, IfOk, string_bytes, encode_utf8_all};
ghost use Rattle.std.specs.List.{list_any, list_all};
ghost use Rattle.lalrpop_re.specs.Flag.{with_flag, with_flags, is_distinct};
ghost use Rattle.lalrpop_re.specs.GroupName.{begins_name, continues_name, is_name};
ghost use Rattle.lalrpop_re.specs.Text.{Text};
ghost use Rattle.lalrpop_re.specs.Internal.Reading.{span, flags_of, name_at, letters_at, opened, opened_of};
ghost use Rattle.lalrpop_re.specs.Internal.Views.{text, unread, Gives, opened_view};
ghost use Rattle.unicode.specs.GeneralCategory.{general_category};

use crate::cursor::{Cursor, error_at};
use crate::error::{RegexError, SyntaxKind};
use crate::flags::Flags;
use std::alloc::{AllocError, Global};
use unicode::properties::{GeneralCategory, GeneralCategoryGroup, is_alphabetic};

// The letters that switch flags on.
const ON_LETTERS: [char; 5] = ['i', 's', 'm', 'U', 'u'];

// The letters that switch flags off, after a `-`.
const OFF_LETTERS: [char; 4] = ['i', 's', 'm', 'U'];

/// What a `(` begins.
#[derive(Drop)]
pub(crate) enum GroupOpening {
    /// `(`
    Plain,
    /// `(?P<name>` or `(?<name>`
    Named(String),
    /// `(?flags:`, with the flags that hold inside.
    Flagged(Flags),
    /// `(?flags)`, with the flags that hold from there on.
    Directive(Flags),
}

/// Reads what follows a `(`, up to the expression of the group or the end of the directive.
#[tactic(auto, unfolding(crate::specs::Internal::Reading::opened, crate::specs::Internal::Reading::opening))]
pub(crate) fn parse_opening(cursor: &mut Cursor) -> Result<GroupOpening, RegexError>
    ensures value { Gives (λ o.
        (opened_view o, text cursor.new)) result (opened cursor.old.flags (text cursor.old)) }
    ensures flags { cursor.new.flags ≡ cursor.old.flags }
    ensures moves { OnOk result (unread cursor.new ≤ unread cursor.old) }
{
    // where the `(` is
    let open = cursor.position().saturating_sub(1);
    if cursor.begins(&['?', 'P', '<']) {
        cursor.advance(3);
        return parse_name(cursor, open, SyntaxKind::GroupName);
    }
    if cursor.begins(&['?', '<']) {
        let is_look = cursor.begins(&['?', '<', '=']) || cursor.begins(&['?', '<', '!']);
        let kind = if is_look {
            SyntaxKind::UnsupportedLookAround
        } else {
            SyntaxKind::GroupName
        };
        cursor.advance(2);
        return parse_name(cursor, open, kind);
    }
    if cursor.begins(&['?']) {
        cursor.advance(1);
        return parse_letters(cursor, open);
    }
    Ok(GroupOpening::Plain)
}

/// The text up to the first of these marks, and the text from there on. The first part is all of it if there is no mark.
pub(crate) fn split_before<'a>(text: &'a [char], marks: &[char]) -> (&'a [char], &'a [char])
    ensures { (result.0.now, result.1.now)
        ≡ span (λ c. not (list_any (λ d. d == c) marks.now)) text.now }
{
    let length = text
        .iter()
        .position(|c| marks.contains(c))
        .unwrap_or(text.len());
    text.split_at(length)
}

// Reads the name of a group and the `>` after it. A refusal is of this kind and points at the `(`.
#[tactic(auto, unfolding(crate::specs::Internal::Reading::name_at))]
fn parse_name(
    cursor: &mut Cursor,
    open: usize,
    kind: SyntaxKind,
) -> Result<GroupOpening, RegexError>
    ensures value { (t : Text)
        → Gives (λ o.
        (opened_view o, text cursor.new)) result
        (opened_of cursor.old.flags (name_at (text cursor.old)) t) }
    ensures flags { cursor.new.flags ≡ cursor.old.flags }
    ensures moves { OnOk result (unread cursor.new ≤ unread cursor.old) }
{
    let (name, behind) = split_before(cursor.rest(), &['>']);
    if !behind.starts_with(&['>']) || !is_name(name) {
        return Err(error_at(open, kind));
    }
    let length = name.len();
    let name = string_of(cursor.alloc(), name)?;
    cursor.advance(length + 1);
    Ok(GroupOpening::Named(name))
}

fn string_of(alloc: Global, text: &[char]) -> Result<String, AllocError>
    ensures { IfOk result (λ s. string_bytes s ≡ encode_utf8_all text.now) }
{
    text.iter().copied().collect(alloc)
}

fn is_name(name: &[char]) -> bool
    ensures { result ≡ is_name name.now }
{
    match name {
        [] => false,
        [first, others @ ..] => begins_name(*first) && others.iter().all(|c| continues_name(*c)),
    }
}

fn begins_name(c: char) -> bool
    ensures { result ≡ begins_name c }
{
    c == '_' || is_alphabetic(c)
}

fn continues_name(c: char) -> bool
    ensures { result ≡ continues_name c }
{
    begins_name(c)
        || GeneralCategoryGroup::Number.contains(GeneralCategory::for_char(c))
        || c == '.'
        || c == '['
        || c == ']'
}

// Reads the flags of a group and the `:` after them, or those of a directive and its `)`.
#[tactic(auto, unfolding(crate::specs::Internal::Reading::letters_at))]
fn parse_letters(cursor: &mut Cursor, open: usize) -> Result<GroupOpening, RegexError>
    ensures value { (t : Text)
        → Gives (λ o.
        (opened_view o, text cursor.new)) result
        (opened_of cursor.old.flags (letters_at (text cursor.old)) t) }
    ensures flags { cursor.new.flags ≡ cursor.old.flags }
    ensures moves { OnOk result (unread cursor.new ≤ unread cursor.old) }
{
    let (letters, behind) = split_before(cursor.rest(), &[':', ')']);
    let length = letters.len();
    let is_empty = letters.is_empty();
    if let Some(flags) = flags_of(cursor.flags(), letters) {
        if behind.starts_with(&[':']) {
            cursor.advance(length + 1);
            return Ok(GroupOpening::Flagged(flags));
        }
        if behind.starts_with(&[')']) && !is_empty {
            cursor.advance(length + 1);
            return Ok(GroupOpening::Directive(flags));
        }
    }
    Err(letters_refusal(open, letters, behind.is_empty()))
}

// Why no flags follow `(?`. The text may end there.
fn letters_refusal(open: usize, letters: &[char], at_end: bool) -> RegexError
    ensures { (p : ℕ) × (k : SyntaxKind) × (result ≡ RegexError.Syntax p k) }
{
    if let Some('=' | '!') = letters.first() {
        return error_at(open, SyntaxKind::UnsupportedLookAround);
    }
    let unknown = letters
        .iter()
        .position(|c| *c != '-' && !ON_LETTERS.contains(c));
    match unknown {
        Some(at) => error_at(open.saturating_add(2).saturating_add(at), SyntaxKind::Flag),
        None if at_end => error_at(open, SyntaxKind::UnclosedGroup),
        None => error_at(open, SyntaxKind::Flag),
    }
}

// The flags after these letters, if the letters are right.
fn flags_of(flags: Flags, letters: &[char]) -> Option<Flags>
    ensures { result ≡ flags_of flags letters.now }
{
    let (on, behind) = split_before(letters, &['-']);
    let off = after_first(behind);
    let is_hyphen_alone = behind.len() == 1;
    if is_hyphen_alone || !are_among(on, &ON_LETTERS) || !are_among(off, &OFF_LETTERS) {
        return None;
    }
    // tested last, when all letters are valid, so that few can differ
    if !is_distinct(letters) {
        return None;
    }
    Some(with_flags(false, with_flags(true, flags, on), off))
}

/// The text without its first character.
pub(crate) fn after_first(text: &[char]) -> &[char]
    ensures { result.now ≡ drop 1 text.now }
{
    match text {
        [] => text,
        [_, others @ ..] => others,
    }
}

fn are_among(letters: &[char], known: &[char]) -> bool
    ensures { result ≡ list_all (λ c. list_any (λ d. d == c) known.now) letters.now }
{
    letters.iter().all(|c| known.contains(c))
}

// Whether no letter occurs twice. It looks at no more letters than there are different ones.
fn is_distinct(letters: &[char]) -> bool
    ensures { result ≡ is_distinct letters.now }
{
    match letters {
        [] => true,
        [first, others @ ..] => !others.contains(first) && is_distinct(others),
    }
}

fn with_flags(on: bool, flags: Flags, letters: &[char]) -> Flags
    ensures { result ≡ with_flags on flags letters.now }
{
    let mut flags = flags;
    for letter in letters {
        flags = with_flag(on, flags, *letter);
    }
    flags
}

fn with_flag(on: bool, flags: Flags, letter: char) -> Flags
    ensures { result ≡ with_flag on flags letter }
{
    let mut flags = flags;
    match letter {
        'i' => flags.case_insensitive = on,
        's' => flags.dot_matches_new_line = on,
        'm' => flags.multi_line = on,
        'U' => flags.swap_greed = on,
        _ => {}
    }
    flags
}
