//! Escapes: what follows a backslash.
ghost use Rattle.std.specs.Prelude.{◌≡◌, ◌<◌, ◌≤◌, ◌&&◌, length, drop, Some, None, OnOk, IfOk, IfSome, MatchOption};
ghost use Rattle.std.specs.Char.{is_ascii_hexdigit};
ghost use Rattle.std.specs.List.{list_all, prefix_len};
ghost use Rattle.lalrpop_re.specs.Escape.{character, assertion, sign, is_mark, is_set_name_char, code, property, edge};
ghost use Rattle.lalrpop_re.specs.Internal.Reading.{hex, digits_of, name_of, signed, escape};
ghost use Rattle.lalrpop_re.specs.Internal.Signs.{HasDigits, perl_set, sign_view};
ghost use Rattle.lalrpop_re.specs.Internal.Views.{text, unread, Gives, Finds, StandsForEscaped};
ghost use Rattle.lalrpop_re.specs.CharacterSet.{HasRuns};

use crate::cursor::{Cursor, error_at};
use crate::error::{RegexError, SyntaxKind};
use crate::named::named_set;
use crate::number::number_of;
use lalrpop_hir::{ClassUnicode, Look};
use std::alloc::{AllocError, Global};

/// What an escape stands for.
#[derive(Drop)]
pub(crate) enum EscapedPart {
    Character(char),
    /// The characters before folding, and whether their complement is meant.
    Set { class: ClassUnicode, negated: bool },
    Assertion(Look),
}

// What the character after the backslash says of the escape.
#[derive(Clone, Copy)]
enum EscapeSign {
    Character(char),
    Perl { class: PerlClass, negated: bool },
    Assertion(Look),
    /// This many hexadecimal digits follow, or one or more in braces.
    Code(usize),
    /// The name of a set follows.
    Property { negated: bool },
    /// `\b`, which may continue in braces.
    Edge,
    Unknown(SyntaxKind),
}

// The sets of `\d`, `\s` and `\w`.
#[derive(Clone, Copy)]
enum PerlClass {
    Digits,
    Spaces,
    Words,
}

// Characters, and their number with the braces around them.
#[derive(Clone, Copy)]
struct Argument<'a> {
    inner: &'a [char],
    width: usize,
}

/// Reads an escape after its backslash.
pub(crate) fn parse_escape(cursor: &mut Cursor) -> Result<EscapedPart, RegexError>
    ensures value { Finds (λ e x. StandsForEscaped e x.0
        × (text cursor.new ≡ x.1)) result (escape (text cursor.old)) }
    ensures flags { cursor.new.flags ≡ cursor.old.flags }
    ensures moves { OnOk result (unread cursor.new < unread cursor.old) }
{
    let Some(c) = cursor.peek() else {
        let backslash = cursor.position().saturating_sub(1);
        return Err(error_at(backslash, SyntaxKind::EscapeUnexpectedEof));
    };
    cursor.advance(1);
    parse_signed(cursor, sign_of(c))
}

// Reads what follows the first character of an escape, whose sign is `sign`.
#[tactic(auto, unfolding(crate::specs::Internal::Reading::signed))]
fn parse_signed(cursor: &mut Cursor, sign: EscapeSign) -> Result<EscapedPart, RegexError>
    requires { HasDigits sign }
    ensures value { Finds (λ e x. StandsForEscaped e x.0
        × (text cursor.new ≡ x.1)) result (signed (sign_view sign) (text cursor.old)) }
    ensures flags { cursor.new.flags ≡ cursor.old.flags }
    ensures moves { OnOk result (unread cursor.new ≤ unread cursor.old) }
{
    match sign {
        EscapeSign::Character(c) => Ok(EscapedPart::Character(c)),
        EscapeSign::Perl { class, negated } => {
            let class = perl_class(cursor.alloc(), class)?;
            Ok(EscapedPart::Set { class, negated })
        }
        EscapeSign::Assertion(look) => Ok(EscapedPart::Assertion(look)),
        EscapeSign::Code(count) => Ok(EscapedPart::Character(parse_code(cursor, count)?)),
        EscapeSign::Property { negated } => parse_property(cursor, negated),
        EscapeSign::Edge => Ok(EscapedPart::Assertion(parse_edge(cursor))),
        EscapeSign::Unknown(kind) => {
            let backslash = cursor.position().saturating_sub(2);
            Err(error_at(backslash, kind))
        }
    }
}

// What a character after a backslash says of the escape.
#[tactic(auto, unfolding(crate::specs::Escape::sign))]
fn sign_of(c: char) -> EscapeSign
    ensures value { sign_view result ≡ sign c }
    ensures digits { HasDigits result }
{
    match c {
        'a' => EscapeSign::Character('\u{7}'),
        'f' => EscapeSign::Character('\u{C}'),
        't' => EscapeSign::Character('\t'),
        'n' => EscapeSign::Character('\n'),
        'r' => EscapeSign::Character('\r'),
        'v' => EscapeSign::Character('\u{B}'),
        'd' | 'D' => perl(PerlClass::Digits, c == 'D'),
        's' | 'S' => perl(PerlClass::Spaces, c == 'S'),
        'w' | 'W' => perl(PerlClass::Words, c == 'W'),
        'A' => EscapeSign::Assertion(Look::Start),
        'z' => EscapeSign::Assertion(Look::End),
        'B' => EscapeSign::Assertion(Look::WordUnicodeNegate),
        '<' => EscapeSign::Assertion(Look::WordStartUnicode),
        '>' => EscapeSign::Assertion(Look::WordEndUnicode),
        'x' => EscapeSign::Code(2),
        'u' => EscapeSign::Code(4),
        'U' => EscapeSign::Code(8),
        'p' | 'P' => EscapeSign::Property { negated: c == 'P' },
        'b' => EscapeSign::Edge,
        _ if is_mark(c) => EscapeSign::Character(c),
        '0'..='9' => EscapeSign::Unknown(SyntaxKind::UnsupportedBackreference),
        _ => EscapeSign::Unknown(SyntaxKind::EscapeUnrecognized),
    }
}

fn perl(class: PerlClass, negated: bool) -> EscapeSign
    ensures { result ≡ EscapeSign.Perl class negated }
{
    EscapeSign::Perl { class, negated }
}

// Whether the character stands for itself after a backslash.
fn is_mark(c: char) -> bool
    ensures { result ≡ is_mark c }
{
    c.is_ascii() && !c.is_ascii_alphanumeric() && c != '<' && c != '>'
}

fn perl_class(alloc: Global, class: PerlClass) -> Result<ClassUnicode, AllocError>
    ensures { IfOk result (λ r. HasRuns r (perl_set class)) }
{
    match class {
        PerlClass::Digits => crate::named::digits(alloc),
        PerlClass::Spaces => crate::named::spaces(alloc),
        PerlClass::Words => crate::named::words(alloc),
    }
}

// Reads the digits of a code: `count` digits, or any number in braces.
#[tactic(auto, unfolding(crate::specs::Internal::Reading::signed))]
fn parse_code(cursor: &mut Cursor, count: usize) -> Result<char, RegexError>
    requires { 0 < count }
    ensures value { Gives (λ c.
        (character c, text cursor.new)) result (signed (code count) (text cursor.old)) }
    ensures flags { cursor.new.flags ≡ cursor.old.flags }
    ensures moves { OnOk result (unread cursor.new ≤ unread cursor.old) }
{
    let Some(digits) = digits_at(cursor.rest(), count) else {
        return Err(cursor.error(argument_kind(cursor, SyntaxKind::EscapeHex)));
    };
    let Some(c) = character_of(digits.inner) else {
        return Err(cursor.error(SyntaxKind::EscapeHex));
    };
    let width = digits.width;
    cursor.advance(width);
    Ok(c)
}

// The given kind, unless the text ends here.
fn argument_kind(cursor: &Cursor, kind: SyntaxKind) -> SyntaxKind {
    if cursor.rest().is_empty() {
        SyntaxKind::EscapeUnexpectedEof
    } else {
        kind
    }
}

// The digits of a code at the front of the text, if there are that many, or one or more in braces.
#[tactic(auto, unfolding(crate::specs::Internal::Reading::digits_of))]
fn digits_at(text: &[char], count: usize) -> Option<Argument<'_>>
    requires { 0 < count }
    ensures value { MatchOption result (digits_of count text.now ≡ None) (λ d.
        digits_of count text.now ≡ Some (d.inner.now, drop d.width text.now)) }
    ensures within { IfSome result (λ d. d.width ≤ length text.now) }
{
    if !text.starts_with(&['{']) {
        let inner = text.get(..count)?;
        return Some(Argument {
            inner,
            width: count,
        });
    }
    let (_, inside) = text.split_at(1);
    let (inner, after) = inside.split_at(leading_hex_digits(inside));
    if inner.is_empty() || !after.starts_with(&['}']) {
        return None;
    }
    Some(Argument {
        inner,
        width: inner.len() + 2,
    })
}

// The character of a code.
#[tactic(auto, unfolding(crate::specs::Internal::Reading::hex))]
fn character_of(digits: &[char]) -> Option<char>
    ensures { result ≡ hex digits.now }
{
    char::from_u32(number_of(digits, 16)?)
}

// Reads the name of a set: a single character, or any number in braces.
#[tactic(auto, unfolding(crate::specs::Internal::Reading::signed, crate::specs::Internal::Reading::set_named))]
fn parse_property(cursor: &mut Cursor, negated: bool) -> Result<EscapedPart, RegexError>
    ensures value { Finds (λ e x. StandsForEscaped e x.0
        × (text cursor.new ≡ x.1)) result (signed (property negated) (text cursor.old)) }
    ensures flags { cursor.new.flags ≡ cursor.old.flags }
    ensures moves { OnOk result (unread cursor.new ≤ unread cursor.old) }
{
    let Some(name) = name_at(cursor.rest()) else {
        return Err(cursor.error(argument_kind(cursor, SyntaxKind::UnicodeSetUnknown)));
    };
    if name.inner.is_empty() || !is_spelled_like_set(name.inner) {
        return Err(cursor.error(SyntaxKind::UnicodeSetUnknown));
    }
    let Some(class) = named_set(cursor.alloc(), name.inner)? else {
        return Err(cursor.error(SyntaxKind::UnicodeSetUnknown));
    };
    let width = name.width;
    cursor.advance(width);
    Ok(EscapedPart::Set { class, negated })
}

// The name of a set at the front of the text.
#[tactic(auto, unfolding(crate::specs::Internal::Reading::name_of))]
fn name_at(text: &[char]) -> Option<Argument<'_>>
    ensures value { MatchOption result (name_of text.now ≡ None) (λ n.
        name_of text.now ≡ Some (n.inner.now, drop n.width text.now)) }
    ensures within { IfSome result (λ n. n.width ≤ length text.now) }
{
    if !text.starts_with(&['{']) {
        let inner = text.get(..1)?;
        return Some(Argument { inner, width: 1 });
    }
    let (_, inside) = text.split_at(1);
    let (inner, after) = inside.split_at(leading_name(inside));
    if !after.starts_with(&['}']) {
        return None;
    }
    Some(Argument {
        inner,
        width: inner.len() + 2,
    })
}

// Whether all the characters may occur in the name of a set.
fn is_spelled_like_set(name: &[char]) -> bool
    ensures { result ≡ list_all is_set_name_char name.now }
{
    name.iter().all(|c| is_set_name_char(*c))
}

fn is_set_name_char(c: char) -> bool
    ensures { result ≡ is_set_name_char c }
{
    c.is_ascii_alphanumeric() || matches!(c, '_' | '-' | ' ')
}

// Reads the braces that may follow `\b`.
#[tactic(auto, unfolding(crate::specs::Internal::Reading::signed))]
fn parse_edge(cursor: &mut Cursor) -> Look
    ensures value { signed edge (text cursor.old) ≡ Some (assertion result, text cursor.new) }
    ensures flags { cursor.new.flags ≡ cursor.old.flags }
    ensures moves { unread cursor.new ≤ unread cursor.old }
{
    let (look, width) = edge_at(cursor);
    cursor.advance(width);
    look
}

#[tactic(auto, unfolding(crate::specs::Internal::Reading::signed))]
fn edge_at(cursor: &Cursor) -> (Look, usize)
    ensures value { signed edge (text cursor.now)
        ≡ Some (assertion result.0, drop result.1 (text cursor.now)) }
    ensures within { result.1 ≤ unread cursor.now }
{
    if cursor.begins(&['{', 's', 't', 'a', 'r', 't', '}']) {
        (Look::WordStartUnicode, 7)
    } else if cursor.begins(&['{', 'e', 'n', 'd', '}']) {
        (Look::WordEndUnicode, 5)
    } else if cursor.begins(&['{', 's', 't', 'a', 'r', 't', '-', 'h', 'a', 'l', 'f', '}']) {
        (Look::WordStartHalfUnicode, 12)
    } else if cursor.begins(&['{', 'e', 'n', 'd', '-', 'h', 'a', 'l', 'f', '}']) {
        (Look::WordEndHalfUnicode, 10)
    } else {
        (Look::WordUnicode, 0)
    }
}

// The number of hexadecimal digits at the front of the text.
fn leading_hex_digits(text: &[char]) -> usize
    ensures value { result ≡ prefix_len is_ascii_hexdigit text.now }
    ensures within { result ≤ length text.now }
{
    text.iter().take_while(|c| c.is_ascii_hexdigit()).count()
}

// The number of characters of a set's name at the front of the text.
fn leading_name(text: &[char]) -> usize
    ensures value { result ≡ prefix_len is_set_name_char text.now }
    ensures within { result ≤ length text.now }
{
    text.iter().take_while(|c| is_set_name_char(**c)).count()
}
