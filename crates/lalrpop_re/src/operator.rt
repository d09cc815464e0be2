//! Operators: what follows a piece to repeat it.
ghost use Rattle.std.specs.Prelude.{◌≡◌, ◌<◌, ◌≤◌, ◌^◌, ◌&&◌, nat_lt, length, take, drop, Some, None, true, OnOk, IfOk, if◌then◌else◌};
ghost use Rattle.std.specs.Char.{is_ascii_digit};
ghost use Rattle.std.specs.List.{list_all, prefix_len};
ghost use Rattle.unicode.specs.Binary.{is_white_space};
ghost use Rattle.lalrpop_hir.specs.Counts.{AreOrdered};
ghost use Rattle.lalrpop_re.specs.Operator.{decimal};
ghost use Rattle.lalrpop_re.specs.Internal.Reading.{span, count, braces, bounds, operator, is_at_operator};
ghost use Rattle.lalrpop_re.specs.Internal.Views.{text, unread, Gives};

use crate::cursor::{Cursor, error_at};
use crate::error::{RegexError, SyntaxKind};
use crate::number::number_of;
use crate::opening::after_first;
use crate::part::{Part, begins_part, is_name_in_braces, part_after};
use unicode::properties::is_white_space;

/// How often a piece is repeated, and whether more repetitions are preferred.
#[derive(Clone, Copy)]
pub(crate) struct RepetitionOperator {
    pub(crate) min: u32,
    pub(crate) max: Option<u32>,
    pub(crate) greedy: bool,
}

// How often a piece is repeated.
#[derive(Clone, Copy)]
struct Bounds {
    min: u32,
    max: Option<u32>,
}

/// Whether an operator begins here. Before the name of a part a `{` begins none.
pub(crate) fn is_at_operator(cursor: &Cursor, parts: &[Part]) -> bool
    ensures { result ≡ is_at_operator parts.now (text cursor.now) }
{
    match cursor.peek() {
        Some('?' | '*' | '+') => true,
        Some('{') => part_after(parts, after_first(cursor.rest())).is_none(),
        _ => false,
    }
}

/// Reads an operator where one begins. Where a part seems to be meant, its name is that of none.
pub(crate) fn parse_operator_at(cursor: &mut Cursor) -> Result<RepetitionOperator, RegexError>
    ensures value { Gives (λ o.
        (o.min, o.max, o.greedy, text cursor.new)) result
        (operator cursor.old.flags (text cursor.old)) }
    ensures ordered { IfOk result (λ o. AreOrdered o.min o.max) }
    ensures flags { cursor.new.flags ≡ cursor.old.flags }
    ensures moves { OnOk result (unread cursor.new < unread cursor.old) }
{
    let place = cursor.position();
    let meant = part_refusal(cursor);
    match (parse_operator(cursor), meant) {
        (Err(RegexError::Syntax { .. }), Some(kind)) => Err(error_at(place, kind)),
        (answer, _) => answer,
    }
}

/// What is wrong with a part that is meant here, as the brace before a letter or `_` says, and is none.
pub(crate) fn part_refusal(cursor: &Cursor) -> Option<SyntaxKind> {
    if !cursor.knows_parts() || !cursor.begins(&['{']) {
        return None;
    }
    let text = after_first(cursor.rest());
    if is_name_in_braces(text) {
        return Some(SyntaxKind::PartUnknown);
    }
    begins_part(*text.first()?).then_some(SyntaxKind::PartName)
}

// Reads an operator and the `?` that belongs to it.
#[tactic(auto, unfolding(crate::specs::Internal::Reading::operator))]
fn parse_operator(cursor: &mut Cursor) -> Result<RepetitionOperator, RegexError>
    ensures value { Gives (λ o.
        (o.min, o.max, o.greedy, text cursor.new)) result
        (operator cursor.old.flags (text cursor.old)) }
    ensures ordered { IfOk result (λ o. AreOrdered o.min o.max) }
    ensures flags { cursor.new.flags ≡ cursor.old.flags }
    ensures moves { OnOk result (unread cursor.new < unread cursor.old) }
{
    let Bounds { min, max } = parse_bounds(cursor)?;
    let swap_greed = cursor.flags().swap_greed;
    let turned = cursor.begins(&['?']);
    if turned {
        cursor.advance(1);
    }
    Ok(RepetitionOperator {
        min,
        max,
        greedy: turned == swap_greed,
    })
}

// Reads an operator without the `?` that may follow.
#[tactic(auto, unfolding(crate::specs::Internal::Reading::bounds))]
fn parse_bounds(cursor: &mut Cursor) -> Result<Bounds, RegexError>
    ensures value { Gives (λ b. (b.min, b.max, text cursor.new)) result (bounds (text cursor.old)) }
    ensures ordered { IfOk result (λ b. AreOrdered b.min b.max) }
    ensures flags { cursor.new.flags ≡ cursor.old.flags }
    ensures moves { OnOk result (unread cursor.new < unread cursor.old) }
{
    let bounds = match cursor.peek() {
        Some('?') => Bounds {
            min: 0,
            max: Some(1),
        },
        Some('*') => Bounds { min: 0, max: None },
        Some('+') => Bounds { min: 1, max: None },
        Some('{') => {
            cursor.advance(1);
            return parse_braces(cursor);
        }
        _ => return Err(cursor.error(SyntaxKind::RepetitionMissing)),
    };
    cursor.advance(1);
    Ok(bounds)
}

// Reads what follows a `{`, and the `}`.
#[tactic(auto, unfolding(crate::specs::Internal::Reading::braces))]
fn parse_braces(cursor: &mut Cursor) -> Result<Bounds, RegexError>
    ensures value { Gives (λ b. (b.min, b.max, text cursor.new)) result (braces (text cursor.old)) }
    ensures ordered { IfOk result (λ b. AreOrdered b.min b.max) }
    ensures flags { cursor.new.flags ≡ cursor.old.flags }
    ensures moves { OnOk result (unread cursor.new ≤ unread cursor.old) }
{
    let opening = cursor.position().saturating_sub(1);
    let min = parse_count(cursor)?;
    if cursor.begins(&['}']) {
        cursor.advance(1);
        let max = Some(min);
        return Ok(Bounds { min, max });
    }
    if cursor.begins(&[',', '}']) {
        cursor.advance(2);
        return Ok(Bounds { min, max: None });
    }
    if !cursor.begins(&[',']) {
        return Err(error_at(opening, SyntaxKind::RepetitionCount));
    }
    cursor.advance(1);
    let max = parse_count(cursor)?;
    if !cursor.begins(&['}']) || max < min {
        return Err(error_at(opening, SyntaxKind::RepetitionCount));
    }
    cursor.advance(1);
    let max = Some(max);
    Ok(Bounds { min, max })
}

// Reads a number with white space around it.
#[tactic(auto, unfolding(crate::specs::Internal::Reading::count))]
fn parse_count(cursor: &mut Cursor) -> Result<u32, RegexError>
    ensures value { Gives (λ n. (n, text cursor.new)) result (count (text cursor.old)) }
    ensures flags { cursor.new.flags ≡ cursor.old.flags }
    ensures moves { OnOk result (unread cursor.new ≤ unread cursor.old) }
{
    skip_white_space(cursor);
    let (digits, _) = cursor.rest().split_at(leading_digits(cursor.rest()));
    let Some(count) = decimal_of(digits) else {
        return Err(cursor.error(SyntaxKind::RepetitionCount));
    };
    let length = digits.len();
    cursor.advance(length);
    skip_white_space(cursor);
    Ok(count)
}

// The number that one or more decimal digits write, if it fits.
fn decimal_of(digits: &[char]) -> Option<u32>
    requires { list_all is_ascii_digit digits.now ≡ true }
    ensures { result ≡ (if nat_lt 0 (length digits.now) && nat_lt (decimal digits.now 0)
        (2 ^ 32) then Some (decimal digits.now 0) else None) }
{
    if digits.is_empty() {
        return None;
    }
    number_of(digits, 10)
}

// Skips white space.
fn skip_white_space(cursor: &mut Cursor)
    ensures text { text cursor.new ≡ (span is_white_space (text cursor.old)).1 }
    ensures flags { cursor.new.flags ≡ cursor.old.flags }
    ensures moves { unread cursor.new ≤ unread cursor.old }
{
    let length = leading_white_space(cursor.rest());
    cursor.advance(length);
}

// The number of white space characters at the front of the text.
fn leading_white_space(text: &[char]) -> usize
    ensures value { result ≡ prefix_len is_white_space text.now }
    ensures within { result ≤ length text.now }
{
    text.iter().take_while(|c| is_white_space(**c)).count()
}

// The number of decimal digits at the front of the text.
fn leading_digits(text: &[char]) -> usize
    ensures value { result ≡ prefix_len is_ascii_digit text.now }
    ensures within { result ≤ length text.now }
{
    text.iter().take_while(|c| c.is_ascii_digit()).count()
}
