//! Brackets: sets of characters between `[` and `]`.
ghost use Rattle.std.specs.Prelude.{◌≡◌, ◌+◌, ◌-◌, ◌^◌, ◌<◌, ◌≤◌, IsTrue, IsFalse, IfSome, IfOk, OnOk, MatchOption, length, drop, Some, None, option_map, option_to_list};
ghost use Rattle.std.specs.List.{prefix_len};
ghost use Rattle.std.specs.Char.{is_ascii_lowercase};
ghost use Rattle.lalrpop_re.specs.Text.{begins};
ghost use Rattle.lalrpop_re.specs.CharacterSet.{Set, just, range, complement, union_all, HasRuns};
ghost use Rattle.lalrpop_re.specs.Escape.{Escaped};
ghost use Rattle.lalrpop_re.specs.Bracket.{leaf, leaves, leaf_or_complement, apply, ends_operand, begins_range};
ghost use Rattle.lalrpop_re.specs.Internal.Reading.{span, posix_named, posix, primary, operator_of, past_hyphens, lead, range_of, stands, simple_item, item, whole_operand, all_operations, operands, bracket_with, bracket};
ghost use Rattle.lalrpop_re.specs.Internal.Views.{text, unread, Finds, HasMembers, StandsForEscaped, operator_view};
ghost use Rattle.lalrpop_re.specs.Internal.Items.{Gains};

use crate::cursor::{Cursor, error_at};
use crate::error::{RegexError, SyntaxKind};
use crate::escape_sequence::{EscapedPart, parse_escape};
use crate::flags::Flags;
use crate::posix::posix_class;
use crate::sets::{leaf_of_range, leaf_of_set};
use lalrpop_hir::{ClassUnicode, ClassUnicodeRange};
use std::alloc::{AllocError, Global};
use std::mem;

/// The set that a bracket spells, and how deep its syntax is nested.
#[derive(Drop)]
pub(crate) struct BracketSet {
    pub(crate) class: ClassUnicode,
    pub(crate) depth: u32,
}

/// An operator between the operands of a bracket.
#[derive(Clone, Copy)]
pub(crate) enum BracketOperator {
    /// `&&`
    Intersection,
    /// `--`
    Difference,
    /// `~~`
    SymmetricDifference,
}

/// Reads a bracket, from its `[` to its `]`, with `levels_left` levels left.
#[cycle(bracket)]
pub(crate) fn parse_bracket(cursor: &mut Cursor, levels_left: u32) -> Result<BracketSet, RegexError>
    ensures value { Finds (λ b x. HasRuns b.class x.set × (b.depth ≡ x.depth)
        × (text cursor.new ≡ x.rest)) result (bracket cursor.old.flags levels_left (text cursor.old)) }
    ensures flags { cursor.new.flags ≡ cursor.old.flags }
    ensures moves { OnOk result (unread cursor.new < unread cursor.old) }
    ensures deep { IfOk result (λ b. b.depth ≤ levels_left) }
{
    if levels_left == 0 {
        return Err(cursor.error(SyntaxKind::NestLimitExceeded));
    }
    parse_enclosed(cursor, levels_left - 1)
}

// Reads a bracket inside which `levels_left` levels are left.
#[cycle(bracket)]
#[tactic(auto, unfolding(crate::specs::Internal::Reading::bracket_with))]
fn parse_enclosed(cursor: &mut Cursor, levels_left: u32) -> Result<BracketSet, RegexError>
    requires { levels_left < 2 ^ 32 - 1 }
    ensures value { Finds (λ b x. HasRuns b.class x.set × (b.depth ≡ x.depth)
        × (text cursor.new
        ≡ x.rest)) result
        (bracket_with cursor.old.flags (bracket cursor.old.flags levels_left) (text cursor.old)) }
    ensures flags { cursor.new.flags ≡ cursor.old.flags }
    ensures moves { OnOk result (unread cursor.new < unread cursor.old) }
    ensures deep { IfOk result (λ b. b.depth ≤ levels_left + 1) }
{
    let opened = cursor.position();
    if cursor.begins(&['[', '^']) {
        cursor.advance(2);
        let BracketSet { class, depth } = parse_operands(cursor, levels_left, opened)?;
        cursor.advance(1);
        let class = complemented(cursor.alloc(), &class)?;
        return Ok(BracketSet {
            class,
            depth: depth + 1,
        });
    }
    if !cursor.begins(&['[']) {
        return Err(cursor.error(SyntaxKind::UnclosedClass));
    }
    cursor.advance(1);
    let BracketSet { class, depth } = parse_operands(cursor, levels_left, opened)?;
    cursor.advance(1);
    Ok(BracketSet {
        class,
        depth: depth + 1,
    })
}

// The complement of the class.
fn complemented(alloc: Global, class: &ClassUnicode) -> Result<ClassUnicode, AllocError>
    ensures { IfOk result (λ r. (s : Set) → HasRuns class.now s → HasRuns r (complement s)) }
{
    class.complement(alloc)
}

// Reads the operands of the bracket that opened at a position, up to its `]`.
#[cycle(bracket)]
#[tactic(auto, unfolding(crate::specs::Internal::Reading::operands))]
fn parse_operands(
    cursor: &mut Cursor,
    levels_left: u32,
    opened: usize,
) -> Result<BracketSet, RegexError>
    ensures value { Finds (λ b x. HasRuns b.class x.set × (b.depth ≡ x.depth)
        × (text cursor.new
        ≡ x.rest)) result
        (operands cursor.old.flags (bracket cursor.old.flags levels_left) (text cursor.old)) }
    ensures flags { cursor.new.flags ≡ cursor.old.flags }
    ensures moves { OnOk result (unread cursor.new ≤ unread cursor.old) }
    ensures deep { IfOk result (λ b. b.depth ≤ levels_left) }
    ensures closed { OnOk result (IsTrue (begins "]" (text cursor.new))) }
{
    let lead = parse_lead(cursor);
    let left = parse_operand(cursor, levels_left, opened, lead)?;
    parse_operations(cursor, levels_left, opened, left)
}

// Reads the operators and operands that follow an operand, up to the `]`.
#[cycle(bracket)]
fn parse_operations(
    cursor: &mut Cursor,
    levels_left: u32,
    opened: usize,
    left: BracketSet,
) -> Result<BracketSet, RegexError>
    requires { left.depth ≤ levels_left }
    ensures value { (s : Set) → HasRuns left.class s
        → Finds (λ b x. HasRuns b.class x.set × (b.depth ≡ x.depth)
        × (text cursor.new
        ≡ x.rest)) result
        (all_operations cursor.old.flags (bracket cursor.old.flags levels_left)
        (record { set = s; depth = left.depth; rest = text cursor.old })) }
    ensures flags { cursor.new.flags ≡ cursor.old.flags }
    ensures moves { OnOk result (unread cursor.new ≤ unread cursor.old) }
    ensures deep { IfOk result (λ b. b.depth ≤ levels_left) }
    ensures closed { OnOk result (IsTrue (begins "]" (text cursor.new))) }
{
    let BracketSet {
        mut class,
        mut depth,
    } = left;
    while !cursor.begins(&[']']) {
        let Some(operator) = set_operator_at(cursor) else {
            return Err(error_at(opened, SyntaxKind::UnclosedClass));
        };
        cursor.advance(2);
        let right = parse_operand(cursor, levels_left, opened, None)?;
        class = applied(cursor.alloc(), operator, &class, &right.class)?;
        depth = depth.max(right.depth);
    }
    Ok(BracketSet { class, depth })
}

// The operator applied to the left and the right set.
fn applied(
    alloc: Global,
    operator: BracketOperator,
    left: &ClassUnicode,
    right: &ClassUnicode,
) -> Result<ClassUnicode, AllocError>
    ensures { IfOk result (λ r. (s t : Set) → HasRuns left.now s → HasRuns right.now t
        → HasRuns r (apply (operator_view operator) s t)) }
{
    match operator {
        BracketOperator::Intersection => left.intersection(alloc, right),
        BracketOperator::Difference => left.difference(alloc, right),
        BracketOperator::SymmetricDifference => left.symmetric_difference(alloc, right),
    }
}

// The operator that follows, if any.
#[tactic(auto, unfolding(crate::specs::Internal::Reading::operator_of))]
fn set_operator_at(cursor: &Cursor) -> Option<BracketOperator>
    ensures { option_map operator_view result ≡ operator_of (text cursor.now) }
{
    if cursor.begins(&['&', '&']) {
        return Some(BracketOperator::Intersection);
    }
    if cursor.begins(&['-', '-']) {
        return Some(BracketOperator::Difference);
    }
    if cursor.begins(&['~', '~']) {
        return Some(BracketOperator::SymmetricDifference);
    }
    None
}

// Reads the hyphens or the `]` at the start of the first operand, and returns the character that they stand for.
#[tactic(auto, unfolding(crate::specs::Internal::Reading::lead))]
fn parse_lead(cursor: &mut Cursor) -> Option<char>
    ensures value { lead (text cursor.old) ≡ (option_to_list result, text cursor.new) }
    ensures flags { cursor.new.flags ≡ cursor.old.flags }
    ensures moves { unread cursor.new ≤ unread cursor.old }
{
    if cursor.begins(&['-']) {
        pass_hyphens(cursor);
        return Some('-');
    }
    if cursor.begins(&[']']) {
        cursor.advance(1);
        return Some(']');
    }
    None
}

// Skips the hyphens that follow.
fn pass_hyphens(cursor: &mut Cursor)
    ensures text { text cursor.new ≡ past_hyphens (text cursor.old) }
    ensures flags { cursor.new.flags ≡ cursor.old.flags }
    ensures moves { unread cursor.new ≤ unread cursor.old }
{
    while cursor.begins(&['-']) {
        cursor.advance(1);
    }
}

// Reads the items of an operand, after its lead.
#[cycle(bracket)]
fn parse_operand(
    cursor: &mut Cursor,
    levels_left: u32,
    opened: usize,
    lead: Option<char>,
) -> Result<BracketSet, RegexError>
    ensures value { Finds (λ b x. HasRuns b.class (union_all x.sets) × (b.depth ≡ x.depth)
        × (text cursor.new
        ≡ x.rest)) result
        (whole_operand cursor.old.flags (bracket cursor.old.flags levels_left)
        (record {
          sets = leaves cursor.old.flags
              (option_to_list lead);
          depth = 0;
          rest = text cursor.old;
        })) }
    ensures flags { cursor.new.flags ≡ cursor.old.flags }
    ensures moves { OnOk result (unread cursor.new ≤ unread cursor.old) }
    ensures deep { IfOk result (λ b. b.depth ≤ levels_left) }
{
    let mut ranges = lead_ranges(cursor.alloc(), cursor.flags(), lead)?;
    let mut joined = 0;
    let mut depth = 0;
    while !ends_operand(cursor) {
        if cursor.rest().is_empty() {
            return Err(error_at(opened, SyntaxKind::UnclosedClass));
        }
        let item_depth = parse_item(cursor, levels_left, &mut ranges)?;
        depth = depth.max(item_depth);
        joined = join_doubled(&mut ranges, joined)?;
    }
    let class = ClassUnicode::new(cursor.alloc(), ranges)?;
    Ok(BracketSet { class, depth })
}

// Joins the ranges once their number has more than doubled since the last join, and returns their number after the last
// join. So items that overlap take at most about twice the memory of their union.
fn join_doubled(ranges: &mut Vec<ClassUnicodeRange>, joined: usize) -> Result<usize, AllocError>
    ensures { OnOk result ((s : Set) → HasMembers ranges.old.items s
        → HasMembers ranges.new.items s) }
{
    if ranges.len() / 2 <= joined {
        return Ok(joined);
    }
    let alloc = *ranges.allocator();
    let gathered = mem::replace(ranges, Vec::new(alloc));
    let class = ClassUnicode::new(alloc, gathered)?;
    ranges.extend_from_slice(class.ranges())?;
    Ok(ranges.len())
}

// Ranges that cover only the character of a lead.
fn lead_ranges(
    alloc: Global,
    flags: Flags,
    lead: Option<char>,
) -> Result<Vec<ClassUnicodeRange>, AllocError>
    ensures { IfOk result (λ ranges.
        HasMembers ranges.items (union_all (leaves flags (option_to_list lead)))) }
{
    let mut ranges = Vec::new(alloc);
    if let Some(c) = lead {
        push_character(&mut ranges, flags, c)?;
    }
    Ok(ranges)
}

// Whether the operand ends before the next character.
fn ends_operand(cursor: &Cursor) -> bool
    ensures { result ≡ ends_operand (text cursor.now) }
{
    cursor.begins(&[']'])
        || cursor.begins(&['&', '&'])
        || cursor.begins(&['-', '-'])
        || cursor.begins(&['~', '~'])
}

// Reads an item, adds its set to the ranges, and returns its depth.
#[cycle(bracket)]
#[tactic(auto, unfolding(crate::specs::Internal::Reading::item, crate::specs::Internal::Reading::item_or))]
fn parse_item(
    cursor: &mut Cursor,
    levels_left: u32,
    ranges: &mut Vec<ClassUnicodeRange>,
) -> Result<u32, RegexError>
    ensures value { Finds (λ depth x. Gains ranges.old.items ranges.new.items x.set
        × (depth ≡ x.depth)
        × (text cursor.new
        ≡ x.rest)) result
        (item cursor.old.flags (bracket cursor.old.flags levels_left) (text cursor.old)) }
    ensures flags { cursor.new.flags ≡ cursor.old.flags }
    ensures moves { OnOk result (unread cursor.new < unread cursor.old) }
    ensures deep { IfOk result (λ depth. depth ≤ levels_left) }
{
    if let Some(PosixClass { class, negated }) = parse_posix(cursor)? {
        push_set(ranges, cursor.flags(), class, negated)?;
        return Ok(0);
    }
    if !cursor.begins(&['[']) {
        parse_simple_item(cursor, ranges)?;
        return Ok(0);
    }
    let BracketSet { class, depth } = parse_bracket(cursor, levels_left)?;
    push_class(ranges, &class)?;
    Ok(depth)
}

// The set that a POSIX class names, and whether it is complemented.
#[derive(Drop)]
struct PosixClass {
    class: ClassUnicode,
    negated: bool,
}

// Reads the POSIX class that begins with the next character, if there is one.
#[tactic(auto, unfolding(crate::specs::Internal::Reading::posix))]
fn parse_posix(cursor: &mut Cursor) -> Result<Option<PosixClass>, AllocError>
    ensures value { IfOk result (λ found.
        MatchOption found ((posix (text cursor.old) ≡ None) × (text cursor.new ≡ text cursor.old))
        (λ p. (s : Set) × (posix (text cursor.old) ≡ Some (s, p.negated, text cursor.new))
        × HasRuns p.class s × (unread cursor.new < unread cursor.old))) }
    ensures flags { cursor.new.flags ≡ cursor.old.flags }
{
    if cursor.begins(&['[', ':', '^']) {
        return parse_posix_name(cursor, 3, true);
    }
    if cursor.begins(&['[', ':']) {
        return parse_posix_name(cursor, 2, false);
    }
    Ok(None)
}

// Reads the name of a POSIX class, which begins after `front` characters, and its `:]`.
fn parse_posix_name(
    cursor: &mut Cursor,
    front: usize,
    negated: bool,
) -> Result<Option<PosixClass>, AllocError>
    requires { front ≤ unread cursor.old }
    ensures value { IfOk result (λ found.
        MatchOption found ((posix_named negated (drop front (text cursor.old)) ≡ None)
        × (text cursor.new ≡ text cursor.old))
        (λ p. (s : Set) × (posix_named negated (drop front (text cursor.old))
        ≡ Some (s, p.negated, text cursor.new)) × HasRuns p.class s
        × (unread cursor.new < unread cursor.old))) }
    ensures flags { cursor.new.flags ≡ cursor.old.flags }
{
    let rest = cursor.rest();
    let Some(len) = name_len(&rest[front..]) else {
        return Ok(None);
    };
    let Some(class) = posix_class(cursor.alloc(), &rest[front..front + len])? else {
        return Ok(None);
    };
    cursor.advance(front + len + 2);
    Ok(Some(PosixClass { class, negated }))
}

// The length of the name at the front of the text, if a `:]` follows it.
fn name_len(text: &[char]) -> Option<usize>
    ensures value { MatchOption result (IsFalse (begins ":]" (span is_ascii_lowercase text.now).1))
        (λ n. IsTrue (begins ":]" (span is_ascii_lowercase text.now).1)
        × (n ≡ length (span is_ascii_lowercase text.now).0)) }
    ensures within { IfSome result (λ n. n + 2 ≤ length text.now) }
{
    let len = letters_len(text);
    text[len..].starts_with(&[':', ']']).then_some(len)
}

// The number of lower-case letters at the front of the text.
fn letters_len(text: &[char]) -> usize
    ensures value { result ≡ prefix_len is_ascii_lowercase text.now }
    ensures within { result ≤ length text.now }
{
    text.iter().take_while(|c| c.is_ascii_lowercase()).count()
}

// Reads a primary or a range, and adds its set to the ranges.
#[tactic(auto, unfolding(crate::specs::Internal::Reading::simple_item))]
fn parse_simple_item(
    cursor: &mut Cursor,
    ranges: &mut Vec<ClassUnicodeRange>,
) -> Result<(), RegexError>
    ensures value { Finds (λ _ x. Gains ranges.old.items ranges.new.items x.set × (x.depth ≡ 0)
        × (text cursor.new ≡ x.rest)) result (simple_item cursor.old.flags (text cursor.old)) }
    ensures flags { cursor.new.flags ≡ cursor.old.flags }
    ensures moves { OnOk result (unread cursor.new < unread cursor.old) }
{
    let low = parse_primary(cursor)?;
    if !is_at_range(cursor.rest()) {
        return push_primary(ranges, cursor.flags(), low);
    }
    cursor.advance(1);
    let high = parse_primary(cursor)?;
    push_range(ranges, cursor.flags(), low, high)
}

// An escape, or a character that stands for itself, and the position where it begins.
#[derive(Drop)]
pub(crate) struct Primary {
    pub(crate) part: EscapedPart,
    pub(crate) position: usize,
}

// Reads an escape, or a character that stands for itself.
#[tactic(auto, unfolding(crate::specs::Internal::Reading::primary))]
pub(crate) fn parse_primary(cursor: &mut Cursor) -> Result<Primary, RegexError>
    ensures value { Finds (λ p x. StandsForEscaped p.part x.0
        × (text cursor.new ≡ x.1)) result (primary (text cursor.old)) }
    ensures flags { cursor.new.flags ≡ cursor.old.flags }
    ensures moves { OnOk result (unread cursor.new < unread cursor.old) }
{
    let position = cursor.position();
    let Some(first) = cursor.peek() else {
        return Err(cursor.error(SyntaxKind::UnclosedClass));
    };
    cursor.advance(1);
    if first != '\\' {
        let part = EscapedPart::Character(first);
        return Ok(Primary { part, position });
    }
    let part = parse_escape(cursor)?;
    Ok(Primary { part, position })
}

// Whether a `-` follows, and after it a character that is neither `]` nor `-`.
fn is_at_range(text: &[char]) -> bool
    ensures value { result ≡ begins_range text.now }
    ensures more { IsTrue result → 2 ≤ length text.now }
{
    match text {
        [] => false,
        [_] => false,
        [first, second, ..] => *first == '-' && *second != ']' && *second != '-',
    }
}

// Adds the set of a primary that is not an end of a range.
fn push_primary(
    ranges: &mut Vec<ClassUnicodeRange>,
    flags: Flags,
    primary: Primary,
) -> Result<(), RegexError>
    ensures { (e : Escaped) → StandsForEscaped primary.part e
        → Finds (λ _ s. Gains ranges.old.items ranges.new.items s) result (stands flags e) }
{
    let Primary { part, position } = primary;
    match part {
        EscapedPart::Character(c) => push_character(ranges, flags, c)?,
        EscapedPart::Set { class, negated } => push_set(ranges, flags, class, negated)?,
        EscapedPart::Assertion(_) => {
            return Err(error_at(position, SyntaxKind::ClassEscapeInvalid));
        }
    }
    Ok(())
}

// Adds the set of a range between two primaries.
fn push_range(
    ranges: &mut Vec<ClassUnicodeRange>,
    flags: Flags,
    start: Primary,
    end: Primary,
) -> Result<(), RegexError>
    ensures { (e h : Escaped) → StandsForEscaped start.part e → StandsForEscaped end.part h
        → Finds (λ _ s.
        Gains ranges.old.items ranges.new.items (leaf flags s)) result (range_of e h) }
{
    let EscapedPart::Character(low) = start.part else {
        return Err(error_at(start.position, SyntaxKind::ClassRangeLiteral));
    };
    let EscapedPart::Character(high) = end.part else {
        return Err(error_at(end.position, SyntaxKind::ClassRangeLiteral));
    };
    if low > high {
        return Err(error_at(start.position, SyntaxKind::ClassRangeInvalid));
    }
    push_leaf(ranges, flags, low, high)?;
    Ok(())
}

// Adds the set of a leaf with the members of the given set, or its complement.
fn push_set(
    ranges: &mut Vec<ClassUnicodeRange>,
    flags: Flags,
    class: ClassUnicode,
    negated: bool,
) -> Result<(), AllocError>
    ensures { OnOk result ((s : Set) → HasRuns class s
        → Gains ranges.old.items ranges.new.items (leaf_or_complement flags s negated)) }
{
    let leaf = leaf_of_set(*ranges.allocator(), flags, class, negated)?;
    push_class(ranges, &leaf)
}

// Adds the set of a leaf that is a character.
fn push_character(
    ranges: &mut Vec<ClassUnicodeRange>,
    flags: Flags,
    c: char,
) -> Result<(), AllocError>
    ensures { OnOk result (Gains ranges.old.items ranges.new.items (leaf flags (just c))) }
{
    push_leaf(ranges, flags, c, c)
}

// Adds the set of a leaf that is a range.
fn push_leaf(
    ranges: &mut Vec<ClassUnicodeRange>,
    flags: Flags,
    low: char,
    high: char,
) -> Result<(), AllocError>
    requires { low ≤ high }
    ensures { OnOk result (Gains ranges.old.items ranges.new.items (leaf flags (range low high))) }
{
    if flags.case_insensitive {
        let class = leaf_of_range(*ranges.allocator(), flags, low, high)?;
        return push_class(ranges, &class);
    }
    ranges.push(ClassUnicodeRange::new(low, high))?;
    Ok(())
}

// Adds the ranges of a class.
fn push_class(ranges: &mut Vec<ClassUnicodeRange>, class: &ClassUnicode) -> Result<(), AllocError>
    ensures { OnOk result ((s : Set) → HasRuns class.now s
        → Gains ranges.old.items ranges.new.items s) }
{
    ranges.extend_from_slice(class.ranges())
}
