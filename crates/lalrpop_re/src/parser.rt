//! Patterns: groups, alternations, concatenations and repetitions.
ghost use Rattle.std.specs.Prelude.{◌≡◌, ◌+◌, ◌-◌, ◌^◌, ◌<◌, ◌≤◌, suc, max, drop, Bool, true, false, List, [], ◌∷◌, ◌++◌, length, option_map, Some, None, string_bytes, IfSome, IfOk, IfErr, OnOk, IsTrue, if◌then◌else◌};
ghost use Rattle.std.specs.Str.{chars, IsCharBoundary};
ghost use Rattle.lalrpop_hir.specs.Counts.{AreOrdered};
ghost use Rattle.lalrpop_hir.specs.Tree.{Tree, repetition, capture};
ghost use Rattle.lalrpop_re.specs.Text.{begins};
ghost use Rattle.lalrpop_re.specs.Pattern.{Pattern, PatternWith, most_levels, is_special, escaped_tree, ends_branch, branch, choice};
ghost use Rattle.lalrpop_re.specs.Escape.{Escaped};
ghost use Rattle.lalrpop_re.specs.Flag.{no_flags, has_flag};
ghost use Rattle.lalrpop_re.specs.GroupName.{names, are_distinct};
ghost use Rattle.lalrpop_re.specs.Refusal.{HasNoTree, HasNoTreeWith, PointsInto};
ghost use Rattle.lalrpop_re.specs.Internal.Reading.{is_at_operator, all_operators, atom, piece, enclosed, whole_row, all_branches, begin, inside};
ghost use Rattle.lalrpop_re.specs.Internal.Views.{text, unread, Gives, PointsAtRepeated, StandsForEscaped, HasLevels};
ghost use Rattle.lalrpop_re.specs.Internal.Parts.{group_or_directive, step, escaped_part, bracket_part, part_in_braces, read_levels, part, line, whole, step_of};

use crate::bracket::{BracketSet, parse_bracket};
use crate::cursor::{Cursor, error_at};
use crate::error::{RegexError, SyntaxKind};
use crate::escape_sequence::{EscapedPart, parse_escape};
use crate::flags::Flags;
use crate::names::repeated_name;
use crate::opening::{GroupOpening, after_first, parse_opening};
use crate::operator::{RepetitionOperator, is_at_operator, parse_operator_at, part_refusal};
use crate::part::{Part, part_after};
use crate::sets::{leaf_of_set, tree_of_character, tree_of_class, tree_of_dot};
use lalrpop_hir::{Capture, Hir, Look, Regex, Repetition};
use std::alloc::{AllocError, Global};

// The greatest number of levels that a place of a pattern may be inside.
const NEST_LIMIT: u32 = 250;

/// A tree, and how deep its syntax is nested.
#[derive(Drop)]
pub(crate) struct Nested {
    pub(crate) tree: Hir,
    pub(crate) depth: u32,
}

// Trees side by side, and the depth of the deepest.
#[derive(Drop)]
struct Row {
    trees: Vec<Hir>,
    depth: u32,
}

impl Row {
    fn new(alloc: Global) -> Row
        ensures trees { result.trees.items ≡ [] }
        ensures depth { result.depth ≡ 0 }
    {
        Row {
            trees: Vec::new(alloc),
            depth: 0,
        }
    }

    fn push(&mut self, piece: Nested) -> Result<(), AllocError>
        ensures trees { OnOk result (self.new.trees.items
            ≡ self.old.trees.items ++ piece.tree ∷ []) }
        ensures depth { OnOk result (self.new.depth ≡ max self.old.depth piece.depth) }
    {
        let Nested { tree, depth } = piece;
        self.trees.push(tree)?;
        self.depth = self.depth.max(depth);
        Ok(())
    }
}

/// The tree of a pattern, by the grammar in the files of `specs/`.
///
/// # Errors
///
/// `RegexError::Syntax` if the text does not parse, with what is wrong and where, in bytes. `RegexError::OutOfMemory` if
/// a request for memory was refused.
pub fn parse_regex(alloc: Global, s: &str) -> Result<Regex, RegexError>
    ensures tree { IfOk result (λ t. Pattern (chars s.now) t) }
    ensures only { IfOk result (λ t. (other : Tree) → Pattern (chars s.now) other → other ≡ t) }
    ensures none { IfErr result (HasNoTree (chars s.now)) }
    ensures position { IfErr result (PointsInto s.now) }
{
    let Nested { tree, .. } = parse_in_bytes(alloc, s, &[], false)?;
    Ok(tree)
}

/// The tree of a pattern in which `{NAME}` stands for the tree of the first of the parts that has this name, as a group of
/// its text would. It stands so where no flag is on, outside brackets.
///
/// # Errors
///
/// As `parse_regex`, and `PartUnknown` at the `{` of a `{NAME}` that is the name of no part, and `PartName` at a `{` before an
/// ASCII letter or `_` that begins no name in braces.
///
/// ```
/// use lalrpop_lexer::lexer::re::{Part, parse_with};
///
/// let digit = Part::parse(alloc, "D", "[0-9]", &[])?;
/// let parts = [digit];
/// let tree = parse_with(alloc, "{D}+(\\.{D}+)?", &parts)?;
/// ```
pub fn parse_with(alloc: Global, s: &str, parts: &[Part]) -> Result<Regex, RegexError>
    ensures tree { IfOk result (λ t. PatternWith parts.now (chars s.now) t) }
    ensures only { IfOk result (λ t.
        (other : Tree) → PatternWith parts.now (chars s.now) other → other ≡ t) }
    ensures none { IfErr result (HasNoTreeWith parts.now (chars s.now)) }
    ensures position { IfErr result (PointsInto s.now) }
{
    let Nested { tree, .. } = parse_in_bytes(alloc, s, parts, true)?;
    Ok(tree)
}

/// The tree of a pattern with these parts, and how deep its syntax is nested. A refusal's position counts bytes.
/// `knows_parts` says whether a name in braces that is that of none is refused as such.
pub(crate) fn parse_in_bytes(
    alloc: Global,
    s: &str,
    parts: &[Part],
    knows_parts: bool,
) -> Result<Nested, RegexError>
    ensures tree { IfOk result (λ p. HasLevels parts.now (chars s.now) p.tree p.depth) }
    ensures none { IfErr result (HasNoTreeWith parts.now (chars s.now)) }
    ensures position { IfErr result (PointsInto s.now) }
{
    match parse_whole(alloc, s, parts, knows_parts) {
        Ok(tree) => Ok(tree),
        Err(RegexError::Syntax { position, kind }) => {
            let position = byte_offset(s, position);
            Err(RegexError::Syntax { position, kind })
        }
        Err(RegexError::OutOfMemory) => Err(RegexError::OutOfMemory),
    }
}

/// The number of bytes of the first characters, or of all if there are fewer.
pub(crate) fn byte_offset(s: &str, characters: usize) -> usize
    ensures { IsCharBoundary s.now result }
{
    match s.char_indices().nth(characters) {
        Some((offset, _)) => offset,
        None => s.len(),
    }
}

// Reads a pattern. A refusal's position counts characters.
fn parse_whole(
    alloc: Global,
    pattern: &str,
    parts: &[Part],
    knows_parts: bool,
) -> Result<Nested, RegexError>
    ensures { Gives (λ p. (p.tree, p.depth)) result
        (read_levels parts.now (chars pattern.now)) }
{
    let mut cursor = Cursor::new(alloc, pattern, knows_parts)?;
    parse_to_end(&mut cursor, parts)
}

// Reads a pattern that begins at the cursor and ends with the text.
#[tactic(auto, unfolding(crate::specs::Internal::Parts::read_levels))]
fn parse_to_end(cursor: &mut Cursor, parts: &[Part]) -> Result<Nested, RegexError>
    requires { cursor.old.flags ≡ no_flags }
    ensures { Gives (λ p. (p.tree, p.depth)) result (read_levels parts.now (text cursor.old)) }
{
    let whole = parse_at_top(cursor, parts)?;
    if !cursor.rest().is_empty() {
        return Err(cursor.error(SyntaxKind::UnopenedGroup));
    }
    check_names(cursor, &whole.tree)?;
    Ok(whole)
}

// Refuses a tree in which two groups have the same name, at the group with the first name that repeats an earlier one.
fn check_names(cursor: &Cursor, tree: &Hir) -> Result<(), RegexError>
    ensures value { Gives (λ _. tree.now) result
        (if are_distinct (names tree.now) then Some tree.now else None) }
    ensures place { IfErr result (PointsAtRepeated (names tree.now) cursor.now) }
{
    match repeated_name(cursor.alloc(), tree)? {
        None => Ok(()),
        Some(number) => Err(error_at(cursor.named_place(number), SyntaxKind::GroupName)),
    }
}

// Reads an expression that no group encloses, with all levels left.
fn parse_at_top(cursor: &mut Cursor, parts: &[Part]) -> Result<Nested, RegexError>
    ensures { Gives (λ p. whole p cursor.new) result
        (inside parts.now (suc most_levels) cursor.old.flags (text cursor.old)) }
{
    parse_expression(cursor, NEST_LIMIT, parts)
}

// Reads an expression, with `levels_left` levels left.
#[cycle(parser)]
#[tactic(auto, unfolding(crate::specs::Internal::Reading::inside, crate::specs::Internal::Reading::expression_with))]
fn parse_expression(
    cursor: &mut Cursor,
    levels_left: u32,
    parts: &[Part],
) -> Result<Nested, RegexError>
    ensures value { Gives (λ p.
        whole p cursor.new) result (inside parts.now (suc levels_left) cursor.old.flags (text cursor.old)) }
    ensures moves { OnOk result (unread cursor.new ≤ unread cursor.old) }
    ensures deep { IfOk result (λ p. p.depth ≤ levels_left) }
{
    let Row { trees, depth } = parse_branches(cursor, levels_left, parts)?;
    let tree = choice_of(trees);
    Ok(Nested { tree, depth })
}

// Reads the branches up to the end of the group or of the pattern.
#[cycle(parser)]
fn parse_branches(cursor: &mut Cursor, levels_left: u32, parts: &[Part]) -> Result<Row, RegexError>
    ensures value { Gives (λ r.
        line r cursor.new) result
        (all_branches parts.now levels_left (inside parts.now levels_left) (begin cursor.old.flags (text cursor.old))) }
    ensures moves { OnOk result (unread cursor.new ≤ unread cursor.old) }
    ensures deep { IfOk result (λ r. r.depth ≤ levels_left) }
{
    let mut branches = Row::new(cursor.alloc());
    loop {
        let Row { trees, depth } = parse_row(cursor, levels_left, parts)?;
        let tree = branch_of(trees);
        branches.push(Nested { tree, depth })?;
        if !cursor.begins(&['|']) {
            return Ok(branches);
        }
        cursor.advance(1);
    }
}

// Reads the pieces and the directives of one branch.
#[cycle(parser)]
fn parse_row(cursor: &mut Cursor, levels_left: u32, parts: &[Part]) -> Result<Row, RegexError>
    ensures value { Gives (λ r.
        line r cursor.new) result
        (whole_row parts.now levels_left (inside parts.now levels_left) (begin cursor.old.flags (text cursor.old))) }
    ensures moves { OnOk result (unread cursor.new ≤ unread cursor.old) }
    ensures deep { IfOk result (λ r. r.depth ≤ levels_left) }
{
    let mut row = Row::new(cursor.alloc());
    while !ends_branch(cursor) {
        let Some(piece) = parse_step(cursor, levels_left, parts)? else {
            continue;
        };
        row.push(piece)?;
    }
    Ok(row)
}

fn ends_branch(cursor: &Cursor) -> bool
    ensures { result ≡ ends_branch (text cursor.now) }
{
    match cursor.peek() {
        Some(c) => c == '|' || c == ')',
        None => true,
    }
}

// Reads a piece, or a directive, whose flags hold from there on and for which it returns `None`.
#[cycle(parser)]
#[tactic(auto, unfolding(crate::specs::Internal::Parts::step))]
fn parse_step(
    cursor: &mut Cursor,
    levels_left: u32,
    parts: &[Part],
) -> Result<Option<Nested>, RegexError>
    ensures value { Gives (λ p.
        step_of p cursor.new) result (step parts.now levels_left (inside parts.now levels_left) cursor.old.flags (text cursor.old)) }
    ensures moves { OnOk result (unread cursor.new < unread cursor.old) }
    ensures deep { IfOk result (λ p. IfSome p (λ n. n.depth ≤ levels_left)) }
{
    if !cursor.begins(&['(']) {
        return Ok(Some(parse_piece(cursor, levels_left, parts)?));
    }
    match parse_parenthesis(cursor, levels_left, parts)? {
        Some(group) => Ok(Some(parse_operators(cursor, levels_left, parts, group)?)),
        None => Ok(None),
    }
}

// Reads a group, or a directive, for which it returns `None`.
#[cycle(parser)]
#[tactic(auto, unfolding(crate::specs::Internal::Parts::group_or_directive, crate::specs::Internal::Parts::group_or_directive_of))]
fn parse_parenthesis(
    cursor: &mut Cursor,
    levels_left: u32,
    parts: &[Part],
) -> Result<Option<Nested>, RegexError>
    requires { IsTrue (begins "(" (text cursor.old)) }
    ensures value { Gives (λ p.
        step_of p cursor.new) result
        (group_or_directive parts.now levels_left (inside parts.now levels_left) cursor.old.flags (drop 1 (text cursor.old))) }
    ensures moves { OnOk result (unread cursor.new < unread cursor.old) }
    ensures deep { IfOk result (λ p. IfSome p (λ n. n.depth ≤ levels_left)) }
{
    let start = cursor.position();
    cursor.advance(1);
    match parse_opening(cursor)? {
        GroupOpening::Plain => {
            let group = parse_enclosed(cursor, levels_left, parts, cursor.flags(), start)?;
            Ok(Some(captured(cursor.alloc(), None, group)?))
        }
        GroupOpening::Named(name) => {
            cursor.note_name(start)?;
            let group = parse_enclosed(cursor, levels_left, parts, cursor.flags(), start)?;
            Ok(Some(captured(cursor.alloc(), Some(name), group)?))
        }
        GroupOpening::Flagged(flags) => Ok(Some(parse_enclosed(
            cursor,
            levels_left,
            parts,
            flags,
            start,
        )?)),
        GroupOpening::Directive(flags) => {
            cursor.set_flags(flags);
            Ok(None)
        }
    }
}

// Reads the expression of a group under the flags, and its `)`. The group began at `start`.
#[cycle(parser)]
#[tactic(auto, unfolding(crate::specs::Internal::Reading::enclosed))]
fn parse_enclosed(
    cursor: &mut Cursor,
    levels_left: u32,
    parts: &[Part],
    flags: Flags,
    start: usize,
) -> Result<Nested, RegexError>
    ensures value { Gives (λ p.
        part p (text cursor.new)) result (enclosed parts.now levels_left (inside parts.now levels_left) (λ e.
        e) flags (text cursor.old)) }
    ensures flags { OnOk result (cursor.new.flags ≡ cursor.old.flags) }
    ensures moves { OnOk result (unread cursor.new ≤ unread cursor.old) }
    ensures deep { IfOk result (λ p. p.depth ≤ levels_left) }
{
    if levels_left == 0 {
        return Err(error_at(start, SyntaxKind::NestLimitExceeded));
    }
    let outside = cursor.flags();
    cursor.set_flags(flags);
    let Nested { tree, depth } = parse_expression(cursor, levels_left - 1, parts)?;
    if !cursor.begins(&[')']) {
        return Err(error_at(start, SyntaxKind::UnclosedGroup));
    }
    leave_group(cursor, outside);
    Ok(Nested {
        tree,
        depth: depth + 1,
    })
}

// Skips the `)` of a group, and restores the flags that hold outside.
fn leave_group(cursor: &mut Cursor, outside: Flags)
    requires { 0 < unread cursor.old }
    ensures text { text cursor.new ≡ drop 1 (text cursor.old) }
    ensures flags { cursor.new.flags ≡ outside }
{
    cursor.advance(1);
    cursor.set_flags(outside);
}

// The group as one that captures.
fn captured(alloc: Global, name: Option<String>, group: Nested) -> Result<Nested, AllocError>
    ensures { IfOk result (λ p. (p.tree ≡ capture (option_map string_bytes name) group.tree)
        × (p.depth ≡ group.depth)) }
{
    let Nested { tree, depth } = group;
    let sub = Box::new(alloc, tree)?;
    Ok(Nested {
        tree: Hir::capture(Capture::new(name, sub)),
        depth,
    })
}

// Reads an atom that is not a group, and its operators.
#[tactic(auto, unfolding(crate::specs::Internal::Reading::piece))]
fn parse_piece(cursor: &mut Cursor, levels_left: u32, parts: &[Part]) -> Result<Nested, RegexError>
    requires { begins "(" (text cursor.old) ≡ false }
    ensures value { Gives (λ p.
        part p (text cursor.new)) result
        (piece parts.now levels_left (inside parts.now levels_left) cursor.old.flags (text cursor.old)) }
    ensures flags { cursor.new.flags ≡ cursor.old.flags }
    ensures moves { OnOk result (unread cursor.new < unread cursor.old) }
    ensures deep { IfOk result (λ p. p.depth ≤ levels_left) }
{
    let atom = parse_atom(cursor, levels_left, parts)?;
    parse_operators(cursor, levels_left, parts, atom)
}

// Reads an atom that is not a group.
#[tactic(auto, unfolding(crate::specs::Internal::Reading::atom, crate::specs::Internal::Parts::escaped_part, crate::specs::Internal::Parts::bracket_part, crate::specs::Internal::Parts::part_in_braces))]
fn parse_atom(cursor: &mut Cursor, levels_left: u32, parts: &[Part]) -> Result<Nested, RegexError>
    requires { begins "(" (text cursor.old) ≡ false }
    ensures value { Gives (λ p.
        part p (text cursor.new)) result
        (atom parts.now levels_left (inside parts.now levels_left) cursor.old.flags (text cursor.old)) }
    ensures flags { cursor.new.flags ≡ cursor.old.flags }
    ensures moves { OnOk result (unread cursor.new < unread cursor.old) }
    ensures deep { IfOk result (λ p. p.depth ≤ levels_left) }
{
    let Some(first) = cursor.peek() else {
        return Err(cursor.error(SyntaxKind::RepetitionMissing));
    };
    let flags = cursor.flags();
    match first {
        '\\' => {
            cursor.advance(1);
            parse_escaped(cursor)
        }
        '[' => parse_class(cursor, levels_left),
        '.' => Ok(single(cursor, tree_of_dot(cursor.alloc(), flags)?)),
        '^' => Ok(single(cursor, Hir::look(line_start(flags)))),
        '$' => Ok(single(cursor, Hir::look(line_end(flags)))),
        '{' => parse_part(cursor, levels_left, parts),
        _ => {
            if is_special(first) {
                return Err(cursor.error(SyntaxKind::RepetitionMissing));
            }
            Ok(single(cursor, tree_of_character(cursor.alloc(), flags, first)?))
        }
    }
}

// Reads a part, as deep as a group of its text.
#[tactic(auto, unfolding(crate::specs::Internal::Parts::part_in_braces))]
fn parse_part(cursor: &mut Cursor, levels_left: u32, parts: &[Part]) -> Result<Nested, RegexError>
    requires { IsTrue (begins "{" (text cursor.old)) }
    ensures value { Gives (λ p.
        part p (text cursor.new)) result
        (part_in_braces parts.now levels_left cursor.old.flags (drop 1 (text cursor.old))) }
    ensures flags { cursor.new.flags ≡ cursor.old.flags }
    ensures moves { OnOk result (unread cursor.new < unread cursor.old) }
    ensures deep { IfOk result (λ p. p.depth ≤ levels_left) }
{
    let Some(found) = part_after(parts, after_first(cursor.rest())) else {
        let kind = part_refusal(cursor).unwrap_or(SyntaxKind::RepetitionMissing);
        return Err(cursor.error(kind));
    };
    if has_flag(cursor.flags()) {
        return Err(cursor.error(SyntaxKind::PartUnderFlag));
    }
    let levels = found.0.levels();
    if levels >= levels_left {
        return Err(cursor.error(SyntaxKind::NestLimitExceeded));
    }
    let tree = found.0.tree().clone()?;
    cursor.note_names(cursor.position(), found.0.named())?;
    cursor.advance(found.1 + 1);
    Ok(Nested {
        tree,
        depth: levels + 1,
    })
}

fn has_flag(flags: Flags) -> bool
    ensures { result ≡ has_flag flags }
{
    flags.case_insensitive || flags.dot_matches_new_line || flags.multi_line || flags.swap_greed
}

fn is_special(c: char) -> bool
    ensures { result ≡ is_special c }
{
    matches!(
        c,
        '\\' | '.' | '+' | '*' | '?' | '(' | ')' | '|' | '[' | '{' | '^' | '$'
    )
}

// The look of `^`.
fn line_start(flags: Flags) -> Look
    ensures { result ≡ (if flags.multi_line then Look.StartLF else Look.Start) }
{
    if flags.multi_line {
        Look::StartLF
    } else {
        Look::Start
    }
}

// The look of `$`.
fn line_end(flags: Flags) -> Look
    ensures { result ≡ (if flags.multi_line then Look.EndLF else Look.End) }
{
    if flags.multi_line {
        Look::EndLF
    } else {
        Look::End
    }
}

// Skips the one character that the tree stands for.
fn single(cursor: &mut Cursor, tree: Hir) -> Nested
    requires { 0 < unread cursor.old }
    ensures tree { result.tree ≡ tree }
    ensures depth { result.depth ≡ 0 }
    ensures text { text cursor.new ≡ drop 1 (text cursor.old) }
    ensures flags { cursor.new.flags ≡ cursor.old.flags }
{
    cursor.advance(1);
    Nested { tree, depth: 0 }
}

// Reads an escape after its backslash.
#[tactic(auto, unfolding(crate::specs::Internal::Parts::escaped_part))]
fn parse_escaped(cursor: &mut Cursor) -> Result<Nested, RegexError>
    ensures value { Gives (λ p.
        part p (text cursor.new)) result (escaped_part cursor.old.flags (text cursor.old)) }
    ensures flags { cursor.new.flags ≡ cursor.old.flags }
    ensures moves { OnOk result (unread cursor.new < unread cursor.old) }
    ensures deep { IfOk result (λ p. p.depth ≡ 0) }
{
    let escaped = parse_escape(cursor)?;
    let tree = tree_of_escape(cursor.alloc(), cursor.flags(), escaped)?;
    Ok(Nested { tree, depth: 0 })
}

fn tree_of_escape(alloc: Global, flags: Flags, escaped: EscapedPart) -> Result<Hir, AllocError>
    ensures { IfOk result (λ t. (e : Escaped) → StandsForEscaped escaped e
        → t ≡ escaped_tree flags e) }
{
    match escaped {
        EscapedPart::Character(c) => tree_of_character(alloc, flags, c),
        EscapedPart::Set { class, negated } => {
            let leaf = leaf_of_set(alloc, flags, class, negated)?;
            Ok(tree_of_class(leaf))
        }
        EscapedPart::Assertion(look) => Ok(Hir::look(look)),
    }
}

// Reads a bracket as an atom: the tree of its set.
#[tactic(auto, unfolding(crate::specs::Internal::Parts::bracket_part))]
fn parse_class(cursor: &mut Cursor, levels_left: u32) -> Result<Nested, RegexError>
    ensures value { Gives (λ p.
        part p (text cursor.new)) result (bracket_part levels_left cursor.old.flags (text cursor.old)) }
    ensures flags { cursor.new.flags ≡ cursor.old.flags }
    ensures moves { OnOk result (unread cursor.new < unread cursor.old) }
    ensures deep { IfOk result (λ p. p.depth ≤ levels_left) }
{
    let BracketSet { class, depth } = parse_bracket(cursor, levels_left)?;
    let tree = tree_of_class(class);
    Ok(Nested { tree, depth })
}

// Puts the atom under each operator that follows.
fn parse_operators(
    cursor: &mut Cursor,
    levels_left: u32,
    parts: &[Part],
    atom: Nested,
) -> Result<Nested, RegexError>
    requires { atom.depth ≤ levels_left }
    ensures value { Gives (λ p.
        part p (text cursor.new)) result
        (all_operators parts.now levels_left cursor.old.flags (part atom (text cursor.old))) }
    ensures flags { cursor.new.flags ≡ cursor.old.flags }
    ensures moves { OnOk result (unread cursor.new ≤ unread cursor.old) }
    ensures deep { IfOk result (λ p. p.depth ≤ levels_left) }
{
    let mut piece = atom;
    while is_at_operator(cursor, parts) {
        if piece.depth >= levels_left {
            return Err(cursor.error(SyntaxKind::NestLimitExceeded));
        }
        let operator = parse_operator_at(cursor)?;
        piece = repeated(cursor.alloc(), operator, piece)?;
    }
    Ok(piece)
}

// The piece, repeated by the operator.
fn repeated(
    alloc: Global,
    operator: RepetitionOperator,
    piece: Nested,
) -> Result<Nested, AllocError>
    requires ordered { AreOrdered operator.min operator.max }
    requires flat { piece.depth < 2 ^ 32 - 1 }
    ensures { IfOk result (λ p.
        (p.tree ≡ repetition operator.min operator.max operator.greedy piece.tree)
        × (p.depth ≡ piece.depth + 1)) }
{
    let RepetitionOperator { min, max, greedy } = operator;
    let Nested { tree, depth } = piece;
    let sub = Box::new(alloc, tree)?;
    Ok(Nested {
        tree: Hir::repetition(Repetition::new(min, max, greedy, sub)),
        depth: depth + 1,
    })
}

// The tree of a branch with these pieces.
fn branch_of(mut pieces: Vec<Hir>) -> Hir
    ensures { result ≡ branch pieces.items }
{
    if pieces.len() > 1 {
        return Hir::concat(pieces);
    }
    pieces.pop().unwrap_or(Hir::empty())
}

// The tree of an expression with these branches.
fn choice_of(mut branches: Vec<Hir>) -> Hir
    ensures { result ≡ choice branches.items }
{
    if branches.len() > 1 {
        return Hir::alternation(branches);
    }
    branches.pop().unwrap_or(Hir::empty())
}
