//! Parts: trees that have a name, for which `{NAME}` stands in a pattern.
ghost use Rattle.std.specs.Prelude.{◌≡◌, ◌≤◌, ◌==◌, ◌&&◌, length, drop, option_map, Option, IfSome, IfOk, IfErr, chars};
ghost use Rattle.std.specs.List.{list_all};
ghost use Rattle.std.specs.Char.{is_ascii_alphabetic, is_ascii_alphanumeric};
ghost use Rattle.lalrpop_re.specs.NamedPart.{NamedPart, begins_part, continues_part, is_part_name, part_named};
ghost use Rattle.lalrpop_re.specs.Pattern.{IsPart};
ghost use Rattle.lalrpop_re.specs.Internal.Reading.{part_after};
ghost use Rattle.lalrpop_re.specs.Refusal.{MakesNoPart, PointsInto};

use crate::cursor::error_at;
use crate::error::{RegexError, SyntaxKind};
use crate::names::count_names;
use crate::opening::split_before;
use crate::parser::{Nested, parse_in_bytes};
use lalrpop_hir::Regex;
use std::alloc::{AllocError, Global};
use std::marker::Model;

/// A tree that has a name. In patterns that know the part, `{NAME}` stands for the tree.
///
/// ```
/// use lalrpop_lexer::lexer::re::{Part, parse_with};
///
/// let digit = Part::parse(alloc, "D", "[0-9]", &[])?;
/// let parts = [digit];
/// let tree = parse_with(alloc, "{D}+", &parts)?; // as `(?:[0-9])+`
/// ```
#[derive(Debug, Drop)]
pub struct Part {
    name: Vec<char>,
    tree: Regex,
    // how deep the syntax of the text is nested that spelled the tree
    levels: u32,
    // how many of the tree's groups have names
    named: usize,
}

impl Model for Part {
    ghost use Rattle.lalrpop_re.specs.NamedPart.{NamedPart};
    ghost use Rattle.lalrpop_re.specs.Internal.Code.{part_code};

    ghost Value = { NamedPart };

    ghost coded = { part_code };

    ghost view = { λ p. record { name = p.name.items; tree = p.tree; levels = p.levels } };
}

impl Part {
    /// The part of this name with the tree of the pattern, in which the parts may stand as `{NAME}`. Where several of
    /// these have one name, the first is meant.
    ///
    /// # Errors
    ///
    /// As `parse_with`, and `PartName` at 0 if the name isn't an ASCII letter or `_` and then such characters or ASCII
    /// digits.
    ///
    /// ```
    /// use lalrpop_lexer::lexer::re::Part;
    ///
    /// let digit = Part::parse(alloc, "D", "[0-9]", &[])?;
    /// let known = [digit];
    /// let number = Part::parse(alloc, "N", "{D}+(\\.{D}+)?", &known)?;
    /// ```
    pub fn parse(
        alloc: Global,
        name: &str,
        pattern: &str,
        parts: &[Part],
    ) -> Result<Part, RegexError>
        ensures part { IfOk result (λ p. IsPart parts.now (chars name.now) (chars pattern.now) p) }
        ensures only { IfOk result (λ p.
            (other : NamedPart) → IsPart parts.now (chars name.now) (chars pattern.now) other
            → other ≡ p) }
        ensures none { IfErr result (MakesNoPart parts.now (chars name.now) (chars pattern.now)) }
        ensures position { IfErr result (PointsInto pattern.now) }
    {
        let name = characters(alloc, name)?;
        if !is_name(&name) {
            return Err(error_at(0, SyntaxKind::PartName));
        }
        let Nested { tree, depth } = parse_in_bytes(alloc, pattern, parts, true)?;
        let named = count_names(alloc, &tree)?;
        Ok(Part {
            name,
            tree,
            levels: depth,
            named,
        })
    }

    /// The tree for which the part stands.
    pub fn tree(&self) -> &Regex
        ensures { result.now ≡ self.now.tree }
    {
        &self.tree
    }

    /// How many of the tree's groups have names.
    pub(crate) fn named(&self) -> usize {
        self.named
    }

    /// How deep the syntax of its text is nested.
    pub(crate) fn levels(&self) -> u32
        ensures { result ≡ self.now.levels }
    {
        self.levels
    }
}

#[tactic(auto, using(std::proofs::lemmas::Str::chars_from_encodes))]
fn characters(alloc: Global, text: &str) -> Result<Vec<char>, AllocError>
    ensures { IfOk result (λ cs. cs.items ≡ chars text.now) }
{
    text.chars().collect(alloc)
}

/// Whether the name of a part may begin with this.
pub(crate) fn begins_part(c: char) -> bool
    ensures { result ≡ begins_part c }
{
    c.is_ascii_alphabetic() || c == '_'
}

fn continues_part(c: char) -> bool
    ensures { result ≡ continues_part c }
{
    c.is_ascii_alphanumeric() || c == '_'
}

// Whether a part can have this name.
fn is_name(name: &[char]) -> bool
    ensures { result ≡ is_part_name name.now }
{
    match name {
        [] => false,
        [first, others @ ..] => begins_part(*first) && others.iter().all(|c| continues_part(*c)),
    }
}

/// Whether a name that a part can have and a `}` stand at the front.
pub(crate) fn is_name_in_braces(text: &[char]) -> bool {
    let (name, behind) = split_before(text, &['}']);
    behind.starts_with(&['}']) && is_name(name)
}

/// The part whose name and `}` stand at the front, and the number of their characters.
#[tactic(auto, unfolding(crate::specs::Internal::Reading::part_after))]
pub(crate) fn part_after<'a>(parts: &'a [Part], text: &[char]) -> Option<(&'a Part, usize)>
    ensures value { option_map (λ x. (x.0.now, drop x.1 text.now)) result
        ≡ part_after parts.now text.now }
    ensures within { IfSome result (λ x. x.1 ≤ length text.now) }
{
    let (name, behind) = split_before(text, &['}']);
    if !behind.starts_with(&['}']) || !is_name(name) {
        return None;
    }
    let part = part_named(parts, name)?;
    Some((part, name.len() + 1))
}

// The first part of this name.
fn part_named<'a>(parts: &'a [Part], name: &[char]) -> Option<&'a Part>
    ensures { option_map (λ p. p.now) result ≡ part_named parts.now name.now }
{
    parts.iter().find(|part| part.name.as_slice() == name)
}
