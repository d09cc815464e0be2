//! Parts, and patterns in which they stand.
ghost use Rattle.std.specs.Prelude.{◌≡◌, ℕ, List, IfOk, IfErr};
ghost use Rattle.std.specs.Str.{chars};
ghost use Rattle.lalrpop_hir.specs.Tree.{Tree};
ghost use Rattle.lalrpop_re.specs.NamedPart.{NamedPart};
ghost use Rattle.lalrpop_re.specs.Pattern.{PatternWith, IsPart};
ghost use Rattle.lalrpop_re.specs.Refusal.{HasNoTreeWith, MakesNoPart, PointsInto};

use lalrpop_re::{Hir, Part, RegexError, parse_with};
use std::alloc::Global;

/// The only tree of a pattern in which the parts may stand. A pattern that is refused for its syntax has none.
// Needs lalrpop_re::parse_with: tree, only, none, position.
pub fn tree_with(alloc: Global, pattern: &str, parts: &[Part]) -> Result<Hir, RegexError>
    ensures tree { IfOk result (λ t. PatternWith parts.now (chars pattern.now) t) }
    ensures only { IfOk result (λ t.
        (u : Tree) → PatternWith parts.now (chars pattern.now) u → u ≡ t) }
    ensures none { IfErr result (HasNoTreeWith parts.now (chars pattern.now)) }
    ensures position { IfErr result (PointsInto pattern.now) }
{
    parse_with(alloc, pattern, parts)
}

/// The only part of this name and pattern. A name or a pattern that is refused makes none.
// Needs lalrpop_re::Part::parse: part, only, none, position.
pub fn part_of(alloc: Global, name: &str, pattern: &str, parts: &[Part]) -> Result<Part, RegexError>
    ensures part { IfOk result (λ p. IsPart parts.now (chars name.now) (chars pattern.now) p) }
    ensures only { IfOk result (λ p.
        (q : NamedPart) → IsPart parts.now (chars name.now) (chars pattern.now) q → q ≡ p) }
    ensures none { IfErr result (MakesNoPart parts.now (chars name.now) (chars pattern.now)) }
    ensures position { IfErr result (PointsInto pattern.now) }
{
    Part::parse(alloc, name, pattern, parts)
}

/// The tree of a part: the one of its pattern, in which the parts before it may stand.
// Needs lalrpop_re::Part::tree.
pub fn tree_of_part(part: &Part) -> &Hir
    ensures { (parts : List NamedPart) (name pattern : List ℕ) → IsPart parts name pattern part.now
        → PatternWith parts pattern result.now }
{
    part.tree()
}
