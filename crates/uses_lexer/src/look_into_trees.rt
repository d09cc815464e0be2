//! What is at the top of a tree, and its parts.
ghost use Rattle.std.specs.Prelude.{◌≡◌, ◌≢◌, ℕ, List, [], option_map, IfSome, MatchOption};
ghost use Rattle.std.specs.Str.{chars};
ghost use Rattle.lalrpop_hir.specs.Counts.{AreOrdered};
ghost use Rattle.lalrpop_hir.specs.Level.{kind_tree};
ghost use Rattle.lalrpop_hir.specs.Tree.{literal, repetition, capture};

use lalrpop_hir::{Capture, Hir, HirKind, Literal, Repetition};

/// The text of a tree that is a literal.
// Needs lalrpop_hir::Hir::kind: level.
// Needs lalrpop_hir::Literal::as_str: value.
pub fn text_of(tree: &Hir) -> Option<&str>
    ensures { MatchOption result ((cs : List ℕ) → tree.now ≢ literal cs)
        (λ text. tree.now ≡ literal (chars text.now)) }
{
    match tree.kind() {
        HirKind::Literal(text) => Some(text.as_str()),
        _ => None,
    }
}

/// The first byte of a literal, which has one.
// Needs lalrpop_hir::Literal::as_str: not_empty.
pub fn first_byte(text: &Literal) -> u8
    ensures { text.now ≢ [] }
{
    text.as_str().as_bytes()[0]
}

/// The least number of repetitions, and the greatest, if there is one.
// Needs lalrpop_hir::Repetition::min: value, ordered.
// Needs lalrpop_hir::Repetition::max: value, ordered.
pub fn turns_of(turns: &Repetition) -> (u32, Option<u32>)
    ensures least { result.0 ≡ turns.now.min }
    ensures most { result.1 ≡ turns.now.max }
    ensures ordered { AreOrdered result.0 result.1 }
{
    (turns.min(), turns.max())
}

/// Whether the repetition is greedy, and what is repeated.
// Needs lalrpop_hir::Repetition::greedy: greedy.
// Needs lalrpop_hir::Repetition::sub: sub.
pub fn turn_of(turns: &Repetition) -> (bool, &Hir)
    ensures greed { result.0 ≡ turns.now.greedy }
    ensures part { result.1.now ≡ turns.now.sub }
{
    (turns.greedy(), turns.sub())
}

/// The name of a group, and what is in it.
// Needs lalrpop_hir::Capture::name: name.
// Needs lalrpop_hir::Capture::sub: sub.
pub fn opened(group: &Capture) -> (Option<&str>, &Hir)
    ensures name { option_map (λ s. s.now) result.0 ≡ group.now.name }
    ensures part { result.1.now ≡ group.now.sub }
{
    (group.name(), group.sub())
}
