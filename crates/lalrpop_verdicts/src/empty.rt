//! Whether a pattern matches the empty text.
ghost use Rattle.std.specs.Prelude.{[], ◌↔◌, IsTrue};
ghost use Rattle.lalrpop_hir.specs.Parts.{trees};
ghost use Rattle.lalrpop_hir.specs.Language.{Matches, MatchInTurn, SomeMatches};

use lalrpop_hir::{Hir, HirKind};

/// Whether the tree matches the empty text. A tree that requires something of a position matches no word by itself, not even the
/// empty one.
///
/// It goes by the shape of the tree alone, and needs no memory and no automaton. It stops as soon as the answer is settled, and
/// looks at no part twice.
///
/// ```
/// use lalrpop_lexer::lexer::re::{Hir, Repetition};
/// use lalrpop_verdicts::matches_empty;
///
/// // The tree of `a*`.
/// let part = Box::new(alloc, Hir::literal(alloc, "a")?)?;
/// let is_empty = matches_empty(&Hir::repetition(Repetition::new(0, None, true, part))); // true
/// ```
#[cycle(matches_empty)]
pub fn matches_empty(tree: &Hir) -> bool
    ensures empty { IsTrue result ↔ Matches tree.now [] }
{
    match tree.kind() {
        HirKind::Empty => true,
        HirKind::Literal(literal) => literal.as_str().is_empty(),
        HirKind::Class(_) | HirKind::Look(_) => false,
        HirKind::Repetition(repetition) => repetition.min() == 0 || matches_empty(repetition.sub()),
        HirKind::Capture(capture) => matches_empty(capture.sub()),
        HirKind::Concat(parts) => all_match_empty(parts),
        HirKind::Alternation(parts) => some_match_empty(parts),
    }
}

// Whether each of the trees matches the empty text.
#[cycle(matches_empty)]
fn all_match_empty(parts: &[Hir]) -> bool
    ensures { IsTrue result ↔ MatchInTurn (trees parts.now) [] }
{
    for part in parts {
        if !matches_empty(part) {
            return false;
        }
    }
    true
}

// Whether any of the trees matches the empty text.
#[cycle(matches_empty)]
fn some_match_empty(parts: &[Hir]) -> bool
    ensures { IsTrue result ↔ SomeMatches (trees parts.now) [] }
{
    for part in parts {
        if matches_empty(part) {
            return true;
        }
    }
    false
}
