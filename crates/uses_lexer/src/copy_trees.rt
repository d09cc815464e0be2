//! Copies of trees and of their parts.
ghost use Rattle.std.specs.Prelude.{◌≡◌, ◌∷◌, [], IfOk};
ghost use Rattle.lalrpop_hir.specs.Level.{class_of, kind_tree};
ghost use Rattle.lalrpop_hir.specs.Parts.{trees};
ghost use Rattle.lalrpop_hir.specs.Tree.{class, repetition, capture, concat};

use lalrpop_hir::{Capture, Class, Hir, HirKind, Repetition};
use std::alloc::{AllocError, Global};

/// The tree twice in a row.
// Needs lalrpop_hir::Hir::clone: ghost is_clone.
pub fn twice(alloc: Global, tree: Hir) -> Result<Hir, AllocError>
    ensures { IfOk result (λ t. t ≡ concat (trees (tree ∷ tree ∷ []))) }
{
    let copy = tree.clone()?;
    Ok(Hir::concat(vec![in alloc; copy, tree]?))
}

/// What is at the top of the tree, as a value of its own.
// Needs lalrpop_hir::HirKind::clone: ghost is_clone.
pub fn top(tree: &Hir) -> Result<HirKind, AllocError>
    ensures { IfOk result (λ kind. kind_tree kind ≡ tree.now) }
{
    tree.kind().clone()
}

/// The tree of a copy of the class.
// Needs lalrpop_hir::Class::clone: ghost is_clone.
pub fn leaf(members: &Class) -> Result<Hir, AllocError>
    ensures { IfOk result (λ t. t ≡ class (class_of members.now)) }
{
    Ok(Hir::class(members.clone()?))
}

/// The tree of a copy of the repetition.
// Needs lalrpop_hir::Repetition::clone: ghost is_clone.
pub fn repeated(turns: &Repetition) -> Result<Hir, AllocError>
    ensures { IfOk result (λ t.
        t ≡ repetition turns.now.min turns.now.max turns.now.greedy turns.now.sub) }
{
    Ok(Hir::repetition(turns.clone()?))
}

/// The tree of a copy of the group.
// Needs lalrpop_hir::Capture::clone: ghost is_clone.
pub fn group(group: &Capture) -> Result<Hir, AllocError>
    ensures { IfOk result (λ t. t ≡ capture group.now.name group.now.sub) }
{
    Ok(Hir::capture(group.clone()?))
}
