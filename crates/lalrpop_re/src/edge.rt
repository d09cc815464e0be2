//! Edges between the states of an automaton.
ghost use Rattle.std.specs.Prelude.{◌≡◌, ℕ, ◌↔◌, List, OnOk, IfOk, None};
ghost use Rattle.lalrpop_hir.specs.Tree.{alternation, concat, none, also};
ghost use Rattle.lalrpop_hir.specs.Fault.{fault};
ghost use Rattle.lalrpop_re.specs.Internal.Walks.{Gains};
ghost use Rattle.lalrpop_re.specs.Internal.Edges.{Labels, between, OptionWords, AreSound, IsSoundOption};

use lalrpop_hir::Hir;
use std::alloc::{AllocError, Global};
use std::mem;

/// An edge: the states that it leads from and to, the tree of the words that lead along it, and about the tree's size.
#[derive(Clone, Drop)]
pub(crate) struct Edge {
    pub(crate) from: usize,
    pub(crate) to: usize,
    pub(crate) tree: Hir,
    pub(crate) size: usize,
}

impl Edge {
    // Makes this the edge of its own words and of those of `other`.
    fn gain(&mut self, alloc: Global, other: Edge) -> Result<(), AllocError>
        ensures from { OnOk result (self.new.from ≡ self.old.from) }
        ensures to { OnOk result (self.new.to ≡ self.old.to) }
        ensures tree { OnOk result (self.new.tree
            ≡ alternation (also self.old.tree (also other.tree none))) }
    {
        let tree = mem::replace(&mut self.tree, Hir::empty());
        self.tree = Hir::alternation(vec![in alloc; tree, other.tree]?);
        self.size = self.size.saturating_add(other.size).saturating_add(1);
        Ok(())
    }
}

/// Adds an edge. Where there is one between the same states already, that one gains its words, so that they stay few.
pub(crate) fn add(alloc: Global, edges: &mut Vec<Edge>, new: Edge) -> Result<(), AllocError>
    ensures words { OnOk result
        (Gains (between edges.old.items) (Labels new) (between edges.new.items)) }
    ensures sound { OnOk result
        (AreSound edges.old.items → fault new.tree ≡ None → AreSound edges.new.items) }
{
    for edge in edges.iter_mut() {
        if edge.from == new.from && edge.to == new.to {
            edge.gain(alloc, new)?;
            return Ok(());
        }
    }
    edges.push(new)?;
    Ok(())
}

/// The edge of all words that lead along an edge from a state to a state, or `None` where there is no such edge.
pub(crate) fn joined(
    alloc: Global,
    edges: &[Edge],
    from: usize,
    to: usize,
) -> Result<Option<Edge>, AllocError>
    ensures words { IfOk result (λ whole. (w : List ℕ)
        → OptionWords whole w ↔ between edges.now from to w) }
    ensures sound { IfOk result (λ whole. AreSound edges.now → IsSoundOption whole) }
{
    let mut whole: Option<Edge> = None;
    for edge in edges {
        if edge.from == from && edge.to == to {
            whole = Some(match whole {
                None => edge.clone()?,
                Some(mut first) => {
                    first.gain(alloc, edge.clone()?)?;
                    first
                }
            });
        }
    }
    Ok(whole)
}

/// The edge along `entry`, `turns` and `exit`.
pub(crate) fn through(
    alloc: Global,
    entry: &Edge,
    turns: &Edge,
    exit: &Edge,
) -> Result<Edge, AllocError>
    ensures from { IfOk result (λ edge. edge.from ≡ entry.now.from) }
    ensures to { IfOk result (λ edge. edge.to ≡ exit.now.to) }
    ensures tree { IfOk result (λ edge. edge.tree
        ≡ concat (also entry.now.tree (also turns.now.tree (also exit.now.tree none)))) }
{
    let mut parts = Vec::new(alloc);
    parts.push(entry.tree.clone()?)?;
    parts.push(turns.tree.clone()?)?;
    parts.push(exit.tree.clone()?)?;
    Ok(Edge {
        from: entry.from,
        to: exit.to,
        tree: Hir::concat(parts),
        size: entry
            .size
            .saturating_add(turns.size)
            .saturating_add(exit.size),
    })
}
