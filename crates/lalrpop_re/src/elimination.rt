//! States are eliminated one after another: the edges into a state and out of it give way to edges past it.
ghost use Rattle.std.specs.Prelude.{◌≡◌, ◌≢◌, ℕ, ◌+◌, ◌<◌, ◌≤◌, ◌↔◌, List, length, IfOk, OnOk, None};
ghost use Rattle.std.specs.List.{range_with_len};
ghost use Rattle.lalrpop_hir.specs.Language.{Matches};
ghost use Rattle.lalrpop_hir.specs.Fault.{fault};
ghost use Rattle.lalrpop_re.specs.Internal.Walks.{Star, Walk, Gains, IsWithout, IsWithin};
ghost use Rattle.lalrpop_re.specs.Internal.Edges.{between, Exits, IsSound, AreSound};

use crate::edge::{Edge, add, joined, through};
use lalrpop_hir::{Hir, Repetition};
use std::alloc::{AllocError, Global};

/// The tree of the words that lead from state `count + 1` to state `count`, where the states below `count` lie between. They
/// are eliminated in any order: the one by which the tree stays smallest, as far as one step ahead shows.
pub(crate) fn tree_of(alloc: Global, edges: Vec<Edge>, count: usize) -> Result<Hir, AllocError>
    requires small { count ≤ 64 }
    requires within { IsWithin count (between edges.items) }
    requires sound { AreSound edges.items }
    ensures words { IfOk result (λ tree. (w : List ℕ)
        → Matches tree w ↔ Walk (between edges.items) count (count + 1) w) }
    ensures sound { IfOk result (λ tree. fault tree ≡ None) }
{
    let mut edges = edges;
    let mut left = states_below(alloc, count)?;
    while !left.is_empty() {
        let state = left.swap_remove(cheapest(&edges, &left));
        edges = eliminate(alloc, &edges, state)?;
    }
    match joined(alloc, &edges, count + 1, count)? {
        Some(whole) => Ok(whole.tree),
        None => Ok(Hir::alternation(Vec::new(alloc))),
    }
}

// The states below `count`.
fn states_below(alloc: Global, count: usize) -> Result<Vec<usize>, AllocError>
    ensures { IfOk result (λ states. states.items ≡ range_with_len 0 count) }
{
    (0..count).collect(alloc)
}

// The edges after a state is eliminated.
fn eliminate(alloc: Global, edges: &[Edge], state: usize) -> Result<Vec<Edge>, AllocError>
    ensures words { IfOk result (λ rest. IsWithout (between edges.now) state (between rest.items)) }
    ensures sound { IfOk result (λ rest. AreSound edges.now → AreSound rest.items) }
{
    let turns = turns(alloc, edges, state)?;
    let mut rest = Vec::new(alloc);
    for edge in edges {
        if edge.from != state {
            if edge.to == state {
                add_exits(alloc, &mut rest, edges, edge, &turns)?;
            } else {
                add(alloc, &mut rest, edge.clone()?)?;
            }
        }
    }
    Ok(rest)
}

// Any number of turns at a state, along its edge to itself.
fn turns(alloc: Global, edges: &[Edge], state: usize) -> Result<Edge, AllocError>
    ensures words { IfOk result (λ turns. (w : List ℕ) → Matches turns.tree w
        ↔ Star (between edges.now state state) w) }
    ensures sound { IfOk result (λ turns. AreSound edges.now → IsSound turns) }
{
    let (tree, size) = match joined(alloc, edges, state, state)? {
        None => (Hir::empty(), 0),
        Some(turn) => {
            let part = Box::new(alloc, turn.tree)?;
            let tree = Hir::repetition(Repetition::new(0, None, true, part));
            (tree, turn.size.saturating_add(1))
        }
    };
    Ok(Edge {
        from: state,
        to: state,
        tree,
        size,
    })
}

// For each edge that leaves the state that `entry` enters: the edge along `entry`, the turns there, and that one.
fn add_exits(
    alloc: Global,
    rest: &mut Vec<Edge>,
    edges: &[Edge],
    entry: &Edge,
    turns: &Edge,
) -> Result<(), AllocError>
    ensures words { OnOk result (Gains (between rest.old.items)
        (Exits entry.now turns.now (between edges.now)) (between rest.new.items)) }
    ensures sound { OnOk result (AreSound edges.now → IsSound entry.now → IsSound turns.now
        → AreSound rest.old.items → AreSound rest.new.items) }
{
    for exit in edges {
        if exit.from == entry.to && exit.to != entry.to {
            add(alloc, rest, through(alloc, entry, turns, exit)?)?;
        }
    }
    Ok(())
}

// The index of the state in `left` that costs least.
fn cheapest(edges: &[Edge], left: &[usize]) -> usize
    requires { 0 < length left.now }
    ensures { result < length left.now }
{
    let mut best = 0;
    let mut least = usize::MAX;
    for (i, state) in left.iter().enumerate() {
        let cost = growth(edges, *state);
        if cost < least {
            best = i;
            least = cost;
        }
    }
    best
}

// By how much the trees grow where the state is eliminated: each edge into it is copied for each edge out of it, and the other
// way round, and its turns for each pair.
fn growth(edges: &[Edge], state: usize) -> usize {
    let (mut entries, mut exits): (usize, usize) = (0, 0);
    let (mut entry_size, mut exit_size, mut turn_size): (usize, usize, usize) = (0, 0, 0);
    for edge in edges {
        match (edge.to == state, edge.from == state) {
            (true, true) => turn_size = turn_size.saturating_add(edge.size),
            (true, false) => {
                entries = entries.saturating_add(1);
                entry_size = entry_size.saturating_add(edge.size);
            }
            (false, true) => {
                exits = exits.saturating_add(1);
                exit_size = exit_size.saturating_add(edge.size);
            }
            (false, false) => {}
        }
    }
    let more_entries = entry_size.saturating_mul(exits.saturating_sub(1));
    let more_exits = exit_size.saturating_mul(entries.saturating_sub(1));
    let more_turns = turn_size.saturating_mul(entries.saturating_mul(exits).saturating_sub(1));
    more_entries
        .saturating_add(more_exits)
        .saturating_add(more_turns)
}
