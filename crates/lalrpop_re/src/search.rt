//! The automaton that searches for the first end. In state k the text read so far ends with the first k characters of the end,
//! and not with more of them.
ghost use Rattle.std.specs.Prelude.{◌≡◌, ℕ, ◌+◌, ◌<◌, ◌≤◌, ◌⊎◌, ◌↔◌, List, [], ◌∷◌, length, All, IfOk, OnOk, None};
ghost use Rattle.std.specs.Str.{chars};
ghost use Rattle.lalrpop_hir.specs.Range.{Covered};
ghost use Rattle.lalrpop_hir.specs.Tree.{class, unicode};
ghost use Rattle.lalrpop_hir.specs.Parts.{of_text};
ghost use Rattle.lalrpop_hir.specs.Runs.{IsCanon, IsScalar};
ghost use Rattle.lalrpop_re.specs.Internal.Walks.{Reads};
ghost use Rattle.lalrpop_re.specs.Internal.Edges.{between, AreSound};
ghost use Rattle.lalrpop_re.specs.Internal.Steps.{IsStep, Automaton, AddsSteps};

use crate::edge::Edge;
use lalrpop_hir::{Class, ClassUnicode, ClassUnicodeRange, Hir};
use std::alloc::{AllocError, Global};

/// The edges of the automaton: those of the search, whose state `end.len()` is reached where the end is read, and one that
/// leads along `start` from the state `end.len() + 1` into the search.
pub(crate) fn automaton(alloc: Global, start: &str, end: &[char]) -> Result<Vec<Edge>, AllocError>
    requires short { length end.now ≤ 64 }
    requires scalars { All IsScalar end.now }
    ensures words { IfOk result (λ edges.
        Reads (Automaton (chars start.now) end.now) (between edges.items)) }
    ensures sound { IfOk result (λ edges. AreSound edges.items) }
{
    let mut edges = Vec::new(alloc);
    edges.push(beginning(alloc, start, end.len() + 1)?)?;
    for state in 0..end.len() {
        add_steps(alloc, &mut edges, end, state)?;
    }
    Ok(edges)
}

// The edge along `start` into the search.
fn beginning(alloc: Global, start: &str, from: usize) -> Result<Edge, AllocError>
    ensures from { IfOk result (λ edge. edge.from ≡ from) }
    ensures to { IfOk result (λ edge. edge.to ≡ 0) }
    ensures tree { IfOk result (λ edge. edge.tree ≡ of_text start.now) }
{
    Ok(Edge {
        from,
        to: 0,
        tree: Hir::literal(alloc, start)?,
        size: start.len(),
    })
}

// Adds the edges from a state: one for each character that leads on, and one back to state 0 for all others. The edge to
// state i + 1 can only be that of the character end[i].
fn add_steps(
    alloc: Global,
    edges: &mut Vec<Edge>,
    end: &[char],
    state: usize,
) -> Result<(), AllocError>
    requires there { state < length end.now }
    requires scalars { All IsScalar end.now }
    ensures words { OnOk result
        (AddsSteps end.now state (between edges.old.items) (between edges.new.items)) }
    ensures sound { OnOk result (AreSound edges.old.items → AreSound edges.new.items) }
{
    let mut ranges = Vec::new(alloc);
    for i in 0..state + 1 {
        let c = end[i];
        if next_state(end, state, c) == i + 1 {
            ranges.push(ClassUnicodeRange::new(c, c))?;
            edges.push(step(state, i + 1, only(alloc, c)?))?;
        }
    }
    edges.push(step(state, 0, others(alloc, ranges)?))?;
    Ok(())
}

// The class of one character.
fn only(alloc: Global, c: char) -> Result<ClassUnicode, AllocError>
    ensures { IfOk result (λ class. IsCanon (λ d. d ≡ c) class) }
{
    ClassUnicode::new(alloc, vec![in alloc; ClassUnicodeRange::new(c, c)]?)
}

// The class of all characters outside of the ranges.
fn others(alloc: Global, ranges: Vec<ClassUnicodeRange>) -> Result<ClassUnicode, AllocError>
    ensures { IfOk result (λ class. IsCanon (λ c. ¬ Covered ranges.items c) class) }
{
    let class = ClassUnicode::new(alloc, ranges)?;
    class.complement(alloc)
}

// The edge along which one character of the class leads.
fn step(from: usize, to: usize, members: ClassUnicode) -> Edge
    ensures from { result.from ≡ from }
    ensures to { result.to ≡ to }
    ensures tree { result.tree ≡ class (unicode members) }
{
    Edge {
        from,
        to,
        tree: Hir::class(Class::Unicode(members)),
        size: 1,
    }
}

// The state after the character `c` in a state. It is not only the next one or 0: in `aab` the third `a` of `aaa` leads back to
// the second.
fn next_state(end: &[char], state: usize, c: char) -> usize
    requires { state < length end.now }
    ensures { IsStep end.now state c result }
{
    let mut read = state + 1;
    while read > 0 {
        if end[read - 1] == c && end[..state].ends_with(&end[..read - 1]) {
            return read;
        }
        read -= 1;
    }
    0
}
