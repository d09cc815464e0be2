//! States and edges of an automaton, and the three kinds of labels.
ghost use Rattle.std.specs.Prelude.{◌≡◌, ℕ, ◌+◌, ◌<◌, List, Option, length, drop};
ghost use Rattle.std.specs.Borrow.{sem};
ghost use Rattle.lalrpop_nfa.specs.Firsts.{index_of, with_index};
ghost use Rattle.lalrpop_nfa.specs.Internal.FirstSet.{first_set};
ghost use Rattle.lalrpop_nfa.specs.Walk.{leaves};
ghost use Rattle.lalrpop_nfa.specs.Contiguous.{walk, walk_at, IsAt};

use crate::{NfaStateIndex, Test};
use std::fmt;
use std::marker::Model;

/// The label of an edge that reads nothing.
///
/// ```
/// use lalrpop_lexer::lexer::nfa::{Noop, START};
///
/// for edge in nfa.edges::<Noop>(START) {
///     let is_loop = edge.to == START;
/// }
/// ```
#[derive(Debug, PartialEq, Eq, Drop)]
pub struct Noop;

/// The label of an edge that reads a value that no test of its state covers.
///
/// ```
/// use lalrpop_lexer::lexer::nfa::{Other, START};
///
/// if let Some(edge) = nfa.edges::<Other>(START).next() {
///     let is_dead = nfa.is_rejecting_state(edge.to);
/// }
/// ```
#[derive(Debug, PartialEq, Eq, Drop)]
pub struct Other;

/// The kind of a state.
///
/// ```
/// use lalrpop_lexer::lexer::nfa::{REJECT, StateKind};
///
/// let is_dead = nfa.kind(REJECT) == StateKind::Reject; // true
/// ```
#[derive(Copy, Clone, Debug, PartialEq, Eq, PartialOrd, Ord)]
pub enum StateKind {
    /// The word that leads here matches.
    Accept,
    /// No continuation of the word that leads here matches.
    Reject,
    /// Any other state.
    Neither,
}

/// A state: its kind, and for each kind of label where its edges begin in the list of that kind.
///
/// ```
/// use lalrpop_lexer::lexer::nfa::{EdgeLabel, State, Test};
///
/// // Where the state's test edges begin in the list of all test edges, if it has any.
/// fn first_test(state: &State) -> Option<usize> {
///     *Test::first(state)
/// }
/// ```
#[derive(Debug, Drop)]
pub struct State {
    pub(super) kind: StateKind,
    pub(super) first_noop_edge: Option<usize>,
    pub(super) first_test_edge: Option<usize>,
    pub(super) first_other_edge: Option<usize>,
}

impl Model for State {
    ghost use Rattle.lalrpop_nfa.specs.StateView.{StateView};

    ghost Value = { StateView };

    ghost view = { λ s. record {
      kind = s.kind;
      first_noop_edge = s.first_noop_edge;
      first_test_edge = s.first_test_edge;
      first_other_edge = s.first_other_edge;
    } };
}

/// An edge from a state to a state.
///
/// ```
/// use lalrpop_lexer::lexer::nfa::{Edge, START, Test};
///
/// for Edge { label, to, .. } in nfa.edges::<Test>(START) {
///     let reads_a = label.contains_char('a');
/// }
/// ```
#[derive(PartialEq, Eq, Drop)]
pub struct Edge<L> {
    /// The state that it leaves.
    pub from: NfaStateIndex,
    /// What it reads.
    pub label: L,
    /// The state that it leads to.
    pub to: NfaStateIndex,
}

impl<L: fmt::Debug> fmt::Debug for Edge<L> {
    fn fmt<W: fmt::Write>(&self, f: &mut fmt::Formatter<W>) -> fmt::Result {
        let from = self.from;
        let label = &self.label;
        let to = self.to;
        write!(f, "{from:?} -{label:?}-> {to:?}")
    }
}

/// The edges of an automaton: a list for each kind of label, in which the edges of one state are contiguous.
///
/// ```
/// use lalrpop_lexer::lexer::nfa::{EdgeLabel, Edges};
///
/// fn count<L: EdgeLabel>(edges: &Edges) -> usize {
///     L::vec(edges).len()
/// }
/// ```
#[derive(Debug, Drop)]
pub struct Edges {
    pub(super) noop_edges: Vec<Edge<Noop>>,
    pub(super) test_edges: Vec<Edge<Test>>,
    pub(super) other_edges: Vec<Edge<Other>>,
}

impl Model for Edges {
    ghost use Rattle.lalrpop_nfa.specs.Graph.{Lists};

    ghost Value = { Lists };

    ghost view = { λ e. record {
      noops = e.noop_edges.items;
      tests = e.test_edges.items;
      others = e.other_edges.items;
    } };
}

/// A kind of label, with its list of edges and its index in a state. Writing through the `_mut` calls changes neither the
/// lists nor the indices of the other kinds.
///
/// ```
/// use lalrpop_lexer::lexer::nfa::{EdgeLabel, Nfa, START};
///
/// fn leaves_start<L: EdgeLabel>(nfa: &Nfa) -> bool {
///     nfa.edges::<L>(START).next().is_some()
/// }
/// ```
pub trait EdgeLabel: Sized {
    ghost use Rattle.std.specs.Prelude.{Some, None};
    ghost use Rattle.lalrpop_nfa.specs.declared.edge.Edge.{Edge};
    ghost use Rattle.lalrpop_nfa.specs.declared.edge.State.{State};
    ghost use Rattle.lalrpop_nfa.specs.Graph.{Lists};
    ghost use Rattle.lalrpop_nfa.specs.Firsts.{LabelKind, SameListsBut, index_of, with_index};
    ghost use Rattle.lalrpop_nfa.specs.Contiguous.{IsContiguous, AreContiguous};
    ghost use Rattle.lalrpop_nfa.specs.Lending.{LendsList, LendsFirst};

    // Which of the three lists, and which of the three indices, belong to this label.
    ghost kind: { LabelKind };

    ghost list: { Lists → List (Edge Self) };

    ghost with_list: { Lists → List (Edge Self) → Lists };

    fn vec_mut(nfa: &mut Edges) -> &mut Vec<Edge<Self>>
        ensures* writes_back { sem 𝓛 (LendsList Self.row nfa.entry result (with_list nfa.old)) }
        ensures value { result.now.items ≡ list nfa.old };

    fn vec(nfa: &Edges) -> &Vec<Edge<Self>>
        ensures value { result.now.items ≡ list nfa.now };

    fn first_mut(state: &mut State) -> &mut Option<usize>
        ensures* writes_back { sem 𝓛 (LendsFirst state.entry result (with_index kind state.old)) }
        ensures value { result.now ≡ index_of kind state.old };

    fn first(state: &State) -> &Option<usize>
        ensures value { result.now ≡ index_of kind state.now };

    // The list is what was written to it, and the other two lists stay.
    ghost list_written: { (e : Lists) (es : List (Edge Self)) → list (with_list e es) ≡ es };

    ghost list_unwritten: { (e : Lists) → with_list e (list e) ≡ e };

    ghost other_lists_kept: { (e : Lists) (es : List (Edge Self))
        → SameListsBut kind e (with_list e es) };

    // The edges of this kind are contiguous in this list, from this index on.
    ghost run_in: { (e : Lists) (s : State) (q : ℕ) → AreContiguous kind e s q
        → IsContiguous q (list e) (index_of kind s) };

    ghost run_out: { (e : Lists) (s : State) (q : ℕ) → IsContiguous q (list e) (index_of kind s)
        → AreContiguous kind e s q };
}

impl EdgeLabel for Noop {
    ghost use Rattle.lalrpop_nfa.specs.Firsts.{Noops};
    ghost use Rattle.std.specs.Prelude.{refl};

    ghost kind = { Noops };

    ghost list = { λ e. e.noops };

    ghost with_list = { λ e es. record e { noops = es } };

    ghost list_written = { λ e v. refl };

    ghost list_unwritten = { λ e. refl };

    ghost other_lists_kept = { λ e v. (refl, refl) };

    ghost run_in = { λ e s q r. r };

    ghost run_out = { λ e s q r. r };

    fn vec_mut(nfa: &mut Edges) -> &mut Vec<Edge<Noop>> {
        &mut nfa.noop_edges
    }

    fn vec(nfa: &Edges) -> &Vec<Edge<Noop>> {
        &nfa.noop_edges
    }

    fn first_mut(state: &mut State) -> &mut Option<usize> {
        &mut state.first_noop_edge
    }

    fn first(state: &State) -> &Option<usize> {
        &state.first_noop_edge
    }
}

impl EdgeLabel for Test {
    ghost use Rattle.lalrpop_nfa.specs.Firsts.{Tests};
    ghost use Rattle.std.specs.Prelude.{refl};

    ghost kind = { Tests };

    ghost list = { λ e. e.tests };

    ghost with_list = { λ e es. record e { tests = es } };

    ghost list_written = { λ e v. refl };

    ghost list_unwritten = { λ e. refl };

    ghost other_lists_kept = { λ e v. (refl, refl) };

    ghost run_in = { λ e s q r. r };

    ghost run_out = { λ e s q r. r };

    fn vec_mut(nfa: &mut Edges) -> &mut Vec<Edge<Test>> {
        &mut nfa.test_edges
    }

    fn vec(nfa: &Edges) -> &Vec<Edge<Test>> {
        &nfa.test_edges
    }

    fn first_mut(state: &mut State) -> &mut Option<usize> {
        &mut state.first_test_edge
    }

    fn first(state: &State) -> &Option<usize> {
        &state.first_test_edge
    }
}

impl EdgeLabel for Other {
    ghost use Rattle.lalrpop_nfa.specs.Firsts.{Others};
    ghost use Rattle.std.specs.Prelude.{refl};

    ghost kind = { Others };

    ghost list = { λ e. e.others };

    ghost with_list = { λ e es. record e { others = es } };

    ghost list_written = { λ e v. refl };

    ghost list_unwritten = { λ e. refl };

    ghost other_lists_kept = { λ e v. (refl, refl) };

    ghost run_in = { λ e s q r. r };

    ghost run_out = { λ e s q r. r };

    fn vec_mut(nfa: &mut Edges) -> &mut Vec<Edge<Other>> {
        &mut nfa.other_edges
    }

    fn vec(nfa: &Edges) -> &Vec<Edge<Other>> {
        &nfa.other_edges
    }

    fn first_mut(state: &mut State) -> &mut Option<usize> {
        &mut state.first_other_edge
    }

    fn first(state: &State) -> &Option<usize> {
        &state.first_other_edge
    }
}

// Sets the index, unless the state already has a first index of this kind.
pub(super) fn set_first<L: EdgeLabel>(state: &mut State, edge_index: usize)
    ensures { state.new
        ≡ with_index L.kind state.old (first_set (index_of L.kind state.old) edge_index) }
{
    let first = L::first_mut(state);
    if first.is_none() {
        *first = Some(edge_index);
    }
}

/// The edges of one label kind that leave one state, in the order of the list of that kind.
///
/// ```
/// use lalrpop_lexer::lexer::nfa::{START, Test};
///
/// let mut edges = nfa.edges::<Test>(START);
/// let first = edges.next();
/// ```
#[derive(Drop)]
pub struct EdgeIterator<'nfa, L: EdgeLabel> {
    pub(super) edges: &'nfa [Edge<L>],
    pub(super) from: NfaStateIndex,
    pub(super) index: Option<usize>,
}

impl<'nfa, L: EdgeLabel> Model for EdgeIterator<'nfa, L> {
    ghost use Rattle.std.specs.Prelude.{List};
    ghost use Rattle.lalrpop_nfa.specs.declared.edge.Edge.{Edge};
    ghost use Rattle.lalrpop_nfa.specs.Contiguous.{walk_at, IsAt};

    ghost Value = { List (Edge L) };

    ghost view = { λ it. walk_at it.from it.edges.now it.index };

    ghost invariant = { λ it. IsAt it.from it.edges.now it.index };
}

impl<'nfa, L: EdgeLabel> Iterator for EdgeIterator<'nfa, L> {
    ghost use Rattle.std.specs.Iterator.{YieldsFirstRef, item_count};

    type Item = &'nfa Edge<L>;

    ghost next_gives = { YieldsFirstRef (λ s. s) };

    ghost remaining = { item_count (λ s. s) };

    fn next(&mut self) -> Option<&'nfa Edge<L>> {
        let index = self.index?;
        self.index = index_after(self.edges, self.from, index);
        Some(&self.edges[index])
    }
}

// The index of the next edge in the list, if it leaves this state.
fn index_after<L: EdgeLabel>(edges: &[Edge<L>], from: NfaStateIndex, index: usize) -> Option<usize>
    requires is_edge { index < length edges.now }
    ensures at { IsAt from edges.now result }
    ensures walk { walk_at from edges.now result
        ≡ walk (leaves from) (drop (index + 1) edges.now) }
{
    let next_index = index + 1;
    if next_index < edges.len() && edges[next_index].from == from {
        Some(next_index)
    } else {
        None
    }
}
