//! Kinds of labels: their list of edges, and their index in a state.

ghost use Rattle.std.specs.Prelude.{◌≡◌, ◌++◌, [], None, length, is_some, option_to_list};
ghost use Rattle.lalrpop_nfa.specs.Firsts.{SameListsBut, index_of, with_index};

use lalrpop_nfa::{Edge, EdgeLabel, Edges, Noop, Other, State, Test};

// Needs lalrpop_nfa::EdgeLabel::vec: value.
/// How many edges have labels of this kind.
pub fn edge_count<L: EdgeLabel>(edges: &Edges) -> usize
    ensures { result ≡ length (L.list edges.now) }
{
    L::vec(edges).len()
}

// Needs lalrpop_nfa::EdgeLabel::vec_mut: value, writes_back.
// Needs lalrpop_nfa::EdgeLabel: ghost list_written.
/// Takes out the last edge with a label of this kind.
pub fn take_last<L: EdgeLabel>(edges: &mut Edges) -> Option<Edge<L>>
    ensures { L.list edges.old ≡ L.list edges.new ++ option_to_list result }
{
    L::vec_mut(edges).pop()
}

// Needs lalrpop_nfa::EdgeLabel::vec_mut: writes_back.
// Needs lalrpop_nfa::EdgeLabel: ghost other_lists_kept.
/// Takes out all edges with labels of this kind, and no others.
pub fn clear<L: EdgeLabel + Drop>(edges: &mut Edges)
    ensures cleared { edges.new ≡ L.with_list edges.old [] }
    ensures others { SameListsBut L.kind edges.old edges.new }
{
    L::vec_mut(edges).clear();
}

// Needs lalrpop_nfa::EdgeLabel::first: value.
/// Whether an edge of this kind leaves the state.
pub fn has_edge<L: EdgeLabel>(state: &State) -> bool
    ensures { result ≡ is_some (index_of L.kind state.now) }
{
    L::first(state).is_some()
}

// Needs lalrpop_nfa::EdgeLabel::first_mut: value, writes_back.
/// Takes out the place of the first edge of this kind.
pub fn take_first<L: EdgeLabel>(state: &mut State) -> Option<usize>
    ensures place { result ≡ index_of L.kind state.old }
    ensures state { state.new ≡ with_index L.kind state.old None }
{
    L::first_mut(state).take()
}

// Needs lalrpop_nfa::Noop::vec_mut: ghost with_list.
// Needs lalrpop_nfa::Test::vec_mut: ghost with_list.
// Needs lalrpop_nfa::Other::vec_mut: ghost with_list.
/// Takes out the edges of each kind.
pub fn clear_all(edges: &mut Edges)
    ensures { edges.new ≡ record { noops = []; tests = []; others = [] } }
{
    clear::<Noop>(edges);
    clear::<Test>(edges);
    clear::<Other>(edges);
}

// Needs lalrpop_nfa::Noop::first: ghost kind.
// Needs lalrpop_nfa::Test::first: ghost kind.
// Needs lalrpop_nfa::Other::first: ghost kind.
/// Whether edges of each kind leave the state: those that read nothing, those with a range, and others.
pub fn has_edges(state: &State) -> (bool, bool, bool)
    ensures noops { result.0 ≡ is_some state.now.first_noop_edge }
    ensures tests { result.1 ≡ is_some state.now.first_test_edge }
    ensures others { result.2 ≡ is_some state.now.first_other_edge }
{
    (
        has_edge::<Noop>(state),
        has_edge::<Test>(state),
        has_edge::<Other>(state),
    )
}
