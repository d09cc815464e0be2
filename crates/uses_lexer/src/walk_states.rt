//! The states and edges of the automaton of a list of patterns.

ghost use Rattle.std.specs.Prelude.{◌≡◌, ◌<◌, length, slice_get, IsSomeAnd, IfOk, IsTrue, ◌↔◌};
ghost use Rattle.std.specs.List.{list_any};
ghost use Rattle.lalrpop_build.specs.Items.{OthersReject};
ghost use Rattle.lalrpop_dfa.specs.Dfa.{IsStored, AreStored, IsWellFormed, bare};
ghost use Rattle.lalrpop_dfa.specs.SameAutomata.{same_state, same_automaton, IsSameState, IsSameAutomaton};
ghost use Rattle.lalrpop_dfa.specs.declared.Kind.TheVariants.{Reject};

use lalrpop_dfa::{Dfa, DfaStateIndex, Kind, START, State};
use lalrpop_hir::Test;
use std::alloc::AllocError;

// Needs lalrpop_dfa::Dfa::states: states, well_formed.
/// All states. There is at least one: the first is START.
pub fn all_states(dfa: &Dfa) -> &[State]
    ensures states { AreStored dfa.now result.now }
    ensures well_formed { IsWellFormed dfa.now }
    ensures start { 0 < length result.now }
{
    dfa.states()
}

// Needs lalrpop_dfa::Dfa::state: at, well_formed.
// Needs lalrpop_dfa::State::kind: kind.
// Needs lalrpop_dfa::State::other_edge: other.
/// What the state says that values lead to which no test edge holds: nothing is matched from there on.
pub fn kind_behind_other(dfa: &Dfa, index: DfaStateIndex) -> &Kind
    requires others { OthersReject dfa.now }
    requires within { index < length dfa.now }
    ensures { result.now ≡ Reject }
{
    let other = dfa.state(index).other_edge();
    dfa.state(other).kind()
}

// Needs lalrpop_dfa::Dfa::test_edges: tests, well_formed.
/// The test edges of the state, and that they lead to states.
pub fn edges_at(dfa: &Dfa, index: DfaStateIndex) -> &[(Test, DfaStateIndex)]
    requires { index < length dfa.now }
    ensures tests { IsSomeAnd (slice_get dfa.now index) (λ r. result.now ≡ r.tests) }
    ensures well_formed { IsWellFormed dfa.now }
{
    dfa.test_edges(index)
}

// Needs lalrpop_dfa::Dfa::clone: ghost is_clone.
/// A copy of the automaton.
pub fn copy_of(dfa: &Dfa) -> Result<Dfa, AllocError>
    ensures { IfOk result (λ copy. copy ≡ dfa.now) }
{
    dfa.clone()
}

// Needs lalrpop_dfa::State::clone: ghost is_clone.
/// A copy of START.
pub fn copy_of_start(dfa: &Dfa) -> Result<State, AllocError>
    ensures { IfOk result (λ start. IsSomeAnd (slice_get dfa.now 0) (λ r. IsStored r start)) }
{
    dfa.states()[START.index()].clone()
}

// Needs lalrpop_dfa::State::eq: same.
/// Whether the states are equal but for their test edges.
pub fn are_alike(left: &State, right: &State) -> bool
    ensures same { IsTrue result ↔ IsSameState (bare left.now) (bare right.now) }
{
    *left == *right
}

// Needs lalrpop_dfa::State::eq: ghost eq.
/// Whether some of the states is equal to this one but for its test edges.
pub fn is_among(states: &[State], state: &State) -> bool
    ensures { result ≡ list_any (λ s. same_state (bare s) (bare state.now)) states.now }
{
    states.contains(state)
}

// Needs lalrpop_dfa::Dfa::eq: same.
/// Whether the automata are equal.
pub fn are_equal(left: &Dfa, right: &Dfa) -> bool
    ensures same { IsTrue result ↔ IsSameAutomaton left.now right.now }
{
    *left == *right
}

// Needs lalrpop_dfa::Dfa::eq: ghost eq.
/// Whether the automaton is one of these.
pub fn is_one_of(automata: &[Dfa], dfa: &Dfa) -> bool
    ensures { result ≡ list_any (λ d. same_automaton d dfa.now) automata.now }
{
    automata.contains(dfa)
}
