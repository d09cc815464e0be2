//! Equality of states and of automata.

ghost use Rattle.std.specs.Prelude.{◌≡◌, ◌↔◌, ◌<◌, IsTrue, Some, length, slice_get};
ghost use Rattle.std.specs.Cmp;
ghost use Rattle.lalrpop_dfa.specs.Dfa.{Row, bare};
ghost use Rattle.lalrpop_dfa.specs.SameAutomata.{same_state, same_row, same_automaton, IsSameState, IsSameAutomaton};
ghost use Rattle.lalrpop_dfa.specs.Internal.SameLaws.{stored_equiv, automaton_equiv};

use super::{Dfa, DfaStateIndex, State};

impl PartialEq for State {
    ghost eq = { λ s t. same_state (bare s) (bare t) };

    ghost laws = { Cmp.partial_equiv_from_equiv stored_equiv };

    /// Whether the kinds and the other edges are equal. Test edges are compared by the `eq` of the automata.
    fn eq(&self, other: &State) -> bool
        ensures same { IsTrue result ↔ IsSameState (bare self.now) (bare other.now) }
    {
        self.kind == other.kind && self.other_edge == other.other_edge
    }
}

impl Eq for State {
    ghost laws = { stored_equiv };
}

impl PartialEq for Dfa {
    ghost eq = { same_automaton };

    ghost laws = { Cmp.partial_equiv_from_equiv automaton_equiv };

    /// Whether both have the same number of states, and at each number equal states with equal test edges.
    fn eq(&self, other: &Dfa) -> bool
        ensures same { IsTrue result ↔ IsSameAutomaton self.now other.now }
    {
        if self.rows.len() != other.rows.len() {
            return false;
        }
        for number in 0..self.rows.len() {
            if !is_same_at(self, other, DfaStateIndex::new(number)) {
                return false;
            }
        }
        true
    }
}

impl Eq for Dfa {
    ghost laws = { automaton_equiv };
}

// Whether the states with this number are equal, and so are their test edges.
fn is_same_at(left: &Dfa, right: &Dfa, index: DfaStateIndex) -> bool
    requires left { index < length left.now }
    requires right { index < length right.now }
    ensures { (r s : Row) → slice_get left.now index ≡ Some r → slice_get right.now index ≡ Some s
        → result ≡ same_row r s }
{
    left.state(index) == right.state(index) && left.test_edges(index) == right.test_edges(index)
}
