//! The patterns of an automaton.
ghost use Rattle.std.specs.Prelude.{◌≡◌, ◌≤◌, ℕ, MatchOption};
ghost use Rattle.lalrpop_emit.specs.EmitErrors.{IsAccepted};
ghost use Rattle.lalrpop_emit.specs.Internal.Lists.{AreBelow};

use lalrpop_dfa::{Dfa, DfaStateIndex, Kind};

/// A pattern that some state accepts and that isn't among the first `count`, if there is one.
pub(crate) fn unnamed_pattern(dfa: &Dfa, count: usize) -> Option<usize>
    ensures { MatchOption result (AreBelow dfa.now count)
        (λ pattern. (count ≤ pattern) × IsAccepted dfa.now pattern) }
{
    for number in 0..dfa.states().len() {
        if let Kind::Accepts(pattern) = dfa.state(DfaStateIndex::new(number)).kind() {
            let pattern = pattern.index();
            if pattern >= count {
                return Some(pattern);
            }
        }
    }
    None
}
