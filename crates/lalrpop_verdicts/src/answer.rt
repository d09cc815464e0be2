//! What an automaton answers.
ghost use Rattle.std.specs.Prelude.{◌≡◌, slice_get};
ghost use Rattle.lalrpop_verdicts.specs.Answers.{accepted_at, accepted_by};

use lalrpop_dfa::{Dfa, DfaStateIndex, Kind, NfaIndex};

/// The pattern that a state of this kind accepts, if it accepts one.
pub(crate) fn accepted_by(kind: &Kind) -> Option<NfaIndex>
    ensures accepted { result ≡ accepted_by kind.now }
{
    match kind {
        Kind::Accepts(index) => Some(*index),
        Kind::Reject | Kind::Neither => None,
    }
}

/// The pattern that the state accepts, if there is such a state and it accepts one.
pub(crate) fn accepted(dfa: &Dfa, state: DfaStateIndex) -> Option<NfaIndex>
    ensures accepted { result ≡ accepted_at (slice_get dfa.now state) }
{
    accepted_by(dfa.states().get(state.index())?.kind())
}
