//! The least value that leads from a state to one of some states.

ghost use Rattle.std.specs.Prelude.{◌≡◌, ◌<◌, ◌↔◌, length, IsTrue};
ghost use Rattle.lalrpop_dfa.specs.Dfa.{IsWellFormed};
ghost use Rattle.lalrpop_dfa.specs.Internal.Ranks.{IsLeastInto, IsWanted};

use crate::{Dfa, DfaStateIndex};

// Whether the state's rank is one of those from `least` to `most`.
fn is_wanted(ranks: &[usize], state: DfaStateIndex, least: usize, most: usize) -> bool
    requires { state < length ranks.now }
    ensures { IsTrue result ↔ IsWanted ranks.now least most state }
{
    let rank = ranks[state.index()];
    least <= rank && rank <= most
}

// The least value that leads from the state to one whose rank is one of those from `least` to `most`; `None` if none does.
pub(crate) fn least_value(
    dfa: &Dfa,
    state: DfaStateIndex,
    ranks: &[usize],
    least: usize,
    most: usize,
) -> Option<u32>
    requires within { state < length dfa.now }
    requires same_length { length ranks.now ≡ length dfa.now }
    ensures least { IsLeastInto dfa.now (IsWanted ranks.now least most) state result }
    ensures well_formed { IsWellFormed dfa.now }
{
    let by_other = is_wanted(ranks, dfa.state(state).other_edge(), least, most);
    // The least value after the edges so far: the values below it lead to no such state.
    let mut next: u64 = 0;
    for (test, target) in dfa.test_edges(state) {
        if by_other && next < u64::from(test.start()) {
            return Some(next as u32);
        }
        if is_wanted(ranks, *target, least, most) {
            return Some(test.start());
        }
        next = u64::from(test.end()) + 1;
    }
    if by_other {
        u32::try_from(next).ok()
    } else {
        None
    }
}
