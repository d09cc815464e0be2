//! The automaton of a list of patterns, run over a text that comes in parts.

ghost use Rattle.std.specs.Prelude.{◌≡◌, ◌<◌, ◌++◌, ◌∷◌, [], ℕ, List, length};
ghost use Rattle.std.specs.Str.{chars};
ghost use Rattle.lalrpop_hir.specs.Tree.{Tree};
ghost use Rattle.lalrpop_dfa.specs.Dfa.{run, after, Recognizes, IsRightKind};

use lalrpop_dfa::{Dfa, DfaStateIndex, Kind, START};

// Needs lalrpop_dfa::Dfa::step: leads, within.
/// The state that a part of a text leads to from this one.
pub fn state_behind(dfa: &Dfa, from: DfaStateIndex, part: &str) -> DfaStateIndex
    requires { from < length dfa.now }
    ensures leads { result ≡ run dfa.now from (chars part.now) }
    ensures within { result < length dfa.now }
{
    let mut state = from;
    for c in part.chars() {
        state = dfa.step(state, u32::from(c));
    }
    state
}

/// What is known of a text that comes in two parts.
pub fn kind_of_parts<'dfa>(dfa: &'dfa Dfa, first: &str, second: &str) -> &'dfa Kind
    ensures { (ts : List Tree) (ps : List ℕ) → Recognizes dfa.now ts ps
        → IsRightKind ts ps (chars (first.now ++ second.now)) result.now }
{
    // There is a state, so START is one.
    let _states = dfa.states();
    let between = state_behind(dfa, START, first);
    let state = state_behind(dfa, between, second);
    dfa.state(state).kind()
}

// Needs lalrpop_dfa::Dfa::step: leads.
/// The state after one more character, if `state` is the state after what was read.
pub fn state_behind_one_more(dfa: &Dfa, state: DfaStateIndex, read: &str, c: char) -> DfaStateIndex
    requires { state ≡ after dfa.now (chars read.now) }
    ensures { result ≡ after dfa.now (chars read.now ++ c ∷ []) }
{
    let _states = dfa.states();
    dfa.step(state, u32::from(c))
}
