//! Whether a match by one pattern can run on into a match by another that stands right after it.

ghost use Rattle.std.specs.Prelude.{◌≡◌, ℕ, ◌<◌, ◌↔◌, length, slice_get, Some, true, false, IsTrue, IfOk, OnOk};
ghost use Rattle.lalrpop_hir.specs.Range.{Range};
ghost use Rattle.lalrpop_dfa.specs.Dfa.{IsWellFormed};
ghost use Rattle.lalrpop_dfa.specs.Follow.{RunsOn};
ghost use Rattle.lalrpop_dfa.specs.Lookahead.{Accepted, AcceptedAs};
ghost use Rattle.lalrpop_dfa.specs.Internal.Fitting.{Fits, FitsAtBorder, HasFitting, NoBorderFits, OtherLeadsInto, OthersFit, RunsOnFrom};
ghost use Rattle.lalrpop_dfa.specs.Internal.Marks.{AreMarked, IsAcceptingAs, LeadsOnTo};

use super::{Dfa, DfaStateIndex, Kind, NfaIndex, START};
use crate::lookahead::mark;
use crate::reach::{leading_states, live_states, reached_states};
use lalrpop_hir::Test;
use std::alloc::{AllocError, Global};

// Whether a state of this kind accepts the pattern.
fn accepts(kind: &Kind, pattern: NfaIndex) -> bool
    ensures { IsTrue result ↔ (kind.now ≡ Kind.Accepts pattern) }
{
    match kind {
        Kind::Accepts(index) => *index == pattern,
        Kind::Reject | Kind::Neither => false,
    }
}

// The states that accept the pattern.
fn states_of(alloc: Global, dfa: &Dfa, pattern: NfaIndex) -> Result<Vec<bool>, AllocError>
    ensures marks { IfOk result (λ marks.
        AreMarked dfa.now (IsAcceptingAs dfa.now pattern) marks.items) }
    ensures well_formed { OnOk result (IsWellFormed dfa.now) }
{
    let mut marks = Vec::new(alloc);
    for state in dfa.states() {
        marks.push(accepts(state.kind(), pattern))?;
    }
    Ok(marks)
}

// The states from which some word leads to one that accepts the pattern.
fn states_toward(alloc: Global, dfa: &Dfa, pattern: NfaIndex) -> Result<Vec<bool>, AllocError>
    ensures { IfOk result (λ marks.
        AreMarked dfa.now (LeadsOnTo dfa.now (IsAcceptingAs dfa.now pattern)) marks.items) }
{
    leading_states(dfa, states_of(alloc, dfa, pattern)?)
}

// Whether the value leads from the state to a live one, and from START to one toward the second pattern.
fn fits(dfa: &Dfa, state: DfaStateIndex, value: u32, live: &[bool], toward: &[bool]) -> bool
    requires within { state < length dfa.now }
    requires live { length live.now ≡ length dfa.now }
    requires toward { length toward.now ≡ length dfa.now }
    ensures { IsTrue result ↔ Fits dfa.now live.now toward.now state value }
{
    live[dfa.step(state, value).index()] && toward[dfa.step(START, value).index()]
}

// Whether a border of the test fits: its first value, or the one after its last, if that one is a value of 32 bits.
fn fits_at_border(
    dfa: &Dfa,
    state: DfaStateIndex,
    test: &Test,
    live: &[bool],
    toward: &[bool],
) -> bool
    requires within { state < length dfa.now }
    requires live { length live.now ≡ length dfa.now }
    requires toward { length toward.now ≡ length dfa.now }
    ensures fits { IsTrue result ↔ FitsAtBorder dfa.now live.now toward.now state test.now }
    ensures range { test.now.end < 4294967296 }
{
    let last = test.end();
    if fits(dfa, state, test.start(), live, toward) {
        return true;
    }
    match last.checked_add(1) {
        Some(after) => fits(dfa, state, after, live, toward),
        None => false,
    }
}

// Whether a border of one of the tests fits.
fn any_border_fits(
    dfa: &Dfa,
    state: DfaStateIndex,
    tests: &[(Test, DfaStateIndex)],
    live: &[bool],
    toward: &[bool],
) -> bool
    requires within { state < length dfa.now }
    requires live { length live.now ≡ length dfa.now }
    requires toward { length toward.now ≡ length dfa.now }
    ensures some { IsTrue result → HasFitting dfa.now live.now toward.now state }
    ensures none { result ≡ false → NoBorderFits dfa.now live.now toward.now state tests.now }
{
    for (test, _) in tests {
        if fits_at_border(dfa, state, test, live, toward) {
            return true;
        }
    }
    false
}

// Whether the state's other edge leads to a marked state.
fn other_leads_into(dfa: &Dfa, state: DfaStateIndex, marks: &[bool]) -> bool
    requires within { state < length dfa.now }
    requires same_length { length marks.now ≡ length dfa.now }
    ensures { IsTrue result ↔ OtherLeadsInto dfa.now marks.now state }
{
    marks[dfa.state(state).other_edge().index()]
}

// Whether the other edges lead from the state to a live one, and from START to one toward the second pattern.
fn others_fit(dfa: &Dfa, state: DfaStateIndex, live: &[bool], toward: &[bool]) -> bool
    requires within { state < length dfa.now }
    requires live { length live.now ≡ length dfa.now }
    requires toward { length toward.now ≡ length dfa.now }
    ensures { IsTrue result ↔ OthersFit dfa.now live.now toward.now state }
{
    other_leads_into(dfa, state, live) && other_leads_into(dfa, START, toward)
}

// Whether some value leads from the state to a live one, and from START to one toward the second pattern.
//
// Where the values lead changes only at the borders of tests. The greatest values, which no test has, lead along the other edges.
fn has_fitting(dfa: &Dfa, state: DfaStateIndex, live: &[bool], toward: &[bool]) -> bool
    requires within { state < length dfa.now }
    requires live { length live.now ≡ length dfa.now }
    requires toward { length toward.now ≡ length dfa.now }
    ensures { IsTrue result ↔ HasFitting dfa.now live.now toward.now state }
{
    if others_fit(dfa, state, live, toward) {
        return true;
    }
    any_border_fits(dfa, state, dfa.test_edges(state), live, toward)
        || any_border_fits(dfa, state, dfa.test_edges(START), live, toward)
}

// The pattern that the state accepts, if it is among those reached and a match that leads to it runs on.
fn running_on_from(
    dfa: &Dfa,
    state: DfaStateIndex,
    reached: &[bool],
    live: &[bool],
    toward: &[bool],
) -> Option<usize>
    requires within { state < length dfa.now }
    requires reached { length reached.now ≡ length dfa.now }
    requires live { length live.now ≡ length dfa.now }
    requires toward { length toward.now ≡ length dfa.now }
    ensures { (i : ℕ) → (result ≡ Some i)
        ↔ RunsOnFrom dfa.now reached.now live.now toward.now i state }
{
    if !reached[state.index()] {
        return None;
    }
    match dfa.state(state).kind() {
        Kind::Accepts(index) => {
            if has_fitting(dfa, state, live, toward) {
                Some(index.index())
            } else {
                None
            }
        }
        _ => None,
    }
}

/// For each of `count` patterns, in order, whether a nonempty match by it can run on into one by the pattern `second`: some match
/// begins with a match by the one and, after it, the first value of a match by the other. Then the two can't stand side by side,
/// since the first may be read on into the second.
///
/// For each state that accepts a pattern, two values are tried at each of its test edges, and at each of START's.
///
/// # Errors
///
/// `AllocError` if a request for memory was refused.
pub fn running_on(
    alloc: Global,
    dfa: &Dfa,
    count: usize,
    second: NfaIndex,
) -> Result<Vec<bool>, AllocError>
    ensures same_length { IfOk result (λ found. length found.items ≡ count) }
    ensures each { IfOk result (λ found. (i : ℕ) → i < count
        → (slice_get found.items i ≡ Some true)
        ↔ RunsOn (Accepted dfa.now) (AcceptedAs dfa.now i) (AcceptedAs dfa.now second)) }
{
    let reached = reached_states(alloc, dfa)?;
    let live = live_states(alloc, dfa)?;
    let toward = states_toward(alloc, dfa, second)?;
    let mut found = vec![in alloc; false; count]?;
    for number in 0..live.len() {
        let state = DfaStateIndex::new(number);
        mark(
            &mut found,
            running_on_from(dfa, state, &reached, &live, &toward),
        );
    }
    Ok(found)
}
