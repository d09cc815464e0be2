//! Which states some word leads to, and from which states some word leads to a match.

ghost use Rattle.std.specs.Prelude.{◌≡◌, ℕ, ◌<◌, ◌⊎◌, ◌↔◌, length, IsTrue, IfOk, OnOk};
ghost use Rattle.lalrpop_dfa.specs.Dfa.{IsWellFormed};
ghost use Rattle.lalrpop_dfa.specs.Internal.Marks.{AreAccepting, AreLive, AreMarked, AreMarkedBack, AreMarkedOn, AreReached, AreWaitingFor, LeadsInto, LeadsOnTo, LeadsTo, Marked};

use super::{Dfa, DfaStateIndex, Kind, START};
use std::alloc::{AllocError, Global};

// Whether some value leads from the state to a marked one.
pub(crate) fn leads_into(dfa: &Dfa, state: DfaStateIndex, marks: &[bool]) -> bool
    requires within { state < length dfa.now }
    requires same_length { length marks.now ≡ length dfa.now }
    ensures { IsTrue result ↔ LeadsInto dfa.now marks.now state }
{
    for (_, target) in dfa.test_edges(state) {
        if marks[target.index()] {
            return true;
        }
    }
    marks[dfa.state(state).other_edge().index()]
}

// Marks each state from which some value leads to a marked one. The last states come first, since most edges lead to later ones.
fn mark_sources(dfa: &Dfa, marks: &mut [bool])
    requires same_length { length marks.old ≡ length dfa.now }
    ensures { AreMarkedBack dfa.now marks.old marks.new }
{
    let count = marks.len();
    for back in 0..count {
        let number = count - 1 - back;
        if !marks[number] && leads_into(dfa, DfaStateIndex::new(number), marks) {
            marks[number] = true;
        }
    }
}

/// Whether a state of this kind accepts a pattern.
pub(crate) fn is_accepting(kind: &Kind) -> bool
    ensures { IsTrue result ↔ ((i : ℕ) × (kind.now ≡ Kind.Accepts i)) }
{
    matches!(kind, Kind::Accepts(_))
}

// The states that accept a pattern.
fn accepting_states(alloc: Global, dfa: &Dfa) -> Result<Vec<bool>, AllocError>
    ensures marks { IfOk result (λ marks. AreAccepting dfa.now marks.items) }
    ensures well_formed { OnOk result (IsWellFormed dfa.now) }
{
    let mut marks = Vec::new(alloc);
    for state in dfa.states() {
        marks.push(is_accepting(state.kind()))?;
    }
    Ok(marks)
}

/// The states from which some word leads to one of the goals.
pub(crate) fn leading_states(dfa: &Dfa, goals: Vec<bool>) -> Result<Vec<bool>, AllocError>
    requires well_formed { IsWellFormed dfa.now }
    requires same_length { length goals.items ≡ length dfa.now }
    ensures { IfOk result (λ marks.
        AreMarked dfa.now (LeadsOnTo dfa.now (Marked goals.items)) marks.items) }
{
    let mut marks = goals;
    loop {
        let before = marks.clone()?;
        mark_sources(dfa, &mut marks);
        if marks == before {
            return Ok(marks);
        }
    }
}

/// The states from which some word leads to one that accepts a pattern.
pub(crate) fn live_states(alloc: Global, dfa: &Dfa) -> Result<Vec<bool>, AllocError>
    ensures marks { IfOk result (λ marks. AreLive dfa.now marks.items) }
    ensures well_formed { OnOk result (IsWellFormed dfa.now) }
{
    leading_states(dfa, accepting_states(alloc, dfa)?)
}

/// The states that accept no pattern, but from which some word leads to one that does.
pub(crate) fn waiting_states(alloc: Global, dfa: &Dfa) -> Result<Vec<bool>, AllocError>
    ensures marks { IfOk result (λ marks. AreWaitingFor dfa.now 0 marks.items) }
    ensures well_formed { OnOk result (IsWellFormed dfa.now) }
{
    let accepting = accepting_states(alloc, dfa)?;
    let live = live_states(alloc, dfa)?;
    let mut marks = Vec::new(alloc);
    for number in 0..live.len() {
        marks.push(live[number] && !accepting[number])?;
    }
    Ok(marks)
}

// Marks each state that some value leads to from this one.
fn mark_targets(dfa: &Dfa, state: DfaStateIndex, marks: &mut [bool])
    requires within { state < length dfa.now }
    requires same_length { length marks.old ≡ length dfa.now }
    ensures same_length { length marks.new ≡ length marks.old }
    ensures marked { (q : ℕ) → Marked marks.new q ↔ (Marked marks.old q ⊎ LeadsTo dfa.now state q) }
{
    for (_, target) in dfa.test_edges(state) {
        marks[target.index()] = true;
    }
    marks[dfa.state(state).other_edge().index()] = true;
}

// Marks each state that some value leads to from a marked one.
fn mark_followers(dfa: &Dfa, marks: &mut [bool])
    requires same_length { length marks.old ≡ length dfa.now }
    ensures { AreMarkedOn dfa.now marks.old marks.new }
{
    for number in 0..marks.len() {
        if marks[number] {
            mark_targets(dfa, DfaStateIndex::new(number), marks);
        }
    }
}

/// The states that a nonempty word leads to from START.
pub(crate) fn reached_states(alloc: Global, dfa: &Dfa) -> Result<Vec<bool>, AllocError>
    ensures { IfOk result (λ marks. AreReached dfa.now marks.items) }
{
    let mut marks = vec![in alloc; false; dfa.states().len()]?;
    mark_targets(dfa, START, &mut marks);
    loop {
        let before = marks.clone()?;
        mark_followers(dfa, &mut marks);
        if marks == before {
            return Ok(marks);
        }
    }
}
