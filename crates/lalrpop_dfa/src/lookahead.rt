//! How far an automaton reads past a match.

ghost use Rattle.std.specs.Prelude.{◌≡◌, ℕ, ◌<◌, ◌↔◌, ◌⊎◌, length, slice_get, Some, true, IsTrue, IfOk, OnOk};
ghost use Rattle.lalrpop_dfa.specs.Dfa.{IsWellFormed};
ghost use Rattle.lalrpop_dfa.specs.Lookahead.{Accepted, AcceptedAs, IsLookahead, StaysOpenEver};
ghost use Rattle.lalrpop_dfa.specs.Internal.Marks.{AreLeftOut, AreWaitingEver, AreWaitingFor, EntersBy, IsEntered, Marked};
ghost use Rattle.lalrpop_dfa.specs.Internal.Waits.{AreAllWaits, AreLonger, AreWaits, IsGreatest, IsMostEntered};

use super::{Dfa, DfaStateIndex, Kind};
use crate::reach::{is_accepting, leads_into, reached_states, waiting_states};
use std::alloc::{AllocError, Global};

// The pattern that the state accepts, if it is among those reached and some value leads from it to a marked state.
fn entering(dfa: &Dfa, state: DfaStateIndex, reached: &[bool], marks: &[bool]) -> Option<usize>
    requires within { state < length dfa.now }
    requires reached { length reached.now ≡ length dfa.now }
    requires same_length { length marks.now ≡ length dfa.now }
    ensures { (i : ℕ) → (result ≡ Some i) ↔ EntersBy dfa.now reached.now marks.now i state }
{
    if !reached[state.index()] {
        return None;
    }
    match dfa.state(state).kind() {
        Kind::Accepts(index) => {
            if leads_into(dfa, state, marks) {
                Some(index.index())
            } else {
                None
            }
        }
        _ => None,
    }
}

// Whether some match leads to a marked state.
fn is_entered(dfa: &Dfa, reached: &[bool], marks: &[bool]) -> bool
    requires reached { length reached.now ≡ length dfa.now }
    requires same_length { length marks.now ≡ length dfa.now }
    ensures { IsTrue result ↔ IsEntered dfa.now reached.now marks.now }
{
    for number in 0..marks.len() {
        if entering(dfa, DfaStateIndex::new(number), reached, marks).is_some() {
            return true;
        }
    }
    false
}

// Leaves out each state that leads to none that is left. The last states come first, since most edges lead to later ones.
fn leave_out(dfa: &Dfa, marks: &mut [bool])
    requires same_length { length marks.old ≡ length dfa.now }
    ensures { AreLeftOut dfa.now marks.old marks.new }
{
    let count = marks.len();
    for back in 0..count {
        let number = count - 1 - back;
        if marks[number] && !leads_into(dfa, DfaStateIndex::new(number), marks) {
            marks[number] = false;
        }
    }
}

// The states that can wait forever.
fn ever_waiting(alloc: Global, dfa: &Dfa) -> Result<Vec<bool>, AllocError>
    ensures marks { IfOk result (λ marks. AreWaitingEver dfa.now marks.items) }
    ensures well_formed { OnOk result (IsWellFormed dfa.now) }
{
    let mut marks = waiting_states(alloc, dfa)?;
    loop {
        let before = marks.clone()?;
        leave_out(dfa, &mut marks);
        if marks == before {
            return Ok(marks);
        }
    }
}

// The greatest of the numbers of the states that the values of a state lead to.
fn greatest(dfa: &Dfa, state: DfaStateIndex, numbers: &[usize]) -> usize
    requires within { state < length dfa.now }
    requires same_length { length numbers.now ≡ length dfa.now }
    ensures { IsGreatest dfa.now numbers.now state result }
{
    let other = dfa.state(state).other_edge().index();
    let mut greatest = numbers[other];
    for (_, target) in dfa.test_edges(state) {
        greatest = greatest.max(numbers[target.index()]);
    }
    greatest
}

// Makes the number of each state that waits, but not forever, at least one more than those of the states that its values lead to. The
// last states come first, since most edges lead to later ones, whose numbers are then right already.
fn lengthen(dfa: &Dfa, waiting: &[bool], ever: &[bool], numbers: &mut [usize])
    requires waiting { AreWaitingFor dfa.now 0 waiting.now }
    requires ever { AreWaitingEver dfa.now ever.now }
    requires numbers { AreWaits dfa.now ever.now numbers.old }
    requires fits { length dfa.now < usize.MAX }
    ensures { AreLonger dfa.now ever.now numbers.old numbers.new }
{
    let count = dfa.states().len();
    for back in 0..count {
        let number = count - 1 - back;
        if waiting[number] && !ever[number] {
            let most = greatest(dfa, DfaStateIndex::new(number), numbers);
            numbers[number] = numbers[number].max(most + 1);
        }
    }
}

// How many values in a row each state waits for, with it itself; 0 for one that doesn't wait, or waits forever.
fn waits(alloc: Global, dfa: &Dfa, ever: &[bool]) -> Result<Vec<usize>, AllocError>
    requires ever { AreWaitingEver dfa.now ever.now }
    ensures { IfOk result (λ numbers. AreAllWaits dfa.now ever.now numbers.items) }
{
    let waiting = waiting_states(alloc, dfa)?;
    let mut numbers = vec![in alloc; 0; waiting.len()]?;
    loop {
        let before = numbers.clone()?;
        lengthen(dfa, &waiting, ever, &mut numbers);
        if numbers == before {
            return Ok(numbers);
        }
    }
}

// The greatest number of a state that some value leads to from a match; 0 if there is none.
fn most_entered(dfa: &Dfa, reached: &[bool], numbers: &[usize]) -> usize
    requires reached { length reached.now ≡ length dfa.now }
    requires same_length { length numbers.now ≡ length dfa.now }
    ensures { IsMostEntered dfa.now reached.now numbers.now result }
{
    let mut most = 0;
    for number in 0..numbers.len() {
        let state = DfaStateIndex::new(number);
        if reached[number] && is_accepting(dfa.state(state).kind()) {
            most = greatest(dfa, state, numbers).max(most);
        }
    }
    most
}

/// The greatest number of values that can follow a nonempty match and leave it open whether a longer one comes; `None` if the
/// number has no bound.
///
/// It goes over all edges, mostly a few times; some automata take as many passes as they have states.
///
/// # Errors
///
/// `AllocError` if a request for memory was refused.
pub fn lookahead(alloc: Global, dfa: &Dfa) -> Result<Option<usize>, AllocError>
    ensures answer { IfOk result (λ n. IsLookahead (Accepted dfa.now) n) }
{
    let reached = reached_states(alloc, dfa)?;
    let ever = ever_waiting(alloc, dfa)?;
    if is_entered(dfa, &reached, &ever) {
        return Ok(None);
    }
    let numbers = waits(alloc, dfa, &ever)?;
    Ok(Some(most_entered(dfa, &reached, &numbers)))
}

/// Marks the place too, if there is one and the list has it.
pub(crate) fn mark(marks: &mut Vec<bool>, place: Option<usize>)
    ensures same_length { length marks.new.items ≡ length marks.old.items }
    ensures marked { (i : ℕ) → i < length marks.old.items
        → Marked marks.new.items i ↔ (Marked marks.old.items i ⊎ (place ≡ Some i)) }
{
    if let Some(place) = place {
        if place < marks.len() {
            marks[place] = true;
        }
    }
}

/// For each of `count` patterns, in order, whether a nonempty match by it can stay open forever: no number of characters after it
/// is enough to settle that no longer match comes.
///
/// # Errors
///
/// `AllocError` if a request for memory was refused.
pub fn unbounded_patterns(alloc: Global, dfa: &Dfa, count: usize) -> Result<Vec<bool>, AllocError>
    ensures same_length { IfOk result (λ found. length found.items ≡ count) }
    ensures each { IfOk result (λ found. (i : ℕ) → i < count
        → (slice_get found.items i ≡ Some true)
        ↔ StaysOpenEver (Accepted dfa.now) (AcceptedAs dfa.now i)) }
{
    let reached = reached_states(alloc, dfa)?;
    let marks = ever_waiting(alloc, dfa)?;
    let mut found = vec![in alloc; false; count]?;
    for number in 0..marks.len() {
        mark(
            &mut found,
            entering(dfa, DfaStateIndex::new(number), &reached, &marks),
        );
    }
    Ok(found)
}
