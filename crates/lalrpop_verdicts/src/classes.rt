//! States that answer alike, in classes: rounds that split them until none does.

mod first_equal;
mod longest;
mod shortest;
mod split;
mod stretches;

ghost use Rattle.std.specs.Prelude.{◌≡◌, ◌<◌, ◌↔◌, ℕ, length, map, slice_index, IfOk, IsTrue, OnOk, Vec};
ghost use Rattle.std.specs.Global.{Global};
ghost use Rattle.std.specs.List.{Contains};
ghost use Rattle.std.specs.Option.{option_to_list};
ghost use Rattle.lalrpop_dfa.specs.Dfa.{IsWellFormed};
ghost use Rattle.lalrpop_verdicts.specs.Answers.{accepted_by};
ghost use Rattle.lalrpop_verdicts.specs.Internal.Classes.{AreAlikeClasses, AreClassesOf, AreWithin, answer_row, leads_row};
ghost use Rattle.lalrpop_verdicts.specs.Internal.Rounds.{AreOwnRows, IsNextClass, IsRound};
ghost use Rattle.lalrpop_verdicts.specs.Internal.StateWalks.{AreAllLeads};

use crate::answer::accepted_by;
use first_equal::FirstEqual;
use lalrpop_dfa::{Dfa, Kind};
use longest::longest_lengths;
use shortest::shortest_lengths;
use split::split;
use std::alloc::{AllocError, Global};
use std::collections::HashMap;
use stretches::{leads, stretches};

// The pattern that a state of this kind accepts, alone in a list, if there is one.
fn answer_of(alloc: Global, kind: &Kind) -> Result<Vec<usize>, AllocError>
    ensures { IfOk result (λ row. row.items ≡ option_to_list (accepted_by kind.now)) }
{
    let mut row = Vec::new(alloc);
    if let Some(pattern) = accepted_by(kind) {
        row.push(pattern.index())?;
    }
    Ok(row)
}

// States that accept the same pattern, or none, are in one class.
fn by_answer(alloc: Global, dfa: &Dfa) -> Result<Vec<usize>, AllocError>
    ensures { IfOk result (λ found. AreClassesOf (map answer_row dfa.now) found.items) }
{
    let mut classes = FirstEqual::with_capacity(alloc, dfa.states().len())?;
    for state in dfa.states() {
        classes.push(answer_of(alloc, state.kind())?)?;
    }
    Ok(classes.into_places())
}

// The classes of the states to which one state leads.
fn row_of(alloc: Global, targets: &[usize], classes: &[usize]) -> Result<Vec<usize>, AllocError>
    requires { AreWithin targets.now (length classes.now) }
    ensures { IfOk result (λ row. row.items ≡ map (slice_index classes.now) targets.now) }
{
    let mut row = Vec::with_capacity(alloc, targets.len())?;
    for target in targets {
        row.push(classes[*target])?;
    }
    Ok(row)
}

// Whether two states lead into the same classes. `one` and `other` are where they lead.
fn lead_alike(classes: &[usize], one: &[usize], other: &[usize]) -> bool
    requires one { AreWithin one.now (length classes.now) }
    requires other { AreWithin other.now (length classes.now) }
    ensures { IsTrue result ↔ (map (slice_index classes.now) one.now
        ≡ map (slice_index classes.now) other.now) }
{
    if one.len() != other.len() {
        return false;
    }
    for place in 0..one.len() {
        if classes[one[place]] != classes[other[place]] {
            return false;
        }
    }
    true
}

// The class of a state after a round. Most often the state stays with the first one of its class, and nothing is looked up; the
// map holds the first states of those that part from it.
fn next_class(
    alloc: Global,
    moved: &mut HashMap<Vec<usize>, usize>,
    table: &[Vec<usize>],
    classes: &[usize],
    state: usize,
) -> Result<usize, AllocError>
    requires own { AreOwnRows (map (leads_row classes.now) table.now) classes.now }
    requires within { (v : Vec ℕ Global) → Contains table.now v
        → AreWithin v.items (length classes.now) }
    requires state { state < length table.now }
    ensures { IfOk result (λ found. IsNextClass (map (leads_row classes.now) table.now)
        (slice_index classes.now state) state found moved.old moved.new) }
{
    let first = classes[state];
    if first == state || lead_alike(classes, &table[first], &table[state]) {
        return Ok(first);
    }
    let row = row_of(alloc, &table[state], classes)?;
    if let Some(found) = moved.get(&row) {
        return Ok(*found);
    }
    moved.insert(row, state)?;
    Ok(state)
}

// States that are in one class, and lead by each value to states in one class, stay in one class.
fn round(alloc: Global, table: &[Vec<usize>], classes: &[usize]) -> Result<Vec<usize>, AllocError>
    requires own { AreOwnRows (map (leads_row classes.now) table.now) classes.now }
    requires within { (v : Vec ℕ Global) → Contains table.now v
        → AreWithin v.items (length classes.now) }
    ensures { IfOk result (λ found. AreClassesOf
        (map (leads_row classes.now) table.now) found.items) }
{
    let mut moved = HashMap::new(alloc);
    let mut next = Vec::with_capacity(alloc, table.len())?;
    for state in 0..table.len() {
        next.push(next_class(alloc, &mut moved, table, classes, state)?)?;
    }
    Ok(next)
}

/// For each state the state itself, and each state that a value leads to from it.
///
/// # Errors
///
/// `AllocError` if a request for memory was refused.
pub(crate) fn lead_table(alloc: Global, dfa: &Dfa) -> Result<Vec<Vec<usize>>, AllocError>
    ensures leads { IfOk result (λ table. AreAllLeads dfa.now table.items) }
    ensures well_formed { OnOk result (IsWellFormed dfa.now) }
{
    let values = stretches(alloc, dfa)?;
    leads(alloc, dfa, &values)
}

// The classes before the first round: states of one class accept the same pattern, or none, and the shortest words that lead from
// them to a match are of one length, as are the longest, where these have a bound. Where states stand in a long line, as for a
// pattern that is counted, the lengths tell them apart at once; by answers alone there would be a round for each.
fn first_classes(alloc: Global, dfa: &Dfa, table: &[Vec<usize>]) -> Result<Vec<usize>, AllocError>
    requires leads { AreAllLeads dfa.now table.now }
    requires well_formed { IsWellFormed dfa.now }
    ensures { IfOk result (λ found. IsRound dfa.now found.items) }
{
    let mut classes = by_answer(alloc, dfa)?;
    let shortest = shortest_lengths(alloc, dfa, table)?;
    split(alloc, &mut classes, &shortest)?;
    split(
        alloc,
        &mut classes,
        &longest_lengths(alloc, table, &shortest)?,
    )?;
    Ok(classes)
}

/// The class of each state: the first of the states that answer each word alike. The table says where each state leads.
///
/// Each round goes over all states, and tells those apart that a word of one more value tells apart.
///
/// # Errors
///
/// `AllocError` if a request for memory was refused.
pub(crate) fn classes_by(
    alloc: Global,
    dfa: &Dfa,
    table: &[Vec<usize>],
) -> Result<Vec<usize>, AllocError>
    requires leads { AreAllLeads dfa.now table.now }
    requires well_formed { IsWellFormed dfa.now }
    ensures classes { IfOk result (λ found. AreAlikeClasses dfa.now found.items) }
{
    let mut classes = first_classes(alloc, dfa, table)?;
    loop {
        let next = round(alloc, table, &classes)?;
        if next == classes {
            return Ok(classes);
        }
        classes = next;
    }
}

/// The class of each state: the first of the states that answer each word alike.
///
/// # Errors
///
/// `AllocError` if a request for memory was refused.
pub(crate) fn classes(alloc: Global, dfa: &Dfa) -> Result<Vec<usize>, AllocError>
    ensures classes { IfOk result (λ found. AreAlikeClasses dfa.now found.items) }
{
    let table = lead_table(alloc, dfa)?;
    classes_by(alloc, dfa, &table)
}
