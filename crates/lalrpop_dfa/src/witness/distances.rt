//! How far each state is from a match that some values leave open.

ghost use Rattle.std.specs.Prelude.{◌≡◌, ℕ, ◌<◌, ◌≤◌, ◌↔◌, length, IsTrue, IfOk, OnOk, IfSome, IfNone};
ghost use Rattle.lalrpop_dfa.specs.Dfa.{step, IsWellFormed};
ghost use Rattle.lalrpop_dfa.specs.Internal.Ranks.{AreDepths, AreNearer, AreNearest, AreStill, AreWays, IsGoal, IsNear, IsNearer};

use crate::witness::least::least_value;
use crate::{Dfa, DfaStateIndex, Kind, START};
use std::alloc::{AllocError, Global};

// Whether the state accepts a pattern, and `count` values leave it open whether a longer match comes.
fn is_goal(dfa: &Dfa, state: DfaStateIndex, depths: &[usize], count: usize) -> bool
    requires within { state < length dfa.now }
    requires depths { AreDepths dfa.now count depths.now }
    ensures { IsTrue result ↔ IsGoal dfa.now count state }
{
    match dfa.state(state).kind() {
        Kind::Accepts(_) => {
            count == 0 || least_value(dfa, state, depths, count, usize::MAX).is_some()
        }
        _ => false,
    }
}

// 0 for each goal, and the greatest number for the other states, whose distance isn't known yet.
fn first_distances(
    alloc: Global,
    dfa: &Dfa,
    depths: &[usize],
    count: usize,
) -> Result<Vec<usize>, AllocError>
    requires depths { AreDepths dfa.now count depths.now }
    ensures ways { IfOk result (λ distances. AreWays dfa.now count distances.items) }
    ensures well_formed { OnOk result (IsWellFormed dfa.now) }
{
    let mut distances = Vec::new(alloc);
    for number in 0..dfa.states().len() {
        let state = DfaStateIndex::new(number);
        let distance = if is_goal(dfa, state, depths, count) {
            0
        } else {
            usize::MAX
        };
        distances.push(distance)?;
    }
    Ok(distances)
}

// The state's own distance, or one more than the least of those that its values lead to, if that is less.
fn nearer(dfa: &Dfa, state: DfaStateIndex, distances: &[usize], own: usize) -> usize
    requires within { state < length dfa.now }
    requires same_length { length distances.now ≡ length dfa.now }
    ensures nearer { IsNearer dfa.now distances.now state own result }
    ensures fits { own ≤ usize.MAX }
{
    let mut least = own;
    while least > 1 {
        match least_value(dfa, state, distances, 0, least - 2) {
            Some(value) => least = distances[dfa.step(state, value).index()] + 1,
            None => return least,
        }
    }
    least
}

// Makes each distance at most one more than those that the state's values lead to were. The last states come first, since most
// edges lead to later ones, whose distances are then right already.
fn spread(dfa: &Dfa, distances: &mut [usize])
    requires same_length { length distances.old ≡ length dfa.now }
    ensures { AreNearer dfa.now distances.old distances.new }
{
    let count = dfa.states().len();
    for back in 0..count {
        let number = count - 1 - back;
        let state = DfaStateIndex::new(number);
        distances[number] = nearer(dfa, state, distances, distances[number]);
    }
}

// Spreads the distances until they stay.
fn spread_all(dfa: &Dfa, first: Vec<usize>) -> Result<Vec<usize>, AllocError>
    requires same_length { length first.items ≡ length dfa.now }
    ensures ways { IfOk result (λ distances. (n : ℕ) → AreWays dfa.now n first.items
        → AreWays dfa.now n distances.items) }
    ensures still { IfOk result (λ distances. AreStill dfa.now distances.items) }
{
    let mut distances = first;
    loop {
        let before = distances.clone()?;
        spread(dfa, &mut distances);
        if distances == before {
            return Ok(distances);
        }
    }
}

/// How far each state is from a goal, and how far the nearest one that a value leads to from START.
#[derive(Drop)]
pub(crate) struct GoalDistances {
    pub(crate) states: Vec<usize>,
    pub(crate) nearest: usize,
}

// The distances of the states, and that of the nearest one after START; `None` if no nonempty word leads from START to a goal.
pub(crate) fn distances(
    alloc: Global,
    dfa: &Dfa,
    depths: &[usize],
    count: usize,
) -> Result<Option<GoalDistances>, AllocError>
    requires depths { AreDepths dfa.now count depths.now }
    ensures found { IfOk result (λ found. IfSome found (λ distances.
        AreNearest dfa.now count distances.nearest distances.states.items)) }
    ensures none { IfOk result (λ found. IfNone found
        ((m c : ℕ) → c ≤ 4294967295 → ¬ IsNear dfa.now count m (step dfa.now 0 c))) }
    ensures well_formed { OnOk result (IsWellFormed dfa.now) }
{
    let states = spread_all(dfa, first_distances(alloc, dfa, depths, count)?)?;
    let one_more = nearer(dfa, START, &states, usize::MAX);
    if one_more == usize::MAX {
        return Ok(None);
    }
    Ok(Some(GoalDistances {
        states,
        nearest: one_more - 1,
    }))
}
