//! The least match that some values after it leave open.

ghost use Rattle.std.specs.Prelude.{◌≡◌, ℕ, ◌+◌, ◌<◌, List, length, IfOk, IfSome, IfNone};
ghost use Rattle.lalrpop_dfa.specs.Dfa.{after};
ghost use Rattle.lalrpop_dfa.specs.Lookahead.{Accepted};
ghost use Rattle.lalrpop_dfa.specs.Witness.{IsOpenMatch, IsWitness};
ghost use Rattle.lalrpop_dfa.specs.Internal.Ranks.{AreDepths, AreNearest, IsGoal, IsGreedy, IsNear, StaysFor};

mod depths;
mod distances;
mod least;

use crate::witness::depths::depths;
use crate::witness::distances::distances;
use crate::witness::least::least_value;
use crate::{Dfa, DfaStateIndex, START};
use std::alloc::{AllocError, Global};
use std::marker::Model;

/// A match, and values after it that leave it open whether a longer match comes.
///
/// ```
/// use lalrpop_lexer::lexer::dfa::{Witness, lookahead_witness};
///
/// // What makes the automaton read one character more than its match.
/// if let Some(Witness { word, after }) = lookahead_witness(alloc, &dfa, 1)? {
///     let length = word.len();
/// }
/// ```
#[derive(Debug, Drop)]
pub struct Witness {
    /// The match, by the code values of its characters.
    pub word: Vec<u32>,
    /// The values after it.
    pub after: Vec<u32>,
}

impl Model for Witness {
    ghost use Rattle.lalrpop_dfa.specs.Witness.{OpenMatch};

    ghost Value = { OpenMatch };

    ghost view = { λ w. record { word = w.word.items; after = w.after.items } };
}

// The least nonempty word that leads from START to a goal, and the goal.
fn word_to_goal(
    alloc: Global,
    dfa: &Dfa,
    states: &[usize],
    nearest: usize,
) -> Result<(Vec<u32>, DfaStateIndex), AllocError>
    requires distances { (n : ℕ) × AreNearest dfa.now n nearest states.now }
    ensures word { IfOk result (λ found. (n : ℕ) → AreNearest dfa.now n nearest states.now
        → IsGreedy dfa.now (IsNear dfa.now n) (nearest + 1) 0 found.0.items) }
    ensures state { IfOk result (λ found. found.1 ≡ after dfa.now found.0.items) }
{
    let mut word = Vec::new(alloc);
    let mut state = START;
    let mut left = nearest + 1;
    while left > 0 {
        left -= 1;
        let value = least_value(dfa, state, states, 0, left).unwrap();
        word.push(value)?;
        state = dfa.step(state, value);
    }
    Ok((word, state))
}

// The least `count` values that lead from the goal along states that wait.
fn open_values(
    alloc: Global,
    dfa: &Dfa,
    depths: &[usize],
    goal: DfaStateIndex,
    count: usize,
) -> Result<Vec<u32>, AllocError>
    requires within { goal < length dfa.now }
    requires depths { AreDepths dfa.now count depths.now }
    requires goal { IsGoal dfa.now count goal }
    ensures { IfOk result (λ values. IsGreedy dfa.now (StaysFor dfa.now) count goal values.items) }
{
    let mut values = Vec::new(alloc);
    let mut state = goal;
    let mut left = count;
    while left > 0 {
        let value = least_value(dfa, state, depths, left, usize::MAX).unwrap();
        values.push(value)?;
        state = dfa.step(state, value);
        left -= 1;
    }
    Ok(values)
}

/// The shortest, then least, nonempty word that a pattern matches and that some `count` values after it leave open: they don't
/// settle whether a longer match comes. The least such values come with it. `None` if no word is left open.
///
/// If `count` is what `lookahead` returns, it shows what makes the automaton look that far ahead.
///
/// It goes over all edges, mostly a few times; some automata take as many passes as they have states.
///
/// # Errors
///
/// `AllocError` if a request for memory was refused.
pub fn lookahead_witness(
    alloc: Global,
    dfa: &Dfa,
    count: usize,
) -> Result<Option<Witness>, AllocError>
    ensures least { IfOk result (λ found.
        IfSome found (λ w. IsWitness (Accepted dfa.now) count w.word w.after)) }
    ensures none { IfOk result (λ found.
        IfNone found ((v x : List ℕ) → ¬ IsOpenMatch (Accepted dfa.now) count v x)) }
{
    let depths = depths(alloc, dfa, count)?;
    match distances(alloc, dfa, &depths, count)? {
        Some(distances) => {
            let (word, goal) = word_to_goal(alloc, dfa, &distances.states, distances.nearest)?;
            let after = open_values(alloc, dfa, &depths, goal, count)?;
            Ok(Some(Witness { word, after }))
        }
        None => Ok(None),
    }
}
