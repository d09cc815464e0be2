//! How many states in a row, beginning with each state, wait for a match.

ghost use Rattle.std.specs.Prelude.{◌≡◌, ◌<◌, length, IfOk, OnOk};
ghost use Rattle.lalrpop_dfa.specs.Dfa.{IsWellFormed};
ghost use Rattle.lalrpop_dfa.specs.Internal.Ranks.{AreDeep, AreDepths, AreShallower, IsShallower};

use crate::reach::waiting_states;
use crate::witness::least::least_value;
use crate::{Dfa, DfaStateIndex};
use std::alloc::{AllocError, Global};

// `most` for each state that waits for a match, and 0 for the others.
fn first_depths(alloc: Global, dfa: &Dfa, most: usize) -> Result<Vec<usize>, AllocError>
    ensures depths { IfOk result (λ depths. AreDeep dfa.now most depths.items) }
    ensures well_formed { OnOk result (IsWellFormed dfa.now) }
{
    let waiting = waiting_states(alloc, dfa)?;
    let mut depths = Vec::new(alloc);
    for is_waiting in &waiting {
        depths.push(if *is_waiting { most } else { 0 })?;
    }
    Ok(depths)
}

// The state's own depth, or one more than the greatest of those that its values lead to, if that is less.
fn shallower(dfa: &Dfa, state: DfaStateIndex, depths: &[usize], own: usize) -> usize
    requires within { state < length dfa.now }
    requires same_length { length depths.now ≡ length dfa.now }
    requires some { 0 < own }
    ensures { IsShallower dfa.now depths.now state own result }
{
    let mut found = 1;
    while found < own {
        match least_value(dfa, state, depths, found, usize::MAX) {
            Some(value) => found = depths[dfa.step(state, value).index()].min(own - 1) + 1,
            None => return found,
        }
    }
    found
}

// Makes each depth at most one more than the greatest of those that the state's values lead to was. The last states come first,
// since most edges lead to later ones, whose depths are then right already.
fn rise(dfa: &Dfa, depths: &mut [usize])
    requires same_length { length depths.old ≡ length dfa.now }
    ensures { AreShallower dfa.now depths.old depths.new }
{
    let count = dfa.states().len();
    for back in 0..count {
        let number = count - 1 - back;
        if depths[number] > 0 {
            let state = DfaStateIndex::new(number);
            depths[number] = shallower(dfa, state, depths, depths[number]);
        }
    }
}

// For each state how many states in a row that wait begin with it, counted up to `most`.
pub(crate) fn depths(alloc: Global, dfa: &Dfa, most: usize) -> Result<Vec<usize>, AllocError>
    ensures { IfOk result (λ depths. AreDepths dfa.now most depths.items) }
{
    let mut depths = first_depths(alloc, dfa, most)?;
    loop {
        let before = depths.clone()?;
        rise(dfa, &mut depths);
        if depths == before {
            return Ok(depths);
        }
    }
}
