//! A set of states of one automaton, in the order in which they are found.

ghost use Rattle.std.specs.Prelude.{◌≡◌, ℕ, ◌<◌, ◌≤◌, [], length, IfOk, OnOk, OnErr};
ghost use Rattle.std.specs.List.{Contains};
ghost use Rattle.lalrpop_nfa.specs.Internal.StateSets.{IsGrown};

use super::NfaStateIndex;
use std::alloc::{AllocError, Global};
use std::marker::Model;

// The states, each listed once, and for each state that there is room for, whether it is listed.
#[derive(Drop)]
pub(super) struct StateSet {
    states: Vec<NfaStateIndex>,
    marks: Vec<bool>,
}

impl Model for StateSet {
    ghost use Rattle.std.specs.Prelude.{length};
    ghost use Rattle.lalrpop_nfa.specs.Internal.StateSets.{StateList, IsStateSet};

    ghost Value = { StateList };

    ghost view = { λ s. record { states = s.states.items; room = length s.marks.items } };

    ghost invariant = { λ s. IsStateSet s.states.items s.marks.items };
}

impl StateSet {
    // The empty set, with room for the states below `room`.
    pub(super) fn new(alloc: Global, room: usize) -> Result<StateSet, AllocError>
        ensures { IfOk result (λ s. s ≡ record { states = []; room = room }) }
    {
        Ok(StateSet {
            states: Vec::new(alloc),
            marks: vec![in alloc; false; room]?,
        })
    }

    // Empties the set and keeps its memory.
    pub(super) fn clear(&mut self)
        ensures { self.new ≡ record { states = []; room = self.old.room } }
    {
        self.states.clear();
        self.marks.fill(false);
    }

    // Lists the state, if there is room for it and it is not listed yet.
    pub(super) fn insert(&mut self, state: NfaStateIndex) -> Result<(), AllocError>
        ensures grown { OnOk result (IsGrown self.old self.new (λ q. q ≡ state)) }
        ensures refused { OnErr result (self.new ≡ self.old) }
    {
        let place = state.index();
        if place < self.marks.len() && !self.marks[place] {
            self.states.push(state)?;
            self.marks[place] = true;
        }
        Ok(())
    }

    // The states, in the order in which they were found.
    pub(super) fn states(&self) -> &[NfaStateIndex]
        ensures value { result.now ≡ self.now.states }
        ensures within { (q : ℕ) → Contains result.now q → q < self.now.room }
        ensures few { length self.now.states ≤ self.now.room }
    {
        self.states.as_slice()
    }
}
