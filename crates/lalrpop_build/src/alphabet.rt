//! The alphabet of some automata: the values that their test edges read, in classes of values that each state treats alike.
//!
//! The partition of all labels divides the values into cells. Cells that lie in the same labels of each state share a
//! class. So where a state leads by a value depends only on the value's class, and there are few classes: if names may be
//! in any script, some 800 ranges of letters make a handful.
ghost use Rattle.std.specs.Prelude.{◌≡◌, ◌<◌, length, slice_get, Some, IfOk};
ghost use Rattle.lalrpop_build.specs.Internal.Alphabet.{IsAlphabetOf, IsSound, HasState, AreEdgeGroupsOf};

mod cells;
mod classes;
mod groups;
mod signatures;

use crate::alphabet::classes::Classed;
use crate::alphabet::groups::Grouped;
use lalrpop_nfa::{Nfa, NfaStateIndex, START};
use smallvec::SmallVec;
use std::alloc::{AllocError, Global};
use std::marker::Model;

/// An interval of values that lie in the same labels: from its first value up to the first value of the next cell.
#[derive(Copy, Clone)]
pub(crate) struct Cell {
    /// The least value; of the last cell, which has no values, the number after the greatest value of a label.
    pub first: u64,
    /// The number of its class.
    pub class: usize,
}

/// Labels that lead from a state to the same state, as cells and classes.
#[derive(Drop)]
pub(crate) struct Group {
    /// The cells at which one of the labels begins or is over.
    pub boundaries: Vec<usize>,
    /// The classes of the values that lie in any of the labels.
    pub classes: Vec<usize>,
}

/// An edge group: a group of labels of a state, and the state that they all lead to.
#[derive(Copy, Clone)]
pub(crate) struct EdgeGroup {
    /// The number of the group.
    pub group: usize,
    /// The state that they lead to.
    pub to: NfaStateIndex,
}

// Fills the unused places of a `SmallVec`.
impl Default for EdgeGroup {
    fn default() -> EdgeGroup {
        EdgeGroup {
            group: 0,
            to: START,
        }
    }
}

/// The edge groups of one state, in the order of its edges. Nearly all states have one, which needs no
/// allocation.
#[derive(Drop)]
pub(crate) struct StateEdgeGroups {
    /// The edge groups, in the order of their first edges.
    pub edge_groups: SmallVec<EdgeGroup, 1>,
}

/// The edge groups of each state of one automaton.
#[derive(Drop)]
pub(crate) struct NfaEdgeGroups {
    /// Indexed by the number of the state.
    pub states: Vec<StateEdgeGroups>,
}

/// The classes of the values that some automata read.
#[derive(Drop)]
pub(crate) struct Alphabet {
    cells: Vec<Cell>,
    groups: Vec<Group>,
    nfas: Vec<NfaEdgeGroups>,
    count: usize,
}

impl Model for Alphabet {
    ghost use Rattle.lalrpop_build.specs.Internal.Alphabet.{Classes, IsSound};

    ghost Value = { Classes };

    ghost view = { λ a. record {
      cells = a.cells.items;
      groups = a.groups.items;
      nfas = a.nfas.items;
      count = a.count;
    } };

    ghost invariant = { λ a. IsSound (record {
      cells = a.cells.items;
      groups = a.groups.items;
      nfas = a.nfas.items;
      count = a.count;
    }) };
}

impl Alphabet {
    /// The alphabet of the automata.
    ///
    /// # Errors
    ///
    /// `AllocError` if a request for memory was refused.
    pub fn new(alloc: Global, automata: &[Nfa]) -> Result<Alphabet, AllocError>
        ensures alphabet { IfOk result (IsAlphabetOf automata.now) }
    {
        let Grouped { lists, nfas } = groups::groups_of(alloc, automata)?;
        let boundaries = cells::boundaries_of(alloc, &lists)?;
        let Classed {
            cells,
            groups,
            count,
        } = classes::classes_of(alloc, &lists, &boundaries)?;
        Ok(Alphabet {
            cells,
            groups,
            nfas,
            count,
        })
    }

    /// The cell at a place. The last cell has no values: it begins where the last label is over.
    pub fn cell(&self, place: usize) -> Cell
        requires has_cell { place < length self.now.cells }
        ensures cell { slice_get self.now.cells place ≡ Some result }
    {
        self.cells[place]
    }

    /// The group of this number.
    pub fn group(&self, number: usize) -> &Group
        requires has_group { number < length self.now.groups }
        ensures group { slice_get self.now.groups number ≡ Some result.now }
        ensures sound { IsSound self.now }
    {
        &self.groups[number]
    }

    /// The number of classes, which are numbered from 0.
    pub fn count(&self) -> usize
        ensures count { result ≡ self.now.count }
        ensures sound { IsSound self.now }
    {
        self.count
    }

    /// The number of groups, which are numbered from 0.
    pub fn group_count(&self) -> usize
        ensures count { result ≡ length self.now.groups }
    {
        self.groups.len()
    }

    /// The edge groups of a state of an automaton, in the order of its edges.
    pub fn edge_groups(&self, automaton: usize, state: NfaStateIndex) -> &[EdgeGroup]
        requires has_state { HasState self.now.nfas automaton state }
        ensures edge_groups { AreEdgeGroupsOf self.now.nfas automaton state result.now }
        ensures sound { IsSound self.now }
    {
        self.nfas[automaton].states[state.index()]
            .edge_groups
            .as_slice()
    }
}
