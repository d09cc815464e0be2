//! States with their test edges, which are in one list for all states.

ghost use Rattle.std.specs.Prelude.{◌≡◌, ◌<◌, ◌++◌, ◌∷◌, [], length, slice_get, IsSomeAnd, OnOk};
ghost use Rattle.lalrpop_dfa.specs.Dfa.{IsStored, AreStored};
ghost use Rattle.lalrpop_dfa.specs.Stored.{IsRejecting};

use super::{DfaStateIndex, Kind, State};
use crate::ItemSet;
use lalrpop_hir::Test;
use std::alloc::{AllocError, Global};
use std::marker::Model;

/// States, each with the place of its first test edge in the list of all test edges, where its edges are contiguous.
#[derive(Debug, Drop)]
pub struct Rows {
    states: Vec<State>,
    edges: Vec<(Test, DfaStateIndex)>,
}

impl Model for Rows {
    ghost use Rattle.std.specs.Prelude.{List};
    ghost use Rattle.lalrpop_dfa.specs.Dfa.{Row};
    ghost use Rattle.lalrpop_dfa.specs.Stored.{rows_of, AreWithin};

    ghost Value = { List Row };

    ghost view = { λ t. rows_of t.edges.items t.states.items };

    ghost invariant = { λ t. AreWithin t.edges.items t.states.items };
}

impl Rows {
    pub(super) fn len(&self) -> usize
        ensures { result ≡ length self.now }
    {
        self.states().len()
    }

    pub(super) fn states(&self) -> &[State]
        ensures { AreStored self.now result.now }
    {
        self.states.as_slice()
    }

    pub(super) fn state(&self, index: DfaStateIndex) -> &State
        requires { index < length self.now }
        ensures { IsSomeAnd (slice_get self.now index) (λ r. IsStored r result.now) }
    {
        &self.states[index.index()]
    }

    pub(super) fn test_edges(&self, index: DfaStateIndex) -> &[(Test, DfaStateIndex)]
        requires { index < length self.now }
        ensures { IsSomeAnd (slice_get self.now index) (λ r. result.now ≡ r.tests) }
    {
        let state = &self.states[index.index()];
        &self.edges[state.first_edge..state.first_edge + state.edge_count]
    }

    // Makes the state reject. Its edges stay.
    pub(super) fn reject(&mut self, index: DfaStateIndex)
        requires { index < length self.old }
        ensures { IsRejecting self.old index self.new }
    {
        self.states[index.index()].kind = Kind::Reject;
    }
}

impl Clone for Rows {
    ghost is_clone = { λ rows copy. copy ≡ rows };

    fn clone(&self) -> Result<Rows, AllocError> {
        Ok(Rows {
            states: self.states.clone()?,
            edges: self.edges.clone()?,
        })
    }
}

/// Rows that are being written: the finished states, and the test edges so far of the next one.
#[derive(Drop)]
pub struct RowWriter {
    states: Vec<State>,
    // The test edges of the states, and after them those of the next one.
    edges: Vec<(Test, DfaStateIndex)>,
    // Where the edges of the next state begin.
    first_edge: usize,
}

impl Model for RowWriter {
    ghost use Rattle.std.specs.Prelude.{drop, ◌≤◌, length};
    ghost use Rattle.lalrpop_dfa.specs.Internal.Written.{Written};
    ghost use Rattle.lalrpop_dfa.specs.Stored.{rows_of, AreWithin};

    ghost Value = { Written };

    ghost view = { λ w. record {
      rows = rows_of w.edges.items w.states.items;
      tests = drop w.first_edge w.edges.items;
    } };

    ghost invariant = { λ w. AreWithin w.edges.items w.states.items
        × (w.first_edge ≤ length w.edges.items) };
}

impl RowWriter {
    /// No states, and no edges of the first one.
    pub fn new(alloc: Global) -> RowWriter
        ensures rows { result.rows ≡ [] }
        ensures tests { result.tests ≡ [] }
    {
        RowWriter {
            states: Vec::new(alloc),
            edges: Vec::new(alloc),
            first_edge: 0,
        }
    }

    /// The number of states.
    pub fn len(&self) -> usize
        ensures { result ≡ length self.now.rows }
    {
        self.states.len()
    }

    /// The items that the state with this number holds.
    pub fn item_set(&self, number: usize) -> &ItemSet
        requires { number < length self.now.rows }
        ensures { IsSomeAnd (slice_get self.now.rows number) (λ r. result.now ≡ r.items) }
    {
        &self.states[number].item_set
    }

    /// Adds a test edge to the next state.
    ///
    /// # Errors
    ///
    /// `AllocError` if a request for memory was refused.
    pub fn add_edge(&mut self, label: Test, target: DfaStateIndex) -> Result<(), AllocError>
        ensures rows { OnOk result (self.new.rows ≡ self.old.rows) }
        ensures tests { OnOk result (self.new.tests ≡ self.old.tests ++ (label, target) ∷ []) }
    {
        self.edges.push((label, target))?;
        Ok(())
    }

    /// Ends the next state, which holds these items. All values that no test edge covers lead to the other state.
    ///
    /// # Errors
    ///
    /// `AllocError` if a request for memory was refused.
    pub fn end_row(
        &mut self,
        item_set: ItemSet,
        kind: Kind,
        other: DfaStateIndex,
    ) -> Result<(), AllocError>
        ensures rows { OnOk result (self.new.rows ≡ self.old.rows
            ++ record {
              kind = kind;
              tests = self.old.tests;
              other = other;
              items = item_set;
            } ∷ []) }
        ensures tests { OnOk result (self.new.tests ≡ []) }
    {
        let state = State {
            item_set,
            kind,
            first_edge: self.first_edge,
            edge_count: self.edges.len() - self.first_edge,
            other_edge: other,
        };
        self.states.push(state)?;
        self.first_edge = self.edges.len();
        Ok(())
    }

    /// The states. Edges of an unfinished state are left out.
    pub fn into_rows(self) -> Rows
        ensures { result ≡ self.rows }
    {
        let RowWriter { states, edges, .. } = self;
        Rows { states, edges }
    }
}
