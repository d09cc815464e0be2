//! The labels of each state, grouped by the states that they lead to, in numbered lists.

ghost use Rattle.std.specs.Prelude.{◌≡◌, ◌<◌, IfOk, OnOk, [], length};
ghost use Rattle.lalrpop_build.specs.Internal.Grouped.{AreGrouped};
ghost use Rattle.lalrpop_build.specs.Internal.EdgeGroups.{IsListOf, IsGrown, IsClosed, IsTurned, AreEdgeGroups, AreStatesTo};

use crate::alphabet::{EdgeGroup, NfaEdgeGroups, StateEdgeGroups};
use lalrpop_hir::Test;
use lalrpop_nfa::{Nfa, NfaStateIndex, START};
use smallvec::SmallVec;
use std::alloc::{AllocError, Global};
use std::collections::BTreeMap;
use std::marker::Model;

/// Labels that lead from a state to the same state, in the order of its edges.
#[derive(PartialEq, Eq, PartialOrd, Ord, Drop)]
pub(crate) struct Labels {
    pub(crate) list: Vec<Test>,
}

impl Clone for Labels {
    ghost use Rattle.std.specs.Prelude.{◌≡◌};

    ghost is_clone = { λ labels copy. copy.list.items ≡ labels.list.items };

    fn clone(&self) -> Result<Labels, AllocError> {
        Ok(Labels {
            list: self.list.clone()?,
        })
    }
}

/// Lists of labels, and the edge groups of each state of each automaton.
#[derive(Drop)]
pub(crate) struct Grouped {
    pub(crate) lists: Vec<Labels>,
    pub(crate) nfas: Vec<NfaEdgeGroups>,
}

// The labels that were read last, and the state that they lead to.
#[derive(Drop)]
struct Run {
    labels: Labels,
    to: NfaStateIndex,
}

// Lists of labels, and the number of each.
#[derive(Drop)]
struct Lists {
    lists: Vec<Labels>,
    numbers: BTreeMap<Labels, usize>,
}

impl Model for Lists {
    ghost use Rattle.std.specs.Prelude.{List};
    ghost use Rattle.lalrpop_build.specs.declared.alphabet.groups.Labels.{Labels};
    ghost use Rattle.lalrpop_build.specs.Internal.EdgeGroups.{AreNumbersOf};

    ghost Value = { List Labels };

    ghost view = { λ s. s.lists.items };

    ghost invariant = { λ s. AreNumbersOf s.numbers s.lists.items };
}

impl Lists {
    // The number of a list of labels. A list without a number is added.
    fn number_of(&mut self, labels: &Labels) -> Result<usize, AllocError>
        ensures number { IfOk result (λ n. IsListOf self.new n labels.now.list.items) }
        ensures grown { OnOk result (IsGrown self.old self.new) }
    {
        if let Some(number) = self.numbers.get(labels) {
            return Ok(*number);
        }
        let number = self.lists.len();
        let key = labels.clone()?;
        let list = labels.clone()?;
        // Memory for the list is reserved first, so that nothing fails after the insertion into the map.
        self.lists.reserve(1)?;
        self.numbers.insert(key, number)?;
        self.lists.push(list)?;
        Ok(number)
    }

    // Ends a run: its labels, if there are any, become an edge group that leads to its state.
    fn close(
        &mut self,
        run: &mut Run,
        edge_groups: &mut SmallVec<EdgeGroup, 1>,
    ) -> Result<(), AllocError>
        ensures closed { OnOk result (IsClosed self.old edge_groups.old.items run.old.labels.list.items
            run.old.to self.new edge_groups.new.items) }
        ensures empty { OnOk result (run.new.labels.list.items ≡ []) }
    {
        if !run.labels.list.is_empty() {
            let group = self.number_of(&run.labels)?;
            edge_groups.push(EdgeGroup { group, to: run.to })?;
            run.labels.list.clear();
        }
        Ok(())
    }

    // Ends a run, unless it leads to this state too.
    fn turn_to(
        &mut self,
        to: NfaStateIndex,
        run: &mut Run,
        edge_groups: &mut SmallVec<EdgeGroup, 1>,
    ) -> Result<(), AllocError>
        ensures here { OnOk result (run.new.to ≡ to) }
        ensures turned { OnOk result (IsTurned self.old edge_groups.old.items run.old.labels.list.items
            run.old.to self.new edge_groups.new.items run.new.labels.list.items run.new.to) }
    {
        if to != run.to {
            self.close(run, edge_groups)?;
            run.to = to;
        }
        Ok(())
    }

    // The edge groups of a state. The run is passed in, so that its memory is reused from state to state.
    fn edge_groups_of(
        &mut self,
        alloc: Global,
        nfa: &Nfa,
        state: NfaStateIndex,
        run: &mut Run,
    ) -> Result<SmallVec<EdgeGroup, 1>, AllocError>
        requires { state < length nfa.now.kinds }
        ensures grown { OnOk result (IsGrown self.old self.new) }
        ensures edge_groups { IfOk result (λ edge_groups.
            AreEdgeGroups self.new nfa.now.edges.tests state edge_groups.items) }
    {
        let mut edge_groups = SmallVec::new(alloc);
        run.labels.list.clear();
        for edge in nfa.edges::<Test>(state) {
            self.turn_to(edge.to, run, &mut edge_groups)?;
            run.labels.list.push(edge.label.clone()?)?;
        }
        self.close(run, &mut edge_groups)?;
        Ok(edge_groups)
    }

    // The edge groups of the states of an automaton.
    fn states_of(
        &mut self,
        alloc: Global,
        nfa: &Nfa,
        run: &mut Run,
    ) -> Result<Vec<StateEdgeGroups>, AllocError>
        ensures grown { OnOk result (IsGrown self.old self.new) }
        ensures states { IfOk result (λ states.
            AreStatesTo self.new nfa.now (length nfa.now.kinds) states.items) }
    {
        let mut states = Vec::with_capacity(alloc, nfa.len())?;
        for number in 0..nfa.len() {
            let edge_groups = self.edge_groups_of(alloc, nfa, NfaStateIndex::new(number), run)?;
            states.push(StateEdgeGroups { edge_groups })?;
        }
        Ok(states)
    }
}

/// The labels of the states of some automata. Equal lists of labels have the same number.
pub(crate) fn groups_of(alloc: Global, nfas: &[Nfa]) -> Result<Grouped, AllocError>
    ensures { IfOk result (λ g. AreGrouped nfas.now g.lists.items g.nfas.items) }
{
    let mut lists = Lists {
        lists: Vec::new(alloc),
        numbers: BTreeMap::new(alloc),
    };
    let mut run = Run {
        labels: Labels {
            list: Vec::new(alloc),
        },
        to: START,
    };
    let mut edge_groups = Vec::with_capacity(alloc, nfas.len())?;
    for nfa in nfas {
        let states = lists.states_of(alloc, nfa, &mut run)?;
        edge_groups.push(NfaEdgeGroups { states })?;
    }
    Ok(Grouped {
        lists: lists.lists,
        nfas: edge_groups,
    })
}
