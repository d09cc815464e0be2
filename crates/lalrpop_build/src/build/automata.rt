//! The automata of some trees, with the alphabet of their labels.
//!
//! The type carries what is known of them, so that the functions of the construction need not require it.

ghost use Rattle.std.specs.Prelude.{◌≡◌, ℕ, ◌<◌, ◌↔◌, length, map, slice_get, Some, IfOk, IfErr, OnOk};
ghost use Rattle.std.specs.List.{Contains};
ghost use Rattle.std.specs.List.Sorted.{IsSorted};
ghost use Rattle.lalrpop_dfa.specs.Ascending.{AreAscendingItems};
ghost use Rattle.lalrpop_build.specs.Internal.Given.{AreAutomata, AreItemsOf};
ghost use Rattle.lalrpop_build.specs.Internal.Subsets.{move, starts_from, first_set_of};
ghost use Rattle.lalrpop_build.specs.Internal.Transitions.{transition_cmp, AreTransitions};
ghost use Rattle.lalrpop_build.specs.Internal.Built.{IsKindOf, IsStrongestIn, IsTied};
ghost use Rattle.lalrpop_build.specs.Internal.Ties.{AreAscending};
ghost use Rattle.lalrpop_build.specs.Internal.Scratch.{IsScratchOf, IsFilled};

use super::best::{Tie, kind_of, strongest_of};
use super::scratch::Scratch;
use crate::alphabet::{Alphabet, Cell};
use crate::closure::{Workspace, closure, goto};
use crate::{Kind, NfaIndex, Precedence, Transition};
use lalrpop_dfa::{Item, ItemSet};
use lalrpop_nfa::{Nfa, START};
use std::alloc::{AllocError, Global};
use std::marker::Model;

/// The automata of some trees, one for each pattern, with the alphabet of their labels.
#[derive(Drop)]
pub(crate) struct Automata<'nfas> {
    nfas: &'nfas [Nfa],
    alphabet: Alphabet,
}

impl<'nfas> Model for Automata<'nfas> {
    ghost use Rattle.lalrpop_build.specs.Internal.Given.{AreAutomata};
    ghost use Rattle.lalrpop_build.specs.Internal.Alphabet.{IsAlphabetOf};
    ghost use Rattle.lalrpop_build.specs.Internal.Labelled.{Labelled};

    ghost Value = { Labelled };

    ghost view = { λ a. record { graphs = a.nfas.now; alphabet = a.alphabet } };

    ghost invariant = { λ a. AreAutomata a.nfas.now × IsAlphabetOf a.nfas.now a.alphabet };
}

// START of each automaton.
fn starts_of(alloc: Global, nfas: &[Nfa]) -> Result<Vec<Item>, AllocError>
    ensures { IfOk result (λ starts. starts.items ≡ starts_from 0 nfas.now) }
{
    let mut starts = Vec::new(alloc);
    for index in 0..nfas.len() {
        starts.push(Item::new(NfaIndex::new(index), START))?;
    }
    Ok(starts)
}

impl<'nfas> Automata<'nfas> {
    pub(crate) fn new(alloc: Global, nfas: &'nfas [Nfa]) -> Result<Automata<'nfas>, AllocError>
        requires { AreAutomata nfas.now }
        ensures { IfOk result (λ a. a.graphs ≡ nfas.now) }
    {
        let alphabet = Alphabet::new(alloc, nfas)?;
        Ok(Automata { nfas, alphabet })
    }

    /// Scratch for the classes and the groups of the alphabet.
    pub(super) fn scratch(&self, alloc: Global) -> Result<Scratch, AllocError>
        ensures { IfOk result (IsScratchOf self.now.alphabet) }
    {
        Scratch::new(alloc, &self.alphabet)
    }

    /// The set that the empty word leads to.
    pub(super) fn first_set(&self, alloc: Global) -> Result<ItemSet, AllocError>
        ensures { IfOk result (λ s. s ≡ first_set_of self.now.graphs) }
    {
        let starts = starts_of(alloc, self.nfas)?;
        closure(alloc, self.nfas, &starts)
    }

    /// The set that a set leads to by the values that take these test edges.
    pub(super) fn goto(
        &self,
        alloc: Global,
        workspace: &mut Workspace,
        set: &ItemSet,
        transitions: &[Transition],
    ) -> Result<ItemSet, AllocError>
        requires inside { AreItemsOf self.now.graphs set.now }
        requires sorted { IsSorted transition_cmp transitions.now }
        requires taken { (v : ℕ) × AreTransitions self.now.graphs set.now v transitions.now }
        ensures { IfOk result (λ s. (v : ℕ)
            → AreTransitions self.now.graphs set.now v transitions.now
            → s ≡ move self.now.graphs set.now v) }
    {
        goto(alloc, workspace, self.nfas, set, transitions)
    }

    /// The kind of a state that holds the set, or the tie of its strongest patterns.
    pub(super) fn kind_of(&self, precedences: &[Precedence], set: &ItemSet) -> Result<Kind, Tie>
        requires same_len { length self.now.graphs ≡ length precedences.now }
        requires inside { AreItemsOf self.now.graphs set.now }
        requires ascending { AreAscendingItems set.now }
        ensures ok { IfOk result (IsKindOf (map (λ p. p.0) precedences.now) set.now) }
        ensures err { IfErr result (λ tie.
            IsTied (map (λ p. p.0) precedences.now) set.now tie.greatest tie.second) }
    {
        kind_of(self.nfas, precedences, set)
    }

    /// The strongest of the patterns that the set accepts, in order.
    pub(crate) fn strongest(
        &self,
        alloc: Global,
        precedences: &[Precedence],
        set: &ItemSet,
    ) -> Result<Vec<NfaIndex>, AllocError>
        requires same_len { length self.now.graphs ≡ length precedences.now }
        requires inside { AreItemsOf self.now.graphs set.now }
        requires ascending { AreAscendingItems set.now }
        ensures all { IfOk result (λ found. (i : ℕ)
            → Contains found.items i ↔ IsStrongestIn (map (λ p. p.0) precedences.now) set.now i) }
        ensures ascending { IfOk result (λ found. AreAscending found.items) }
    {
        strongest_of(alloc, self.nfas, precedences, set)
    }

    /// Lays out in the scratch what leaves the items of a set.
    pub(super) fn fill(&self, scratch: &mut Scratch, set: &ItemSet) -> Result<(), AllocError>
        requires inside { AreItemsOf self.now.graphs set.now }
        requires scratch { IsScratchOf self.now.alphabet scratch.old }
        ensures automata { AreAutomata self.now.graphs }
        ensures scratch { IsScratchOf self.now.alphabet scratch.new }
        ensures filled { OnOk result (IsFilled self.now.graphs self.now.alphabet set.now
            scratch.new.boundaries.places.items scratch.new.edges.lists.items) }
    {
        scratch.fill(self.nfas, &self.alphabet, set)
    }

    /// The cell of the alphabet at a place.
    pub(super) fn cell(&self, place: usize) -> Cell
        requires { place < length self.now.alphabet.cells }
        ensures automata { AreAutomata self.now.graphs }
        ensures cell { slice_get self.now.alphabet.cells place ≡ Some result }
    {
        self.alphabet.cell(place)
    }
}
