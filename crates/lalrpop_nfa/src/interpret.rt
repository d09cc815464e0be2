//! The longest prefix of a text that one pattern matches, found by running its automaton.

ghost use Rattle.std.specs.Prelude.{◌≡◌, ◌+◌, ◌*◌, ◌<◌, ◌≤◌, ◌↔◌, length, take, IfSome, IfOk, OnOk, IsTrue};
ghost use Rattle.std.specs.Option.{option_map};
ghost use Rattle.std.specs.Str.{chars, IsCharBoundary};
ghost use Rattle.lalrpop_hir.specs.Tree.{Tree};
ghost use Rattle.lalrpop_hir.specs.Language.{Matches};
ghost use Rattle.lalrpop_hir.specs.States.{start_state};
ghost use Rattle.lalrpop_nfa.specs.Compiled.{IsCompiled};
ghost use Rattle.lalrpop_nfa.specs.Internal.StateSets.{only, IsGrown, IsEpsilonEdge, IsClosure, IsMove, Accepts, Rejects, IsIfAccepted};
ghost use Rattle.lalrpop_nfa.specs.Internal.Reads.{Reads};
ghost use Rattle.lalrpop_hir.specs.Prefix.{IsPrefix, IsLongestOf};

use super::state_set::StateSet;
use super::{Nfa, NfaStateIndex, Noop, Other, START, Steps, Test};
use std::alloc::{AllocError, Global};
use std::marker::Model;

/// The longest prefix of the text that the automaton's pattern matches, the empty one included: a slice of the
/// text, or `None` if the pattern matches no prefix.
///
/// # Errors
///
/// `AllocError` if a request for memory was refused.
pub fn interpret<'text>(
    alloc: Global,
    nfa: &Nfa,
    text: &'text str,
) -> Result<Option<&'text str>, AllocError>
    ensures answer { IfOk result (λ found. (t : Tree) → IsCompiled t nfa.now
        → IsLongestOf (Matches t) text.now (option_map (λ s. s.now) found)) }
    ensures prefix { IfOk result (λ found. IfSome found (λ s. IsPrefix s.now text.now)) }
{
    interpret_counted(alloc, nfa, text, &mut Steps::new())
}

/// The same answer. Counts a step for each pair of a state and an offset that it visits; the count never falls.
///
/// # Errors
///
/// `AllocError` if a request for memory was refused.
pub fn interpret_counted<'text>(
    alloc: Global,
    nfa: &Nfa,
    text: &'text str,
    steps: &mut Steps,
) -> Result<Option<&'text str>, AllocError>
    ensures answer { IfOk result (λ found. (t : Tree) → IsCompiled t nfa.now
        → IsLongestOf (Matches t) text.now (option_map (λ s. s.now) found)) }
    ensures prefix { IfOk result (λ found. IfSome found (λ s. IsPrefix s.now text.now)) }
    ensures cost { steps.new ≤ steps.old + length nfa.now.kinds * (length (chars text.now) + 1) }
    ensures never_falls { steps.old ≤ steps.new }
{
    let mut simulation = Simulation::start(alloc, nfa, steps)?;
    let mut longest = simulation.accepted(text, 0);
    for (offset, c) in text.char_indices() {
        if simulation.rejects() {
            break;
        }
        simulation = simulation.read(u32::from(c), steps)?;
        longest = simulation.accepted(text, offset + c.len_utf8()).or(longest);
    }
    Ok(longest)
}

// The run of one automaton: the states that a prefix leads to, and a second set for the states after one more
// character.
#[derive(Drop)]
struct Simulation<'nfa> {
    nfa: &'nfa Nfa,
    states: StateSet,
    next: StateSet,
}

impl<'nfa> Model for Simulation<'nfa> {
    ghost use Rattle.std.specs.Prelude.{◌≡◌, length};
    ghost use Rattle.lalrpop_nfa.specs.Internal.StateSets.{Visited};

    ghost Value = { Visited };

    ghost view = { λ s. record { graph = s.nfa.now; states = s.states } };

    ghost invariant = { λ s. (s.states.room ≡ length s.nfa.now.kinds)
        × (s.next.room ≡ length s.nfa.now.kinds) };
}

impl<'nfa> Simulation<'nfa> {
    // The states that the empty word leads to.
    fn start(
        alloc: Global,
        nfa: &'nfa Nfa,
        steps: &mut Steps,
    ) -> Result<Simulation<'nfa>, AllocError>
        ensures graph { IfOk result (λ s. s.graph ≡ nfa.now) }
        ensures states { IfOk result (λ s. IsClosure nfa.now.edges
            (only start_state (length nfa.now.kinds)) s.states) }
        ensures cost { steps.new ≤ steps.old + length nfa.now.kinds }
        ensures never_falls { steps.old ≤ steps.new }
    {
        let mut states = StateSet::new(alloc, nfa.len())?;
        states.insert(START)?;
        states.close(nfa, steps)?;
        let next = StateSet::new(alloc, nfa.len())?;
        Ok(Simulation { nfa, states, next })
    }

    // The states that these lead to by reading the value.
    fn read(self, value: u32, steps: &mut Steps) -> Result<Simulation<'nfa>, AllocError>
        ensures graph { IfOk result (λ s. s.graph ≡ self.entry.graph) }
        ensures states { IfOk result (λ s.
            IsMove self.entry.graph.edges value self.entry.states s.states) }
        ensures cost { steps.new ≤ steps.old + length self.entry.graph.kinds }
        ensures never_falls { steps.old ≤ steps.new }
    {
        let Simulation {
            nfa,
            states,
            mut next,
        } = self;
        next.clear();
        for state in states.states() {
            next.add_read(nfa, *state, value)?;
        }
        next.close(nfa, steps)?;
        Ok(Simulation {
            nfa,
            states: next,
            next: states,
        })
    }

    // Whether the pattern matches the prefix that leads here.
    fn accepts(&self) -> bool
        ensures { IsTrue result ↔ Accepts self.now }
    {
        for state in self.states.states() {
            if self.nfa.is_accepting_state(*state) {
                return true;
            }
        }
        false
    }

    // The text up to this offset, if the pattern matches the prefix that leads here.
    fn accepted<'text>(&self, text: &'text str, end: usize) -> Option<&'text str>
        requires boundary { IsCharBoundary text.now end }
        ensures { IsIfAccepted self.now (take end text.now) (option_map (λ s. s.now) result) }
    {
        if self.accepts() {
            Some(&text[..end])
        } else {
            None
        }
    }

    // Whether the pattern matches no continuation of the prefix that leads here.
    fn rejects(&self) -> bool
        ensures { IsTrue result ↔ Rejects self.now }
    {
        for state in self.states.states() {
            if !self.nfa.is_rejecting_state(*state) {
                return false;
            }
        }
        true
    }
}

impl StateSet {
    // Adds the states to which edges that read nothing lead from the state.
    fn add_epsilon_targets(&mut self, nfa: &Nfa, from: NfaStateIndex) -> Result<(), AllocError>
        requires is_state { from < length nfa.now.kinds }
        ensures { OnOk result (IsGrown self.old self.new (IsEpsilonEdge nfa.now.edges from)) }
    {
        for edge in nfa.edges::<Noop>(from) {
            self.insert(edge.to)?;
        }
        Ok(())
    }

    // Adds the states to which the state leads by the value: by the tests that cover it, otherwise by its other edges.
    fn add_read(&mut self, nfa: &Nfa, from: NfaStateIndex, value: u32) -> Result<(), AllocError>
        requires is_state { from < length nfa.now.kinds }
        ensures { OnOk result (IsGrown self.old self.new (Reads nfa.now.edges from value)) }
    {
        let mut is_tested = false;
        for test_edge in nfa.edges::<Test>(from) {
            if test_edge.label.contains_u32(value) {
                is_tested = true;
                self.insert(test_edge.to)?;
            }
        }
        if is_tested {
            return Ok(());
        }
        for other_edge in nfa.edges::<Other>(from) {
            self.insert(other_edge.to)?;
        }
        Ok(())
    }

    // Adds the states that the listed ones lead to by reading nothing, and counts a step for each listed state when its edges
    // are followed. A state is listed once, so cycles of such edges end.
    fn close(&mut self, nfa: &Nfa, steps: &mut Steps) -> Result<(), AllocError>
        requires room { self.old.room ≡ length nfa.now.kinds }
        ensures states { OnOk result (IsClosure nfa.now.edges self.old self.new) }
        ensures cost { steps.new ≤ steps.old + length nfa.now.kinds }
        ensures never_falls { steps.old ≤ steps.new }
    {
        let mut place = 0;
        while place < self.states().len() {
            steps.tick();
            let from = self.states()[place];
            self.add_epsilon_targets(nfa, from)?;
            place += 1;
        }
        Ok(())
    }
}
