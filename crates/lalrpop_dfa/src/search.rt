//! Finding where a value leads from a state, among the state's test edges.

ghost use Rattle.std.specs.Prelude.{◌≡◌, ℕ, ◌+◌, ◌^◌, ◌<◌, ◌≤◌, length, slice_get, Some, IfSome, IfNone, IfOk};
ghost use Rattle.std.specs.List.{Contains};
ghost use Rattle.lalrpop_hir.specs.Range.{Range, Covers};
ghost use Rattle.lalrpop_dfa.specs.Counts.{HaveAtMost};
ghost use Rattle.lalrpop_dfa.specs.Dfa.{edge_target, step, AreAscendingTests, IsWellFormed};
ghost use Rattle.lalrpop_dfa.specs.Stored.{AreSteps, EndBefore};

use super::rows::Rows;
use super::{Dfa, DfaStateIndex};
use lalrpop_hir::{Steps, Test};
use std::alloc::{AllocError, Global};

/// The number of values whose targets a state's list has: those of ASCII.
pub(super) const LISTED: usize = 128;

// A state with fewer test edges has no list, so the lists take at most 128 bytes for each test edge.
const LEAST_EDGES: usize = 4;

impl Dfa {
    /// The automaton with these states.
    ///
    /// # Errors
    ///
    /// `AllocError` if a request for memory was refused.
    pub fn new(alloc: Global, rows: Rows) -> Result<Dfa, AllocError>
        requires { IsWellFormed rows }
        ensures { IfOk result (λ dfa. dfa ≡ rows) }
    {
        let mut places = Vec::new(alloc);
        let mut lists = Vec::new(alloc);
        for number in 0..rows.len() {
            let list = rows.list_of(DfaStateIndex::new(number));
            match list {
                Some(list) => {
                    places.push(Some(lists.len()))?;
                    lists.push(list)?;
                }
                None => places.push(None)?,
            }
        }
        Ok(Dfa {
            rows,
            places,
            lists,
        })
    }

    /// The state that the value leads to from this one: by the test edge that holds it, or else by the other edge. So a text
    /// that comes in parts can be run as it comes, from `START` on.
    pub fn step(&self, from: DfaStateIndex, value: u32) -> DfaStateIndex
        requires within { from < length self.now }
        ensures leads { result ≡ step self.now from value }
        ensures within { result < length self.now }
    {
        self.step_probed(from, value, &mut Steps::new())
    }

    /// The same state. A probe is counted for each range of a test edge that is compared with the value.
    pub(super) fn step_probed(
        &self,
        state: DfaStateIndex,
        value: u32,
        probes: &mut Steps,
    ) -> DfaStateIndex
        requires { state < length self.now }
        ensures leads { result ≡ step self.now state value }
        ensures within { result < length self.now }
        ensures never_falls { probes.old ≤ probes.new }
        ensures probed { (n d : ℕ) → HaveAtMost self.now n → n < 2 ^ d
            → probes.new ≤ probes.old + d }
    {
        if let Some(place) = self.places[state.index()] {
            let list = &self.lists[place];
            if (value as usize) < list.len() {
                return DfaStateIndex::new(list[value as usize] as usize);
            }
        }
        self.rows.step(state, value, probes)
    }
}

impl Rows {
    // Where the values of ASCII lead from the state; `None` if it has few test edges, or a target beyond 32 bits.
    fn list_of(&self, state: DfaStateIndex) -> Option<[u32; LISTED]>
        requires well_formed { IsWellFormed self.now }
        requires within { state < length self.now }
        ensures { IfSome result (λ targets. AreSteps self.now state targets) }
    {
        let edges = self.test_edges(state);
        if edges.len() < LEAST_EDGES {
            return None;
        }
        list_by(edges, self.state(state).other_edge())
    }

    /// The state that the value leads to: by the test edge that covers it, otherwise by the other edge.
    fn step(&self, state: DfaStateIndex, value: u32, probes: &mut Steps) -> DfaStateIndex
        requires well_formed { IsWellFormed self.now }
        requires within { state < length self.now }
        ensures leads { result ≡ step self.now state value }
        ensures within { result < length self.now }
        ensures never_falls { probes.old ≤ probes.new }
        ensures probed { (n d : ℕ) → HaveAtMost self.now n → n < 2 ^ d
            → probes.new ≤ probes.old + d }
    {
        match target_of(self.test_edges(state), value, probes) {
            Some(target) => target,
            None => self.state(state).other_edge(),
        }
    }
}

// Where the values of ASCII lead by these edges, otherwise by the other edge; `None` if a target is beyond 32 bits.
fn list_by(edges: &[(Test, DfaStateIndex)], other: DfaStateIndex) -> Option<[u32; LISTED]>
    requires { AreAscendingTests edges.now }
    ensures { IfSome result (λ targets. (c : ℕ) → c < 128
        → slice_get targets c ≡ Some (edge_target edges.now other c)) }
{
    let mut targets = [0; LISTED];
    let mut place = 0;
    for value in 0..LISTED {
        let target = walk_to(value as u32, edges, other, &mut place);
        targets[value] = u32::try_from(target.index()).ok()?;
    }
    Some(targets)
}

// Where the value leads. The place moves on to the first edge that does not end before the value.
fn walk_to(
    value: u32,
    edges: &[(Test, DfaStateIndex)],
    other: DfaStateIndex,
    place: &mut usize,
) -> DfaStateIndex
    requires ascending { AreAscendingTests edges.now }
    requires passed { EndBefore edges.now place.old value }
    ensures leads { result ≡ edge_target edges.now other value }
    ensures passed { EndBefore edges.now place.new value }
{
    while *place < edges.len() && edges[*place].0.end() < value {
        *place += 1;
    }
    match edges.get(*place) {
        Some((test, target)) if test.start() <= value => *target,
        _ => other,
    }
}

// The target of the edge whose range covers the value. The edges ascend, so each probe leaves less than half of them.
fn target_of(
    edges: &[(Test, DfaStateIndex)],
    value: u32,
    probes: &mut Steps,
) -> Option<DfaStateIndex>
    requires { AreAscendingTests edges.now }
    ensures found { IfSome result (λ target.
        (t : Range × ℕ) × (Contains edges.now t × Covers t.0 value × (t.1 ≡ target))) }
    ensures none { IfNone result ((t : Range × ℕ) → Contains edges.now t → ¬ Covers t.0 value) }
    ensures never_falls { probes.old ≤ probes.new }
    ensures probed { (d : ℕ) → length edges.now < 2 ^ d → probes.new ≤ probes.old + d }
{
    let mut first = 0;
    let mut end = edges.len();
    while first < end {
        let middle = first + (end - first) / 2;
        let (test, target) = &edges[middle];
        probes.tick();
        if value < test.start() {
            end = middle;
        } else if test.end() < value {
            first = middle + 1;
        } else {
            return Some(*target);
        }
    }
    None
}
