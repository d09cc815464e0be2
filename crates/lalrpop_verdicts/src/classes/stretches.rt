//! Stretches of values, in each of which a state leads to one state.

ghost use Rattle.std.specs.Prelude.{◌≡◌, ℕ, List, ◌<◌, ◌≤◌, ◌/◌, length, map, IfOk, IsTrue, OnOk, ◌↔◌};
ghost use Rattle.std.specs.List.{Contains};
ghost use Rattle.std.specs.List.Sorted.{IsNonDecreasing};
ghost use Rattle.lalrpop_hir.specs.Range.{Range};
ghost use Rattle.lalrpop_dfa.specs.Dfa.{AreAscendingTests, IsWellFormed, edge_target, step};
ghost use Rattle.lalrpop_dfa.specs.Stored.{EndBefore};
ghost use Rattle.lalrpop_verdicts.specs.Internal.Classes.{AreColumns, AreLeads, AreListed, AreMarkedWith, AreTried, HasFirsts, IsBounded, IsMarked, IsMore, leads_of};

use super::split::split;
use lalrpop_dfa::{Dfa, DfaStateIndex};
use lalrpop_hir::Test;
use std::alloc::{AllocError, Global};
use std::collections::HashSet;

// Sets the mark of the value.
fn set_mark(marks: &mut [u64], value: u32)
    requires within { value / 64 < length marks.old }
    ensures { AreMarkedWith marks.old value marks.new }
{
    marks[value as usize / 64] |= 1u64 << (value % 64);
}

// Numbers in the order in which they were first added. A number below the bound has a mark, which costs less than a look into the
// set.
#[derive(Drop)]
struct Distinct {
    known: HashSet<u32>,
    // A bit for each number.
    marks: Vec<u64>,
    values: Vec<u32>,
}

impl Distinct {
    // No numbers, and marks for the first `words` times 64.
    fn new(alloc: Global, words: usize) -> Result<Distinct, AllocError>
        ensures { IfOk result (λ numbers.
            AreListed numbers.known numbers.marks.items numbers.values.items) }
    {
        Ok(Distinct {
            known: HashSet::new(alloc),
            marks: vec![in alloc; 0u64; words]?,
            values: Vec::new(alloc),
        })
    }

    // Whether the value is marked.
    #[inline(always)]
    fn is_marked(&self, value: u32) -> bool
        ensures { IsTrue result ↔ IsMarked self.now.marks.items value }
    {
        let word = value as usize / 64;
        word < self.marks.len() && self.marks[word] >> (value % 64) & 1 == 1
    }

    // Adds a value that isn't marked: it gets its mark, or is put into the set if it can have none.
    #[inline(never)]
    fn add_unmarked(&mut self, value: u32) -> Result<(), AllocError>
        requires { AreListed self.old.known self.old.marks.items self.old.values.items }
        ensures listed { OnOk result
            (AreListed self.new.known self.new.marks.items self.new.values.items) }
        ensures more { OnOk result (IsMore self.old.values.items self.new.values.items) }
        ensures added { OnOk result (Contains self.new.values.items value) }
    {
        if value as usize / 64 < self.marks.len() {
            set_mark(&mut self.marks, value);
            self.values.push(value)?;
        } else if self.known.insert(value)? {
            self.values.push(value)?;
        }
        Ok(())
    }

    // Adds a value. Nearly all were added before, and are marked: this path is kept short.
    #[inline(always)]
    fn add(&mut self, value: u32) -> Result<(), AllocError>
        requires { AreListed self.old.known self.old.marks.items self.old.values.items }
        ensures listed { OnOk result
            (AreListed self.new.known self.new.marks.items self.new.values.items) }
        ensures more { OnOk result (IsMore self.old.values.items self.new.values.items) }
        ensures added { OnOk result (Contains self.new.values.items value) }
    {
        if self.is_marked(value) {
            return Ok(());
        }
        self.add_unmarked(value)
    }

    // Adds the first value of the range, and the one after it, if 32 bits hold that.
    fn add_ends(&mut self, range: &Test) -> Result<(), AllocError>
        requires { AreListed self.old.known self.old.marks.items self.old.values.items }
        ensures listed { OnOk result
            (AreListed self.new.known self.new.marks.items self.new.values.items) }
        ensures more { OnOk result (IsMore self.old.values.items self.new.values.items) }
        ensures bounded { OnOk result (IsBounded self.new.values.items range.now) }
    {
        self.add(range.start())?;
        let end = range.end();
        if end == u32::MAX {
            return Ok(());
        }
        self.add(end + 1)?;
        Ok(())
    }

    // Adds the values at which the stretches of the edges begin.
    fn add_bounds(&mut self, edges: &[(Test, DfaStateIndex)]) -> Result<(), AllocError>
        requires { AreListed self.old.known self.old.marks.items self.old.values.items }
        ensures listed { OnOk result
            (AreListed self.new.known self.new.marks.items self.new.values.items) }
        ensures more { OnOk result (IsMore self.old.values.items self.new.values.items) }
        ensures bounded { OnOk result ((t : Range × ℕ) → Contains edges.now t
            → IsBounded self.new.values.items t.0) }
    {
        for (test, _) in edges {
            self.add_ends(test)?;
        }
        Ok(())
    }
}

// Where the value leads. The place moves on to the first edge that doesn't end before the value.
fn walk_to(
    value: u32,
    edges: &[(Test, DfaStateIndex)],
    other: DfaStateIndex,
    place: &mut usize,
) -> DfaStateIndex
    requires ascending { AreAscendingTests edges.now }
    requires passed { EndBefore edges.now place.old value }
    ensures leads { result ≡ edge_target edges.now other value }
    ensures passed { EndBefore edges.now place.new value }
{
    while *place < edges.len() && edges[*place].0.end() < value {
        *place += 1;
    }
    match edges.get(*place) {
        Some((test, target)) if test.start() <= value => *target,
        _ => other,
    }
}

// Where these values lead from the state. They ascend, so its edges are walked along once.
fn write_targets(dfa: &Dfa, state: DfaStateIndex, values: &[u32], targets: &mut [usize])
    requires within { state < length dfa.now }
    requires ascending { IsNonDecreasing values.now }
    requires same_length { length targets.old ≡ length values.now }
    ensures { targets.new ≡ map (step dfa.now state) values.now }
{
    let edges = dfa.test_edges(state);
    let other = dfa.state(state).other_edge();
    let mut place = 0;
    for index in 0..values.len() {
        targets[index] = walk_to(values[index], edges, other, &mut place).index();
    }
}

// For each value the place of one that leads alike from all states.
fn alike(alloc: Global, dfa: &Dfa, values: &[u32]) -> Result<Vec<usize>, AllocError>
    requires ascending { IsNonDecreasing values.now }
    ensures { IfOk result (λ firsts. AreColumns dfa.now (length dfa.now) values.now firsts.items) }
{
    let mut firsts = vec![in alloc; 0; values.len()]?;
    // One list for the targets of each state in turn.
    let mut targets = vec![in alloc; 0; values.len()]?;
    for number in 0..dfa.states().len() {
        write_targets(dfa, DfaStateIndex::new(number), values, &mut targets);
        split(alloc, &mut firsts, &targets)?;
    }
    Ok(firsts)
}

// The values that are the first of those that lead as they do.
fn first_values(alloc: Global, values: &[u32], firsts: &[usize]) -> Result<Vec<u32>, AllocError>
    requires { length firsts.now ≡ length values.now }
    ensures { IfOk result (λ kept. HasFirsts (length firsts.now) values.now firsts.now kept.items) }
{
    let mut kept = Vec::new(alloc);
    for place in 0..firsts.len() {
        if firsts[place] == place {
            kept.push(values[place])?;
        }
    }
    Ok(kept)
}

// How many words of 64 marks there are: up to the mark of the value after the last test edge, or after the last character.
fn mark_words(dfa: &Dfa) -> usize
    ensures { result ≤ 17409 }
{
    let mut last = 0;
    for number in 0..dfa.states().len() {
        if let Some((test, _)) = dfa.test_edges(DfaStateIndex::new(number)).last() {
            last = test.end().max(last);
        }
    }
    (last.min(0x10_FFFF) as usize + 1) / 64 + 1
}

// A value of each stretch: where it leads, each value of its stretch leads.
fn bounds(alloc: Global, dfa: &Dfa) -> Result<Vec<u32>, AllocError>
    ensures tried { IfOk result (λ values. AreTried dfa.now values.items) }
    ensures well_formed { OnOk result (IsWellFormed dfa.now) }
{
    let mut bounds = Distinct::new(alloc, mark_words(dfa))?;
    bounds.add(0)?;
    for number in 0..dfa.states().len() {
        bounds.add_bounds(dfa.test_edges(DfaStateIndex::new(number)))?;
    }
    let Distinct { values, .. } = bounds;
    Ok(values)
}

/// A value of each stretch: where it leads, each value of its stretch leads. Stretches that lead alike from all states are one.
pub(super) fn stretches(alloc: Global, dfa: &Dfa) -> Result<Vec<u32>, AllocError>
    ensures tried { IfOk result (λ values. AreTried dfa.now values.items) }
    ensures well_formed { OnOk result (IsWellFormed dfa.now) }
{
    let mut values = bounds(alloc, dfa)?;
    values.sort_unstable();
    let firsts = alike(alloc, dfa, &values)?;
    first_values(alloc, &values, &firsts)
}

// The state itself, then where values beyond all test edges lead, then where these values lead.
fn leads_from(
    alloc: Global,
    dfa: &Dfa,
    state: DfaStateIndex,
    values: &[u32],
) -> Result<Vec<usize>, AllocError>
    requires { state < length dfa.now }
    ensures { IfOk result (λ row. row.items ≡ leads_of dfa.now values.now state) }
{
    let mut row = Vec::with_capacity(alloc, values.len() + 2)?;
    row.push(state.index())?;
    row.push(dfa.state(state).other_edge().index())?;
    for value in values {
        row.push(dfa.step(state, *value).index())?;
    }
    Ok(row)
}

/// For each state the state itself, then where values beyond all test edges lead, then where these values lead.
pub(super) fn leads(alloc: Global, dfa: &Dfa, values: &[u32]) -> Result<Vec<Vec<usize>>, AllocError>
    ensures { IfOk result (λ table. AreLeads dfa.now values.now table.items) }
{
    let mut table = Vec::with_capacity(alloc, dfa.states().len())?;
    for number in 0..dfa.states().len() {
        table.push(leads_from(alloc, dfa, DfaStateIndex::new(number), values)?)?;
    }
    Ok(table)
}
