//! The pairs of states that the texts lead to in two automata, by breadth first search.
ghost use Rattle.std.specs.Prelude.{◌≡◌, ℕ, ◌<◌, ◌≤◌, ◌+◌, List, [], Some, length, slice_get, IfOk, IfSome, IfNone, OnOk, MatchOption, not, true};
ghost use Rattle.lalrpop_dfa.specs.Dfa.{Row, edge_target, AreAscendingTests};
ghost use Rattle.lalrpop_dfa.specs.Stored.{EndBefore};
ghost use Rattle.lalrpop_verdicts.specs.Internal.Pairs.{ArePairs, ends_at, is_character, number_of, AreEdges, AreMet, IsAdded, IsLastCharacter, IsNextCharacter, IsTaken, IsTurn};

use lalrpop_dfa::{Dfa, DfaStateIndex, Kind, START};
use lalrpop_hir::Test;
use std::alloc::{AllocError, Global};
use std::collections::HashSet;

/// Which pairs of states a walk goes on from.
#[derive(Clone, Copy, Debug, Drop)]
pub(crate) enum Follow {
    /// From each.
    All,
    /// From those whose left state doesn't reject; the others are left out.
    LeftAlive,
}

impl Follow {
    // Whether a walk goes on from this state of the left automaton.
    #[inline(always)]
    fn goes_on(self, left: &Dfa, state: DfaStateIndex) -> bool
        requires { state < length left.now }
        ensures { result ≡ not (ends_at self left.now state) }
    {
        match self {
            Follow::All => true,
            Follow::LeftAlive => match left.state(state).kind() {
                Kind::Reject => false,
                Kind::Accepts(_) | Kind::Neither => true,
            },
        }
    }
}

/// A pair of states, and how a walk came to it first.
#[derive(Clone, Copy, Debug, Drop)]
pub(crate) struct Pair {
    pub(crate) left: DfaStateIndex,
    pub(crate) right: DfaStateIndex,
    /// The number of the pair before; `None` where the walk began.
    pub(crate) from: Option<usize>,
    /// The character that led on from there.
    pub(crate) value: u32,
}

/// Values that follow one another and lead to one state: the state, and the last of them.
#[derive(Clone, Copy, Drop)]
struct Stretch {
    target: DfaStateIndex,
    last: u32,
}

// The values from this one on that lead to one state. The place moves on to the first edge that doesn't end before the value.
#[inline(always)]
fn stretch_at(
    edges: &[(Test, DfaStateIndex)],
    other: DfaStateIndex,
    place: &mut usize,
    value: u32,
) -> Stretch
    requires ascending { AreAscendingTests edges.now }
    requires passed { EndBefore edges.now place.old value }
    ensures leads { (c : ℕ) → value ≤ c → c ≤ result.last
        → edge_target edges.now other c ≡ result.target }
    ensures some { value ≤ result.last }
    ensures passed { EndBefore edges.now place.new value }
{
    while *place < edges.len() && edges[*place].0.end() < value {
        *place += 1;
    }
    match edges.get(*place) {
        Some((test, target)) if test.start() <= value => Stretch {
            target: *target,
            last: test.end(),
        },
        Some((test, _)) => Stretch {
            target: other,
            last: test.start() - 1,
        },
        None => Stretch {
            target: other,
            last: u32::MAX,
        },
    }
}

/// The edges of a state: its test edges, which ascend, and where all other values lead.
#[derive(Clone, Copy, Drop)]
struct Edges<'given> {
    state: DfaStateIndex,
    tests: &'given [(Test, DfaStateIndex)],
    other: DfaStateIndex,
}

// The edges of the state. They are looked for once, and not for each value.
fn edges_of(dfa: &Dfa, state: DfaStateIndex) -> Edges<'_>
    requires { state < length dfa.now }
    ensures state { result.state ≡ state }
    ensures edges { AreEdges dfa.now state result.tests.now result.other }
{
    Edges {
        state,
        tests: dfa.test_edges(state),
        other: dfa.state(state).other_edge(),
    }
}

/// How many test edges of either state of a turn have been passed. Values are taken in ascending order, so none is looked for.
#[derive(Drop)]
struct Passed {
    left: usize,
    right: usize,
}

// The next character beyond the value.
#[inline(always)]
fn next_character(value: u32) -> Option<u32>
    ensures { MatchOption result (IsLastCharacter value) (IsNextCharacter value) }
{
    match value {
        0..0xD7FF | 0xE000..0x10_FFFF => Some(value + 1),
        0xD7FF..0xE000 => Some(0xE000),
        _ => None,
    }
}

/// The pairs of a walk so far, in the order in which they were met.
#[derive(Drop)]
struct Met {
    pairs: Vec<Pair>,
    // The states of the pairs.
    states: HashSet<(usize, usize)>,
    // Those that were looked for last: most stretches lead to the pair that the one before led to.
    latest: Option<(usize, usize)>,
}

impl Met {
    // No pairs, and room for as many.
    fn with_capacity(alloc: Global, count: usize) -> Result<Met, AllocError>
        ensures pairs { IfOk result (λ met. met.pairs.items ≡ []) }
        ensures known { IfOk result (λ met. AreMet met.states.keys met.latest met.pairs.items) }
    {
        Ok(Met {
            pairs: Vec::with_capacity(alloc, count)?,
            states: HashSet::new(alloc),
            latest: None,
        })
    }

    // Adds a pair whose states weren't looked for last, unless one with its states has been met.
    #[inline(never)]
    fn add_other(&mut self, pair: Pair) -> Result<(), AllocError>
        requires known { AreMet self.old.states.keys self.old.latest self.old.pairs.items }
        ensures known { OnOk result (
            AreMet self.new.states.keys self.new.latest self.new.pairs.items) }
        ensures added { OnOk result (IsAdded self.old.pairs.items pair self.new.pairs.items) }
    {
        let left = pair.left.index();
        let right = pair.right.index();
        self.latest = Some((left, right));
        if self.states.insert((left, right))? {
            self.pairs.push(pair)?;
        }
        Ok(())
    }

    // Adds a pair, unless one with its states has been met. Most often its states were looked for last: this path is kept short.
    #[inline(always)]
    fn add(&mut self, pair: Pair) -> Result<(), AllocError>
        requires known { AreMet self.old.states.keys self.old.latest self.old.pairs.items }
        ensures known { OnOk result (
            AreMet self.new.states.keys self.new.latest self.new.pairs.items) }
        ensures added { OnOk result (IsAdded self.old.pairs.items pair self.new.pairs.items) }
    {
        let left = pair.left.index();
        let right = pair.right.index();
        if let Some(latest) = self.latest
            && latest.0 == left
            && latest.1 == right
        {
            return Ok(());
        }
        self.add_other(pair)
    }
}

/// The states of a pair from which a walk goes on, and the pair's number; `None` where the walk begins.
#[derive(Drop)]
struct Turn<'given> {
    from: Option<usize>,
    left: Edges<'given>,
    right: Edges<'given>,
}

/// A walk over the pairs of two automata.
#[derive(Clone, Copy, Drop)]
struct Walk<'given> {
    left: &'given Dfa,
    right: &'given Dfa,
    follow: Follow,
}

impl<'given> Walk<'given> {
    // Takes the values from this character on that lead from the turn's states to one pair, which is added unless it has been
    // met, and returns the next character beyond them. If the walk ends at the left state, no right one is looked for.
    #[inline(always)]
    fn take(
        self,
        met: &mut Met,
        turn: &Turn<'_>,
        passed: &mut Passed,
        value: u32,
    ) -> Result<Option<u32>, AllocError>
        requires left_edges { AreEdges self.left.now
            turn.now.left.state turn.now.left.tests.now turn.now.left.other }
        requires right_edges { AreEdges self.right.now
            turn.now.right.state turn.now.right.tests.now turn.now.right.other }
        requires known { AreMet met.old.states.keys met.old.latest met.old.pairs.items }
        requires character { is_character value ≡ true }
        requires left_passed { EndBefore turn.now.left.tests.now passed.old.left value }
        requires right_passed { EndBefore turn.now.right.tests.now passed.old.right value }
        requires turn { IsTurn self.follow self.left.now self.right.now met.old.pairs.items
            (number_of turn.now.from) turn.now.left.state turn.now.right.state value }
        ensures known { OnOk result (
            AreMet met.new.states.keys met.new.latest met.new.pairs.items) }
        ensures left_passed { IfOk result (λ next. IfSome next (λ n.
            EndBefore turn.now.left.tests.now passed.new.left n)) }
        ensures right_passed { IfOk result (λ next. IfSome next (λ n.
            EndBefore turn.now.right.tests.now passed.new.right n)) }
        ensures next { IfOk result (λ next.
            IfSome next (λ n. (value < n) × (is_character n ≡ true))) }
        ensures turn { IfOk result (λ next.
            IfSome next (IsTurn self.entry.follow self.entry.left.now self.entry.right.now
            met.new.pairs.items (number_of turn.now.from)
            turn.now.left.state turn.now.right.state)) }
        ensures done { IfOk result (λ next.
            IfNone next (IsTaken self.entry.follow self.entry.left.now self.entry.right.now
            met.new.pairs.items (number_of turn.now.from + 1) 0)) }
    {
        let left = stretch_at(turn.left.tests, turn.left.other, &mut passed.left, value);
        if !self.follow.goes_on(self.left, left.target) {
            return Ok(next_character(left.last));
        }
        let right = stretch_at(turn.right.tests, turn.right.other, &mut passed.right, value);
        met.add(Pair {
            left: left.target,
            right: right.target,
            from: turn.from,
            value,
        })?;
        Ok(next_character(left.last.min(right.last)))
    }

    // Adds the pairs that one character leads to from these states, at which the pair with the number `from` is.
    fn expand(
        self,
        met: &mut Met,
        from: Option<usize>,
        left: DfaStateIndex,
        right: DfaStateIndex,
    ) -> Result<(), AllocError>
        requires left_within { left < length self.left.now }
        requires right_within { right < length self.right.now }
        requires known { AreMet met.old.states.keys met.old.latest met.old.pairs.items }
        requires turn { IsTurn self.follow self.left.now self.right.now met.old.pairs.items
            (number_of from) left right 0 }
        ensures known { OnOk result (
            AreMet met.new.states.keys met.new.latest met.new.pairs.items) }
        ensures taken { OnOk result (
            IsTaken self.entry.follow self.entry.left.now self.entry.right.now
            met.new.pairs.items (number_of from + 1) 0) }
    {
        let turn = Turn {
            from,
            left: edges_of(self.left, left),
            right: edges_of(self.right, right),
        };
        let mut passed = Passed { left: 0, right: 0 };
        let mut value = 0;
        while let Some(next) = self.take(met, &turn, &mut passed, value)? {
            value = next;
        }
        Ok(())
    }
}

/// The pairs of states that nonempty pieces of text lead to, in the order of their least words.
///
/// It takes one step for each pair and each stretch of characters that lead alike from both its states. If the walk ends at the
/// left state, the edges of the right one don't count. So a keyword's automaton takes few steps beside a large one.
///
/// # Errors
///
/// `AllocError` if a request for memory was refused.
pub(crate) fn pairs(
    alloc: Global,
    left: &Dfa,
    right: &Dfa,
    follow: Follow,
) -> Result<Vec<Pair>, AllocError>
    ensures pairs { IfOk result (λ found. ArePairs follow left.now right.now found.items) }
{
    let walk = Walk {
        left,
        right,
        follow,
    };
    // A first guess: where the walk goes on from all pairs, each state that it reaches is in one of them.
    let least = left.states().len().min(right.states().len());
    let mut met = Met::with_capacity(alloc, least)?;
    walk.expand(&mut met, None, START, START)?;
    let mut number = 0;
    while number < met.pairs.len() {
        let pair = met.pairs[number];
        walk.expand(&mut met, Some(number), pair.left, pair.right)?;
        number += 1;
    }
    let Met { pairs, .. } = met;
    Ok(pairs)
}

/// The least word that leads to the pair with this number, by the code values of its characters.
///
/// # Errors
///
/// `AllocError` if a request for memory was refused.
pub(crate) fn word_to(alloc: Global, pairs: &[Pair], number: usize) -> Result<Vec<u32>, AllocError>
    requires pairs { (follow : Follow) × (l : List Row) × (r : List Row)
        × ArePairs follow l r pairs.now }
    requires within { number < length pairs.now }
    ensures word { IfOk result (λ word.
        (follow : Follow) (l r : List Row) (h : ArePairs follow l r pairs.now)
        → slice_get h.words number ≡ Some word.items) }
{
    let mut values = Vec::new(alloc);
    let mut place = Some(number);
    while let Some(number) = place {
        let pair = pairs[number];
        values.push(pair.value)?;
        place = pair.from;
    }
    values.reverse();
    Ok(values)
}
