//! Where items lead: by reading nothing, and by a value.

ghost use Rattle.std.specs.Prelude.{◌≡◌, ◌≢◌, ◌↔◌, ℕ, ◌<◌, ◌≤◌, IsTrue, ◌++◌, [], length, slice_get, Some, IfOk, OnOk};
ghost use Rattle.std.specs.List.{range_with_len};
ghost use Rattle.std.specs.List.Sorted.{IsSorted, IsStrictlySortedBy};
ghost use Rattle.std.specs.Ordering.{nat_cmp};
ghost use Rattle.std.specs.declared.cmp.Ordering.TheVariants.{Less};
ghost use Rattle.lalrpop_dfa.specs.Ascending.{Item, item_cmp, AreAscendingItems, AreByPattern};
ghost use Rattle.lalrpop_build.specs.Internal.Given.{IsItemOf, AreAutomata, AreItemsOf};
ghost use Rattle.lalrpop_dfa.specs.LiveItems.{live_of};
ghost use Rattle.lalrpop_dfa.specs.Split.{full, still_live, AreBefore, AreLivePatterns, AreWithin};
ghost use Rattle.lalrpop_build.specs.Internal.Subsets.{closed, move};
ghost use Rattle.lalrpop_build.specs.Internal.Transitions.{transition_cmp, AreTransitions};
ghost use Rattle.lalrpop_build.specs.Internal.Worklist.{epsilon_targets, marked, AreOfPattern, pattern_at};

use super::moves::targets_by;
use super::transitions::Transition;
use super::worklist::{Marks, Worklist};
use lalrpop_dfa::{Item, ItemSet};
use lalrpop_hir::NfaIndex;
use lalrpop_nfa::{Nfa, NfaStateIndex, Noop, REJECT};
use std::alloc::{AllocError, Global};
use std::collections::BTreeSet;
use std::marker::Model;

// Marks are used if a pattern has at most this many states for each of its given items.
const STATES_FOR_AN_ITEM: usize = 16;

/// The lists in which a set of items is computed, reused from set to set: the targets of the items, the items found,
/// those of a pattern, and the parts of the set. They are emptied before each use.
#[derive(Drop)]
pub struct Workspace {
    targets: Vec<Item>,
    found: Vec<Item>,
    worklist: Worklist<Marks>,
    parts: Parts,
}

impl Model for Workspace {
    ghost use Rattle.std.specs.Prelude.{ℕ, ◌+◌, length};

    ghost Value = { ℕ };

    // The number of entries in it.
    ghost view = { λ w. length w.targets.items + length w.found.items + length w.worklist.seen.marks.items
        + length w.worklist.pending.items + length w.parts.live.items + length w.parts.live_patterns.items };
}

impl Workspace {
    /// An empty workspace.
    pub fn new(alloc: Global) -> Workspace
        ensures empty { result ≡ 0 }
    {
        Workspace {
            targets: Vec::new(alloc),
            found: Vec::new(alloc),
            worklist: Worklist {
                seen: Marks {
                    pattern: NfaIndex::new(0),
                    marks: Vec::new(alloc),
                },
                pending: Vec::new(alloc),
            },
            parts: Parts {
                live: Vec::new(alloc),
                live_patterns: Vec::new(alloc),
            },
        }
    }
}

// The live items of a set and its live patterns. The set gets copies of exactly the length needed.
#[derive(Drop)]
struct Parts {
    live: Vec<Item>,
    live_patterns: Vec<usize>,
}

// Adds the items of a pattern whose states have a mark.
fn push_states(pattern: NfaIndex, marks: &[bool], found: &mut Vec<Item>) -> Result<(), AllocError>
    ensures { OnOk result (found.new.items ≡ found.old.items ++ marked pattern marks.now) }
{
    for state in 0..marks.len() {
        if marks[state] {
            found.push(Item::new(pattern, NfaStateIndex::new(state)))?;
        }
    }
    Ok(())
}

// Whether no edge that reads nothing leaves the item's state.
fn stays(nfas: &[Nfa], item: Item) -> bool
    requires { IsItemOf nfas.now item }
    ensures { IsTrue result ↔ (epsilon_targets nfas.now item ≡ []) }
{
    let mut edges = item.nfa(nfas).edges::<Noop>(item.state());
    edges.next().is_none()
}

// The items of one pattern, and all that they lead to by reading nothing: by marks if many are given, otherwise by an
// ordered set, so that the time doesn't grow with the pattern if few are given.
fn follow_pattern(
    alloc: Global,
    nfas: &[Nfa],
    worklist: &mut Worklist<Marks>,
    pattern: NfaIndex,
    given: &[Item],
    found: &mut Vec<Item>,
) -> Result<(), AllocError>
    requires automata { AreAutomata nfas.now }
    requires inside { AreItemsOf nfas.now given.now }
    requires pattern { AreOfPattern pattern given.now }
    requires within { pattern < length nfas.now }
    ensures { OnOk result (found.new.items ≡ found.old.items ++ closed nfas.now given.now) }
{
    if let [item] = given {
        if stays(nfas, *item) {
            found.push(*item)?;
            return Ok(());
        }
    }
    let states = nfas[pattern.index()].len();
    if states / STATES_FOR_AN_ITEM <= given.len() {
        worklist.seen.begin(pattern, states)?;
        worklist.follow_from(nfas, given)?;
        return push_states(worklist.seen.pattern, &worklist.seen.marks, found);
    }
    let mut ordered = Worklist {
        seen: BTreeSet::<Item>::new(alloc),
        pending: Vec::new(alloc),
    };
    ordered.follow_from(nfas, given)?;
    for item in ordered.seen {
        found.push(item)?;
    }
    Ok(())
}

// The first place after `from` at which there is an item of another pattern.
fn end_of_pattern(items: &[Item], from: usize) -> usize
    requires from { from < length items.now }
    ensures behind { from < result }
    ensures within { result ≤ length items.now }
    ensures same { (k : ℕ) → from ≤ k → k < result
        → pattern_at items.now k ≡ pattern_at items.now from }
    ensures next { result < length items.now
        → pattern_at items.now result ≢ pattern_at items.now from }
{
    let pattern = items[from].pattern();
    let mut end = from + 1;
    while end < items.len() && items[end].pattern() == pattern {
        end += 1;
    }
    end
}

// Finds the given items and all that they lead to by reading nothing, pattern by pattern.
fn follow_all(
    alloc: Global,
    nfas: &[Nfa],
    worklist: &mut Worklist<Marks>,
    given: &[Item],
    found: &mut Vec<Item>,
) -> Result<(), AllocError>
    requires automata { AreAutomata nfas.now }
    requires inside { AreItemsOf nfas.now given.now }
    requires by_pattern { AreByPattern given.now }
    ensures { OnOk result (found.new.items ≡ closed nfas.now given.now) }
{
    found.clear();
    let mut from = 0;
    while from < given.len() {
        let end = end_of_pattern(given, from);
        follow_pattern(
            alloc,
            nfas,
            worklist,
            given[from].pattern(),
            &given[from..end],
            found,
        )?;
        from = end;
    }
    Ok(())
}

// The first place, from this one on, whose item is not before the given one.
fn place_of(items: &[Item], from: usize, item: Item) -> usize
    requires within { from ≤ length items.now }
    requires before { AreBefore items.now from item }
    ensures within { result ≤ length items.now }
    ensures before { AreBefore items.now result item }
    ensures next { (y : Item) → slice_get items.now result ≡ Some y → item_cmp y item ≢ Less }
{
    let mut place = from;
    while place < items.len() && items[place] < item {
        place += 1;
    }
    place
}

// Finds the patterns that have no REJECT item among the items. Both lists ascend, so one walk is enough.
fn still_live_among(
    items: &[Item],
    live_patterns: &[usize],
    still: &mut Vec<usize>,
) -> Result<(), AllocError>
    requires ascending { AreAscendingItems items.now }
    requires rising { IsStrictlySortedBy nat_cmp live_patterns.now }
    ensures { OnOk result (still.new.items ≡ still_live items.now live_patterns.now) }
{
    still.clear();
    let mut place = 0;
    for pattern in live_patterns {
        let reject = Item::new(NfaIndex::new(*pattern), REJECT);
        place = place_of(items, place, reject);
        if items.get(place) != Some(&reject) {
            still.push(*pattern)?;
        }
    }
    Ok(())
}

// Finds the items that are not REJECT states.
fn live_among(items: &[Item], live: &mut Vec<Item>) -> Result<(), AllocError>
    ensures { OnOk result (live.new.items ≡ live_of items.now) }
{
    live.clear();
    for item in items {
        if item.state() != REJECT {
            live.push(*item)?;
        }
    }
    Ok(())
}

// The set of the items, given the patterns that were live before.
fn set_of(
    parts: &mut Parts,
    patterns: usize,
    live_patterns: &[usize],
    items: &[Item],
) -> Result<ItemSet, AllocError>
    requires ascending { AreAscendingItems items.now }
    requires within { AreWithin patterns items.now }
    requires live_patterns { AreLivePatterns patterns live_patterns.now }
    ensures { IfOk result (λ s.
        s ≡ full patterns (still_live items.now live_patterns.now) (live_of items.now)) }
{
    still_live_among(items, live_patterns, &mut parts.live_patterns)?;
    live_among(items, &mut parts.live)?;
    let live = parts.live.clone()?;
    let live_patterns = parts.live_patterns.clone()?;
    Ok(ItemSet::new(patterns, live_patterns, live))
}

/// The given items and all that they lead to by reading nothing.
///
/// # Errors
///
/// `AllocError` if a request for memory was refused.
pub fn closure(alloc: Global, nfas: &[Nfa], given: &[Item]) -> Result<ItemSet, AllocError>
    requires automata { AreAutomata nfas.now }
    requires inside { AreItemsOf nfas.now given.now }
    requires by_pattern { AreByPattern given.now }
    ensures { IfOk result (λ s. s ≡ closed nfas.now given.now) }
{
    let mut workspace = Workspace::new(alloc);
    let Workspace {
        found,
        worklist,
        parts,
        ..
    } = &mut workspace;
    follow_all(alloc, nfas, worklist, given, found)?;
    let patterns = nfas.len();
    let all = patterns_below(alloc, patterns)?;
    set_of(parts, patterns, &all, found)
}

// The indices of all patterns, which are all live at first.
fn patterns_below(alloc: Global, patterns: usize) -> Result<Vec<usize>, AllocError>
    ensures { IfOk result (λ v. v.items ≡ range_with_len 0 patterns) }
{
    (0..patterns).collect(alloc)
}

/// The set to which a set leads by the values that take these test edges. A pattern with a REJECT item keeps it, so only
/// the live items are followed.
///
/// # Errors
///
/// `AllocError` if a request for memory was refused.
pub fn goto(
    alloc: Global,
    workspace: &mut Workspace,
    nfas: &[Nfa],
    set: &ItemSet,
    transitions: &[Transition],
) -> Result<ItemSet, AllocError>
    requires automata { AreAutomata nfas.now }
    requires inside { AreItemsOf nfas.now set.now }
    requires sorted { IsSorted transition_cmp transitions.now }
    requires taken { (v : ℕ) × AreTransitions nfas.now set.now v transitions.now }
    ensures { IfOk result (λ s. (v : ℕ) → AreTransitions nfas.now set.now v transitions.now
        → s ≡ move nfas.now set.now v) }
{
    let Workspace {
        targets,
        found,
        worklist,
        parts,
    } = workspace;
    let (patterns, live_patterns) = set.live_patterns();
    targets_by(nfas, set.live(), transitions, targets)?;
    follow_all(alloc, nfas, worklist, targets, found)?;
    set_of(parts, patterns, live_patterns, found)
}
