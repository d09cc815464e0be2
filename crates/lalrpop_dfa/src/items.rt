//! Items, each a pattern and a state of its automaton, and sets of them.
ghost use Rattle.std.specs.Prelude.{◌≡◌, ◌<◌, ◌↔◌, IsTrue, length, slice_get, Some, refl};
ghost use Rattle.std.specs.List.{Contains};
ghost use Rattle.std.specs.Cmp.{on_equiv, on_total, on_per, on_po, partial_order_from_agreeing_total};
ghost use Rattle.std.specs.Cmp;
ghost use Rattle.lalrpop_dfa.specs.Ascending.{item_cmp};
ghost use Rattle.lalrpop_dfa.specs.ItemOrder.{item_eq, rejects_cmp, item_hash, hash_of, items_cmp, set_cmp, set_eq};
ghost use Rattle.lalrpop_dfa.specs.Internal.OrderLaws.{item_total, item_equiv, item_ties, set_total, set_equiv, set_ties};
ghost use Rattle.lalrpop_hir.specs.States.{reject_state};
ghost use Rattle.std.specs.List.Sorted.{IsStrictlySortedBy};
ghost use Rattle.std.specs.Ordering.{nat_cmp};
ghost use Rattle.lalrpop_dfa.specs.Split.{AreAlikeBelow, IsSplit, full};
ghost use Rattle.lalrpop_dfa.specs.LiveItems.{live_of};

use crate::index::DfaStateIndex;
use crate::kernel_set::Kernel;
use lalrpop_hir::{NfaIndex, NfaStateIndex};
use std::alloc::AllocError;
use std::cmp::Ordering;
use std::marker::Model;

/// A pattern, and a state of its automaton.
#[derive(Copy, Clone, Debug)]
pub struct Item {
    nfa_index: NfaIndex,
    nfa_state: NfaStateIndex,
}

impl Model for Item {
    ghost use Rattle.std.specs.Prelude.{ℕ};

    ghost Value = { ℕ × ℕ };

    ghost view = { λ x. (x.nfa_index, x.nfa_state) };

    ghost inverse = { λ x. record { nfa_index = x.0; nfa_state = x.1 } };
}

impl PartialEq for Item {
    ghost eq = { item_eq };

    ghost laws = { Cmp.partial_equiv_from_equiv item_equiv };

    fn eq(&self, other: &Item) -> bool {
        self.nfa_index == other.nfa_index && self.nfa_state == other.nfa_state
    }
}

impl Eq for Item {
    ghost laws = { item_equiv };
}

impl PartialOrd for Item {
    ghost partial_cmp = { λ x y. Some (item_cmp x y) };

    ghost laws = { partial_order_from_agreeing_total item_cmp item_total (λ x y. refl) item_ties };

    fn partial_cmp(&self, other: &Item) -> Option<Ordering> {
        Some(self.cmp(other))
    }
}

impl Ord for Item {
    ghost cmp = { item_cmp };

    ghost total = { item_total };

    ghost matches_partial_cmp = { λ x y. refl };

    ghost matches_eq = { item_ties };

    fn cmp(&self, other: &Item) -> Ordering {
        self.nfa_index
            .cmp(&other.nfa_index)
            .then(self.nfa_state.cmp(&other.nfa_state))
    }
}

impl Item {
    /// The state of the automaton of this pattern.
    pub fn new(pattern: NfaIndex, state: NfaStateIndex) -> Item
        ensures value { result ≡ (pattern, state) }
    {
        Item {
            nfa_index: pattern,
            nfa_state: state,
        }
    }

    /// The automaton of the item's pattern, in a list of one for each.
    pub fn nfa<'nfa, N>(self, nfas: &'nfa [N]) -> &'nfa N
        requires { self.0 < length nfas.now }
        ensures { slice_get nfas.now self.0 ≡ Some result.now }
    {
        &nfas[self.nfa_index.index()]
    }

    /// The item's pattern.
    pub fn pattern(self) -> NfaIndex
        ensures { result ≡ self.0 }
    {
        self.nfa_index
    }

    /// The item's state.
    pub fn state(self) -> NfaStateIndex
        ensures { result ≡ self.1 }
    {
        self.nfa_state
    }

    /// Another state of the same pattern's automaton.
    pub fn to(self, nfa_state: NfaStateIndex) -> Item
        ensures { result ≡ (self.0, nfa_state) }
    {
        Item {
            nfa_index: self.nfa_index,
            nfa_state,
        }
    }
}

// What one item adds to the hash of a list. The factors are odd and large, so that few lists share a hash.
fn hash_one(item: Item) -> u64
    ensures { result ≡ item_hash item }
{
    let pattern = item.nfa_index.index() as u64;
    pattern
        .wrapping_mul(1_442_695_040_888_963_407)
        .wrapping_add(item.nfa_state.index() as u64)
}

// The hash of a list of items, by which most lists differ at once.
#[tactic(auto, unfolding(crate::specs::ItemOrder::hash_of))]
fn hash_items(items: &[Item]) -> u64
    ensures { result ≡ hash_of items.now }
{
    let mut hash: u64 = 0;
    for item in items {
        hash = hash
            .wrapping_mul(6_364_136_223_846_793_005)
            .wrapping_add(hash_one(*item));
    }
    hash
}

// A number below which the two ascending lists have the same numbers.
fn first_apart(left: &[usize], right: &[usize]) -> usize
    requires left { IsStrictlySortedBy nat_cmp left.now }
    requires right { IsStrictlySortedBy nat_cmp right.now }
    ensures { AreAlikeBelow result left.now right.now }
{
    let both = left.len().min(right.len());
    for index in 0..both {
        if left[index] != right[index] {
            return left[index].min(right[index]);
        }
    }
    if both < left.len() {
        left[both]
    } else if both < right.len() {
        right[both]
    } else {
        0
    }
}

/// The items that a state holds, ascending: the live ones, which are not REJECT states, and the REJECT item of each
/// pattern that is not live.
#[derive(Debug, Drop)]
pub struct ItemSet {
    live: Vec<Item>,
    live_patterns: Vec<usize>,
    patterns: usize,
    // The hash of the live items.
    hash: u64,
}

impl Model for ItemSet {
    ghost use Rattle.std.specs.Prelude.{ℕ, List};
    ghost use Rattle.lalrpop_dfa.specs.Split.{full, IsHashed};

    ghost Value = { List (ℕ × ℕ) };

    ghost view = { λ s. full s.patterns s.live_patterns.items s.live.items };

    ghost invariant = { λ s. IsHashed s.patterns s.live_patterns.items s.live.items s.hash };
}

impl ItemSet {
    /// The items of `patterns` patterns: the live ones, and the REJECT item of each pattern that is not live.
    pub fn new(patterns: usize, live_patterns: Vec<usize>, live: Vec<Item>) -> ItemSet
        requires split { IsSplit patterns live_patterns.items live.items }
        ensures items { result ≡ full patterns live_patterns.items live.items }
    {
        let hash = hash_items(&live);
        ItemSet {
            live,
            live_patterns,
            patterns,
            hash,
        }
    }

    /// The number of patterns, and those that are live, ascending.
    pub fn live_patterns(&self) -> (usize, &[usize])
        ensures split { IsSplit result.0 result.1.now (live_of self.now) }
        ensures items { self.now ≡ full result.0 result.1.now (live_of self.now) }
    {
        (self.patterns, &self.live_patterns)
    }

    /// The items of the set that are not REJECT states.
    pub fn live(&self) -> &[Item]
        ensures value { result.now ≡ live_of self.now }
    {
        &self.live
    }

    // Whether the pattern has a REJECT item.
    fn has_reject(&self, pattern: usize) -> bool
        ensures { IsTrue result ↔ Contains self.now (pattern, reject_state) }
    {
        pattern < self.patterns && !self.live_patterns.contains(&pattern)
    }

    // The order of sets by the patterns that have a REJECT item.
    fn cmp_rejects(&self, other: &ItemSet) -> Ordering
        ensures { result ≡ rejects_cmp self.now other.now }
    {
        if self.patterns == other.patterns && self.live_patterns == other.live_patterns {
            return Ordering::Equal;
        }
        let first = if self.patterns == other.patterns {
            first_apart(&self.live_patterns, &other.live_patterns)
        } else {
            0
        };
        for pattern in first..self.patterns.max(other.patterns) {
            let here = self.has_reject(pattern);
            if here != other.has_reject(pattern) {
                return if here {
                    Ordering::Greater
                } else {
                    Ordering::Less
                };
            }
        }
        Ordering::Equal
    }

    // The order of sets by their items.
    fn cmp_items(&self, other: &ItemSet) -> Ordering
        ensures { result ≡ items_cmp self.now other.now }
    {
        match self.live.cmp(&other.live) {
            Ordering::Equal => self.cmp_rejects(other),
            order => order,
        }
    }
}

impl PartialEq for ItemSet {
    ghost eq = { set_eq };

    ghost laws = { Cmp.partial_equiv_from_equiv set_equiv };

    fn eq(&self, other: &ItemSet) -> bool {
        self.cmp(other) == Ordering::Equal
    }
}

impl Eq for ItemSet {
    ghost laws = { set_equiv };
}

impl PartialOrd for ItemSet {
    ghost partial_cmp = { λ x y. Some (set_cmp x y) };

    ghost laws = { partial_order_from_agreeing_total set_cmp set_total (λ x y. refl) set_ties };

    fn partial_cmp(&self, other: &ItemSet) -> Option<Ordering> {
        Some(self.cmp(other))
    }
}

impl Ord for ItemSet {
    ghost cmp = { set_cmp };

    ghost total = { set_total };

    ghost matches_partial_cmp = { λ x y. refl };

    ghost matches_eq = { set_ties };

    fn cmp(&self, other: &ItemSet) -> Ordering {
        match self.hash.cmp(&other.hash) {
            Ordering::Equal => self.cmp_items(other),
            order => order,
        }
    }
}

impl Clone for ItemSet {
    ghost is_clone = { λ x y. y ≡ x };

    fn clone(&self) -> Result<ItemSet, AllocError> {
        Ok(ItemSet {
            live: self.live.clone()?,
            live_patterns: self.live_patterns.clone()?,
            patterns: self.patterns,
            hash: self.hash,
        })
    }
}

impl Kernel for ItemSet {
    type Index = DfaStateIndex;

    ghost index_of = { λ n. n };

    fn index(c: usize) -> DfaStateIndex {
        DfaStateIndex(c)
    }
}
