//! Following the edges that read nothing, whatever keeps the items seen so far.

ghost use Rattle.std.specs.Prelude.{◌≡◌, ◌<◌, ◌∷◌, List, [], length, replicate, false, IfOk, OnOk};
ghost use Rattle.std.specs.List.{Contains};
ghost use Rattle.lalrpop_dfa.specs.Ascending.{Item};
ghost use Rattle.lalrpop_build.specs.Internal.Given.{IsItemOf, AreAutomata, AreItemsOf};
ghost use Rattle.lalrpop_build.specs.Internal.Subsets.{closed};
ghost use Rattle.lalrpop_build.specs.Internal.Worklist.{IsAdded, IsInserted, epsilon_targets, marked};

use lalrpop_dfa::Item;
use lalrpop_hir::NfaIndex;
use lalrpop_nfa::{Nfa, Noop};
use std::alloc::AllocError;
use std::collections::BTreeSet;

/// The items seen so far.
pub(super) trait Seen {
    ghost items: { Self → List Item };

    // Whether there is room for the item.
    ghost can_add: { Self → Item → Type 0 };

    /// Adds an item, and says whether it is new.
    fn add(&mut self, item: Item) -> Result<bool, AllocError>
        requires { can_add self.old item }
        ensures added { IfOk result (λ is_new.
            IsAdded (items self.old) item is_new (items self.new)) }
        ensures room { (x : Item) → can_add self.old x → can_add self.new x };
}

/// Items of one pattern, as marks at their states.
#[derive(Drop)]
pub(super) struct Marks {
    pub(super) pattern: NfaIndex,
    pub(super) marks: Vec<bool>,
}

impl Marks {
    /// Forgets all items, for a pattern with `states` states.
    pub(super) fn begin(&mut self, pattern: NfaIndex, states: usize) -> Result<(), AllocError>
        ensures pattern { self.new.pattern ≡ pattern }
        ensures marks { OnOk result (self.new.marks.items ≡ replicate states false) }
    {
        self.pattern = pattern;
        self.marks.clear();
        self.marks.resize(states, false)?;
        Ok(())
    }
}

impl Seen for Marks {
    ghost items = { λ m. marked m.pattern m.marks.items };

    ghost can_add = { λ m x. (x.0 ≡ m.pattern) × (x.1 < length m.marks.items) };

    fn add(&mut self, item: Item) -> Result<bool, AllocError> {
        let state = item.state().index();
        let is_new = !self.marks[state];
        self.marks[state] = true;
        Ok(is_new)
    }
}

impl Seen for BTreeSet<Item> {
    ghost items = { λ s. s.keys };

    ghost can_add = { λ _ _. Unit {0} };

    fn add(&mut self, item: Item) -> Result<bool, AllocError> {
        Ok(self.insert(item)?)
    }
}

/// The items seen so far, and those of them that are still to be followed.
#[derive(Drop)]
pub(super) struct Worklist<S> {
    pub(super) seen: S,
    pub(super) pending: Vec<Item>,
}

impl<S: Seen> Worklist<S> {
    // Records an item, unless it was seen before.
    fn insert(&mut self, item: Item) -> Result<(), AllocError>
        requires { S.can_add self.old.seen item }
        ensures inserted { OnOk result (IsInserted (S.items self.old.seen) self.old.pending.items
            (item ∷ []) (S.items self.new.seen) self.new.pending.items) }
        ensures room { (x : Item) → S.can_add self.old.seen x → S.can_add self.new.seen x }
    {
        if self.seen.add(item)? {
            self.pending.push(item)?;
        }
        Ok(())
    }

    // Records the items to which a single edge that reads nothing leads.
    fn follow(&mut self, nfas: &[Nfa], item: Item) -> Result<(), AllocError>
        requires inside { IsItemOf nfas.now item }
        requires room { (x : Item) → Contains (epsilon_targets nfas.now item) x
            → S.can_add self.old.seen x }
        ensures inserted { OnOk result (IsInserted (S.items self.old.seen) self.old.pending.items
            (epsilon_targets nfas.now item) (S.items self.new.seen) self.new.pending.items) }
        ensures room { (x : Item) → S.can_add self.old.seen x → S.can_add self.new.seen x }
    {
        for edge in item.nfa(nfas).edges::<Noop>(item.state()) {
            self.insert(item.to(edge.to))?;
        }
        Ok(())
    }

    /// Finds the given items and all that they lead to by reading nothing.
    pub(super) fn follow_from(&mut self, nfas: &[Nfa], given: &[Item]) -> Result<(), AllocError>
        requires automata { AreAutomata nfas.now }
        requires inside { AreItemsOf nfas.now given.now }
        requires empty { S.items self.old.seen ≡ [] }
        requires room { (x : Item) → Contains (closed nfas.now given.now) x
            → S.can_add self.old.seen x }
        ensures { OnOk result (S.items self.new.seen ≡ closed nfas.now given.now) }
    {
        self.pending.clear();
        for first in given {
            self.insert(*first)?;
        }
        while let Some(item) = self.pending.pop() {
            self.follow(nfas, item)?;
        }
        Ok(())
    }
}
