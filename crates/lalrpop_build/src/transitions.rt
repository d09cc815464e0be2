//! Test edges that leave items.
use lalrpop_dfa::Item;
use lalrpop_nfa::NfaStateIndex;

/// A test edge that leaves an item of a set, without its label: the item, and the state that the edge leads to.
#[derive(Copy, Clone, PartialEq, Eq, PartialOrd, Ord)]
pub struct Transition {
    /// The item that it leaves.
    pub item: Item,
    /// The state of the same automaton that it leads to.
    pub to: NfaStateIndex,
}
