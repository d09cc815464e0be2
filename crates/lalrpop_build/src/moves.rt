//! Where a value leads from the items of a set, given the test edges that it takes.

ghost use Rattle.std.specs.Prelude.{◌≡◌, ◌<◌, ◌≤◌, ◌++◌, length, map, OnOk};
ghost use Rattle.std.specs.List.{Contains};
ghost use Rattle.std.specs.List.Sorted.{IsSorted};
ghost use Rattle.lalrpop_dfa.specs.Ascending.{AreAscendingItems, AreByPattern};
ghost use Rattle.lalrpop_build.specs.Internal.Given.{IsItemOf, AreItemsOf};
ghost use Rattle.lalrpop_build.specs.Internal.Subsets.{default_targets};
ghost use Rattle.lalrpop_build.specs.Internal.Transitions.{transition_cmp};
ghost use Rattle.lalrpop_build.specs.Internal.Taken.{IsRunOf, targets_of_run, AreTargetsBy};

use super::transitions::Transition;
use lalrpop_dfa::Item;
use lalrpop_nfa::{Nfa, Other};
use std::alloc::AllocError;

// The first place, from this one on, that has no edge of the item.
fn end_of_item(transitions: &[Transition], from: usize, item: Item) -> usize
    requires { from ≤ length transitions.now }
    ensures { IsRunOf transitions.now item from result }
{
    let mut end = from;
    while end < transitions.len() && transitions[end].item == item {
        end += 1;
    }
    end
}

// Adds the targets of the other edges of the item's state.
fn push_default_targets(nfa: &Nfa, item: Item, targets: &mut Vec<Item>) -> Result<(), AllocError>
    requires { item.1 < length nfa.now.kinds }
    ensures { OnOk result (targets.new.items
        ≡ targets.old.items ++ map (λ q. (item.0, q)) (default_targets nfa.now item.1)) }
{
    for edge in nfa.edges::<Other>(item.state()) {
        targets.push(item.to(edge.to))?;
    }
    Ok(())
}

// Adds the targets of an item: by these test edges of it, or if there are none by its other edges.
fn push_targets(
    nfas: &[Nfa],
    item: Item,
    run: &[Transition],
    targets: &mut Vec<Item>,
) -> Result<(), AllocError>
    requires { IsItemOf nfas.now item }
    ensures { OnOk result (targets.new.items
        ≡ targets.old.items ++ targets_of_run nfas.now item run.now) }
{
    if run.is_empty() {
        return push_default_targets(item.nfa(nfas), item, targets);
    }
    for transition in run {
        targets.push(item.to(transition.to))?;
    }
    Ok(())
}

/// Finds the targets of the items, whose taken test edges are these. Both lists ascend, so one walk finds the edges of
/// each item. A target that items of a pattern share, such as REJECT, is mostly listed once.
pub(super) fn targets_by(
    nfas: &[Nfa],
    items: &[Item],
    transitions: &[Transition],
    targets: &mut Vec<Item>,
) -> Result<(), AllocError>
    requires inside { AreItemsOf nfas.now items.now }
    requires ascending { AreAscendingItems items.now }
    requires sorted { IsSorted transition_cmp transitions.now }
    requires leave { (l : Transition) → Contains transitions.now l → Contains items.now l.item }
    ensures targets { OnOk result
        (AreTargetsBy nfas.now items.now transitions.now targets.new.items) }
    ensures by_pattern { OnOk result (AreByPattern targets.new.items) }
{
    targets.clear();
    let mut from = 0;
    for item in items {
        let end = end_of_item(transitions, from, *item);
        push_targets(nfas, *item, &transitions[from..end], targets)?;
        from = end;
    }
    targets.dedup();
    Ok(())
}
