//! The kind of a state, by the items that it holds.

ghost use Rattle.std.specs.Prelude.{◌≡◌, ℕ, ◌<◌, ◌==◌, ◌↔◌, map, length, IfOk, IfErr};
ghost use Rattle.std.specs.List.{Contains};
ghost use Rattle.lalrpop_dfa.specs.Ascending.{AreAscendingItems};
ghost use Rattle.lalrpop_build.specs.Internal.Given.{IsItemOf, AreAutomata, AreItemsOf};
ghost use Rattle.lalrpop_build.specs.Internal.Best.{IsBest, accepts, accepts_with, raised};
ghost use Rattle.lalrpop_build.specs.Internal.Built.{IsKindOf, IsStrongestIn, IsTied};
ghost use Rattle.lalrpop_build.specs.Internal.Ties.{AreAscending};
ghost use Rattle.lalrpop_hir.specs.States.{accept_state};
ghost use Rattle.lalrpop_build.specs.Internal.Subsets.{is_dead};

use crate::{Kind, NfaIndex, Precedence};
use lalrpop_dfa::{Item, ItemSet};
use lalrpop_nfa::Nfa;
use std::alloc::{AllocError, Global};

// The greatest of the strongest patterns, its precedence, and the second greatest if there are two or more.
#[derive(Clone, Copy)]
struct Best {
    index: NfaIndex,
    precedence: usize,
    tied: Option<NfaIndex>,
}

/// Two strongest patterns, where there may be only one.
#[derive(Clone, Copy)]
pub(super) struct Tie {
    pub(super) greatest: NfaIndex,
    pub(super) second: NfaIndex,
}

// The best after one more pattern, which is greater than those before.
fn raise(best: Option<Best>, index: NfaIndex, precedence: usize) -> Best
    ensures { result ≡ raised best index precedence }
{
    let tied = match best {
        Some(best) if precedence < best.precedence => return best,
        Some(best) if precedence == best.precedence => Some(best.index),
        _ => None,
    };
    Best {
        index,
        precedence,
        tied,
    }
}

// Whether the item's pattern matches a word that leads to it.
fn is_accepting(nfas: &[Nfa], item: Item) -> bool
    requires automata { AreAutomata nfas.now }
    requires inside { IsItemOf nfas.now item }
    ensures { result ≡ (item.1 == accept_state) }
{
    item.nfa(nfas).is_accepting_state(item.state())
}

// The best of the patterns that the set accepts.
fn best_of(nfas: &[Nfa], precedences: &[Precedence], set: &ItemSet) -> Option<Best>
    requires same_len { length nfas.now ≡ length precedences.now }
    requires automata { AreAutomata nfas.now }
    requires inside { AreItemsOf nfas.now set.now }
    requires ascending { AreAscendingItems set.now }
    ensures { IsBest (map (λ p. p.0) precedences.now) (accepts set.now) result }
{
    let mut best = None;
    for item in set.live() {
        let item = *item;
        if is_accepting(nfas, item) {
            let pattern = item.pattern();
            let precedence = precedences[pattern.index()].0;
            best = Some(raise(best, pattern, precedence));
        }
    }
    best
}

// The patterns of this precedence that the set accepts, in order.
fn accepted_with(
    alloc: Global,
    nfas: &[Nfa],
    precedences: &[Precedence],
    set: &ItemSet,
    precedence: usize,
) -> Result<Vec<NfaIndex>, AllocError>
    requires same_len { length nfas.now ≡ length precedences.now }
    requires automata { AreAutomata nfas.now }
    requires inside { AreItemsOf nfas.now set.now }
    requires ascending { AreAscendingItems set.now }
    ensures { IfOk result (λ found. found.items
        ≡ accepts_with (map (λ p. p.0) precedences.now) set.now precedence) }
{
    let mut found = Vec::new(alloc);
    for item in set.live() {
        let item = *item;
        if !is_accepting(nfas, item) {
            continue;
        }
        let pattern = item.pattern();
        if precedences[pattern.index()].0 != precedence {
            continue;
        }
        found.push(pattern)?;
    }
    Ok(found)
}

/// The strongest of the patterns that the set accepts, in order.
pub(super) fn strongest_of(
    alloc: Global,
    nfas: &[Nfa],
    precedences: &[Precedence],
    set: &ItemSet,
) -> Result<Vec<NfaIndex>, AllocError>
    requires same_len { length nfas.now ≡ length precedences.now }
    requires automata { AreAutomata nfas.now }
    requires inside { AreItemsOf nfas.now set.now }
    requires ascending { AreAscendingItems set.now }
    ensures all { IfOk result (λ found. (i : ℕ)
        → Contains found.items i ↔ IsStrongestIn (map (λ p. p.0) precedences.now) set.now i) }
    ensures ascending { IfOk result (λ found. AreAscending found.items) }
{
    match best_of(nfas, precedences, set) {
        Some(best) => accepted_with(alloc, nfas, precedences, set, best.precedence),
        None => Ok(Vec::new(alloc)),
    }
}

// Whether all items are REJECT states.
fn all_reject(set: &ItemSet) -> bool
    ensures { result ≡ is_dead set.now }
{
    set.live().is_empty()
}

/// The kind of a state that holds the set, or the tie of its strongest patterns.
pub(super) fn kind_of(nfas: &[Nfa], precedences: &[Precedence], set: &ItemSet) -> Result<Kind, Tie>
    requires same_len { length nfas.now ≡ length precedences.now }
    requires automata { AreAutomata nfas.now }
    requires inside { AreItemsOf nfas.now set.now }
    requires ascending { AreAscendingItems set.now }
    ensures ok { IfOk result (IsKindOf (map (λ p. p.0) precedences.now) set.now) }
    ensures err { IfErr result (λ tie.
        IsTied (map (λ p. p.0) precedences.now) set.now tie.greatest tie.second) }
{
    let Some(best) = best_of(nfas, precedences, set) else {
        return Ok(if all_reject(set) {
            Kind::Reject
        } else {
            Kind::Neither
        });
    };
    match best.tied {
        None => Ok(Kind::Accepts(best.index)),
        Some(second) => Err(Tie {
            greatest: best.index,
            second,
        }),
    }
}
