//! The rules of a mode that never win there.
ghost use Rattle.std.specs.Prelude.{◌≡◌, ◌<◌, ◌↔◌, ℕ, List, Option, Some, length, slice_get, IfOk, IfSome, IsSomeAnd, IsTrue};
ghost use Rattle.lalrpop_hir.specs.Tree.{Tree};
ghost use Rattle.lalrpop_rules.specs.Modes.{ModeRules, trees_in};
ghost use Rattle.bajofeki_rules.specs.EnteredModes.{Belongs};
ghost use Rattle.lalrpop_verdicts.specs.Verdicts.{IsVerdict, words_of};
ghost use Rattle.lalrpop_verdicts.specs.declared.verdict.Verdict.{Verdict as VerdictValue};
ghost use Rattle.lalrpop_review.specs.Review.{AreIdle};
ghost use Rattle.lalrpop_review.specs.Internal.Idle.{AreOfOtherKinds, AreTold, AreWinnersIn, IsIdleAt, IsOwnVerdict};

use crate::idle::IdleRule;
use crate::kind_counts::{belongs, kind_counts};
use lalrpop_lexer::lexer::dfa::NfaIndex;
use lalrpop_rules::RuleLexer;
use lalrpop_verdicts::{Verdict, WonWord, verdicts, winners};
use std::alloc::{AllocError, Global};

// The verdict on each tree of the mode.
fn mode_verdicts(alloc: Global, lexer: &RuleLexer, mode: usize) -> Result<Vec<Verdict>, AllocError>
    requires there { mode < lexer.now.modes }
    ensures each { IfOk result (λ found. (i : ℕ) (v : VerdictValue)
        → slice_get found.items i ≡ Some v
        → IsVerdict (trees_in lexer.now mode) lexer.now.precedences i v) }
{
    let here = lexer.lexer(mode);
    match verdicts(alloc, here.regexs(), here.dense().dfa()) {
        Ok(found) => Ok(found),
        // The trees of a lexer can be compiled, so only memory can be refused.
        Err(_) => Err(AllocError),
    }
}

// The rules that win words of any rule in the mode, found by a walk of its own.
fn walked_winners(
    alloc: Global,
    lexer: &RuleLexer,
    mode: usize,
    index: usize,
) -> Result<Vec<WonWord>, AllocError>
    requires there { mode < lexer.now.modes }
    requires within { index < length lexer.now.trees }
    ensures winners { IfOk result (λ found. AreWinnersIn lexer.now mode index found.items) }
{
    let here = lexer.lexer(mode);
    match winners(alloc, lexer.regexs(), index, here.dense().dfa()) {
        Ok(found) => Ok(found),
        // The trees of a lexer can be compiled, so only memory can be refused.
        Err(_) => Err(AllocError),
    }
}

// The rules that win words of a tree, by its verdict; `None` if the tree wins one itself.
fn told_winners(alloc: Global, verdict: Verdict) -> Option<Vec<WonWord>>
    ensures told { (ts : List Tree) (ps : List ℕ) (i : ℕ) → IsVerdict ts ps i verdict
        → AreTold (words_of ts i) ts ps i result }
{
    match verdict {
        Verdict::Wins(_) => None,
        Verdict::Shadowed(winners) => Some(winners),
        Verdict::Unmatched => Some(Vec::new(alloc)),
    }
}

// The verdict on a rule's tree in the mode, if the rule is alone in its kind there: then that tree is the rule's own.
fn own_verdict(
    counts: &[usize],
    kinds: &[usize],
    index: usize,
    verdict: Option<Verdict>,
) -> Option<Verdict>
    ensures same { IfSome result (λ v. verdict ≡ Some v) }
    ensures alone { IfSome result (λ _. IsSomeAnd (slice_get kinds.now index)
        (λ k. slice_get counts.now k ≡ Some 1)) }
{
    let kind = *kinds.get(index)?;
    if *counts.get(kind)? == 1 {
        verdict
    } else {
        None
    }
}

// The rules that win words of the rule in the mode; or `None`, if it is sure to win one itself. `own` is the verdict on the rule's
// tree in the mode, if that tree is the rule's own.
fn rule_winners(
    alloc: Global,
    lexer: &RuleLexer,
    mode: usize,
    index: usize,
    own: Option<Verdict>,
) -> Result<Option<Vec<WonWord>>, AllocError>
    requires there { mode < lexer.now.modes }
    requires within { index < length lexer.now.trees }
    requires own { IfSome own (IsOwnVerdict lexer.now mode index) }
    ensures told { IfOk result (AreTold (words_of lexer.now.trees index) (trees_in lexer.now mode)
        lexer.now.precedences index) }
{
    match own {
        Some(verdict) => Ok(told_winners(alloc, verdict)),
        None => {
            let found = walked_winners(alloc, lexer, mode, index)?;
            Ok(Some(found))
        }
    }
}

// The kind of the rule with this index, if there is such a rule.
fn kind_at(kinds: &[usize], index: usize) -> Option<usize>
    ensures { result ≡ slice_get kinds.now index }
{
    kinds.get(index).copied()
}

// Whether none of the winners is of the kind of the rule with this index.
fn are_of_other_kinds(kinds: &[usize], index: usize, winners: &[WonWord]) -> bool
    ensures { IsTrue result ↔ AreOfOtherKinds kinds.now index winners.now }
{
    let kind = kind_at(kinds, index);
    for winner in winners {
        if kind_at(kinds, winner.by.index()) == kind {
            return false;
        }
    }
    true
}

// The rule with this index, if it never wins in the mode. `told` are the rules that win its words, or `None` if it wins one
// itself.
fn idle_rule(kinds: &[usize], index: usize, told: Option<Vec<WonWord>>) -> Option<IdleRule>
    ensures idle { (r : ModeRules) (m : ℕ) → r.kinds ≡ kinds.now → Belongs r.members m index
        → AreTold (words_of r.trees index) (trees_in r m) r.precedences index told
        → IsIdleAt r m index result }
{
    match told {
        Some(winners) => {
            if are_of_other_kinds(kinds, index, &winners) {
                return Some(IdleRule {
                    rule: NfaIndex::new(index),
                    winners,
                });
            }
            None
        }
        None => None,
    }
}

// The same for any rule: none is told if it doesn't belong to the mode.
fn idle_at(
    alloc: Global,
    lexer: &RuleLexer,
    mode: usize,
    index: usize,
    own: Option<Verdict>,
) -> Result<Option<IdleRule>, AllocError>
    requires there { mode < lexer.now.modes }
    requires within { index < length lexer.now.trees }
    requires own { Belongs lexer.now.members mode index
        → IfSome own (IsOwnVerdict lexer.now mode index) }
    ensures idle { IfOk result (IsIdleAt lexer.now mode index) }
{
    if belongs(lexer, mode, index) {
        let told = rule_winners(alloc, lexer, mode, index, own)?;
        return Ok(idle_rule(lexer.kinds(), index, told));
    }
    Ok(None)
}

/// The rules that belong to the mode and never win there, ascending.
pub(crate) fn idle_rules(
    alloc: Global,
    lexer: &RuleLexer,
    mode: usize,
) -> Result<Vec<IdleRule>, AllocError>
    requires there { mode < lexer.now.modes }
    ensures idle { IfOk result (λ found. AreIdle lexer.now mode found.items) }
{
    let counts = kind_counts(alloc, lexer, mode)?;
    let mut verdicts = mode_verdicts(alloc, lexer, mode)?.into_iter();
    let mut idle = Vec::new(alloc);
    for index in 0..lexer.regexs().len() {
        let own = own_verdict(&counts, lexer.kinds(), index, verdicts.next());
        let found = idle_at(alloc, lexer, mode, index, own)?;
        match found {
            Some(rule) => idle.push(rule)?,
            None => {}
        }
    }
    Ok(idle)
}
