//! Rules of one kind.
ghost use Rattle.std.specs.Prelude.{◌≡◌, ◌<◌, ℕ, List, Option, Some, length, take, drop, slice_get, IfOk};
ghost use Rattle.std.specs.Bool.{MatchBool};
ghost use Rattle.std.specs.List.{list_any};
ghost use Rattle.lalrpop_rules.specs.Kinds.{AreKinds, AreOneKind, IsFirstSame, all_at_work, is_kind as is_of, gathered as gathered_of, merged, one_tree as one_tree_of, trees_of_kind as trees_of};
ghost use Rattle.bajofeki_rules.specs.declared.rule.Rule.{Rule as RuleValue};

use bajofeki_rules::Rule;
use lalrpop_lexer::lexer::re::{Hir, Regex};
use std::alloc::{AllocError, Global};

/// Whether the rules are of one kind: they have one name and one precedence, and are both skipped or both not.
pub(crate) fn are_one_kind(rule: &Rule, other: &Rule) -> bool
    ensures { MatchBool result (AreOneKind rule.now other.now) (¬ AreOneKind rule.now other.now) }
{
    rule.name == other.name
        && rule.precedence.0 == other.precedence.0
        && rule.is_skipped == other.is_skipped
}

// Whether a rule is at work and of this kind.
fn is_kind(kind: usize, other: Option<usize>) -> bool
    ensures { result ≡ is_of kind other }
{
    match other {
        Some(other) => other == kind,
        None => false,
    }
}

// Whether one of the rules is.
fn has_kind(kinds: &[Option<usize>], kind: usize) -> bool
    ensures { result ≡ list_any (λ o. is_of kind o) kinds.now }
{
    for other in kinds {
        if is_kind(kind, *other) {
            return true;
        }
    }
    false
}

// The trees of the rules of this kind.
fn trees_of_kind(
    alloc: Global,
    kind: usize,
    kinds: &[Option<usize>],
    trees: &[Regex],
) -> Result<Vec<Regex>, AllocError>
    requires same_len { length kinds.now ≡ length trees.now }
    ensures trees { IfOk result (λ all. all.items ≡ trees_of kind kinds.now trees.now) }
{
    let mut all = Vec::new(alloc);
    for index in 0..trees.len() {
        if is_kind(kind, kinds[index]) {
            let tree = trees[index].clone()?;
            all.push(tree)?;
        }
    }
    Ok(all)
}

// One tree for all of them.
fn one_tree(mut trees: Vec<Regex>) -> Regex
    ensures { result ≡ one_tree_of trees.items }
{
    if trees.len() == 1 {
        if let Some(tree) = trees.pop() {
            return tree;
        }
    }
    Hir::alternation(trees)
}

// The trees that the rule with this index has.
fn gathered(
    alloc: Global,
    index: usize,
    kinds: &[Option<usize>],
    trees: &[Regex],
) -> Result<Vec<Regex>, AllocError>
    requires same_len { length kinds.now ≡ length trees.now }
    requires within { index < length kinds.now }
    ensures trees { (o : Option ℕ) → slice_get kinds.now index ≡ Some o
        → IfOk result (λ all. all.items
        ≡ gathered_of (take index kinds.now) o (drop index kinds.now) (drop index trees.now)) }
{
    let Some(kind) = kinds[index] else {
        return Ok(Vec::new(alloc));
    };
    if has_kind(&kinds[..index], kind) {
        return Ok(Vec::new(alloc));
    }
    trees_of_kind(alloc, kind, &kinds[index..], &trees[index..])
}

/// The trees of rules that are merged by their kinds: the first rule of each kind has what some rule of its kind has, and the others match
/// nothing. The kind of a rule is a number, or `None` for a rule that is left out.
pub(crate) fn merged_trees(
    alloc: Global,
    kinds: &[Option<usize>],
    trees: &[Regex],
) -> Result<Vec<Regex>, AllocError>
    requires same_len { length kinds.now ≡ length trees.now }
    ensures trees { IfOk result (λ all. all.items ≡ merged kinds.now trees.now) }
{
    let mut all = Vec::new(alloc);
    for index in 0..trees.len() {
        let own = gathered(alloc, index, kinds, trees)?;
        all.push(one_tree(own))?;
    }
    Ok(all)
}
