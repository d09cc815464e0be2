//! Rules of one kind.
ghost use Rattle.std.specs.Prelude.{◌≡◌, ◌<◌, Some, length, slice_get, IfOk};
ghost use Rattle.std.specs.Bool.{MatchBool};
ghost use Rattle.lalrpop_rules.specs.Kinds.{AreKinds, IsFirstSame};
ghost use Rattle.lalrpop_rules.specs.ModeSet.{AreOneModeKind};
ghost use Rattle.bajofeki_rules.specs.declared.mode_rule.ModeRule.{ModeRule as RuleValue};

use crate::kinds::are_one_kind;
use bajofeki_rules::ModeRule;
use std::alloc::{AllocError, Global};

// Whether the rules are of one kind.
fn are_one_mode_kind(rule: &ModeRule, other: &ModeRule) -> bool
    ensures { MatchBool result (AreOneModeKind rule.now other.now)
        (¬ AreOneModeKind rule.now other.now) }
{
    are_one_kind(&rule.rule, &other.rule) && rule.actions == other.actions
}

// The index of the first rule of the kind of the rule with this index.
fn first_of_kind(rules: &[ModeRule], index: usize) -> usize
    requires within { index < length rules.now }
    ensures first { (rule : RuleValue) → slice_get rules.now index ≡ Some rule
        → IsFirstSame AreOneModeKind rules.now rule result }
{
    for other in 0..index {
        if are_one_mode_kind(&rules[other], &rules[index]) {
            return other;
        }
    }
    index
}

/// For each rule the index of the first rule of its kind.
pub(crate) fn kind_list(alloc: Global, rules: &[ModeRule]) -> Result<Vec<usize>, AllocError>
    ensures kinds { IfOk result (λ all. AreKinds AreOneModeKind rules.now all.items) }
{
    let mut all = Vec::new(alloc);
    for index in 0..rules.len() {
        all.push(first_of_kind(rules, index))?;
    }
    Ok(all)
}
