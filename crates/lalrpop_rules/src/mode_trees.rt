//! The trees of the texts of rules with modes.
ghost use Rattle.std.specs.Prelude.{◌≡◌, IfOk, IfErr};
ghost use Rattle.lalrpop_hir.specs.Report.{NoFault};
ghost use Rattle.lalrpop_rules.specs.RuleSet.{AreTrees, IsTextError};
ghost use Rattle.lalrpop_rules.specs.ModeSet.{rules_of};

use crate::text_error::TextError;
use crate::trees::trees_of;
use bajofeki_rules::{ModeRule, Rule};
use lalrpop_lexer::lexer::re::Regex;
use std::alloc::{AllocError, Global};

// The rules without their modes and actions.
fn rule_list<'text>(
    alloc: Global,
    rules: &[ModeRule<'text>],
) -> Result<Vec<Rule<'text>>, AllocError>
    ensures rules { IfOk result (λ all. all.items ≡ rules_of rules.now) }
{
    let mut all = Vec::new(alloc);
    for rule in rules {
        all.push(rule.rule)?;
    }
    Ok(all)
}

/// The trees of all rules.
pub(crate) fn rule_trees(alloc: Global, rules: &[ModeRule]) -> Result<Vec<Regex>, TextError>
    ensures trees { IfOk result (λ trees. AreTrees (rules_of rules.now) trees.items) }
    ensures no_fault { IfOk result (λ trees. NoFault trees.items) }
    ensures error { IfErr result (λ e. IsTextError (rules_of rules.now) e) }
{
    let all = rule_list(alloc, rules)?;
    trees_of(alloc, &all)
}
