//! Rules without modes, as rules of one mode.
ghost use Rattle.std.specs.Prelude.{IfOk};
ghost use Rattle.lalrpop_rules.specs.ModeSet.{AreInOneMode};

use bajofeki_rules::{ModeRule, Rule};
use std::alloc::{AllocError, Global};

/// The rules in mode 0, without actions.
pub(crate) fn in_one_mode<'text>(
    alloc: Global,
    rules: &[Rule<'text>],
) -> Result<Vec<ModeRule<'text>>, AllocError>
    ensures rules { IfOk result (λ all. AreInOneMode rules.now all.items) }
{
    let mut all = Vec::new(alloc);
    for rule in rules {
        all.push(ModeRule {
            rule: *rule,
            modes: &[0],
            actions: &[],
        })?;
    }
    Ok(all)
}
