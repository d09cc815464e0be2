//! Modes that rules name and that aren't there.
ghost use Rattle.std.specs.Prelude.{◌<◌, ◌≤◌, ℕ, Contains, IfSome, IfNone, IfErr, OnOk};
ghost use Rattle.lalrpop_rules.specs.Modes.{AllOf};
ghost use Rattle.bajofeki_rules.specs.EnteredModes.{LeadsInto, OneLeadsInto};
ghost use Rattle.lalrpop_rules.specs.ModeClashes.{IsModesFault};
ghost use Rattle.lalrpop_rules.specs.ModeSet.{IsRulesError};
ghost use Rattle.lalrpop_rules.specs.Internal.Lexers.{AllNameWithin};

use crate::error::RulesError;
use bajofeki_rules::{Action, ModeRule};

// A mode of the list that isn't there.
fn missing_member(members: &[usize], modes: usize) -> Option<usize>
    ensures some { IfSome result (λ m. (modes ≤ m) × Contains members.now m) }
    ensures none { IfNone result (AllOf (λ m. m < modes) members.now) }
{
    for mode in members {
        if *mode >= modes {
            return Some(*mode);
        }
    }
    None
}

// The mode that the action leads into, if it isn't there.
fn missing_for(action: &Action, modes: usize) -> Option<usize>
    ensures some { IfSome result (λ m. (modes ≤ m) × LeadsInto action.now m) }
    ensures none { IfNone result ((m : ℕ) → LeadsInto action.now m → m < modes) }
{
    match action {
        Action::Mode(mode) | Action::Push(mode) => {
            if *mode >= modes {
                return Some(*mode);
            }
            None
        }
        Action::Pop => None,
    }
}

// A mode that isn't there, and that an action leads into.
fn missing_target(actions: &[Action], modes: usize) -> Option<usize>
    ensures some { IfSome result (λ m. (modes ≤ m) × OneLeadsInto actions.now m) }
    ensures none { IfNone result ((m : ℕ) → OneLeadsInto actions.now m → m < modes) }
{
    for action in actions {
        if let Some(mode) = missing_for(action, modes) {
            return Some(mode);
        }
    }
    None
}

/// Whether all modes that the rules name are there, or the first rule with one that isn't.
pub(crate) fn all_there(rules: &[ModeRule], modes: usize) -> Result<(), RulesError>
    ensures there { OnOk result (AllNameWithin rules.now modes) }
    ensures error { IfErr result (IsRulesError rules.now modes) }
    ensures fault { IfErr result (IsModesFault rules.now modes) }
{
    for rule in 0..rules.len() {
        if let Some(mode) = missing_member(rules[rule].modes, modes) {
            return Err(RulesError::NoSuchMode { rule, mode });
        }
        if let Some(mode) = missing_target(rules[rule].actions, modes) {
            return Err(RulesError::NoSuchMode { rule, mode });
        }
    }
    Ok(())
}
