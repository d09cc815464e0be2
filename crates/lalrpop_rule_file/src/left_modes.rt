//! Which modes can be left.
ghost use Rattle.std.specs.Prelude.{◌≡◌, ◌↔◌, Contains, IsTrue};
ghost use Rattle.bajofeki_rules.specs.declared.action.Action.TheVariants.{Pop};
ghost use Rattle.lalrpop_rule_file.specs.LeftModes.{CanBeLeft, LeadsOut, Leaves, LeavesAfterPop, OneLeaves};

use crate::file_rule::FileRule;
use bajofeki_rules::Action;

// Whether the action takes the mode away where it is on top.
fn leaves(action: &Action, mode: usize) -> bool
    ensures { IsTrue result ↔ Leaves action.now mode }
{
    match action {
        Action::Mode(next) => *next != mode,
        Action::Push(_) => false,
        Action::Pop => true,
    }
}

// Whether one of the actions does.
fn one_leaves(actions: &[Action], mode: usize) -> bool
    ensures { IsTrue result ↔ OneLeaves actions.now mode }
{
    for action in actions {
        if leaves(action, mode) {
            return true;
        }
    }
    false
}

// Whether the action is a pop.
fn is_pop(action: &Action) -> bool
    ensures { IsTrue result ↔ (action.now ≡ Pop) }
{
    match action {
        Action::Pop => true,
        Action::Mode(_) | Action::Push(_) => false,
    }
}

// Whether one does after a pop.
fn leaves_after_pop(actions: &[Action], mode: usize) -> bool
    ensures { IsTrue result ↔ LeavesAfterPop actions.now mode }
{
    for at in 0..actions.len() {
        if is_pop(&actions[at]) && one_leaves(&actions[at + 1..], mode) {
            return true;
        }
    }
    false
}

// Whether the mode is one of these.
fn is_one_of(modes: &[usize], mode: usize) -> bool
    ensures { IsTrue result ↔ Contains modes.now mode }
{
    for own in modes {
        if *own == mode {
            return true;
        }
    }
    false
}

// Whether the rule leads out of the mode.
fn leads_out(rule: &FileRule<'_>, mode: usize) -> bool
    ensures { IsTrue result ↔ LeadsOut rule.now mode }
{
    if is_one_of(&rule.modes, mode) && one_leaves(&rule.actions, mode) {
        return true;
    }
    leaves_after_pop(&rule.actions, mode)
}

/// Whether one of the rules does.
pub(crate) fn can_be_left(rules: &[FileRule<'_>], mode: usize) -> bool
    ensures { IsTrue result ↔ CanBeLeft rules.now mode }
{
    for rule in rules {
        if leads_out(rule, mode) {
            return true;
        }
    }
    false
}
