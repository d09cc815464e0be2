//! Which modes can be entered.
ghost use Rattle.std.specs.Prelude.{◌≡◌, ◌<◌, ◌↔◌, ℕ, Some, true, length, map, slice_get, Contains, IsTrue, IfOk};
ghost use Rattle.bajofeki_rules.specs.EnteredModes.{CanBeEntered, LeadsInto, OneLeadsInto};
ghost use Rattle.bajofeki_rules.specs.Internal.Marks.{HasMarked, HasRound, Marked};

use crate::action::Action;
use crate::mode_rule::ModeRule;
use std::alloc::{AllocError, Global};

// Marks the mode, if it is there. Returns whether it wasn't marked before.
fn mark(marks: &mut [bool], mode: usize) -> bool
    ensures { HasMarked marks.old (λ m. m ≡ mode) marks.new result }
{
    if mode >= marks.len() || marks[mode] {
        return false;
    }
    marks[mode] = true;
    true
}

// The same for the mode that the action leads into.
fn mark_target(marks: &mut [bool], action: &Action) -> bool
    ensures { HasMarked marks.old (LeadsInto action.now) marks.new result }
{
    match action {
        Action::Mode(mode) | Action::Push(mode) => mark(marks, *mode),
        Action::Pop => false,
    }
}

// The same for all modes that the actions lead into.
fn mark_targets(marks: &mut [bool], actions: &[Action]) -> bool
    ensures { HasMarked marks.old (OneLeadsInto actions.now) marks.new result }
{
    let mut is_any = false;
    for action in actions {
        is_any |= mark_target(marks, action);
    }
    is_any
}

// Whether one of the modes is marked.
fn is_one_marked(marks: &[bool], modes: &[usize]) -> bool
    ensures { IsTrue result ↔ ((m : ℕ) × (Contains modes.now m × Marked marks.now m)) }
{
    for mode in modes {
        if *mode < marks.len() && marks[*mode] {
            return true;
        }
    }
    false
}

// One more round: marks the modes that rules of marked modes lead into. Returns whether one of them wasn't marked before.
fn mark_round(marks: &mut [bool], rules: &[ModeRule]) -> bool
    ensures { HasRound (map (λ r. r.modes.now) rules.now) (map (λ r. r.actions.now) rules.now)
        (length rules.now) marks.old marks.new result }
{
    let mut is_any = false;
    for rule in rules {
        if is_one_marked(marks, rule.modes) {
            is_any |= mark_targets(marks, rule.actions);
        }
    }
    is_any
}

/// For each of `modes` modes, in order, whether it can be entered: a text begins in mode 0, and a rule of a mode that can be
/// entered leads into the modes of its actions.
///
/// It doesn't matter whether the texts of the rules parse. From a mode that isn't there no rule leads anywhere.
///
/// ```
/// use bajofeki_rules::{Action, ModeRule, Rule, entered_modes};
///
/// let rules = [
///     ModeRule { rule: Rule::literal("OPEN", "/*"), modes: &[0], actions: &[Action::Push(1)] },
///     ModeRule { rule: Rule::literal("CLOSE", "*/"), modes: &[1, 2], actions: &[Action::Pop] },
/// ];
/// let entered = entered_modes(alloc, &rules, 3)?; // [true, true, false]
/// ```
///
/// # Errors
///
/// `AllocError` if a request for memory was refused.
pub fn entered_modes(
    alloc: Global,
    rules: &[ModeRule],
    modes: usize,
) -> Result<Vec<bool>, AllocError>
    ensures same_length { IfOk result (λ marks. length marks.items ≡ modes) }
    ensures each { IfOk result (λ marks. (m : ℕ) → m < modes
        → (slice_get marks.items m ≡ Some true) ↔ CanBeEntered (map (λ r. r.modes.now) rules.now)
        (map (λ r. r.actions.now) rules.now) modes m) }
{
    let mut marks = vec![in alloc; false; modes]?;
    mark(&mut marks, 0);
    while mark_round(&mut marks, rules) {}
    Ok(marks)
}
