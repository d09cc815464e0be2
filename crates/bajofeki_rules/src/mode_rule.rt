//! A rule with its modes and actions.

use crate::action::Action;
use crate::rule::Rule;

/// A rule, the modes that it belongs to, and what its token does to the stack of modes.
///
/// ```
/// use bajofeki_rules::{Action, ModeRule, Rule};
///
/// let open = ModeRule { rule: Rule::literal("OPEN", "/*"), modes: &[0, 1], actions: &[Action::Push(1)] };
/// let close = ModeRule { rule: Rule::literal("CLOSE", "*/"), modes: &[1], actions: &[Action::Pop] };
/// ```
#[derive(Clone, Copy, Debug)]
pub struct ModeRule<'text> {
    /// The rule.
    pub rule: Rule<'text>,
    /// The modes in which it is at work.
    pub modes: &'text [usize],
    /// What its token does to the stack of modes, one action after another.
    pub actions: &'text [Action],
}
