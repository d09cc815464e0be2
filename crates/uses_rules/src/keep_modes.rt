//! A stack of modes, which goes along with a text.
ghost use Rattle.std.specs.Prelude.{◌≡◌, ◌↔◌, ◌+◌, IsTrue, length, IfOk};
ghost use Rattle.bajofeki_rules.specs.Stack.{act_all, start};

use lalrpop_rules::{Action, ModeStack};
use std::alloc::{AllocError, Global};

// Needs lalrpop_rules::ModeStack::new: start; lalrpop_rules::ModeStack::act_all: acted; lalrpop_rules::ModeStack::top: mode.
/// The mode in which a text is read after these actions.
///
/// # Errors
///
/// `AllocError` if a request for memory was refused.
pub fn mode_after(alloc: Global, actions: &[Action]) -> Result<usize, AllocError>
    ensures mode { IfOk result (λ mode. mode ≡ (act_all actions.now start).mode) }
{
    let mut stack = ModeStack::new(alloc);
    stack.act_all(actions)?;
    Ok(stack.top())
}

// Needs lalrpop_rules::ModeStack::act_all: acted, refused.
/// Puts a mode on the stack and takes it away. Whether memory was refused or not, the stack is as it was.
pub fn push_and_pop(stack: &mut ModeStack, mode: usize) -> bool
    ensures same { stack.new ≡ stack.old }
{
    stack.act_all(&[Action::Push(mode), Action::Pop]).is_ok()
}

// Needs lalrpop_rules::ModeStack::act: acted, refused.
/// Puts a mode in the place of the one on top. Those below stay, whether memory was refused or not.
pub fn leave_for(stack: &mut ModeStack, mode: usize) -> bool
    ensures below { stack.new.below ≡ stack.old.below }
{
    stack.act(&Action::Mode(mode)).is_ok()
}

// Needs lalrpop_rules::ModeStack::clone: ghost is_clone; lalrpop_rules::ModeStack::eq: same.
// Needs lalrpop_rules::ModeStack::act_all: acted.
/// Whether actions lead back to the stack of modes on which they begin.
///
/// # Errors
///
/// `AllocError` if a request for memory was refused.
pub fn lead_back(stack: &ModeStack, actions: &[Action]) -> Result<bool, AllocError>
    ensures same { IfOk result (λ same. IsTrue same ↔ (act_all actions.now stack.now ≡ stack.now)) }
{
    let mut copy = stack.clone()?;
    copy.act_all(actions)?;
    Ok(copy == *stack)
}

// Needs lalrpop_rules::ModeStack::depth: depth; lalrpop_rules::ModeStack::act: acted.
/// Puts a mode on the stack, and tells how many lie below it.
///
/// # Errors
///
/// `AllocError` if a request for memory was refused.
pub fn push_and_count(stack: &mut ModeStack, mode: usize) -> Result<usize, AllocError>
    ensures one_more { IfOk result (λ depth. depth ≡ length stack.old.below + 1) }
{
    stack.act(&Action::Push(mode))?;
    Ok(stack.depth())
}
