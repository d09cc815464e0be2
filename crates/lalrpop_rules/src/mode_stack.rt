//! The stack of modes.

ghost use Rattle.std.specs.Prelude.{◌≡◌, ◌↔◌, ◌<◌, ◌≤◌, ◌+◌, ◌&&◌, IsTrue, length, nat_eq, reverse, vec_len, vec_capacity, IfOk, OnOk, OnErr};
ghost use Rattle.std.specs.Cmp.{partial_equiv_from_equiv, and_equiv, on_equiv, nat_eq_equiv};
ghost use Rattle.std.specs.Cmp.Lexicographic.{pointwise, nat_list_eq_equiv};
ghost use Rattle.lalrpop_rules.specs.Internal.Cutting.{CutsNext, IsSoughtNext, HasAtMost, after_next};
ghost use Rattle.lalrpop_rules.specs.Modes.{EachMode};
ghost use Rattle.bajofeki_rules.specs.Stack.{start, act, act_all};

use crate::cutter::Cutter;
use crate::piece::Piece;
use bajofeki_rules::Action;
use std::alloc::{AllocError, Global};
use std::marker::Model;

/// The mode on top, in which the text is read, and the modes below it. So it is never empty. Two stacks are equal if their
/// modes are, from the one on top to the last.
///
/// ```
/// use lalrpop_rules::{Action, ModeStack};
///
/// let mut stack = ModeStack::new(alloc);
/// stack.act_all(&[Action::Push(1), Action::Push(2), Action::Pop])?;
/// let mode = stack.top(); // 1
/// let below = stack.depth(); // 1
///
/// let mut other = stack.clone()?;
/// other.act(&Action::Push(1))?;
/// let is_same = other == stack; // false
/// ```
#[derive(Debug, Drop)]
pub struct ModeStack {
    top: usize,
    // The next one is the last.
    below: Vec<usize>,
}

impl Model for ModeStack {
    ghost use Rattle.std.specs.Prelude.{reverse};
    ghost use Rattle.bajofeki_rules.specs.Stack.{Stack};
    ghost use Rattle.lalrpop_rules.specs.Internal.ModeCode.{stack_code};

    ghost Value = { Stack };

    ghost coded = { stack_code };

    ghost view = { λ s. record { mode = s.top; below = reverse s.below.items } };
}

// Does the action. There is room for one mode more.
fn act_within(top: &mut usize, below: &mut Vec<usize>, action: &Action)
    requires room { vec_len below.old < vec_capacity below.old }
    ensures acted { record { mode = top.new; below = reverse below.new.items }
        ≡ act action.now (record { mode = top.old; below = reverse below.old.items }) }
    ensures len { vec_len below.new ≤ vec_len below.old + 1 }
    ensures capacity { vec_capacity below.old ≤ vec_capacity below.new }
{
    match action {
        Action::Mode(mode) => *top = *mode,
        Action::Push(mode) => match below.push(*top) {
            Ok(()) => *top = *mode,
            Err(_) => unreachable!(),
        },
        Action::Pop => {
            if let Some(next) = below.pop() {
                *top = next;
            }
        }
    }
}

// Does the actions, one after another. There is room for as many modes more.
#[inline(always)]
#[tactic(auto, using(std::proofs::lemmas::List::Sums::fold_more))]
fn act_all_within(top: &mut usize, below: &mut Vec<usize>, actions: &[Action])
    requires room { vec_len below.old + length actions.now ≤ vec_capacity below.old }
    ensures acted { record { mode = top.new; below = reverse below.new.items }
        ≡ act_all actions.now (record { mode = top.old; below = reverse below.old.items }) }
{
    for action in actions {
        act_within(top, below, action);
    }
}

impl ModeStack {
    /// The stack at the beginning of a text: mode 0, with none below it.
    pub fn new(alloc: Global) -> ModeStack
        ensures start { result ≡ start }
    {
        ModeStack {
            top: 0,
            below: Vec::new(alloc),
        }
    }

    /// The mode on top.
    pub fn top(&self) -> usize
        ensures mode { result ≡ self.now.mode }
    {
        self.top
    }

    /// How many modes lie below the one on top.
    pub fn depth(&self) -> usize
        ensures depth { result ≡ length self.now.below }
    {
        self.below.len()
    }

    /// Does the action.
    ///
    /// # Errors
    ///
    /// `AllocError` if a request for memory was refused. Then the stack is as it was.
    pub fn act(&mut self, action: &Action) -> Result<(), AllocError>
        ensures acted { OnOk result (self.new ≡ act action.now self.old) }
        ensures refused { OnErr result (self.new ≡ self.old) }
    {
        self.below.reserve(1)?;
        act_within(&mut self.top, &mut self.below, action);
        Ok(())
    }

    /// Does the actions, one after another.
    ///
    /// # Errors
    ///
    /// `AllocError` if a request for memory was refused. Then the stack is as it was.
    pub fn act_all(&mut self, actions: &[Action]) -> Result<(), AllocError>
        ensures acted { OnOk result (self.new ≡ act_all actions.now self.old) }
        ensures refused { OnErr result (self.new ≡ self.old) }
    {
        self.below.reserve(actions.len())?;
        act_all_within(&mut self.top, &mut self.below, actions);
        Ok(())
    }

    /// The piece at the front of the rest of a text that is cut in the mode on top, or `None` at its end. The actions of its
    /// rule are done; no rule has more than `most`.
    ///
    /// # Errors
    ///
    /// `AllocError` if memory for these additional modes was refused. It is requested first, so that nothing is cut then.
    #[inline(always)]
    pub(crate) fn cut_piece<'text>(
        &mut self,
        cutter: &mut Cutter<'text>,
        most: usize,
    ) -> Result<Option<Piece<'text>>, AllocError>
        requires most { HasAtMost most cutter.old.rules.actions }
        ensures cuts { IfOk result (λ piece. CutsNext cutter.old piece cutter.new) }
        ensures sought { IfOk result (λ piece. IsSoughtNext piece cutter.new) }
        ensures acted { IfOk result (λ piece.
            self.new ≡ after_next cutter.old.rules.actions piece self.old) }
        ensures there { OnOk result (EachMode (λ m. m < cutter.old.rules.modes) self.old
            → EachMode (λ m. m < cutter.old.rules.modes) self.new) }
        ensures refused { OnErr result ((self.new ≡ self.old) × (cutter.new ≡ cutter.old)) }
    {
        self.below.reserve(most)?;
        match cutter.next_piece() {
            Some(piece) => {
                let actions = cutter.actions(&piece);
                act_all_within(&mut self.top, &mut self.below, actions);
                Ok(Some(piece))
            }
            None => Ok(None),
        }
    }
}

impl Clone for ModeStack {
    ghost is_clone = { λ stack copy. copy ≡ stack };

    fn clone(&self) -> Result<ModeStack, AllocError> {
        Ok(ModeStack {
            top: self.top,
            below: self.below.clone()?,
        })
    }
}

impl PartialEq for ModeStack {
    ghost eq = { λ s t. nat_eq s.mode t.mode && pointwise nat_eq s.below t.below };

    ghost laws = { partial_equiv_from_equiv (and_equiv (on_equiv (λ s. s.mode) nat_eq_equiv)
        (on_equiv (λ s. s.below) nat_list_eq_equiv)) };

    /// Whether the modes on top are equal, and so are those below, each at its place.
    fn eq(&self, other: &ModeStack) -> bool
        ensures same { IsTrue result ↔ (self.now ≡ other.now) }
    {
        self.top == other.top && self.below == other.below
    }
}

impl Eq for ModeStack {
    ghost laws = { and_equiv (on_equiv (λ s. s.mode) nat_eq_equiv)
        (on_equiv (λ s. s.below) nat_list_eq_equiv) };
}
