//! The review of one mode.
ghost use Rattle.std.specs.Prelude.{◌<◌, IfOk};
ghost use Rattle.lalrpop_review.specs.Review.{IsModeReview};

use crate::automaton::{automaton, fewest_states};
use crate::idle::IdleRule;
use crate::idle_rules::idle_rules;
use crate::look::{Look, look_of};
use lalrpop_rules::RuleLexer;
use std::alloc::{AllocError, Global};

/// What is to say of the rules of one mode.
///
/// ```
/// use lalrpop_review::ModeReview;
///
/// let all_win = review.idle.is_empty();
/// ```
#[derive(Debug, Drop)]
pub struct ModeReview {
    /// The rules that belong to the mode and never win there, ascending.
    pub idle: Vec<IdleRule>,
    /// The least number of states of an automaton that recognizes its trees.
    pub least_states: usize,
    /// How far past a token it reads.
    pub look: Look,
}

/// The review of the mode.
pub(crate) fn mode_review(
    alloc: Global,
    lexer: &RuleLexer,
    mode: usize,
) -> Result<ModeReview, AllocError>
    requires there { mode < lexer.now.modes }
    ensures review { IfOk result (IsModeReview lexer.now mode) }
{
    let idle = idle_rules(alloc, lexer, mode)?;
    let least_states = fewest_states(alloc, automaton(lexer, mode))?;
    let look = look_of(alloc, lexer.lexer(mode))?;
    Ok(ModeReview {
        idle,
        least_states,
        look,
    })
}
