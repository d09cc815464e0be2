//! The review of rules with modes.
ghost use Rattle.std.specs.Prelude.{IfOk};
ghost use Rattle.lalrpop_review.specs.Review.{IsReview};

use crate::empty::empty_rules;
use crate::mode::mode_review;
use crate::whole::Review;
use lalrpop_rules::RuleLexer;
use std::alloc::{AllocError, Global};

/// The review of the rules of this lexer: the rules that match the empty text; and for each mode the rules that never win there,
/// with the rules that win their texts, the number of states of its smallest automaton, and how far past a token it reads.
///
/// A rule that matches the empty text is told even if it wins other texts. A rule never wins in a mode if each nonempty text
/// that it matches is a token of a rule of another kind there: rules of one kind have the same tokens, so none of them hides
/// another. The review of a mode speaks only of the rules that belong to it.
///
/// Cost: one walk over the automaton of each mode finds the rules that win. Each other rule is built alone, and its automaton is
/// walked beside the whole one; so is each rule that shares its kind in the mode with others. The smallest automaton takes as
/// many rounds as it has states, at most.
///
/// # Errors
///
/// `AllocError` if a request for memory was refused.
///
/// ```
/// use lalrpop_review::review;
/// use lalrpop_rules::{ModeRule, Rule, RuleLexer};
///
/// // The name has the greater precedence, so the keyword never wins.
/// let keyword = Rule::literal("IF", "if").with_precedence(0);
/// let name = Rule::pattern("NAME", "[a-z]+").with_precedence(1);
/// let rules = [
///     ModeRule { rule: keyword, modes: &[0], actions: &[] },
///     ModeRule { rule: name, modes: &[0], actions: &[] },
/// ];
/// let lexer = RuleLexer::with_modes(alloc, &rules, &["INITIAL"])?;
/// let found = review(alloc, &lexer)?;
/// let hidden = &found.modes[0].idle[0]; // the rule 0: rule 1 wins "if"
/// ```
pub fn review(alloc: Global, lexer: &RuleLexer) -> Result<Review, AllocError>
    ensures review { IfOk result (IsReview lexer.now) }
{
    let empty = empty_rules(alloc, lexer.regexs())?;
    let mut modes = Vec::new(alloc);
    for mode in 0..lexer.modes() {
        let found = mode_review(alloc, lexer, mode)?;
        modes.push(found)?;
    }
    Ok(Review { empty, modes })
}
