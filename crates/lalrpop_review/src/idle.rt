//! A rule that never wins.
use lalrpop_lexer::lexer::dfa::NfaIndex;
use lalrpop_verdicts::WonWord;

/// A rule that never wins in a mode: each nonempty text that it matches is a token of a rule of another kind there.
///
/// ```
/// use lalrpop_review::IdleRule;
///
/// let matches_nothing = idle.winners.is_empty();
/// ```
#[derive(Debug, Drop)]
pub struct IdleRule {
    /// The rule.
    pub rule: NfaIndex,
    /// The rules that win its texts, ascending, each with the least such text. None if it matches no nonempty text.
    pub winners: Vec<WonWord>,
}
