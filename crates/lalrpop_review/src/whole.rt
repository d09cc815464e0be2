//! What a review says of rules with modes.
use crate::mode::ModeReview;
use lalrpop_lexer::lexer::dfa::NfaIndex;

/// What is to say of rules with modes.
///
/// ```
/// use lalrpop_review::{Review, review};
///
/// let Review { empty, modes } = review(alloc, &lexer)?;
/// let finds_nothing = empty.is_empty() && modes.iter().all(|mode| mode.idle.is_empty());
/// ```
#[derive(Debug, Drop)]
pub struct Review {
    /// The rules that match the empty text, ascending. No token is empty.
    pub empty: Vec<NfaIndex>,
    /// A review of each mode, in order.
    pub modes: Vec<ModeReview>,
}
