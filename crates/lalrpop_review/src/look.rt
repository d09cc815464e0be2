//! How far past a token a text is read.
ghost use Rattle.std.specs.Prelude.{◌≡◌, length, slice_get, Some, true, IfOk};
ghost use Rattle.lalrpop_review.specs.Review.{AreThose, IsLook};

use lalrpop_lexer::Lexer;
use lalrpop_lexer::lexer::dfa::{NfaIndex, Witness};
use std::alloc::{AllocError, Global};

/// How many characters after a token can leave it open whether a longer one comes.
///
/// ```
/// use lalrpop_review::Look;
///
/// let is_bounded = matches!(look, Look::AtMost { .. });
/// ```
#[derive(Debug, Drop)]
pub enum Look {
    /// At most this many: one more settles it.
    AtMost {
        count: usize,
        /// The least token that this many characters can leave open, and the least such characters. `None` if none can: there is
        /// no token.
        witness: Option<Witness>,
    },
    /// Any number, after tokens of these rules, ascending.
    Unbounded {
        rules: Vec<NfaIndex>,
    },
}

// The indices of the flags that are true, ascending.
fn marked(alloc: Global, flags: &[bool]) -> Result<Vec<NfaIndex>, AllocError>
    ensures marked { IfOk result (λ found. AreThose (length flags.now)
        (λ i. slice_get flags.now i ≡ Some true) found.items) }
{
    let mut found = Vec::new(alloc);
    for index in 0..flags.len() {
        if flags[index] {
            found.push(NfaIndex::new(index))?;
        }
    }
    Ok(found)
}

/// How far past its tokens the lexer reads.
pub(crate) fn look_of(alloc: Global, lexer: &Lexer) -> Result<Look, AllocError>
    ensures look { IfOk result (IsLook lexer.now.trees lexer.now.precedences) }
{
    match lexer.lookahead() {
        Some(count) => {
            let witness = lexer.lookahead_witness(alloc, count)?;
            Ok(Look::AtMost { count, witness })
        }
        None => {
            let flags = lexer.unbounded_patterns(alloc)?;
            let rules = marked(alloc, &flags)?;
            Ok(Look::Unbounded { rules })
        }
    }
}
