//! What rules with modes say.

ghost use Rattle.std.specs.Prelude.{◌≢◌, ◌<◌, ◌↔◌, ℕ, [], List, length, IfOk, IfSome, IsTrue};
ghost use Rattle.lalrpop_hir.specs.Winners.{TreeMatches};
ghost use Rattle.lalrpop_review.specs.Apart.{IsTokenIn, TellsApart};
ghost use Rattle.lalrpop_review.specs.Review.{AreThose};

use lalrpop_hir::NfaIndex;
use lalrpop_review::{Difference, difference_in, review};
use lalrpop_rules::RuleLexer;
use std::alloc::{AllocError, Global};

// Needs lalrpop_review::review: review.
/// The rules that match the empty text.
///
/// # Errors
///
/// `AllocError` if a request for memory was refused.
pub fn empty_rules(alloc: Global, lexer: &RuleLexer) -> Result<Vec<NfaIndex>, AllocError>
    ensures rules { IfOk result (λ found. AreThose (length lexer.now.trees)
        (TreeMatches lexer.now.trees []) found.items) }
{
    Ok(review(alloc, lexer)?.empty)
}

// Needs lalrpop_review::difference_in: least, left_token, right_token.
/// The least text that is another token by the new rules in the mode in which a text begins.
///
/// # Errors
///
/// `AllocError` if a request for memory was refused.
pub fn first_changed_token(
    alloc: Global,
    old: &RuleLexer,
    new: &RuleLexer,
) -> Result<Option<Difference>, AllocError>
    requires old_mode { 0 < old.now.modes }
    requires new_mode { 0 < new.now.modes }
    ensures text { IfOk result (λ found. IfSome found (λ f. f.word ≢ [])) }
    ensures was { IfOk result (λ found. IfSome found (λ f. IsTokenIn old.now 0 f.word f.left)) }
    ensures is_now { IfOk result (λ found. IfSome found (λ f. IsTokenIn new.now 0 f.word f.right)) }
{
    difference_in(alloc, old, new, 0)
}

// Needs lalrpop_review::difference_in: none.
/// Whether the new rules make the same token of each text in this mode.
///
/// # Errors
///
/// `AllocError` if a request for memory was refused.
pub fn is_unchanged_in(
    alloc: Global,
    old: &RuleLexer,
    new: &RuleLexer,
    mode: usize,
) -> Result<bool, AllocError>
    requires old_mode { mode < old.now.modes }
    requires new_mode { mode < new.now.modes }
    ensures same { IfOk result (λ same. IsTrue same
        ↔ ((w : List ℕ) → ¬ TellsApart old.now new.now mode w)) }
{
    Ok(difference_in(alloc, old, new, mode)?.is_none())
}
