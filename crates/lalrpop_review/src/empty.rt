//! The rules that match the empty text.
ghost use Rattle.std.specs.Prelude.{[], length, IfOk};
ghost use Rattle.lalrpop_hir.specs.Winners.{TreeMatches};
ghost use Rattle.lalrpop_review.specs.Review.{AreThose};

use lalrpop_lexer::lexer::dfa::NfaIndex;
use lalrpop_lexer::lexer::re::Regex;
use lalrpop_verdicts::matches_empty;
use std::alloc::{AllocError, Global};

/// The indices of the trees that match the empty text, ascending.
pub(crate) fn empty_rules(alloc: Global, regexs: &[Regex]) -> Result<Vec<NfaIndex>, AllocError>
    ensures empty { IfOk result (λ found. AreThose (length regexs.now) (TreeMatches regexs.now [])
        found.items) }
{
    let mut found = Vec::new(alloc);
    for index in 0..regexs.len() {
        if matches_empty(&regexs[index]) {
            found.push(NfaIndex::new(index))?;
        }
    }
    Ok(found)
}
