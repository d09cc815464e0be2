//! How many rules of a mode there are of each kind.
ghost use Rattle.std.specs.Prelude.{◌≡◌, ℕ, Some, length, slice_get, IfOk};
ghost use Rattle.std.specs.Bool.{MatchBool};
ghost use Rattle.bajofeki_rules.specs.EnteredModes.{Belongs};
ghost use Rattle.lalrpop_review.specs.Internal.Kinds.{IsCount};

use lalrpop_lexer::lexer::dfa::NfaIndex;
use lalrpop_rules::RuleLexer;
use std::alloc::{AllocError, Global};

/// Whether the rule with this index belongs to the mode.
pub(crate) fn belongs(lexer: &RuleLexer, mode: usize, index: usize) -> bool
    ensures { MatchBool result (Belongs lexer.now.members mode index)
        (¬ Belongs lexer.now.members mode index) }
{
    match lexer.modes_of(NfaIndex::new(index)) {
        Some(modes) => modes.contains(&mode),
        None => false,
    }
}

/// By kind, how many rules of the kind belong to the mode.
pub(crate) fn kind_counts(
    alloc: Global,
    lexer: &RuleLexer,
    mode: usize,
) -> Result<Vec<usize>, AllocError>
    ensures counts { IfOk result (λ counts. (k c : ℕ) → slice_get counts.items k ≡ Some c
        → IsCount lexer.now mode (length lexer.now.kinds) k c) }
{
    let kinds = lexer.kinds();
    let mut counts = vec![in alloc; 0usize; kinds.len()]?;
    for index in 0..kinds.len() {
        let kind = kinds[index];
        if kind < counts.len() && belongs(lexer, mode, index) {
            counts[kind] += 1;
        }
    }
    Ok(counts)
}
