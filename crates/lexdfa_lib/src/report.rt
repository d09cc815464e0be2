//! What is reported about terminals that have no automaton.
ghost use Rattle.std.specs.Prelude.{◌≡◌, ℕ, List, IfOk, OnErr};
ghost use Rattle.lalrpop_hir.specs.Tree.{Tree};
ghost use Rattle.lalrpop_lexer.specs.Report.{IsReport};
ghost use Rattle.lexdfa_lib.specs.Answer.{IsReported};
ghost use Rattle.bajofeki_rules.specs.Lines.{lines};
ghost use Rattle.lalrpop_lexer.specs.Terminals.{AreTerminals};

use crate::outcome::Outcome;
use crate::word::Word;
use lalrpop_lexer::lexer::dfa::DfaConstructionError;
use std::alloc::AllocError;

/// The outcome for terminals whose automaton can't be built, or whose clashes can't be listed.
///
/// # Errors
///
/// `AllocError` if a request for memory was refused.
pub fn outcome_of_error(error: DfaConstructionError) -> Result<Outcome, AllocError>
    ensures ok { IfOk result (λ outcome. (bytes : List ℕ) (ts : List Tree) (ps : List ℕ)
        → AreTerminals (lines bytes) ts ps → IsReport ts ps error → IsReported bytes outcome) }
    ensures memory { OnErr result (error ≡ DfaConstructionError.OutOfMemory) }
{
    match error {
        DfaConstructionError::NfaConstructionError { index, error } => Ok(Outcome::Refused {
            terminal: index.index(),
            error,
        }),
        DfaConstructionError::Ambiguity {
            match0,
            match1,
            word,
        } => Ok(Outcome::Ambiguous {
            match0: match0.index(),
            match1: match1.index(),
            word: Word::new(word),
        }),
        DfaConstructionError::OutOfMemory => Err(AllocError),
    }
}
