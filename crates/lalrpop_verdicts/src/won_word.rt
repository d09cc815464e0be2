//! A word, and the pattern that wins it.
use lalrpop_hir::NfaIndex;
use std::marker::Model;

/// A pattern that wins a word of another one, and the word.
///
/// ```
/// use lalrpop_verdicts::Verdict;
///
/// if let Verdict::Shadowed(winners) = &verdict {
///     for winner in winners {
///         let pattern = winner.by.index();
///         let length = winner.word.len();
///     }
/// }
/// ```
#[derive(Debug, Drop)]
pub struct WonWord {
    /// The pattern that wins.
    pub by: NfaIndex,
    /// The shortest, then least, such word, by the code values of its characters.
    pub word: Vec<u32>,
}

impl Model for WonWord {
    ghost use Rattle.lalrpop_verdicts.specs.WonWord.{WonWord};

    ghost Value = { WonWord };

    ghost view = { λ w. record { by = w.by; word = w.word.items } };
}
