//! Which state of a pattern's automaton.
ghost use Rattle.std.specs.Prelude.{◌≡◌};

use std::fmt;
use std::marker::Model;

/// The state in which a word matches.
pub const ACCEPT: NfaStateIndex = NfaStateIndex(0);

/// The state from which no continuation of the word matches.
pub const REJECT: NfaStateIndex = NfaStateIndex(1);

/// The state in which each run begins.
pub const START: NfaStateIndex = NfaStateIndex(2);

/// The number of a state of an automaton, from 0.
///
/// ```
/// use lalrpop_lexer::lexer::nfa::{NfaStateIndex, START};
///
/// let is_start = NfaStateIndex::new(2) == START; // true
/// ```
#[derive(Copy, Clone, PartialEq, Eq, PartialOrd, Ord, Hash)]
pub struct NfaStateIndex(usize);

impl Model for NfaStateIndex {
    ghost use Rattle.std.specs.Prelude.{ℕ};

    ghost Value = { ℕ };

    ghost view = { λ i. i.0 };

    ghost inverse = { λ n. record { 0 = n } };
}

impl NfaStateIndex {
    /// The state with this number.
    pub fn new(number: usize) -> NfaStateIndex
        ensures value { result ≡ number }
    {
        NfaStateIndex(number)
    }

    /// The state's number.
    pub fn index(self) -> usize
        ensures value { result ≡ self }
    {
        self.0
    }
}

impl fmt::Debug for NfaStateIndex {
    fn fmt<W: fmt::Write>(&self, f: &mut fmt::Formatter<W>) -> fmt::Result {
        let number = self.0;
        write!(f, "Nfa{number}")
    }
}
