//! Which pattern of a list.
ghost use Rattle.std.specs.Prelude.{◌≡◌};

use std::marker::Model;

/// The index of a pattern in its list, from 0.
///
/// ```
/// let names = ["KEYWORD", "NAME"];
/// if let Some(token) = lexer.token("let x") {
///     let name = names.get(token.index.index());
/// }
/// ```
#[derive(Copy, Clone, Debug, PartialEq, Eq, PartialOrd, Ord, Hash)]
pub struct NfaIndex(usize);

impl Model for NfaIndex {
    ghost use Rattle.std.specs.Prelude.{ℕ};

    ghost Value = { ℕ };

    ghost view = { λ i. i.0 };

    ghost inverse = { λ n. record { 0 = n } };
}

impl NfaIndex {
    /// The pattern at this index.
    pub fn new(number: usize) -> NfaIndex
        ensures value { result ≡ number }
    {
        NfaIndex(number)
    }

    /// The index as a number.
    pub fn index(self) -> usize
        ensures value { result ≡ self }
    {
        self.0
    }
}
