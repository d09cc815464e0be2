//! A token of a text, and the fault where no token begins.

use crate::nfa_index::NfaIndex;
use thiserror::Error;

/// A token: a slice of a text, and the pattern that matched it.
///
/// ```
/// use lalrpop_lexer::Token;
///
/// if let Some(Token { index, slice, start }) = lexer.token("let x") {
///     let length = slice.len(); // 3
/// }
/// ```
#[derive(Clone, Copy, Debug, PartialEq, Eq)]
pub struct Token<'text> {
    /// The index of the pattern in the list, or of the rule in a lexer of rules.
    pub index: NfaIndex,
    /// The slice, never empty.
    pub slice: &'text str,
    /// Where the slice begins in the text, in bytes.
    pub start: usize,
}

/// No pattern matches a nonempty prefix of the rest of a text.
///
/// ```
/// use lalrpop_lexer::TokenFault;
///
/// for item in lexer.tokens(alloc, "let!")? {
///     if let Err(TokenFault { at }) = item {
///         let rest = "let!".get(at..); // Some("!")
///     }
/// }
/// ```
#[derive(Clone, Copy, Debug, PartialEq, Eq, Error)]
#[error("no pattern matches at byte {at}")]
pub struct TokenFault {
    /// Where the rest begins in the text, in bytes.
    pub at: usize,
}
