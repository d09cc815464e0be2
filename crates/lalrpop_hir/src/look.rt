//! What a pattern can require of a position in a text.

/// What a pattern requires of a position in a text: that a line or a word begins there, say. It reads no character.
///
/// A tree can hold one, but this port builds no automaton for such a tree.
///
/// ```
/// use lalrpop_lexer::lexer::re::{Hir, Look};
///
/// // The tree of `\Aa`.
/// let parts = vec![in alloc; Hir::look(Look::Start), Hir::literal(alloc, "a")?]?;
/// let tree = Hir::concat(parts);
/// ```
#[derive(Clone, Copy, Debug, PartialEq, Eq)]
pub enum Look {
    /// The text begins here.
    Start,
    /// The text ends here.
    End,
    /// A line begins here: at the start of the text, or after a line feed.
    StartLF,
    /// A line ends here: at the end of the text, or before a line feed.
    EndLF,
    /// A word begins or ends here.
    WordUnicode,
    /// No word begins or ends here.
    WordUnicodeNegate,
    /// A word begins here.
    WordStartUnicode,
    /// A word ends here.
    WordEndUnicode,
    /// No word character comes before.
    WordStartHalfUnicode,
    /// No word character follows.
    WordEndHalfUnicode,
}
