//! A piece of a text in numbers.

/// A piece of a text of bytes: a token, skipped or not, or a fault, which is bytes at none of which a rule matches. Places and
/// lengths are in bytes.
///
/// ```
/// use lalrpop_emit::{LexerNumbers, NumberedPiece};
///
/// let all = numbers.pieces(alloc, b"if x")?;
/// let first: NumberedPiece = all.pieces[0]; // kind and rule of `if`, from 0 on, 2 bytes
/// ```
#[derive(Clone, Copy, Debug, PartialEq, Eq)]
pub struct NumberedPiece {
    /// The kind of its rule; `None` in a fault.
    pub kind: Option<u32>,
    /// The index of its rule; 0 in a fault.
    pub rule: usize,
    /// Where it begins.
    pub start: usize,
    /// How long it is.
    pub length: usize,
}
