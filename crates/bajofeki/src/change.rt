//! What an edit changes.

/// What an edit changes of the pieces of a text. Pieces are numbered from 0; places are in bytes.
///
/// ```
/// let change = text.edit(alloc, 4..5, "yz")?; // "let x" becomes "let yz"
/// let repaint = &text.text()[change.start..change.new_end]; // " yz", if the space depends on the character after it
/// ```
#[derive(Clone, Copy, Debug, PartialEq, Eq)]
pub struct Change {
    /// How many pieces at the front stay.
    pub first: usize,
    /// How many old pieces after those are gone.
    pub removed: usize,
    /// How many pieces came in their place. All others are the old ones, shifted.
    pub inserted: usize,
    /// Where the first piece that is gone, or came, begins.
    pub start: usize,
    /// Where the last piece that is gone ended in the old text.
    pub old_end: usize,
    /// Where the last piece that came ends in the new text.
    pub new_end: usize,
}
