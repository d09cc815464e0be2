//! A piece that is written as a line.

/// What the line of a piece shows, apart from its line and column.
///
/// ```
/// use reports_lib::{Shown, push_plain};
///
/// let shown = Shown { start: 0, name: Some("IF"), mode: None, slice: b"if" };
/// push_plain(alloc, &mut lines, None, Position { line: 1, column: 1 }, &shown)?; // 1:1 IF "if"
/// ```
#[derive(Clone, Copy, Debug)]
pub struct Shown<'name, 'mode, 'text> {
    /// Where the piece begins in the text, in bytes.
    pub start: usize,
    /// The name of its rule; `None` for a fault.
    pub name: Option<&'name str>,
    /// The mode in which it was read, if the line names it.
    pub mode: Option<&'mode str>,
    /// The piece of the text; it needn't be UTF-8.
    pub slice: &'text [u8],
}
