//! How cutting a text ends.

use lalrpop_lexer::Position;

/// A mode that was put on top of another one, and in which a text ends.
///
/// ```
/// use lalrpop_lexer::Position;
/// use pieces_lib::OpenMode;
///
/// // The comment that begins in line 2 isn't closed.
/// let comment = OpenMode { mode: 1, place: Position { line: 2, column: 5 } };
/// ```
#[derive(Clone, Copy, Debug, PartialEq, Eq)]
pub struct OpenMode {
    /// Its number.
    pub mode: usize,
    /// Where the token begins that put the mode there.
    pub place: Position,
}

/// What is at the front of a fault: a character, or a byte where no character is.
///
/// ```
/// use pieces_lib::Found;
///
/// let found = Found::Byte(0xFF); // shown as `\xff`
/// ```
#[derive(Clone, Copy, Debug, PartialEq, Eq)]
pub enum Found {
    /// A character.
    Character(char),
    /// A byte that is of no character.
    Byte(u8),
}

/// How cutting a text ends that is read as it comes.
///
/// ```
/// use pieces_lib::CutEnd;
///
/// let whole = CutEnd::Whole { has_fault: false, inside: None };
/// ```
#[derive(Debug, Drop)]
pub enum CutEnd {
    /// The text was cut to its end.
    Whole {
        /// Whether it has a fault.
        has_fault: bool,
        /// The mode that is on top of the stack at the end, if it has one below it.
        inside: Option<OpenMode>,
    },
    /// It was cut up to a fault, where no rule matches.
    Stopped {
        /// Where the fault begins.
        place: Position,
        /// What is at the front of the fault.
        found: Found,
    },
    /// It was cut as far as it was read: a read failed.
    Unread,
}
