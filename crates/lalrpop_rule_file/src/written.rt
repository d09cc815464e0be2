//! What stands in a line, as it is written.

/// The word that the name of a mode follows.
#[derive(Clone, Copy, PartialEq, Eq)]
pub(crate) enum Entry {
    /// `mode`
    Mode,
    /// `push`
    Push,
}

/// An action.
#[derive(Clone, Copy)]
pub(crate) enum WrittenAction<'text> {
    /// It leads into the mode with this name. `here` is the line from the name on.
    Enter {
        entry: Entry,
        mode: &'text str,
        here: &'text str,
    },
    /// `pop`
    Pop,
}

/// The name with which a line begins. `here` is the line from the name on.
#[derive(Clone, Copy)]
pub(crate) struct LineName<'text> {
    pub name: &'text str,
    pub here: &'text str,
}

/// What stands left of the `=` of a rule.
#[derive(Drop)]
pub(crate) struct LineHead<'text> {
    pub name: &'text str,
    pub is_skipped: bool,
    pub actions: Vec<WrittenAction<'text>>,
}

/// What stands between delimiters.
#[derive(Clone, Copy)]
pub(crate) enum Form {
    /// `'LITERAL'`
    Literal,
    /// `"LITERAL"`, with escapes
    Escaped,
    /// `/PATTERN/`
    Pattern,
}

/// The text of a rule, without its delimiters.
#[derive(Clone, Copy)]
pub(crate) enum WrittenText<'text> {
    /// `'LITERAL'`, `"LITERAL"` or `/PATTERN/`
    Quoted(Form, &'text str),
    /// `anycase 'LITERAL'`
    AnyCase(&'text str),
    /// `from 'A' to 'B'`
    FromTo { from: &'text str, to: &'text str },
}

/// The text of a rule, and the line from where it begins, after the first delimiter.
#[derive(Clone, Copy)]
pub(crate) struct LineText<'text> {
    pub text: WrittenText<'text>,
    pub here: &'text str,
}

/// A rule.
#[derive(Drop)]
pub(crate) struct LineRule<'text> {
    pub head: LineHead<'text>,
    pub precedence: usize,
    pub text: LineText<'text>,
}

/// A part: its name, its pattern, and the line from where the pattern begins, after its first slash.
#[derive(Clone, Copy)]
pub(crate) struct LinePart<'text> {
    pub name: LineName<'text>,
    pub pattern: &'text str,
    pub here: &'text str,
}

/// The modes of a section.
#[derive(Drop)]
pub(crate) enum Section<'text> {
    /// The modes with these names.
    These(Vec<&'text str>),
    /// Every mode of the file.
    Every,
}

/// What a line says.
#[derive(Drop)]
pub(crate) enum Said<'text> {
    /// It is blank or a comment.
    Nothing,
    /// The rules below it belong to these modes.
    Heading(Section<'text>),
    /// A part.
    Define(LinePart<'text>),
    /// A rule.
    Rule(LineRule<'text>),
}
