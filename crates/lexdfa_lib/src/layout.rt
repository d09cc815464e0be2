//! Which lines are written for a text.

/// What the line of a piece looks like.
///
/// ```
/// use lexdfa_lib::LineForm;
///
/// let form = LineForm::Json;
/// ```
#[derive(Clone, Copy, Debug, PartialEq, Eq)]
pub enum LineForm {
    /// `LINE:COLUMN NAME "SLICE"`.
    Plain,
    /// A JSON object.
    Json,
}

/// Which lines are written for a text, and what they look like.
///
/// ```
/// use lexdfa_lib::{Layout, LineForm};
///
/// // Lines for people, which name the file, up to the first fault.
/// let layout = Layout { form: LineForm::Plain, recovers: false, file: Some("a.txt"), modes: &[] };
/// ```
#[derive(Clone, Copy, Debug)]
pub struct Layout<'file, 'modes> {
    /// What a line looks like.
    pub form: LineForm,
    /// Whether the text is cut to its end and faults have lines; if not, it is cut up to its first fault.
    pub recovers: bool,
    /// The file that each line names, if any.
    pub file: Option<&'file str>,
    /// The names of the modes, in order. If there are several, a line of JSON names the mode in which its piece was read.
    pub modes: &'modes [String],
}
