//! A part of a file, as it is written.

use bajofeki_rules::Position;

/// A part of a file: its name, its pattern and where it stands.
///
/// ```
/// use lalrpop_rule_file::read_rules;
///
/// let file = read_rules(alloc, b"D part = /[0-9]/\n  NUM = /{D}+/\n")?;
/// let line = file.part_lines[0];
/// let part = (line.name, line.pattern, line.place.line, line.place.column); // ("D", "[0-9]", 1, 1)
/// ```
#[derive(Clone, Copy, Debug)]
pub struct PartLine<'text> {
    /// What it is called.
    pub name: &'text str,
    /// The text between its slashes.
    pub pattern: &'text str,
    /// The place at which its name begins. Lines and columns count from 1, columns in characters. The columns of the first line
    /// count from after a byte order mark.
    pub place: Position,
}
