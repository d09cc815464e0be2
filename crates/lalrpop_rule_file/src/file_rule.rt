//! A rule of a file.

use bajofeki_rules::{Action, Position, Rule};

/// A rule of a file, its modes and actions, and where it stands. Modes are numbered from 0, as the file's `modes`.
///
/// ```
/// use lalrpop_rule_file::read_rules;
///
/// let file = read_rules(alloc, b"OPEN push TEXT = '(('\n[TEXT]\nCLOSE pop = '))'\n")?;
/// let actions = &file.rules[0].actions; // [Action::Push(1)]
/// let modes = &file.rules[1].modes; // [1]
/// ```
#[derive(Debug, Drop)]
pub struct FileRule<'text> {
    /// The rule.
    pub rule: Rule<'text>,
    /// The modes in which it is at work.
    pub modes: Vec<usize>,
    /// What its token does to the stack of modes, one action after another.
    pub actions: Vec<Action>,
    /// How many of the file's parts stand above its line: these its pattern may have.
    pub known: usize,
    /// The place at which its text begins, after the first delimiter. Lines and columns count from 1, columns in characters.
    /// The columns of the first line count from after a byte order mark.
    pub place: Position,
}
