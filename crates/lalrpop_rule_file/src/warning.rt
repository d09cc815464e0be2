//! What a file of rules may say, but surely doesn't mean.

/// What a file of rules may say, but surely doesn't mean. Parts, modes and rules are numbered from 0, in the order in which the
/// file has them.
///
/// ```
/// use lalrpop_rule_file::{Warning, read_rules};
///
/// let file = read_rules(alloc, b"D part = /[0-9]/\nA = /'.*'/\n")?;
/// let warnings = file.warnings(alloc)?; // [Warning::PartUnused { part: 0 }, Warning::EndPassed { rule: 0 }]
/// ```
#[derive(Clone, Copy, Debug, PartialEq, Eq)]
pub enum Warning {
    /// There is no rule.
    NoRules,
    /// No pattern that may have this part says `{NAME}`, with its name: neither that of a part further down nor that of a rule
    /// below it.
    PartUnused { part: usize },
    /// No text ever enters this mode.
    ModeNotEntered { mode: usize },
    /// A text can enter this mode, which isn't the first, and nothing leads out of it: no rule of it pops it or puts another mode
    /// in its place, and no rule does after a pop.
    ModeNotLeft { mode: usize },
    /// The text of this rule goes on after a delimiter that seems to end it: with blanks and a `#`, or with blanks and a name
    /// before a `=`. A text ends at the last delimiter of its line.
    TextGoesOn { rule: usize },
    /// A bracket in the pattern of this rule is a POSIX class, such as `[:alpha:]`, which is a class only inside of another
    /// bracket: `[[:alpha:]]`.
    ClassOutside { rule: usize },
    /// The pattern of this rule is `A.*B`, where A and B are plain characters, or with a `+`, or with `(?s:.)`, `(.|\n)` or
    /// `[\s\S]` for the `.`: a match goes on to the last B, past the first one. `from 'A' to 'B'` ends at the first.
    EndPassed { rule: usize },
}
