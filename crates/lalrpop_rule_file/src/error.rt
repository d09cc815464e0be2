//! Why a file of rules can't be read.
ghost use Rattle.std.specs.Prelude.{◌≡◌, Some};
ghost use Rattle.lalrpop_rule_file.specs.RuleFault.{reason_of};
ghost use Rattle.lalrpop_rule_file.specs.declared.error.RuleFileError.TheVariants.{OutOfMemory};

use lalrpop_re::SyntaxKind;
use std::alloc::{AllocError, AllocFailed};
use std::fmt::{self, Display, Formatter, Write};
use thiserror::Error;

/// What is wrong with a line.
///
/// ```
/// use lalrpop_rule_file::{LineFault, RuleFileError, read_rules};
///
/// let lacks_equals = match read_rules(alloc, b"NAME /a/\n") {
///     Err(RuleFileError::BadLine { fault, .. }) => fault == LineFault::NoEquals, // true
///     _ => false,
/// };
/// ```
#[derive(Clone, Copy, Debug, PartialEq, Eq)]
pub enum LineFault {
    /// It isn't UTF-8.
    NotUtf8,
    /// A carriage return stands in it, and not at its end: it ends no line.
    CarriageReturn,
    /// The line doesn't begin with a name.
    NoName,
    /// There is no name of a mode after the word `mode` or `push`, or after the `[` of a section.
    NoMode,
    /// There is no `]` after the modes of a section.
    NoBracket,
    /// Something stands after the `]` of a section.
    AfterSection,
    /// There is no `=` after the name and the words that may follow it, `part` among them.
    NoEquals,
    /// The precedence has more than 20 digits or doesn't fit 64 bits.
    PrecedenceTooLarge,
    /// There is no apostrophe, quote, slash, `anycase` or `from` where the text should begin.
    NoText,
    /// There is no slash where the pattern of a part should begin.
    NoPattern,
    /// There is no apostrophe after `anycase`.
    NoLiteral,
    /// There is no apostrophe after `from`.
    NoFrom,
    /// In a text `from 'A' to 'B'` there is no `' to '`.
    NoTo,
    /// The line doesn't end with the delimiter that its text begins with.
    NotClosed,
}

fn reason_of(fault: &LineFault) -> &'static str
    ensures { result.now ≡ reason_of fault.now }
{
    match fault {
        LineFault::NotUtf8 => "this isn't UTF-8",
        LineFault::CarriageReturn =>
            "this carriage return ends no line: a line ends with a line feed, or with a carriage return and a line feed",
        LineFault::NoName =>
            "a line is a rule, as NAME = 'TEXT' or NAME = /PATTERN/, a section, as [A], or a comment, as # TEXT; a name has ASCII letters, digits and `_`, and doesn't begin with a digit",
        LineFault::NoMode =>
            "the name of a mode is missing: ASCII letters, digits and `_`, not a digit first; in a section `[*]` is every mode",
        LineFault::NoBracket =>
            "`]` is missing: a section is `[A B]`, names of modes with blanks between them, or `[*]`",
        LineFault::AfterSection =>
            "nothing may stand after the `]` of a section: a rule or a comment is a line of its own",
        LineFault::NoEquals =>
            "`=` is missing: a name has only ASCII letters, digits and `_`, and only `part`, or `skip`, then `mode M`, `push M` and `pop` may follow it",
        LineFault::PrecedenceTooLarge =>
            "the precedence is too large: at most 20 digits, and below 2^64",
        LineFault::NoText =>
            "a text is missing: 'LITERAL', \"LITERAL\", anycase 'LITERAL', /PATTERN/ or from 'A' to 'B'; before it only the digits of a precedence may stand",
        LineFault::NoPattern => "a part is a pattern in slashes",
        LineFault::NoLiteral => "an apostrophe is missing after `anycase`: write anycase 'TEXT'",
        LineFault::NoFrom => "an apostrophe is missing after `from`: write from 'A' to 'B'",
        LineFault::NoTo =>
            "`to` is missing after the apostrophe that ends A: write from 'A' to 'B'",
        LineFault::NotClosed =>
            "the line must end with the apostrophe, quote or slash of its text: a comment is a line of its own, and flags stand in the pattern, as in /(?i)a/",
    }
}

/// The reason in words, without the place.
impl Display for LineFault {
    ghost output = { λ fault. Some (reason_of fault) };

    fn fmt<W: Write>(&self, f: &mut Formatter<W>) -> Result<(), fmt::Error> {
        f.write_str(reason_of(self))
    }
}

/// Why a file of rules can't be read.
///
/// ```
/// use lalrpop_rule_file::{RuleFileError, read_rules};
///
/// let place = match read_rules(alloc, b"A = 'a'\nB /b/\n") {
///     Err(RuleFileError::BadLine { line, column, .. }) => Some((line, column)), // (2, 3)
///     _ => None,
/// };
/// ```
#[derive(Debug, Drop, Error)]
pub enum RuleFileError {
    /// The first line that isn't a rule, part, section or comment and isn't blank. Lines and columns count from 1, columns in
    /// characters.
    #[error("line {line}, column {column}: {fault}")]
    BadLine {
        line: usize,
        column: usize,
        fault: LineFault,
    },
    /// The first part whose pattern does not parse by the parts above it: the place in its pattern where it doesn't, and why.
    #[error("line {line}, column {column}: the pattern of this part does not parse: {kind:?}")]
    BadPart {
        line: usize,
        column: usize,
        kind: SyntaxKind,
    },
    /// The first part with the name of a part above it: where its name stands.
    #[error("line {line}, column {column}: a part above has this name")]
    RepeatedPart {
        line: usize,
        column: usize,
    },
    /// The first action of the file whose mode isn't one of the file's: where the name of that mode stands.
    #[error("line {line}, column {column}: no section names this mode")]
    NoSuchMode {
        line: usize,
        column: usize,
    },
    /// A request for memory was refused.
    #[error("out of memory")]
    OutOfMemory,
}

impl From<AllocError> for RuleFileError {
    ghost from_gives = { λ _ e. e ≡ OutOfMemory };

    fn from(_error: AllocError) -> RuleFileError {
        RuleFileError::OutOfMemory
    }
}

impl<T: Drop> From<AllocFailed<T>> for RuleFileError {
    ghost from_gives = { λ _ e. e ≡ OutOfMemory };

    fn from(_error: AllocFailed<T>) -> RuleFileError {
        RuleFileError::OutOfMemory
    }
}
