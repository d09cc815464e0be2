//! Patterns as trees.

pub use lalrpop_re::{
    Capture, Class, ClassBytes, ClassBytesRange, ClassUnicode, ClassUnicodeRange, Hir, HirKind,
    Literal, Look, Part, Regex, RegexError, Repetition, SyntaxKind, escape, parse_any_case,
    parse_literal, parse_regex, parse_with, unescape,
};
