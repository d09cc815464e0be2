//! Patterns: regular expressions as text, read into trees; literal texts; and patterns from a beginning up to the first end, as a
//! comment from `/*` up to the first `*/`.
//!
//! The grammar is that of the files of specs/. A regular expression for such a comment is easy to get wrong by hand:
//! `/\*[^*]*\*/` doesn't read `/***/`, and `/\*.*\*/` reads past the first end. `from_to` makes the tree, for any end.
#![tactic(auto)]

mod any_case;
mod bracket;
mod characters;
mod cursor;
mod delimited;
mod edge;
mod elimination;
mod error;
mod escape_sequence;
mod escape_text;
mod flags;
mod folding;
mod from_to_error;
mod literal;
mod named;
mod names;
mod number;
mod opening;
mod operator;
mod parser;
mod part;
mod posix;
mod search;
mod sets;
mod unescape_text;

pub use any_case::parse_any_case;
pub use delimited::{LONGEST_END, from_to};
pub use error::{RegexError, SyntaxKind};
pub use escape_text::escape;
pub use from_to_error::FromToError;
pub use lalrpop_hir::{
    Capture, Class, ClassBytes, ClassBytesRange, ClassUnicode, ClassUnicodeRange, Hir, HirKind,
    Literal, Look, Regex, Repetition,
};
pub use literal::parse_literal;
pub use parser::{parse_regex, parse_with};
pub use part::Part;
pub use unescape_text::unescape;
