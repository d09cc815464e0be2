//! A file of named rules, one a line, in sections for modes:
//!
//! ```text
//! NAME [skip] {mode M | push M | pop} = [PRECEDENCE] TEXT
//! NAME part = /PATTERN/
//! [A B]
//! ```
//!
//! A `TEXT` is `'LITERAL'`, `"LITERAL"`, `/PATTERN/`, `anycase 'LITERAL'` or `from 'A' to 'B'`.
#![tactic(auto)]

mod content;
mod error;
mod file;
mod file_rule;
mod goes_on;
mod head;
mod left_modes;
mod line;
mod line_part;
mod line_text;
mod modes;
mod numbers;
mod outside_class;
mod part_line;
mod parts;
mod passed_end;
mod rules;
mod section;
mod span;
mod stop;
mod used_parts;
mod warning;
mod warnings;
mod word;
mod written;

pub use error::{LineFault, RuleFileError};
pub use file::{RuleFile, read_rules, without_mark};
pub use file_rule::FileRule;
pub use part_line::PartLine;
pub use warning::Warning;
