//! Named rules, which a lexer cuts any text by, from its beginning to its end. Their tokens may be skipped, and cutting goes on after a
//! fault.
//!
//! Which rules are at work depends on a stack of modes, which goes along with the text. A rule's token may put a mode on the
//! stack, take the one on top away, or put another in its place, as for nested comments and strings with code in them. Rules
//! without modes are those of one mode.
#![tactic(auto)]

mod clashes;
mod cutter;
mod error;
mod faults;
mod from_file;
mod front;
mod kinds;
mod known_rule;
mod leftmost;
mod lexers;
mod masked;
mod missing;
mod mode_kinds;
mod mode_pieces;
mod mode_stack;
mod mode_trees;
mod one_mode;
mod piece;
mod pieces;
mod rule_lexer;
mod text_error;
mod trees;

pub use bajofeki_rules::{Action, ModeRule, Rule, RuleText, entered_modes};
pub use clashes::mode_clashes;
pub use error::RulesError;
pub use from_file::FileError;
pub use lalrpop_re::FromToError;
pub use mode_stack::ModeStack;
pub use piece::Piece;
pub use pieces::Pieces;
pub use rule_lexer::RuleLexer;
