//! Rules as data: names with texts, precedences, modes and actions; and the places, lines and quotes of the texts in which people
//! write them. No automaton is needed here. `lalrpop_rules` makes a lexer of such rules, and `lalrpop_rule_file` reads them from
//! a file.
#![tactic(auto)]

mod action;
mod entered;
mod lines;
mod mode_rule;
mod position;
mod quote;
mod rule;
mod rule_text;
mod runs;

pub use action::Action;
pub use entered::entered_modes;
pub use lalrpop_hir::char_count;
pub use lines::split_line;
pub use mode_rule::ModeRule;
pub use position::{Position, Positions};
pub use quote::{ShownWord, is_unseen, push_escaped_char, push_quoted, quoted};
pub use rule::Rule;
pub use rule_text::RuleText;
