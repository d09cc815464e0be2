//! What `tokens` says of rules: why they make no lexer, their clashes, the warnings about them, and the lines of pieces.
#![tactic(auto)]

mod by_rules;
mod escaped;
mod json_line;
mod messages;
mod mode_file;
mod mode_place;
mod named_clashes;
mod names;
mod numbers;
mod plain_line;
mod reasons;
mod reply;
mod reported_file;
mod rule_explain;
mod shown;
mod shown_line;
mod warning_json;
mod warnings;

pub use by_rules::{
    NO_TEXT, WarnedLexer, lexer_by_name, lexer_of_bytes, line_refused, rules_refused, unread,
    warnings_said,
};
pub use json_line::{begun_object, ended_line, push_json, write_mode, write_number, write_string};
pub use lexdfa_lib::{Layout, LineForm};
pub use messages::{about, bad_line_message, headed, rules_message};
pub use mode_file::ModeFile;
pub use named_clashes::clash_lines;
pub use names::{mode_name, mode_named, name_of};
pub use plain_line::{push_byte, push_plain};
pub use reply::Reply;
pub use reported_file::ReportedFile;
pub use rule_explain::{bad_line_explained, rules_explained};
pub use shown::Shown;
pub use warning_json::warnings_json;
pub use warnings::warnings_message;
