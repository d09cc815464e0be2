//! The program `tokens`, which cuts files by a file of rules, and its parts.
#![tactic(auto)]

mod emitted;
mod program;

pub use lalrpop_rule_file::{RuleFile, RuleFileError, Warning, read_rules};
pub use lalrpop_rules::{
    Action as ModeAction, ModeRule, Rule, RuleLexer, RulesError, mode_clashes,
};
pub use lexdfa_lib::{
    Action, ArgumentsError, Command, Files, Language, Markup, NoBytes, Reader, Sink, Source,
    Verbosity, Watched, command_of,
};
pub use pieces_lib::{Console, CutEnd, Found, OpenMode, write_lines, write_page};
pub use program::{run, run_program};
pub use reports_lib::{
    Layout, LineForm, ModeFile, Reply, bad_line_message, clash_lines, rules_message, warnings_json,
    warnings_message,
};
pub use reviews_lib::check_answer;
