//! Callers of the libraries of the two programs: a caller needs the promises that the line `Needs` above it names, and
//! promises what follows from them.
#![tactic(auto)]

pub mod cut_by_rules;
pub mod name_the_ending;
pub mod read_rules;
pub mod run_tokens;
pub mod say_errors;
pub mod show_safely;
