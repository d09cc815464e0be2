//! What programs read from files. An error names the file.
#![tactic(auto)]

use anyhow::{Context, Result};
use bajofeki::RuleLexer;
use std::fs;

/// The text of a file.
pub fn text_of(rt: &HostRuntime, name: &str) -> Result<String> {
    fs::read_to_string(rt, name).context(format_args!("{name:?}"))
}

/// The lexer of a file of rules.
pub fn lexer_of(rt: &HostRuntime, name: &str) -> Result<RuleLexer> {
    let rules = text_of(rt, name)?;
    RuleLexer::from_file(rt.alloc(), rules.as_bytes()).context(format_args!("{name:?}"))
}
