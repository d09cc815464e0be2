//! The programs of docs/GUIDE.md, one after another; with the first argument `editor` that one alone. Each is a file that can be
//! copied into a program of its own, those that use it with `files.rt`.
#![tactic(auto)]

mod calculator;
mod config_reader;
mod editor;
mod files;
mod highlighter;
mod log_highlighter;
mod smallest;

use std::env;

fn main(rt: HostRuntime) -> anyhow::Result<()> {
    let mut words = env::args(&rt)?;
    // The first word is the name of the program.
    if words.nth(1).is_some_and(|word| word.as_str() == "editor") {
        return editor::main(rt);
    }
    smallest::main(rt)?;
    calculator::main(rt)?;
    config_reader::main(rt)?;
    highlighter::main(rt)?;
    log_highlighter::main(rt)
}
