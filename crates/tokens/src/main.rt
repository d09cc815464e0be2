//! `tokens [OPTION ..] RULES [FILE ..]`: cuts each FILE, or standard input, by the rules of the file RULES, and writes the tokens, as
//! lines, JSON, markup or in colours. `--clashes` writes the pairs of rules that clash, each with the least word on which they do,
//! `--check` a review of the rules, and `--diff` a text of which two files of rules make different tokens. `--help` has the options.
#![tactic(auto)]

use std::process::ExitCode;
use tokens_lib::run_program;

fn main(rt: HostRuntime) -> ExitCode {
    run_program(&rt)
}
