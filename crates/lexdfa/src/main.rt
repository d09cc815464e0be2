//! `lexdfa TEXT`: reads terminals from standard input, and writes which of them matches the longest prefix of TEXT.
//! `lexdfa --all TEXT`: cuts all of TEXT into such matches, and writes each.
#![tactic(auto)]

use lexdfa_lib::run_program;
use std::process::ExitCode;

fn main(rt: HostRuntime) -> ExitCode {
    run_program(&rt)
}
