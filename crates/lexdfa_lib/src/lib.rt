//! The longest match of a text, by terminals that are read from a stream. `run` reads lines such as `1 l class` or
//! `0 r [a-z]+`, each a precedence and a literal or a pattern, finds the longest prefix of a text that one of them matches,
//! and writes one line. `run_all` cuts the whole text into such matches, and writes a line for each. Beside it the streams and the
//! files that `tokens` reads and writes too, and the command line of `tokens`.
#![tactic(auto)]

mod answer;
mod command;
mod command_line;
mod cutting;
mod ending;
mod error;
mod files;
mod layout;
mod options;
mod outcome;
mod output;
mod program;
mod report;
mod streams;
mod usage;
mod word;

pub use answer::{run, run_all};
pub use command::{
    Action, ArgumentsError, Command, Language, Markup, Verbosity, WRONG_ARGUMENTS, command_of,
};
pub use command_line::arguments;
pub use ending::{Ending, Failure, status_of};
pub use error::RunError;
pub use files::{ErrorStream, Files, NoBytes, SystemFiles, bytes_of};
pub use lalrpop_lexer::{TokenFault, Tokens, tokens};
pub use layout::{Layout, LineForm};
pub use options::joined;
pub use outcome::{Outcome, clash_line, outcome_line};
pub use output::Output;
pub use program::{flushed, run_and_flush, run_program, without_arguments};
pub use report::outcome_of_error;
pub use streams::{Reader, Sink, Source, Watched, Writer, read_whole};
pub use usage::{help, version, wrong_text};
pub use word::Word;
