//! What a list of patterns says: which of them can win, which are hidden by others, whether two lists say the same, whether tokens
//! stay apart side by side, the smallest automaton, and a picture of it.
#![tactic(auto)]

mod answer;
mod classes;
mod difference;
mod empty;
mod pairs;
mod picture;
mod side_by_side;
mod smallest;
mod state_count;
mod verdict;
mod won_word;
mod won_words;

pub use difference::{Difference, least_difference, same_language};
pub use empty::matches_empty;
pub use picture::dot;
pub use side_by_side::{Joins, TokenPair, beside};
pub use smallest::minimized;
pub use state_count::least_state_count;
pub use verdict::{Verdict, verdicts, winners};
pub use won_word::WonWord;
