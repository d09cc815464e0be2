//! A review of rules with modes: which rules never win, which match the empty text, how large the automata are and how small they
//! could be, and how far past a token a text is read; and the least text of which two lists of rules make different tokens.
#![tactic(auto)]

mod apart;
mod automaton;
mod empty;
mod idle;
mod idle_rules;
mod kind_counts;
mod look;
mod mode;
mod modes;
mod whole;

pub use apart::difference_in;
pub use idle::IdleRule;
pub use lalrpop_verdicts::{Difference, WonWord};
pub use look::Look;
pub use mode::ModeReview;
pub use modes::review;
pub use whole::Review;
