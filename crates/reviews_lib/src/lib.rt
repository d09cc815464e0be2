//! What `tokens` answers about rules: to a check of them, their clashes and their review; what differs between two files of rules;
//! and pictures of their automata.
#![tactic(auto)]

mod checked;
mod compared;
mod differing;
mod listing;
mod pictured;
mod review_json;
mod review_lines;
mod warnings;

pub use compared::{difference_reply, push_token};
pub use differing::{compare, difference_answer};
pub use listing::{Listing, check_answer, list_rules};
pub use pictured::{draw, picture_answer};
pub use reports_lib::{LineForm, Reply};
pub use review_lines::{clash_report, has_findings, review_text};
