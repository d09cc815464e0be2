//! Callers of the libraries of rules, of files of them, of pages, edits and reviews, and of terminals and streams. A caller needs the
//! promises that the line `Needs` above it names, and promises what follows from them.
#![tactic(auto)]

pub mod ask_rules;
pub mod count_places;
pub mod cut_by_numbers;
pub mod cut_by_rules;
pub mod edit_a_text;
pub mod edit_cost;
pub mod end_a_program;
pub mod feed_chunks;
pub mod find_a_match;
pub mod follow_laws;
pub mod keep_modes;
pub mod name_rules;
pub mod read_a_file;
pub mod run_lexdfa;
pub mod settle_a_token;
pub mod show_a_text;
pub mod streams;
pub mod write_a_word;
