//! Callers of the lexer and of what is below it: of patterns, their trees and automata, verdicts about them, tokens and quotes. A
//! caller needs the promises that the line `Needs` above it names, and promises what follows from them.
#![tactic(auto)]

pub mod ask_verdicts;
pub mod build_a_lexer;
pub mod build_from_texts;
pub mod build_many;
pub mod combine_classes;
pub mod compile_one;
pub mod copy_trees;
pub mod count_steps;
pub mod cut_a_text;
pub mod cut_by_automaton;
pub mod cut_in_bounded_time;
pub mod cut_ranges;
pub mod escape_texts;
pub mod find_a_witness;
pub mod find_clashes;
pub mod find_matches;
pub mod follow_laws;
pub mod follow_laws_of_automata;
pub mod join_tokens;
pub mod label_kinds;
pub mod look_ahead;
pub mod look_ahead_by_states;
pub mod look_into_trees;
pub mod make_classes;
pub mod make_classes_of_bytes;
pub mod make_labels;
pub mod make_trees;
pub mod match_a_text;
pub mod number_kernels;
pub mod quote_a_slice;
pub mod read_comments;
pub mod read_lines;
pub mod read_parts;
pub mod read_patterns;
pub mod refuse_memory;
pub mod run_by_table;
pub mod run_in_parts;
pub mod run_many;
pub mod walk_states;
