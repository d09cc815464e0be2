//! Patterns with precedences are compiled to one automaton. It finds the longest match at the front of a text and the one
//! strongest pattern that matches it, and cuts whole texts into such matches. Patterns are given as trees, as texts, or as
//! a list of terminals, one a line, such as `1 l class` or `0 r [a-z]+`.
//!
//! The crates below are re-exported.
#![tactic(auto)]

mod error;
mod form;
mod join_error;
pub mod lexer;
mod line;
mod longest;
mod neighbours;
mod patterns;
mod terminal_line;
mod terminals;

pub use bajofeki_rules::{
    Position, Positions, ShownWord, is_unseen, push_escaped_char, push_quoted, quoted,
};
pub use error::LexerError;
pub use form::Form;
pub use join_error::JoinError;
pub use lalrpop_dense::{LinearMatches, Tokens, tokens};
pub use lalrpop_dfa::kernel_set;
pub use lalrpop_hir::{Token, TokenFault};
pub use lexer::Lexer;
pub use longest::longest_match;
pub use neighbours::Neighbours;
pub use terminals::{Terminals, read_terminals};
