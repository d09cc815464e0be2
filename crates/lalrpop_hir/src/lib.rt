//! What a lexer has to do, in terms of trees, words and texts, and the trees themselves: regular expressions, which a program
//! builds by hand, or reads from a text with the crate `lalrpop_re`.
//!
//! The definitions are the files of specs/, in the order of `specs/Lib.antt`. They name no automaton, but for the numbers of three
//! states. The modules here declare the trees, and the values that the definitions name: the index and the precedence of a
//! pattern, errors, tokens and faults; and what all automata share: states' numbers, ranges of values, a counter of steps.
#![tactic(auto)]

mod characters;
mod class;
mod clone;
mod error;
mod hir;
mod look;
mod nfa_index;
mod nfa_state_index;
mod precedence;
mod steps;
mod test;
mod token;

pub use characters::{char_count, is_start};
pub use class::{Class, ClassBytes, ClassBytesRange, ClassUnicode, ClassUnicodeRange};
pub use error::{DfaConstructionError, NfaConstructionError};
pub use hir::{Capture, Hir, HirKind, Literal, Regex, Repetition};
pub use look::Look;
pub use nfa_index::NfaIndex;
pub use nfa_state_index::{ACCEPT, NfaStateIndex, REJECT, START};
pub use precedence::Precedence;
pub use steps::Steps;
pub use test::Test;
pub use token::{Token, TokenFault};
