//! The automaton of a list of patterns, by the subset construction, or the reason why there is none.
//!
//! An item is a pattern and a state of its automaton. For each word the builder keeps the set of all items that the word leads
//! to. A value leads from a set to another one: from each item by the test edges that the value takes, or if there are none by
//! the other edges, and then by the edges that read nothing.
#![tactic(auto)]

mod all_clashes;
mod alphabet;
mod build;
pub mod closure;
mod moves;
mod ties;
mod transitions;
mod worklist;

pub use all_clashes::{Clash, clashes};
pub use build::build_dfa;
use lalrpop_dfa::{Dfa, DfaStateIndex, Kind};
pub use lalrpop_hir::{DfaConstructionError, NfaIndex, Precedence};
pub use transitions::Transition;
