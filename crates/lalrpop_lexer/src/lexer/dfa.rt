//! The automaton of a list of patterns.

pub use lalrpop_build::{Clash, DfaConstructionError, NfaIndex, Precedence, build_dfa, clashes};
pub use lalrpop_dfa::{
    Dfa, DfaStateIndex, Kind, START, State, Witness, interpret, lookahead, lookahead_witness,
};
pub use lalrpop_nfa::overlap;
