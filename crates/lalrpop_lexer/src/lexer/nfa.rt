//! The automaton of one pattern.

pub use lalrpop_nfa::{
    ACCEPT, Edge, EdgeIterator, EdgeLabel, Edges, Nfa, NfaConstructionError, NfaStateIndex, Noop,
    Other, REJECT, START, State, StateKind, Steps, Test, interpret,
};
