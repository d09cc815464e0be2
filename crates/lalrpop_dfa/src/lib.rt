//! The automaton of a list of patterns: its states and edges, and running it.
//!
//! The kind of a state says which pattern matches the words that lead to it. A state has test edges, in ascending order, and
//! an other edge. The test edges of all states are in one list. A builder writes the states one by one, as rows, and the
//! rows become an automaton once each edge leads to a state.
#![tactic(auto)]

mod clone;
mod equality;
pub mod follow;
mod index;
pub mod interpret;
mod items;
pub mod kernel_set;
pub mod lookahead;
mod reach;
mod rows;
mod search;
mod trim;
mod witness;

ghost use Rattle.std.specs.Prelude.{◌≡◌, ◌<◌, length, slice_get, Some, IsSomeAnd};

pub use index::{DfaStateIndex, START};
pub use items::{Item, ItemSet};
use lalrpop_hir::Test;
pub use lalrpop_hir::{NfaIndex, Precedence};
pub use rows::{RowWriter, Rows};
use search::LISTED;
use std::marker::Model;
pub use witness::{Witness, lookahead_witness};

/// What a state says of the word that leads to it.
///
/// ```
/// use lalrpop_lexer::lexer::dfa::{Kind, START};
///
/// let accepted = match dfa.state(START).kind() {
///     Kind::Accepts(index) => Some(index.index()),
///     Kind::Reject | Kind::Neither => None,
/// };
/// ```
#[derive(Clone, Debug, PartialEq, Eq, Drop)]
pub enum Kind {
    /// The pattern with this index matches the word, and is the only strongest one.
    Accepts(NfaIndex),
    /// No pattern matches the word or any continuation of it.
    Reject,
    /// No pattern matches the word.
    Neither,
}

/// A state of the automaton.
///
/// ```
/// use lalrpop_lexer::lexer::dfa::State;
///
/// for state in dfa.states() {
///     let otherwise = state.other_edge();
/// }
/// ```
#[derive(Debug, Drop)]
pub struct State {
    item_set: ItemSet,
    kind: Kind,
    // The state's test edges are `edge_count` of the automaton's, from this place on.
    first_edge: usize,
    edge_count: usize,
    other_edge: DfaStateIndex,
}

impl Model for State {
    ghost use Rattle.lalrpop_dfa.specs.Dfa.{StoredState};

    ghost Value = { StoredState };

    ghost view = { λ s. record {
      kind = s.kind;
      other = s.other_edge;
      items = s.item_set;
      first = s.first_edge;
      count = s.edge_count;
    } };
}

impl State {
    /// What the state says of the word that leads to it.
    pub fn kind(&self) -> &Kind
        ensures kind { result.now ≡ self.now.kind }
    {
        &self.kind
    }

    /// The state to which all values lead that no test edge covers.
    pub fn other_edge(&self) -> DfaStateIndex
        ensures other { result ≡ self.now.other }
    {
        self.other_edge
    }
}

/// The automaton of a list of patterns. State 0 is START.
///
/// ```
/// use lalrpop_lexer::lexer::dfa::{Precedence, build_dfa, interpret};
///
/// let dfa = build_dfa(alloc, &regexs, &[Precedence(1), Precedence(0)])?;
/// let found = interpret::interpret(&dfa, "let x"); // the index of a pattern, and "let"
/// ```
#[derive(Debug, Drop)]
pub struct Dfa {
    rows: Rows,
    // The place of each state's list among the lists, if it has one.
    places: Vec<Option<usize>>,
    // Where the values of ASCII lead from a state that has a list.
    lists: Vec<[u32; LISTED]>,
}

impl Model for Dfa {
    ghost use Rattle.std.specs.Prelude.{List};
    ghost use Rattle.lalrpop_dfa.specs.Dfa.{Row, IsWellFormed};
    ghost use Rattle.lalrpop_dfa.specs.Stored.{AreListed};

    ghost Value = { List Row };

    ghost view = { λ a. a.rows };

    ghost invariant = { λ a. IsWellFormed a.rows × AreListed a.rows a.places.items a.lists.items };
}

impl Dfa {
    ghost use Rattle.lalrpop_dfa.specs.Dfa.{IsStored, AreStored, IsWellFormed};

    /// The states in the order of their numbers.
    pub fn states(&self) -> &[State]
        ensures states { AreStored self.now result.now }
        ensures well_formed { IsWellFormed self.now }
    {
        self.rows.states()
    }

    /// The state with this number.
    pub fn state(&self, index: DfaStateIndex) -> &State
        requires within { index < length self.now }
        ensures at { IsSomeAnd (slice_get self.now index) (λ r. IsStored r result.now) }
        ensures well_formed { IsWellFormed self.now }
    {
        self.rows.state(index)
    }

    /// The test edges of the state with this number, ascending.
    pub fn test_edges(&self, index: DfaStateIndex) -> &[(Test, DfaStateIndex)]
        requires within { index < length self.now }
        ensures tests { IsSomeAnd (slice_get self.now index) (λ r. result.now ≡ r.tests) }
        ensures well_formed { IsWellFormed self.now }
    {
        self.rows.test_edges(index)
    }
}
