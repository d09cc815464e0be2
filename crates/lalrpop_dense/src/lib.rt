//! The automaton of a list of patterns as a dense table over classes of characters.
//!
//! A table is a second form of an automaton: a row of cells for each state, a cell for each class. Its contracts are about that
//! automaton, so whatever holds of the automaton holds of the table.
#![tactic(auto)]

mod ahead;
mod alike;
mod candidate;
mod check;
mod counting;
mod cut;
mod cutting;
mod dense;
mod dense_table;
mod dfa_matches;
mod ends;
mod fused;
mod fusing;
mod linear_matches;
mod mark;
mod matches;
mod remembering;
mod run;
mod self_loop;
mod table;
mod visited_pairs;

pub use cut::{linear_tokens, table_tokens, tokens};
pub use cutting::Tokens;
pub use dense::DenseDfa;
pub use dense_table::{DenseTable, TableCells};
pub use ends::{TokenEnd, TokenEnds};
pub use linear_matches::LinearMatches;
pub use run::BoundedMatch;
