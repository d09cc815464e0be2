//! Copies of states and of automata.

ghost use Rattle.std.specs.Prelude.{◌≡◌};

use super::{Dfa, State};
use std::alloc::AllocError;

impl Clone for State {
    ghost is_clone = { λ state copy. copy ≡ state };

    fn clone(&self) -> Result<State, AllocError> {
        Ok(State {
            item_set: self.item_set.clone()?,
            kind: self.kind.clone()?,
            first_edge: self.first_edge,
            edge_count: self.edge_count,
            other_edge: self.other_edge,
        })
    }
}

impl Clone for Dfa {
    ghost is_clone = { λ dfa copy. copy ≡ dfa };

    fn clone(&self) -> Result<Dfa, AllocError> {
        Ok(Dfa {
            rows: self.rows.clone()?,
            places: self.places.clone()?,
            lists: self.lists.clone()?,
        })
    }
}
