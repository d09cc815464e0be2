//! Automata whose dead states reject.

ghost use Rattle.std.specs.Prelude.{ℕ, List, IfOk};
ghost use Rattle.lalrpop_hir.specs.Tree.{Tree};
ghost use Rattle.lalrpop_dfa.specs.Dfa.{RecognizesAll};
ghost use Rattle.lalrpop_dfa.specs.Lookahead.{IsTrimmed};

use super::{Dfa, DfaStateIndex};
use crate::reach::live_states;
use std::alloc::{AllocError, Global};

impl Dfa {
    /// The same automaton, but each dead state rejects: each from which no word leads to a match. A run then stops as soon as no
    /// longer match can come.
    ///
    /// The automaton of `a` and `a[b&&c]` has a dead state after `a`: it waits for a match that can't come.
    ///
    /// # Errors
    ///
    /// `AllocError` if a request for memory was refused.
    pub fn trimmed(self, alloc: Global) -> Result<Dfa, AllocError>
        ensures trimmed { IfOk result (λ dfa. IsTrimmed self dfa) }
        ensures recognizes { IfOk result (λ dfa. (ts : List Tree) (ps : List ℕ)
            → RecognizesAll self ts ps → RecognizesAll dfa ts ps) }
    {
        let live = live_states(alloc, &self)?;
        let Dfa {
            mut rows,
            places,
            lists,
        } = self;
        for number in 0..live.len() {
            if !live[number] {
                rows.reject(DfaStateIndex::new(number));
            }
        }
        Ok(Dfa {
            rows,
            places,
            lists,
        })
    }
}
