//! What makes an automaton look ahead.

ghost use Rattle.std.specs.Prelude.{◌≡◌, ◌≢◌, ℕ, ◌++◌, [], List, length, IfOk, IfSome, IfNone};
ghost use Rattle.lalrpop_dfa.specs.Lookahead.{Accepted};
ghost use Rattle.lalrpop_dfa.specs.Witness.{IsOpenMatch, IsWitness};

use lalrpop_dfa::{Dfa, Witness, lookahead_witness};
use std::alloc::{AllocError, Global};

// Needs lalrpop_dfa::lookahead_witness: least, none.
/// A match, and `count` values after it that leave it open; `None` if there is none.
///
/// # Errors
///
/// `AllocError` if a request for memory was refused.
pub fn open_match(alloc: Global, dfa: &Dfa, count: usize) -> Result<Option<Witness>, AllocError>
    ensures matched { IfOk result (λ found.
        IfSome found (λ w. Accepted dfa.now w.word × (w.word ≢ []))) }
    ensures later { IfOk result (λ found. IfSome found (λ w.
        (z : List ℕ) × Accepted dfa.now ((w.word ++ w.after) ++ z))) }
    ensures long { IfOk result (λ found. IfSome found (λ w. length w.after ≡ count)) }
    ensures one { IfOk result (λ found. IfSome found (λ w. (v x : List ℕ)
        → IsWitness (Accepted dfa.now) count v x → (w.word ≡ v) × (w.after ≡ x))) }
    ensures closed { IfOk result (λ found. IfNone found ((v x : List ℕ)
        → ¬ IsOpenMatch (Accepted dfa.now) count v x)) }
{
    lookahead_witness(alloc, dfa, count)
}
