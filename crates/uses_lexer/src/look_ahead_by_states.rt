//! How far an automaton reads past a match.

ghost use Rattle.std.specs.Prelude.{◌≡◌, ℕ, ◌<◌, ◌↔◌, List, Some, length, slice_get, true, IfOk, IfSome};
ghost use Rattle.lalrpop_hir.specs.Tree.{Tree};
ghost use Rattle.lalrpop_hir.specs.Winners.{Matched};
ghost use Rattle.lalrpop_dfa.specs.Dfa.{RecognizesAll};
ghost use Rattle.lalrpop_dfa.specs.Lookahead.{Accepted, AcceptedAs, IsLookahead, ReadsAtMost, StaysOpenEver};

use lalrpop_dfa::Dfa;
use lalrpop_dfa::lookahead::{lookahead, unbounded_patterns};
use std::alloc::{AllocError, Global};

// Needs lalrpop_dfa::lookahead: answer.
/// The greatest number of characters past its end that can leave a match by one of the trees open, whichever trees the automaton
/// recognizes.
///
/// # Errors
///
/// `AllocError` if a request for memory was refused.
pub fn greatest(alloc: Global, dfa: &Dfa) -> Result<Option<usize>, AllocError>
    ensures matches { IfOk result (λ found. (ts : List Tree) (ps : List ℕ)
        → RecognizesAll dfa.now ts ps
        → IsLookahead (Matched ts) found) }
{
    lookahead(alloc, dfa)
}

// Needs lalrpop_dfa::unbounded_patterns: same_length, each.
/// For each of `count` patterns, whether a match can stay open for ever because of it.
///
/// # Errors
///
/// `AllocError` if a request for memory was refused.
pub fn open_for_ever(alloc: Global, dfa: &Dfa, count: usize) -> Result<Vec<bool>, AllocError>
    ensures same_length { IfOk result (λ found. length found.items ≡ count) }
    ensures each { IfOk result (λ found. (i : ℕ) → i < count → (slice_get found.items i ≡ Some true)
        ↔ StaysOpenEver (Accepted dfa.now) (AcceptedAs dfa.now i)) }
{
    unbounded_patterns(alloc, dfa, count)
}

/// An automaton, and how many characters past a match a run reads to see that no longer one comes, and one more.
#[derive(Drop)]
pub struct Trimmed {
    pub dfa: Dfa,
    pub past: Option<usize>,
}

// Needs lalrpop_dfa::Dfa::trimmed: trimmed.
/// The automaton without states that wait in vain, so that the number bounds what a run reads. It recognizes what it did.
///
/// # Errors
///
/// `AllocError` if a request for memory was refused.
pub fn bounded(alloc: Global, dfa: Dfa) -> Result<Trimmed, AllocError>
    ensures same { IfOk result (λ found. (ts : List Tree) (ps : List ℕ) → RecognizesAll dfa ts ps
        → RecognizesAll found.dfa ts ps) }
    ensures past { IfOk result (λ found. IfSome found.past (ReadsAtMost found.dfa)) }
{
    let dfa = dfa.trimmed(alloc)?;
    let past = lookahead(alloc, &dfa)?;
    Ok(Trimmed { dfa, past })
}
