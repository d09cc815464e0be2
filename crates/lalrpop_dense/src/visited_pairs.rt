//! What is known about the places of a text: from which states no match comes there.

ghost use Rattle.std.specs.Prelude.{◌≡◌, ◌≢◌, ℕ, ◌+◌, ◌*◌, ◌%◌, ◌<◌, ◌≤◌, ◌⊎◌, false, length, IsTrue, IfOk};
ghost use Rattle.lalrpop_dense.specs.Internal.Memory.{IsNoted, HasMark, IsFor, room};
ghost use Rattle.lalrpop_dense.specs.Matching.{is_open_kind, open_states};

use lalrpop_dfa::{Dfa, DfaStateIndex, Kind};
use std::alloc::{AllocError, Global};
use std::marker::Model;

/// States are noted at places this many characters apart.
pub(crate) const STRIDE: usize = 64;

/// The pairs of a state and a place that runs have passed. Only every 64th character of a text is a place.
#[derive(Debug, Drop)]
pub(crate) struct VisitedPairs {
    // Where the marks of each open state begin; None for other states.
    firsts: Vec<Option<usize>>,
    places: usize,
    // The marks of each open state, one for each place.
    marks: Vec<bool>,
}

impl Model for VisitedPairs {
    ghost use Rattle.lalrpop_dense.specs.Internal.Memory.{Memory, AreApart};

    ghost Value = { Memory };

    ghost view = { λ m.
        record { firsts = m.firsts.items; places = m.places; marks = m.marks.items } };

    ghost invariant = { λ m. AreApart m.firsts.items m.places m.marks.items };
}

// Whether a state of this kind neither accepts a pattern nor rejects.
fn is_open(kind: &Kind) -> bool
    ensures { result ≡ is_open_kind kind.now }
{
    match kind {
        Kind::Neither => true,
        _ => false,
    }
}

// The sum of two sizes. If it overflows, no memory has that many bytes.
fn sum(size: usize, more: usize) -> Result<usize, AllocError>
    ensures { IfOk result (λ n. n ≡ size + more) }
{
    size.checked_add(more).ok_or(AllocError)
}

impl VisitedPairs {
    /// Nothing is noted, and there is room for each open state of the automaton at this many places.
    ///
    /// # Errors
    ///
    /// `AllocError` if a request for memory was refused.
    pub(crate) fn new(alloc: Global, dfa: &Dfa, places: usize) -> Result<VisitedPairs, AllocError>
        ensures places { IfOk result (λ m. m.places ≡ places) }
        ensures open { IfOk result (λ m. IsFor dfa.now m) }
        ensures nothing { IfOk result (λ m. (p k : ℕ) → ¬ IsNoted m p k) }
        ensures room { IfOk result (λ m. room m ≤ open_states dfa.now * places) }
    {
        let mut firsts = Vec::new(alloc);
        let mut end = 0usize;
        for state in dfa.states() {
            if is_open(state.kind()) {
                firsts.push(Some(end))?;
                end = sum(end, places)?;
            } else {
                firsts.push(None)?;
            }
        }
        Ok(VisitedPairs {
            firsts,
            places,
            marks: vec![in alloc; false; end]?,
        })
    }

    // Whether the state was noted at the place with this number. It is from now on.
    fn meet(&mut self, state: DfaStateIndex, place: usize) -> bool
        ensures same { self.new ≡ record self.old { marks = self.new.marks } }
        ensures known { IsTrue result → IsNoted self.old state place × (self.new ≡ self.old) }
        ensures only { (p k : ℕ) → IsNoted self.new p k
            → IsNoted self.old p k ⊎ ((p ≡ state) × (k ≡ place)) }
        ensures fewer { room self.new ≤ room self.old }
        ensures noted { HasMark self.old state place → result ≡ false
            → room self.new + 1 ≡ room self.old }
    {
        if state.index() >= self.firsts.len() || place >= self.places {
            return false;
        }
        let Some(first) = self.firsts[state.index()] else {
            return false;
        };
        if self.marks[first + place] {
            return true;
        }
        self.marks[first + place] = true;
        false
    }

    /// Whether the state was noted at the character of this index. If states are noted there, it is noted from now on.
    #[inline(always)]
    pub(crate) fn is_known(&mut self, state: DfaStateIndex, index: usize) -> bool
        ensures same { self.new ≡ record self.old { marks = self.new.marks } }
        ensures known { IsTrue result → ((k : ℕ) × ((64 * k ≡ index) × IsNoted self.old state k))
            × (self.new ≡ self.old) }
        ensures only { (p k : ℕ) → IsNoted self.new p k
            → IsNoted self.old p k ⊎ ((p ≡ state) × (64 * k ≡ index)) }
        ensures fewer { room self.new ≤ room self.old }
        ensures noted { (k : ℕ) → 64 * k ≡ index → HasMark self.old state k → result ≡ false
            → room self.new + 1 ≡ room self.old }
    {
        index % STRIDE == 0 && self.meet(state, index / STRIDE)
    }
}
