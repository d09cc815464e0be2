//! What runs read in vain.

ghost use Rattle.std.specs.Prelude.{◌≡◌, ◌≢◌, ℕ, ◌/◌, ◌⊎◌, true, IfSome, IfNone};
ghost use Rattle.bajofeki.specs.Internal.Noted.{IsKnown, IsNoted};

use std::alloc::Global;
use std::collections::BTreeMap;

/// How many bytes lie between one place where something is noted and the next.
pub(crate) const STRIDE: usize = 64;

/// From which places of a walk no match comes. Runs that read on after their last match note it wherever a character ends that goes
/// on past a multiple of 64 bytes, so that a later run which comes there stops.
#[derive(Drop)]
pub(crate) struct Memo {
    // For a mode, a place of its walk, and where the next character of the text begins: how many bytes from there on settle it.
    pub(crate) noted: BTreeMap<(usize, (usize, usize)), usize>,
    // Whether memory was there for all of it.
    pub(crate) is_whole: bool,
}

impl Memo {
    /// Nothing is noted.
    pub(crate) fn new(alloc: Global) -> Memo
        ensures nothing { (mode place at n : ℕ) → ¬ IsNoted result mode place at n }
    {
        Memo {
            noted: BTreeMap::new(alloc),
            is_whole: true,
        }
    }

    /// How many bytes after the character from `from` to `to` settle that no match comes from the place, if that was noted.
    #[inline(always)]
    pub(crate) fn known(&self, mode: usize, place: usize, from: usize, to: usize) -> Option<usize>
        ensures known { IfSome result (λ n. IsNoted self.now mode place to n) }
        ensures unknown { IfNone result (from / 64 ≢ to / 64 → ¬ IsKnown self.now mode place to) }
    {
        if from / STRIDE == to / STRIDE {
            return None;
        }
        self.look_up(mode, place, to)
    }

    // What was noted there. It stays out of the loops that read, since it's rarely called.
    #[cold]
    #[inline(never)]
    fn look_up(&self, mode: usize, place: usize, to: usize) -> Option<usize>
        ensures known { IfSome result (λ n. IsNoted self.now mode place to n) }
        ensures unknown { IfNone result (¬ IsKnown self.now mode place to) }
    {
        self.noted.get(&(mode, (place, to))).copied()
    }

    /// Notes it, if the character is one where it is noted, and there is memory.
    pub(crate) fn note(&mut self, mode: usize, place: usize, from: usize, to: usize, size: usize)
        ensures only { (m p at n : ℕ) → IsNoted self.new m p at n → IsNoted self.old m p at n
            ⊎ ((m ≡ mode) × (p ≡ place) × (at ≡ to) × (n ≡ size)) }
        ensures stays { (m p at : ℕ) → IsKnown self.old m p at → IsKnown self.new m p at }
        ensures noted { self.new.is_whole ≡ true → from / 64 ≢ to / 64
            → IsKnown self.new mode place to }
        ensures whole { self.new.is_whole ≡ true → self.old.is_whole ≡ true }
    {
        if from / STRIDE != to / STRIDE {
            self.insert(mode, place, to, size);
        }
    }

    // Notes it, if there is memory.
    #[cold]
    #[inline(never)]
    fn insert(&mut self, mode: usize, place: usize, to: usize, size: usize)
        ensures only { (m p at n : ℕ) → IsNoted self.new m p at n → IsNoted self.old m p at n
            ⊎ ((m ≡ mode) × (p ≡ place) × (at ≡ to) × (n ≡ size)) }
        ensures stays { (m p at : ℕ) → IsKnown self.old m p at → IsKnown self.new m p at }
        ensures noted { self.new.is_whole ≡ true → IsKnown self.new mode place to }
        ensures whole { self.new.is_whole ≡ true → self.old.is_whole ≡ true }
    {
        match self.noted.insert((mode, (place, to)), size) {
            Ok(_) => {}
            // Then it isn't noted.
            Err(_) => self.is_whole = false,
        }
    }
}
