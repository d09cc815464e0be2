//! Repetitions.
ghost use Rattle.std.specs.Prelude.{◌≡◌, Option};
ghost use Rattle.lalrpop_hir.specs.Counts.{AreOrdered};

use super::{Hir, Repetition};

impl Repetition {
    /// The repetition of `sub` from `min` to `max` times, or without limit if `max` is `None`. A greedy one
    /// prefers more repetitions, which has no effect on what it matches.
    pub fn new(min: u32, max: Option<u32>, greedy: bool, sub: Box<Hir>) -> Repetition
        requires ordered { AreOrdered min max }
        ensures parts { result ≡ record { min = min; max = max; greedy = greedy; sub = sub.value } }
    {
        Repetition {
            min,
            max,
            greedy,
            sub,
        }
    }

    /// The least number of repetitions.
    pub fn min(&self) -> u32
        ensures value { result ≡ self.now.min }
        ensures ordered { AreOrdered self.now.min self.now.max }
    {
        self.min
    }

    /// The greatest number of repetitions, or `None` if there is no limit.
    pub fn max(&self) -> Option<u32>
        ensures value { result ≡ self.now.max }
        ensures ordered { AreOrdered self.now.min self.now.max }
    {
        self.max
    }

    /// Whether more repetitions are preferred to fewer.
    pub fn greedy(&self) -> bool
        ensures greedy { result ≡ self.now.greedy }
    {
        self.greedy
    }

    /// The part that is repeated.
    pub fn sub(&self) -> &Hir
        ensures sub { result.now ≡ self.now.sub }
    {
        &self.sub
    }
}
