//! The pairs of patterns that tie in sets of items, each where it first ties.
ghost use Rattle.std.specs.Prelude.{◌≡◌, ◌<◌, [], length, OnOk};
ghost use Rattle.lalrpop_build.specs.Internal.BreadthFirst.{AreEarlier, word};
ghost use Rattle.lalrpop_build.specs.Internal.Ties.{ArePairsOf, AreAscending, HasTiesTo, IsAddedOnce};

use super::NfaIndex;
use super::all_clashes::Clash;
use crate::build::origin::{Origin, word_to};
use std::alloc::{AllocError, Global};
use std::collections::BTreeSet;

/// The clashes found so far, in order, and their pairs.
#[derive(Drop)]
pub(super) struct Ties {
    alloc: Global,
    pub(super) clashes: Vec<Clash>,
    pairs: BTreeSet<(NfaIndex, NfaIndex)>,
}

impl Ties {
    pub(super) fn new(alloc: Global) -> Ties
        ensures none { result.clashes.items ≡ [] }
        ensures pairs { ArePairsOf result.pairs result.clashes.items }
    {
        Ties {
            alloc,
            clashes: Vec::new(alloc),
            pairs: BTreeSet::new(alloc),
        }
    }

    // Adds the clash of a pair that ties in the set with this number, unless the pair already has one.
    fn add(
        &mut self,
        match0: NfaIndex,
        match1: NfaIndex,
        origins: &[Origin],
        number: usize,
    ) -> Result<(), AllocError>
        requires within { number < length origins.now }
        requires earlier { AreEarlier origins.now }
        requires pairs { ArePairsOf self.old.pairs self.old.clashes.items }
        ensures added { OnOk result (IsAddedOnce self.old.clashes.items
            (record { match0 = match0; match1 = match1; word = word origins.now number })
            self.new.clashes.items) }
        ensures pairs { OnOk result (ArePairsOf self.new.pairs self.new.clashes.items) }
    {
        if self.pairs.insert((match0, match1))? {
            let word = word_to(self.alloc, origins, number)?;
            self.clashes.push(Clash {
                match0,
                match1,
                word,
            })?;
        }
        Ok(())
    }

    /// Adds the clashes of the pairs of patterns that tie in the set with this number and in no earlier one. These are its
    /// strongest patterns, in order.
    pub(super) fn add_all(
        &mut self,
        strongest: &[NfaIndex],
        origins: &[Origin],
        number: usize,
    ) -> Result<(), AllocError>
        requires within { number < length origins.now }
        requires earlier { AreEarlier origins.now }
        requires ascending { AreAscending strongest.now }
        requires pairs { ArePairsOf self.old.pairs self.old.clashes.items }
        ensures added { OnOk result (HasTiesTo strongest.now (word origins.now number)
            self.old.clashes.items self.new.clashes.items 0 0) }
        ensures pairs { OnOk result (ArePairsOf self.new.pairs self.new.clashes.items) }
    {
        for upper in (0..strongest.len()).rev() {
            for lower in (0..upper).rev() {
                self.add(strongest[upper], strongest[lower], origins, number)?;
            }
        }
        Ok(())
    }
}
