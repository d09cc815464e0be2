//! Lists of numbers, given one after another: for each the place of the first one that is equal.

ghost use Rattle.std.specs.Prelude.{◌≡◌, ℕ, List, [], ◌∷◌, ◌++◌, IfOk, OnOk};
ghost use Rattle.lalrpop_verdicts.specs.Internal.Classes.{AreFirsts};

use std::alloc::{AllocError, Global};
use std::collections::HashMap;

#[derive(Drop)]
pub(super) struct FirstEqual {
    // The distinct lists, with the place where each was given first.
    known: HashMap<Vec<usize>, usize>,
    places: Vec<usize>,
}

impl FirstEqual {
    // No lists yet, and room for this many.
    pub(super) fn with_capacity(alloc: Global, count: usize) -> Result<FirstEqual, AllocError>
        ensures { IfOk result (λ firsts. AreFirsts [] firsts.known firsts.places.items) }
    {
        Ok(FirstEqual {
            known: HashMap::with_capacity(alloc, count)?,
            places: Vec::with_capacity(alloc, count)?,
        })
    }

    // Gives one more list.
    pub(super) fn push(&mut self, list: Vec<usize>) -> Result<(), AllocError>
        ensures { OnOk result ((lists : List (List ℕ))
            → AreFirsts lists self.old.known self.old.places.items
            → AreFirsts (lists ++ list.items ∷ []) self.new.known self.new.places.items) }
    {
        if let Some(first) = self.known.get(&list) {
            self.places.push(*first)?;
            return Ok(());
        }
        let place = self.places.len();
        self.known.insert(list, place)?;
        self.places.push(place)?;
        Ok(())
    }

    // For each list the place of the first one that is equal.
    pub(super) fn into_places(self) -> Vec<usize>
        ensures { result.items ≡ self.places.items }
    {
        let FirstEqual { places, .. } = self;
        places
    }
}
