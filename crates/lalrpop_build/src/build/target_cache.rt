//! A cache of the sets that a set of items leads to.

ghost use Rattle.std.specs.Prelude.{◌≡◌, ◌<◌, Some, slice_set, length, IfOk, IfSome};
ghost use Rattle.std.specs.BTreeMap.{IsEmpty};
ghost use Rattle.lalrpop_build.specs.Internal.Expansion.{IsEmptyCache, IsNumberOfEqual};
ghost use Rattle.lalrpop_build.specs.Internal.TargetCache.{IsFound, AreNumbersIn, OnlyAdds};

use super::scratch::{EdgesByClass, Transitions};
use crate::DfaStateIndex;
use std::alloc::{AllocError, Global};
use std::collections::BTreeMap;

// Up to this number of classes with edges, edges are not looked up: most sets have at most two, for which a look-up finds
// almost nothing and costs more than it saves.
const FEW: usize = 3;

/// The numbers found so far for the sets that a set leads to: by the class of a value, and by the test edges that a value
/// takes. The class that got its number last is tried first, since neighbours often take the same edges.
#[derive(Drop)]
pub(super) struct TargetCache {
    pub(super) by_class: Vec<Option<DfaStateIndex>>,
    pub(super) by_edges: BTreeMap<Transitions, DfaStateIndex>,
    last_class: usize,
}

// No number for each of `count` classes.
fn no_numbers(alloc: Global, count: usize) -> Result<Vec<Option<DfaStateIndex>>, AllocError>
    ensures count { IfOk result (λ numbers. length numbers.items ≡ count) }
    ensures none { IfOk result (λ numbers. IsEmptyCache numbers.items) }
{
    let mut numbers = Vec::with_capacity(alloc, count)?;
    for _ in 0..count {
        numbers.push(None)?;
    }
    Ok(numbers)
}

impl TargetCache {
    /// A cache for `count` classes.
    pub(super) fn new(alloc: Global, count: usize) -> Result<TargetCache, AllocError>
        ensures count { IfOk result (λ cache. length cache.by_class.items ≡ count) }
        ensures none { IfOk result (λ cache. IsEmptyCache cache.by_class.items) }
        ensures empty { IfOk result (λ cache. IsEmpty cache.by_edges) }
    {
        Ok(TargetCache {
            by_class: no_numbers(alloc, count)?,
            by_edges: BTreeMap::new(alloc),
            last_class: 0,
        })
    }

    // The number of the class that got one last, if its values take the same test edges as those of a class.
    fn number_of_last(&self, edges: &EdgesByClass, class: usize) -> Option<DfaStateIndex>
        requires { class < length edges.now.lists.items }
        ensures { IfSome result (IsNumberOfEqual edges.now.lists.items self.now.by_class.items class) }
    {
        let number = (*self.by_class.get(self.last_class)?)?;
        let last = edges.lists.get(self.last_class)?;
        if last.cmp(&edges.lists[class]).is_eq() {
            return Some(number);
        }
        None
    }

    /// The number that was found for the test edges of a class.
    pub(super) fn find(&self, edges: &EdgesByClass, class: usize) -> Option<DfaStateIndex>
        requires { class < length edges.now.lists.items }
        ensures { IfSome result (IsFound edges.now.lists.items self.now class) }
    {
        if let Some(number) = self.number_of_last(edges, class) {
            return Some(number);
        }
        if edges.used.len() <= FEW {
            return None;
        }
        match self.by_edges.get(&edges.lists[class]) {
            Some(number) => Some(*number),
            None => None,
        }
    }

    /// Records a number for the test edges of a class.
    pub(super) fn insert(
        &mut self,
        edges: &EdgesByClass,
        class: usize,
        number: DfaStateIndex,
    ) -> Result<(), AllocError>
        requires { class < length edges.now.lists.items }
        ensures edges { OnlyAdds self.old.by_edges edges.now.lists.items class number self.new.by_edges }
        ensures same { self.new.by_class.items ≡ self.old.by_class.items }
    {
        if edges.used.len() > FEW {
            self.by_edges.insert(edges.lists[class].clone()?, number)?;
        }
        Ok(())
    }

    /// Records a number for a class.
    pub(super) fn note(&mut self, class: usize, number: DfaStateIndex)
        requires { class < length self.old.by_class.items }
        ensures class { self.new.by_class.items ≡ slice_set self.old.by_class.items class (Some number) }
        ensures edges { self.new.by_edges ≡ self.old.by_edges }
    {
        self.by_class[class] = Some(number);
        self.last_class = class;
    }

    /// Forgets all numbers. Only these classes have any.
    pub(super) fn clear(&mut self, used: &[usize])
        requires { AreNumbersIn used.now self.old.by_class.items }
        ensures none { IsEmptyCache self.new.by_class.items }
        ensures empty { IsEmpty self.new.by_edges }
        ensures count { length self.new.by_class.items ≡ length self.old.by_class.items }
    {
        for class in used {
            self.by_class[*class] = None;
        }
        self.by_edges.clear();
    }
}
