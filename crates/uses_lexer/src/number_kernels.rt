//! Kernels, which are numbered in the order in which they are added, and taken in that order.

ghost use Rattle.std.specs.Prelude.{◌≡◌, ℕ, ◌+◌, ◌^◌, ◌<◌, [], ◌∷◌, IfOk, OnOk, OnErr, MatchOption, slice_get};
ghost use Rattle.std.specs.declared.cmp.Ordering.TheVariants.{Equal};
ghost use Rattle.lalrpop_dfa.specs.Kernels.{IsNumberOf, AreDistinct, ClonesEqual, added, moved};

use lalrpop_dfa::kernel_set::{Kernel, KernelSet};
use lalrpop_dfa::{DfaStateIndex, ItemSet};
use std::alloc::{AllocError, Global};

// Needs lalrpop_dfa::kernel_set::Kernel::index: value.
/// The index of the next number.
pub fn index_after<K: Kernel>(number: usize) -> K::Index
    requires { number + 1 < 2 ^ 64 }
    ensures { result ≡ K.index_of (number + 1) }
{
    K::index(number + 1)
}

// Needs lalrpop_dfa::kernel_set::KernelSet::new: empty.
// Needs lalrpop_dfa::kernel_set::KernelSet::add_state: list.
/// A set with one kernel, which is the next to be taken.
pub fn started<K: Kernel>(alloc: Global, first: K) -> Result<KernelSet<K>, AllocError>
where
    K::Index: Drop,
    requires { ClonesEqual K.cmp K.is_clone }
    ensures { IfOk result (λ set. set ≡ record { list = first ∷ []; place = 0 }) }
{
    let mut set = KernelSet::new(alloc);
    set.add_state(first)?;
    Ok(set)
}

// Needs lalrpop_dfa::kernel_set::KernelSet::add_state: number, list, distinct, refused.
/// Adds a kernel that another leads to, and returns its index.
pub fn add_target<K: Kernel>(set: &mut KernelSet<K>, target: K) -> Result<K::Index, AllocError>
    requires { ClonesEqual K.cmp K.is_clone }
    ensures number { IfOk result (λ i. (n : ℕ) × (i ≡ K.index_of n)
        × IsNumberOf K.cmp set.new.list target n) }
    ensures list { OnOk result (set.new
        ≡ record { list = added K.cmp set.old.list target; place = set.old.place }) }
    ensures distinct { OnOk result (AreDistinct K.cmp set.new.list) }
    ensures refused { OnErr result (set.new ≡ set.old) }
{
    set.add_state(target)
}

// Needs lalrpop_dfa::kernel_set::KernelSet::next: given, moves, refused.
/// Takes the next kernel, to be expanded.
pub fn take<K: Kernel>(set: &mut KernelSet<K>) -> Result<Option<K>, AllocError>
    requires { ClonesEqual K.cmp K.is_clone }
    ensures given { IfOk result (λ o. MatchOption o
        (slice_get set.old.list set.old.place ≡ None)
        (λ k. (q : K) × (slice_get set.old.list set.old.place ≡ Some q)
        × K.is_clone q k × (K.cmp q k ≡ Equal))) }
    ensures moves { IfOk result (λ o. set.new ≡ moved set.old o) }
    ensures refused { OnErr result (set.new ≡ set.old) }
{
    set.next()
}

// Needs lalrpop_dfa::ItemSet::index: ghost index_of.
/// The state that holds the set of items with this number.
pub fn state_of_set(number: usize) -> DfaStateIndex
    ensures { result ≡ number }
{
    <ItemSet as Kernel>::index(number)
}
