//! States that lead most characters where an earlier state leads them.
//!
//! The states within keywords differ in the few letters that lead on to a keyword. All other letters lead to names, and
//! where names are of Unicode, those are hundreds of ranges.

ghost use Rattle.std.specs.Prelude.{◌≡◌, ℕ, ◌<◌, ◌≤◌, length, IfOk, IfSome};
ghost use Rattle.lalrpop_dfa.specs.Dfa.{AreAscendingTests};
ghost use Rattle.lalrpop_dfa.specs.Stored.{EndBefore};
ghost use Rattle.lalrpop_dense.specs.Internal.Alikes.{AreAlikes, IsAlike, SameEnd};

use lalrpop_dfa::{Dfa, DfaStateIndex};
use lalrpop_hir::Test;
use std::alloc::{AllocError, Global};

/// A state beside an earlier one, or beside itself.
#[derive(Clone, Copy)]
pub(crate) struct Alike {
    // The number of the earlier state, or of the state itself.
    pub(crate) earlier: usize,
    // How many test edges the two states share. They are the last ones of both.
    pub(crate) shared: usize,
    // The two states lead all values from this one on alike.
    pub(crate) from: u32,
}

// A state with fewer test edges isn't compared with others.
const FEW: usize = 16;

// States aren't alike if one of them has more test edges than this that the other doesn't share.
const MOST: usize = 64;

// How many test edges at the ends of the lists are equal.
fn shared_at_end(left: &[(Test, DfaStateIndex)], right: &[(Test, DfaStateIndex)]) -> usize
    ensures { SameEnd left.now right.now result }
{
    let mut shared = 0;
    while shared < left.len() && shared < right.len() {
        let (test, target) = &left[left.len() - 1 - shared];
        let (other, leads) = &right[right.len() - 1 - shared];
        if test.start() != other.start()
            || test.end() != other.end()
            || target.index() != leads.index()
        {
            break;
        }
        shared += 1;
    }
    shared
}

// The value behind this many edges.
fn end_of(edges: &[(Test, DfaStateIndex)], count: usize) -> Option<u32>
    requires ascending { AreAscendingTests edges.now }
    requires within { count ≤ length edges.now }
    ensures { IfSome result (λ end. EndBefore edges.now count end) }
{
    if count == 0 {
        return Some(0);
    }
    let end = edges[count - 1].0.end();
    if end == u32::MAX { None } else { Some(end + 1) }
}

// The state beside the earlier one. None if they share too few edges.
fn beside(dfa: &Dfa, index: DfaStateIndex, earlier: DfaStateIndex) -> Option<Alike>
    requires within { index < length dfa.now }
    requires earlier { earlier < length dfa.now }
    ensures { IfSome result (λ alike. IsAlike dfa.now index alike) }
{
    if dfa.state(index).other_edge().index() != dfa.state(earlier).other_edge().index() {
        return None;
    }
    let left = dfa.test_edges(index);
    let right = dfa.test_edges(earlier);
    let shared = shared_at_end(left, right);
    let own = left.len() - shared;
    let others = right.len() - shared;
    if own > MOST || others > MOST {
        return None;
    }
    let from = end_of(left, own)?.max(end_of(right, others)?);
    Some(Alike {
        earlier: earlier.index(),
        shared,
        from,
    })
}

fn itself(dfa: &Dfa, index: DfaStateIndex) -> Alike
    requires { index < length dfa.now }
    ensures { IsAlike dfa.now index result }
{
    Alike {
        earlier: index.index(),
        shared: dfa.test_edges(index).len(),
        from: 0,
    }
}

// The place of the list where an earlier state with the same last target is noted.
fn last_target(edges: &[(Test, DfaStateIndex)]) -> Option<usize> {
    if edges.len() < FEW {
        return None;
    }
    let (_, target) = edges.last()?;
    Some(target.index())
}

// The state beside the one noted for its last target, or beside itself. Then it is noted.
fn alike_of(dfa: &Dfa, index: DfaStateIndex, noted: &mut [Option<DfaStateIndex>]) -> Alike
    requires { index < length dfa.now }
    ensures { IsAlike dfa.now index result }
{
    let Some(target) = last_target(dfa.test_edges(index)) else {
        return itself(dfa, index);
    };
    if let Some(Some(earlier)) = noted.get(target) {
        if earlier.index() < index.index() {
            if let Some(alike) = beside(dfa, index, *earlier) {
                return alike;
            }
        }
    }
    if let Some(note) = noted.get_mut(target) {
        *note = Some(index);
    }
    itself(dfa, index)
}

/// Each state beside an earlier one that leads most values alike, or beside itself.
///
/// # Errors
///
/// `AllocError` if a request for memory was refused.
pub(crate) fn alikes_of(alloc: Global, dfa: &Dfa) -> Result<Vec<Alike>, AllocError>
    ensures { IfOk result (λ alikes. AreAlikes dfa.now alikes.items) }
{
    let count = dfa.states().len();
    let mut noted = vec![in alloc; None; count]?;
    let mut alikes = Vec::new(alloc);
    for number in 0..count {
        alikes.push(alike_of(dfa, DfaStateIndex::new(number), &mut noted))?;
    }
    Ok(alikes)
}
