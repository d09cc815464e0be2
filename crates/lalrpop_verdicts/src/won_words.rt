//! The words that one automaton accepts, by the trees that win them in another one.
ghost use Rattle.std.specs.Prelude.{◌≡◌, ℕ, Some, length, slice_get, IfOk};
ghost use Rattle.std.specs.Ordering.{nat_cmp};
ghost use Rattle.std.specs.BTreeMap.{get};
ghost use Rattle.lalrpop_verdicts.specs.Internal.WonWords.{AreWonWords, IsFirst, StaysDead, winner, winner_at};

use crate::answer::accepted;
use crate::pairs::{Follow, Pair, pairs, word_to};
use crate::won_word::WonWord;
use lalrpop_dfa::{Dfa, NfaIndex};
use std::alloc::{AllocError, Global};
use std::collections::BTreeMap;

// The tree that the right automaton accepts at a pair, if the left one accepts there too.
fn winner_of(left: &Dfa, right: &Dfa, pair: &Pair) -> Option<NfaIndex>
    ensures winner { result ≡ winner left.now right.now (Some pair.now) }
{
    accepted(left, pair.left)?;
    accepted(right, pair.right)
}

// The number of the first pair that each tree wins.
fn first_pairs(
    alloc: Global,
    left: &Dfa,
    right: &Dfa,
    pairs: &[Pair],
) -> Result<BTreeMap<usize, usize>, AllocError>
    ensures firsts { IfOk result (λ firsts. (q : ℕ) → IsFirst
        (winner_at left.now right.now pairs.now) (length pairs.now) q (get nat_cmp firsts q)) }
{
    let mut firsts = BTreeMap::new(alloc);
    for (number, pair) in pairs.iter().enumerate() {
        if let Some(tree) = winner_of(left, right, pair) {
            let by = tree.index();
            if !firsts.contains_key(&by) {
                firsts.insert(by, number)?;
            }
        }
    }
    Ok(firsts)
}

/// For each tree that the right automaton accepts by a nonempty piece of text which the left one accepts too: the tree, and the
/// least such word. Trees come in ascending order.
pub(crate) fn won_words(alloc: Global, left: &Dfa, right: &Dfa) -> Result<Vec<WonWord>, AllocError>
    ensures words { IfOk result (λ found. StaysDead left.now
        → AreWonWords left.now right.now found.items) }
{
    let pairs = pairs(alloc, left, right, Follow::LeftAlive)?;
    let firsts = first_pairs(alloc, left, right, &pairs)?;
    let mut found = Vec::new(alloc);
    for (tree, number) in &firsts {
        let word = word_to(alloc, &pairs, *number)?;
        let by = NfaIndex::new(*tree);
        found.push(WonWord { by, word })?;
    }
    Ok(found)
}
