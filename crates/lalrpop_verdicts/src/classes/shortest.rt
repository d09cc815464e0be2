//! How long the shortest words are that lead from each state to one that accepts a pattern.

ghost use Rattle.std.specs.Prelude.{◌≡◌, ℕ, ◌<◌, length, map, IfOk, OnOk, Vec};
ghost use Rattle.std.specs.Global.{Global};
ghost use Rattle.std.specs.List.{Contains};
ghost use Rattle.lalrpop_dfa.specs.Dfa.{IsWellFormed};
ghost use Rattle.lalrpop_verdicts.specs.Internal.Classes.{AreWithin};
ghost use Rattle.lalrpop_verdicts.specs.Internal.Shortest.{AreKept, AreShortened, AreShortest, IsShorter, start_of};
ghost use Rattle.lalrpop_verdicts.specs.Internal.StateWalks.{AreAllLeads};

use crate::answer::accepted_by;
use lalrpop_dfa::{Dfa, Kind};
use std::alloc::{AllocError, Global};

// 0 at a state of this kind that accepts a pattern; at any other a length that no word has.
fn start(kind: &Kind) -> usize
    ensures { result ≡ start_of kind.now }
{
    if accepted_by(kind).is_some() {
        0
    } else {
        usize::MAX
    }
}

// The same for each state.
fn starts(alloc: Global, dfa: &Dfa) -> Result<Vec<usize>, AllocError>
    ensures { IfOk result (λ starts. starts.items ≡ map (λ r. start_of r.kind) dfa.now) }
{
    let mut starts = Vec::with_capacity(alloc, dfa.states().len())?;
    for state in dfa.states() {
        starts.push(start(state.kind()))?;
    }
    Ok(starts)
}

// A state's own length, or one more than the least of those at its targets if that is less.
fn shorter(lengths: &[usize], targets: &[usize], own: usize) -> usize
    requires { AreWithin targets.now (length lengths.now) }
    ensures { IsShorter lengths.now targets.now own result }
{
    let mut least = own;
    for target in targets {
        let there = lengths[*target];
        if there < least {
            least = there + 1;
        }
    }
    least
}

// Makes each length at most one more than those at the targets were. The last states come first, since most edges lead to later
// ones, whose lengths are then right already.
fn shorten(table: &[Vec<usize>], lengths: &mut [usize])
    requires same_length { length table.now ≡ length lengths.old }
    requires within { (v : Vec ℕ Global) → Contains table.now v → AreWithin v.items (length lengths.old) }
    ensures { AreShortened table.now lengths.old lengths.new }
{
    let count = lengths.len();
    for back in 0..count {
        let number = count - 1 - back;
        lengths[number] = shorter(lengths, &table[number], lengths[number]);
    }
}

// Shortens the lengths until none is more than one more than those at its targets.
fn shortest(table: &[Vec<usize>], starts: Vec<usize>) -> Result<Vec<usize>, AllocError>
    requires same_length { length table.now ≡ length starts.items }
    requires within { (v : Vec ℕ Global) → Contains table.now v → AreWithin v.items (length starts.items) }
    ensures { IfOk result (λ lengths. AreShortest table.now starts.items lengths.items) }
{
    let mut lengths = starts;
    loop {
        let before = lengths.clone()?;
        shorten(table, &mut lengths);
        if lengths == before {
            return Ok(lengths);
        }
    }
}

/// For each state how long a shortest word is that leads from it to one that accepts a pattern; states that answer each word alike
/// have one length. The table says where each state leads.
pub(super) fn shortest_lengths(
    alloc: Global,
    dfa: &Dfa,
    table: &[Vec<usize>],
) -> Result<Vec<usize>, AllocError>
    requires leads { AreAllLeads dfa.now table.now }
    requires well_formed { IsWellFormed dfa.now }
    ensures { IfOk result (λ lengths. AreKept dfa.now lengths.items) }
{
    shortest(table, starts(alloc, dfa)?)
}
