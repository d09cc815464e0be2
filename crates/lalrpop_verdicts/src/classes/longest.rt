//! How long the longest words are that lead from each state to one that accepts a pattern, where their lengths have a bound.

ghost use Rattle.std.specs.Prelude.{◌≡◌, ℕ, List, length, map, IfOk, Vec};
ghost use Rattle.std.specs.Global.{Global};
ghost use Rattle.std.specs.List.{Contains};
ghost use Rattle.lalrpop_dfa.specs.Dfa.{IsWellFormed, Row};
ghost use Rattle.lalrpop_verdicts.specs.Internal.Classes.{AreWithin};
ghost use Rattle.lalrpop_verdicts.specs.Internal.Longest.{AreLongest, AreLowered, IsGreatestOf, IsLowered, stop_at};
ghost use Rattle.lalrpop_verdicts.specs.Internal.Shortest.{AreKept};
ghost use Rattle.lalrpop_verdicts.specs.Internal.StateWalks.{AreAllLeads};

use std::alloc::{AllocError, Global};

// For each of the shortest lengths 0 if no word has it, and else a bound that all words keep.
fn stops(alloc: Global, shortest: &[usize]) -> Result<Vec<usize>, AllocError>
    ensures { IfOk result (λ stops. stops.items ≡ map stop_at shortest.now) }
{
    let mut stops = Vec::with_capacity(alloc, shortest.len())?;
    for length in shortest {
        stops.push(if *length == usize::MAX { 0 } else { usize::MAX })?;
    }
    Ok(stops)
}

// The greatest of the lengths at the targets after the first, which is the state itself.
fn greatest(lengths: &[usize], targets: &[usize]) -> usize
    requires { AreWithin targets.now (length lengths.now) }
    ensures { IsGreatestOf lengths.now targets.now result }
{
    let mut greatest = 0;
    for place in 1..targets.len() {
        greatest = lengths[targets[place]].max(greatest);
    }
    greatest
}

// A state's own length, or one more than the greatest of those at its targets if that is less.
fn lower(lengths: &[usize], targets: &[usize], own: usize) -> usize
    requires { AreWithin targets.now (length lengths.now) }
    ensures { IsLowered lengths.now targets.now own result }
{
    let most = greatest(lengths, targets);
    if most < own { most + 1 } else { own }
}

// Makes each length at most one more than the greatest of those at its targets was. The last states come first, since most edges
// lead to later ones, whose lengths are then right already.
fn lower_all(table: &[Vec<usize>], lengths: &mut [usize])
    requires same_length { length table.now ≡ length lengths.old }
    requires within { (v : Vec ℕ Global) → Contains table.now v → AreWithin v.items (length lengths.old) }
    ensures { AreLowered table.now lengths.old lengths.new }
{
    let count = lengths.len();
    for back in 0..count {
        let number = count - 1 - back;
        lengths[number] = lower(lengths, &table[number], lengths[number]);
    }
}

// Lowers the lengths until none is more than one more than the greatest of those at its targets.
fn longest(table: &[Vec<usize>], stops: Vec<usize>) -> Result<Vec<usize>, AllocError>
    requires same_length { length table.now ≡ length stops.items }
    requires within { (v : Vec ℕ Global) → Contains table.now v → AreWithin v.items (length stops.items) }
    ensures { IfOk result (λ lengths. AreLongest table.now stops.items lengths.items) }
{
    let mut lengths = stops;
    loop {
        let before = lengths.clone()?;
        lower_all(table, &mut lengths);
        if lengths == before {
            return Ok(lengths);
        }
    }
}

/// For each state 0 if no word leads from it to one that accepts a pattern; otherwise one more than how long a longest such word
/// is, if their lengths have a bound. States that answer each word alike have one number. The shortest lengths say where none is.
pub(super) fn longest_lengths(
    alloc: Global,
    table: &[Vec<usize>],
    shortest: &[usize],
) -> Result<Vec<usize>, AllocError>
    requires same_length { length table.now ≡ length shortest.now }
    requires within { (v : Vec ℕ Global) → Contains table.now v → AreWithin v.items (length shortest.now) }
    ensures { IfOk result (λ lengths. (d : List Row) → AreAllLeads d table.now → IsWellFormed d
        → AreKept d shortest.now → AreKept d lengths.items) }
{
    longest(table, stops(alloc, shortest)?)
}
