//! Places in classes, each named by its first place, and the smaller classes that keys part them into.

ghost use Rattle.std.specs.Prelude.{◌≡◌, ◌<◌, length, IfOk, OnOk};
ghost use Rattle.lalrpop_verdicts.specs.Internal.Classes.{AreFirstPlaces, AreSplit, IsPart};

use std::alloc::{AllocError, Global};
use std::collections::HashMap;

// The first place with the key of this one, among those that had the same first place. Most often that place itself has the
// key, and nothing is looked up; the map holds the first places of those that part from it.
fn part_of(
    moved: &mut HashMap<(usize, usize), usize>,
    keys: &[usize],
    first: usize,
    place: usize,
) -> Result<usize, AllocError>
    requires first_within { first < length keys.now }
    requires within { place < length keys.now }
    ensures { IfOk result (λ found. IsPart keys.now first place found moved.old moved.new) }
{
    let key = keys[place];
    if keys[first] == key {
        return Ok(first);
    }
    if let Some(found) = moved.get(&(first, key)) {
        return Ok(*found);
    }
    moved.insert((first, key), place)?;
    Ok(place)
}

/// Each place with its first one: now the first that was in the same class and has the same key.
pub(super) fn split(alloc: Global, firsts: &mut [usize], keys: &[usize]) -> Result<(), AllocError>
    requires same_length { length keys.now ≡ length firsts.old }
    requires firsts { AreFirstPlaces firsts.old }
    ensures { OnOk result (AreSplit firsts.old keys.now firsts.new) }
{
    let mut moved = HashMap::new(alloc);
    for place in 0..firsts.len() {
        firsts[place] = part_of(&mut moved, keys, firsts[place], place)?;
    }
    Ok(())
}
