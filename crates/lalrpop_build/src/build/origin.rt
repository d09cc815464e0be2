//! Where sets of items are first met.
ghost use Rattle.std.specs.Prelude.{◌≡◌, ◌<◌, length, IfOk};
ghost use Rattle.lalrpop_build.specs.Internal.BreadthFirst.{AreEarlier, word};

use std::alloc::{AllocError, Global};
use std::marker::Model;

/// Where a set of items was first met: the number of a set, and the least value that leads from it.
#[derive(Copy, Clone)]
pub(crate) struct Origin {
    pub(crate) from: usize,
    pub(crate) value: u32,
}

impl Model for Origin {
    ghost use Rattle.std.specs.Prelude.{ℕ};

    ghost Value = { ℕ × ℕ };

    ghost view = { λ o. (o.from, o.value) };

    ghost inverse = { λ o. record { from = o.0; value = o.1 } };
}

impl Origin {
    pub(crate) fn new(from: usize, value: u32) -> Origin
        ensures { result ≡ (from, value) }
    {
        Origin { from, value }
    }
}

/// The word by which the set with this number was first met: the values of the origins from it back to number 0, in
/// reverse.
pub(crate) fn word_to(
    alloc: Global,
    origins: &[Origin],
    number: usize,
) -> Result<Vec<u32>, AllocError>
    requires within { number < length origins.now }
    requires earlier { AreEarlier origins.now }
    ensures { IfOk result (λ found. found.items ≡ word origins.now number) }
{
    let mut values = Vec::new(alloc);
    let mut place = number;
    while place > 0 {
        let origin = origins[place];
        values.push(origin.value)?;
        place = origin.from;
    }
    values.reverse();
    Ok(values)
}
