//! Counting the characters of a text, and steps for them.

ghost use Rattle.std.specs.Prelude.{◌≡◌, ◌+◌, length};
ghost use Rattle.std.specs.Str.{chars};

use lalrpop_hir::{Steps, char_count};

/// Counts `count` steps. The compiler leaves nothing of the loop.
#[inline(always)]
pub(crate) fn count_steps(count: usize, steps: &mut Steps)
    ensures steps { steps.new ≡ steps.old + count }
{
    for _ in 0..count {
        steps.tick();
    }
}

/// How many characters the text has. A step is counted for each. If the number isn't used, the compiler leaves nothing of the loops.
#[inline(always)]
pub(crate) fn count_chars(text: &str, steps: &mut Steps) -> usize
    ensures count { result ≡ length (chars text.now) }
    ensures steps { steps.new ≡ steps.old + length (chars text.now) }
{
    let count = char_count(text);
    count_steps(count, steps);
    count
}
