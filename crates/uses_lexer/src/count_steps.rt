//! Steps, which only contracts see.

ghost use Rattle.std.specs.Prelude.{◌≡◌, ◌+◌, length};

use lalrpop_hir::Steps;

// Needs lalrpop_hir::Steps::tick: counted.
/// Counts a step for each value of the word.
pub fn count_values(word: &[u32], steps: &mut Steps)
    ensures { steps.new ≡ steps.old + length word.now }
{
    for _value in word {
        steps.tick();
    }
}

// Needs lalrpop_hir::Steps::new: value.
/// A counter of the values of the word.
pub fn counted(word: &[u32]) -> Steps
    ensures { result ≡ length word.now }
{
    let mut steps = Steps::new();
    count_values(word, &mut steps);
    steps
}
