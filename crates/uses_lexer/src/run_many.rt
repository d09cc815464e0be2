//! The automaton of a list of patterns, run over a text.

ghost use Rattle.std.specs.Prelude.{◌≢◌, ℕ, ◌+◌, ◌*◌, ◌^◌, ◌<◌, ◌≤◌, [], length, List, IfSome};
ghost use Rattle.std.specs.Option.{option_map};
ghost use Rattle.std.specs.Str.{chars};
ghost use Rattle.lalrpop_hir.specs.Tree.{Tree};
ghost use Rattle.lalrpop_hir.specs.Prefix.{IsPrefix};
ghost use Rattle.lalrpop_dfa.specs.Counts.{HaveAtMost};
ghost use Rattle.lalrpop_dfa.specs.Dfa.{Recognizes};
ghost use Rattle.lalrpop_hir.specs.Longest.{IsLongest};
ghost use Rattle.lalrpop_dfa.specs.Lookahead.{ReadsAtMost};

use lalrpop_dfa::Dfa;
use lalrpop_dfa::interpret::{interpret_counted, interpret_probed};
use lalrpop_hir::{NfaIndex, Steps};

// Needs lalrpop_dfa::interpret_counted: answer, prefix, never_falls, cost, looked, read.
/// Runs the automaton over two texts, on one counter.
pub fn counted_over_two<'text>(
    dfa: &Dfa,
    first: &'text str,
    second: &'text str,
    steps: &mut Steps,
) -> Option<(NfaIndex, &'text str)>
    ensures answer { (ts : List Tree) (ps : List ℕ) → Recognizes dfa.now ts ps
        → IsLongest ts ps second.now (option_map (λ m. (m.0, m.1.now)) result) }
    ensures prefix { IfSome result (λ m. IsPrefix m.1.now second.now × (m.1.now ≢ [])) }
    ensures never_falls { steps.old ≤ steps.new }
    ensures cost { steps.new ≤ steps.old + length (chars first.now) + length (chars second.now) }
    ensures looked { (n : ℕ) → ReadsAtMost dfa.now n → IfSome result (λ m.
        steps.new ≤ steps.old + length (chars first.now) + length (chars m.1.now) + n + 1) }
    ensures read { IfSome result (λ m. steps.old + length (chars m.1.now) ≤ steps.new) }
{
    let _ = interpret_counted(dfa, first, steps);
    interpret_counted(dfa, second, steps)
}

// Needs lalrpop_dfa::interpret_probed: answer, prefix, never_falls, cost, looked, read, probed.
/// Runs the automaton over a text, and counts also the ranges that are compared.
pub fn probed<'text>(
    dfa: &Dfa,
    text: &'text str,
    steps: &mut Steps,
    probes: &mut Steps,
) -> Option<(NfaIndex, &'text str)>
    ensures answer { (ts : List Tree) (ps : List ℕ) → Recognizes dfa.now ts ps
        → IsLongest ts ps text.now (option_map (λ m. (m.0, m.1.now)) result) }
    ensures prefix { IfSome result (λ m. IsPrefix m.1.now text.now × (m.1.now ≢ [])) }
    ensures never_falls { (steps.old ≤ steps.new) × (probes.old ≤ probes.new) }
    ensures cost { steps.new ≤ steps.old + length (chars text.now) }
    ensures looked { (n : ℕ) → ReadsAtMost dfa.now n → IfSome result (λ m.
        steps.new ≤ steps.old + length (chars m.1.now) + n + 1) }
    ensures read { IfSome result (λ m. steps.old + length (chars m.1.now) ≤ steps.new) }
    ensures probed { (n d : ℕ) → HaveAtMost dfa.now n → n < 2 ^ d
        → probes.new ≤ probes.old + length (chars text.now) * d }
{
    interpret_probed(dfa, text, steps, probes)
}
