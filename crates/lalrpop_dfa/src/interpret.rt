//! The longest match at the start of a text, found by running the automaton of a list of patterns.

ghost use Rattle.std.specs.Prelude.{◌≡◌, ◌≢◌, ℕ, ◌+◌, ◌*◌, ◌^◌, ◌<◌, ◌≤◌, [], length, List, IfSome};
ghost use Rattle.std.specs.Option.{option_map};
ghost use Rattle.std.specs.Str.{chars};
ghost use Rattle.lalrpop_dfa.specs.Counts.{HaveAtMost};
ghost use Rattle.lalrpop_dfa.specs.Dfa.{Recognizes};
ghost use Rattle.lalrpop_hir.specs.Longest.{IsLongest};
ghost use Rattle.lalrpop_dfa.specs.Lookahead.{ReadsAtMost};
ghost use Rattle.lalrpop_hir.specs.Tree.{Tree};
ghost use Rattle.lalrpop_hir.specs.Prefix.{IsPrefix};

use super::{Dfa, Kind, NfaIndex, START};
use lalrpop_hir::Steps;

/// The longest nonempty prefix of the text that some pattern matches, with the strongest pattern that matches it.
/// `None` if no pattern matches one. For every automaton, the slice is a nonempty prefix of the text.
pub fn interpret<'text>(dfa: &Dfa, input: &'text str) -> Option<(NfaIndex, &'text str)>
    ensures answer { (ts : List Tree) (ps : List ℕ) → Recognizes dfa.now ts ps
        → IsLongest ts ps input.now (option_map (λ m. (m.0, m.1.now)) result) }
    ensures prefix { IfSome result (λ m. IsPrefix m.1.now input.now × (m.1.now ≢ [])) }
{
    interpret_counted(dfa, input, &mut Steps::new())
}

/// The same answer. Counts a step for each character read.
pub fn interpret_counted<'text>(
    dfa: &Dfa,
    input: &'text str,
    steps: &mut Steps,
) -> Option<(NfaIndex, &'text str)>
    ensures answer { (ts : List Tree) (ps : List ℕ) → Recognizes dfa.now ts ps
        → IsLongest ts ps input.now (option_map (λ m. (m.0, m.1.now)) result) }
    ensures prefix { IfSome result (λ m. IsPrefix m.1.now input.now × (m.1.now ≢ [])) }
    ensures never_falls { steps.old ≤ steps.new }
    ensures cost { steps.new ≤ steps.old + length (chars input.now) }
    ensures looked { (n : ℕ) → ReadsAtMost dfa.now n → IfSome result (λ m.
        steps.new ≤ steps.old + length (chars m.1.now) + n + 1) }
    ensures read { IfSome result (λ m. steps.old + length (chars m.1.now) ≤ steps.new) }
{
    interpret_probed(dfa, input, steps, &mut Steps::new())
}

/// The same answer and the same steps. Counts a probe for each range of an edge that is compared with a character: for
/// each character, at most the number of binary digits of the greatest number of test edges of a state.
pub fn interpret_probed<'text>(
    dfa: &Dfa,
    input: &'text str,
    steps: &mut Steps,
    probes: &mut Steps,
) -> Option<(NfaIndex, &'text str)>
    ensures answer { (ts : List Tree) (ps : List ℕ) → Recognizes dfa.now ts ps
        → IsLongest ts ps input.now (option_map (λ m. (m.0, m.1.now)) result) }
    ensures prefix { IfSome result (λ m. IsPrefix m.1.now input.now × (m.1.now ≢ [])) }
    ensures never_falls { (steps.old ≤ steps.new) × (probes.old ≤ probes.new) }
    ensures cost { steps.new ≤ steps.old + length (chars input.now) }
    ensures looked { (n : ℕ) → ReadsAtMost dfa.now n → IfSome result (λ m.
        steps.new ≤ steps.old + length (chars m.1.now) + n + 1) }
    ensures read { IfSome result (λ m. steps.old + length (chars m.1.now) ≤ steps.new) }
    ensures probed { (n d : ℕ) → HaveAtMost dfa.now n → n < 2 ^ d
        → probes.new ≤ probes.old + length (chars input.now) * d }
{
    // There is a state, so START exists.
    let _states = dfa.states();
    let mut state = START;
    let mut longest = None;
    for (offset, c) in input.char_indices() {
        steps.tick();
        state = dfa.step_probed(state, u32::from(c), probes);
        match dfa.state(state).kind() {
            Kind::Accepts(index) => longest = Some((*index, &input[..offset + c.len_utf8()])),
            Kind::Reject => break,
            Kind::Neither => {}
        }
    }
    longest
}
