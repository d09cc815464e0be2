//! The longest match at the start of a text, by a run that remembers.

ghost use Rattle.std.specs.Prelude.{◌≡◌, ◌≢◌, ℕ, ◌+◌, ◌*◌, ◌<◌, ◌≤◌, [], length, drop, List, IfSome};
ghost use Rattle.std.specs.Option.{option_map};
ghost use Rattle.std.specs.Str.{chars};
ghost use Rattle.lalrpop_hir.specs.Tree.{Tree};
ghost use Rattle.lalrpop_hir.specs.Prefix.{IsPrefix};
ghost use Rattle.lalrpop_hir.specs.Longest.{IsLongest};
ghost use Rattle.lalrpop_dfa.specs.Dfa.{Recognizes};
ghost use Rattle.lalrpop_dense.specs.Matching.{characters_of};
ghost use Rattle.lalrpop_dense.specs.Internal.Memory.{IsFor, room};
ghost use Rattle.lalrpop_dense.specs.Internal.Hopeless.{IsSound};

use crate::visited_pairs::VisitedPairs;
use lalrpop_dfa::{Dfa, Kind, NfaIndex, START};
use lalrpop_hir::Steps;

/// What a run finds.
#[derive(Clone, Copy)]
pub(crate) struct Found<'text> {
    /// The longest match, if there is one.
    pub(crate) longest: Option<(NfaIndex, &'text str)>,
    /// How many characters of the longer text come before what the match leaves.
    pub(crate) end: usize,
    /// How many characters after the match were read.
    pub(crate) past: usize,
}

/// The longest nonempty prefix of the text that some pattern matches, with the strongest pattern that matches it. The text
/// is what is left of a longer one, which the memo is for, after `start` characters. A step is counted for each character read.
pub(crate) fn longest_remembering<'text>(
    dfa: &Dfa,
    memo: &mut VisitedPairs,
    start: usize,
    text: &'text str,
    steps: &mut Steps,
) -> Found<'text>
    requires fits { IsFor dfa.now memo.old }
    requires places { start + length (chars text.now) < 64 * memo.old.places }
    requires index { start + length (chars text.now) ≤ usize.MAX }
    requires sound { IsSound dfa.now memo.old start (chars text.now) }
    ensures found { ((ts : List Tree) (ps : List ℕ) → Recognizes dfa.now ts ps
        → IsLongest ts ps text.now (option_map (λ m. (m.0, m.1.now)) result.longest))
        × ((k : ℕ) → result.end ≡ start + k
        → IsSound dfa.now memo.new result.end (drop k (chars text.now))) }
    ensures prefix { IfSome result.longest (λ m. IsPrefix m.1.now text.now × (m.1.now ≢ [])) }
    ensures end { result.end ≡ start + characters_of (option_map (λ m. m.1.now) result.longest) }
    ensures same { memo.new ≡ record memo.old { marks = memo.new.marks } }
    ensures never_falls { steps.old ≤ steps.new }
    ensures paid { steps.new + start + 64 * room memo.new
        ≤ steps.old + result.end + 64 * room memo.old + 64 }
    ensures fewer { room memo.new ≤ room memo.old }
    ensures read { steps.new + start ≤ steps.old + result.end + result.past }
    ensures at_least { steps.old + result.end ≤ steps.new + start }
{
    // There is a state, so START is one.
    let _states = dfa.states();
    let mut state = START;
    let mut index = start;
    let mut longest = None;
    let mut end = start;
    for (offset, c) in text.char_indices() {
        steps.tick();
        index += 1;
        state = dfa.step(state, u32::from(c));
        match dfa.state(state).kind() {
            Kind::Accepts(number) => {
                longest = Some((*number, &text[..offset + c.len_utf8()]));
                end = index;
            }
            Kind::Reject => break,
            Kind::Neither => {
                if memo.is_known(state, index) {
                    break;
                }
            }
        }
    }
    Found {
        longest,
        end,
        past: index - end,
    }
}
