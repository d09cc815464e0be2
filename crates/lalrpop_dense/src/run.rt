//! The run of a table over a text.

ghost use Rattle.std.specs.Prelude.{◌≡◌, ◌≢◌, ℕ, ◌+◌, ◌<◌, ◌≤◌, ◌++◌, [], length, drop, take, List, true, IfSome, MatchOption};
ghost use Rattle.std.specs.Option.{option_map};
ghost use Rattle.std.specs.Char.{encode_utf8};
ghost use Rattle.std.specs.Str.{IsCharBoundary, chars};
ghost use Rattle.lalrpop_hir.specs.Tree.{Tree};
ghost use Rattle.lalrpop_hir.specs.Prefix.{IsPrefix};
ghost use Rattle.lalrpop_dfa.specs.Dfa.{Recognizes};
ghost use Rattle.lalrpop_dfa.specs.Lookahead.{ReadsAtMost};
ghost use Rattle.lalrpop_hir.specs.Longest.{IsLongest};
ghost use Rattle.lalrpop_dense.specs.Leading.{IsDeadAt};
ghost use Rattle.lalrpop_dense.specs.Internal.Table.{HasClasses, IsTableOf, class_of};
ghost use Rattle.lalrpop_dense.specs.Internal.Reading.{ReadsChar, IsPlace, PaysPast, found};

use crate::table::{Cells, Layout};
use lalrpop_dfa::{Dfa, NfaIndex};
use lalrpop_hir::Steps;

// The character at the place.
#[inline(always)]
fn char_at(text: &str, at: usize) -> char
    requires boundary { IsCharBoundary text.now at }
    requires within { at < length text.now }
    ensures { (rest : List ℕ) × (drop at text.now ≡ encode_utf8 result ++ rest) }
{
    match text[at..].chars().next() {
        Some(c) => c,
        None => '\0',
    }
}

// The class of the character at the place, which moves past it.
#[inline(always)]
pub(crate) fn read_class(layout: &Layout, text: &str, at: &mut usize) -> u8
    requires classes { HasClasses layout.now }
    requires boundary { IsCharBoundary text.now at.old }
    requires within { at.old < length text.now }
    ensures { (c : ℕ)
        × (ReadsChar text.now at.old at.new c × (result ≡ class_of layout.now c)) }
{
    let first = text.as_bytes()[*at];
    if first < 128 {
        *at += 1;
        return layout.blocks[first as usize];
    }
    let c = char_at(text, *at);
    *at += c.len_utf8();
    layout.class(u32::from(c))
}

// Where a walk along a text stopped.
#[derive(Clone, Copy)]
struct Stop {
    // The row of the state after the longest match so far, and where the match ends.
    longest: Option<(usize, usize)>,
    // How far the text was read.
    at: usize,
    // Whether the match is the longest one of the whole text.
    is_settled: bool,
}

// Walks along the text until no longer match can come, but reads no character that begins at the limit or after it.
#[inline(always)]
fn walk<C: Cells>(
    cells: &C,
    layout: &Layout,
    dfa: &Dfa,
    text: &str,
    limit: usize,
    steps: &mut Steps,
) -> Stop
    requires table { IsTableOf layout.now (C.numbers cells.now) dfa.now }
    requires within { limit ≤ length text.now }
    ensures answer { (ts : List Tree) (ps : List ℕ) → Recognizes dfa.now ts ps
        → result.is_settled ≡ true → IsLongest ts ps text.now
        (option_map (found layout.now (C.numbers cells.now) text.now) result.longest) }
    ensures settled { limit ≡ length text.now → result.is_settled ≡ true }
    ensures dead { result.at < length text.now → result.is_settled ≡ true
        → IsDeadAt dfa.now text.now result.at }
    ensures place { IfSome result.longest
        (IsPlace layout.now (C.numbers cells.now) text.now) }
    ensures never_falls { steps.old ≤ steps.new }
    ensures cost { steps.new ≤ steps.old + length (chars text.now) }
    ensures looked { (n : ℕ) → ReadsAtMost dfa.now n → IfSome result.longest (λ m.
        steps.new ≤ steps.old + length (chars (take m.1 text.now)) + n + 1) }
    ensures read { IfSome result.longest (λ m.
        steps.old + length (chars (take m.1 text.now)) ≤ steps.new) }
    ensures within { result.at ≤ length text.now }
    ensures limit { steps.new ≤ steps.old + limit }
    ensures past { PaysPast text.now result.at steps.old steps.new result.longest }
{
    // There is a state, so START is one.
    let _states = dfa.states();
    let mut state = layout.rows[0] as usize;
    let mut longest = None;
    let mut at = 0;
    'walk: while at < limit {
        let class = read_class(layout, text, &mut at);
        steps.tick();
        state = cells.at(state + class as usize);
        if state < layout.live {
            return Stop {
                longest,
                at,
                is_settled: true,
            };
        }
        if state >= layout.accept {
            longest = Some((state, at));
        }
    }
    Stop {
        longest,
        at,
        is_settled: at >= text.len(),
    }
}

/// The longest match at the start of the text, by the table of the automaton. A step is counted for each cell read.
#[inline(always)]
pub(crate) fn longest_by<'text, C: Cells>(
    cells: &C,
    layout: &Layout,
    dfa: &Dfa,
    text: &'text str,
    steps: &mut Steps,
) -> Option<(NfaIndex, &'text str)>
    requires { IsTableOf layout.now (C.numbers cells.now) dfa.now }
    ensures answer { (ts : List Tree) (ps : List ℕ) → Recognizes dfa.now ts ps
        → IsLongest ts ps text.now (option_map (λ m. (m.0, m.1.now)) result) }
    ensures prefix { IfSome result (λ m. IsPrefix m.1.now text.now × (m.1.now ≢ [])) }
    ensures never_falls { steps.old ≤ steps.new }
    ensures cost { steps.new ≤ steps.old + length (chars text.now) }
    ensures looked { (n : ℕ) → ReadsAtMost dfa.now n → IfSome result (λ m.
        steps.new ≤ steps.old + length (chars m.1.now) + n + 1) }
    ensures read { IfSome result (λ m. steps.old + length (chars m.1.now) ≤ steps.new) }
{
    let stop = walk(cells, layout, dfa, text, text.len(), steps);
    match stop.longest {
        Some((row, end)) => {
            let pattern = cells.at(row + layout.width);
            Some((NfaIndex::new(pattern), &text[..end]))
        }
        None => None,
    }
}

/// The longest match at the start of a text.
#[derive(Clone, Copy, Debug)]
pub struct BoundedMatch<'text> {
    /// The match, if there is one.
    pub longest: Option<(NfaIndex, &'text str)>,
    /// How many bytes after it were read to see that there is no longer one.
    pub past: usize,
}

/// The longest match at the start of the text, by the table of the automaton. `None` if the characters that begin within the
/// first `limit` bytes don't settle it. A step is counted for each cell read.
#[inline(always)]
pub(crate) fn longest_within_by<'text, C: Cells>(
    cells: &C,
    layout: &Layout,
    dfa: &Dfa,
    text: &'text str,
    limit: usize,
    steps: &mut Steps,
) -> Option<BoundedMatch<'text>>
    requires { IsTableOf layout.now (C.numbers cells.now) dfa.now }
    ensures answer { (ts : List Tree) (ps : List ℕ) → Recognizes dfa.now ts ps
        → IfSome result (λ s.
        IsLongest ts ps text.now (option_map (λ m. (m.0, m.1.now)) s.longest)) }
    ensures prefix { IfSome result (λ s. IfSome s.longest (λ m.
        IsPrefix m.1.now text.now × (m.1.now ≢ []))) }
    ensures never_falls { steps.old ≤ steps.new }
    ensures limit { steps.new ≤ steps.old + limit }
    ensures past { IfSome result (λ s. MatchOption s.longest (steps.new ≤ steps.old + s.past)
        (λ m. steps.new ≤ steps.old + length (chars m.1.now) + s.past)) }
    ensures read { IfSome result (λ s. IfSome s.longest (λ m.
        steps.old + length (chars m.1.now) ≤ steps.new)) }
    ensures dead { IfSome result (λ s. IfSome s.longest (λ m.
        length m.1.now + s.past < length text.now
        → IsDeadAt dfa.now text.now (length m.1.now + s.past))) }
    ensures within { IfSome result (λ s. MatchOption s.longest (s.past ≤ length text.now)
        (λ m. length m.1.now + s.past ≤ length text.now)) }
{
    let stop = walk(cells, layout, dfa, text, limit.min(text.len()), steps);
    if !stop.is_settled {
        return None;
    }
    match stop.longest {
        Some((row, end)) => {
            let pattern = cells.at(row + layout.width);
            Some(BoundedMatch {
                longest: Some((NfaIndex::new(pattern), &text[..end])),
                past: stop.at - end,
            })
        }
        None => Some(BoundedMatch {
            longest: None,
            past: stop.at,
        }),
    }
}
