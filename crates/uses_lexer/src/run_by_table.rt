//! An automaton with a table beside it, run over a text.

ghost use Rattle.std.specs.Prelude.{◌≡◌, ◌≢◌, ℕ, ◌+◌, ◌<◌, ◌≤◌, [], length, drop, take, List, Some, None, true, IfOk, IfNone, IfSome, MatchOption};
ghost use Rattle.std.specs.Option.{option_map};
ghost use Rattle.std.specs.Str.{IsCharBoundary, chars};
ghost use Rattle.lalrpop_hir.specs.Tree.{Tree};
ghost use Rattle.lalrpop_hir.specs.Prefix.{IsPrefix};
ghost use Rattle.lalrpop_dfa.specs.Dfa.{Recognizes};
ghost use Rattle.lalrpop_dfa.specs.Lookahead.{ReadsAtMost};
ghost use Rattle.lalrpop_hir.specs.Longest.{IsLongest};
ghost use Rattle.lalrpop_dense.specs.Leading.{IsDeadAt, IsStopped};

use lalrpop_dense::{DenseDfa, TokenEnd, TokenEnds};
use lalrpop_dfa::Dfa;
use lalrpop_dfa::interpret::interpret;
use lalrpop_hir::{NfaIndex, Steps};
use std::alloc::{AllocError, Global};

// Needs lalrpop_dense::DenseDfa::new: same.
/// The automaton with its table recognizes what the automaton does.
///
/// # Errors
///
/// `AllocError` if a request for memory was refused.
pub fn with_a_table(alloc: Global, dfa: Dfa) -> Result<DenseDfa, AllocError>
    ensures { IfOk result (λ dense. (ts : List Tree) (ps : List ℕ) → Recognizes dfa ts ps
        → Recognizes dense ts ps) }
{
    DenseDfa::new(alloc, dfa)
}

// Needs lalrpop_dense::DenseDfa::dfa: same.
/// The longest match of the text by the automaton alone.
pub fn longest_by_automaton<'text>(
    dense: &DenseDfa,
    text: &'text str,
) -> Option<(NfaIndex, &'text str)>
    ensures answer { (ts : List Tree) (ps : List ℕ) → Recognizes dense.now ts ps
        → IsLongest ts ps text.now (option_map (λ m. (m.0, m.1.now)) result) }
{
    interpret(dense.dfa(), text)
}

// Needs lalrpop_dense::DenseDfa::longest_counted: answer, prefix, never_falls, cost, looked, read.
/// The longest match of the second text, sought after the first text's, with a step for each character that is read.
pub fn counted_by_table<'text>(
    dense: &DenseDfa,
    first: &str,
    second: &'text str,
    steps: &mut Steps,
) -> Option<(NfaIndex, &'text str)>
    ensures answer { (ts : List Tree) (ps : List ℕ) → Recognizes dense.now ts ps
        → IsLongest ts ps second.now (option_map (λ m. (m.0, m.1.now)) result) }
    ensures prefix { IfSome result (λ m. IsPrefix m.1.now second.now × (m.1.now ≢ [])) }
    ensures never_falls { steps.old ≤ steps.new }
    ensures cost { steps.new ≤ steps.old + length (chars first.now) + length (chars second.now) }
    ensures looked { (n : ℕ) → ReadsAtMost dense.now n → IfSome result (λ m.
        steps.new ≤ steps.old + length (chars first.now) + length (chars m.1.now) + n + 1) }
    ensures read { IfSome result (λ m. steps.old + length (chars m.1.now) ≤ steps.new) }
{
    let _ = dense.longest_counted(first, steps);
    dense.longest_counted(second, steps)
}

// Needs lalrpop_dense::DenseDfa::longest_within: answer, prefix; lalrpop_dense::DenseDfa::longest: answer, prefix.
/// The longest match of the text: either its first thousand bytes settle it, or all of the text is read.
pub fn longest_in_two_runs<'text>(
    dense: &DenseDfa,
    text: &'text str,
) -> Option<(NfaIndex, &'text str)>
    ensures answer { (ts : List Tree) (ps : List ℕ) → Recognizes dense.now ts ps
        → IsLongest ts ps text.now (option_map (λ m. (m.0, m.1.now)) result) }
    ensures prefix { IfSome result (λ m. IsPrefix m.1.now text.now × (m.1.now ≢ [])) }
{
    match dense.longest_within(text, 1000, &mut Steps::new()) {
        Some(settled) => settled.longest,
        None => dense.longest(text),
    }
}

// Needs lalrpop_dense::DenseDfa::longest_within: limit, past, never_falls, read, dead, within.
/// Whether the first thousand bytes settle what matches, and how many were read past the match: if the text goes on after them, no
/// pattern matches a word that begins with all that was read.
pub fn read_past<'text>(
    dense: &DenseDfa,
    text: &'text str,
    steps: &mut Steps,
) -> Option<(Option<(NfaIndex, &'text str)>, usize)>
    ensures limit { steps.new ≤ steps.old + 1000 }
    ensures never_falls { steps.old ≤ steps.new }
    ensures past { IfSome result (λ found. MatchOption found.0 (steps.new ≤ steps.old + found.1)
        (λ m. steps.new ≤ steps.old + length (chars m.1.now) + found.1)) }
    ensures read { IfSome result (λ found. IfSome found.0 (λ m.
        steps.old + length (chars m.1.now) ≤ steps.new)) }
    ensures dead { IfSome result (λ found. IfSome found.0 (λ m.
        length m.1.now + found.1 < length text.now
        → IsDeadAt dense.now text.now (length m.1.now + found.1))) }
    ensures within { IfSome result (λ found. IfSome found.0 (λ m.
        length m.1.now + found.1 ≤ length text.now)) }
{
    match dense.longest_within(text, 1000, steps) {
        Some(settled) => Some((settled.longest, settled.past)),
        None => None,
    }
}

// Needs lalrpop_dense::DenseDfa::find_ends: ahead, limit, never_falls, cost, read; lalrpop_dense::TokenEnds::new: none;
// lalrpop_dense::TokenEnds::next: some.
/// The first token of a text, if it's found ahead: the longest match, whatever comes after the character that follows it. Each token
/// found costs a step at least, and 100 bytes at most are read in vain.
pub fn first_ahead(dense: &DenseDfa, text: &str, steps: &mut Steps) -> Option<TokenEnd>
    ensures longest { (ts : List Tree) (ps : List ℕ) → Recognizes dense.now ts ps
        → IfSome result (λ found.
        IsLongest ts ps text.now (Some (found.index, take found.end text.now))) }
    ensures within { IfSome result (λ found. (0 < found.end) × IsCharBoundary text.now found.end) }
    ensures stopped { IfSome result (λ found.
        IsStopped dense.now (chars (take found.end text.now)) (drop found.end text.now)) }
    ensures read { IfSome result (λ found. steps.old < steps.new) }
    ensures cost { IfNone result (steps.new ≤ steps.old + 100) }
    ensures never_falls { steps.old ≤ steps.new }
{
    let mut ends = TokenEnds::new();
    let _vain = dense.find_ends(text, 0, 100, &mut ends, steps);
    ends.next()
}

// Needs lalrpop_dense::TokenEnds::clear: none; lalrpop_dense::TokenEnds::next: none.
/// After it is cleared, none is ahead, however often one is asked for.
pub fn none_is_left(ends: &mut TokenEnds) -> bool
    ensures none { result ≡ true }
    ensures still { ends.new ≡ [] }
{
    ends.clear();
    ends.next().is_none() && ends.next().is_none()
}
