//! The longest matches of a text, one after another.

ghost use Rattle.std.specs.Prelude.{◌≡◌, ◌+◌, length};
ghost use Rattle.std.specs.Str.{chars};

use crate::ahead::{Ahead, LEAST};
use crate::counting::{count_chars, count_steps};
use crate::dense::DenseDfa;
use crate::remembering::longest_remembering;
use crate::visited_pairs::{STRIDE, VisitedPairs};
use lalrpop_dfa::NfaIndex;
use lalrpop_hir::Steps;
use std::alloc::{AllocError, Global};
use std::marker::Model;

// How many bytes, or for runs by the memo characters, a call may read past its match before the credit of the table falls.
const ALLOWED: usize = 16;

/// Finds the longest matches of a text, each in what the one before it leaves.
///
/// The table finds them as long as it has read little in vain, a block of the text ahead where it can. Once it has read much, runs
/// remember the states that earlier ones have gone on from, at every 64th character, and go on from none of them again.
///
/// ```
/// use lalrpop_lexer::lexer::nfa::Steps;
///
/// let mut matches = lexer.matches(alloc, "let x")?;
/// let first = matches.next_match(&mut Steps::new()); // the index of a pattern, and "let"
/// ```
#[derive(Debug, Drop)]
pub struct LinearMatches<'text> {
    ahead: Ahead<'text>,
    // How many bytes the table may still read in vain.
    credit: usize,
    memo: VisitedPairs,
    // The memo is for what is left after this place, in bytes and in characters.
    counted: usize,
    index: usize,
}

impl<'text> Model for LinearMatches<'text> {
    ghost use Rattle.lalrpop_dense.specs.Matching.{Matching};
    ghost use Rattle.lalrpop_dense.specs.Internal.Standing.{IsReached, spare_of};

    ghost Value = { Matching };

    ghost view = { λ s.
        record {
          automaton = s.ahead.automaton;
          text = s.ahead.text;
          at = s.ahead.at;
          spare = spare_of s.ahead.text s.credit s.counted s.memo;
        } };

    ghost invariant = { λ s.
        IsReached s.ahead.automaton s.ahead.text s.ahead.at s.counted s.index s.memo };
}

impl<'text> LinearMatches<'text> {
    ghost use Rattle.std.specs.Prelude.{◌≢◌, ℕ, ◌*◌, ◌≤◌, ◌++◌, [], List, IfOk, IfNone, IfSome};
    ghost use Rattle.std.specs.Option.{option_map};
    ghost use Rattle.std.specs.Str.{IsCharBoundary};
    ghost use Rattle.std.specs.Char.{encode_utf8};
    ghost use Rattle.lalrpop_hir.specs.Tree.{Tree};
    ghost use Rattle.lalrpop_hir.specs.Prefix.{IsPrefix};
    ghost use Rattle.lalrpop_hir.specs.Longest.{IsLongest};
    ghost use Rattle.lalrpop_dfa.specs.Dfa.{Recognizes};
    ghost use Rattle.lalrpop_dense.specs.Matching.{rest_of, characters_of, open_states};
    ghost use Rattle.lalrpop_dense.specs.Internal.Blocks.{IsNextMatch, IsPaidFor};

    /// All of the text is left. The memory is taken here: a byte for each open state of the automaton for every 64 bytes of text.
    ///
    /// # Errors
    ///
    /// `AllocError` if a request for memory was refused.
    pub fn new(
        alloc: Global,
        dense: &'text DenseDfa,
        text: &'text str,
    ) -> Result<LinearMatches<'text>, AllocError>
        ensures start { IfOk result (λ s.
            s ≡ record { automaton = dense.now; text = text.now; at = 0; spare = s.spare }) }
        ensures spare { IfOk result (λ s. s.spare ≤ length (chars text.now) + length text.now
            + open_states dense.now * (length text.now + 64)) }
    {
        let memo = VisitedPairs::new(alloc, dense.dfa(), text.len() / STRIDE + 1)?;
        Ok(LinearMatches {
            ahead: Ahead::new(dense, text),
            credit: text.len(),
            memo,
            counted: 0,
            index: 0,
        })
    }

    /// Where the rest begins, in bytes.
    pub fn offset(&self) -> usize
        ensures offset { result ≡ self.now.at }
    {
        self.ahead.offset()
    }

    /// The rest of the text after the last match.
    pub fn rest(&self) -> &'text str
        ensures rest { result.now ≡ rest_of self.now }
    {
        self.ahead.rest()
    }

    /// The longest nonempty prefix of the rest that some pattern matches, with the strongest pattern that matches it. From then
    /// on the rest begins after it. `None` if no pattern matches any; then the rest stays. A step is counted for each character
    /// read: for those of a match that was found ahead when it is handed out, and for the bytes that were read in vain after the
    /// last match of a block at once.
    #[inline(always)]
    pub fn next_match(&mut self, steps: &mut Steps) -> Option<(NfaIndex, &'text str)>
        ensures answer { (ts : List Tree) (ps : List ℕ) → Recognizes self.old.automaton ts ps
            → IsLongest ts ps (rest_of self.old) (option_map (λ m. (m.0, m.1.now)) result) }
        ensures prefix { IfSome result (λ m.
            IsPrefix m.1.now (rest_of self.old) × (m.1.now ≢ [])) }
        ensures goes_on { IfSome result (λ m. self.new
            ≡ record self.old { at = self.old.at + length m.1.now; spare = self.new.spare }) }
        ensures stays { IfNone result
            (self.new ≡ record self.old { spare = self.new.spare }) }
        ensures never_falls { steps.old ≤ steps.new }
        ensures paid { steps.new + self.new.spare
            ≤ steps.old + characters_of (option_map (λ m. m.1.now) result)
            + self.old.spare + 64 }
        ensures read { steps.old + characters_of (option_map (λ m. m.1.now) result) ≤ steps.new }
    {
        match self.ahead.next_found(steps) {
            Some(found) => Some(found),
            None => self.next_sought(steps),
        }
    }

    // What `next_match` returns where nothing is found ahead.
    #[inline(never)]
    fn next_sought(&mut self, steps: &mut Steps) -> Option<(NfaIndex, &'text str)>
        ensures next { IsNextMatch self.old self.new result }
        ensures paid { IsPaidFor self.old self.new result steps.old steps.new }
    {
        if self.credit < LEAST {
            return self.next_alone(steps);
        }
        let vain = self.ahead.read_block(self.credit, steps);
        self.credit -= vain;
        match self.ahead.next_found(steps) {
            Some(found) => {
                self.credit = self.credit.saturating_add(ALLOWED);
                Some(found)
            }
            None => self.next_alone(steps),
        }
    }

    // What `next_match` returns, by a run of the table for this match alone, if that reads little in vain.
    fn next_alone(&mut self, steps: &mut Steps) -> Option<(NfaIndex, &'text str)>
        ensures next { IsNextMatch self.old self.new result }
        ensures paid { IsPaidFor self.old self.new result steps.old steps.new }
    {
        let rest = self.ahead.rest();
        let dense = self.ahead.dense();
        let Some(settled) = dense.longest_within(rest, self.credit, steps) else {
            self.credit = 0;
            return self.next_remembered(steps);
        };
        self.credit = self
            .credit
            .saturating_sub(settled.past)
            .saturating_add(ALLOWED);
        if let Some((_, slice)) = settled.longest {
            self.ahead.pass(slice);
        }
        settled.longest
    }

    // What `next_match` returns, by a run that remembers.
    #[cold]
    #[inline(never)]
    fn next_remembered(&mut self, steps: &mut Steps) -> Option<(NfaIndex, &'text str)>
        ensures next { IsNextMatch self.old self.new result }
        ensures paid { IsPaidFor self.old self.new result steps.old steps.new }
    {
        let rest = self.ahead.rest();
        let at = self.ahead.offset();
        let start = self.index + count_chars(&self.ahead.text()[self.counted..at], steps);
        let dfa = self.ahead.dense().dfa();
        let found = longest_remembering(dfa, &mut self.memo, start, rest, steps);
        self.credit = self
            .credit
            .saturating_add(ALLOWED.saturating_sub(found.past));
        self.counted = at;
        self.index = found.end;
        if let Some((_, matched)) = found.longest {
            self.ahead.pass(matched);
            self.counted = self.ahead.offset();
        }
        found.longest
    }

    /// Skips the first character of the rest: from then on the rest begins after it. `None` at the end of the text.
    ///
    /// For a caller that goes on where `next_match` finds nothing. Elsewhere the matches that were found ahead are forgotten, and
    /// from then on none is sought ahead.
    pub fn pass_char(&mut self) -> Option<char>
        ensures first { IfSome result (λ c.
            rest_of self.old ≡ encode_utf8 c ++ rest_of self.new) }
        ensures passes { IfSome result (λ c.
            self.new ≡ record self.old { at = self.old.at + length (encode_utf8 c) }) }
        ensures end { IfNone result ((rest_of self.old ≡ []) × (self.new ≡ self.old)) }
    {
        let rest = self.ahead.rest();
        match rest.chars().next() {
            Some(first) => {
                self.ahead.pass(&rest[..first.len_utf8()]);
                Some(first)
            }
            None => None,
        }
    }

    /// From now on the rest begins at this place, which isn't before the rest so far: what lies between was cut otherwise.
    ///
    /// If a match that was found ahead ends at the place, those behind it stay found. Otherwise all are forgotten; the next match is found
    /// without a block, and the blocks after it begin small and double. A step is counted for each byte of the matches that are forgotten.
    pub fn pass_to(&mut self, at: usize, steps: &mut Steps)
        requires behind { self.old.at ≤ at }
        requires boundary { IsCharBoundary self.old.text at }
        ensures passes { self.new ≡ record self.old { at = at; spare = self.new.spare } }
        ensures never_falls { steps.old ≤ steps.new }
        ensures paid { steps.new + self.new.spare ≡ steps.old + self.old.spare }
    {
        // A block has no more bytes than may be read in vain when it is read.
        let forgotten = self.ahead.pass_to(at).min(self.credit);
        count_steps(forgotten, steps);
        self.credit -= forgotten;
    }
}
