//! The longest matches of a text, one after another, without a memo.

use crate::ahead::{Ahead, LEAST};
use crate::dense::DenseDfa;
use lalrpop_dfa::NfaIndex;
use lalrpop_hir::{Steps, char_count};
use std::marker::Model;

// At most this many bytes of a block are read: a greater credit isn't needed.
const BLOCK: usize = 2048;

// Finds the longest matches of a text, each in what the one before it leaves. It takes no memory.
//
// The text is read a block ahead, as long as that is paid for: each character of a match prepays a step, and a block is read if
// what is prepaid covers what may be read in vain after its last match. The characters of a match that is found ahead are counted
// when it is handed out, so that the steps counted and those that are prepaid are never fewer than those taken.
#[derive(Drop)]
pub(crate) struct Matches<'text> {
    ahead: Ahead<'text>,
    // How many steps are prepaid. Each character from the place `settled`, in bytes, to the rest prepays one more, so that handing
    // out a match takes no time for this.
    credit: usize,
    settled: usize,
}

impl<'text> Model for Matches<'text> {
    ghost use Rattle.lalrpop_dense.specs.Matching.{Matching};
    ghost use Rattle.lalrpop_dense.specs.Internal.Blocks.{IsSettled, prepaid_of};

    ghost Value = { Matching };

    ghost view = { λ s.
        record {
          automaton = s.ahead.automaton;
          text = s.ahead.text;
          at = s.ahead.at;
          spare = prepaid_of s.ahead.text s.credit s.settled s.ahead.at;
        } };

    ghost invariant = { λ s. IsSettled s.ahead.text s.credit s.settled s.ahead.at };
}

impl<'text> Matches<'text> {
    ghost use Rattle.std.specs.Prelude.{◌≡◌, ◌≢◌, ◌+◌, [], length};
    ghost use Rattle.std.specs.Str.{chars};
    ghost use Rattle.lalrpop_hir.specs.Prefix.{IsPrefix};
    ghost use Rattle.lalrpop_dense.specs.Matching.{rest_of};
    ghost use Rattle.lalrpop_dense.specs.Internal.Blocks.{IsNextMatch, IsPrepaid};

    // All of the text is left, and nothing is prepaid.
    pub(crate) fn new(dense: &'text DenseDfa, text: &'text str) -> Matches<'text>
        ensures start { result
            ≡ record { automaton = dense.now; text = text.now; at = 0; spare = 0 } }
    {
        Matches {
            ahead: Ahead::new(dense, text),
            credit: 0,
            settled: 0,
        }
    }

    // The longest nonempty prefix of the rest that some pattern matches, with the strongest pattern that matches it. From then
    // on the rest begins after it. `None` if no pattern matches any; then the rest stays. A step is counted for each character
    // read: for those of a match that was found ahead when it is handed out, and for the bytes that were read in vain after the
    // last match of a block at once.
    //
    // If at most n characters after a match leave it open, each character of a match pays for n + 2 steps, of which some are
    // prepaid.
    #[inline(always)]
    pub(crate) fn next_match(&mut self, steps: &mut Steps) -> Option<(NfaIndex, &'text str)>
        ensures next { IsNextMatch self.old self.new result }
        ensures paid { IsPrepaid self.old self.new result steps.old steps.new }
    {
        match self.ahead.next_found(steps) {
            Some(found) => Some(found),
            None => self.next_sought(steps),
        }
    }

    // What `next_match` returns where nothing is found ahead.
    #[inline(never)]
    fn next_sought(&mut self, steps: &mut Steps) -> Option<(NfaIndex, &'text str)>
        ensures next { IsNextMatch self.old self.new result }
        ensures paid { IsPrepaid self.old self.new result steps.old steps.new }
    {
        self.settle();
        if self.credit < LEAST {
            return self.next_alone(steps);
        }
        let vain = self.ahead.read_block(self.credit, steps);
        self.credit -= vain;
        match self.ahead.next_found(steps) {
            Some(found) => Some(found),
            None => self.next_alone(steps),
        }
    }

    // Adds what the characters before the rest prepay to the credit, unless that is enough for a block.
    fn settle(&mut self)
        ensures same { self.new ≡ self.old }
    {
        if self.credit >= BLOCK {
            return;
        }
        let at = self.ahead.offset();
        self.credit += char_count(&self.ahead.text()[self.settled..at]);
        self.settled = at;
    }

    // What `next_match` returns, by a run for this match alone.
    fn next_alone(&mut self, steps: &mut Steps) -> Option<(NfaIndex, &'text str)>
        ensures next { IsNextMatch self.old self.new result }
        ensures paid { IsPrepaid self.old self.new result steps.old steps.new }
    {
        let rest = self.ahead.rest();
        match self.ahead.dense().longest_counted(rest, steps) {
            Some(found) => {
                self.pass(found.1);
                Some(found)
            }
            None => None,
        }
    }

    // Passes a prefix of the rest. All its characters but one prepay a step.
    fn pass(&mut self, prefix: &str)
        requires prefix { IsPrefix prefix.now (rest_of self.old) }
        requires some { prefix.now ≢ [] }
        ensures passes { self.new
            ≡ record self.old { at = self.old.at + length prefix.now; spare = self.new.spare } }
        ensures prepays { self.new.spare + 1
            ≡ self.old.spare + length (chars prefix.now) }
    {
        self.ahead.pass(prefix);
        let at = self.ahead.offset();
        self.credit += char_count(&self.ahead.text()[self.settled..at]) - 1;
        self.settled = at;
    }
}
