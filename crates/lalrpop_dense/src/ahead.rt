//! The matches of a text that are found ahead.

ghost use Rattle.std.specs.Prelude.{◌≡◌, ◌≢◌, ℕ, ◌+◌, ◌≤◌, [], length, List, Some, IfSome, IfNone};
ghost use Rattle.std.specs.Option.{option_map};
ghost use Rattle.std.specs.Str.{IsCharBoundary};
ghost use Rattle.lalrpop_hir.specs.Tree.{Tree};
ghost use Rattle.lalrpop_hir.specs.Prefix.{IsPrefix};
ghost use Rattle.lalrpop_hir.specs.Longest.{IsLongest};
ghost use Rattle.lalrpop_dense.specs.Leading.{AreAhead};
ghost use Rattle.lalrpop_dfa.specs.Dfa.{Row, Recognizes};
ghost use Rattle.lalrpop_dense.specs.Matching.{characters_of};
ghost use Rattle.lalrpop_dense.specs.Internal.Blocks.{bytes_of};

use crate::counting::{count_chars, count_steps};
use crate::dense::DenseDfa;
use crate::ends::TokenEnds;
use lalrpop_dfa::NfaIndex;
use lalrpop_hir::Steps;
use std::marker::Model;

/// A block is read if at least this many of its bytes may be read in vain.
pub(crate) const LEAST: usize = 32;

// A block has at most this many bytes.
const MOST: usize = 2048;

/// The rest of a text, with the matches that are found ahead in it: those of a block. They are handed out one after another.
#[derive(Debug, Drop)]
pub(crate) struct Ahead<'text> {
    dense: &'text DenseDfa,
    text: &'text str,
    // Where the rest begins, in bytes. The ends are those of the matches from there on.
    at: usize,
    ends: TokenEnds,
    // Whether blocks are read. If matches that were found ahead are passed over, none is read from then on, since the characters
    // of those would be read again, and were never counted.
    reads_blocks: bool,
    // How many bytes the next block has at most.
    block: usize,
}

// Forgets the ends up to this place, and those behind it too if none of them is there. Returns where the last of these is, or `from` if
// none is forgotten.
fn forget_ends(ends: &mut TokenEnds, from: usize, at: usize) -> usize
    ensures ahead { (d : List Row) (text : List ℕ)
        → AreAhead d text from ends.old → AreAhead d text at ends.new }
{
    let mut last = from;
    'forgetting: while last != at {
        let Some(found) = ends.next() else {
            return last;
        };
        last = found.end;
    }
    last
}

impl<'text> Model for Ahead<'text> {
    ghost use Rattle.lalrpop_dense.specs.Internal.Blocks.{Rest, IsReadAhead};

    ghost Value = { Rest };

    ghost view = { λ a. record { automaton = a.dense.now; text = a.text.now; at = a.at } };

    ghost invariant = { λ a. IsReadAhead a.dense.now a.text.now a.at a.ends };
}

impl<'text> Ahead<'text> {
    // All of the text is left.
    pub(crate) fn new(dense: &'text DenseDfa, text: &'text str) -> Ahead<'text>
        ensures start { result ≡ record { automaton = dense.now; text = text.now; at = 0 } }
    {
        Ahead {
            dense,
            text,
            at: 0,
            ends: TokenEnds::new(),
            reads_blocks: true,
            block: MOST,
        }
    }

    // What finds the matches.
    pub(crate) fn dense(&self) -> &'text DenseDfa
        ensures same { result.now ≡ self.now.automaton }
    {
        self.dense
    }

    // The whole text.
    pub(crate) fn text(&self) -> &'text str
        ensures same { result.now ≡ self.now.text }
    {
        self.text
    }

    // Where the rest begins, in bytes.
    pub(crate) fn offset(&self) -> usize
        ensures offset { result ≡ self.now.at }
        ensures boundary { IsCharBoundary self.now.text result }
    {
        self.at
    }

    // The rest.
    pub(crate) fn rest(&self) -> &'text str
        ensures rest { result.now ≡ bytes_of self.now }
    {
        &self.text[self.at..]
    }

    /// Hands out the match at the front of the rest, if it is found already. A step is counted for each of its characters.
    #[inline(always)]
    pub(crate) fn next_found(&mut self, steps: &mut Steps) -> Option<(NfaIndex, &'text str)>
        ensures answer { IfSome result (λ m. (ts : List Tree) (ps : List ℕ)
            → Recognizes self.old.automaton ts ps
            → IsLongest ts ps (bytes_of self.old) (Some (m.0, m.1.now))) }
        ensures prefix { IfSome result (λ m.
            IsPrefix m.1.now (bytes_of self.old) × (m.1.now ≢ [])) }
        ensures goes_on { IfSome result (λ m.
            self.new ≡ record self.old { at = self.old.at + length m.1.now }) }
        ensures stays { IfNone result (self.new ≡ self.old) }
        ensures boundary { IsCharBoundary self.new.text self.new.at }
        ensures counted { steps.new
            ≡ steps.old + characters_of (option_map (λ m. m.1.now) result) }
    {
        let Some(found) = self.ends.next() else {
            return None;
        };
        let slice = &self.text[self.at..found.end];
        self.at = found.end;
        count_chars(slice, steps);
        Some((found.index, slice))
    }

    /// Finds the matches of the next block of the rest, `limit` bytes at most. Returns how many bytes were read in vain after the last
    /// of them. A step is counted for each of these. The characters of a match are counted when it is handed out.
    pub(crate) fn read_block(&mut self, limit: usize, steps: &mut Steps) -> usize
        ensures same { self.new ≡ self.old }
        ensures limit { result ≤ limit }
        ensures counted { steps.new ≡ steps.old + result }
    {
        if !self.reads_blocks {
            return 0;
        }
        let bytes = limit.min(self.block);
        // The blocks after this one are larger, until they have the full size.
        self.block = self.block.saturating_mul(2).clamp(LEAST, MOST);
        if bytes < LEAST {
            return 0;
        }
        let ends = &mut self.ends;
        let vain = self
            .dense
            .find_ends(self.text, self.at, bytes, ends, &mut Steps::new());
        count_steps(vain, steps);
        vain
    }

    /// Passes a prefix of the rest. Matches that are found ahead are forgotten.
    pub(crate) fn pass(&mut self, prefix: &str)
        requires prefix { IsPrefix prefix.now (bytes_of self.old) }
        ensures passes { self.new
            ≡ record self.old { at = self.old.at + length prefix.now } }
    {
        // The rest is a text, so a prefix of it ends where a character does.
        let _rest = &self.text[self.at..];
        self.at += prefix.len();
        if self.ends.next().is_some() {
            self.ends.clear();
            self.reads_blocks = false;
        }
    }

    /// From now on the rest begins at this place. If a match that was found ahead ends there, those behind it are still ahead. Otherwise
    /// all are forgotten, and the next match is found without a block; the blocks after it begin small. So what is forgotten of a block
    /// isn't much longer than what was handed out before. Returns how many bytes the matches have that are forgotten.
    pub(crate) fn pass_to(&mut self, at: usize) -> usize
        requires boundary { IsCharBoundary self.old.text at }
        ensures passes { self.new ≡ record self.old { at = at } }
    {
        let last = forget_ends(&mut self.ends, self.at, at);
        if last != at {
            self.block = 0;
        }
        let forgotten = last.saturating_sub(self.at);
        self.at = at;
        forgotten
    }
}
