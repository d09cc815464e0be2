//! The longest matches of a text, one after another, by the automaton without a table.

use lalrpop_dfa::interpret::interpret_counted;
use lalrpop_dfa::{Dfa, NfaIndex};
use lalrpop_hir::Steps;
use std::marker::Model;

// Finds the longest matches of a text, each in what the one before it leaves, by a run of the automaton for each. It takes no memory.
#[derive(Drop)]
pub(crate) struct DfaMatches<'text> {
    dfa: &'text Dfa,
    text: &'text str,
    // The rest of the text begins here.
    at: usize,
}

impl<'text> Model for DfaMatches<'text> {
    ghost use Rattle.std.specs.Str.{IsCharBoundary};
    ghost use Rattle.lalrpop_dense.specs.Matching.{Matching};

    ghost Value = { Matching };

    // Nothing is read ahead, so nothing is prepaid.
    ghost view = { λ s.
        record { automaton = s.dfa.now; text = s.text.now; at = s.at; spare = 0 } };

    ghost invariant = { λ s. IsCharBoundary s.text.now s.at };
}

impl<'text> DfaMatches<'text> {
    ghost use Rattle.std.specs.Prelude.{◌≡◌};
    ghost use Rattle.lalrpop_dense.specs.Internal.Blocks.{IsNextMatch, IsPrepaid};

    // All of the text is left.
    pub(crate) fn new(dfa: &'text Dfa, text: &'text str) -> DfaMatches<'text>
        ensures start { result ≡ record { automaton = dfa.now; text = text.now; at = 0; spare = 0 } }
    {
        DfaMatches { dfa, text, at: 0 }
    }

    // The longest nonempty prefix of the rest that some pattern matches, with the strongest pattern that matches it. From then
    // on the rest begins after it. `None` if no pattern matches any; then the rest stays. A step is counted for each character
    // read.
    #[inline(always)]
    pub(crate) fn next_match(&mut self, steps: &mut Steps) -> Option<(NfaIndex, &'text str)>
        ensures next { IsNextMatch self.old self.new result }
        ensures paid { IsPrepaid self.old self.new result steps.old steps.new }
    {
        let rest = &self.text[self.at..];
        match interpret_counted(self.dfa, rest, steps) {
            Some(found) => {
                self.at += found.1.len();
                Some(found)
            }
            None => None,
        }
    }
}
