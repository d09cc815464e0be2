//! Cutting a text to its end in one mode: tokens, skipped pieces and faults.

ghost use Rattle.std.specs.Prelude.{◌≡◌};

use crate::front::{pass_fault, piece_of, take_or_find};
use crate::piece::Piece;
use lalrpop_lexer::lexer::dfa::NfaIndex;
use lalrpop_lexer::lexer::nfa::Steps;
use lalrpop_lexer::{Lexer, LinearMatches};
use std::alloc::{AllocError, Global};
use std::marker::Model;

/// Cuts any text into pieces, from its beginning to its end. The pieces are slices of the text.
///
/// The text is read a block ahead, and the match right after a fault is kept for the next call. This takes linear time: a step is
/// counted for each character the automaton reads, as often as it reads it. Only contracts see the steps.
#[derive(Drop)]
#[derive_where(Debug)]
pub(crate) struct ModePieces<'text> {
    lexer: &'text Lexer,
    skips: &'text [bool],
    text: &'text str,
    // The rest of the text begins here.
    at: usize,
    // The match at the front of the rest, if it is known.
    kept: Option<(NfaIndex, &'text str)>,
    // What finds the matches after that one.
    matches: LinearMatches<'text>,
    #[derive_where(skip)]
    steps: Steps,
}

impl<'text> Model for ModePieces<'text> {
    ghost use Rattle.lalrpop_rules.specs.Internal.CutToEnd.{CutToEnd};
    ghost use Rattle.lalrpop_rules.specs.Internal.Code.{cut_code};
    ghost use Rattle.lalrpop_lexer.specs.Rules.{IsBuiltFrom};
    ghost use Rattle.lalrpop_rules.specs.Internal.Finding.{memo_of, IsWaiting};

    ghost Value = { CutToEnd };

    ghost coded = { cut_code };

    ghost view = { λ t.
        record {
          rules = t.lexer.now;
          skips = t.skips.now;
          text = t.text.now;
          at = t.at;
          memo = memo_of t.matches;
          steps = t.steps;
        } };

    ghost invariant = { λ t.
        IsBuiltFrom t.lexer.now.trees t.lexer.now.precedences t.matches.automaton
        × IsWaiting t.text.now t.at t.kept t.matches };
}

impl<'text> ModePieces<'text> {
    ghost use Rattle.std.specs.Prelude.{◌≤◌, ◌+◌, ◌*◌, length, drop, IfOk, IfSome};
    ghost use Rattle.std.specs.Str.{chars, IsCharBoundary};
    ghost use Rattle.lalrpop_lexer.specs.Matching.{open_states};
    ghost use Rattle.lalrpop_rules.specs.Internal.CutToEnd.{uncut, GivesPiece, IsSoughtAfterPiece, PassesTo};

    /// The whole text, before the first piece. All memory is taken here.
    pub(crate) fn new(
        alloc: Global,
        lexer: &'text Lexer,
        skips: &'text [bool],
        text: &'text str,
    ) -> Result<ModePieces<'text>, AllocError>
        ensures start { IfOk result (λ s. s ≡ uncut lexer.now skips.now text.now s.memo) }
        ensures unsought { IfOk result (λ s. s.memo.unsought ≡ length (chars text.now)) }
        ensures spare { IfOk result (λ s. s.memo.spare ≤ length (chars text.now)
            + length text.now + open_states lexer.now.automaton * (length text.now + 64)) }
    {
        let matches = lexer.matches(alloc, text)?;
        Ok(ModePieces {
            lexer,
            skips,
            text,
            at: 0,
            kept: None,
            matches,
            steps: Steps::new(),
        })
    }

    /// The next piece, or `None` at the end of the text. After a token, matches are sought from its end on. After a fault, the match
    /// after it may be found already.
    #[inline(always)]
    pub(crate) fn next_piece(&mut self) -> Option<Piece<'text>>
        ensures gives { GivesPiece self.old result self.new }
        ensures sought { IfSome result (λ piece. IsSoughtAfterPiece piece self.new) }
    {
        let start = self.at;
        let rest = &self.text[start..];
        if rest.is_empty() {
            return None;
        }
        match take_or_find(&mut self.kept, &mut self.matches, &mut self.steps) {
            Some(found) => {
                self.at += found.1.len();
                Some(piece_of(self.skips, found.0, found.1, start))
            }
            None => {
                let (slice, kept) = pass_fault(
                    self.text,
                    start,
                    &mut self.matches,
                    &mut self.steps,
                );
                self.kept = kept;
                self.at += slice.len();
                Some(Piece::Fault { start, slice })
            }
        }
    }

    /// From now on the rest begins at this place: what lies between was cut in other modes. The place isn't before the end of a match
    /// that is found already, as the one after a fault.
    pub(crate) fn pass_to(&mut self, at: usize)
        requires behind { self.old.at ≤ at }
        requires boundary { IsCharBoundary self.old.text at }
        requires sought { length (chars (drop at self.old.text)) ≤ self.old.memo.unsought }
        ensures passes { PassesTo self.old at self.new }
    {
        self.kept = None;
        self.matches.pass_to(at, &mut self.steps);
        self.at = at;
    }
}
