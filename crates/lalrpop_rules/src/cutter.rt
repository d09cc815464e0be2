//! Cutting a text in one mode at a time.

ghost use Rattle.std.specs.Prelude.{◌≡◌, ℕ, ◌<◌, ◌⊎◌, ◌≢◌, drop};
ghost use Rattle.lalrpop_rules.specs.Internal.Cutting.{CutsNext, IsSoughtHere, IsSoughtNext, Follows, actions_after};
ghost use Rattle.bajofeki_rules.specs.EnteredModes.{OneLeadsInto};

use crate::mode_pieces::ModePieces;
use crate::piece::Piece;
use crate::rule_lexer::RuleLexer;
use bajofeki_rules::Action;
use std::alloc::{AllocError, Global};
use std::marker::Model;

/// A text that is cut in one mode at a time.
#[derive(Debug, Drop)]
pub(crate) struct Cutter<'text> {
    lexer: &'text RuleLexer,
    text: &'text str,
    // The rest of the text begins here.
    at: usize,
    // The mode in which the next piece is cut.
    mode: usize,
    // What cuts the text in each mode. The one of the current mode goes along; each other is passed on to the rest when the
    // text is cut in its mode again.
    cuts: Vec<ModePieces<'text>>,
}

impl<'text> Model for Cutter<'text> {
    ghost use Rattle.lalrpop_rules.specs.Internal.ModeCode.{cutting_code};
    ghost use Rattle.lalrpop_rules.specs.Internal.Cutting.{Cutting, IsCutting, memo_in, steps_in};

    ghost Value = { Cutting };

    ghost coded = { cutting_code };

    ghost view = { λ t. record {
      rules = t.lexer.now;
      text = t.text.now;
      at = t.at;
      mode = t.mode;
      memo = memo_in t.mode t.cuts.items;
      steps = steps_in t.cuts.items;
    } };

    ghost invariant = { λ t. IsCutting t.lexer.now t.text.now t.at t.mode t.cuts.items };
}

impl<'text> Cutter<'text> {
    ghost use Rattle.std.specs.Prelude.{◌≤◌, ◌+◌, ◌*◌, length, IfOk};
    ghost use Rattle.std.specs.Str.{chars};
    ghost use Rattle.lalrpop_rules.specs.ModeCut.{open_in_all};

    /// The whole text, in mode 0.
    pub(crate) fn new(
        alloc: Global,
        lexer: &'text RuleLexer,
        text: &'text str,
    ) -> Result<Cutter<'text>, AllocError>
        requires some { 0 < lexer.now.modes }
        ensures start { IfOk result (λ c. c ≡ record {
          rules = lexer.now;
          text = text.now;
          at = 0;
          mode = 0;
          memo = c.memo;
          steps = 0;
        }) }
        ensures unsought { IfOk result (λ c. c.memo.unsought ≡ length (chars text.now)) }
        ensures spare { IfOk result (λ c. c.memo.spare
            ≤ lexer.now.modes * (length (chars text.now) + length text.now)
            + open_in_all lexer.now * (length text.now + 64)) }
    {
        let mut cuts = Vec::new(alloc);
        for mode in 0..lexer.modes() {
            let cut = ModePieces::new(alloc, lexer.lexer(mode), lexer.skips(), text)?;
            // A refused `push` hands the cut back, which `?` would have to convert.
            match cuts.push(cut) {
                Ok(()) => {}
                Err(_) => return Err(AllocError),
            }
        }
        Ok(Cutter {
            lexer,
            text,
            at: 0,
            mode: 0,
            cuts,
        })
    }

    /// The rest of the text.
    pub(crate) fn rest(&self) -> &'text str
        ensures rest { result.now ≡ drop self.now.at self.now.text }
    {
        &self.text[self.at..]
    }

    /// The piece at the front of the rest, in the mode, or `None` at the end of the text. From then on the rest begins after
    /// it.
    #[inline(always)]
    pub(crate) fn next_piece(&mut self) -> Option<Piece<'text>>
        ensures cuts { CutsNext self.old result self.new }
        ensures sought { IsSoughtNext result self.new }
    {
        match self.cuts[self.mode].next_piece() {
            Some(piece) => {
                self.at += piece.slice().len();
                Some(piece)
            }
            None => None,
        }
    }

    /// From now on the text is cut in this mode. If it is another one, no match after the beginning of the rest is found yet.
    #[inline(always)]
    pub(crate) fn follow(&mut self, mode: usize)
        requires there { mode < self.old.rules.modes }
        requires sought { (mode ≡ self.old.mode) ⊎ IsSoughtHere self.old }
        ensures follows { Follows self.old mode self.new }
    {
        if mode != self.mode {
            self.enter(mode);
        }
    }

    // The same for another mode.
    fn enter(&mut self, mode: usize)
        requires there { mode < self.old.rules.modes }
        requires other { mode ≢ self.old.mode }
        requires sought { IsSoughtHere self.old }
        ensures follows { Follows self.old mode self.new }
    {
        self.mode = mode;
        self.cuts[mode].pass_to(self.at);
    }

    /// What the rule of the piece does to the stack.
    #[inline(always)]
    pub(crate) fn actions(&self, piece: &Piece) -> &'text [Action]
        ensures actions { result.now ≡ actions_after self.now.rules.actions piece.now }
        ensures within { (m : ℕ) → OneLeadsInto result.now m → m < self.now.rules.modes }
    {
        match piece {
            Piece::Token(token) | Piece::Skipped(token) => self.lexer.actions(token.index),
            Piece::Fault { .. } => &[],
        }
    }
}
