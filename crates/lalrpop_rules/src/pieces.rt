//! Cutting a text to its end by rules with modes.

ghost use Rattle.std.specs.Prelude.{◌≡◌, ◌<◌, IfOk, OnErr, OnSome};
ghost use Rattle.lalrpop_rules.specs.Internal.CutToEnd.{steps_for};
ghost use Rattle.lalrpop_rules.specs.Internal.Cutting.{HasAtMost};
ghost use Rattle.lalrpop_rules.specs.ModeCut.{uncut, left_text, pieces_left, GivesModePiece, GivesPieceOrError};
ghost use Rattle.bajofeki_rules.specs.Stack.{start};

use crate::cutter::Cutter;
use crate::mode_stack::ModeStack;
use crate::piece::Piece;
use std::alloc::AllocError;
use std::iter::FusedIterator;
use std::marker::Model;

/// Cuts any text into pieces, from its beginning to its end, and keeps the stack of modes. The pieces are slices of the text.
///
/// As an iterator it returns each piece as `Ok`. Where a request for memory was refused it returns one `Err`, and from then on
/// `None`, so that a `for` ends. `next_piece` can still be asked for that piece.
///
/// This takes linear time. A step is counted for each character an automaton reads, as often as it reads it. Only contracts see the
/// steps.
///
/// ```
/// for piece in lexer.pieces(alloc, "a /* b */")? {
///     match piece {
///         Ok(Piece::Token(token)) => println!(rt; "{}", token.slice)?,
///         Ok(_) => {}
///         Err(error) => return Err(error.into()),
///     }
/// }
/// ```
#[derive(Debug, Drop)]
pub struct Pieces<'text> {
    cutter: Cutter<'text>,
    stack: ModeStack,
    // No rule has more actions.
    most: usize,
    // For `next`: it has returned an error.
    is_over: bool,
}

impl<'text> Model for Pieces<'text> {
    ghost use Rattle.lalrpop_rules.specs.ModeCut.{ModeCut};
    ghost use Rattle.lalrpop_rules.specs.Internal.ModeCode.{cut_code};
    ghost use Rattle.lalrpop_rules.specs.Internal.Cutting.{IsGoing};
    ghost use Rattle.lalrpop_rules.specs.Internal.CutToEnd.{steps_for};

    ghost Value = { ModeCut };

    ghost coded = { cut_code };

    ghost view = { λ t. record {
      rules = t.cutter.rules;
      text = t.cutter.text;
      at = t.cutter.at;
      stack = t.stack;
      steps = t.cutter.steps;
      steps_left = steps_for t.cutter.memo;
      is_over = t.is_over;
    } };

    ghost invariant = { λ t. IsGoing t.cutter t.stack t.most };
}

impl<'text> Pieces<'text> {
    // The whole text, before the first piece.
    pub(crate) fn new(cutter: Cutter<'text>, stack: ModeStack, most: usize) -> Pieces<'text>
        requires first { stack ≡ start }
        requires some { 0 < cutter.rules.modes }
        requires most { HasAtMost most cutter.rules.actions }
        requires uncut { (cutter.at ≡ 0) × (cutter.mode ≡ 0) × (cutter.steps ≡ 0) }
        ensures start { result ≡ uncut cutter.entry.rules cutter.entry.text
            (steps_for cutter.entry.memo) }
    {
        Pieces {
            cutter,
            stack,
            most,
            is_over: false,
        }
    }

    /// The rest of the text, after the last piece.
    pub fn rest(&self) -> &'text str
        ensures rest { result.now ≡ left_text self.now }
    {
        self.cutter.rest()
    }

    /// The stack of modes after the last piece.
    ///
    /// ```
    /// let mut pieces = lexer.pieces(alloc, text)?;
    /// while let Some(piece) = pieces.next_piece()? {
    ///     let mode = lexer.mode_names()[pieces.stack().top()].as_str();
    ///     println!(rt; "{:?}, then {mode}", piece.slice())?;
    /// }
    /// ```
    pub fn stack(&self) -> &ModeStack
        ensures stack { result.now ≡ self.now.stack }
    {
        &self.stack
    }

    /// The piece at the front of the rest by the rules of the mode on top, or `None` at the end of the text. Then the rest
    /// begins after it, and the actions of its rule are done.
    ///
    /// # Errors
    ///
    /// `AllocError` if a request for memory was refused. Then nothing has changed. It is requested before the piece is cut, for
    /// as many modes more as some rule has actions.
    #[inline(always)]
    pub fn next_piece(&mut self) -> Result<Option<Piece<'text>>, AllocError>
        ensures gives { IfOk result (λ piece. GivesModePiece self.old piece self.new) }
        ensures refused { OnErr result (self.new ≡ self.old) }
    {
        // Where no rule has actions, the stack stays as it is.
        if self.most == 0 {
            return Ok(self.cutter.next_piece());
        }
        match self.stack.cut_piece(&mut self.cutter, self.most) {
            Ok(Some(piece)) => {
                self.cutter.follow(self.stack.top());
                Ok(Some(piece))
            }
            Ok(None) => Ok(None),
            Err(error) => Err(error),
        }
    }

    // What `next` returns. At the end of the text no memory is requested.
    fn piece_or_error(&mut self) -> Option<Result<Piece<'text>, AllocError>>
        ensures gives { GivesPieceOrError self.old result self.new }
        ensures goes { OnSome result (pieces_left self.new < pieces_left self.old) }
    {
        if self.is_over || self.rest().is_empty() {
            return None;
        }
        match self.next_piece() {
            Ok(Some(piece)) => Some(Ok(piece)),
            Ok(None) => None,
            Err(error) => {
                self.is_over = true;
                Some(Err(error))
            }
        }
    }
}

impl<'text> Iterator for Pieces<'text> {
    ghost use Rattle.std.specs.Iterator.{at_most};
    ghost use Rattle.lalrpop_rules.specs.ModeCut.{pieces_left, GivesPieceOrError};

    type Item = Result<Piece<'text>, AllocError>;

    ghost next_gives = { GivesPieceOrError };

    ghost remaining = { λ s. at_most (pieces_left s) };

    fn next(&mut self) -> Option<Result<Piece<'text>, AllocError>> {
        self.piece_or_error()
    }
}

impl<'text> FusedIterator for Pieces<'text> {}
