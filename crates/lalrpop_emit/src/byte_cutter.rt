//! A cut of a text of bytes that goes on, a piece at a time.
ghost use Rattle.std.specs.Prelude.{◌≡◌, ◌<◌, ◌≤◌, ℕ, List, length, IfOk, IfErr, OnOk, IfSome};
ghost use Rattle.lalrpop_rules.specs.Modes.{ModeRules};
ghost use Rattle.bajofeki_rules.specs.Stack.{start};
ghost use Rattle.lalrpop_emit.specs.ByteCut.{GivesBytePiece, HasMemoFor, IsCutOf, IsTooDeep, memo_words, place_of, stack_in};
ghost use Rattle.lalrpop_emit.specs.NumberedRules.{AreNumbersOf, NumberedRules};

use crate::driver::{State, Step, memo_size, next};
use crate::numbered_piece::NumberedPiece;
use crate::numbers::LexerNumbers;
use crate::run::Run;
use std::alloc::{AllocError, Global};
use std::fmt;
use std::marker::Model;
use thiserror::Error;

// How many modes may lie below the one on top, as in an emitted lexer.
const ROOM: usize = 1024;

const BEGINNING: State = State {
    at: 0,
    mode: 0,
    depth: 0,
};

/// The next token would put a mode on top of more than 1024 others.
///
/// ```
/// use lalrpop_emit::TooDeep;
///
/// let is_too_deep = matches!(cutter.next_piece(&numbers, text), Err(TooDeep));
/// ```
#[derive(Clone, Copy, Debug, PartialEq, Eq, Error)]
#[error("more than 1024 modes would lie below the one on top")]
pub struct TooDeep;

/// A cut of a text of bytes that goes on, a piece at a time, as calls of an emitted lexer's `next` do. It borrows neither the
/// numbers nor the text: each call is given both, and they are the same at each call.
///
/// Where no match comes it notes that, for all pieces that are still to be cut: its memo has a bit for each 64 bytes of the text and
/// each row of a mode that waits long, in which a token is open that may not end for 16 characters more. What new bits pay for is
/// proved of its parts, not of its calls.
///
/// ```
/// use lalrpop_emit::{ByteCutter, LexerNumbers};
///
/// let numbers = LexerNumbers::new(alloc, &rules)?;
/// let text = b"if \xFF";
/// let mut cutter = ByteCutter::new(alloc, &numbers, text.len())?;
/// while let Ok(Some(piece)) = cutter.next_piece(&numbers, text) {
///     let bytes = &text[piece.start..piece.start + piece.length]; // `if`, the space, and a fault of one byte
/// }
/// ```
#[derive(Drop)]
pub struct ByteCutter {
    state: State,
    below: Vec<u16>,
    run: Run,
    memo: Vec<u64>,
}

impl Model for ByteCutter {
    ghost use Rattle.lalrpop_emit.specs.ByteCut.{ByteCut};

    ghost Value = { ByteCut };

    ghost view = { λ c. record {
      state = c.state;
      below = c.below.items;
      run = c.run;
      memo = c.memo.items;
    } };
}

impl ByteCutter {
    /// Before the first piece of a text of `size` bytes. A text of another size is cut right too, but notes may be missing that
    /// make long texts quick.
    ///
    /// # Errors
    ///
    /// `AllocError` if a request for memory was refused.
    pub fn new(alloc: Global, numbers: &LexerNumbers, size: usize) -> Result<ByteCutter, AllocError>
        ensures place { IfOk result (λ cutter. place_of cutter ≡ 0) }
        ensures stack { IfOk result (λ cutter. stack_in cutter ≡ start) }
        ensures cut { IfOk result (λ cutter. (text : List ℕ) → IsCutOf numbers.now text cutter) }
        ensures memo { IfOk result (HasMemoFor numbers.now size) }
    {
        // What is known of the numbers.
        let _ = &numbers.tables;
        let mut cutter = ByteCutter {
            state: BEGINNING,
            below: vec![in alloc; 0u16; ROOM]?,
            run: Run::new(alloc),
            memo: Vec::new(alloc),
        };
        cutter.restart(numbers, size)?;
        Ok(cutter)
    }

    /// Goes back to before the first piece, of another text of `size` bytes, by these numbers or others. The memory that there is
    /// serves again, so a cutter for many short texts takes little time for each.
    ///
    /// ```
    /// use lalrpop_emit::{ByteCutter, LexerNumbers};
    ///
    /// let numbers = LexerNumbers::new(alloc, &rules)?;
    /// let mut cutter = ByteCutter::new(alloc, &numbers, 0)?;
    /// for line in text.split(|byte| *byte == b'\n') {
    ///     cutter.restart(&numbers, line.len())?;
    ///     while let Ok(Some(piece)) = cutter.next_piece(&numbers, line) {}
    /// }
    /// ```
    ///
    /// # Errors
    ///
    /// `AllocError` if more memory is needed, and was refused. Then the cutter is before the first piece too, but notes may be
    /// missing that make long texts quick.
    pub fn restart(&mut self, numbers: &LexerNumbers, size: usize) -> Result<(), AllocError>
        requires cut { (n : NumberedRules) × ((text : List ℕ) × IsCutOf n text self.old) }
        ensures place { place_of self.new ≡ 0 }
        ensures stack { stack_in self.new ≡ start }
        ensures cut { (text : List ℕ) → IsCutOf numbers.now text self.new }
        ensures memo { OnOk result (HasMemoFor numbers.now size self.new) }
    {
        // What is known of the numbers.
        let _ = &numbers.tables;
        self.state = BEGINNING;
        self.memo.clear();
        self.run.restart(size)?;
        self.memo.resize(memo_size(numbers, size), 0)
    }

    /// Where the next piece begins, in bytes.
    pub fn place(&self) -> usize
        ensures place { result ≡ place_of self.now }
    {
        self.state.at
    }

    /// The next piece, a token, skipped or not, or a fault, or `None` at the end of the text. `numbers` and `text` are those of
    /// the calls before.
    ///
    /// # Errors
    ///
    /// `TooDeep` if the piece would put a mode on top of more than 1024 others. So do all further calls.
    #[inline(always)]
    pub fn next_piece(
        &mut self,
        numbers: &LexerNumbers,
        text: &[u8],
    ) -> Result<Option<NumberedPiece>, TooDeep>
        requires cut { IsCutOf numbers.now text.now self.old }
        ensures cut { IsCutOf numbers.now text.now self.new }
        ensures gives { IfOk result (λ piece. (r : ModeRules) → AreNumbersOf r numbers.now
            → GivesBytePiece r numbers.now.kinds text.now self.old piece self.new) }
        ensures some { IfOk result (λ piece. IfSome piece (λ p.
            (p.start ≡ place_of self.old) × (place_of self.old < place_of self.new))) }
        ensures memo { memo_words self.new ≡ memo_words self.old }
        ensures too_deep { IfErr result (λ _. (r : ModeRules) → AreNumbersOf r numbers.now
            → IsTooDeep r numbers.now.kinds text.now self.old self.new) }
    {
        match next(
            numbers,
            text,
            &mut self.state,
            &mut self.below,
            &mut self.run,
            &mut self.memo,
        ) {
            Step::Piece(piece) => Ok(Some(piece)),
            Step::End => Ok(None),
            Step::TooDeep => Err(TooDeep),
        }
    }
}

// Where the next piece begins.
impl fmt::Debug for ByteCutter {
    fn fmt<W: fmt::Write>(&self, f: &mut fmt::Formatter<W>) -> fmt::Result {
        let place = self.place();
        write!(f, "ByteCutter({place})")
    }
}
