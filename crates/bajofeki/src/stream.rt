//! A text that comes in chunks.

ghost use Rattle.std.specs.Prelude.{◌≡◌, ◌+◌, ◌-◌, ◌++◌, ◌<◌, ◌≤◌, ◌⊎◌, ℕ, Bool, List, [], None, true, false, length, take, drop, vec_len, IfSome, IfNone, IfOk, OnOk, OnErr};
ghost use Rattle.std.specs.Str.{IsCharBoundary, IsUtf8};
ghost use Rattle.std.specs.Borrow.{Bor};
ghost use Rattle.lalrpop_hir.specs.Tree.{Tree};
ghost use Rattle.lalrpop_rules.specs.Found.{MatchesAt, NoMatchBefore};
ghost use Rattle.lalrpop_rules.specs.Pieces.{IsPiece};
ghost use Rattle.lalrpop_rules.specs.Modes.{EachMode, ModeRules};
ghost use Rattle.bajofeki.specs.Internal.Kept.{IsFront, after_rule};
ghost use Rattle.bajofeki.specs.Internal.Noted.{IsCutter};
ghost use Rattle.bajofeki.specs.Internal.Parts.{IsPart, IsParted, text_in};
ghost use Rattle.bajofeki.specs.Internal.Held.{IsHeld};
ghost use Rattle.bajofeki.specs.Lexed.{BeginsLonger, placed};
ghost use Rattle.bajofeki.specs.Begun.{NoCharacter, IsBad};
ghost use Rattle.bajofeki.specs.Chunked.{nothing_come, GivesOrRefuses, BeginsFault, MayMatch};
ghost use Rattle.bajofeki.specs.Given.{item_by};

use crate::cutter::Cutter;
use crate::error::EditError;
use crate::found_ahead::FoundAhead;
use crate::given_piece::GivenPiece;
use crate::held_run::{HeldRun, is_open};
use crate::memo::Memo;
use crate::next_front::next_front;
use crate::parts::Part;
use crate::run::longest_settled;
use crate::walker::Walker;
use lalrpop_hir::Steps;
use lalrpop_lexer::Lexer;
use lalrpop_lexer::lexer::dfa::NfaIndex;
use lalrpop_rules::{ModeStack, RuleLexer};
use std::alloc::{AllocError, Global};
use std::fmt;
use std::marker::Model;

/// Cuts a text that comes in chunks by rules with modes, and gives each piece as soon as no later chunk can change it. However
/// the text is cut into chunks, the pieces are those of the whole text.
///
/// A text is any bytes. What isn't UTF-8 matches nothing, so it lies in a fault; the slice of a token is UTF-8. A character that the
/// end of a chunk cuts in two is held back.
///
/// It keeps what has come and is in no piece that was given. What was given is dropped when more comes, once it is as long as
/// what is left. A token or a fault that comes in many chunks is read on from where the last chunk ended, so short chunks cost
/// little.
///
/// ```
/// use bajofeki::Stream;
///
/// let mut chunks = Stream::new(alloc, &lexer);
/// chunks.feed(b"let x")?;
/// while let Some(piece) = chunks.next_piece()? {
///     let slice = chunks.slice(); // `let` and the space; but `x` may go on
/// }
/// chunks.feed(b"y = 1")?;
/// chunks.finish();
/// while let Some(piece) = chunks.next_piece()? {
///     let slice = chunks.slice(); // `xy`, and so on up to `1`
/// }
/// ```
#[derive(Drop)]
pub struct Stream<'rules> {
    lexer: &'rules RuleLexer,
    // The end of what has come.
    text: Vec<u8>,
    // Where the last piece begins in it; where it ends, if more has come since.
    last: usize,
    // How many bytes of it were given.
    given: usize,
    // A text in the rest, before which nothing matches, whatever comes.
    part: Part,
    // How many bytes were given in all.
    at: usize,
    stack: ModeStack,
    is_ended: bool,
    // What that text is cut with, and what its runs read in vain. None before the first call.
    cutter: Option<Cutter<'rules>>,
    // Tokens that are found ahead in that text.
    ahead: FoundAhead,
    // The run from its front, if a piece is held back.
    held: Option<HeldRun<'rules>>,
}

impl<'rules> Model for Stream<'rules> {
    ghost use Rattle.std.specs.Prelude.{◌<◌, ◌≤◌, ◌+◌, ◌-◌, length, take, drop, IfSome};
    ghost use Rattle.lalrpop_rules.specs.Modes.{EachMode, trees_in};
    ghost use Rattle.bajofeki.specs.Chunked.{Chunked};
    ghost use Rattle.bajofeki.specs.Internal.Ahead.{AreFound};
    ghost use Rattle.bajofeki.specs.Internal.ChunkCode.{chunked_code};
    ghost use Rattle.bajofeki.specs.Internal.Held.{IsHeld};
    ghost use Rattle.bajofeki.specs.Internal.Noted.{IsCutter};
    ghost use Rattle.bajofeki.specs.Internal.Parts.{IsPart, text_in};

    ghost Value = { Chunked };

    ghost coded = { chunked_code };

    ghost view = { λ c. record {
      rules = c.lexer.now;
      last = take (c.given - c.last) (drop c.last c.text.items);
      rest = drop c.given c.text.items;
      at = c.at;
      stack = c.stack;
      is_ended = c.is_ended;
    } };

    ghost invariant = { λ c. (c.last ≤ c.given) × (c.given ≤ length c.text.items)
        × EachMode (λ m. m < c.lexer.now.modes) c.stack
        × IsPart (trees_in c.lexer.now c.stack.mode) (drop c.given c.text.items) c.part
        × IfSome c.cutter (λ t. IsCutter c.lexer.now t (c.at + c.part.from)
        (text_in (drop c.given c.text.items) c.part))
        × AreFound c.lexer.now c.stack.mode (drop c.given c.text.items) c.part c.ahead
        × IfSome c.held (IsHeld c.lexer.now c.stack.mode
        (text_in (drop c.given c.text.items) c.part)) };
}

// Whether nothing matches at the front of a text, whatever comes after it: no character, if it is the last.
fn nothing_matches(alloc: Global, lexer: &Lexer, text: &str, is_last: bool) -> bool
    ensures yes { result ≡ true → (tail : List ℕ) → (is_last ≡ true → NoCharacter tail)
        → NoMatchBefore lexer.now.trees (text.now ++ tail) 1 }
    ensures no { result ≡ false → MatchesAt lexer.now.trees text.now 0
        ⊎ ((is_last ≡ false) × BeginsLonger lexer.now.trees text.now) }
{
    let walker = Walker::of(lexer.dense());
    let found = longest_settled(
        &walker,
        &mut Memo::new(alloc),
        0,
        0,
        text,
        &mut Steps::new(),
    );
    if found.longest.is_some() {
        return false;
    }
    is_last || found.reach <= text.len()
}

// Does what a token of the rule does to the stack. A fault does nothing.
fn act_by(
    lexer: &RuleLexer,
    rule: Option<NfaIndex>,
    stack: &mut ModeStack,
) -> Result<(), AllocError>
    ensures acted { OnOk result (stack.new ≡ after_rule lexer.now.actions rule stack.old) }
    ensures there { EachMode (λ m. m < lexer.now.modes) stack.old
        → EachMode (λ m. m < lexer.now.modes) stack.new }
    ensures refused { OnErr result (stack.new ≡ stack.old) }
{
    match rule {
        Some(index) => {
            let actions = lexer.actions(index);
            if actions.is_empty() {
                return Ok(());
            }
            stack.act_all(actions)
        }
        None => Ok(()),
    }
}

// Whether the rule is skipped. A fault isn't.
fn is_skipped(lexer: &RuleLexer, rule: Option<NfaIndex>) -> bool
    ensures skipped { (ts : List Tree) (ps text : List ℕ) (at : ℕ) (slice : Bor (List ℕ))
        → IsFront ts ps text rule slice.now
        → IsPiece ts ps lexer.now.skips text 0 (placed 0 (item_by rule result at slice)) }
    ensures fault { IfNone rule (result ≡ false) }
{
    match rule {
        Some(index) => lexer.is_skipped(index),
        None => false,
    }
}

// The index of the rule as a number.
fn number_of(rule: Option<NfaIndex>) -> Option<usize>
    ensures same { result ≡ rule }
{
    match rule {
        Some(index) => Some(index.index()),
        None => None,
    }
}

// Forgets what runs read in vain, since they may go on in a text of which more has come.
fn forget(alloc: Global, cutter: &mut Option<Cutter<'_>>)
    ensures right { (r : ModeRules) (at at2 : ℕ) (text text2 : List ℕ)
        → IfSome cutter.old (λ c. IsCutter r c at text)
        → IfSome cutter.new (λ c. IsCutter r c at2 text2) }
{
    if let Some(kept) = cutter {
        kept.forget(alloc);
    }
}

// Goes on in the text that is left of the part after a piece of this size, or else in the one at the front of what is left. Then what
// runs read in vain is forgotten.
fn go_past(
    alloc: Global,
    size: usize,
    left: &[u8],
    part: &mut Part,
    cutter: &mut Option<Cutter<'_>>,
)
    ensures part { (ts : List Tree) (bytes : List ℕ) → left.now ≡ drop size bytes
        → IsParted bytes part.old → part.old.from ≤ size
        → (size ≤ part.old.ends → IsCharBoundary (text_in bytes part.old) (size - part.old.from))
        → IsPart ts left.now part.new }
    ensures from { part.new.from ≡ 0 }
    ensures text { (bytes : List ℕ) → left.now ≡ drop size bytes → IsParted bytes part.old
        → part.old.from ≡ 0 → size ≤ part.old.ends
        → text_in left.now part.new ≡ drop size (text_in bytes part.old) }
    ensures cutter { (r : ModeRules) (at : ℕ) (bytes : List ℕ) → left.now ≡ drop size bytes
        → IsParted bytes part.old → part.old.from ≤ size
        → IfSome cutter.old (λ c. IsCutter r c (at + part.old.from) (text_in bytes part.old))
        → IfSome cutter.new (λ c. IsCutter r c (at + size) (text_in left.now part.new)) }
{
    match part.after(size) {
        Some(same) => *part = same,
        None => {
            *part = Part::of(left);
            forget(alloc, cutter);
        }
    }
}

// Drops what was given, unless it is less than what is left: so no more bytes are moved than are dropped.
fn drop_given(text: &mut Vec<u8>, given: &mut usize)
    requires within { given.old ≤ length text.old.items }
    ensures left { drop given.new text.new.items ≡ drop given.old text.old.items }
    ensures within { given.new ≤ length text.new.items }
{
    let left = text.len() - *given;
    if *given < left {
        return;
    }
    text.copy_within(*given.., 0);
    text.truncate(left);
    *given = 0;
}

impl<'rules> Stream<'rules> {
    /// Nothing has come yet.
    pub fn new(alloc: Global, lexer: &'rules RuleLexer) -> Stream<'rules>
        ensures nothing { result ≡ nothing_come lexer.now }
    {
        // There is a mode in which the text begins.
        let _modes = lexer.modes();
        Stream {
            lexer,
            text: Vec::new(alloc),
            last: 0,
            given: 0,
            part: Part::of(&[]),
            at: 0,
            stack: ModeStack::new(alloc),
            is_ended: false,
            cutter: None,
            ahead: FoundAhead::new(),
            held: None,
        }
    }

    /// More of the text. After `finish` none should come: what was given since then needn't be a piece of the longer text.
    ///
    /// # Errors
    ///
    /// `AllocError` if a request for memory was refused. Then nothing has changed.
    pub fn feed(&mut self, chunk: &[u8]) -> Result<(), AllocError>
        ensures fed { OnOk result (self.new
            ≡ record self.old { last = []; rest = self.old.rest ++ chunk.now }) }
        ensures refused { OnErr result (self.new ≡ self.old) }
    {
        self.text.extend_from_slice(chunk)?;
        forget(*self.text.allocator(), &mut self.cutter);
        self.part.read_on(&self.text[self.given..]);
        self.ahead.forget();
        drop_given(&mut self.text, &mut self.given);
        self.last = self.given;
        Ok(())
    }

    /// Whether `finish` was called.
    pub fn is_ended(&self) -> bool
        ensures ended { result ≡ self.now.is_ended }
    {
        self.is_ended
    }

    /// No more of the text comes.
    pub fn finish(&mut self)
        ensures ended { self.new ≡ record self.old { is_ended = true } }
    {
        self.is_ended = true;
    }

    /// The number of the mode in which the next piece is read.
    pub fn mode(&self) -> usize
        ensures mode { result ≡ self.now.stack.mode }
    {
        self.stack.top()
    }

    /// What has come and is in no piece that was given.
    pub fn rest(&self) -> &[u8]
        ensures rest { result.now ≡ self.now.rest }
    {
        &self.text[self.given..]
    }

    /// The piece that `next_piece` gave last. It is empty before the first one, and once more has come. A token's slice is UTF-8.
    pub fn slice(&self) -> &[u8]
        ensures slice { result.now ≡ self.now.last }
    {
        &self.text[self.last..self.given]
    }

    /// Whether a fault begins at the front of what has come and is in no piece, whatever comes after it. How long the fault is
    /// may not be known yet.
    pub fn begins_fault(&self) -> bool
        ensures yes { result ≡ true → BeginsFault self.now }
        ensures no { result ≡ false → (self.now.rest ≡ []) ⊎ MayMatch self.now }
    {
        let rest = &self.text[self.given..];
        if rest.is_empty() {
            return false;
        }
        if self.part.from > 0 {
            return true;
        }
        let text = self.part.text(rest);
        let mode = self.stack.top();
        let is_last = self.is_ended || self.part.is_bad;
        if !is_last && is_open(self.lexer, mode, text, &self.held) {
            return false;
        }
        let lexer = self.lexer.lexer(mode);
        nothing_matches(*self.text.allocator(), lexer, text, is_last)
    }

    /// The next piece, if no later chunk can change it; none if all that has come was given, or if what comes may still change
    /// it. After `finish` nothing comes, so all that is left is given.
    ///
    /// # Errors
    ///
    /// `OutOfMemory` if a request for memory was refused, or `TooLarge` if 2^64 bytes or more have come, since places are counted
    /// in 64 bits. Then nothing has changed.
    pub fn next_piece(&mut self) -> Result<Option<GivenPiece>, EditError>
        ensures gives { GivesOrRefuses self.old result self.new }
        ensures fault { IfOk result (λ found.
            IfSome found (λ piece. IfNone piece.rule (piece.is_skipped ≡ false))) }
    {
        let rest = &self.text[self.given..];
        if self.at.checked_add(rest.len()).is_none() {
            return Err(EditError::TooLarge);
        }
        let alloc = *self.text.allocator();
        let mode = self.stack.top();
        let found = next_front(
            alloc,
            self.lexer,
            &mut self.cutter,
            &mut self.held,
            &mut self.ahead,
            &mut self.part,
            mode,
            self.at,
            rest,
            self.is_ended,
        )?;
        let Some(piece) = found else {
            return Ok(None);
        };
        let Ok(()) = act_by(self.lexer, piece.rule, &mut self.stack) else {
            self.ahead.forget();
            return Err(EditError::OutOfMemory);
        };
        self.ahead.pass(piece.size, self.stack.top() == mode);
        self.held = None;
        let start = self.at;
        self.at = start + piece.size;
        self.last = self.given;
        self.given += piece.size;
        let left = &self.text[self.given..];
        go_past(alloc, piece.size, left, &mut self.part, &mut self.cutter);
        Ok(Some(GivenPiece {
            rule: number_of(piece.rule),
            is_skipped: is_skipped(self.lexer, piece.rule),
            start,
        }))
    }
}

// How many bytes were given.
impl<'rules> fmt::Debug for Stream<'rules> {
    fn fmt<W: fmt::Write>(&self, f: &mut fmt::Formatter<W>) -> fmt::Result {
        write!(f, "Stream({} bytes given)", self.at)
    }
}
