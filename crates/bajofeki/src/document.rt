//! A text with its pieces, which is edited.

ghost use Rattle.std.specs.Prelude.{◌≡◌, ◌≢◌, ◌<◌, ◌≤◌, ◌+◌, ◌↔◌, ℕ, List, [], ◌∷◌, length, string_bytes, string_len, string_capacity, IfOk, OnOk, IfErr, OnErr, IfSome, IfNone, IsSome, IsTrue};
ghost use Rattle.std.specs.List.{replace_range};
ghost use Rattle.std.specs.Str.{IsCharBoundary};
ghost use Rattle.bajofeki_rules.specs.Position.{position_of};
ghost use Rattle.lalrpop_rules.specs.declared.piece.Piece.{Piece as PieceValue};
ghost use Rattle.bajofeki.specs.Lexed.{ArePiecesIn, ArePiecesOf, FirstReaches, IsRange, IsChange, IsEarliest, IsEditError, replaced};
ghost use Rattle.bajofeki.specs.Costs.{IsPaidFor};
ghost use Rattle.bajofeki.specs.Internal.BlockPlaces.{AreCounted};
ghost use Rattle.bajofeki.specs.Internal.Blocks.{AreBlocksOf};
ghost use Rattle.bajofeki.specs.Internal.Cutting.{IsCutError};

use crate::block::Block;
use crate::change::Change;
use crate::edit::cut_anew;
use crate::error::EditError;
use crate::lines::{offset_in, position_in};
use crate::pieces::{piece_holding, pieces_holding};
use crate::whole::whole_blocks;
use lalrpop_hir::Steps;
use lalrpop_lexer::Position;
use lalrpop_rules::{Piece, RuleLexer};
use std::alloc::{AllocError, Global};
use std::fmt;
use std::marker::Model;
use std::ops::Range;

// Whether the range is one of whole characters of the text.
fn is_range(text: &str, range: &Range<usize>) -> bool
    ensures { IsTrue result ↔ IsRange text.now range.now.start range.now.end }
{
    range.start <= range.end
        && text.is_char_boundary(range.start)
        && text.is_char_boundary(range.end)
}

// Puts bytes of a text back. There is room for them.
fn put_back(text: &mut String, from: usize, to: usize, gone: &str)
    requires order { from ≤ to }
    requires begins { IsCharBoundary (string_bytes text.old) from }
    requires ends { IsCharBoundary (string_bytes text.old) to }
    requires room { string_len text.old + length gone.now ≤ string_capacity text.old }
    ensures bytes { string_bytes text.new ≡ replace_range (string_bytes text.old) from to gone.now }
{
    match text.replace_range(from..to, gone) {
        Ok(()) => {}
        Err(_) => unreachable!(),
    }
}

// Replaces the range of the text, and cuts anew what that changes of its blocks. On an error both are as they were.
fn edit_parts(
    alloc: Global,
    lexer: &RuleLexer,
    text: &mut String,
    blocks: &mut Vec<Block>,
    range: &Range<usize>,
    new: &str,
    steps: &mut Steps,
) -> Result<Change, EditError>
    requires range { IsRange (string_bytes text.old) range.now.start range.now.end }
    requires blocks { AreBlocksOf lexer.now (string_bytes text.old) blocks.old.items }
    requires counted { AreCounted (string_bytes text.old) blocks.old.items }
    ensures text { OnOk result (string_bytes text.new
        ≡ replaced (string_bytes text.old) range.now.start range.now.end new.now) }
    ensures blocks { OnOk result (AreBlocksOf lexer.now (string_bytes text.new) blocks.new.items) }
    ensures counted { OnOk result (AreCounted (string_bytes text.new) blocks.new.items) }
    ensures change { IfOk result (IsChange
        (record { rules = lexer.now; text = string_bytes text.old })
        (record { rules = lexer.now; text = string_bytes text.new })) }
    ensures earliest { IfOk result (IsEarliest
        (record { rules = lexer.now; text = string_bytes text.old })
        (record { rules = lexer.now; text = string_bytes text.new })
        range.now.start range.now.end (length new.now)) }
    ensures first { IfOk result (FirstReaches
        (record { rules = lexer.now; text = string_bytes text.old }) range.now.start) }
    ensures cost { IfOk result (λ change. IsPaidFor
        (record { rules = lexer.now; text = string_bytes text.new }) change steps.old steps.new) }
    ensures never_falls { steps.old ≤ steps.new }
    ensures same_text { OnErr result (string_bytes text.new ≡ string_bytes text.old) }
    ensures same_blocks { OnErr result (blocks.new.items ≡ blocks.old.items) }
    ensures error { IfErr result (IsCutError lexer.now
        (replaced (string_bytes text.old) range.now.start range.now.end new.now)) }
{
    let gone = String::from_str(alloc, &text[range.start..range.end])?;
    // So neither the change nor its undoing can be refused.
    text.reserve(new.len())?;
    text.replace_range(range.start..range.end, new)?;
    match cut_anew(
        alloc,
        lexer,
        text,
        blocks,
        range.start,
        range.end,
        new.len(),
        steps,
    ) {
        Ok(change) => Ok(change),
        Err(error) => {
            put_back(text, range.start, range.start + new.len(), &gone);
            Err(error)
        }
    }
}

// Puts a text where there is none, and cuts it whole. On an error nothing has changed.
fn first_text(
    alloc: Global,
    lexer: &RuleLexer,
    text: &mut String,
    blocks: &mut Vec<Block>,
    range: &Range<usize>,
    new: &str,
) -> Result<Change, EditError>
    requires none { blocks.old.items ≡ [] }
    requires range { IsRange (string_bytes text.old) range.now.start range.now.end }
    requires blocks { AreBlocksOf lexer.now (string_bytes text.old) blocks.old.items }
    ensures text { OnOk result (string_bytes text.new
        ≡ replaced (string_bytes text.old) range.now.start range.now.end new.now) }
    ensures blocks { OnOk result (AreBlocksOf lexer.now (string_bytes text.new) blocks.new.items) }
    ensures counted { OnOk result (AreCounted (string_bytes text.new) blocks.new.items) }
    ensures change { IfOk result (IsChange
        (record { rules = lexer.now; text = string_bytes text.old })
        (record { rules = lexer.now; text = string_bytes text.new })) }
    ensures earliest { IfOk result (IsEarliest
        (record { rules = lexer.now; text = string_bytes text.old })
        (record { rules = lexer.now; text = string_bytes text.new })
        range.now.start range.now.end (length new.now)) }
    ensures first { IfOk result (FirstReaches
        (record { rules = lexer.now; text = string_bytes text.old }) range.now.start) }
    ensures same_text { OnErr result (string_bytes text.new ≡ string_bytes text.old) }
    ensures same_blocks { OnErr result (blocks.new.items ≡ blocks.old.items) }
    ensures error { IfErr result (IsCutError lexer.now
        (replaced (string_bytes text.old) range.now.start range.now.end new.now)) }
{
    let whole = whole_blocks(alloc, lexer, new)?;
    text.push_str(new)?;
    *blocks = whole.blocks;
    Ok(Change {
        first: 0,
        removed: 0,
        inserted: whole.count,
        start: 0,
        old_end: 0,
        new_end: new.len(),
    })
}

/// A text with its pieces by rules with modes, which stay those of the text whatever is edited. Beside the text it keeps 12 bytes
/// for each piece.
///
/// An edit cuts anew from the first piece that depends on what is replaced up to the first place after it where an old piece
/// begins in the same modes; all other pieces are kept. How far a piece depends is how far the automaton read to find it: a comment
/// that is never closed, for one, makes the piece at its beginning depend on the end of the text, so each edit after it cuts from
/// there.
///
/// ```
/// use bajofeki::Document;
///
/// let mut text = Document::new(alloc, &lexer, "let x = 1")?;
/// let change = text.edit(alloc, 4..5, "yz")?; // "let yz = 1"; bytes `change.start..change.new_end` are to be painted anew
/// let now = text.piece_at(4); // `Some` of the token "yz"
/// let anew = text.pieces(alloc, change.start..change.new_end)?; // those that were cut anew: the space and "yz"
/// ```
#[derive(Drop)]
pub struct Document<'rules> {
    lexer: &'rules RuleLexer,
    text: String,
    blocks: Vec<Block>,
}

impl<'rules> Model for Document<'rules> {
    ghost use Rattle.std.specs.Prelude.{string_bytes};
    ghost use Rattle.bajofeki.specs.Lexed.{Lexed};
    ghost use Rattle.bajofeki.specs.Internal.Code.{lexed_code};
    ghost use Rattle.bajofeki.specs.Internal.BlockPlaces.{AreCounted};
    ghost use Rattle.bajofeki.specs.Internal.Blocks.{AreBlocksOf};

    ghost Value = { Lexed };

    ghost coded = { lexed_code };

    ghost view = { λ t. record { rules = t.lexer.now; text = string_bytes t.text } };

    ghost invariant = { λ t. AreBlocksOf t.lexer.now (string_bytes t.text) t.blocks.items
        × AreCounted (string_bytes t.text) t.blocks.items };
}

impl<'rules> Document<'rules> {
    /// The text with its pieces. It is put into an empty text by `edit`, which cuts it whole.
    ///
    /// # Errors
    ///
    /// `TooLarge` or `OutOfMemory`, as for an edit.
    pub fn new(
        alloc: Global,
        lexer: &'rules RuleLexer,
        text: &str,
    ) -> Result<Document<'rules>, EditError>
        ensures lexed { IfOk result (λ l. l ≡ record { rules = lexer.now; text = text.now }) }
        ensures error { IfErr result
            (IsEditError (record { rules = lexer.now; text = [] }) 0 0 text.now) }
    {
        let mut lexed = Document {
            lexer,
            text: String::new(alloc),
            blocks: Vec::new(alloc),
        };
        match lexed.edit(alloc, 0..0, text) {
            Ok(_) => Ok(lexed),
            Err(error) => Err(error),
        }
    }

    /// The text.
    pub fn text(&self) -> &str
        ensures text { result.now ≡ self.now.text }
    {
        self.text.as_str()
    }

    /// The rules.
    pub fn lexer(&self) -> &'rules RuleLexer
        ensures rules { result.now ≡ self.now.rules }
    {
        self.lexer
    }

    /// Replaces a range of the text, in bytes, and cuts anew what that changes of its pieces.
    ///
    /// # Errors
    ///
    /// `NoBoundary` if the range isn't one of whole characters of the text; otherwise `TooLarge` if the new text would have
    /// 4,294,967,295 bytes or more, or there are as many rules; or `OutOfMemory`. Then nothing has changed.
    pub fn edit(
        &mut self,
        alloc: Global,
        range: Range<usize>,
        new: &str,
    ) -> Result<Change, EditError>
        ensures edited { OnOk result (self.new
            ≡ record self.old { text = replaced self.old.text range.start range.end new.now }) }
        ensures range { OnOk result (IsRange self.old.text range.start range.end) }
        ensures change { IfOk result (IsChange self.old self.new) }
        ensures earliest { IfOk result
            (IsEarliest self.old self.new range.start range.end (length new.now)) }
        ensures first { IfOk result (FirstReaches self.old range.start) }
        ensures refused { OnErr result (self.new ≡ self.old) }
        ensures error { IfErr result (IsEditError self.old range.start range.end new.now) }
    {
        if self.blocks.is_empty() && is_range(&self.text, &range) {
            return first_text(
                alloc,
                self.lexer,
                &mut self.text,
                &mut self.blocks,
                &range,
                new,
            );
        }
        self.edit_counted(alloc, range, new, &mut Steps::new())
    }

    /// The same, and counts a step for each character that is read, as often as it is read. What a run reads in vain is noted at each
    /// 64th byte, so for given rules the steps are linear in what is cut anew and read past it. Only contracts see them.
    ///
    /// # Errors
    ///
    /// As for `edit`.
    pub fn edit_counted(
        &mut self,
        alloc: Global,
        range: Range<usize>,
        new: &str,
        steps: &mut Steps,
    ) -> Result<Change, EditError>
        ensures edited { OnOk result (self.new
            ≡ record self.old { text = replaced self.old.text range.start range.end new.now }) }
        ensures range { OnOk result (IsRange self.old.text range.start range.end) }
        ensures change { IfOk result (IsChange self.old self.new) }
        ensures earliest { IfOk result
            (IsEarliest self.old self.new range.start range.end (length new.now)) }
        ensures first { IfOk result (FirstReaches self.old range.start) }
        ensures cost { IfOk result (λ change. IsPaidFor self.new change steps.old steps.new) }
        ensures never_falls { steps.old ≤ steps.new }
        ensures refused { OnErr result (self.new ≡ self.old) }
        ensures error { IfErr result (IsEditError self.old range.start range.end new.now) }
    {
        if !is_range(&self.text, &range) {
            return Err(EditError::NoBoundary);
        }
        edit_parts(
            alloc,
            self.lexer,
            &mut self.text,
            &mut self.blocks,
            &range,
            new,
            steps,
        )
    }

    /// The pieces that hold a byte of the range, in order; one that the range cuts is given whole. Of an empty range, and after the
    /// text, there are none; all of them hold a byte of `0..text.text().len()`. What it takes is a sum over the blocks, as for
    /// `position`, and a walk along those with a byte of the range.
    ///
    /// ```
    /// let visible = text.pieces(alloc, 0..80)?;
    /// ```
    ///
    /// # Errors
    ///
    /// `AllocError` if a request for memory was refused.
    pub fn pieces(&self, alloc: Global, range: Range<usize>) -> Result<Vec<Piece<'_>>, AllocError>
        ensures pieces { IfOk result
            (λ pieces. ArePiecesIn self.now range.start range.end pieces.items) }
        ensures exist { (xs : List PieceValue) × ArePiecesOf self.now xs }
    {
        pieces_holding(alloc, self.lexer, &self.text, &self.blocks, &range)
    }

    /// The line and column of a byte offset. `None` if the offset is past the end or inside a character. What it takes is a sum over
    /// the blocks of some hundred pieces that the text is kept in, and a walk along one of them.
    ///
    /// ```
    /// let place = text.position(change.start); // `Some` of line 1, column 4
    /// ```
    pub fn position(&self, at: usize) -> Option<Position>
        ensures boundary { IsSome result ↔ IsCharBoundary self.now.text at }
        ensures position { IfSome result (λ p. p ≡ position_of self.now.text at) }
    {
        position_in(&self.text, &self.blocks, at)
    }

    /// The byte offset of a line and column, both from 1; the column may be the one after the last character of its line. `None`
    /// if the text has no such place. It takes as long as `position`.
    pub fn offset(&self, place: Position) -> Option<usize>
        ensures some { IfSome result (λ at. IsCharBoundary self.now.text at
            × (position_of self.now.text at ≡ place)) }
        ensures none { IfNone result ((at : ℕ) → IsCharBoundary self.now.text at
            → position_of self.now.text at ≢ place) }
    {
        offset_in(&self.text, &self.blocks, place)
    }

    /// The piece that holds the byte at the place, or `None` at the end of the text and past it.
    pub fn piece_at(&self, at: usize) -> Option<Piece<'_>>
        ensures piece { IfSome result (λ x. ArePiecesIn self.now at (at + 1) (x ∷ [])) }
        ensures none { IfNone result (length self.now.text ≤ at) }
    {
        piece_holding(self.lexer, &self.text, &self.blocks, at)
    }
}

impl<'rules> fmt::Debug for Document<'rules> {
    fn fmt<W: fmt::Write>(&self, f: &mut fmt::Formatter<W>) -> fmt::Result {
        write!(f, "Document({} bytes)", self.text.len())
    }
}
