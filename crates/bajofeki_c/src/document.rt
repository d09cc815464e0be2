//! A text that is edited, with its pieces.
ghost use Rattle.std.specs.Prelude.{◌≡◌, drop, length, map};
ghost use Rattle.bajofeki_c.specs.Document.{ArePiecesTold, IsDocumentBegun, IsEdited, IsOffset, IsPlace, IsTextEdited, code_of_edit, code_of_error, no_edit, text_of, told as told_piece, told_edit};
ghost use Rattle.bajofeki_c.specs.Rules.{IsWritten};

use crate::cut::Piece;
use crate::held::Held;
use crate::position::Place;
use crate::rules::write_to;
use bajofeki::{Change, Document as EditedText, EditError};
use lalrpop_lexer::Position;
use lalrpop_rules::Piece as TextPiece;
use std::alloc::Global;
use std::str;

/// What an edit changed of the pieces of a text. Pieces are numbered from 0; places are in bytes.
#[repr(C)]
#[derive(Copy, Clone)]
pub struct Edit {
    /// 0: the text was edited. 1: the range isn't one of whole characters of the text. 3: what comes in its place isn't UTF-8. 6: the
    /// text would have 4,294,967,295 bytes or more, or there are as many rules. 7: a request for memory was refused. 9: there is no
    /// lexer. If it isn't 0, nothing has changed, and all other numbers are 0.
    pub code: u32,
    /// How many pieces at the front stay.
    pub first: usize,
    /// How many old pieces after those are gone.
    pub removed: usize,
    /// How many pieces came in their place. All others are the old ones, shifted.
    pub inserted: usize,
    /// Where the first piece that is gone, or came, begins.
    pub start: usize,
    /// Where the last piece that is gone ended in the old text.
    pub old_end: usize,
    /// Where the last piece that came ends in the new text.
    pub new_end: usize,
}

/// How many pieces there are.
#[repr(C)]
#[derive(Copy, Clone)]
pub struct Count {
    /// 0: these are all. 2: the array is full, and there may be more. 6: 2^64 bytes have come. 7: a request for memory was refused. 9:
    /// there is no lexer.
    pub code: u32,
    /// How many pieces there are, or were written.
    pub count: usize,
}

/// Why there is no document.
#[derive(Drop)]
pub enum DocumentError {
    /// There is no lexer.
    NoLexer,
    /// The lexer can't cut even an empty text.
    Refused(EditError),
}

/// A text with its pieces, or why there is none.
#[derive(Drop)]
pub struct Document<'rules> {
    pub made: Result<EditedText<'rules>, DocumentError>,
}

/// An empty text, which is cut by this lexer.
pub fn begin_document<'rules>(held: &'rules Held, alloc: Global) -> Document<'rules>
    ensures begun { IsDocumentBegun held.now result }
{
    let Ok(lexer) = &held.made else {
        return Document {
            made: Err(DocumentError::NoLexer),
        };
    };
    match EditedText::new(alloc, &lexer.rules, "") {
        Ok(text) => Document { made: Ok(text) },
        Err(error) => Document {
            made: Err(DocumentError::Refused(error)),
        },
    }
}

// The number of an error of an edit.
pub(crate) fn edit_code(error: EditError) -> u32
    ensures code { result ≡ code_of_edit error }
{
    match error {
        EditError::NoBoundary => 1,
        EditError::TooLarge => 6,
        EditError::OutOfMemory => 7,
    }
}

// The number of the error.
fn error_code(error: &DocumentError) -> u32
    ensures code { result ≡ code_of_error error.now }
{
    match error {
        DocumentError::NoLexer => 9,
        DocumentError::Refused(error) => edit_code(*error),
    }
}

// Nothing was edited, for this reason.
fn unedited(code: u32) -> Edit
    ensures none { result ≡ no_edit code }
{
    Edit {
        code,
        first: 0,
        removed: 0,
        inserted: 0,
        start: 0,
        old_end: 0,
        new_end: 0,
    }
}

fn edited(change: Change) -> Edit
    ensures told { result ≡ told_edit change }
{
    Edit {
        code: 0,
        first: change.first,
        removed: change.removed,
        inserted: change.inserted,
        start: change.start,
        old_end: change.old_end,
        new_end: change.new_end,
    }
}

// Replaces the bytes from `from` to `to` of a text by these.
fn edit_text(text: &mut EditedText<'_>, alloc: Global, from: usize, to: usize, new: &[u8]) -> Edit
    ensures edited { IsTextEdited text.old from to new.now result text.new }
{
    let Ok(new) = str::from_utf8(new) else {
        return unedited(3);
    };
    match text.edit(alloc, from..to, new) {
        Ok(change) => edited(change),
        Err(error) => unedited(edit_code(error)),
    }
}

/// Replaces the bytes from `from` to `to` of the text by these.
pub fn edit_document(
    document: &mut Document<'_>,
    alloc: Global,
    from: usize,
    to: usize,
    new: &[u8],
) -> Edit
    ensures edited { IsEdited document.old from to new.now result document.new }
{
    match &mut document.made {
        Ok(text) => edit_text(text, alloc, from, to, new),
        Err(error) => unedited(error_code(error)),
    }
}

// A piece in numbers.
fn told(piece: &TextPiece<'_>) -> Piece
    ensures told { result ≡ told_piece piece.now }
{
    match piece {
        TextPiece::Token(token) => Piece {
            kind: 0,
            rule: token.index.index(),
            start: token.start,
            length: token.slice.len(),
        },
        TextPiece::Skipped(token) => Piece {
            kind: 1,
            rule: token.index.index(),
            start: token.start,
            length: token.slice.len(),
        },
        TextPiece::Fault { start, slice } => Piece {
            kind: 2,
            rule: 0,
            start: *start,
            length: slice.len(),
        },
    }
}

// Writes as many pieces as fit.
fn write_pieces(pieces: &[TextPiece<'_>], out: &mut [Piece])
    ensures written { IsWritten (map told_piece pieces.now) out.old out.new (length pieces.now) }
{
    let room = out.len().min(pieces.len());
    let mut count = 0;
    'writing: while count < room {
        out[count] = told(&pieces[count]);
        count += 1;
    }
}

/// Writes the pieces that hold a byte of the range, as many as fit, and says how many there are.
pub fn pieces_into(
    document: &Document<'_>,
    alloc: Global,
    from: usize,
    to: usize,
    out: &mut [Piece],
) -> Count
    ensures pieces { ArePiecesTold document.now from to out.old result out.new }
{
    let text = match &document.made {
        Ok(text) => text,
        Err(error) => {
            return Count {
                code: error_code(error),
                count: 0,
            };
        }
    };
    let Ok(pieces) = text.pieces(alloc, from..to) else {
        return Count { code: 7, count: 0 };
    };
    write_pieces(&pieces, out);
    Count {
        code: 0,
        count: pieces.len(),
    }
}

// No place.
const NOWHERE: Place = Place {
    at: 0,
    line: 0,
    column: 0,
};

/// The line and the column of an offset in bytes; zeros if there is no character's beginning, and it isn't the end.
pub fn place_in_document(document: &Document<'_>, at: usize) -> Place
    ensures place { IsPlace document.now at result }
{
    let Ok(text) = &document.made else {
        return NOWHERE;
    };
    match text.position(at) {
        Some(place) => Place {
            at,
            line: place.line,
            column: place.column,
        },
        None => NOWHERE,
    }
}

/// The offset in bytes of a line and a column; zeros if the text has no such place.
pub fn offset_in_document(document: &Document<'_>, line: usize, column: usize) -> Place
    ensures place { IsOffset document.now line column result }
{
    let Ok(text) = &document.made else {
        return NOWHERE;
    };
    match text.offset(Position { line, column }) {
        Some(at) => Place { at, line, column },
        None => NOWHERE,
    }
}

/// Writes the text from a byte on, as many bytes as fit, and says how many there are.
pub fn text_into(document: &Document<'_>, from: usize, out: &mut [u8]) -> usize
    ensures written { IsWritten (drop from (text_of document.now)) out.old out.new result }
{
    let Ok(text) = &document.made else {
        return 0;
    };
    let bytes = text.text().as_bytes();
    write_to(&bytes[from.min(bytes.len())..], out)
}

/// Gives the memory of a document back.
pub fn let_document_go(_document: Document<'_>) {}
