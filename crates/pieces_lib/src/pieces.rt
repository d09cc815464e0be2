//! The pieces of a text, written as they come.
ghost use Rattle.std.specs.Prelude.{◌≡◌, ◌++◌, ℕ, List, [], true, IfOk, IfErr, OnOk};
ghost use Rattle.bajofeki.specs.Chunked.{Chunked};
ghost use Rattle.bajofeki.specs.Given.{piece_of};
ghost use Rattle.lalrpop_rules.specs.declared.piece.Piece.{Piece as PieceValue};
ghost use Rattle.lexdfa_lib.specs.Streams.{Reading, Reads};
ghost use Rattle.pieces_lib.specs.Console.{Console as ConsoleValue, Writes, WritesPart};
ghost use Rattle.pieces_lib.specs.Internal.CutTexts.{goes_on, markup_of, piece_shown, shown, IsGiven, IsGivenInPart, GivesAll};
ghost use Rattle.pieces_lib.specs.Written.{WritesCut, WritesCutPart};

use crate::console::Console;
use crate::cut_end::CutEnd;
use crate::cutter::{Cut, Cutter, stopped};
use crate::sheet::Sheet;
use bajofeki::GivenPiece;
use lexdfa_lib::{Reader, RunError, Sink, Source};
use std::alloc::Global;
use std::str;

// What waits is written once it has this many bytes.
const CHUNK: usize = 65536;

// Writes and clears what waits.
fn flush<O: Sink, E: Sink>(
    waiting: &mut Vec<u8>,
    console: &mut Console<O, E>,
) -> Result<(), RunError>
    ensures all { OnOk result (Writes console.old waiting.old.items console.new) }
    ensures none { OnOk result (waiting.new.items ≡ []) }
    ensures part { IfErr result (λ e. WritesPart console.old waiting.old.items e console.new) }
{
    console.write(waiting)?;
    waiting.clear();
    Ok(())
}

// Writes and clears what waits, if it fills a chunk.
fn pass_on<O: Sink, E: Sink>(
    waiting: &mut Vec<u8>,
    console: &mut Console<O, E>,
) -> Result<(), RunError>
    ensures passed { OnOk result ((sent : List ℕ) × (Writes console.old sent console.new
        × (waiting.old.items ≡ sent ++ waiting.new.items))) }
    ensures part { IfErr result (λ e. WritesPart console.old waiting.old.items e console.new) }
{
    if waiting.len() >= CHUNK {
        flush(waiting, console)?;
    }
    Ok(())
}

// Appends the markup of a piece with this text, and writes what waits, if it fills a chunk.
fn put_markup<O: Sink, E: Sink>(
    sheet: &mut Sheet<'_, '_, '_>,
    piece: &GivenPiece,
    text: &str,
    console: &mut Console<O, E>,
) -> Result<(), RunError>
    ensures put { OnOk result ((sent : List ℕ) × (Writes console.old sent console.new
        × (sheet.old.waiting.items ++ markup_of sheet.old.form sheet.old.lexer.now.names
        (piece_of piece.now text.entry) ≡ sent ++ sheet.new.waiting.items))) }
    ensures form { OnOk result (sheet.new.form ≡ sheet.old.form) }
    ensures lexer { OnOk result (sheet.new.lexer ≡ sheet.old.lexer) }
    ensures part { IfErr result (λ e. WritesPart console.old
        (sheet.old.waiting.items ++ markup_of sheet.old.form sheet.old.lexer.now.names
        (piece_of piece.now text.entry)) e console.new) }
{
    let item = piece.with_slice(text);
    sheet.push_markup(&item)?;
    pass_on(&mut sheet.waiting, console)
}

// Appends what is written for a piece with this slice, and writes what waits, if it fills a chunk. Markup has U+FFFD for what
// isn't UTF-8, which only a fault has.
fn put_piece<O: Sink, E: Sink>(
    alloc: Global,
    sheet: &mut Sheet<'_, '_, '_>,
    cut: &Cut,
    slice: &[u8],
    console: &mut Console<O, E>,
) -> Result<(), RunError>
    ensures put { OnOk result ((sent : List ℕ) × (Writes console.old sent console.new
        × (sheet.old.waiting.items ++ piece_shown sheet.old.form sheet.old.lexer.now.names
        cut.now.place cut.now.mode (piece_of cut.now.piece slice.entry)
        ≡ sent ++ sheet.new.waiting.items))) }
    ensures form { OnOk result (sheet.new.form ≡ sheet.old.form) }
    ensures lexer { OnOk result (sheet.new.lexer ≡ sheet.old.lexer) }
    ensures part { IfErr result (λ e. WritesPart console.old
        (sheet.old.waiting.items ++ piece_shown sheet.old.form sheet.old.lexer.now.names
        cut.now.place cut.now.mode (piece_of cut.now.piece slice.entry)) e console.new) }
{
    if sheet.has_lines() {
        sheet.push_line(alloc, cut, slice)?;
        return pass_on(&mut sheet.waiting, console);
    }
    if let Ok(text) = str::from_utf8(slice) {
        return put_markup(sheet, &cut.piece, text, console);
    }
    let text = String::from_utf8_lossy(alloc, slice)?;
    put_markup(sheet, &cut.piece, &text, console)
}

// Gives the pieces that nothing that comes can change, up to a fault, if cutting ends there.
fn give_pieces<O: Sink, E: Sink>(
    alloc: Global,
    sheet: &mut Sheet<'_, '_, '_>,
    cutter: &mut Cutter<'_>,
    console: &mut Console<O, E>,
) -> Result<Option<CutEnd>, RunError>
    ensures given { IfOk result (λ ended.
        (begun : ConsoleValue) (text : List ℕ) (xs : List PieceValue)
        → IsGiven sheet.old.form sheet.old.lexer.now text xs cutter.old sheet.old.waiting.items
        begun console.old
        → GivesAll sheet.old.form sheet.old.lexer.now text cutter.old cutter.new
        sheet.new.waiting.items begun console.new ended) }
    ensures form { OnOk result (sheet.new.form ≡ sheet.old.form) }
    ensures lexer { OnOk result (sheet.new.lexer ≡ sheet.old.lexer) }
    ensures part { IfErr result (λ e. (begun : ConsoleValue) (text : List ℕ) (xs : List PieceValue)
        → IsGiven sheet.old.form sheet.old.lexer.now text xs cutter.old sheet.old.waiting.items
        begun console.old
        → (ys : List PieceValue) × ((c : Chunked)
        × (IsGivenInPart sheet.old.form sheet.old.lexer.now text ys c begun e console.new
        × (c.is_ended ≡ cutter.old.incoming.chunks.is_ended)))) }
{
    'giving: while let Some(cut) = cutter.next_piece()? {
        let slice = cutter.slice();
        if cut.piece.rule.is_none() && !sheet.goes_on() {
            return Ok(Some(stopped(cut.place, slice)));
        }
        put_piece(alloc, sheet, &cut, slice, console)?;
    }
    if sheet.goes_on() {
        return Ok(None);
    }
    Ok(cutter.stopped_next())
}

// Gives the pieces that can be given, and writes what waits.
fn give<O: Sink, E: Sink>(
    alloc: Global,
    sheet: &mut Sheet<'_, '_, '_>,
    cutter: &mut Cutter<'_>,
    console: &mut Console<O, E>,
) -> Result<Option<CutEnd>, RunError>
    ensures given { IfOk result (λ ended.
        (begun : ConsoleValue) (text : List ℕ) (xs : List PieceValue)
        → IsGiven sheet.old.form sheet.old.lexer.now text xs cutter.old sheet.old.waiting.items
        begun console.old
        → GivesAll sheet.old.form sheet.old.lexer.now text cutter.old cutter.new
        [] begun console.new ended) }
    ensures none { OnOk result (sheet.new.waiting.items ≡ []) }
    ensures form { OnOk result (sheet.new.form ≡ sheet.old.form) }
    ensures lexer { OnOk result (sheet.new.lexer ≡ sheet.old.lexer) }
    ensures part { IfErr result (λ e. (begun : ConsoleValue) (text : List ℕ) (xs : List PieceValue)
        → IsGiven sheet.old.form sheet.old.lexer.now text xs cutter.old sheet.old.waiting.items
        begun console.old
        → (ys : List PieceValue) × ((c : Chunked)
        × (IsGivenInPart sheet.old.form sheet.old.lexer.now text ys c begun e console.new
        × (c.is_ended ≡ cutter.old.incoming.chunks.is_ended)))) }
{
    let ended = give_pieces(alloc, sheet, cutter, console)?;
    flush(&mut sheet.waiting, console)?;
    Ok(ended)
}

/// Cuts the text by rules as it comes, and writes the pieces as the sheet says.
///
/// # Errors
///
/// `OutOfMemory` if a request for memory was refused, and `Write` if a write fails or has failed: a prefix of what is written for
/// the pieces was written.
pub(crate) fn write_pieces<S: Source, O: Sink, E: Sink>(
    alloc: Global,
    sheet: &mut Sheet<'_, '_, '_>,
    reader: &mut Reader<S>,
    console: &mut Console<O, E>,
) -> Result<CutEnd, RunError>
    requires none { sheet.old.waiting.items ≡ [] }
    ensures written { IfOk result (λ end. (reading : Reading) × (Reads reader.old reader.new reading
        × WritesCut sheet.old.lexer.now (goes_on sheet.old.form)
        (shown sheet.old.form sheet.old.lexer.now) reading console.old console.new end)) }
    ensures part { IfErr result (λ e. (reading : Reading) × (Reads reader.old reader.new reading
        × WritesCutPart sheet.old.lexer.now (goes_on sheet.old.form)
        (shown sheet.old.form sheet.old.lexer.now) reading console.old e console.new)) }
{
    let mut cutter = Cutter::new(alloc, sheet.lexer);
    'reading: for _ in 0..u64::MAX {
        let brought = cutter.read_on(reader)?;
        if let Some(ended) = give(alloc, sheet, &mut cutter, console)? {
            return Ok(ended);
        }
        if let Some(ended) = cutter.end(brought) {
            return Ok(ended);
        }
    }
    // 2^64 bytes have come.
    Err(RunError::OutOfMemory)
}
