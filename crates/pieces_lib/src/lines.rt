//! The lines of the pieces of a text, written as they come.
ghost use Rattle.std.specs.Prelude.{IfOk, IfErr};
ghost use Rattle.lexdfa_lib.specs.Streams.{Reading, Reads};
ghost use Rattle.reports_lib.specs.PieceLines.{layout_lines};
ghost use Rattle.pieces_lib.specs.Written.{WritesCut, WritesCutPart};

use crate::console::Console;
use crate::cut_end::CutEnd;
use crate::pieces::write_pieces;
use crate::sheet::{Form, Sheet};
use lalrpop_rules::RuleLexer;
use lexdfa_lib::{Reader, RunError, Sink, Source};
use reports_lib::Layout;
use std::alloc::Global;

/// Cuts the text by rules as it comes, and writes a line for each token and for each fault, but none for skipped pieces.
/// A plain line is `LINE:COLUMN NAME "SLICE"`, with `FILE:` before it if the file is named. Lines and columns count from 1,
/// and a fault has `!` for its name. A line of JSON is an object with the members `file`, if the file is
/// named, `line`, `column`, `start` and `end`, which are offsets in bytes, `rule`, which is `null` for a fault, `mode`, if the
/// layout names several modes, and `text`. A byte order mark at the beginning is left out.
///
/// A text is any bytes. What isn't UTF-8 matches no rule, so it lies in a fault: a plain line shows the bytes of such a fault one
/// by one, those that aren't ASCII as `\xff`, and a line of JSON has U+FFFD for each invalid sequence. A column counts the bytes
/// with which a character begins: all but 0x80 to 0xBF.
///
/// If the layout doesn't recover, the text is cut up to its first fault, which has no line. Then no more is read than is needed to
/// know that a fault begins there.
///
/// What nothing that comes can change is written before the next read, or about 64 KiB at a time. So a line that a person types
/// is answered, and memory doesn't grow with the text, but with its longest piece.
///
/// # Errors
///
/// `OutOfMemory` if a request for memory was refused, and `Write` if a write fails or has failed: a prefix of the lines was
/// written. Where a read fails, the text is cut as far as it was read; that isn't an error.
pub fn write_lines<S: Source, O: Sink, E: Sink>(
    alloc: Global,
    lexer: &RuleLexer,
    layout: &Layout<'_, '_>,
    reader: &mut Reader<S>,
    console: &mut Console<O, E>,
) -> Result<CutEnd, RunError>
    ensures written { IfOk result (λ end. (reading : Reading) × (Reads reader.old reader.new reading
        × WritesCut lexer.now layout.now.recovers (layout_lines layout.now lexer.now)
        reading console.old console.new end)) }
    ensures part { IfErr result (λ e. (reading : Reading) × (Reads reader.old reader.new reading
        × WritesCutPart lexer.now layout.now.recovers (layout_lines layout.now lexer.now)
        reading console.old e console.new)) }
{
    let mut sheet = Sheet::new(alloc, lexer, Form::Lines(*layout));
    write_pieces(alloc, &mut sheet, reader, console)
}
