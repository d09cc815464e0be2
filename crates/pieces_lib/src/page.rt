//! The markup of a text, written as it comes.
ghost use Rattle.std.specs.Prelude.{true, IfOk, IfErr};
ghost use Rattle.lexdfa_lib.specs.Streams.{Reading, Reads};
ghost use Rattle.pieces_lib.specs.TextAnswer.{page_of};
ghost use Rattle.pieces_lib.specs.Internal.CutTexts.{IsPageForm};
ghost use Rattle.pieces_lib.specs.Written.{WritesCut, WritesCutPart};

use crate::console::Console;
use crate::cut_end::CutEnd;
use crate::pieces::write_pieces;
use crate::sheet::{Form, Sheet};
use bajofeki::Painter;
use lalrpop_rules::RuleLexer;
use lexdfa_lib::{Markup, Reader, RunError, Sink, Source};
use std::alloc::{AllocError, Global};

// What is written for a page.
fn page_form<'rules>(
    alloc: Global,
    lexer: &'rules RuleLexer,
    markup: Markup,
) -> Result<Form<'rules, 'rules, 'rules>, AllocError>
    ensures page { IfOk result (λ form. IsPageForm form markup lexer.now.names) }
{
    match markup {
        Markup::Html => Ok(Form::Html),
        Markup::Ansi => Ok(Form::Ansi(Painter::new(alloc, lexer.names())?)),
    }
}

/// Writes the text as HTML, or in colours for a terminal, as `html` and `ansi` of `bajofeki` make them, while it comes. The
/// text is cut to its end, after faults too. A byte order mark at its beginning is left out. What isn't UTF-8 matches no rule, so it
/// lies in a fault, with U+FFFD for each invalid sequence.
///
/// What nothing that comes can change is written before the next read, or about 64 KiB at a time, so the page is never held as a
/// whole.
///
/// # Errors
///
/// `OutOfMemory` if a request for memory was refused, and `Write` if a write fails or has failed: a prefix of the page was
/// written. Where a read fails, the text is cut as far as it was read; that isn't an error.
pub fn write_page<S: Source, O: Sink, E: Sink>(
    alloc: Global,
    lexer: &RuleLexer,
    markup: Markup,
    reader: &mut Reader<S>,
    console: &mut Console<O, E>,
) -> Result<CutEnd, RunError>
    ensures written { IfOk result (λ end. (reading : Reading) × (Reads reader.old reader.new reading
        × WritesCut lexer.now true (λ text xs. page_of markup lexer.now.names xs)
        reading console.old console.new end)) }
    ensures part { IfErr result (λ e. (reading : Reading) × (Reads reader.old reader.new reading
        × WritesCutPart lexer.now true (λ text xs. page_of markup lexer.now.names xs)
        reading console.old e console.new)) }
{
    let form = page_form(alloc, lexer, markup)?;
    let mut sheet = Sheet::new(alloc, lexer, form);
    write_pieces(alloc, &mut sheet, reader, console)
}
