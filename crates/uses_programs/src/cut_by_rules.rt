//! The lines and the page of a text by rules, and the lines of clashes.
ghost use Rattle.std.specs.Prelude.{◌≡◌, false, true, map, string_bytes, IfOk, IfErr};
ghost use Rattle.lalrpop_rules.specs.ModeSet.{rules_of};
ghost use Rattle.lalrpop_rules.specs.RuleSet.{names_of};
ghost use Rattle.lexdfa_lib.specs.Streams.{Reading, Reads, Stream, opened};
ghost use Rattle.pieces_lib.specs.Console.{Console as ConsoleValue};
ghost use Rattle.tokens_lib.specs.PieceLines.{layout_lines};
ghost use Rattle.tokens_lib.specs.RuleClashes.{clash_lines as lines_of_clashes};
ghost use Rattle.pieces_lib.specs.TextAnswer.{page_of};
ghost use Rattle.pieces_lib.specs.Written.{WritesCut, WritesCutPart};

use lalrpop_lexer::lexer::dfa::Clash;
use lalrpop_rules::{ModeRule, RuleLexer};
use lexdfa_lib::RunError;
use std::alloc::{AllocError, Global};
use tokens_lib::{
    Console, CutEnd, Layout, Markup, Reader, Sink, Source, clash_lines, write_lines, write_page,
};

// The lines of two texts, one after the other, and how cutting each ends.
// Needs tokens_lib::write_lines: written.
pub fn both_texts<S: Source, O: Sink, E: Sink>(
    alloc: Global,
    lexer: &RuleLexer,
    layout: &Layout<'_, '_>,
    first: &mut Reader<S>,
    second: &mut Reader<S>,
    console: &mut Console<O, E>,
) -> Result<(CutEnd, CutEnd), RunError>
    ensures written { IfOk result (λ both. (between : ConsoleValue)
        × ((one : Reading) × ((two : Reading)
        × (Reads first.old first.new one × (Reads second.old second.new two
        × (WritesCut lexer.now layout.now.recovers (layout_lines layout.now lexer.now) one
        console.old between both.0
        × WritesCut lexer.now layout.now.recovers (layout_lines layout.now lexer.now) two
        between console.new both.1)))))) }
{
    let one = write_lines(alloc, lexer, layout, first, console)?;
    let two = write_lines(alloc, lexer, layout, second, console)?;
    Ok((one, two))
}

// Whether writing lines into memory fails: only for want of memory.
// Needs tokens_lib::write_lines: part.
pub fn fails_for_memory(
    alloc: Global,
    lexer: &RuleLexer,
    layout: &Layout<'_, '_>,
    text: &[u8],
) -> Result<CutEnd, RunError>
    ensures memory { IfErr result (λ e. e ≡ RunError.OutOfMemory) }
{
    let mut reader = Reader::new(text);
    let mut console = Console::new(Vec::new(alloc), Vec::new(alloc));
    write_lines(alloc, lexer, layout, &mut reader, &mut console)
}

// The page of a text, and how cutting ends.
// Needs tokens_lib::write_page: written.
pub fn page_of_text<O: Sink, E: Sink>(
    alloc: Global,
    lexer: &RuleLexer,
    markup: Markup,
    text: &[u8],
    console: &mut Console<O, E>,
) -> Result<CutEnd, RunError>
    ensures written { IfOk result (λ end. (new : Stream) × ((reading : Reading)
        × (Reads (opened (Some text.now) false) new reading
        × WritesCut lexer.now true (λ all xs. page_of markup lexer.now.names xs) reading
        console.old console.new end))) }
{
    let mut reader = Reader::new(text);
    write_page(alloc, lexer, markup, &mut reader, console)
}

// The lines of all clashes of the rules, twice.
// Needs tokens_lib::clash_lines: lines.
pub fn listed_twice(
    alloc: Global,
    rules: &[ModeRule<'_>],
    modes: &[&str],
    found: &[Vec<Clash>],
) -> Result<(String, String), AllocError>
    ensures same { IfOk result (λ both. string_bytes both.0 ≡ string_bytes both.1) }
    ensures lines { IfOk result (λ both. string_bytes both.0 ≡ lines_of_clashes
        (map (λ m. m.now) modes.now) (names_of (rules_of rules.now)) 0
        (map (λ cs. cs.items) found.now)) }
{
    let once = clash_lines(alloc, rules, modes, found)?;
    let again = clash_lines(alloc, rules, modes, found)?;
    Ok((once, again))
}
