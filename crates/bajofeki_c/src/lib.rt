//! A lexer of a file of rules for C, and for all that can call C.
//!
//! A program lends room for a lexer, and has one built there. By it it cuts texts: for each it lends room for a cut, and gets the
//! pieces of the text array by array. What only reads the lexer needs a view of it alone, so several threads may cut by one
//! lexer, each with a cut of its own. An array crosses as a pointer and a length.
//!
//! A text that is edited lies in room of its own with its pieces, and so does a text that comes in chunks. Both see their lexer as
//! long as they lie there.
//!
//! ```c
//! void *lexer = malloc(bajofeki_lexer_size()), *cutter = malloc(bajofeki_cutter_size());
//! bajofeki_build(lexer, rules, rules_length);
//! if (bajofeki_begin(lexer, cutter, length) == 0) { // else bajofeki_report(lexer) says why
//!     struct cut cut;
//!     do {
//!         cut = bajofeki_cut(lexer, cutter, text, length, pieces, 256);
//!         // the next cut.count pieces of the text
//!     } while (cut.code == 2);
//! }
//! bajofeki_end(cutter);
//! bajofeki_free(lexer);
//! ```
#![tactic(auto)]

mod answered;
mod check;
mod compare;
mod cut;
mod cutting;
mod document;
mod draw;
mod held;
mod look;
mod modes;
mod page;
mod position;
mod report;
mod rules;
mod source;
mod stream;

ghost use Rattle.std.specs.Prelude.{◌≡◌, drop};
ghost use Rattle.std.specs.Borrow.{sem};
ghost use Rattle.bajofeki_c.specs.Check.{IsChecked};
ghost use Rattle.bajofeki_c.specs.Compare.{IsCompared};
ghost use Rattle.bajofeki_c.specs.Cut.{GoesOn};
ghost use Rattle.bajofeki_c.specs.Cutting.{WasBegun};
ghost use Rattle.bajofeki_c.specs.Document.{ArePiecesTold, IsOffset, IsPlace, text_of};
ghost use Rattle.bajofeki_c.specs.Draw.{IsDrawing};
ghost use Rattle.bajofeki_c.specs.Look.{IsLookOf, mode_count};
ghost use Rattle.bajofeki_c.specs.Modes.{action_at, mode_name_of};
ghost use Rattle.bajofeki_c.specs.Page.{IsShown};
ghost use Rattle.bajofeki_c.specs.Place.{place_in};
ghost use Rattle.bajofeki_c.specs.Report.{report};
ghost use Rattle.bajofeki_c.specs.Room.{Cutter, View, begun_at, cut_at, cutting_align, cutting_at, cutting_size, freed_at, held_align, held_at, held_size, made_at, room_for_cutting, room_for_held, seen_at};
ghost use Rattle.bajofeki_c.specs.Source.{IsCSource, IsRustSource};
ghost use Rattle.bajofeki_c.specs.Lent.{HeldDocument, HeldStream, document_align, document_at, document_begun_at, document_ended_at, document_size, edited_at, fed_at, given_at, room_for_document, room_for_stream, stream_align, stream_at, stream_begun_at, stream_ended_at, stream_size};
ghost use Rattle.bajofeki_c.specs.Rules.{IsWritten, count_of, name_of, skips_rule, word_of};
ghost use Rattle.bajofeki_c.specs.declared.cutting.Cutting.{Cutting as CuttingValue};
ghost use Rattle.bajofeki_c.specs.declared.held.Held.{Held as HeldValue};
ghost use Rattle.bajofeki_c.specs.declared.page.Markup.TheVariants.{Ansi, Html};

pub use check::{Checked, check_into};
pub use compare::compare_into;
pub use cut::{Cut, Piece, cut_on};
pub use cutting::{BeginError, Cutting, begin, begin_again, code_of, let_cutting_go};
pub use document::{
    Count, Document, DocumentError, Edit, begin_document, edit_document, let_document_go,
    offset_in_document, pieces_into, place_in_document, text_into,
};
pub use draw::draw_into;
pub use held::{BuildError, BuiltLexer, Held, NamedRule, let_go, make};
use lalrpop_emit::{EmitError, LexerNumbers};
use lalrpop_lexer::Lexer;
use lalrpop_lexer::lexer::dfa::Precedence;
use lalrpop_lexer::lexer::re::Regex;
use lalrpop_rule_file::RuleFileError;
use lalrpop_rules::{Action as RuleAction, RulesError};
pub use look::{Look, look_of, modes_of};
pub use modes::{Action, action_of, mode_name_into};
pub use page::{Markup, Page, ansi_into, html_into};
pub use position::{Place, place_of};
pub use report::{Report, report_of};
pub use rules::{is_rule_skipped, name_into, rule_count, word_into};
pub use source::{c_source_into, rust_source_into};
use std::alloc::Global;
pub use stream::{Stream, begin_stream, feed_stream, let_stream_go, next_in_stream};

// What a lexer and a cut are made of may go to another thread, and several threads may see it.
fn may_go_to_threads<T: Send + Sync>() {}

// Of a `RuleLexer` its parts: the search for a proof of the whole at once passes its limit.
fn rules_may_go_to_threads() {
    may_go_to_threads::<Lexer>();
    may_go_to_threads::<Regex>();
    may_go_to_threads::<Precedence>();
    may_go_to_threads::<RuleAction>();
}

fn numbers_may_go_to_threads() {
    may_go_to_threads::<LexerNumbers>();
}

fn errors_may_go_to_threads() {
    may_go_to_threads::<RuleFileError>();
    may_go_to_threads::<RulesError>();
    may_go_to_threads::<EmitError>();
    may_go_to_threads::<NamedRule>();
}

fn cuts_may_go_to_threads() {
    may_go_to_threads::<Cutting>();
}

// What sees a lexer as long as it lies there may go to another thread.
fn may_go_to_a_thread<T: Send>() {}

fn documents_may_go_to_a_thread<'rules>() {
    may_go_to_a_thread::<Document<'rules>>();
}

fn streams_may_go_to_a_thread<'rules>() {
    may_go_to_a_thread::<Stream<'rules>>();
}

/// The bytes that a lexer takes. They lie at a multiple of 8.
#[unsafe(no_mangle)]
pub extern "C" fn bajofeki_lexer_size() -> usize
    ensures size { result ≡ held_size }
    ensures aligned { held_align ≡ 8 }
{
    size_of::<Held>()
}

/// The bytes that a cut takes. They lie at a multiple of 8.
#[unsafe(no_mangle)]
pub extern "C" fn bajofeki_cutter_size() -> usize
    ensures size { result ≡ cutting_size }
    ensures aligned { cutting_align ≡ 8 }
{
    size_of::<Cutting>()
}

/// Builds, in the room at `lexer`, the lexer of the rules that these bytes are, or what says why there is none.
#[unsafe(no_mangle)]
pub unsafe extern "C" fn bajofeki_build(lexer: *mut u8, alloc: Global, rules: &[u8])
    requires* room { sem 𝓛 (room_for_held lexer) }
    ensures* made { sem 𝓛 (made_at lexer rules.now) }
{
    std::ptr::write(lexer as *mut Held, make(alloc, rules));
}

/// What became of the rules.
#[unsafe(no_mangle)]
pub unsafe extern "C" fn bajofeki_report(lexer: *const u8) -> Report
    ghost view: { View }
    requires* seen { sem 𝓛 (seen_at lexer view) }
    ensures* seen { sem 𝓛 (seen_at lexer view) }
    ensures report { result ≡ report view.held }
{
    report_of(&*(lexer as *const Held))
}

/// Writes the word of a clash, as many values as fit, and says how many there are: 0 if there is no clash.
#[unsafe(no_mangle)]
pub unsafe extern "C" fn bajofeki_word(lexer: *const u8, out: &mut [u32]) -> usize
    ghost view: { View }
    requires* seen { sem 𝓛 (seen_at lexer view) }
    ensures* seen { sem 𝓛 (seen_at lexer view) }
    ensures written { IsWritten (word_of view.held) out.old out.new result }
{
    word_into(&*(lexer as *const Held), out)
}

/// How many rules the file has, if there is a lexer or the code of the report is 2 to 5; else 0.
#[unsafe(no_mangle)]
pub unsafe extern "C" fn bajofeki_rules(lexer: *const u8) -> usize
    ghost view: { View }
    requires* seen { sem 𝓛 (seen_at lexer view) }
    ensures* seen { sem 𝓛 (seen_at lexer view) }
    ensures count { result ≡ count_of view.held }
{
    rule_count(&*(lexer as *const Held))
}

/// Writes the name of a rule, as many bytes as fit, and says how many there are: 0 if `bajofeki_rules` counts no such rule. Rules
/// are numbered from 0, in the order of their lines.
#[unsafe(no_mangle)]
pub unsafe extern "C" fn bajofeki_name(lexer: *const u8, rule: usize, out: &mut [u8]) -> usize
    ghost view: { View }
    requires* seen { sem 𝓛 (seen_at lexer view) }
    ensures* seen { sem 𝓛 (seen_at lexer view) }
    ensures written { IsWritten (name_of view.held rule) out.old out.new result }
{
    name_into(&*(lexer as *const Held), rule, out)
}

/// Whether the rule with this number is skipped; it isn't if there is no lexer or no such rule.
#[unsafe(no_mangle)]
pub unsafe extern "C" fn bajofeki_skips(lexer: *const u8, rule: usize) -> bool
    ghost view: { View }
    requires* seen { sem 𝓛 (seen_at lexer view) }
    ensures* seen { sem 𝓛 (seen_at lexer view) }
    ensures skipped { result ≡ skips_rule view.held rule }
{
    is_rule_skipped(&*(lexer as *const Held), rule)
}

/// How many modes there are: 0 if there is no lexer.
#[unsafe(no_mangle)]
pub unsafe extern "C" fn bajofeki_modes(lexer: *const u8) -> usize
    ghost view: { View }
    requires* seen { sem 𝓛 (seen_at lexer view) }
    ensures* seen { sem 𝓛 (seen_at lexer view) }
    ensures count { result ≡ mode_count view.held }
{
    modes_of(&*(lexer as *const Held))
}

/// Writes the name of a mode, as many bytes as fit, and says how many there are: 0 if there is no such mode. Modes are numbered from 0,
/// in the order in which the file first names them.
#[unsafe(no_mangle)]
pub unsafe extern "C" fn bajofeki_mode_name(lexer: *const u8, mode: usize, out: &mut [u8]) -> usize
    ghost view: { View }
    requires* seen { sem 𝓛 (seen_at lexer view) }
    ensures* seen { sem 𝓛 (seen_at lexer view) }
    ensures written { IsWritten (mode_name_of view.held mode) out.old out.new result }
{
    mode_name_into(&*(lexer as *const Held), mode, out)
}

/// What a token of the rule does to the stack of modes, by the place of the action among those of the rule.
#[unsafe(no_mangle)]
pub unsafe extern "C" fn bajofeki_action(lexer: *const u8, rule: usize, place: usize) -> Action
    ghost view: { View }
    requires* seen { sem 𝓛 (seen_at lexer view) }
    ensures* seen { sem 𝓛 (seen_at lexer view) }
    ensures action { result ≡ action_at view.held rule place }
{
    action_of(&*(lexer as *const Held), rule, place)
}

/// How many characters after a token of this mode can leave open whether a longer one comes. Modes are numbered from 0, in the
/// order in which the file first names them; a rule above the first section names INITIAL.
#[unsafe(no_mangle)]
pub unsafe extern "C" fn bajofeki_lookahead(lexer: *const u8, mode: usize) -> Look
    ghost view: { View }
    requires* seen { sem 𝓛 (seen_at lexer view) }
    ensures* seen { sem 𝓛 (seen_at lexer view) }
    ensures look { IsLookOf view.held mode result }
{
    look_of(&*(lexer as *const Held), mode)
}

/// Writes a whole text as HTML, as many bytes as fit, and says how many there are. Faults and skipped tokens are among its pieces.
#[unsafe(no_mangle)]
pub unsafe extern "C" fn bajofeki_html(
    lexer: *const u8,
    alloc: Global,
    text: &[u8],
    out: &mut [u8],
) -> Page
    ghost view: { View }
    requires* seen { sem 𝓛 (seen_at lexer view) }
    ensures* seen { sem 𝓛 (seen_at lexer view) }
    ensures shown { IsShown view.held Html text.now out.old result out.new }
{
    html_into(&*(lexer as *const Held), alloc, text, out)
}

/// The same in colours for a terminal.
#[unsafe(no_mangle)]
pub unsafe extern "C" fn bajofeki_ansi(
    lexer: *const u8,
    alloc: Global,
    text: &[u8],
    out: &mut [u8],
) -> Page
    ghost view: { View }
    requires* seen { sem 𝓛 (seen_at lexer view) }
    ensures* seen { sem 𝓛 (seen_at lexer view) }
    ensures shown { IsShown view.held Ansi text.now out.old result out.new }
{
    ansi_into(&*(lexer as *const Held), alloc, text, out)
}

/// Writes the lexer as a source file in C whose names begin with the prefix, as many bytes as fit, and says how many there are.
#[unsafe(no_mangle)]
pub unsafe extern "C" fn bajofeki_c_source(
    lexer: *const u8,
    alloc: Global,
    prefix: &[u8],
    out: &mut [u8],
) -> Page
    ghost view: { View }
    requires* seen { sem 𝓛 (seen_at lexer view) }
    ensures* seen { sem 𝓛 (seen_at lexer view) }
    ensures source { IsCSource view.held prefix.now out.old result out.new }
{
    c_source_into(&*(lexer as *const Held), alloc, prefix, out)
}

/// The same in Rust.
#[unsafe(no_mangle)]
pub unsafe extern "C" fn bajofeki_rust_source(
    lexer: *const u8,
    alloc: Global,
    out: &mut [u8],
) -> Page
    ghost view: { View }
    requires* seen { sem 𝓛 (seen_at lexer view) }
    ensures* seen { sem 𝓛 (seen_at lexer view) }
    ensures source { IsRustSource view.held out.old result out.new }
{
    rust_source_into(&*(lexer as *const Held), alloc, out)
}

/// Gives the memory of a lexer back. What lies there then says so, and owns nothing, so the room can be given back as it is.
#[unsafe(no_mangle)]
pub unsafe extern "C" fn bajofeki_free(lexer: *mut u8)
    ghost held: { HeldValue }
    requires* held { sem 𝓛 (held_at lexer held) }
    ensures* freed { sem 𝓛 (freed_at lexer) }
{
    std::ptr::write(
        lexer as *mut Held,
        let_go(std::ptr::read(lexer as *const Held)),
    );
}

/// Begins, in the room at `cutter`, the cut of a text of `size` bytes. A text of another size is cut right too, but a long one
/// maybe more slowly.
///
/// The code is 0, or 7 if memory was refused, or 9 if there is no lexer; then too something lies there that `bajofeki_end` takes.
#[unsafe(no_mangle)]
pub unsafe extern "C" fn bajofeki_begin(
    lexer: *const u8,
    cutter: *mut u8,
    alloc: Global,
    size: usize,
) -> u32
    ghost view: { View }
    requires* room { sem 𝓛 (seen_at lexer view) ∗ sem 𝓛 (room_for_cutting cutter) }
    ensures* begun { sem 𝓛 (seen_at lexer view) ∗ sem 𝓛 (begun_at cutter view.held size result) }
{
    std::ptr::write(
        cutter as *mut Cutting,
        begin(&*(lexer as *const Held), alloc, size),
    );
    code_of(&*(cutter as *const Cutting))
}

/// Begins the cut of another text, of `size` bytes, where one has begun, by this lexer or another. The memory of that cut serves
/// again.
///
/// The code is as for `bajofeki_begin`. `bajofeki_end` is owed once.
#[unsafe(no_mangle)]
pub unsafe extern "C" fn bajofeki_begin_again(
    lexer: *const u8,
    cutter: *mut u8,
    alloc: Global,
    size: usize,
) -> u32
    ghost both: { Cutter }
    requires* held { sem 𝓛 (seen_at lexer both.view) ∗ sem 𝓛 (cutting_at cutter both.cutting) }
    requires cut { WasBegun both.cutting }
    ensures* begun { sem 𝓛 (seen_at lexer both.view)
        ∗ sem 𝓛 (begun_at cutter both.view.held size result) }
{
    begin_again(
        &*(lexer as *const Held),
        &mut *(cutter as *mut Cutting),
        alloc,
        size,
    )
}

/// Cuts the text on, and writes its pieces, as many as the array has room for. The lexer and the text are those of the calls
/// since the cut began.
#[unsafe(no_mangle)]
pub unsafe extern "C" fn bajofeki_cut(
    lexer: *const u8,
    cutter: *mut u8,
    text: &[u8],
    out: &mut [Piece],
) -> Cut
    ghost both: { Cutter }
    requires* held { sem 𝓛 (seen_at lexer both.view) ∗ sem 𝓛 (cutting_at cutter both.cutting) }
    requires cut { GoesOn both.view.held text.now both.cutting }
    ensures* cut { sem 𝓛 (seen_at lexer both.view)
        ∗ sem 𝓛 (cut_at cutter both text.now out.old result out.new) }
{
    cut_on(
        &*(lexer as *const Held),
        &mut *(cutter as *mut Cutting),
        text,
        out,
    )
}

/// Gives the memory of a cut back: only its room is left.
#[unsafe(no_mangle)]
pub unsafe extern "C" fn bajofeki_end(cutter: *mut u8)
    ghost cutting: { CuttingValue }
    requires* held { sem 𝓛 (cutting_at cutter cutting) }
    ensures* room { sem 𝓛 (room_for_cutting cutter) }
{
    let_cutting_go(std::ptr::read(cutter as *const Cutting));
}

/// The bytes that a document takes. They lie at a multiple of 8.
#[unsafe(no_mangle)]
pub extern "C" fn bajofeki_document_size() -> usize
    ensures size { result ≡ document_size }
    ensures aligned { document_align ≡ 8 }
{
    size_of::<Document>()
}

/// Begins, in the room at `document`, an empty text that is edited, by a lexer that is seen as long as it.
#[unsafe(no_mangle)]
pub unsafe extern "C" fn bajofeki_document_begin(lexer: *const u8, document: *mut u8, alloc: Global)
    ghost view: { View }
    requires* room { sem 𝓛 (seen_at lexer view) ∗ sem 𝓛 (room_for_document document) }
    ensures* begun { sem 𝓛 (seen_at lexer view) ∗ sem 𝓛 (document_begun_at document view) }
{
    std::ptr::write(
        document as *mut Document,
        begin_document(&*(lexer as *const Held), alloc),
    );
}

/// Replaces the bytes from `from` to `to` of the text by these, and says which of its pieces changed.
#[unsafe(no_mangle)]
pub unsafe extern "C" fn bajofeki_edit(
    document: *mut u8,
    alloc: Global,
    from: usize,
    to: usize,
    new: &[u8],
) -> Edit
    ghost held: { HeldDocument }
    requires* held { sem 𝓛 (document_at document held) }
    ensures* edited { sem 𝓛 (edited_at document held from to new.now result) }
{
    edit_document(&mut *(document as *mut Document), alloc, from, to, new)
}

/// Writes the pieces that hold a byte of the range, each whole, as many as fit, and says how many there are.
#[unsafe(no_mangle)]
pub unsafe extern "C" fn bajofeki_pieces(
    document: *const u8,
    alloc: Global,
    from: usize,
    to: usize,
    out: &mut [Piece],
) -> Count
    ghost held: { HeldDocument }
    requires* held { sem 𝓛 (document_at document held) }
    ensures* held { sem 𝓛 (document_at document held) }
    ensures pieces { ArePiecesTold held.document from to out.old result out.new }
{
    pieces_into(&*(document as *const Document), alloc, from, to, out)
}

/// The line and the column of an offset in bytes: zeros inside a character, past the end, and without a lexer.
#[unsafe(no_mangle)]
pub unsafe extern "C" fn bajofeki_place(document: *const u8, at: usize) -> Place
    ghost held: { HeldDocument }
    requires* held { sem 𝓛 (document_at document held) }
    ensures* held { sem 𝓛 (document_at document held) }
    ensures place { IsPlace held.document at result }
{
    place_in_document(&*(document as *const Document), at)
}

/// The offset of a line and a column: zeros if the text has no such place.
#[unsafe(no_mangle)]
pub unsafe extern "C" fn bajofeki_offset(document: *const u8, line: usize, column: usize) -> Place
    ghost held: { HeldDocument }
    requires* held { sem 𝓛 (document_at document held) }
    ensures* held { sem 𝓛 (document_at document held) }
    ensures place { IsOffset held.document line column result }
{
    offset_in_document(&*(document as *const Document), line, column)
}

/// Writes the text from a byte on, as many bytes as fit, and says how many there are.
#[unsafe(no_mangle)]
pub unsafe extern "C" fn bajofeki_copy(document: *const u8, from: usize, out: &mut [u8]) -> usize
    ghost held: { HeldDocument }
    requires* held { sem 𝓛 (document_at document held) }
    ensures* held { sem 𝓛 (document_at document held) }
    ensures written { IsWritten (drop from (text_of held.document)) out.old out.new result }
{
    text_into(&*(document as *const Document), from, out)
}

/// Gives the memory of a document back: only its room is left.
#[unsafe(no_mangle)]
pub unsafe extern "C" fn bajofeki_document_end(document: *mut u8)
    ghost held: { HeldDocument }
    requires* held { sem 𝓛 (document_at document held) }
    ensures* room { sem 𝓛 (document_ended_at document held) }
{
    let_document_go(std::ptr::read(document as *const Document));
}

/// The bytes that a stream takes. They lie at a multiple of 8.
#[unsafe(no_mangle)]
pub extern "C" fn bajofeki_stream_size() -> usize
    ensures size { result ≡ stream_size }
    ensures aligned { stream_align ≡ 8 }
{
    size_of::<Stream>()
}

/// Begins, in the room at `stream`, a text of which nothing has come, by a lexer that is seen as long as it.
#[unsafe(no_mangle)]
pub unsafe extern "C" fn bajofeki_stream_begin(lexer: *const u8, stream: *mut u8, alloc: Global)
    ghost view: { View }
    requires* room { sem 𝓛 (seen_at lexer view) ∗ sem 𝓛 (room_for_stream stream) }
    ensures* begun { sem 𝓛 (seen_at lexer view) ∗ sem 𝓛 (stream_begun_at stream view) }
{
    std::ptr::write(
        stream as *mut Stream,
        begin_stream(&*(lexer as *const Held), alloc),
    );
}

/// More bytes of the text come.
#[unsafe(no_mangle)]
pub unsafe extern "C" fn bajofeki_feed(
    stream: *mut u8,
    alloc: Global,
    bytes: &[u8],
    is_last: bool,
) -> u32
    ghost held: { HeldStream }
    requires* held { sem 𝓛 (stream_at stream held) }
    ensures* fed { sem 𝓛 (fed_at stream held bytes.now is_last result) }
{
    feed_stream(&mut *(stream as *mut Stream), alloc, bytes, is_last)
}

/// Writes the next pieces that no later byte can change, as many as the array has room for.
#[unsafe(no_mangle)]
pub unsafe extern "C" fn bajofeki_next(stream: *mut u8, out: &mut [Piece]) -> Count
    ghost held: { HeldStream }
    requires* held { sem 𝓛 (stream_at stream held) }
    ensures* given { sem 𝓛 (given_at stream held out.old result out.new) }
{
    next_in_stream(&mut *(stream as *mut Stream), out)
}

/// Gives the memory of a stream back: only its room is left.
#[unsafe(no_mangle)]
pub unsafe extern "C" fn bajofeki_stream_end(stream: *mut u8)
    ghost held: { HeldStream }
    requires* held { sem 𝓛 (stream_at stream held) }
    ensures* room { sem 𝓛 (stream_ended_at stream held) }
{
    let_stream_go(std::ptr::read(stream as *const Stream));
}

/// Checks the rules of a file of this name, as `tokens --check` does: writes what it finds, and then what it says, as many bytes as fit, and
/// says how many there are.
#[unsafe(no_mangle)]
pub extern "C" fn bajofeki_check(
    alloc: Global,
    name: &[u8],
    rules: &[u8],
    is_json: bool,
    out: &mut [u8],
) -> Checked
    ensures checked { IsChecked name.now rules.now is_json out.old result out.new }
{
    check_into(alloc, name, rules, is_json, out)
}

/// Compares the rules of two files of these names, as `tokens --diff` does: writes what differs, and then what it says, as many bytes as
/// fit, and says how many there are.
#[unsafe(no_mangle)]
pub extern "C" fn bajofeki_diff(
    alloc: Global,
    name: &[u8],
    rules: &[u8],
    other_name: &[u8],
    other: &[u8],
    out: &mut [u8],
) -> Checked
    ensures compared { IsCompared name.now rules.now other_name.now other.now
        out.old result out.new }
{
    compare_into(alloc, name, rules, other_name, other, out)
}

/// Draws the automata of the rules of a file of this name, as `tokens --dot` does: of each mode; or, if the name of a rule isn't empty, of
/// the rules that have it. Writes the pictures, and then what it says, as many bytes as fit, and says how many there are.
#[unsafe(no_mangle)]
pub extern "C" fn bajofeki_dot(
    alloc: Global,
    name: &[u8],
    rules: &[u8],
    rule: &[u8],
    out: &mut [u8],
) -> Checked
    ensures drawn { IsDrawing name.now rules.now rule.now out.old result out.new }
{
    draw_into(alloc, name, rules, rule, out)
}

/// The line and the column of an offset in bytes.
#[unsafe(no_mangle)]
pub extern "C" fn bajofeki_position(text: &[u8], at: usize) -> Place
    ensures place { result ≡ place_in text.now at }
{
    place_of(text, at)
}

/// The version of these functions: 5.
#[unsafe(no_mangle)]
pub extern "C" fn bajofeki_version() -> u32
    ensures version { result ≡ 5 }
{
    5
}
