//! Cutting files one after another: the lines or the markup of each are written.
ghost use Rattle.std.specs.Prelude.{◌≡◌, max, map, string_bytes, IfOk, OnOk, IfErr};
ghost use Rattle.lexdfa_lib.specs.Streams.{Reads};
ghost use Rattle.reports_lib.specs.Answer.{remark};
ghost use Rattle.pieces_lib.specs.Console.{Answers, Fails, Says};
ghost use Rattle.pieces_lib.specs.FileAnswers.{is_input, shown_name, ReadingAnswer, FileAnswer, NumberedAnswer, NumberedPart, FilesAnswer, TextsAnswer, FirstFilesAnswer, FirstTextsAnswer};
ghost use Rattle.pieces_lib.specs.TextAnswer.{cut_status as status_of_cut, cut_text as text_of_cut, PiecesAnswer, PiecesPart, PageAnswer, PagePart};
ghost use Rattle.pieces_lib.specs.Tasks.{TaskAnswer, TaskPart, EitherAnswer, ReadAnswer};

use crate::console::Console;
use crate::cut_end::CutEnd;
use crate::fault::{fault_message, open_message, unread_message};
use crate::lines::write_lines;
use crate::page::write_page;
use crate::progress::{number_message, total_said};
use lalrpop_rules::RuleLexer;
use lexdfa_lib::{Files, Markup, NoBytes, Reader, RunError, Sink, Source, Verbosity};
use reports_lib::{Layout, LineForm, NO_TEXT, mode_name, unread};
use std::alloc::{AllocError, Global};

/// What is done with each text.
///
/// ```
/// use pieces_lib::Task;
/// use reports_lib::LineForm;
///
/// let task = Task::Pieces { rules: &lexer, form: LineForm::Plain, recovers: true, several: false };
/// ```
#[derive(Clone, Copy)]
pub enum Task<'rules> {
    /// It is cut, and the lines of its pieces are written.
    Pieces {
        rules: &'rules RuleLexer,
        form: LineForm,
        /// Whether cutting goes on after a fault.
        recovers: bool,
        /// Whether there are several files, so that each line names its own.
        several: bool,
    },
    /// It is cut, and written as markup.
    Markup {
        rules: &'rules RuleLexer,
        markup: Markup,
    },
}

// The name that standard input has in lines and messages.
const INPUT: &str = "<stdin>";

// Whether a file is standard input.
fn is_input(file: &str) -> bool
    ensures input { result ≡ is_input file.now }
{
    file == "-"
}

// The name of a file in lines and messages.
fn shown_name(file: &str) -> &str
    ensures name { result.now ≡ shown_name file.now }
{
    if is_input(file) { INPUT } else { file }
}

// ---- texts

// The status of a text that was cut.
fn status_of(end: &CutEnd) -> u8
    ensures { result ≡ status_of_cut end.now }
{
    match end {
        CutEnd::Whole {
            has_fault: false,
            inside: None,
        } => 0,
        CutEnd::Whole { .. } | CutEnd::Stopped { .. } => 1,
        CutEnd::Unread => NO_TEXT,
    }
}

// The line that says in which mode a text ends, where cutting stopped, or that a read failed; nothing if all is in order.
fn end_message(
    alloc: Global,
    modes: &[String],
    name: &str,
    end: &CutEnd,
) -> Result<String, AllocError>
    ensures message { IfOk result (λ message.
        string_bytes message ≡ text_of_cut (map string_bytes modes.now) name.now end.now) }
{
    match end {
        CutEnd::Whole { inside, .. } => match inside {
            Some(open) => open_message(alloc, mode_name(modes, open.mode), name, open.place),
            None => Ok(String::new(alloc)),
        },
        CutEnd::Stopped { place, found } => { fault_message(alloc, name, *place, *found) }
        CutEnd::Unread => unread_message(alloc, name),
    }
}

// Says how cutting ended, if something is wrong, and returns the status.
fn tell_end<O: Sink, E: Sink>(
    alloc: Global,
    modes: &[String],
    name: &str,
    end: &CutEnd,
    console: &mut Console<O, E>,
) -> Result<u8, RunError>
    ensures status { IfOk result (λ status. status ≡ status_of_cut end.now) }
    ensures said { OnOk result (Says console.old
        (text_of_cut (map string_bytes modes.now) name.now end.now) console.new) }
    ensures fails { IfErr result (λ e. Fails
        (λ a. a ≡ remark (text_of_cut (map string_bytes modes.now) name.now end.now))
        console.old e console.new) }
{
    let message = end_message(alloc, modes, name, end)?;
    console.say(message.as_str())?;
    Ok(status_of(end))
}

// Cuts what is read, writes the lines of its pieces, and returns the status.
fn cut_pieces<S: Source, O: Sink, E: Sink>(
    alloc: Global,
    rules: &RuleLexer,
    form: LineForm,
    recovers: bool,
    several: bool,
    name: &str,
    reader: &mut Reader<S>,
    console: &mut Console<O, E>,
) -> Result<u8, RunError>
    ensures answer { IfOk result (λ status. Answers (ReadAnswer (Reads reader.old reader.new)
        (PiecesAnswer rules.now rules.now.mode_names
        form recovers several name.now)) console.old status console.new) }
    ensures fails { IfErr result (λ e. Fails (ReadAnswer (Reads reader.old reader.new)
        (EitherAnswer (PiecesAnswer rules.now rules.now.mode_names
        form recovers several)
        (PiecesPart rules.now rules.now.mode_names
        form recovers several)
        name.now)) console.old e console.new) }
{
    let modes = rules.mode_names();
    let layout = Layout {
        form,
        recovers,
        file: several.then_some(name),
        modes,
    };
    let end = write_lines(alloc, rules, &layout, reader, console)?;
    tell_end(alloc, modes, name, &end, console)
}

// Cuts what is read, writes it as markup, and returns the status.
fn cut_page<S: Source, O: Sink, E: Sink>(
    alloc: Global,
    rules: &RuleLexer,
    markup: Markup,
    name: &str,
    reader: &mut Reader<S>,
    console: &mut Console<O, E>,
) -> Result<u8, RunError>
    ensures answer { IfOk result (λ status. Answers (ReadAnswer (Reads reader.old reader.new)
        (PageAnswer rules.now rules.now.mode_names markup name.now))
        console.old status console.new) }
    ensures fails { IfErr result (λ e. Fails (ReadAnswer (Reads reader.old reader.new)
        (EitherAnswer (PageAnswer rules.now rules.now.mode_names markup)
        (PagePart rules.now rules.now.mode_names markup)
        name.now)) console.old e console.new) }
{
    let end = write_page(alloc, rules, markup, reader, console)?;
    tell_end(alloc, rules.mode_names(), name, &end, console)
}

// ---- files

// Does the task for what is read, and returns the status.
fn run_task<S: Source, O: Sink, E: Sink>(
    alloc: Global,
    task: &Task<'_>,
    name: &str,
    reader: &mut Reader<S>,
    console: &mut Console<O, E>,
) -> Result<u8, RunError>
    ensures answer { IfOk result (λ status. Answers (ReadAnswer (Reads reader.old reader.new)
        (TaskAnswer task.now name.now)) console.old status console.new) }
    ensures fails { IfErr result (λ e. Fails (ReadAnswer (Reads reader.old reader.new)
        (EitherAnswer (TaskAnswer task.now) (TaskPart task.now) name.now))
        console.old e console.new) }
{
    match *task {
        Task::Pieces {
            rules,
            form,
            recovers,
            several,
        } => cut_pieces(alloc, rules, form, recovers, several, name, reader, console),
        Task::Markup { rules, markup } => cut_page(alloc, rules, markup, name, reader, console),
    }
}

// Does the task for a file, and returns the status. The file is open until then.
fn cut_file<F: Files, O: Sink, E: Sink>(
    alloc: Global,
    task: &Task<'_>,
    files: &F,
    name: &str,
    console: &mut Console<O, E>,
) -> Result<u8, RunError>
    ensures answer { IfOk result (λ status. Answers (ReadAnswer (F.gives files.now name.now)
        (ReadingAnswer (TaskAnswer task.now) name.now)) console.old status console.new) }
    ensures fails { IfErr result (λ e. Fails (ReadAnswer (F.gives files.now name.now)
        (EitherAnswer (ReadingAnswer (TaskAnswer task.now)) (TaskPart task.now) name.now))
        console.old e console.new) }
{
    match files.open(alloc, name) {
        Ok(source) => run_task(alloc, task, name, &mut Reader::new(source), console),
        Err(NoBytes::OutOfMemory) => Err(RunError::OutOfMemory),
        Err(NoBytes::Because(reason)) => console.give(&unread(alloc, name, reason.as_str())?),
    }
}

// The greater of two statuses.
fn worse(status: u8, other: u8) -> u8
    ensures { result ≡ max status other }
{
    status.max(other)
}

// Does the task for a file, where `-` is standard input, and returns the status.
fn cut_file_or_input<F: Files, S: Source, O: Sink, E: Sink>(
    alloc: Global,
    task: &Task<'_>,
    files: &F,
    name: &str,
    input: &mut Reader<S>,
    console: &mut Console<O, E>,
) -> Result<u8, RunError>
    ensures answer { IfOk result (λ status. Answers (FileAnswer (F.gives files.now)
        (ReadingAnswer (TaskAnswer task.now)) input.old input.new name.now)
        console.old status console.new) }
    ensures fails { IfErr result (λ e. Fails (FileAnswer (F.gives files.now)
        (EitherAnswer (ReadingAnswer (TaskAnswer task.now)) (TaskPart task.now))
        input.old input.new name.now) console.old e console.new) }
{
    if is_input(name) {
        run_task(alloc, task, INPUT, input, console)
    } else {
        cut_file(alloc, task, files, name, console)
    }
}

// Says which of the files it is, if their number is said; does the task for it, and returns the status.
fn cut_numbered<F: Files, S: Source, O: Sink, E: Sink>(
    alloc: Global,
    task: &Task<'_>,
    total: Option<usize>,
    number: usize,
    files: &F,
    name: &str,
    input: &mut Reader<S>,
    console: &mut Console<O, E>,
) -> Result<u8, RunError>
    ensures answer { IfOk result (λ status. Answers (NumberedAnswer (F.gives files.now)
        (ReadingAnswer (TaskAnswer task.now)) total number input.old input.new name.now)
        console.old status console.new) }
    ensures fails { IfErr result (λ e. Fails (NumberedPart (F.gives files.now)
        (EitherAnswer (ReadingAnswer (TaskAnswer task.now)) (TaskPart task.now))
        total number input.old input.new name.now) console.old e console.new) }
{
    let message = number_message(alloc, total, number, shown_name(name))?;
    console.say(message.as_str())?;
    cut_file_or_input(alloc, task, files, name, input, console)
}

// Does the task for each file, and returns the greatest status.
fn cut_each<F: Files, S: Source, O: Sink, E: Sink>(
    alloc: Global,
    task: &Task<'_>,
    total: Option<usize>,
    files: &F,
    names: &[&str],
    input: &mut Reader<S>,
    console: &mut Console<O, E>,
) -> Result<u8, RunError>
    ensures answer { IfOk result (λ status. Answers (FilesAnswer (NumberedAnswer
        (F.gives files.now) (ReadingAnswer (TaskAnswer task.now)) total) 1 input.old input.new
        (map (λ name. name.now) names.now)) console.old status console.new) }
    ensures fails { IfErr result (λ e. Fails (FirstFilesAnswer (NumberedAnswer
        (F.gives files.now) (ReadingAnswer (TaskAnswer task.now)) total)
        (NumberedPart (F.gives files.now) (TaskPart task.now) total)
        input.old (map (λ name. name.now) names.now)) console.old e console.new) }
{
    let mut status = 0u8;
    for (i, name) in names.iter().enumerate() {
        let own = cut_numbered(alloc, task, total, i + 1, files, name, input, console)?;
        status = worse(status, own);
    }
    Ok(status)
}

/// Does the task for each file, or for standard input if there are none, and returns the greatest status. A file `-` is
/// standard input too.
///
/// # Errors
///
/// `OutOfMemory` if a request for memory was refused, and `Write` if a write to standard output fails.
pub fn cut_all<F: Files, S: Source, O: Sink, E: Sink>(
    alloc: Global,
    task: &Task<'_>,
    verbosity: Verbosity,
    files: &F,
    names: &[&str],
    input: &mut Reader<S>,
    console: &mut Console<O, E>,
) -> Result<u8, RunError>
    ensures answer { IfOk result (λ status. Answers (TextsAnswer (F.gives files.now)
        input.old input.new verbosity (TaskAnswer task.now) (TaskPart task.now)
        (map (λ name. name.now) names.now)) console.old status console.new) }
    ensures fails { IfErr result (λ e. Fails (FirstTextsAnswer (F.gives files.now) input.old
        verbosity (TaskAnswer task.now) (TaskPart task.now) (map (λ name. name.now) names.now))
        console.old e console.new) }
{
    let total = total_said(verbosity, names.len());
    if names.is_empty() {
        cut_each(alloc, task, total, files, &["-"], input, console)
    } else {
        cut_each(alloc, task, total, files, names, input, console)
    }
}
