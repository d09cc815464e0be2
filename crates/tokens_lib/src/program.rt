//! The program `tokens`: its arguments, what it says if it fails, and its exit status.
ghost use Rattle.std.specs.Prelude.{◌≡◌, ◌≢◌, ◌≤◌, map, length, nat_lt, string_bytes, Err, IfOk, OnOk, IfErr};
ghost use Rattle.std.specs.Process.{exit_status};
ghost use Rattle.lexdfa_lib.specs.Ending.{ending_status};
ghost use Rattle.lexdfa_lib.specs.Streams.{GivesWhole, IsTold};
ghost use Rattle.reports_lib.specs.Answer.{refusal};
ghost use Rattle.pieces_lib.specs.Console.{Answers, Begins, Fails};
ghost use Rattle.pieces_lib.specs.FileAnswers.{TextsAnswer, FirstTextsAnswer};
ghost use Rattle.tokens_lib.specs.Program.{ActionAnswer, CommandAnswer, IsAnswer, IsFirstAnswer, ending, failure_text, information};
ghost use Rattle.reports_lib.specs.NamedRules.{ByLexer};
ghost use Rattle.pieces_lib.specs.TextAnswer.{PiecesAnswer, PiecesPart, PageAnswer, PagePart};
ghost use Rattle.lexdfa_lib.specs.Usage.{help, version, wrong_text};

use crate::emitted::emit;
use lexdfa_lib::{
    Action, ArgumentsError, Command, ErrorStream, Failure, Files, Markup, Output, Reader, RunError,
    Sink, Source, SystemFiles, Verbosity, WRONG_ARGUMENTS, Watched, Writer, command_of, flushed,
    help, joined, status_of, version, without_arguments, wrong_text,
};
use pieces_lib::{Console, Task, cut_all, reading_message};
use reports_lib::{LineForm, Reply, lexer_by_name};
use reviews_lib::{Listing, compare, draw, list_rules};
use std::alloc::{AllocError, Global};
use std::env;
use std::io::{self, Eprint, Write};
use std::process::ExitCode;
use std::rt::{Env, Files as RuntimeFiles};

// What is answered where something was asked of the program itself.
fn informed(alloc: Global, text: &str) -> Result<Reply, AllocError>
    ensures answer { IfOk result (λ reply. reply ≡ information text.now) }
{
    let text = String::from_str(alloc, text)?;
    Ok(Reply::written(alloc, 0, text.into_bytes()))
}

// Whether there are several files, so that each line names its own.
fn are_several(names: &[&str]) -> bool
    ensures { result ≡ nat_lt 1 (length (map (λ name. name.now) names.now)) }
{
    names.len() > 1
}

// Cuts the files by a file of rules, or standard input if there are none; writes lines, and returns the status.
fn cut_lines<F: Files, S: Source, O: Sink, E: Sink>(
    alloc: Global,
    form: LineForm,
    recovers: bool,
    verbosity: Verbosity,
    rules: &str,
    names: &[&str],
    files: &F,
    input: &mut Reader<S>,
    console: &mut Console<O, E>,
) -> Result<u8, RunError>
    ensures answer { IfOk result (λ status. Answers (ActionAnswer (GivesWhole (F.gives files.now))
        (TextsAnswer (F.gives files.now) input.old input.new)
        (Action.Cut form recovers) verbosity rules.now (map (λ name. name.now) names.now))
        console.old status console.new) }
    ensures fails { IfErr result (λ e. Fails (ActionAnswer (GivesWhole (F.gives files.now))
        (FirstTextsAnswer (F.gives files.now) input.old)
        (Action.Cut form recovers) verbosity rules.now (map (λ name. name.now) names.now))
        console.old e console.new) }
{
    match lexer_by_name(alloc, verbosity, files, rules)? {
        Ok(found) => {
            console.say(found.said.as_str())?;
            let task = Task::Pieces {
                rules: &found.lexer,
                form,
                recovers,
                several: are_several(names),
            };
            cut_all(alloc, &task, verbosity, files, names, input, console)
        }
        Err(reply) => console.give(&reply),
    }
}

// Cuts the files by a file of rules, or standard input if there are none; writes markup, and returns the status.
fn cut_pages<F: Files, S: Source, O: Sink, E: Sink>(
    alloc: Global,
    markup: Markup,
    verbosity: Verbosity,
    rules: &str,
    names: &[&str],
    files: &F,
    input: &mut Reader<S>,
    console: &mut Console<O, E>,
) -> Result<u8, RunError>
    ensures answer { IfOk result (λ status. Answers (ActionAnswer (GivesWhole (F.gives files.now))
        (TextsAnswer (F.gives files.now) input.old input.new)
        (Action.Show markup) verbosity rules.now (map (λ name. name.now) names.now))
        console.old status console.new) }
    ensures fails { IfErr result (λ e. Fails (ActionAnswer (GivesWhole (F.gives files.now))
        (FirstTextsAnswer (F.gives files.now) input.old)
        (Action.Show markup) verbosity rules.now (map (λ name. name.now) names.now))
        console.old e console.new) }
{
    match lexer_by_name(alloc, verbosity, files, rules)? {
        Ok(found) => {
            console.say(found.said.as_str())?;
            let task = Task::Markup {
                rules: &found.lexer,
                markup,
            };
            cut_all(alloc, &task, verbosity, files, names, input, console)
        }
        Err(reply) => console.give(&reply),
    }
}

// Does an action by a file of rules on the files, or on standard input if there are none, and returns the status.
fn run_action<F: Files, S: Source, O: Sink, E: Sink>(
    alloc: Global,
    action: Action<'_>,
    verbosity: Verbosity,
    rules: &str,
    names: &[&str],
    files: &F,
    input: &mut Reader<S>,
    console: &mut Console<O, E>,
) -> Result<u8, RunError>
    ensures answer { IfOk result (λ status. Answers (ActionAnswer (GivesWhole (F.gives files.now))
        (TextsAnswer (F.gives files.now) input.old input.new) action.entry verbosity rules.now
        (map (λ name. name.now) names.now)) console.old status console.new) }
    ensures fails { IfErr result (λ e. Fails (ActionAnswer (GivesWhole (F.gives files.now))
        (FirstTextsAnswer (F.gives files.now) input.old) action.entry verbosity rules.now
        (map (λ name. name.now) names.now)) console.old e console.new) }
{
    match action {
        Action::Cut { form, recovers } => cut_lines(
            alloc, form, recovers, verbosity, rules, names, files, input, console,
        ),
        Action::Show { markup } => cut_pages(
            alloc, markup, verbosity, rules, names, files, input, console,
        ),
        Action::Clashes => {
            console.give(&list_rules(alloc, Listing::Clashes, verbosity, files, rules)?)
        }
        Action::Check { form } => {
            console.give(&list_rules(alloc, Listing::Review(form), verbosity, files, rules)?)
        }
        Action::Emit { language } => {
            console.give(&emit(alloc, verbosity, files, rules, language)?)
        }
        Action::Picture => console.give(&draw(alloc, verbosity, files, rules, names)?),
        Action::Difference => console.give(&compare(alloc, verbosity, files, rules, names)?),
    }
}

// Does what a command says, and returns the status.
fn run_command<F: Files, S: Source, O: Sink, E: Sink>(
    alloc: Global,
    command: &Command<'_>,
    files: &F,
    input: &mut Reader<S>,
    console: &mut Console<O, E>,
) -> Result<u8, RunError>
    ensures answer { IfOk result (λ status. Answers (CommandAnswer
        (ActionAnswer (GivesWhole (F.gives files.now))
        (TextsAnswer (F.gives files.now) input.old input.new)) command.now)
        console.old status console.new) }
    ensures fails { IfErr result (λ e. Fails (CommandAnswer
        (λ action verbosity rules names. Begins (ActionAnswer (GivesWhole (F.gives files.now))
        (FirstTextsAnswer (F.gives files.now) input.old) action verbosity rules names)) command.now)
        console.old e console.new) }
{
    match command {
        Command::Help => console.give(&informed(alloc, help())?),
        Command::Version => console.give(&informed(alloc, version())?),
        Command::Run {
            action,
            verbosity,
            rules,
            files: names,
        } => {
            let message = reading_message(alloc, *verbosity, rules)?;
            console.say(message.as_str())?;
            run_action(
                alloc, *action, *verbosity, rules, names, files, input, console,
            )
        }
    }
}

// What is answered to wrong arguments.
fn arguments_refused(alloc: Global, error: &ArgumentsError<'_>) -> Result<Reply, AllocError>
    ensures other { OnOk result (error.now ≢ ArgumentsError.OutOfMemory) }
    ensures answer { IfOk result (λ reply. reply ≡ refusal 4 (wrong_text error.now)) }
{
    if let ArgumentsError::OutOfMemory = error {
        return Err(AllocError);
    }
    let message = wrong_text(alloc, error)?;
    Ok(Reply::refusal(alloc, WRONG_ARGUMENTS, message))
}

/// Does what the arguments say (`command_of`): writes what was asked of the program itself; cuts the files, or standard input
/// if none is named, by the file of rules that is named first, and writes the lines of `write_lines`, or the markup of each
/// text, to `out`; or lists all clashes of the rules (`write_rule_clashes`); or writes the lexer of the rules in C or Rust
/// (`lalrpop_emit`), or pictures of their automata (`lalrpop_verdicts`). A file `-` is standard input: it is read where it
/// stands, and a later `-` reads what is left. After a read that failed it isn't read again. A text is read and answered as it
/// comes, and no further than it is wanted. What is wrong is explained on `err`, after the warnings about the file of rules
/// (`warnings_message`), which `--quiet` leaves out; if a write there fails, nothing more is said, and the run goes on.
///
/// `--check` reads the rules alone. If some clash, it writes all clashes; otherwise it writes a review (`lalrpop_review`): the
/// rules that match the empty text, and for each mode the rules that never win and how large its smallest automaton is. With `--json` the
/// warnings are written to `out` too, before these lines (`warnings_json`), and aren't said. `--diff` reads two files of rules,
/// and for each mode writes the least text of which they make different tokens, if there is one.
///
/// The exit status is
///
/// - 0 if each text was cut to its end, has no fault and ends in a mode with none below it; if no rules clash; if a check finds no
///   rule that matches the empty text or never wins, and has no warning to say; or if two files of rules make the same tokens,
/// - 1 if a text has a fault or ends in another mode, if a check finds such a rule or says a warning, or if two files of rules
///   differ,
/// - 2 if rules can't be compiled or written, or clash,
/// - 3 if a line of the rules is bad or its pattern doesn't parse,
/// - 4 for wrong arguments, also for the name of a rule that isn't there,
/// - 6 if a file gave no text, or a read of it failed.
///
/// Of several files, and of the warnings and the rest of a check, the greatest status counts.
///
/// # Errors
///
/// `OutOfMemory` if a request for memory was refused, and `Write` if a write to `out` failed or took no byte. In either case
/// `out` took a prefix of what is written for the texts that were come to, and nothing else.
pub fn run<F: Files, S: Source, O: Sink, E: Sink>(
    alloc: Global,
    words: &[String],
    files: &F,
    input: &mut Reader<S>,
    console: &mut Console<O, E>,
) -> Result<u8, RunError>
    ensures answer { IfOk result (λ status. Answers (IsAnswer (F.gives files.now)
        input.old input.new (map string_bytes words.now)) console.old status console.new) }
    ensures status { IfOk result (λ status. status ≤ 6) }
    ensures fails { IfErr result (λ e. Fails (IsFirstAnswer (F.gives files.now)
        input.old (map string_bytes words.now)) console.old e console.new) }
{
    let words = joined(alloc, words)?;
    match command_of(alloc, &words) {
        Ok(command) => run_command(alloc, &command, files, input, console),
        Err(error) => console.give(&arguments_refused(alloc, &error)?),
    }
}

// `run` for the program's arguments, over the files and standard input of the system.
fn run_in_system<R: Env + RuntimeFiles + Input + AllocGlobal, O: Sink, E: Sink>(
    rt: &R,
    console: &mut Console<O, E>,
) -> Result<u8, Failure>
    ensures { IfOk result (λ status. status ≤ 6) }
{
    let words = env::args(rt).map_err(|error| without_arguments(&error))?;
    let Ok(words) = words.skip(1).collect::<Vec<String>>(rt.alloc()) else {
        return Err(Failure::Run(RunError::OutOfMemory));
    };
    let files = SystemFiles { rt };
    let mut input = Reader::new(Watched::new(rt.reader()));
    match run(rt.alloc(), &words, &files, &mut input, console) {
        Ok(status) => Ok(status),
        Err(error) => Err(Failure::Run(error)),
    }
}

// What is said of a run that fails.
fn failure_text(failure: &Failure) -> &'static str
    ensures { result.now ≡ failure_text failure.now }
{
    match failure {
        Failure::Usage => "tokens: an argument isn't UTF-8\n",
        Failure::Run(RunError::OutOfMemory) => "tokens: out of memory\n",
        Failure::Run(RunError::Read) => "tokens: read failed\n",
        Failure::Run(RunError::Write) => "tokens: write failed\n",
    }
}

// Says why a run failed, and returns the exit status.
fn fail<W: Write + Drop>(failure: Failure, err: &mut Writer<Watched<W>>) -> u8
    ensures status { result ≡ ending_status (Err failure) }
    ensures said { IsTold err.old (failure_text failure) err.new }
{
    // If that fails, the exit status still reports the failure.
    let _ = err.tell(failure_text(&failure));
    status_of(&Err(failure))
}

// Says what failed, if anything did, and returns the exit status, by the flush after the run: a failed flush is a failed write.
// If the reader of standard output has gone away, nothing is said, and the status is 0.
fn finish<W: Write + Drop>(
    found: Result<u8, Failure>,
    flush: &io::Result<()>,
    is_closed: bool,
    err: &mut Writer<Watched<W>>,
) -> u8
    ensures status { result ≡ (ending is_closed flush.now found).status }
    ensures said { IsTold err.old (ending is_closed flush.now found).err err.new }
    ensures bound { IfOk found (λ status. status ≤ 6) → result ≤ 6 }
{
    if is_closed {
        return 0;
    }
    match found {
        Ok(status) => match flushed(status, flush) {
            Ok(status) => status,
            Err(failure) => fail(failure, err),
        },
        Err(failure) => fail(failure, err),
    }
}

/// `run` for the program's arguments, over the files and the streams of the system, and a flush after the last line. A failed
/// flush is a failed write. If memory was refused or a write failed, it says so, and the exit status is 5 or 6; but if the
/// reader of standard output has gone away, it says nothing, and the status is 0.
pub fn run_program<R: Env + RuntimeFiles + Input + Print + Eprint + AllocGlobal>(rt: &R) -> ExitCode
    ensures status { exit_status result ≤ 6 }
{
    let mut console = Console::new(
        Watched::new(Output::new(io::writer(rt))),
        Watched::new(ErrorStream { rt }),
    );
    let found = run_in_system(rt, &mut console);
    let (out, mut err) = console.into_writers();
    let mut output = out.into_sink().into_inner();
    let flush = output.flush();
    ExitCode::from(finish(found, &flush, output.is_closed(), &mut err))
}
