//! The program `tokens` over files and streams of a caller.
ghost use Rattle.std.specs.Prelude.{◌≡◌, ◌≢◌, ◌≤◌, ◌⊎◌, ◌∷◌, ◌++◌, ℕ, List, [], Some, true, false, codes, map, string_bytes, IfOk, IfErr, IfSome};
ghost use Rattle.lexdfa_lib.specs.Streams.{AtEnd, NotOpened, Reading, Reads, Stream, opened};
ghost use Rattle.tokens_lib.specs.Answer.{Answer, followed};
ghost use Rattle.lexdfa_lib.specs.Command.{options_of};
ghost use Rattle.pieces_lib.specs.Console.{Fails};
ghost use Rattle.reports_lib.specs.NamedRules.{LexerOf, RulesOf};
ghost use Rattle.tokens_lib.specs.Program.{IsAnswer, IsFirstAnswer};
ghost use Rattle.pieces_lib.specs.TextAnswer.{PiecesAnswer};

use lexdfa_lib::RunError;
use std::alloc::{AllocError, Global};
use tokens_lib::{Action, Console, Files, LineForm, NoBytes, Reader, Sink, Source, Verbosity, run};

/// Two files in memory, `rules` and `text`.
#[derive(Clone, Copy)]
pub struct BothFiles<'bytes> {
    pub rules: &'bytes [u8],
    pub text: &'bytes [u8],
}

// Needs lexdfa_lib::NoBytes::from: ghost from_gives.
// No read of them fails.
impl<'bytes> Files for BothFiles<'bytes> {
    ghost gives = { λ both name reading. ((name ≡ codes "rules")
        × ((new : Stream) × Reads (opened (Some both.rules.now) false) new reading))
        ⊎ (((name ≡ codes "text")
        × ((new : Stream) × Reads (opened (Some both.text.now) false) new reading))
        ⊎ ((name ≢ codes "rules") × ((name ≢ codes "text")
        × (reading ≡ record { bytes = []; end = NotOpened (codes "not found") })))) };

    type Reader = &'bytes [u8];

    fn open(&self, alloc: Global, name: &str) -> Result<&'bytes [u8], NoBytes> {
        if name == "rules" {
            Ok(self.rules)
        } else if name == "text" {
            Ok(self.text)
        } else {
            Err(NoBytes::Because(String::from_str(alloc, "not found")?))
        }
    }
}

/// What a run in memory gives: its status, and the bytes of standard output and of standard error.
#[derive(Drop)]
pub struct Given {
    pub status: u8,
    pub out: Vec<u8>,
    pub err: Vec<u8>,
}

// Needs tokens_lib::run: answer, fails. tokens_lib::Console::new: new. tokens_lib::Console::into_sinks: out, err.
/// Runs the program in memory: exactly the bytes that it writes and says, and its status.
///
/// # Errors
///
/// `OutOfMemory` if a request for memory was refused. No read or write of memory fails otherwise.
pub fn run_in_memory<F: Files>(
    alloc: Global,
    words: &[String],
    files: &F,
    input: &[u8],
) -> Result<Given, RunError>
    ensures exact { IfOk result (λ given. (left : Stream)
        × IsAnswer (F.gives files.now) (opened (Some input.now) false) left
        (map string_bytes words.now)
        (record { status = given.status; out = given.out.items; err = given.err.items })) }
    ensures memory { IfErr result (λ e. e ≡ RunError.OutOfMemory) }
{
    let mut input = Reader::new(input);
    let mut console = Console::new(Vec::new(alloc), Vec::new(alloc));
    let status = run(alloc, words, files, &mut input, &mut console)?;
    let (out, err) = console.into_sinks();
    Ok(Given { status, out, err })
}

// Needs tokens_lib::run: fails.
/// Whether a run fails. Then a prefix was given of what is written and said for the texts that were come to, or nothing.
pub fn fails<F: Files, S: Source, O: Sink, E: Sink>(
    alloc: Global,
    words: &[String],
    files: &F,
    input: &mut Reader<S>,
    console: &mut Console<O, E>,
) -> Option<RunError>
    ensures begun { IfSome result (λ e. Fails (IsFirstAnswer (F.gives files.now) input.old
        (map string_bytes words.now)) console.old e console.new) }
{
    run(alloc, words, files, input, console).err()
}

// Needs tokens_lib::run: status.
/// The exit status of a run, or 5 if it fails.
pub fn status_of_run<F: Files, S: Source, O: Sink, E: Sink>(
    alloc: Global,
    words: &[String],
    files: &F,
    input: &mut Reader<S>,
    console: &mut Console<O, E>,
) -> u8
    ensures status { result ≤ 6 }
{
    run(alloc, words, files, input, console).unwrap_or(5)
}

// The words `[--recover] [--json] rules`.
fn words_of(alloc: Global, form: LineForm, recovers: bool) -> Result<Vec<String>, AllocError>
    ensures words { IfOk result (λ words. map string_bytes words.items
        ≡ options_of (Action.Cut form recovers) ++ (codes "rules" ∷ [])) }
{
    let mut words = Vec::new(alloc);
    if recovers {
        words.push(String::from_str(alloc, "--recover")?)?;
    }
    if let LineForm::Json = form {
        words.push(String::from_str(alloc, "--json")?)?;
    }
    words.push(String::from_str(alloc, "rules")?)?;
    Ok(words)
}

// The words `[--recover] [--json] rules text -`.
fn two_words_of(alloc: Global, form: LineForm, recovers: bool) -> Result<Vec<String>, AllocError>
    ensures words { IfOk result (λ words. map string_bytes words.items
        ≡ (options_of (Action.Cut form recovers) ++ (codes "rules" ∷ []))
        ++ (codes "text" ∷ codes "-" ∷ [])) }
{
    let mut words = words_of(alloc, form, recovers)?;
    words.push(String::from_str(alloc, "text")?)?;
    words.push(String::from_str(alloc, "-")?)?;
    Ok(words)
}

// Needs tokens_lib::run: answer, fails. tokens_lib::LineForm.
/// `tokens [--recover] [--json] rules`, with the text on standard input. A bad line of the rules, rules that clash, a fault, an
/// open mode: each has its bytes and its status, and nothing else is answered.
///
/// # Errors
///
/// `OutOfMemory` if a request for memory was refused.
pub fn cut_in_memory(
    alloc: Global,
    form: LineForm,
    recovers: bool,
    rules: &[u8],
    text: &[u8],
) -> Result<Given, RunError>
    ensures exact { IfOk result (λ given. RulesOf Verbosity.Warnings (LexerOf (λ r modes answer.
        (left : Stream) × ((reading : Reading) × (Reads (opened (Some text.now) false) left reading
        × PiecesAnswer r modes form recovers false (codes "<stdin>") reading answer))))
        (codes "rules") rules.now
        (record { status = given.status; out = given.out.items; err = given.err.items })) }
    ensures memory { IfErr result (λ e. e ≡ RunError.OutOfMemory) }
{
    let words = words_of(alloc, form, recovers)?;
    let files = BothFiles { rules, text: &[] };
    run_in_memory(alloc, &words, &files, text)
}

// Needs tokens_lib::run: answer, fails. tokens_lib::LineForm.
/// `tokens [--recover] [--json] rules text -`: the answer to the file, and then the one to standard input.
///
/// # Errors
///
/// `OutOfMemory` if a request for memory was refused.
pub fn cut_two_in_memory(
    alloc: Global,
    form: LineForm,
    recovers: bool,
    files: &BothFiles<'_>,
    input: &[u8],
) -> Result<Given, RunError>
    ensures exact { IfOk result (λ given. RulesOf Verbosity.Warnings (LexerOf (λ r modes answer.
        (first : Answer) × ((second : Answer)
        × (((left : Stream) × ((reading : Reading)
        × (Reads (opened (Some files.now.text.now) false) left reading
        × PiecesAnswer r modes form recovers true (codes "text") reading first)))
        × (((left : Stream) × ((reading : Reading)
        × (Reads (opened (Some input.now) false) left reading
        × PiecesAnswer r modes form recovers true (codes "<stdin>") reading second)))
        × (answer ≡ followed first second))))))
        (codes "rules") files.now.rules.now
        (record { status = given.status; out = given.out.items; err = given.err.items })) }
    ensures memory { IfErr result (λ e. e ≡ RunError.OutOfMemory) }
{
    let words = two_words_of(alloc, form, recovers)?;
    run_in_memory(alloc, &words, files, input)
}
