//! Runs of `lexdfa` over streams of a caller: what they give in memory, which stream an error names, and that no call is late.
ghost use Rattle.std.specs.Prelude.{◌≡◌, ◌⊎◌, [], Some, codes, true, false};
ghost use Rattle.lexdfa_lib.specs.Ending.{ending_status, ending_message};
ghost use Rattle.lexdfa_lib.specs.Run.{AreLines};
ghost use Rattle.lexdfa_lib.specs.Status.{outcome_status};
ghost use Rattle.lexdfa_lib.specs.Streams.{opened};
ghost use Rattle.lexdfa_lib.specs.declared.outcome.Outcome.{Outcome};

use lexdfa_lib::{
    Ending, Failure, Outcome, Reader, RunError, Sink, Source, Watched, Writer, run, run_all,
};
use std::alloc::Global;
use std::io::{Read, Write};

/// What the program gives in memory: its status, and the bytes of standard output and of standard error.
#[derive(Drop)]
pub struct Given {
    pub status: u8,
    pub out: Vec<u8>,
    pub err: &'static str,
}

// What the program gives with this result, after it has written this.
fn given_by(found: &Result<Outcome, Failure>, writer: Writer<Vec<u8>>) -> Given
    ensures status { result.status ≡ ending_status found.now }
    ensures out { opened (Some result.out.items) false ≡ writer }
    ensures err { result.err.now ≡ ending_message found.now }
{
    let Ending { status, message } = Ending::of(found);
    Given {
        status,
        out: writer.into_sink(),
        err: message,
    }
}

// Needs lexdfa_lib::run: answer, fails. lexdfa_lib::Ending::of: status, message.
/// `lexdfa TEXT` with these terminals: exactly the bytes that it writes and says, and its status. A match, none, a terminal that is
/// refused, one that is ambiguous, a bad line: each has its line and its status, and nothing is said. If memory was refused, only
/// that is said. Nothing else is answered: no read or write of memory fails.
pub fn lexdfa_in_memory(alloc: Global, input: &[u8], text: &str) -> Given
    ensures exact { ((outcome : Outcome)
        × (AreLines false text.now input.now outcome result.out.items
        × ((result.status ≡ outcome_status outcome) × (result.err.now ≡ []))))
        ⊎ ((result.out.items ≡ []) × ((result.status ≡ 5)
        × (result.err.now ≡ codes "lexdfa: out of memory\n"))) }
{
    let mut reader = Reader::new(input);
    let mut writer = Writer::new(Vec::new(alloc));
    match run(alloc, &mut reader, text, &mut writer) {
        Ok(outcome) => given_by(&Ok(outcome), writer),
        Err(error) => given_by(&Err(Failure::Run(error)), writer),
    }
}

// Needs lexdfa_lib::run_all: answer, fails.
/// `lexdfa --all TEXT` likewise: a line for each token and for a fault, or the line of `lexdfa TEXT` if the terminals have no
/// automaton.
pub fn lexdfa_all_in_memory(alloc: Global, input: &[u8], text: &str) -> Given
    ensures exact { ((outcome : Outcome)
        × (AreLines true text.now input.now outcome result.out.items
        × ((result.status ≡ outcome_status outcome) × (result.err.now ≡ []))))
        ⊎ ((result.out.items ≡ []) × ((result.status ≡ 5)
        × (result.err.now ≡ codes "lexdfa: out of memory\n"))) }
{
    let mut reader = Reader::new(input);
    let mut writer = Writer::new(Vec::new(alloc));
    match run_all(alloc, &mut reader, text, &mut writer) {
        Ok(outcome) => given_by(&Ok(outcome), writer),
        Err(error) => given_by(&Err(Failure::Run(error)), writer),
    }
}

// Needs lexdfa_lib::run: answer, fails.
/// A run, whatever it finds: no call is made after one that failed.
///
/// # Errors
///
/// Those of `run`.
pub fn never_late<I: Source, O: Sink>(
    alloc: Global,
    reader: &mut Reader<I>,
    text: &str,
    writer: &mut Writer<O>,
) -> Result<Outcome, RunError>
    ensures no_late_read { reader.new.late ≡ reader.old.late }
    ensures no_late_write { writer.new.late ≡ writer.old.late }
{
    run(alloc, reader, text, writer)
}

// Needs lexdfa_lib::run: answer, fails. lexdfa_lib::Watched: new, failed.
// Needs lexdfa_lib::Reader::into_source: stream. lexdfa_lib::Writer::into_sink: stream.
/// Whether a run names just the reader or the writer that has failed, if one has: always.
pub fn names_the_failed_end<R: Read + Drop, W: Write + Drop>(
    alloc: Global,
    reader: R,
    text: &str,
    writer: W,
) -> bool
    ensures always { result ≡ true }
{
    let mut reader = Reader::new(Watched::new(reader));
    let mut writer = Writer::new(Watched::new(writer));
    let found = run(alloc, &mut reader, text, &mut writer);
    let read_failed = reader.into_source().failed();
    let write_failed = writer.into_sink().failed();
    match found {
        Ok(_) | Err(RunError::OutOfMemory) => !read_failed && !write_failed,
        Err(RunError::Read) => read_failed && !write_failed,
        Err(RunError::Write) => !read_failed && write_failed,
    }
}
