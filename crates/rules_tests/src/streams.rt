//! Runs of the program `lexdfa` over readers and writers: bytes of every kind, outcomes and the names of errors; and over those that fail:
//! what is written then, that no call is made after one that failed, that no run flushes, and that a failed flush is told.

use lexdfa_lib::{
    Failure, Outcome, Reader, RunError, Sink, Source, Watched, Writer, run, run_all, run_and_flush,
};
use std::alloc::Global;
use std::io;
use std::io::{Read, Write};

// A run that finds the longest match, or one that cuts all of the text.
pub(crate) fn run_over<I: Source, O: Sink>(
    alloc: Global,
    all: bool,
    reader: &mut Reader<I>,
    text: &str,
    writer: &mut Writer<O>,
) -> Result<Outcome, RunError> {
    if all {
        run_all(alloc, reader, text, writer)
    } else {
        run(alloc, reader, text, writer)
    }
}

// The answer to `0 l a` and a line feed with this byte at this place, for the text `a`: a run ends with a line of its own.
fn answer(place: usize, byte: u8) -> &'static [u8] {
    let is_terminal = match place {
        0 => byte.is_ascii_digit(),
        1 | 3 => byte == b' ',
        2 => byte == b'l' || byte == b'r',
        _ => byte.is_ascii(),
    };
    if !is_terminal {
        b"line 0\n"
    } else if place == 4 && byte == b'\n' {
        b"line 1\n"
    } else if place == 4 && byte != b'a' || place == 5 && byte != b'\n' {
        b"none\n"
    } else {
        b"match 0 1\n"
    }
}

// The line `0 l a`, with this byte at this place.
fn line_with(place: usize, byte: u8) -> [u8; 6] {
    let mut line = *b"0 l a\n";
    if let Some(there) = line.get_mut(place) {
        *there = byte;
    }
    line
}

// Whether the run writes this.
fn is_answered(alloc: Global, input: &[u8], wanted: &[u8]) -> bool {
    let mut reader = Reader::new(input);
    let mut writer = Writer::new(Vec::new(alloc));
    let is_ok = run_over(alloc, false, &mut reader, "a", &mut writer).is_ok();
    is_ok && writer.into_sink().as_slice() == wanted
}

#[test]
fn each_byte_at_each_place_of_a_line(rt: HostRuntime) {
    for place in 0..6 {
        for byte in 0..=255u8 {
            assert!(rt; is_answered(rt.alloc(), &line_with(place, byte), answer(place, byte)));
        }
    }
}

const WORDS: &[u8] = b"1 l class\n0 r [a-zA-Z_][a-zA-Z0-9_]*\n0 r  +\n";

fn ends_so(alloc: Global, text: &str, wanted: Outcome) -> bool {
    let mut reader = Reader::new(WORDS);
    let mut writer = Writer::new(Vec::new(alloc));
    match run_over(alloc, true, &mut reader, text, &mut writer) {
        Ok(outcome) => outcome == wanted,
        Err(_) => false,
    }
}

#[test]
fn tokens_are_counted(rt: HostRuntime) {
    let alloc = rt.alloc();
    assert!(rt; ends_so(alloc, "class Foo", Outcome::All { tokens: 3 }));
    assert!(rt; ends_so(alloc, "", Outcome::All { tokens: 0 }));
    assert!(rt; ends_so(alloc, "class é", Outcome::Stopped { tokens: 2, at: 6 }));
}

fn is_told(alloc: Global, error: RunError, name: &str, status: u8) -> bool {
    match error.to_string(alloc) {
        Ok(told) => told.as_str() == name && error.status() == status,
        Err(_) => false,
    }
}

#[test]
fn errors_have_names_and_statuses(rt: HostRuntime) {
    let alloc = rt.alloc();
    assert!(rt; is_told(alloc, RunError::OutOfMemory, "OutOfMemory", 5));
    assert!(rt; is_told(alloc, RunError::Read, "Read", 6));
    assert!(rt; is_told(alloc, RunError::Write, "Write", 6));
}

// Errors after which others try again, and one after which nobody does; and a write that takes nothing.
const KINDS: &[Option<io::ErrorKind>] = &[
    Some(io::ErrorKind::Interrupted),
    Some(io::ErrorKind::WouldBlock),
    Some(io::ErrorKind::Other),
    None,
];

// Gives its bytes, then fails, and counts its calls.
#[derive(Drop)]
struct FailsAtEnd<'a> {
    left: &'a [u8],
    kind: io::ErrorKind,
    calls: usize,
}

impl<'a> Read for FailsAtEnd<'a> {
    fn read(&mut self, buf: &mut [u8]) -> io::Result<usize> {
        self.calls = self.calls.saturating_add(1);
        if self.left.is_empty() {
            return Err(io::Error::from(self.kind));
        }
        self.left.read(buf)
    }
}

// Takes one byte a call while it has room, then fails, and counts its calls and its flushes. With no kind of error it fails
// by taking nothing.
#[derive(Drop)]
struct FailsAfter {
    taken: Vec<u8>,
    room: usize,
    kind: Option<io::ErrorKind>,
    calls: usize,
    flushes: usize,
}

impl Write for FailsAfter {
    fn write(&mut self, buf: &[u8]) -> io::Result<usize> {
        self.calls = self.calls.saturating_add(1);
        match (buf.first(), self.kind) {
            (Some(byte), _) if self.taken.len() < self.room => {
                self.taken.push(*byte)?;
                Ok(1)
            }
            (Some(_), Some(kind)) => Err(io::Error::from(kind)),
            _ => Ok(0),
        }
    }

    fn flush(&mut self) -> io::Result<()> {
        self.flushes = self.flushes.saturating_add(1);
        Ok(())
    }
}

// A run for the longest match, or over all of the text, and what it writes if neither the reader nor the writer fails.
#[derive(Clone, Copy)]
struct Job {
    all: bool,
    input: &'static [u8],
    text: &'static str,
    lines: &'static [u8],
}

const JOBS: &[Job] = &[
    Job {
        all: false,
        input: b"1 l class\n0 r [a-z]+\n",
        text: "classz",
        lines: b"match 1 6\n",
    },
    Job {
        all: true,
        input: b"1 l class\n0 r [a-zA-Z_][a-zA-Z0-9_]*\n0 r  +\n",
        text: "class Foo",
        lines: b"match 0 5\nmatch 2 1\nmatch 1 3\n",
    },
];

fn writes_nothing(alloc: Global, job: &Job, given: &[u8], kind: io::ErrorKind) -> bool {
    let mut reader = Reader::new(Watched::new(FailsAtEnd {
        left: given,
        kind,
        calls: 0,
    }));
    let mut writer = Writer::new(Vec::new(alloc));
    let result = run_over(alloc, job.all, &mut reader, job.text, &mut writer);
    let source = reader.into_source();
    let ended = matches!(&result, Err(RunError::Read)) && source.failed();
    let calls = if given.is_empty() { 1 } else { 2 };
    ended && source.into_inner().calls == calls && writer.into_sink().is_empty()
}

fn never_writes(alloc: Global, job: &Job, kind: io::ErrorKind) -> bool {
    for given in 0..=job.input.len() {
        if let Some(given) = job.input.get(..given)
            && !writes_nothing(alloc, job, given, kind)
        {
            return false;
        }
    }
    true
}

#[test]
fn a_failed_read_writes_nothing(rt: HostRuntime) {
    for kind in KINDS {
        for job in JOBS {
            assert!(rt; never_writes(rt.alloc(), job, kind.unwrap_or(io::ErrorKind::Other)));
        }
    }
}

// A run into a writer with room for as many bytes: it fails unless all of its lines have room.
fn leaves_a_prefix(alloc: Global, job: &Job, room: usize, kind: Option<io::ErrorKind>) -> bool {
    let mut reader = Reader::new(job.input);
    let mut writer = Writer::new(Watched::new(FailsAfter {
        taken: Vec::new(alloc),
        room,
        kind,
        calls: 0,
        flushes: 0,
    }));
    let result = run_over(alloc, job.all, &mut reader, job.text, &mut writer);
    let fails = room < job.lines.len();
    let is_told = matches!(&result, Err(RunError::Write)) == fails && result.is_err() == fails;
    let sink = writer.into_sink();
    let is_named = sink.failed() == fails;
    let end = sink.into_inner();
    let calls = if fails { room.saturating_add(1) } else { room };
    is_told
        && is_named
        && Some(end.taken.as_slice()) == job.lines.get(..room)
        && end.calls == calls
        && end.flushes == 0
}

fn leaves_prefixes(alloc: Global, job: &Job, kind: Option<io::ErrorKind>) -> bool {
    for room in 0..=job.lines.len() {
        if !leaves_a_prefix(alloc, job, room, kind) {
            return false;
        }
    }
    true
}

// The caller of a run flushes its writer.
#[test]
fn a_failed_write_leaves_a_prefix_and_nothing_is_flushed(rt: HostRuntime) {
    for kind in KINDS {
        for job in JOBS {
            assert!(rt; leaves_prefixes(rt.alloc(), job, *kind));
        }
    }
}

// Takes all bytes, and fails when they are flushed. Standard output has no buffer, so its flush never fails.
#[derive(Drop)]
struct FailsToFlush;

impl Write for FailsToFlush {
    fn write(&mut self, buf: &[u8]) -> io::Result<usize> {
        Ok(buf.len())
    }

    fn flush(&mut self) -> io::Result<()> {
        Err(io::Error::from(io::ErrorKind::Other))
    }
}

fn fails_to_flush(alloc: Global, job: &Job) -> bool {
    let mut reader = Reader::new(job.input);
    let writer = Writer::new(Watched::new(FailsToFlush));
    let found = run_and_flush(alloc, job.all, &mut reader, job.text, writer);
    matches!(&found, Err(Failure::Run(RunError::Write)))
}

#[test]
fn a_failed_flush_is_a_failed_write(rt: HostRuntime) {
    for job in JOBS {
        assert!(rt; fails_to_flush(rt.alloc(), job));
    }
}
