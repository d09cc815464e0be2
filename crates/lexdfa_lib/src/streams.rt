//! Streams: what bytes are read from, and what takes them.
ghost use Rattle.std.specs.Prelude.{◌≡◌, ◌<◌, ◌≤◌, ◌||◌, ℕ, List, [], Option, Some, Bool, true, false, length, take, IfOk, IfErr, OnOk, OnErr, IfSome, IfNone};
ghost use Rattle.std.specs.Io.{ReadsAtMost, WritesAtMost};
ghost use Rattle.std.specs.Io.KnownBytes.{ReadConsumes, WriteAppends};
ghost use Rattle.lexdfa_lib.specs.Calls.{late_after, read_failed, write_failed};
ghost use Rattle.lexdfa_lib.specs.Streams.{Stream, AtEnd, Failed, LeftOff, Reads, ReadsPart, Takes, TakesPart, IsTold, IsToldPart, opened};

use crate::error::RunError;
use lalrpop_lexer::lexer::nfa::Steps;
use std::alloc::Global;
use std::io::{self, Read, Write};
use std::marker::Model;

/// What bytes are read from: a file, a pipe, or bytes in memory.
///
/// ```
/// use lexdfa_lib::{Reader, Source};
///
/// let reader = Reader::new("let x".as_bytes());
/// ```
pub trait Source: Drop {
    // What contracts see of it.
    ghost stream: { Self → Stream };

    /// Puts bytes at the front of `buf`, and returns their number: 0 only at the end, or if `buf` is empty. None if a read
    /// fails, or has failed before: then it isn't read any more.
    fn give(&mut self, buf: &mut [u8]) -> Option<usize>
        ensures bound { IfSome result (λ n. n ≤ length buf.new) }
        ensures given { IfSome result (λ n. ((stream self.old).is_broken ≡ false)
            × Reads (stream self.old) (stream self.new)
            (record { bytes = take n buf.new; end = LeftOff })) }
        ensures end { IfSome result (λ n. n ≡ 0 → 0 < length buf.new
            → Reads (stream self.old) (stream self.new) (record { bytes = []; end = AtEnd })) }
        ensures fails { IfNone result
            (Reads (stream self.old) (stream self.new) (record { bytes = []; end = Failed })) };
}

impl Source for &[u8] {
    ghost stream = { λ s. opened (Some s.now) false };

    fn give(&mut self, buf: &mut [u8]) -> Option<usize> {
        let count = self.len().min(buf.len());
        let (given, left) = self.split_at(count);
        buf[..count].copy_from_slice(given);
        *self = left;
        Some(count)
    }
}

/// What takes bytes: a file, a pipe, or memory.
///
/// ```
/// use lexdfa_lib::{Sink, Writer};
///
/// let writer = Writer::new(Vec::new(alloc));
/// ```
pub trait Sink: Drop {
    // What contracts see of it.
    ghost stream: { Self → Stream };

    // Whether a write asks for memory.
    ghost needs_memory: { Bool };

    /// Takes all of these bytes. If a write has failed, nothing more is taken.
    ///
    /// # Errors
    ///
    /// `OutOfMemory` if a request for memory was refused: nothing was taken. `Write` if a write fails or has failed: a prefix was
    /// taken.
    fn take(&mut self, bytes: &[u8]) -> Result<(), RunError>
        ensures all { OnOk result (((stream self.old).is_broken ≡ false)
            × Takes (stream self.old) bytes.now (stream self.new)) }
        ensures part { IfErr result
            (λ e. TakesPart (stream self.old) bytes.now e (stream self.new)
            × ((stream self.old).is_broken ≡ true → stream self.new ≡ stream self.old)) }
        ensures refused { IfErr result (λ e. e ≡ RunError.OutOfMemory
            → (needs_memory ≡ true) × (stream self.new ≡ stream self.old)) };
}

impl Sink for Vec<u8> {
    ghost stream = { λ v. opened (Some v.items) false };

    ghost needs_memory = { true };

    fn take(&mut self, bytes: &[u8]) -> Result<(), RunError> {
        match self.extend_from_slice(bytes) {
            Ok(()) => Ok(()),
            Err(_) => Err(RunError::OutOfMemory),
        }
    }
}

/// A reader or a writer whose calls may fail, as those of the system. A source or a sink of it makes no call after one that failed.
///
/// ```
/// use lexdfa_lib::{Reader, Watched, Writer};
///
/// let mut input = Reader::new(Watched::new(rt.reader()));
/// let mut output = Writer::new(Watched::new(io::writer(rt)));
/// ```
#[derive(Drop)]
pub struct Watched<T> {
    inner: T,
    is_broken: bool,
    // The number of calls after one that failed. Only contracts read it.
    late: Steps,
}

impl<T> Model for Watched<T> {
    ghost use Rattle.lexdfa_lib.specs.Calls.{Watch};
    ghost use Rattle.lexdfa_lib.specs.Internal.WatchCode.{watch_code};

    ghost Value = { Watch T };

    ghost coded = { watch_code T.code };

    ghost view = { λ w. record { inner = w.inner; is_broken = w.is_broken; late = w.late } };
}

impl<T> Watched<T> {
    /// Wraps a reader or a writer, none of whose calls has failed.
    pub fn new(inner: T) -> Watched<T>
        ensures new { result ≡ record { inner = inner; is_broken = false; late = 0 } }
    {
        Watched {
            inner,
            is_broken: false,
            late: Steps::new(),
        }
    }

    /// Whether some call has failed.
    pub fn failed(&self) -> bool
        ensures failed { result ≡ self.now.is_broken }
    {
        self.is_broken
    }

    /// The reader or the writer.
    pub fn into_inner(self) -> T
        ensures inner { result ≡ self.inner }
    {
        let Watched {
            inner,
            is_broken: _,
            late: _,
        } = self;
        inner
    }

    // Each call begins with this.
    fn note_call(&mut self)
        ensures { self.new ≡ record self.old { late = late_after self.old.is_broken self.old.late } }
    {
        if self.is_broken {
            self.late.tick();
        }
    }
}

impl<R: Read> Watched<R> {
    /// Calls the reader once, and returns how many bytes were put at the front of `buf`.
    ///
    /// # Errors
    ///
    /// The reader's own error.
    pub fn read(&mut self, buf: &mut [u8]) -> io::Result<usize>
        ensures bound { ReadsAtMost result buf.new }
        ensures bytes { ReadConsumes (R.remaining self.old.inner) (R.remaining self.new.inner)
            result buf.new }
        ensures broken { self.new.is_broken ≡ (self.old.is_broken || read_failed result) }
        ensures late { self.new.late ≡ late_after self.old.is_broken self.old.late }
    {
        self.note_call();
        let result = self.inner.read(buf);
        if result.is_err() {
            self.is_broken = true;
        }
        result
    }
}

impl<R: Read + Drop> Source for Watched<R> {
    ghost stream = { λ s. record {
      bytes = R.remaining s.inner;
      may_fail = true;
      is_broken = s.is_broken;
      late = s.late;
    } };

    fn give(&mut self, buf: &mut [u8]) -> Option<usize> {
        if self.is_broken {
            return None;
        }
        match self.read(buf) {
            Ok(count) => Some(count),
            Err(_) => None,
        }
    }
}

impl<W: Write> Watched<W> {
    /// Calls the writer once, and returns how many bytes were taken. If it takes none of some bytes, the call counts as failed.
    ///
    /// # Errors
    ///
    /// The writer's own error.
    pub fn write(&mut self, bytes: &[u8]) -> io::Result<usize>
        ensures bound { WritesAtMost result bytes.now }
        ensures taken { WriteAppends (W.contents self.old.inner) (W.contents self.new.inner)
            result bytes.now }
        ensures broken { self.new.is_broken
            ≡ (self.old.is_broken || write_failed bytes.now result) }
        ensures late { self.new.late ≡ late_after self.old.is_broken self.old.late }
    {
        self.note_call();
        let result = self.inner.write(bytes);
        match result {
            Ok(0) if !bytes.is_empty() => self.is_broken = true,
            Ok(_) => {}
            Err(_) => self.is_broken = true,
        }
        result
    }
}

impl<W: Write + Drop> Sink for Watched<W> {
    ghost stream = { λ s. record {
      bytes = W.contents s.inner;
      may_fail = true;
      is_broken = s.is_broken;
      late = s.late;
    } };

    ghost needs_memory = { false };

    fn take(&mut self, bytes: &[u8]) -> Result<(), RunError> {
        if self.is_broken {
            return Err(RunError::Write);
        }
        let mut at = 0;
        while at < bytes.len() {
            match self.write(&bytes[at..]) {
                Err(_) => return Err(RunError::Write),
                Ok(0) => return Err(RunError::Write),
                Ok(n) => at += n,
            }
        }
        Ok(())
    }
}

/// A source, as contracts see it: a stream.
///
/// ```
/// use lexdfa_lib::{Reader, Watched};
///
/// let text = Reader::new("let x".as_bytes());
/// let input = Reader::new(Watched::new(rt.reader()));
/// ```
#[derive(Drop)]
pub struct Reader<S: Source> {
    source: S,
}

impl<S: Source> Model for Reader<S> {
    ghost use Rattle.lexdfa_lib.specs.Streams.{Stream};

    ghost Value = { Stream };

    ghost view = { λ r. S.stream r.source };
}

impl<S: Source> Reader<S> {
    /// A stream that is read from this source.
    pub fn new(source: S) -> Reader<S>
        ensures new { result ≡ S.stream source }
    {
        Reader { source }
    }

    /// The source.
    pub fn into_source(self) -> S
        ensures stream { S.stream result ≡ self }
    {
        let Reader { source } = self;
        source
    }

    /// Puts bytes at the front of `buf`, and returns their number: 0 only at the end, or if `buf` is empty. None if a read
    /// fails, or has failed before: then the source isn't read any more.
    pub fn read(&mut self, buf: &mut [u8]) -> Option<usize>
        ensures bound { IfSome result (λ n. n ≤ length buf.new) }
        ensures given { IfSome result (λ n. (self.old.is_broken ≡ false)
            × Reads self.old self.new (record { bytes = take n buf.new; end = LeftOff })) }
        ensures end { IfSome result (λ n. n ≡ 0 → 0 < length buf.new
            → Reads self.old self.new (record { bytes = []; end = AtEnd })) }
        ensures fails { IfNone result
            (Reads self.old self.new (record { bytes = []; end = Failed })) }
    {
        self.source.give(buf)
    }
}

/// A sink, as contracts see it: a stream.
///
/// ```
/// use lexdfa_lib::Writer;
///
/// let mut writer = Writer::new(Vec::new(alloc));
/// writer.write(b"let x")?;
/// let taken = writer.into_sink(); // the bytes of "let x"
/// ```
#[derive(Drop)]
pub struct Writer<S: Sink> {
    sink: S,
}

impl<S: Sink> Model for Writer<S> {
    ghost use Rattle.lexdfa_lib.specs.Streams.{Stream};

    ghost Value = { Stream };

    ghost view = { λ w. S.stream w.sink };
}

impl<S: Sink> Writer<S> {
    /// A stream that this sink takes.
    pub fn new(sink: S) -> Writer<S>
        ensures new { result ≡ S.stream sink }
    {
        Writer { sink }
    }

    /// The sink.
    pub fn into_sink(self) -> S
        ensures stream { S.stream result ≡ self }
    {
        let Writer { sink } = self;
        sink
    }

    /// Writes all of these bytes. If a write has failed, nothing more is written.
    ///
    /// # Errors
    ///
    /// `OutOfMemory` if a request for memory was refused: nothing was written. `Write` if a write fails or has failed: a prefix
    /// was written.
    pub fn write(&mut self, bytes: &[u8]) -> Result<(), RunError>
        ensures all { OnOk result (Takes self.old bytes.now self.new) }
        ensures part { IfErr result (λ e. TakesPart self.old bytes.now e self.new) }
        ensures refused { IfErr result (λ e. e ≡ RunError.OutOfMemory
            → (S.needs_memory ≡ true) × (self.new ≡ self.old)) }
    {
        self.sink.take(bytes)
    }

    /// Writes a message. A write that fails, or has failed before, is passed over.
    ///
    /// # Errors
    ///
    /// `OutOfMemory` if a request for memory was refused: a prefix was written.
    pub fn tell(&mut self, message: &str) -> Result<(), RunError>
        ensures told { OnOk result (IsTold self.old message.now self.new) }
        ensures memory { IfErr result (λ e. (e ≡ RunError.OutOfMemory)
            × IsToldPart self.old message.now self.new) }
        ensures refused { OnErr result (S.needs_memory ≡ true) }
    {
        match self.sink.take(message.as_bytes()) {
            Err(RunError::OutOfMemory) => Err(RunError::OutOfMemory),
            Ok(()) | Err(_) => Ok(()),
        }
    }
}

/// All bytes that the reader has left. The first read that fails ends the reading.
///
/// # Errors
///
/// `Read` if a read fails or has failed, and `OutOfMemory` if a request for memory was refused.
pub fn read_whole<S: Source>(alloc: Global, reader: &mut Reader<S>) -> Result<Vec<u8>, RunError>
    ensures bytes { IfOk result (λ all.
        Reads reader.old reader.new (record { bytes = all.items; end = AtEnd })) }
    ensures part { IfErr result (λ e. ReadsPart reader.old reader.new e) }
{
    let mut all = Vec::new(alloc);
    let mut buffer = [0u8; 8192];
    loop {
        match reader.read(&mut buffer) {
            None => return Err(RunError::Read),
            Some(0) => return Ok(all),
            Some(n) => all.extend_from_slice(&buffer[..n])?,
        }
    }
}
