//! Standard output, whose reader may go away.
ghost use Rattle.std.specs.Prelude.{◌≡◌, ◌⊎◌, ◌↔◌, true, false};
ghost use Rattle.std.specs.Io.{WritesAtMost};
ghost use Rattle.std.specs.Io.KnownBytes.{Keeps, WriteAppends};
ghost use Rattle.std.specs.IoError.{error_kind};
ghost use Rattle.std.specs.Result.{IsErrAnd};

use std::io::{self, ErrorKind, Write};
use std::marker::Model;

/// A writer that remembers whether its reader has gone away, as `head` does once it has its lines.
///
/// ```
/// use lexdfa_lib::Output;
///
/// let output = Output::new(io::writer(rt));
/// let is_closed = output.is_closed(); // false: nothing was written yet
/// ```
#[derive(Drop)]
pub struct Output<W> {
    inner: W,
    is_closed: bool,
}

impl<W> Model for Output<W> {
    ghost use Rattle.lexdfa_lib.specs.Calls.{Piped};
    ghost use Rattle.lexdfa_lib.specs.Internal.WatchCode.{piped_code};

    ghost Value = { Piped W };

    ghost coded = { piped_code W.code };

    ghost view = { λ o. record { inner = o.inner; is_closed = o.is_closed } };
}

impl<W: Write> Output<W> {
    /// Wraps a writer, whose reader is there.
    pub fn new(inner: W) -> Output<W>
        ensures { result ≡ record { inner = inner; is_closed = false } }
    {
        Output {
            inner,
            is_closed: false,
        }
    }

    /// Whether a call has found that the reader has gone away.
    pub fn is_closed(&self) -> bool
        ensures { result ≡ self.now.is_closed }
    {
        self.is_closed
    }

    fn note(&mut self, kind: ErrorKind)
        ensures inner { self.new.inner ≡ self.old.inner }
        ensures closed { (self.new.is_closed ≡ true)
            ↔ ((self.old.is_closed ≡ true) ⊎ (kind ≡ ErrorKind.BrokenPipe)) }
    {
        if kind == ErrorKind::BrokenPipe {
            self.is_closed = true;
        }
    }
}

impl<W: Write> Write for Output<W> {
    ghost contents = { λ o. W.contents o.inner };

    fn write(&mut self, buf: &[u8]) -> io::Result<usize>
        ensures bound { WritesAtMost result buf.now }
        ensures bytes { WriteAppends (W.contents self.old.inner) (W.contents self.new.inner)
            result buf.now }
        ensures closed { (self.new.is_closed ≡ true) ↔ ((self.old.is_closed ≡ true)
            ⊎ IsErrAnd result (λ e. error_kind e ≡ ErrorKind.BrokenPipe)) }
    {
        let result = self.inner.write(buf);
        if let Err(error) = &result {
            self.note(error.kind());
        }
        result
    }

    fn flush(&mut self) -> io::Result<()>
        ensures bytes { Keeps (W.contents self.old.inner) (W.contents self.new.inner) }
        ensures closed { (self.new.is_closed ≡ true) ↔ ((self.old.is_closed ≡ true)
            ⊎ IsErrAnd result (λ e. error_kind e ≡ ErrorKind.BrokenPipe)) }
    {
        let result = self.inner.flush();
        if let Err(error) = &result {
            self.note(error.kind());
        }
        result
    }
}
