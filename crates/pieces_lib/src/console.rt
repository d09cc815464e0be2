//! Standard output and standard error of a run.
ghost use Rattle.std.specs.Prelude.{◌≡◌, IfOk, IfErr, OnOk};
ghost use Rattle.reports_lib.specs.Answer.{remark};
ghost use Rattle.pieces_lib.specs.Console.{Answers, Fails, Says, Writes, WritesPart};

use lexdfa_lib::{RunError, Sink, Writer};
use reports_lib::Reply;
use std::marker::Model;

/// Standard output and standard error.
///
/// ```
/// use pieces_lib::Console;
///
/// let console = Console::new(Vec::new(alloc), Vec::new(alloc));
/// let (written, said) = console.into_sinks(); // nothing yet
/// ```
#[derive(Drop)]
pub struct Console<O: Sink, E: Sink> {
    out: Writer<O>,
    err: Writer<E>,
}

impl<O: Sink, E: Sink> Model for Console<O, E> {
    ghost use Rattle.pieces_lib.specs.Console.{Console as ConsoleValue};

    ghost Value = { ConsoleValue };

    ghost view = { λ c. record { out = c.out; err = c.err } };
}

impl<O: Sink, E: Sink> Console<O, E> {
    /// Writes go to these.
    pub fn new(out: O, err: E) -> Console<O, E>
        ensures new { result ≡ record { out = O.stream out; err = E.stream err } }
    {
        Console {
            out: Writer::new(out),
            err: Writer::new(err),
        }
    }

    /// Both, as writers.
    pub fn into_writers(self) -> (Writer<O>, Writer<E>)
        ensures out { result.0 ≡ self.out }
        ensures err { result.1 ≡ self.err }
    {
        let Console { out, err } = self;
        (out, err)
    }

    /// Standard output and standard error.
    pub fn into_sinks(self) -> (O, E)
        ensures out { O.stream result.0 ≡ self.out }
        ensures err { E.stream result.1 ≡ self.err }
    {
        let (out, err) = self.into_writers();
        (out.into_sink(), err.into_sink())
    }

    /// Writes all of these bytes to standard output.
    ///
    /// # Errors
    ///
    /// `OutOfMemory` if a request for memory was refused, and `Write` if a write fails or has failed: a prefix was written.
    pub fn write(&mut self, bytes: &[u8]) -> Result<(), RunError>
        ensures all { OnOk result (Writes self.old bytes.now self.new) }
        ensures part { IfErr result (λ e. WritesPart self.old bytes.now e self.new) }
    {
        self.out.write(bytes)
    }

    /// Tells standard error this. Once a write there has failed, nothing more is said, and the run goes on.
    ///
    /// # Errors
    ///
    /// `OutOfMemory` if a request for memory was refused: a prefix was said.
    pub fn say(&mut self, message: &str) -> Result<(), RunError>
        ensures said { OnOk result (Says self.old message.now self.new) }
        ensures fails { IfErr result
            (λ e. Fails (λ a. a ≡ remark message.now) self.old e self.new) }
    {
        self.err.tell(message)
    }

    /// Gives an answer: first what it says, then what it writes. Returns its status.
    ///
    /// # Errors
    ///
    /// `OutOfMemory` if a request for memory was refused, and `Write` if a write to standard output fails or has failed.
    pub fn give(&mut self, reply: &Reply) -> Result<u8, RunError>
        ensures answer { IfOk result (λ status.
            Answers (λ a. a ≡ reply.now) self.old status self.new) }
        ensures fails { IfErr result (λ e. Fails (λ a. a ≡ reply.now) self.old e self.new) }
    {
        self.say(reply.err())?;
        self.write(reply.out())?;
        Ok(reply.status())
    }
}
