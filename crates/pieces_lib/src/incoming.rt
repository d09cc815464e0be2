//! A text that is read as it comes, and cut.

ghost use Rattle.std.specs.Prelude.{◌≡◌, ◌<◌, ◌≤◌, ◌+◌, ◌++◌, List, ℕ, [], true, false, length, IfOk, OnOk, OnErr};
ghost use Rattle.bajofeki.specs.Chunked.{nothing_come};
ghost use Rattle.lalrpop_rule_file.specs.RuleFile.{without_mark as unmarked};
ghost use Rattle.lexdfa_lib.specs.Streams.{LeftOff, Reads};
ghost use Rattle.pieces_lib.specs.Internal.Incoming.{BeginsMark, EndsBy, GrowsBy, IsIncoming, IsSettled, ReadsOn, end_of, held};

use bajofeki::Stream;
use lalrpop_rule_file::without_mark;
use lalrpop_rules::RuleLexer;
use lexdfa_lib::{Reader, Source};
use std::alloc::{AllocError, Global};

/// How many bytes a read asks for.
const AT_ONCE: usize = 65536;

/// A text that is read as it comes, and cut. A byte order mark at its beginning is left out.
#[derive(Drop)]
pub(crate) struct Incoming<'rules> {
    /// What has come of the text, which is cut.
    pub(crate) chunks: Stream<'rules>,
    // What has come, while it may be the beginning of a byte order mark: at most two bytes.
    front: Vec<u8>,
    // Whether it is known if the text begins with a byte order mark.
    has_begun: bool,
}

/// What reading brought.
#[derive(Clone, Copy, PartialEq, Eq)]
pub(crate) enum Brought {
    /// More bytes, and more may come.
    More,
    /// Nothing in the end: there is no more.
    Nothing,
    /// A failure in the end.
    Failure,
}

// Whether more bytes may make a byte order mark of these.
fn begins_mark(front: &[u8]) -> bool
    ensures yes { result ≡ true → BeginsMark front.now }
    ensures no { result ≡ false → IsSettled front.now }
{
    let mark = b"\xef\xbb\xbf";
    front.len() < mark.len() && mark.starts_with(front)
}

impl<'rules> Incoming<'rules> {
    /// Nothing has come yet.
    pub(crate) fn new(alloc: Global, lexer: &'rules RuleLexer) -> Incoming<'rules>
        ensures chunks { result.chunks ≡ nothing_come lexer.now }
        ensures incoming { IsIncoming [] [] result }
    {
        Incoming {
            chunks: Stream::new(alloc, lexer),
            front: Vec::new(alloc),
            has_begun: false,
        }
    }

    // The text begins: what was held back is fed, but for a byte order mark.
    fn begin(&mut self) -> Result<(), AllocError>
        ensures fed { OnOk result (self.new.chunks ≡ record self.old.chunks
            { last = []; rest = self.old.chunks.rest ++ unmarked self.old.front.items }) }
        ensures none { OnOk result (self.new.front.items ≡ []) }
        ensures begun { OnOk result (self.new.has_begun ≡ true) }
    {
        self.chunks.feed(without_mark(&self.front))?;
        self.front.clear();
        self.has_begun = true;
        Ok(())
    }

    // These bytes were read.
    fn take_bytes(&mut self, bytes: &[u8]) -> Result<(), AllocError>
        ensures grown { OnOk result (GrowsBy self.old bytes.now self.new) }
        ensures more { OnOk result (held self.old + length bytes.now ≤ held self.new) }
    {
        if self.has_begun {
            return self.chunks.feed(bytes);
        }
        self.front.extend_from_slice(bytes)?;
        if begins_mark(&self.front) {
            return Ok(());
        }
        self.begin()
    }

    /// No more comes: what was held back is fed too.
    ///
    /// # Errors
    ///
    /// `AllocError` if a request for memory was refused.
    pub(crate) fn release(&mut self) -> Result<(), AllocError>
        ensures all { OnOk result (EndsBy self.old self.new) }
    {
        if self.has_begun {
            return Ok(());
        }
        self.begin()
    }

    /// Reads more of the text by one read, so that it may be cut further.
    ///
    /// # Errors
    ///
    /// `AllocError` if a request for memory was refused. Then what was read may be lost.
    pub(crate) fn read_on<S: Source>(
        &mut self,
        reader: &mut Reader<S>,
    ) -> Result<Brought, AllocError>
        ensures brought { IfOk result (λ b.
            ReadsOn reader.old reader.new (end_of b) self.old self.new) }
        ensures more { IfOk result (λ b. b ≡ Brought.More → held self.old < held self.new) }
        ensures lost { OnErr result ((more : List ℕ)
            × Reads reader.old reader.new (record { bytes = more; end = LeftOff })) }
    {
        let mut buffer = [0u8; AT_ONCE];
        match reader.read(&mut buffer) {
            None => Ok(Brought::Failure),
            Some(0) => Ok(Brought::Nothing),
            Some(n) => {
                self.take_bytes(&buffer[..n])?;
                Ok(Brought::More)
            }
        }
    }
}
