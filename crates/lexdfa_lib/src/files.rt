//! Files that are read by name, and standard error.
ghost use Rattle.std.specs.Prelude.{◌≡◌, ℕ, List, [], Ok, Err, codes, string_bytes, IfOk, IfErr, IfSome};
ghost use Rattle.lexdfa_lib.specs.Streams.{Stream, Reading, NotOpened, GivesWhole, Reads, reason_told};
ghost use Rattle.lexdfa_lib.specs.declared.files.NoBytes.TheVariants.{OutOfMemory};

use crate::error::RunError;
use crate::streams::{Reader, Source, Watched, read_whole};
use std::alloc::{AllocError, Global};
use std::fs::{File, OpenFile};
use std::io::{self, Eprint, ErrorKind, Write};
use std::rt::Files as RuntimeFiles;

/// Why there is nothing to read from.
///
/// ```
/// use lexdfa_lib::NoBytes;
///
/// let reason = NoBytes::Because(String::from_str(alloc, "not found")?);
/// ```
#[derive(Debug, Drop)]
pub enum NoBytes {
    /// A request for memory was refused.
    OutOfMemory,
    /// It can't be opened, for this reason.
    Because(String),
}

impl From<AllocError> for NoBytes {
    ghost from_gives = { λ _ e. e ≡ OutOfMemory };

    fn from(_error: AllocError) -> NoBytes {
        NoBytes::OutOfMemory
    }
}

/// Files that are opened by name.
///
/// ```
/// use lexdfa_lib::{Files, NoBytes};
///
/// struct Nothing;
///
/// impl Files for Nothing {
///     ghost gives = { λ files name reading.
///         reading ≡ record { bytes = []; end = NotOpened (codes "not found") } };
///
///     type Reader = &'static [u8];
///
///     fn open(&self, alloc: Global, _name: &str) -> Result<&'static [u8], NoBytes> {
///         Err(NoBytes::Because(String::from_str(alloc, "not found")?))
///     }
/// }
/// ```
pub trait Files {
    // What may be read of the file with a name, and how reading it ends.
    ghost gives: { Self → List ℕ → Reading → Type 0 };

    /// What an open file is read from.
    type Reader: Source;

    /// Opens the file with this name, to be read from its beginning.
    ///
    /// # Errors
    ///
    /// Why there is nothing to read from.
    fn open(&self, alloc: Global, name: &str) -> Result<Self::Reader, NoBytes>
        ensures reader { IfOk result (λ source. (new : Stream) (reading : Reading)
            → Reads (Self.Reader.stream source) new reading
            → gives self.now name.now reading) }
        ensures reason { IfErr result (λ e. IfSome (reason_told e) (λ reason.
            gives self.now name.now (record { bytes = []; end = NotOpened reason }))) };
}

/// The files of the system.
///
/// ```
/// use lexdfa_lib::{Files, SystemFiles};
///
/// let files = SystemFiles { rt };
/// let file = files.open(alloc, "words.txt")?;
/// ```
#[derive(Drop)]
pub struct SystemFiles<'rt, R> {
    pub rt: &'rt R,
}

fn opened<R: RuntimeFiles>(rt: &R, name: &str) -> io::Result<R::File> {
    let file = File::open(rt, name)?;
    if file.metadata()?.is_dir() {
        return Err(io::Error::from(ErrorKind::IsADirectory));
    }
    Ok(file)
}

impl<R: RuntimeFiles> Files for SystemFiles<'_, R> {
    // No contract can say what is on a disk.
    ghost gives = { λ files name reading. Unit {0} };

    type Reader = Watched<R::File>;

    fn open(&self, alloc: Global, name: &str) -> Result<Watched<R::File>, NoBytes> {
        match opened(self.rt, name) {
            Ok(file) => Ok(Watched::new(file)),
            Err(error) if error.kind() == ErrorKind::OutOfMemory => Err(NoBytes::OutOfMemory),
            Err(error) => Err(NoBytes::Because(format!(in alloc; "{error}")?)),
        }
    }
}

/// Standard error, as a writer of text.
///
/// ```
/// use lexdfa_lib::{ErrorStream, Watched, Writer};
///
/// let errors = Writer::new(Watched::new(ErrorStream { rt }));
/// ```
#[derive(Drop)]
pub struct ErrorStream<'rt, R> {
    pub rt: &'rt R,
}

impl<R: Eprint> Write for ErrorStream<'_, R> {
    fn write(&mut self, buf: &[u8]) -> io::Result<usize> {
        let Ok(text) = str::from_utf8(buf) else {
            return Err(io::Error::from(ErrorKind::InvalidData));
        };
        eprint!(self.rt; "{text}")?;
        Ok(buf.len())
    }

    fn flush(&mut self) -> io::Result<()> {
        Ok(())
    }
}

/// All bytes of a file; or why it gives none.
///
/// # Errors
///
/// `AllocError` if a request for memory was refused.
pub fn bytes_of<F: Files>(
    alloc: Global,
    files: &F,
    name: &str,
) -> Result<Result<Vec<u8>, String>, AllocError>
    ensures bytes { IfOk result (λ found. IfOk found (λ bytes.
        GivesWhole (F.gives files.now) name.now (Ok bytes.items))) }
    ensures reason { IfOk result (λ found. IfErr found (λ reason.
        GivesWhole (F.gives files.now) name.now (Err (string_bytes reason)))) }
{
    let source = match files.open(alloc, name) {
        Ok(source) => source,
        Err(NoBytes::OutOfMemory) => return Err(AllocError),
        Err(NoBytes::Because(reason)) => return Ok(Err(reason)),
    };
    match read_whole(alloc, &mut Reader::new(source)) {
        Ok(bytes) => Ok(Ok(bytes)),
        Err(RunError::Read) => Ok(Err(String::from_str(alloc, "read failed")?)),
        Err(_) => Err(AllocError),
    }
}
