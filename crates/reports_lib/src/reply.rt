//! What the program answers.
ghost use Rattle.std.specs.Prelude.{◌≡◌, [], string_bytes, OnOk, IfOk};
ghost use Rattle.reports_lib.specs.Answer.{followed, refusal, silence};

use std::alloc::{AllocError, Global};
use std::marker::Model;

/// An answer: an exit status, and what is written to standard output and to standard error.
///
/// ```
/// use reports_lib::Reply;
///
/// let reply = Reply::refusal(alloc, 6, String::from_str(alloc, "tokens: a.txt: not found\n")?);
/// assert_eq!((reply.status(), reply.err()), (6, "tokens: a.txt: not found\n"));
/// ```
#[derive(Debug, Drop)]
pub struct Reply {
    status: u8,
    out: Vec<u8>,
    err: String,
}

impl Model for Reply {
    ghost use Rattle.std.specs.Prelude.{string_bytes};
    ghost use Rattle.reports_lib.specs.Answer.{Answer};

    ghost Value = { Answer };

    ghost view = { λ r. record { status = r.status; out = r.out.items; err = string_bytes r.err } };
}

impl Reply {
    /// Something is written, and nothing said.
    pub fn written(alloc: Global, status: u8, out: Vec<u8>) -> Reply
        ensures written { result ≡ record { status = status; out = out.items; err = [] } }
    {
        Reply {
            status,
            out,
            err: String::new(alloc),
        }
    }

    /// Only something is said.
    pub fn refusal(alloc: Global, status: u8, err: String) -> Reply
        ensures refusal { result ≡ refusal status (string_bytes err) }
    {
        Reply {
            status,
            out: Vec::new(alloc),
            err,
        }
    }

    /// This answer, after something was said.
    ///
    /// # Errors
    ///
    /// `AllocError` if a request for memory was refused.
    pub fn after(self, status: u8, said: String) -> Result<Reply, AllocError>
        ensures followed { IfOk result (λ reply.
            reply ≡ followed (refusal status (string_bytes said)) self) }
    {
        let Reply {
            status: own,
            out,
            err,
        } = self;
        let mut all = said;
        all.push_str(&err)?;
        Ok(Reply {
            status: status.max(own),
            out,
            err: all,
        })
    }

    /// This answer, after another one.
    ///
    /// # Errors
    ///
    /// `AllocError` if a request for memory was refused.
    pub fn following(self, first: Reply) -> Result<Reply, AllocError>
        ensures followed { IfOk result (λ reply. reply ≡ followed first self) }
    {
        let Reply {
            status,
            mut out,
            mut err,
        } = first;
        out.extend_from_slice(&self.out)?;
        err.push_str(&self.err)?;
        Ok(Reply {
            status: status.max(self.status),
            out,
            err,
        })
    }

    /// The exit status.
    pub fn status(&self) -> u8
        ensures status { result ≡ self.now.status }
    {
        self.status
    }

    /// What is written to standard output.
    pub fn out(&self) -> &[u8]
        ensures out { result.now ≡ self.now.out }
    {
        &self.out
    }

    /// What is written to standard error.
    pub fn err(&self) -> &str
        ensures err { result.now ≡ self.now.err }
    {
        &self.err
    }
}
