//! What the program answers about rules, into an array.
ghost use Rattle.std.specs.Prelude.{◌≡◌, ◌⊎◌, ◌++◌, length as length_of, IfOk, OnErr};
ghost use Rattle.bajofeki_c.specs.Answered.{IsNotChecked, IsPut};

use crate::check::Checked;
use crate::rules::write_to;
use reviews_lib::Reply;
use std::alloc::{AllocError, Global};

// What is written, and then what is said.
fn told(alloc: Global, reply: &Reply) -> Result<Vec<u8>, AllocError>
    ensures told { IfOk result (λ bytes. bytes.items ≡ reply.now.out ++ reply.now.err) }
{
    let mut bytes = Vec::new(alloc);
    bytes.extend_from_slice(reply.out())?;
    bytes.extend_from_slice(reply.err().as_bytes())?;
    Ok(bytes)
}

// What C is given for an answer that has this many bytes.
fn checked_of(reply: &Reply, length: usize) -> Checked
    ensures code { result.code ≡ reply.now.status }
    ensures found { result.found ≡ length_of reply.now.out }
    ensures length { result.length ≡ length }
{
    Checked {
        code: u32::from(reply.status()),
        found: reply.out().len(),
        length,
    }
}

fn reply_into(alloc: Global, reply: &Reply, out: &mut [u8]) -> Result<Checked, AllocError>
    ensures put { IfOk result (λ checked. IsPut reply.now out.old checked out.new) }
    ensures refused { OnErr result (out.new ≡ out.old) }
{
    let bytes = told(alloc, reply)?;
    Ok(checked_of(reply, write_to(&bytes, out)))
}

/// Nothing was written, for this reason.
pub fn not_checked(code: u32) -> Checked
    ensures none { result ≡ record { code = code; found = 0; length = 0 } }
{
    Checked {
        code,
        found: 0,
        length: 0,
    }
}

/// Writes as many bytes of an answer as fit, and says how many there are; nothing, if memory was refused.
pub fn answer_into(alloc: Global, answer: Result<Reply, AllocError>, out: &mut [u8]) -> Checked
    ensures put { IfOk answer (λ a. IsPut a out.old result out.new
        ⊎ IsNotChecked 7 out.old result out.new) }
    ensures refused { OnErr answer (IsNotChecked 7 out.old result out.new) }
{
    let Ok(reply) = answer else {
        return not_checked(7);
    };
    match reply_into(alloc, &reply, out) {
        Ok(checked) => checked,
        Err(_) => not_checked(7),
    }
}
