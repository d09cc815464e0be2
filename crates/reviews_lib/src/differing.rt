//! One file of rules compared with another.
ghost use Rattle.std.specs.Prelude.{◌≡◌, map, IfOk};
ghost use Rattle.lexdfa_lib.specs.Streams.{GivesWhole};
ghost use Rattle.reports_lib.specs.NamedRules.{ByLexer};
ghost use Rattle.reviews_lib.specs.Compared.{BytesCompared, ComparedAnswer, OtherAnswer, other_of};

use crate::compared::difference_reply;
use lalrpop_rules::RuleLexer;
use lexdfa_lib::{Files, Verbosity, bytes_of};
use reports_lib::{Reply, lexer_by_name, lexer_of_bytes, unread};
use std::alloc::{AllocError, Global};

// The name of the other file of rules: the first name after RULES, or the empty string if there is none.
fn other_of<'name>(names: &[&'name str]) -> &'name str
    ensures other { result.now ≡ other_of (map (λ name. name.now) names.now) }
{
    match names.first() {
        Some(name) => *name,
        None => "",
    }
}

// What is answered where the rules that these bytes are, in the other file, say something else than these.
fn compare_bytes(
    alloc: Global,
    verbosity: Verbosity,
    name: &str,
    rules: &RuleLexer,
    other: &str,
    bytes: &[u8],
) -> Result<Reply, AllocError>
    ensures answer { IfOk result (OtherAnswer verbosity name.now rules.now
        rules.now.mode_names other.now bytes.now) }
{
    match lexer_of_bytes(alloc, verbosity, other, bytes)? {
        Ok(found) => {
            difference_reply(alloc, name, rules, other, &found.lexer)?.after(0, found.said)
        }
        Err(reply) => Ok(reply),
    }
}

/// What is answered where the rules that these bytes are, in a file of this name, are compared with those of another.
///
/// ```
/// use lexdfa_lib::Verbosity;
/// use reviews_lib::difference_answer;
///
/// let reply = difference_answer(alloc, Verbosity::Warnings, "old", b"A = 'a'\n", "new", b"B = 'a'\n")?;
/// assert_eq!(reply.out(), b"\"a\" is A in old, and B in new\n"); // as `tokens --diff old new`
/// ```
///
/// # Errors
///
/// `AllocError` if a request for memory was refused.
pub fn difference_answer(
    alloc: Global,
    verbosity: Verbosity,
    name: &str,
    bytes: &[u8],
    other: &str,
    others: &[u8],
) -> Result<Reply, AllocError>
    ensures answer { IfOk result
        (BytesCompared verbosity name.now bytes.now other.now others.now) }
{
    match lexer_of_bytes(alloc, verbosity, name, bytes)? {
        Ok(found) => {
            compare_bytes(alloc, verbosity, name, &found.lexer, other, others)?.after(0, found.said)
        }
        Err(reply) => Ok(reply),
    }
}

// What is answered where the rules of the other file say something else than these.
fn compare_with<F: Files>(
    alloc: Global,
    verbosity: Verbosity,
    files: &F,
    name: &str,
    rules: &RuleLexer,
    other: &str,
) -> Result<Reply, AllocError>
    ensures answer { IfOk result (ComparedAnswer (GivesWhole (F.gives files.now)) verbosity
        name.now rules.now rules.now.mode_names other.now) }
{
    match bytes_of(alloc, files, other)? {
        Ok(bytes) => compare_bytes(alloc, verbosity, name, rules, other, &bytes),
        Err(reason) => unread(alloc, other, reason.as_str()),
    }
}

/// What is answered where a file of rules is compared with the one that is named first after it.
///
/// # Errors
///
/// `AllocError` if a request for memory was refused.
pub fn compare<F: Files>(
    alloc: Global,
    verbosity: Verbosity,
    files: &F,
    rules: &str,
    names: &[&str],
) -> Result<Reply, AllocError>
    ensures answer { IfOk result (ByLexer (GivesWhole (F.gives files.now)) verbosity
        (λ r modes. ComparedAnswer (GivesWhole (F.gives files.now)) verbosity rules.now r modes
        (other_of (map (λ name. name.now) names.now))) rules.now) }
{
    match lexer_by_name(alloc, verbosity, files, rules)? {
        Ok(found) => {
            let other = other_of(names);
            compare_with(alloc, verbosity, files, rules, &found.lexer, other)?.after(0, found.said)
        }
        Err(reply) => Ok(reply),
    }
}
