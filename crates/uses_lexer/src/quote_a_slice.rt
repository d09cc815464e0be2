//! Slices and words in quotes, and what follows from the laws for callers, which the proofs here cite.
ghost use Rattle.std.specs.Prelude.{◌≡◌, ◌↔◌, ◌++◌, IsTrue, false, true, IfOk, OnOk, IfSome, codes, string_bytes};
ghost use Rattle.bajofeki_rules.specs.Quoted.{is_unseen, quoted, told};

use lalrpop_lexer::{ShownWord, is_unseen, push_escaped_char, push_quoted, quoted};
use std::alloc::{AllocError, Global};

// Needs lalrpop_lexer::quoted: quoted.
/// Whether two slices are the same, as their quoted forms show.
///
/// # Errors
///
/// `AllocError` if a request for memory was refused.
pub fn are_same(alloc: Global, one: &str, other: &str) -> Result<bool, AllocError>
    ensures same { IfOk result (λ same. IsTrue same ↔ (one.now ≡ other.now)) }
{
    let first = quoted(alloc, one)?;
    let second = quoted(alloc, other)?;
    Ok(first == second)
}

// Needs lalrpop_lexer::quoted: quoted.
/// Whether the quoted slice has more than one line. It never has.
///
/// # Errors
///
/// `AllocError` if a request for memory was refused.
pub fn has_two_lines(alloc: Global, slice: &str) -> Result<bool, AllocError>
    ensures never { IfOk result (λ has. has ≡ false) }
{
    let text = quoted(alloc, slice)?;
    Ok(text.contains('\n'))
}

// Needs lalrpop_lexer::ShownWord::fmt: ghost output.
/// Whether two words are the same, as their quoted forms show.
///
/// # Errors
///
/// `AllocError` if a request for memory was refused.
pub fn are_same_words(alloc: Global, one: &[u32], other: &[u32]) -> Result<bool, AllocError>
    ensures same { IfOk result (λ same. IsTrue same ↔ (one.now ≡ other.now)) }
{
    let first = format!(in alloc; "{}", ShownWord(one))?;
    let second = format!(in alloc; "{}", ShownWord(other))?;
    Ok(first == second)
}

// Needs lalrpop_lexer::ShownWord::fmt: ghost output.
/// Whether the quoted word has more than one line. It never has.
///
/// # Errors
///
/// `AllocError` if a request for memory was refused.
pub fn word_has_two_lines(alloc: Global, word: &[u32]) -> Result<bool, AllocError>
    ensures never { IfOk result (λ has. has ≡ false) }
{
    let text = format!(in alloc; "{}", ShownWord(word))?;
    Ok(text.contains('\n'))
}

// Needs lalrpop_lexer::push_escaped_char: returns.
/// The character between two apostrophes.
///
/// # Errors
///
/// `AllocError` if a request for memory was refused.
pub fn char_in_apostrophes(alloc: Global, c: char) -> Result<String, AllocError>
    ensures text { IfOk result (λ text.
        string_bytes text ≡ codes "'" ++ (told c ++ codes "'")) }
{
    let mut text = String::from_str(alloc, "'")?;
    push_escaped_char(&mut text, c)?;
    text.push_str("'")?;
    Ok(text)
}

// Needs lalrpop_lexer::is_unseen: returns.
/// The first character of the slice that isn't seen.
pub fn first_unseen(slice: &str) -> Option<char>
    ensures unseen { IfSome result (λ c. is_unseen c ≡ true) }
{
    for c in slice.chars() {
        if is_unseen(c) {
            return Some(c);
        }
    }
    None
}

// Needs lalrpop_lexer::push_quoted: quoted.
/// The slice in quotes, after a comma.
///
/// # Errors
///
/// `AllocError` if a request for memory was refused.
pub fn push_field(alloc: Global, bytes: &mut Vec<u8>, slice: &str) -> Result<(), AllocError>
    ensures field { OnOk result (bytes.new.items
        ≡ bytes.old.items ++ (codes "," ++ quoted slice.now)) }
{
    bytes.push(b',')?;
    push_quoted(alloc, bytes, slice)
}
