//! The words of clashes: their values, how they are compared and written, and the arguments of a program.
ghost use Rattle.std.specs.Prelude.{◌≡◌, ◌↔◌, ◌++◌, Bool, ℕ, List, flat_map, codes, length, map, string_bytes, IsTrue, IfOk, IfSome, IfNone};
ghost use Rattle.lexdfa_lib.specs.Word.{value_text};
ghost use Rattle.lexdfa_lib.specs.Arguments.{AreArguments};

use lexdfa_lib::{Word, arguments};
use std::alloc::{AllocError, Global};

// Needs lexdfa_lib::Word::new: values.
// Needs lexdfa_lib::Word::into_vec: values.
/// The values of a word, in the list that it was made from.
pub fn there_and_back(values: Vec<u32>) -> Vec<u32>
    ensures same { result.items ≡ values.items }
{
    Word::new(values).into_vec()
}

// Needs lexdfa_lib::Word::values: values.
/// The number of values of a word.
pub fn word_length(word: &Word) -> usize
    ensures length { result ≡ length word.now }
{
    word.values().len()
}

// Needs lexdfa_lib::Word::eq: ghost eq.
/// Whether both words have the same values.
pub fn are_same(word: &Word, other: &Word) -> bool
    ensures same { IsTrue result ↔ (word.now ≡ other.now) }
{
    word == other
}

// Needs lexdfa_lib::Word::fmt: ghost output.
/// A word in brackets, each value after a space and in hexadecimal.
///
/// # Errors
///
/// `AllocError` if a request for memory was refused.
pub fn in_brackets(alloc: Global, word: &Word) -> Result<String, AllocError>
    ensures text { IfOk result (λ text. string_bytes text
        ≡ codes "[" ++ (flat_map value_text word.now ++ codes " ]")) }
{
    format!(in alloc; "[{word} ]")
}

// Needs lexdfa_lib::arguments: text, other.
/// Whether all of a text is to be cut; `None` if the arguments are wrong.
pub fn cuts_all(words: &[String]) -> Option<bool>
    ensures found { IfSome result (λ all. (text : List ℕ)
        × AreArguments (map string_bytes words.now) all text) }
    ensures wrong { IfNone result ((all : Bool) (text : List ℕ)
        → ¬ AreArguments (map string_bytes words.now) all text) }
{
    let (all, _) = arguments(words)?;
    Some(all)
}
