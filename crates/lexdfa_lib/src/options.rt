//! The arguments of `tokens`, parted into options and names.
ghost use Rattle.std.specs.Prelude.{codes, ◌≡◌, ◌++◌, map, filter, not, string_bytes, IfOk, OnOk};
ghost use Rattle.std.specs.List.{position_or_len, before_first, after_first};
ghost use Rattle.lexdfa_lib.specs.Options.{is_option, is_end, joined as joined_words, options, names, takes_value};

use std::alloc::{AllocError, Global};

/// The options and the names among the arguments.
#[derive(Drop)]
pub(crate) struct Parted<'words> {
    pub options: Vec<&'words str>,
    pub names: Vec<&'words str>,
}

fn is_option(word: &str) -> bool
    ensures { result ≡ is_option word.now }
{
    word.starts_with("-") && word != "-"
}

// Whether the argument ends the options.
fn is_end(word: &str) -> bool
    ensures { result ≡ is_end word.now }
{
    word == "--"
}

// Whether the option has a value.
fn takes_value(word: &str) -> bool
    ensures { result ≡ takes_value word.now }
{
    word == "--emit" || word == "--prefix" || word == "--color"
}

// The option with its value.
fn with_value(alloc: Global, option: &str, value: &str) -> Result<String, AllocError>
    ensures { IfOk result (λ word. string_bytes word ≡ option.now ++ (codes "=" ++ value.now)) }
{
    format!(in alloc; "{option}={value}")
}

/// The arguments with each option that has a value, and its value, in one word: `--emit c` becomes `--emit=c`. What stands
/// after the first `--` stays as it is.
///
/// # Errors
///
/// `AllocError` if a request for memory was refused.
pub fn joined(alloc: Global, words: &[String]) -> Result<Vec<String>, AllocError>
    ensures { IfOk result (λ all.
        map string_bytes all.items ≡ joined_words (map string_bytes words.now)) }
{
    let mut all = Vec::new(alloc);
    let mut at = 0;
    'join: while at + 1 < words.len() && !is_end(&words[at]) {
        let word = words[at].as_str();
        if takes_value(word) {
            all.push(with_value(alloc, word, &words[at + 1])?)?;
            at += 2;
        } else {
            all.push(String::from_str(alloc, word)?)?;
            at += 1;
        }
    }
    for word in &words[at..] {
        all.push(word.clone()?)?;
    }
    Ok(all)
}

// Where the first `--` stands, or how many arguments there are.
fn end_of(words: &[String]) -> usize
    ensures { result ≡ position_or_len is_end (map string_bytes words.now) }
{
    for (i, word) in words.iter().enumerate() {
        if is_end(word.as_str()) {
            return i;
        }
    }
    words.len()
}

// The arguments before the first `--`, and those after it.
fn around_end(words: &[String]) -> (&[String], &[String])
    ensures before { map string_bytes result.0.now
        ≡ before_first is_end (map string_bytes words.now) }
    ensures behind { map string_bytes result.1.now
        ≡ after_first is_end (map string_bytes words.now) }
{
    let end = end_of(words);
    if end < words.len() {
        (&words[..end], &words[end + 1..])
    } else {
        (words, &[])
    }
}

/// The options, which begin with a dash, are more than it and stand before the first `--`, and the names, which are all others.
///
/// # Errors
///
/// `AllocError` if a request for memory was refused.
pub(crate) fn part(alloc: Global, words: &[String]) -> Result<Parted<'_>, AllocError>
    ensures options { IfOk result (λ found.
        map (λ w. w.now) found.options.items ≡ options (map string_bytes words.now)) }
    ensures names { IfOk result (λ found.
        map (λ w. w.now) found.names.items ≡ names (map string_bytes words.now)) }
{
    let (front, behind) = around_end(words);
    let mut options = Vec::new(alloc);
    let mut names = Vec::new(alloc);
    for word in front {
        let word = word.as_str();
        if is_option(word) {
            options.push(word)?;
        } else {
            names.push(word)?;
        }
    }
    for name in behind {
        names.push(name.as_str())?;
    }
    Ok(Parted { options, names })
}
