//! A highlighter: shows a text with keywords in bold and numbers in green, by the marks of a terminal.
#![tactic(auto)]

ghost use Rattle.std.specs.Prelude.{◌≡◌, ◌++◌, ℕ, List, [], string_bytes, IfOk, OnOk};
ghost use Rattle.std.specs.List.{list_all};
ghost use Rattle.guide.specs.Marks.{without_marks};
ghost use Rattle.guide.specs.Internal.Shows.{Shows, is_plain_byte};

use lalrpop_lexer::lexer::dfa::Precedence;
use lalrpop_lexer::{Form, Lexer};
use std::alloc::{AllocError, Global};
use thiserror::Error;

/// Why a text can't be shown.
#[derive(Debug, Drop, Error)]
pub enum ShowError {
    /// No pattern matches at this byte.
    #[error("no pattern matches at byte {at}")]
    Fault { at: usize },
    /// A token holds the byte that begins a mark.
    #[error("the text holds a mark")]
    Mark,
    /// A request for memory was refused.
    #[error("out of memory")]
    OutOfMemory,
}

impl From<AllocError> for ShowError {
    fn from(_error: AllocError) -> ShowError {
        ShowError::OutOfMemory
    }
}

// The mark before a token, by the place of its pattern.
fn mark_of(place: usize) -> &'static str
    ensures mark { Shows result.now [] }
{
    match place {
        0 => "\x1b[1m",
        1 => "\x1b[32m",
        _ => "\x1b[0m",
    }
}

// Whether the slice holds no byte that begins a mark.
fn is_plain(slice: &str) -> bool
    ensures { result ≡ list_all is_plain_byte slice.now }
{
    slice.bytes().all(|byte| byte != 0x1b)
}

// The token, after its mark.
fn push_marked(shown: &mut String, place: usize, slice: &str) -> Result<(), ShowError>
    ensures shows { OnOk result ((text : List ℕ) → Shows (string_bytes shown.old) text
        → Shows (string_bytes shown.new) (text ++ slice.now)) }
{
    if !is_plain(slice) {
        return Err(ShowError::Mark);
    }
    shown.push_str(mark_of(place))?;
    shown.push_str(slice)?;
    Ok(())
}

/// The text with a mark before each token. Without the marks it is the text.
///
/// # Errors
///
/// The first place where no pattern matches; a token that holds the byte of a mark; and out of memory.
pub fn highlighted(alloc: Global, lexer: &Lexer, text: &str) -> Result<String, ShowError>
    ensures text { IfOk result (λ shown. without_marks (string_bytes shown) ≡ text.now) }
{
    let mut shown = String::new(alloc);
    for item in lexer.tokens(alloc, text)? {
        match item {
            Ok(token) => push_marked(&mut shown, token.0.index(), token.1)?,
            Err(fault) => return Err(ShowError::Fault { at: fault.at }),
        }
    }
    Ok(shown)
}

/// Shows a text.
pub fn main(rt: HostRuntime) -> anyhow::Result<()> {
    let alloc = rt.alloc();
    let patterns = [
        (Precedence(1), Form::Pattern, "let|in"),
        (Precedence(0), Form::Pattern, "[0-9]+"),
        (Precedence(0), Form::Pattern, r"[a-z]+|[=+]|\s+"),
    ];
    let lexer = Lexer::from_patterns(alloc, &patterns)?;
    let shown = highlighted(alloc, &lexer, "let x = 7 in x + 35\n")?;
    print!(rt; "{shown}\x1b[0m")?;
    Ok(())
}
