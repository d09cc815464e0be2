//! Where the section of a mode begins in a file of rules.
ghost use Rattle.std.specs.Prelude.{◌≡◌, ◌+◌};
ghost use Rattle.std.specs.List.{prefix_len};
ghost use Rattle.bajofeki_rules.specs.Lines.{lines};
ghost use Rattle.lalrpop_rule_file.specs.Words.{is_blank, is_of_name};
ghost use Rattle.reports_lib.specs.Internal.ModePlaces.{begins_section, has_word, is_word, opens, section_at};

use crate::reported_file::NO_PLACE;
use bajofeki_rules::{Position, split_line};

fn is_blank(byte: u8) -> bool
    ensures { result ≡ is_blank byte }
{
    byte == b' ' || byte == b'\t'
}

fn is_of_name(byte: u8) -> bool
    ensures { result ≡ is_of_name byte }
{
    byte.is_ascii_alphanumeric() || byte == b'_'
}

// The number of blanks at the front of the line.
fn blanks(line: &[u8]) -> usize
    ensures { result ≡ prefix_len is_blank line.now }
{
    line.iter().take_while(|byte| is_blank(**byte)).count()
}

// The column after them.
fn first_column(line: &[u8]) -> usize
    ensures { result ≡ prefix_len is_blank line.now + 1 }
{
    blanks(line) + 1
}

// Whether the line begins with a `[` after blanks.
fn begins_section(line: &[u8]) -> bool
    ensures { result ≡ begins_section line.now }
{
    for byte in line {
        if !is_blank(*byte) {
            return *byte == b'[';
        }
    }
    false
}

fn is_word(mode: &str, word: &[u8]) -> bool
    ensures { result ≡ is_word mode.now word.now }
{
    !word.is_empty() && word == mode.as_bytes()
}

// Whether a word of the line is this mode.
fn has_word(mode: &str, line: &[u8]) -> bool
    ensures { result ≡ has_word mode.now line.now }
{
    line.split(|byte| !is_of_name(*byte))
        .any(|word| is_word(mode, word))
}

// Whether the line, which says something, begins a section of the mode.
fn opens(mode: &str, line: &[u8]) -> bool
    ensures { result ≡ opens mode.now line.now }
{
    begins_section(line) && has_word(mode, line)
}

/// Where the first section of the mode begins, if each line says something.
pub(crate) fn mode_place(bytes: &[u8], mode: &str) -> Position
    ensures { result ≡ section_at (lines bytes.now) mode.now }
{
    let mut number = 0;
    let mut rest = bytes;
    while let Some((line, after)) = split_line(rest) {
        number += 1;
        if opens(mode, line) {
            return Position {
                line: number,
                column: first_column(line),
            };
        }
        rest = after;
    }
    NO_PLACE
}
