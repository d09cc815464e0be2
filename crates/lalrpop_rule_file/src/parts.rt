//! The parts of a file all of whose lines say something.
ghost use Rattle.std.specs.Prelude.{◌≡◌, ◌≤◌, ◌+◌, ◌-◌, ◌++◌, ℕ, List, [], ◌∷◌, length, drop, chars, Contains, IfOk, IfErr, IfSome, IfNone, OnOk};
ghost use Rattle.std.specs.Str.{IsCharBoundary};
ghost use Rattle.lalrpop_re.specs.Pattern.{IsPart};
ghost use Rattle.bajofeki_rules.specs.Lines.{lines};
ghost use Rattle.lalrpop_rule_file.specs.FileModes.{Said as SaidValue};
ghost use Rattle.lalrpop_rule_file.specs.FileParts.{IsNameColumn, IsPatternColumn, parts_in};
ghost use Rattle.lalrpop_rule_file.specs.PartLines.{ArePartLines};
ghost use Rattle.lalrpop_rule_file.specs.RuleFile.{AreFileParts, IsRuleFileError, LinesSay};
ghost use Rattle.lalrpop_rule_file.specs.Internal.Values.{HasPattern, IsNameIn, part_of, said_of};
ghost use Rattle.lalrpop_rule_file.specs.Internal.Lines.{IsErrorOfPart, names_in};
ghost use Rattle.lalrpop_rule_file.specs.declared.written.Said.TheVariants.{Define};

use crate::content::{FileLine, column_of, read_line};
use crate::error::RuleFileError;
use crate::numbers::number_of;
use crate::part_line::PartLine;
use crate::written::{LinePart, Said};
use bajofeki_rules::{Position, split_line};
use lalrpop_re::{Part, RegexError};
use std::alloc::Global;

// The column of a place in the pattern of this part.
fn pattern_column(content: &str, part: &LinePart<'_>, position: usize) -> usize
    requires pattern { HasPattern content.now part.now }
    requires position { IsCharBoundary part.now.pattern.now position }
    ensures { IsPatternColumn content.now part.now.pattern.now result }
{
    column_of(content, &part.here[position..])
}

// The part of the line with this number, below these parts with these names.
fn file_part(
    alloc: Global,
    names: &[&str],
    parts: &[Part],
    number: usize,
    content: &str,
    part: &LinePart<'_>,
) -> Result<Part, RuleFileError>
    requires name { IsNameIn content.now part.now.name }
    requires pattern { HasPattern content.now part.now }
    ensures part { IfOk result (λ p.
        IsPart parts.now (chars part.now.name.name.now) (chars part.now.pattern.now) p) }
    ensures is_new { OnOk result (¬ Contains (names_in names.now) part.now.name.name.now) }
    ensures error { IfErr result (λ e.
        IsErrorOfPart (names_in names.now) parts.now number content.now (part_of part.now) e) }
{
    if number_of(names, part.name.name).is_some() {
        return Err(RuleFileError::RepeatedPart {
            line: number,
            column: column_of(content, part.name.here),
        });
    }
    match Part::parse(alloc, part.name.name, part.pattern, parts) {
        Ok(made) => Ok(made),
        Err(RegexError::Syntax { position, kind }) => Err(RuleFileError::BadPart {
            line: number,
            column: pattern_column(content, part, position),
            kind,
        }),
        Err(RegexError::OutOfMemory) => Err(RuleFileError::OutOfMemory),
    }
}

// The part that a line defines.
fn defined(said: Said<'_>) -> Option<LinePart<'_>>
    ensures some { IfSome result (λ part. said.entry ≡ Define part) }
    ensures none { IfNone result (parts_in (said_of said.entry ∷ []) ≡ []) }
{
    match said {
        Said::Define(part) => Some(part),
        Said::Nothing | Said::Heading(_) | Said::Rule(_) => None,
    }
}

// The part as it is written in the line with this number.
fn part_line<'text>(number: usize, content: &'text str, part: &LinePart<'text>) -> PartLine<'text>
    requires name { IsNameIn content.now part.now.name }
    ensures name { result.name.now ≡ part.now.name.name.now }
    ensures pattern { result.pattern.now ≡ part.now.pattern.now }
    ensures in_line { result.place.line ≡ number }
    ensures column { IsNameColumn content.now part.now.name.name.now result.place.column }
{
    PartLine {
        name: part.name.name,
        pattern: part.pattern,
        place: Position {
            line: number,
            column: column_of(content, part.name.here),
        },
    }
}

/// The parts of a file, and how they are written, in the order of their lines.
#[derive(Drop)]
pub(crate) struct FileParts<'text> {
    pub(crate) parts: Vec<Part>,
    pub(crate) lines: Vec<PartLine<'text>>,
}

/// The parts of a file with these lines.
pub(crate) fn parts_of_lines(alloc: Global, bytes: &[u8]) -> Result<FileParts<'_>, RuleFileError>
    requires { (said : List SaidValue) × LinesSay (lines bytes.now) said }
    ensures parts { IfOk result (λ file. AreFileParts (lines bytes.now) file.parts.items) }
    ensures lines { IfOk result (λ file. ArePartLines (lines bytes.now) file.lines.items) }
    ensures error { IfErr result (λ e. IsRuleFileError bytes.now e) }
{
    let mut names = Vec::new(alloc);
    let mut parts = Vec::new(alloc);
    let mut written = Vec::new(alloc);
    let mut number = 0;
    let mut rest = bytes;
    while let Some((line, after)) = split_line(rest) {
        number += 1;
        let FileLine { content, said } = read_line(alloc, number, line)?;
        if let Some(part) = defined(said) {
            let made = file_part(alloc, &names, &parts, number, content, &part)?;
            names.push(part.name.name)?;
            parts.push(made)?;
            written.push(part_line(number, content, &part))?;
        }
        rest = after;
    }
    Ok(FileParts {
        parts,
        lines: written,
    })
}
