//! The warnings about a file of rules, as JSON objects.
ghost use Rattle.std.specs.Prelude.{◌≡◌, ◌++◌, codes, map, IfOk, OnOk};
ghost use Rattle.bajofeki_rules.specs.Lines.{lines};
ghost use Rattle.lalrpop_rule_file.specs.RuleFile.{without_mark as without_mark_of};
ghost use Rattle.reports_lib.specs.PieceLines.{name_at, string_member, object_line};
ghost use Rattle.reports_lib.specs.Warned.{SaysWarnings, rule_name as rule_name_of, text_place as text_place_of, warned_members, warning_members};
ghost use Rattle.reports_lib.specs.Internal.ModePlaces.{section_at};
ghost use Rattle.lexdfa_lib.specs.declared.layout.LineForm.TheVariants.{Json};

use crate::json_line::{begun_object, ended_line, write_number, write_string};
use crate::mode_place::mode_place;
use crate::warnings::{mode_name, part_name, part_place, text_place};
use json::Writer;
use lalrpop_lexer::Position;
use lalrpop_rule_file::{FileRule, RuleFile, Warning, without_mark};
use std::alloc::{AllocError, Global};

// The name of the rule with this index.
fn rule_name<'text>(rules: &[FileRule<'text>], rule: usize) -> &'text str
    ensures { result.now ≡ name_at (map (λ r. r.rule.name.now) rules.now) rule }
{
    match rules.get(rule) {
        Some(rule) => rule.rule.name,
        None => "",
    }
}

// The file, a place in it, and the kind of the warning.
fn write_warned(
    writer: &mut Writer,
    name: &str,
    place: Position,
    kind: &str,
) -> Result<(), AllocError>
    ensures tokens { OnOk result (writer.new.tokens
        ≡ writer.old.tokens ++ warned_members name.now place kind.now) }
    ensures before { writer.new.before ≡ writer.old.before }
{
    let Position { line, column } = place;
    write_string(writer, "file", name)?;
    write_number(writer, "line", line)?;
    write_number(writer, "column", column)?;
    write_string(writer, "kind", kind)
}

// The members of a warning about the mode.
fn write_of_mode(
    writer: &mut Writer,
    name: &str,
    bytes: &[u8],
    mode: &str,
    kind: &str,
) -> Result<(), AllocError>
    ensures tokens { OnOk result (writer.new.tokens ≡ writer.old.tokens
        ++ (warned_members name.now (section_at (lines bytes.now) mode.now) kind.now
        ++ string_member (codes "mode") mode.now)) }
    ensures before { writer.new.before ≡ writer.old.before }
{
    write_warned(writer, name, mode_place(bytes, mode), kind)?;
    write_string(writer, "mode", mode)
}

// The members of a warning about the text of the rule with this index.
fn write_of_text(
    writer: &mut Writer,
    name: &str,
    file: &RuleFile<'_>,
    rule: usize,
    kind: &str,
) -> Result<(), AllocError>
    ensures tokens { OnOk result (writer.new.tokens ≡ writer.old.tokens
        ++ (warned_members name.now (text_place_of file.now rule) kind.now
        ++ string_member (codes "rule") (rule_name_of file.now rule))) }
    ensures before { writer.new.before ≡ writer.old.before }
{
    write_warned(writer, name, text_place(&file.rules, rule), kind)?;
    write_string(writer, "rule", rule_name(&file.rules, rule))
}

// The members of a warning about the file with these lines.
fn write_warning(
    writer: &mut Writer,
    name: &str,
    bytes: &[u8],
    file: &RuleFile<'_>,
    warning: Warning,
) -> Result<(), AllocError>
    ensures tokens { OnOk result (writer.new.tokens ≡ writer.old.tokens
        ++ warning_members name.now (section_at (lines bytes.now)) file.now warning) }
    ensures before { writer.new.before ≡ writer.old.before }
{
    match warning {
        Warning::NoRules => {
            write_string(writer, "file", name)?;
            write_string(writer, "kind", "no-rules")
        }
        Warning::PartUnused { part } => {
            let place = part_place(&file.part_lines, part);
            write_warned(writer, name, place, "part-unused")?;
            write_string(writer, "part", part_name(&file.part_lines, part))
        }
        Warning::ModeNotEntered { mode } => {
            let mode = mode_name(&file.modes, mode);
            write_of_mode(writer, name, bytes, mode, "mode-not-entered")
        }
        Warning::ModeNotLeft { mode } => {
            let mode = mode_name(&file.modes, mode);
            write_of_mode(writer, name, bytes, mode, "mode-not-left")
        }
        Warning::TextGoesOn { rule } => write_of_text(writer, name, file, rule, "text-goes-on"),
        Warning::ClassOutside { rule } => write_of_text(writer, name, file, rule, "class-outside"),
        Warning::EndPassed { rule } => write_of_text(writer, name, file, rule, "end-passed"),
    }
}

// The line of a warning about the file with these lines.
fn warning_object(
    alloc: Global,
    name: &str,
    bytes: &[u8],
    file: &RuleFile<'_>,
    warning: Warning,
) -> Result<Vec<u8>, AllocError>
    ensures line { IfOk result (λ line. line.items ≡ object_line
        (warning_members name.now (section_at (lines bytes.now)) file.now warning)) }
{
    let mut writer = begun_object(alloc)?;
    write_warning(&mut writer, name, bytes, file, warning)?;
    ended_line(alloc, writer)
}

/// The warnings about a file of rules (`RuleFile::warnings`) as JSON: a line for each, with an object whose members are `file`, `line`, `column`, `kind`, and `part`,
/// `mode` or `rule`; of a warning about the whole file only `file` and `kind`. The kinds are `no-rules`, `part-unused`,
/// `mode-not-entered`, `mode-not-left`, `text-goes-on`, `class-outside` and `end-passed`.
///
/// ```
/// use tokens_lib::{read_rules, warnings_json};
///
/// let bytes = b"A = /'.*'/\n";
/// let file = read_rules(alloc, bytes)?;
/// let lines = warnings_json(alloc, "c.rules", bytes, &file)?; // {"file":"c.rules","line":1,"column":6,"kind":"end-passed","rule":"A"}
/// ```
///
/// # Errors
///
/// `AllocError` if a request for memory was refused.
pub fn warnings_json(
    alloc: Global,
    name: &str,
    bytes: &[u8],
    file: &RuleFile<'_>,
) -> Result<Vec<u8>, AllocError>
    ensures objects { IfOk result (λ objects. SaysWarnings Json name.now
        (lines (without_mark_of bytes.now)) file.now objects.items) }
{
    let text = without_mark(bytes);
    let warnings = file.warnings(alloc)?;
    let mut objects = Vec::new(alloc);
    for warning in &warnings {
        let line = warning_object(alloc, name, text, file, *warning)?;
        objects.extend_from_slice(&line)?;
    }
    Ok(objects)
}
