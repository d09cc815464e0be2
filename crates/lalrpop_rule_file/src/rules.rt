//! The rules of a file whose modes are known.
ghost use Rattle.std.specs.Prelude.{◌≡◌, ◌++◌, ℕ, List, [], map, IfOk, IfErr, OnOk};
ghost use Rattle.lalrpop_re.specs.NamedPart.{NamedPart};
ghost use Rattle.bajofeki_rules.specs.Lines.{lines};
ghost use Rattle.lalrpop_rule_file.specs.FileModes.{AllLeadWithin, AreActions, AreModes};
ghost use Rattle.lalrpop_rule_file.specs.RuleLine.{Section as SectionValue};
ghost use Rattle.lalrpop_rule_file.specs.RuleFile.{AreFileParts, AreRules, ArePlaces, IsFileRule, IsRuleFileError, IsText, IsTextColumn};
ghost use Rattle.lalrpop_rule_file.specs.Internal.Values.{ArePlacedIn, HasText, rule_of, text_of, written_of};
ghost use Rattle.lalrpop_rule_file.specs.Internal.Lines.{HasModes, IsErrorOfRule, names_in};

use crate::content::{FileLine, column_of, read_line};
use crate::error::RuleFileError;
use crate::file_rule::FileRule;
use crate::modes::INITIAL;
use crate::numbers::{actions_with_numbers, missing_mode, numbers_of, section_numbers};
use crate::written::{Form, LineRule, Said, WrittenText};
use bajofeki_rules::{Action, Position, Rule, RuleText, split_line};
use lalrpop_hir::Precedence;
use std::alloc::Global;

// The actions of a rule in the line with this number, with the numbers of their modes.
fn known_actions(
    alloc: Global,
    modes: &[&str],
    number: usize,
    content: &str,
    rule: &LineRule<'_>,
) -> Result<Vec<Action>, RuleFileError>
    requires placed { ArePlacedIn content.now rule.now }
    ensures acts { IfOk result (λ all. AreActions (names_in modes.now)
        (map written_of rule.now.head.actions.items) all.items) }
    ensures within { OnOk result (AllLeadWithin (names_in modes.now)
        (map written_of rule.now.head.actions.items)) }
    ensures error { IfErr result (λ e.
        IsErrorOfRule (names_in modes.now) number content.now e) }
{
    if let Some(here) = missing_mode(modes, &rule.head.actions) {
        return Err(RuleFileError::NoSuchMode {
            line: number,
            column: column_of(content, here),
        });
    }
    let actions = actions_with_numbers(alloc, modes, &rule.head.actions)?;
    Ok(actions)
}

// The text of a rule that is written so.
fn rule_text(text: WrittenText<'_>) -> RuleText<'_>
    ensures { IsText result (text_of text.entry) }
{
    match text {
        WrittenText::Quoted(Form::Literal, inner) => RuleText::Literal(inner),
        WrittenText::Quoted(Form::Escaped, inner) => RuleText::Escaped(inner),
        WrittenText::Quoted(Form::Pattern, inner) => RuleText::Pattern(inner),
        WrittenText::AnyCase(inner) => RuleText::AnyCase(inner),
        WrittenText::FromTo { from, to } => RuleText::FromTo { from, to },
    }
}

// The rule of the line with this number, in a section of the modes with the numbers `here`, below `known` parts.
fn file_rule<'text>(
    alloc: Global,
    modes: &[&str],
    here: &[usize],
    known: usize,
    number: usize,
    content: &'text str,
    rule: LineRule<'text>,
) -> Result<FileRule<'text>, RuleFileError>
    requires placed { ArePlacedIn content.now rule }
    requires text { HasText content.now rule }
    ensures rule { IfOk result (λ r. (section : SectionValue)
        → AreModes (names_in modes.now) section here.now
        → IsFileRule (names_in modes.now) section (rule_of rule.entry) r) }
    ensures known { IfOk result (λ r. r.known ≡ known) }
    ensures line { IfOk result (λ r. r.place.line ≡ number) }
    ensures column { IfOk result (λ r.
        IsTextColumn content.now (text_of rule.entry.text.text) r.place.column) }
    ensures within { OnOk result (AllLeadWithin (names_in modes.now)
        (map written_of rule.entry.head.actions.items)) }
    ensures error { IfErr result (λ e.
        IsErrorOfRule (names_in modes.now) number content.now e) }
{
    let actions = known_actions(alloc, modes, number, content, &rule)?;
    let modes = Vec::from_slice(alloc, here)?;
    Ok(FileRule {
        rule: Rule {
            name: rule.head.name,
            text: rule_text(rule.text.text),
            precedence: Precedence(rule.precedence),
            is_skipped: rule.head.is_skipped,
        },
        modes,
        actions,
        known,
        place: Position {
            line: number,
            column: column_of(content, rule.text.here),
        },
    })
}

/// The rules of a file with these lines and modes, whose parts are fine.
pub(crate) fn rules_of_lines<'text>(
    alloc: Global,
    bytes: &'text [u8],
    modes: &[&str],
) -> Result<Vec<FileRule<'text>>, RuleFileError>
    requires modes { HasModes (lines bytes.now) (names_in modes.now) }
    requires parts { (ps : List NamedPart) × AreFileParts (lines bytes.now) ps }
    ensures rules { IfOk result (λ rs. AreRules (lines bytes.now) (names_in modes.now) rs.items) }
    ensures places { IfOk result (λ rs. ArePlaces (lines bytes.now) rs.items) }
    ensures error { IfErr result (λ e. IsRuleFileError bytes.now e) }
{
    let mut rules = Vec::new(alloc);
    let mut here = numbers_of(alloc, modes, &[INITIAL])?;
    let mut known = 0;
    let mut number = 0;
    let mut rest = bytes;
    while let Some((line, after)) = split_line(rest) {
        number += 1;
        let FileLine { content, said } = read_line(alloc, number, line)?;
        match said {
            Said::Nothing => {}
            Said::Heading(section) => here = section_numbers(alloc, modes, &section)?,
            Said::Define(_) => known += 1,
            Said::Rule(rule) => {
                rules.push(file_rule(alloc, modes, &here, known, number, content, rule)?)?;
            }
        }
        rest = after;
    }
    Ok(rules)
}
