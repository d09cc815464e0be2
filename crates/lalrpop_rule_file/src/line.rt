//! What one line says.
ghost use Rattle.std.specs.Prelude.{◌≡◌, ◌++◌, ℕ, List, [], Bool, false, codes, IfOk, IfErr, IfSome, IfNone};
ghost use Rattle.std.specs.Bool.{MatchBool};
ghost use Rattle.lalrpop_rule_file.specs.Words.{IsSpan, begins, is_blank, is_of_name};
ghost use Rattle.lalrpop_rule_file.specs.RuleLine.{Start, Named, Closed, Reads, bare};
ghost use Rattle.lalrpop_rule_file.specs.RuleFile.{IsBlankOrComment, Says};
ghost use Rattle.lalrpop_rule_file.specs.FileModes.{Said as SaidValue};
ghost use Rattle.lalrpop_rule_file.specs.Internal.Values.{ArePlaced, HasText, KeepsPlaces, rule_of as written_rule, said_of};
ghost use Rattle.lalrpop_rule_file.specs.Internal.Stops.{IsStopped, IsUnread};

use crate::head::{left_part, name_and_rest};
use crate::line_part::part_behind;
use crate::line_text::right_part;
use crate::section::section_behind;
use crate::span::{Class, split_front};
use crate::stop::Unread;
use crate::word::{behind, behind_word};
use crate::written::{LineRule, Said};
use std::alloc::Global;

// The rule with this name, from what follows it.
fn rule_behind<'text>(
    alloc: Global,
    name: &'text str,
    text: &'text str,
) -> Result<LineRule<'text>, Unread<'text>>
    requires no_blank { begins is_blank text.now ≡ false }
    requires no_part { (behind : List ℕ) → ¬ IsSpan is_of_name text.now (codes "part") behind }
    ensures rule { IfOk result (λ rule.
        Reads (Named (bare name.now)) text.now (Closed (written_rule rule)) []) }
    ensures placed { IfOk result (λ rule. ArePlaced (Named (bare name.now)) text.now
        rule.head.name.now rule.head.is_skipped rule.head.actions.items) }
    ensures begins { IfOk result (λ rule. HasText text.now rule) }
    ensures unread { IfErr result (λ e. IsUnread (Named (bare name.now)) text.now e) }
{
    let (head, right) = left_part(alloc, name, text)?;
    let (precedence, text) = right_part(right)?;
    Ok(LineRule {
        head,
        precedence,
        text,
    })
}

// Whether a line is blank or a comment.
fn says_nothing(line: &str) -> bool
    ensures { MatchBool result (IsBlankOrComment line.now) (¬ IsBlankOrComment line.now) }
{
    let (_, here) = split_front(line, Class::Blank);
    if here.is_empty() {
        return true;
    }
    behind(here, '#').is_some()
}

// What follows the `[` of a section, which may stand after blanks.
fn behind_bracket(line: &str) -> Option<&str>
    ensures some { IfSome result (λ rest. (lead : List ℕ)
        × IsSpan is_blank line.now lead (codes "[" ++ rest.now)) }
    ensures none { IfNone result ((lead right : List ℕ)
        → ¬ IsSpan is_blank line.now lead (codes "[" ++ right)) }
{
    let (_, here) = split_front(line, Class::Blank);
    behind(here, '[')
}

// The part or the rule that a line is which is no section.
fn named_line(alloc: Global, line: &str) -> Result<Said<'_>, Unread<'_>>
    requires { (lead right : List ℕ) → ¬ IsSpan is_blank line.now lead (codes "[" ++ right) }
    ensures says { IfOk result (λ said. Says line.now (said_of said)) }
    ensures kept { IfOk result (λ said. KeepsPlaces line.now said) }
    ensures unread { IfErr result (λ e. IsUnread Start line.now e) }
{
    let (name, text) = name_and_rest(line)?;
    if let Some(behind) = behind_word(text, "part") {
        let part = part_behind(name, behind)?;
        return Ok(Said::Define(part));
    }
    let rule = rule_behind(alloc, name.name, text)?;
    Ok(Said::Rule(rule))
}

/// What a line says.
pub(crate) fn said_by(alloc: Global, line: &str) -> Result<Said<'_>, Unread<'_>>
    ensures says { IfOk result (λ said. Says line.now (said_of said)) }
    ensures kept { IfOk result (λ said. KeepsPlaces line.now said) }
    ensures none { IfErr result (λ e. IsStopped e → (said : SaidValue) → ¬ Says line.now said) }
    ensures unread { IfErr result (λ e. IsUnread Start line.now e) }
{
    if says_nothing(line) {
        return Ok(Said::Nothing);
    }
    if let Some(rest) = behind_bracket(line) {
        let section = section_behind(alloc, rest)?;
        return Ok(Said::Heading(section));
    }
    let said = named_line(alloc, line)?;
    Ok(said)
}
