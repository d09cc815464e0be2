//! Which parts of a file are used.
ghost use Rattle.std.specs.Prelude.{◌≡◌, ◌<◌, ◌↔◌, length, string_bytes, IfOk, IsTrue};
ghost use Rattle.std.specs.Str.Iter.{HasSubslice};
ghost use Rattle.lalrpop_rule_file.specs.Warnings.{StandsIn, StandsInPart, StandsInRule, reference as reference_of};

use crate::file_rule::FileRule;
use crate::part_line::PartLine;
use bajofeki_rules::RuleText;
use std::alloc::{AllocError, Global};

/// What a pattern says where it means the part with this name.
pub(crate) fn reference(alloc: Global, name: &str) -> Result<String, AllocError>
    ensures { IfOk result (λ text. string_bytes text ≡ reference_of name.now) }
{
    format!(in alloc; "{{{name}}}")
}

// Whether the reference stands in this pattern.
fn stands_in_pattern(pattern: &str, reference: &str) -> bool
    ensures { IsTrue result ↔ HasSubslice pattern.now reference.now }
{
    pattern.contains(reference)
}

// Whether it stands in the pattern of this text.
fn stands_in(text: &RuleText<'_>, reference: &str) -> bool
    ensures { IsTrue result ↔ StandsIn reference.now text.now }
{
    match text {
        RuleText::Pattern(pattern) => stands_in_pattern(pattern, reference),
        RuleText::PatternWith { text, .. } => stands_in_pattern(text, reference),
        RuleText::Literal(_)
        | RuleText::Escaped(_)
        | RuleText::AnyCase(_)
        | RuleText::FromTo { .. } => false,
    }
}

/// Whether the reference stands in the pattern of a part after this one.
pub(crate) fn stands_in_part(parts: &[PartLine<'_>], part: usize, reference: &str) -> bool
    requires within { part < length parts.now }
    ensures { IsTrue result ↔ StandsInPart reference.now part parts.now }
{
    for later in part + 1..parts.len() {
        if stands_in_pattern(parts[later].pattern, reference) {
            return true;
        }
    }
    false
}

/// Whether it stands in the pattern of a rule that knows this part.
pub(crate) fn stands_in_rule(rules: &[FileRule<'_>], part: usize, reference: &str) -> bool
    ensures { IsTrue result ↔ StandsInRule reference.now part rules.now }
{
    for rule in rules {
        if part < rule.known && stands_in(&rule.rule.text, reference) {
            return true;
        }
    }
    false
}
