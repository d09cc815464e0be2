//! The rules of a file, and the word of a clash.
ghost use Rattle.std.specs.Prelude.{◌≡◌};
ghost use Rattle.bajofeki_c.specs.Rules.{IsWritten, count_of, is_skipped as is_skipped_by, name_of as name_bytes, rules_in_error, skips_rule, word_of};

use crate::held::{BuildError, Held, NamedRule};
use lalrpop_rules::RulesError;

/// Writes as many values as fit, and says how many there are.
pub(crate) fn write_to<T: Copy>(values: &[T], out: &mut [T]) -> usize
    ensures written { IsWritten values.now out.old out.new result }
{
    let count = values.len().min(out.len());
    out[..count].copy_from_slice(&values[..count]);
    values.len()
}

/// Whether the rule with this number is skipped.
pub fn is_skipped(skips: &[bool], rule: usize) -> bool
    ensures skipped { result ≡ is_skipped_by skips.now rule }
{
    match skips.get(rule) {
        Some(skipped) => *skipped,
        None => false,
    }
}

// The word of a clash, or none.
fn clash_word(held: &Held) -> &[u32]
    ensures word { result.now ≡ word_of held.now }
{
    match &held.made {
        Err(
            BuildError::Rules {
                error: RulesError::Clash { word, .. },
                ..
            },
        ) => word,
        Ok(_) | Err(_) => &[],
    }
}

// The rules of a file whose error is one of its rules.
fn rules_of_error(error: &BuildError) -> &[NamedRule]
    ensures rules { result.now ≡ rules_in_error error.now }
{
    let BuildError::Rules { error, rules } = error else {
        return &[];
    };
    match error {
        RulesError::NotParsed { .. }
        | RulesError::BadEnd { .. }
        | RulesError::NotCompiled { .. }
        | RulesError::Clash { .. } => rules,
        RulesError::NoSuchMode { .. } | RulesError::OutOfMemory => &[],
    }
}

// The name of the rule with this number, or none.
fn rule_name(held: &Held, rule: usize) -> &str
    ensures name { result.now ≡ name_bytes held.now rule }
{
    match &held.made {
        Ok(lexer) => match lexer.rules.names().get(rule) {
            Some(name) => name.as_str(),
            None => "",
        },
        Err(error) => match rules_of_error(error).get(rule) {
            Some(rule) => rule.name.as_str(),
            None => "",
        },
    }
}

/// Writes the word of the clash, as many values as fit, and says how many there are: 0 if there is no clash.
pub fn word_into(held: &Held, out: &mut [u32]) -> usize
    ensures written { IsWritten (word_of held.now) out.old out.new result }
{
    write_to(clash_word(held), out)
}

/// How many rules the file has, if there is a lexer, or if one of them is why there is none; else 0.
pub fn rule_count(held: &Held) -> usize
    ensures count { result ≡ count_of held.now }
{
    match &held.made {
        Ok(lexer) => lexer.rules.names().len(),
        Err(error) => rules_of_error(error).len(),
    }
}

/// Writes the name of a rule, as many bytes as fit, and says how many there are: 0 if `rule_count` counts no such rule.
pub fn name_into(held: &Held, rule: usize, out: &mut [u8]) -> usize
    ensures written { IsWritten (name_bytes held.now rule) out.old out.new result }
{
    write_to(rule_name(held, rule).as_bytes(), out)
}

/// Whether the rule with this number is skipped; it isn't if there is no lexer or no such rule.
pub fn is_rule_skipped(held: &Held, rule: usize) -> bool
    ensures skipped { result ≡ skips_rule held.now rule }
{
    match &held.made {
        Ok(lexer) => is_skipped(lexer.rules.skips(), rule),
        Err(_) => false,
    }
}
