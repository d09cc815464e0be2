//! What is kept of a rule beside its name, its tree and its precedence.
ghost use Rattle.std.specs.Prelude.{◌≡◌, map, IfOk, string_bytes};
ghost use Rattle.lalrpop_rules.specs.RuleSet.{names_of, precedences_of, skips_of};
ghost use Rattle.lalrpop_rules.specs.ModeSet.{rules_of};

use bajofeki_rules::{Action, ModeRule};
use lalrpop_lexer::lexer::dfa::Precedence;
use std::alloc::{AllocError, Global};

/// What is kept of a rule beside its name, its tree and its precedence.
#[derive(Debug, Drop)]
pub(crate) struct KnownRule {
    pub(crate) modes: Vec<usize>,
    pub(crate) actions: Vec<Action>,
}

// Which rules are skipped.
pub(crate) fn skip_list(alloc: Global, rules: &[ModeRule]) -> Result<Vec<bool>, AllocError>
    ensures skips { IfOk result (λ all. all.items ≡ skips_of (rules_of rules.now)) }
{
    let mut all = Vec::new(alloc);
    for rule in rules {
        all.push(rule.rule.is_skipped)?;
    }
    Ok(all)
}

// Their precedences.
pub(crate) fn precedence_list(
    alloc: Global,
    rules: &[ModeRule],
) -> Result<Vec<Precedence>, AllocError>
    ensures precedences { IfOk result (λ all.
        map (λ p. p.0) all.items ≡ precedences_of (rules_of rules.now)) }
{
    let mut all = Vec::new(alloc);
    for rule in rules {
        all.push(rule.rule.precedence)?;
    }
    Ok(all)
}

// Their names.
pub(crate) fn name_list(alloc: Global, rules: &[ModeRule]) -> Result<Vec<String>, AllocError>
    ensures names { IfOk result (λ all.
        map (λ s. string_bytes s) all.items ≡ names_of (rules_of rules.now)) }
{
    let mut all = Vec::new(alloc);
    for rule in rules {
        let name = String::from_str(alloc, rule.rule.name)?;
        all.push(name)?;
    }
    Ok(all)
}

// Names in memory of their own.
pub(crate) fn owned_names(alloc: Global, names: &[&str]) -> Result<Vec<String>, AllocError>
    ensures names { IfOk result (λ all.
        map string_bytes all.items ≡ map (λ m. m.now) names.now) }
{
    let mut all = Vec::new(alloc);
    for name in names {
        all.push(String::from_str(alloc, name)?)?;
    }
    Ok(all)
}

// What is kept of all rules.
pub(crate) fn known_rules(alloc: Global, rules: &[ModeRule]) -> Result<Vec<KnownRule>, AllocError>
    ensures modes { IfOk result (λ all.
        map (λ k. k.modes.items) all.items ≡ map (λ r. r.modes.now) rules.now) }
    ensures actions { IfOk result (λ all.
        map (λ k. k.actions.items) all.items ≡ map (λ r. r.actions.now) rules.now) }
{
    let mut all = Vec::new(alloc);
    for rule in rules {
        let modes = Vec::from_slice(alloc, rule.modes)?;
        let actions = Vec::from_slice(alloc, rule.actions)?;
        all.push(KnownRule { modes, actions })?;
    }
    Ok(all)
}
