//! The lexer of one mode.
ghost use Rattle.std.specs.Prelude.{◌≡◌, ◌==◌, if◌then◌else◌, Some, None, length, map, IfOk, OnOk, IfErr};
ghost use Rattle.std.specs.List.{list_any};
ghost use Rattle.lalrpop_hir.specs.Clash.{NoClash};
ghost use Rattle.lalrpop_hir.specs.Report.{IsReport};
ghost use Rattle.lalrpop_rules.specs.Modes.{kinds_of, trees_of};

use crate::kinds::merged_trees;
use crate::known_rule::KnownRule;
use lalrpop_lexer::Lexer;
use lalrpop_lexer::lexer::dfa::{DfaConstructionError, Precedence};
use lalrpop_lexer::lexer::re::Regex;
use std::alloc::{AllocError, Global};

// The kind of the rule in this mode: none, if the rule doesn't belong to the mode.
fn masked_kind(kind: usize, modes: &[usize], mode: usize) -> Option<usize>
    ensures { result ≡ (if list_any (λ n. n == mode) modes.now then Some kind else None) }
{
    if modes.contains(&mode) {
        return Some(kind);
    }
    None
}

// The kinds of the rules in this mode.
fn masked_kinds(
    alloc: Global,
    kinds: &[usize],
    known: &[KnownRule],
    mode: usize,
) -> Result<Vec<Option<usize>>, AllocError>
    requires same_len { length kinds.now ≡ length known.now }
    ensures kinds { IfOk result (λ all. all.items
        ≡ kinds_of (map (λ k. list_any (λ n. n == mode) k.modes.items) known.now) kinds.now) }
    ensures len { IfOk result (λ all. length all.items ≡ length kinds.now) }
{
    let mut all = Vec::new(alloc);
    for index in 0..kinds.len() {
        let rule = &known[index];
        all.push(masked_kind(kinds[index], &rule.modes, mode))?;
    }
    Ok(all)
}

/// The trees of the mode.
pub(crate) fn masked_trees(
    alloc: Global,
    regexs: &[Regex],
    kinds: &[usize],
    known: &[KnownRule],
    mode: usize,
) -> Result<Vec<Regex>, AllocError>
    requires same_len { length regexs.now ≡ length known.now }
    requires one_each { length kinds.now ≡ length known.now }
    ensures trees { IfOk result (λ all. all.items
        ≡ trees_of (map (λ k. list_any (λ n. n == mode) k.modes.items) known.now) kinds.now
        regexs.now) }
    ensures len { IfOk result (λ all. length all.items ≡ length regexs.now) }
{
    let working = masked_kinds(alloc, kinds, known, mode)?;
    merged_trees(alloc, &working, regexs)
}

/// The lexer of the mode.
pub(crate) fn mode_lexer(
    alloc: Global,
    regexs: &[Regex],
    precedences: &[Precedence],
    kinds: &[usize],
    known: &[KnownRule],
    mode: usize,
) -> Result<Lexer, DfaConstructionError>
    requires same_len { length regexs.now ≡ length known.now }
    requires one_each { length precedences.now ≡ length known.now }
    requires kinds { length kinds.now ≡ length known.now }
    ensures trees { IfOk result (λ lexer. lexer.trees
        ≡ trees_of (map (λ k. list_any (λ n. n == mode) k.modes.items) known.now) kinds.now
        regexs.now) }
    ensures precedences { IfOk result (λ lexer.
        lexer.precedences ≡ map (λ p. p.0) precedences.now) }
    ensures no_clash { OnOk result (NoClash
        (trees_of (map (λ k. list_any (λ n. n == mode) k.modes.items) known.now) kinds.now
        regexs.now) (map (λ p. p.0) precedences.now)) }
    ensures report { IfErr result (λ e. IsReport
        (trees_of (map (λ k. list_any (λ n. n == mode) k.modes.items) known.now) kinds.now
        regexs.now) (map (λ p. p.0) precedences.now) e) }
{
    let trees = masked_trees(alloc, regexs, kinds, known, mode)?;
    let precedences = Vec::from_slice(alloc, precedences)?;
    Lexer::new(alloc, trees, precedences)
}
