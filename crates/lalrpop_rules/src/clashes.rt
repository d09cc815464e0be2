//! All clashes of rules with modes.
ghost use Rattle.std.specs.Prelude.{◌≡◌, ◌==◌, length, map, IfOk, IfErr};
ghost use Rattle.std.specs.List.{list_any};
ghost use Rattle.lalrpop_hir.specs.Clashes.{AreClashes};
ghost use Rattle.lalrpop_hir.specs.Report.{NoFault, IsFaultOf};
ghost use Rattle.lalrpop_rules.specs.Modes.{ModeRules, trees_of as trees_of_mode};
ghost use Rattle.lalrpop_rules.specs.ModeSet.{AreModeRules};
ghost use Rattle.lalrpop_rules.specs.ModeClashes.{AreModeClashes, IsModesFault};
ghost use Rattle.lalrpop_rules.specs.Internal.Lexers.{IsClashesFault, seen};

use crate::error::RulesError;
use crate::known_rule::{KnownRule, known_rules, precedence_list};
use crate::lexers::modes_error;
use crate::masked::masked_trees;
use crate::missing::all_there;
use crate::mode_kinds::kind_list;
use crate::mode_trees::rule_trees;
use bajofeki_rules::ModeRule;
use lalrpop_lexer::lexer::dfa::{Clash, DfaConstructionError, Precedence, clashes};
use lalrpop_lexer::lexer::re::Regex;
use std::alloc::Global;

// All clashes in the mode.
fn clashes_in(
    alloc: Global,
    regexs: &[Regex],
    precedences: &[Precedence],
    kinds: &[usize],
    known: &[KnownRule],
    mode: usize,
) -> Result<Vec<Clash>, DfaConstructionError>
    requires same_len { length regexs.now ≡ length known.now }
    requires one_each { length precedences.now ≡ length known.now }
    requires kinds { length kinds.now ≡ length known.now }
    ensures clashes { IfOk result (λ found. AreClashes
        (trees_of_mode (map (λ k. list_any (λ n. n == mode) k.modes.items) known.now) kinds.now
        regexs.now)
        (map (λ p. p.0) precedences.now) found.items) }
    ensures error { IfErr result (λ e. IsFaultOf
        (trees_of_mode (map (λ k. list_any (λ n. n == mode) k.modes.items) known.now) kinds.now
        regexs.now) e) }
{
    let trees = masked_trees(alloc, regexs, kinds, known, mode)?;
    clashes(alloc, &trees, precedences)
}

// The clashes of each mode, in order.
fn clash_lists(
    alloc: Global,
    regexs: &[Regex],
    precedences: &[Precedence],
    kinds: &[usize],
    known: &[KnownRule],
    modes: usize,
) -> Result<Vec<Vec<Clash>>, RulesError>
    requires same_len { length regexs.now ≡ length known.now }
    requires one_each { length precedences.now ≡ length known.now }
    requires kinds { length kinds.now ≡ length known.now }
    requires no_fault { NoFault regexs.now }
    ensures clashes { IfOk result (λ all. AreModeClashes (seen regexs.now
        (map (λ p. p.0) precedences.now) (map (λ k. k.modes.items) known.now) kinds.now modes)
        (map (λ cs. cs.items) all.items)) }
    ensures error { IfErr result IsClashesFault }
{
    let mut all = Vec::new(alloc);
    for mode in 0..modes {
        match clashes_in(alloc, regexs, precedences, kinds, known, mode) {
            Ok(found) => all.push(found)?,
            Err(report) => return Err(modes_error(mode, report)),
        }
    }
    Ok(all)
}

/// For each mode, in order, all pairs of kinds of its rules that are both among the strongest on some word, each with the least
/// such word, in the order of these words; for the same word, later rules come first. A kind is named by its first rule that
/// belongs to the mode. All lists are empty if the rules make a lexer.
///
/// ```
/// use lalrpop_rules::{ModeRule, Rule, mode_clashes};
///
/// let rules = [
///     ModeRule { rule: Rule::literal("A", "a"), modes: &[0, 1], actions: &[] },
///     ModeRule { rule: Rule::literal("B", "a"), modes: &[1], actions: &[] },
/// ];
/// let clashes = mode_clashes(alloc, &rules, 2)?; // none in mode 0, and one in mode 1
/// ```
///
/// # Errors
///
/// The first rule that names a mode that isn't there; otherwise the first rule whose text has no tree, and why; otherwise, in
/// the first mode that has one, the first rule that can't be compiled; or out of memory. Never `Clash`.
pub fn mode_clashes(
    alloc: Global,
    rules: &[ModeRule],
    modes: usize,
) -> Result<Vec<Vec<Clash>>, RulesError>
    ensures clashes { IfOk result (λ all. (r : ModeRules) × (AreModeRules rules.now modes r
        × AreModeClashes r (map (λ cs. cs.items) all.items))) }
    ensures error { IfErr result (IsModesFault rules.now modes) }
{
    all_there(rules, modes)?;
    let regexs = rule_trees(alloc, rules)?;
    let precedences = precedence_list(alloc, rules)?;
    let known = known_rules(alloc, rules)?;
    let kinds = kind_list(alloc, rules)?;
    clash_lists(alloc, &regexs, &precedences, &kinds, &known, modes)
}
