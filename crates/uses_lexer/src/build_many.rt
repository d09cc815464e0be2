//! Building the automaton of a list of patterns with precedences, and what is known about it.

ghost use Rattle.std.specs.Prelude.{◌≡◌, ◌<◌, ◌≤◌, ◌≢◌, List, length, map, IfOk, IfErr, IfSome, IfNone, []};
ghost use Rattle.std.specs.Option.{option_map};
ghost use Rattle.lalrpop_hir.specs.Clash.{NoClash};
ghost use Rattle.lalrpop_build.specs.Items.{HoldsItems, OthersReject, IsInWordOrder};
ghost use Rattle.lalrpop_hir.specs.Report.{NoFault, IsReport};
ghost use Rattle.lalrpop_hir.specs.declared.error.DfaConstructionError.TheVariants.{OutOfMemory};
ghost use Rattle.lalrpop_nfa.specs.Automata.{AreCompiled};
ghost use Rattle.lalrpop_nfa.specs.Graph.{Graph};
ghost use Rattle.lalrpop_dfa.specs.Counts.{state_bound};
ghost use Rattle.lalrpop_dfa.specs.Dfa.{RecognizesAll};
ghost use Rattle.lalrpop_hir.specs.Longest.{IsLongest};
ghost use Rattle.lalrpop_hir.specs.Prefix.{IsPrefix};

use lalrpop_build::{DfaConstructionError, NfaIndex, Precedence, build_dfa};
use lalrpop_dfa::Dfa;
use lalrpop_dfa::interpret::interpret;
use lalrpop_hir::Regex;
use std::alloc::Global;

// Needs lalrpop_build::build_dfa: ok.
// Needs lalrpop_dfa::interpret: answer, prefix.
/// The longest match of the text, with the strongest pattern that matches it.
pub fn match_once<'text>(
    alloc: Global,
    regexs: &[Regex],
    precedences: &[Precedence],
    text: &'text str,
) -> Result<Option<(NfaIndex, &'text str)>, DfaConstructionError>
    requires { length regexs.now ≡ length precedences.now }
    ensures answer { IfOk result (λ found. IsLongest regexs.now (map (λ p. p.0) precedences.now)
        text.now (option_map (λ m. (m.0, m.1.now)) found)) }
    ensures prefix { IfOk result (λ found.
        IfSome found (λ m. IsPrefix m.1.now text.now × (m.1.now ≢ []))) }
{
    let dfa = build_dfa(alloc, regexs, precedences)?;
    Ok(interpret(&dfa, text))
}

// Needs lalrpop_build::build_dfa: ok, err.
/// Why there is no automaton; `None` if no pattern has a fault and no word is ambiguous.
pub fn why_not(
    alloc: Global,
    regexs: &[Regex],
    precedences: &[Precedence],
) -> Option<DfaConstructionError>
    requires { length regexs.now ≡ length precedences.now }
    ensures report { IfSome result (λ e.
        IsReport regexs.now (map (λ p. p.0) precedences.now) e) }
    ensures no_fault { IfNone result (NoFault regexs.now) }
    ensures no_clash { IfNone result (NoClash regexs.now (map (λ p. p.0) precedences.now)) }
{
    build_dfa(alloc, regexs, precedences).err()
}

// Needs lalrpop_build::build_dfa: bound.
// Needs lalrpop_dfa::Dfa::states: states.
/// How many states the automaton has.
pub fn state_count(
    alloc: Global,
    regexs: &[Regex],
    precedences: &[Precedence],
) -> Result<usize, DfaConstructionError>
    requires { length regexs.now ≡ length precedences.now }
    ensures { IfOk result (λ count. count ≤ state_bound regexs.now) }
{
    let dfa = build_dfa(alloc, regexs, precedences)?;
    Ok(dfa.states().len())
}

// Needs lalrpop_build::build_dfa: all, items, others, order.
/// The automaton, to be drawn: each state holds the items that its words lead to, its ranges are the partition of the labels
/// there, its other edge leads to a reject state, and states that don't reject are in the order of their words.
pub fn to_be_drawn(
    alloc: Global,
    regexs: &[Regex],
    precedences: &[Precedence],
) -> Result<Dfa, DfaConstructionError>
    requires { length regexs.now ≡ length precedences.now }
    ensures recognizes { IfOk result (λ dfa.
        RecognizesAll dfa regexs.now (map (λ p. p.0) precedences.now)) }
    ensures items { IfOk result (λ dfa.
        (ns : List Graph) × AreCompiled regexs.now ns × HoldsItems ns dfa) }
    ensures others { IfOk result OthersReject }
    ensures order { IfOk result IsInWordOrder }
{
    build_dfa(alloc, regexs, precedences)
}

// Needs lalrpop_hir::DfaConstructionError::from: ghost from_gives.
// Needs lalrpop_hir::DfaConstructionError::from: ghost from_gives.
/// A precedence for each pattern: earlier patterns are stronger.
pub fn falling_precedences(
    alloc: Global,
    count: usize,
) -> Result<Vec<Precedence>, DfaConstructionError>
    ensures count { IfOk result (λ ps. length ps.items ≡ count) }
    ensures refused { IfErr result (λ e. e ≡ OutOfMemory) }
{
    let mut precedences = Vec::with_capacity(alloc, count)?;
    for index in 0..count {
        precedences.push(Precedence(count - index))?;
    }
    Ok(precedences)
}
