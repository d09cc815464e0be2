//! All clashes of a list of patterns.
ghost use Rattle.std.specs.Prelude.{◌≡◌, ℕ, ◌↔◌, [], List, Some, map, length, slice_get, IfOk, IfErr};
ghost use Rattle.lalrpop_hir.specs.Tree.{Tree};
ghost use Rattle.lalrpop_nfa.specs.Automata.{AreCompiled};
ghost use Rattle.lalrpop_build.specs.Internal.Given.{AreAutomata};
ghost use Rattle.lalrpop_hir.specs.Clash.{IsClash, NoClash};
ghost use Rattle.lalrpop_hir.specs.Clashes.{AreClashes, Entry};
ghost use Rattle.lalrpop_build.specs.Internal.Expansion.{IsBuiltTo};
ghost use Rattle.lalrpop_build.specs.Internal.Ties.{AreOwn};
ghost use Rattle.lalrpop_hir.specs.Report.{NoFault, IsFaultOf};

use crate::build::compile::compile_all;
use crate::build::{Expansion, expanded};
use crate::ties::Ties;
use crate::{DfaConstructionError, NfaIndex, Precedence};
use lalrpop_hir::Regex;
use lalrpop_nfa::Nfa;
use std::alloc::{AllocError, Global};
use std::marker::Model;

/// Two patterns that are both among the strongest on some word, and the least such word.
///
/// ```
/// use lalrpop_lexer::lexer::dfa::{Precedence, clashes};
///
/// for clash in &clashes(alloc, &regexs, &[Precedence(0), Precedence(0)])? {
///     let pair = (clash.match0.index(), clash.match1.index());
/// }
/// ```
#[derive(Debug, Drop)]
pub struct Clash {
    /// The greater index of the two in the list of patterns.
    pub match0: NfaIndex,
    /// The other index.
    pub match1: NfaIndex,
    /// The shortest, then least, word on which both are among the strongest, by the code values of its characters.
    pub word: Vec<u32>,
}

impl Model for Clash {
    ghost use Rattle.lalrpop_hir.specs.Clashes.{Entry};

    ghost Value = { Entry };

    ghost view = { λ c. record { match0 = c.match0; match1 = c.match1; word = c.word.items } };
}

// Precedences that are all different.
fn distinct_precedences(alloc: Global, count: usize) -> Result<Vec<Precedence>, AllocError>
    ensures { IfOk result (λ ps. AreOwn count (map (λ p. p.0) ps.items)) }
{
    let mut precedences = Vec::new(alloc);
    for index in 0..count {
        precedences.push(Precedence(index))?;
    }
    Ok(precedences)
}

// The clashes by these precedences, found set by set. The expansion has all sets that words lead to.
fn clashes_in(
    alloc: Global,
    expansion: &Expansion,
    precedences: &[Precedence],
) -> Result<Vec<Clash>, DfaConstructionError>
    requires same_len { length expansion.now.automata.graphs ≡ length precedences.now }
    requires built { (ps : List ℕ) × IsBuiltTo expansion.now.automata.graphs ps
        expansion.now.kernels.list expansion.now.origins expansion.now.written.rows
        (length expansion.now.kernels.list) }
    ensures ok { IfOk result (λ found. (ts : List Tree)
        → AreCompiled ts expansion.now.automata.graphs
        → AreClashes ts (map (λ p. p.0) precedences.now) found.items) }
    ensures err { IfErr result (λ e. (ts : List Tree) → IsFaultOf ts e) }
{
    let mut ties = Ties::new(alloc);
    for number in 0..expansion.len() {
        let set = expansion.item_set(number);
        let strongest = expansion.strongest(precedences, set)?;
        ties.add_all(&strongest, expansion.origins(), number)?;
    }
    Ok(ties.clashes)
}

// The clashes of the patterns with these automata and precedences.
fn clashes_of(
    alloc: Global,
    nfas: &[Nfa],
    precedences: &[Precedence],
) -> Result<Vec<Clash>, DfaConstructionError>
    requires same_len { length nfas.now ≡ length precedences.now }
    requires automata { AreAutomata nfas.now }
    ensures ok { IfOk result (λ found. (ts : List Tree) → AreCompiled ts nfas.now
        → AreClashes ts (map (λ p. p.0) precedences.now) found.items) }
    ensures err { IfErr result (λ e. (ts : List Tree) → AreCompiled ts nfas.now → IsFaultOf ts e) }
{
    // If all precedences differ, no two patterns tie, so all sets are made.
    let distinct = distinct_precedences(alloc, nfas.len())?;
    let expansion = expanded(alloc, nfas, &distinct)?;
    clashes_in(alloc, &expansion, precedences)
}

/// All pairs of patterns that clash: both are among the strongest on some word. Each comes with the least such word, in the
/// order of these words; at one word the greater `match0` comes first, then the greater `match1`. The list is empty if
/// `build_dfa` makes an automaton; otherwise its first entry is the clash that `build_dfa` reports.
///
/// # Errors
///
/// The first pattern that has a fault, or out of memory; never `Ambiguity`.
pub fn clashes(
    alloc: Global,
    regexs: &[Regex],
    precedences: &[Precedence],
) -> Result<Vec<Clash>, DfaConstructionError>
    requires same_len { length regexs.now ≡ length precedences.now }
    ensures no_fault { IfOk result (λ found. NoFault regexs.now) }
    ensures clashes { IfOk result (λ found.
        AreClashes regexs.now (map (λ p. p.0) precedences.now) found.items) }
    ensures empty { IfOk result (λ found.
        (found.items ≡ []) ↔ NoClash regexs.now (map (λ p. p.0) precedences.now)) }
    ensures first { IfOk result (λ found. (c : Entry) → slice_get found.items 0 ≡ Some c
        → IsClash regexs.now (map (λ p. p.0) precedences.now) c.word c.match0 c.match1) }
    ensures err { IfErr result (λ e. IsFaultOf regexs.now e) }
{
    let nfas = compile_all(alloc, regexs)?;
    clashes_of(alloc, &nfas, precedences)
}
