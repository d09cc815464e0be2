//! All clashes of a list of patterns with precedences.

ghost use Rattle.std.specs.Prelude.{◌≡◌, ◌↔◌, ℕ, List, length, map, IfOk, IfErr, IfSome, IsTrue};
ghost use Rattle.lalrpop_hir.specs.Clash.{IsClash, NoClash};
ghost use Rattle.lalrpop_hir.specs.Clashes.{AreClashes, Entry};
ghost use Rattle.lalrpop_hir.specs.Report.{NoFault, IsFaultOf};

use lalrpop_build::{DfaConstructionError, NfaIndex, Precedence, clashes};
use lalrpop_hir::Regex;
use std::alloc::Global;

// Needs lalrpop_build::clashes: no_fault, clashes, empty, err.
/// How many pairs of patterns clash, and whether none do.
pub fn clash_count(
    alloc: Global,
    regexs: &[Regex],
    precedences: &[Precedence],
) -> Result<(usize, bool), DfaConstructionError>
    requires { length regexs.now ≡ length precedences.now }
    ensures no_fault { IfOk result (λ _. NoFault regexs.now) }
    ensures clashes { IfOk result (λ told. (found : List Entry)
        × AreClashes regexs.now (map (λ p. p.0) precedences.now) found × (told.0 ≡ length found)) }
    ensures clear { IfOk result (λ told.
        IsTrue told.1 ↔ NoClash regexs.now (map (λ p. p.0) precedences.now)) }
    ensures err { IfErr result (λ e. IsFaultOf regexs.now e) }
{
    let found = clashes(alloc, regexs, precedences)?;
    Ok((found.len(), found.is_empty()))
}

// Needs lalrpop_build::clashes: first.
/// The two patterns of the clash, the greater index first, if there is one.
pub fn first_pair(
    alloc: Global,
    regexs: &[Regex],
    precedences: &[Precedence],
) -> Result<Option<(NfaIndex, NfaIndex)>, DfaConstructionError>
    requires { length regexs.now ≡ length precedences.now }
    ensures pair { IfOk result (λ found. IfSome found (λ m. (w : List ℕ)
        × IsClash regexs.now (map (λ p. p.0) precedences.now) w m.0 m.1)) }
{
    let found = clashes(alloc, regexs, precedences)?;
    match found.first() {
        Some(clash) => Ok(Some((clash.match0, clash.match1))),
        None => Ok(None),
    }
}
