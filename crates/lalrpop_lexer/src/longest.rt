//! The longest match of a text, from trees and precedences.
ghost use Rattle.std.specs.Prelude.{◌≡◌, map, length, option_map, IfOk, OnOk, IfErr, IfSome};
ghost use Rattle.std.specs.Str.{chars};
ghost use Rattle.lalrpop_hir.specs.Winners.{IsOnlyStrongest};
ghost use Rattle.lalrpop_hir.specs.Clash.{NoClash};
ghost use Rattle.lalrpop_hir.specs.Longest.{IsLongest};
ghost use Rattle.lalrpop_hir.specs.Report.{NoFault, IsReport};

use lalrpop_build::{DfaConstructionError, NfaIndex, Precedence, build_dfa};
use lalrpop_dfa::interpret::interpret;
use lalrpop_re::Regex;
use std::alloc::Global;

/// The longest nonempty prefix of the text that some pattern matches, with the index of the one pattern of the
/// greatest precedence that matches it; `None` if no pattern matches a nonempty prefix.
///
/// # Errors
///
/// The first pattern that can't be compiled; otherwise the shortest, then least, word with two or more strongest patterns,
/// and the last two of those; or out of memory.
pub fn longest_match<'text>(
    alloc: Global,
    regexs: &[Regex],
    precedences: &[Precedence],
    text: &'text str,
) -> Result<Option<(NfaIndex, &'text str)>, DfaConstructionError>
    requires same_len { length regexs.now ≡ length precedences.now }

    ensures no_fault { OnOk result (NoFault regexs.now) }
    ensures no_clash { OnOk result (NoClash regexs.now (map (λ p. p.0) precedences.now)) }
    ensures longest { IfOk result (λ found.
        IsLongest regexs.now (map (λ p. p.0) precedences.now) text.now
        (option_map (λ m. (m.0, m.1.now)) found)) }
    ensures strongest { IfOk result (λ found. IfSome found (λ m.
        IsOnlyStrongest regexs.now (map (λ p. p.0) precedences.now) (chars m.1.now) m.0)) }

    ensures report { IfErr result (λ e. IsReport regexs.now (map (λ p. p.0) precedences.now) e) }
{
    let dfa = build_dfa(alloc, regexs, precedences)?;
    Ok(interpret(&dfa, text))
}
