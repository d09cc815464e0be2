//! The longest match of one text, from patterns to the answer in one call.
ghost use Rattle.std.specs.Prelude.{◌≡◌, ℕ, List, Some, None, map, length, IfOk, OnOk, IfErr, MatchOption};
ghost use Rattle.std.specs.Str.{chars};
ghost use Rattle.lalrpop_lexer.specs.Clash.{NoClash};
ghost use Rattle.lalrpop_lexer.specs.Longest.{IsLongest};
ghost use Rattle.lalrpop_lexer.specs.Report.{NoFault, IsReport};
ghost use Rattle.lalrpop_lexer.specs.Winners.{IsOnlyStrongest};

use lalrpop_lexer::lexer::dfa::{DfaConstructionError, Precedence};
use lalrpop_lexer::lexer::re::Regex;
use lalrpop_lexer::longest_match;
use std::alloc::Global;

// Needs lalrpop_lexer::longest_match: no_fault, no_clash, longest, strongest, report.
/// The index of the pattern with the longest match, and how many bytes it matches.
///
/// # Errors
///
/// Why the patterns have no automaton, or out of memory.
pub fn match_of(
    alloc: Global,
    regexs: &[Regex],
    precedences: &[Precedence],
    text: &str,
) -> Result<Option<(usize, usize)>, DfaConstructionError>
    requires same_len { length regexs.now ≡ length precedences.now }
    ensures no_fault { OnOk result (NoFault regexs.now) }
    ensures no_clash { OnOk result (NoClash regexs.now (map (λ p. p.0) precedences.now)) }
    ensures found { IfOk result (λ found. let ps = map (λ p. p.0) precedences.now in
        MatchOption found (IsLongest regexs.now ps text.now None)
        (λ m. (p : List ℕ) × ((length p ≡ m.1)
        × (IsLongest regexs.now ps text.now (Some (m.0, p))
        × IsOnlyStrongest regexs.now ps (chars p) m.0)))) }
    ensures report { IfErr result (λ e. IsReport regexs.now (map (λ p. p.0) precedences.now) e) }
{
    match longest_match(alloc, regexs, precedences, text)? {
        Some(found) => Ok(Some((found.0.index(), found.1.len()))),
        None => Ok(None),
    }
}
