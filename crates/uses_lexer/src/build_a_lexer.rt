//! A lexer is built from patterns and precedences, and returns its patterns.
ghost use Rattle.std.specs.Prelude.{◌≡◌, ℕ, ◌<◌, List, ◌∷◌, [], length, IfOk, OnOk, IfErr};
ghost use Rattle.lalrpop_lexer.specs.Clash.{NoClash};
ghost use Rattle.lalrpop_lexer.specs.Report.{NoFault, IsReport};
ghost use Rattle.lalrpop_lexer.specs.Winners.{Matched};

use lalrpop_lexer::Lexer;
use lalrpop_lexer::lexer::dfa::{DfaConstructionError, Precedence};
use lalrpop_lexer::lexer::re::Regex;
use std::alloc::Global;

// Needs lalrpop_lexer::Lexer::new: trees, precedences, no_fault, no_clash, report.
/// A lexer of a keyword and of names: what both match is the keyword.
///
/// # Errors
///
/// Why the two have no lexer, or out of memory.
pub fn keyword_and_names(
    alloc: Global,
    keyword: Regex,
    names: Regex,
) -> Result<Lexer, DfaConstructionError>
    ensures trees { IfOk result (λ lexer. lexer.trees ≡ keyword ∷ names ∷ []) }
    ensures precedences { IfOk result (λ lexer. lexer.precedences ≡ 1 ∷ 0 ∷ []) }
    ensures no_fault { OnOk result (NoFault (keyword ∷ names ∷ [])) }
    ensures no_clash { OnOk result (NoClash (keyword ∷ names ∷ []) (1 ∷ 0 ∷ [])) }
    ensures report { IfErr result (λ e. IsReport (keyword ∷ names ∷ []) (1 ∷ 0 ∷ []) e) }
{
    let regexs = vec![in alloc; keyword, names]?;
    let precedences = vec![in alloc; Precedence(1), Precedence(0)]?;
    Lexer::new(alloc, regexs, precedences)
}

// Needs lalrpop_lexer::Lexer::regexs: trees, words.
/// How many patterns there are. None of them matches a word that begins with a value beyond 32 bits.
pub fn number_of_patterns(lexer: &Lexer) -> usize
    ensures number { result ≡ length lexer.now.trees }
    ensures no_word { (c : ℕ) (w : List ℕ) → 4294967295 < c
        → ¬ Matched lexer.now.trees (c ∷ w) }
{
    lexer.regexs().len()
}
