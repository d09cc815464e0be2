//! What a list of patterns says.

ghost use Rattle.std.specs.Prelude.{◌≡◌, ◌≢◌, ◌≤◌, ℕ, [], List, length, string_bytes, slice_get, None, Ok, true, IsTrue, ◌<◌, IfOk, IfErr, IfSome, IfNone};
ghost use Rattle.lalrpop_hir.specs.Language.{Matches};
ghost use Rattle.lalrpop_hir.specs.Report.{IsFaultOf};
ghost use Rattle.lalrpop_hir.specs.Tree.{Tree};
ghost use Rattle.lalrpop_hir.specs.Winners.{IsOnlyStrongest};
ghost use Rattle.lalrpop_dfa.specs.Dfa.{IsWellFormed, Recognizes, RecognizesAll};
ghost use Rattle.lalrpop_verdicts.specs.Answers.{IsTextWord, answer};
ghost use Rattle.lalrpop_verdicts.specs.Beside.{IsToken, RunsOn};
ghost use Rattle.lalrpop_verdicts.specs.Differences.{label_of};
ghost use Rattle.lalrpop_verdicts.specs.Picture.{dot};
ghost use Rattle.lalrpop_verdicts.specs.Smallest.{IsCanonical};
ghost use Rattle.lalrpop_verdicts.specs.Verdicts.{IsWonBy, words_of};

use lalrpop_dfa::Dfa;
use lalrpop_hir::{DfaConstructionError, Hir, NfaIndex, Regex};
use lalrpop_verdicts::{
    Difference, Joins, Verdict, beside, dot, least_difference, matches_empty, minimized,
    same_language, verdicts, winners,
};
use std::alloc::{AllocError, Global};

// Needs lalrpop_verdicts::verdicts: same_length, each, err.
/// Whether the pattern at this place, which is one of the list's, never wins: it can go.
///
/// # Errors
///
/// As `verdicts` has them.
pub fn can_go(
    alloc: Global,
    regexs: &[Regex],
    dfa: &Dfa,
    index: usize,
) -> Result<bool, DfaConstructionError>
    requires within { index < length regexs.now }
    ensures goes { result ≡ Ok true → (ps : List ℕ) → Recognizes dfa.now regexs.now ps
        → (w : List ℕ) → ¬ IsWonBy (words_of regexs.now index) regexs.now ps index w }
    ensures err { IfErr result (IsFaultOf regexs.now) }
{
    let found = verdicts(alloc, regexs, dfa)?;
    match &found[index] {
        Verdict::Wins(_) => Ok(false),
        Verdict::Shadowed(_) => Ok(true),
        Verdict::Unmatched => Ok(true),
    }
}

// Needs lalrpop_verdicts::winners: winners, err.
/// Whether the automaton of another list leaves all texts of the pattern at this place without a token.
///
/// # Errors
///
/// As `winners` has them.
pub fn is_new(
    alloc: Global,
    regexs: &[Regex],
    index: usize,
    other: &Dfa,
) -> Result<bool, DfaConstructionError>
    requires within { index < length regexs.now }
    ensures new { result ≡ Ok true → (ts : List Tree) (ps : List ℕ)
        → Recognizes other.now ts ps
        → (j : ℕ) (w : List ℕ) → ¬ IsWonBy (words_of regexs.now index) ts ps j w }
    ensures err { IfErr result (IsFaultOf regexs.now) }
{
    Ok(winners(alloc, regexs, index, other)?.is_empty())
}

// Needs lalrpop_verdicts::least_difference: least, answers, none.
/// The least text that two lists of the same patterns, in the same order, answer differently; `None` if no text tells them apart.
///
/// # Errors
///
/// `AllocError` if a request for memory was refused.
pub fn first_change(
    alloc: Global,
    old: &Dfa,
    new: &Dfa,
    labels: &[usize],
) -> Result<Option<Difference>, AllocError>
    ensures text { IfOk result (λ found.
        IfSome found (λ f. IsTextWord f.word × (f.word ≢ []))) }
    ensures change { IfOk result (λ found. IfSome found (λ f.
        label_of labels.now f.left ≢ label_of labels.now f.right)) }
    ensures same { IfOk result (λ found. IfNone found ((w : List ℕ) → IsTextWord w → w ≢ []
        → ¬ (label_of labels.now (answer old.now w) ≢ label_of labels.now (answer new.now w)))) }
{
    least_difference(alloc, old, labels, new, labels)
}

// Needs lalrpop_verdicts::same_language: same.
/// Whether no text tells the two apart.
///
/// # Errors
///
/// `AllocError` if a request for memory was refused.
pub fn says_the_same(
    alloc: Global,
    old: &Dfa,
    new: &Dfa,
    labels: &[usize],
) -> Result<bool, AllocError>
    ensures same { result ≡ Ok true → (w : List ℕ) → IsTextWord w → w ≢ []
        → ¬ (label_of labels.now (answer old.now w) ≢ label_of labels.now (answer new.now w)) }
{
    same_language(alloc, old, labels, new, labels)
}

// Needs lalrpop_verdicts::matches_empty: empty.
/// Whether the pattern can be a token without a text.
pub fn is_suspicious(tree: &Hir) -> bool
    ensures suspicious { IsTrue result → Matches tree.now [] }
    ensures other { Matches tree.now [] → IsTrue result }
{
    matches_empty(tree)
}

// Needs lalrpop_verdicts::minimized: alike, smallest, canonical, recognizes, recognizes_all.
/// An automaton for the same runs, with as few states as can be.
///
/// # Errors
///
/// `AllocError` if a request for memory was refused.
pub fn smaller(alloc: Global, dfa: &Dfa) -> Result<Dfa, AllocError>
    ensures fewer { IfOk result (λ least.
        IsWellFormed dfa.now → length least ≤ length dfa.now) }
    ensures same { IfOk result (λ least. (w : List ℕ) → answer least w ≡ answer dfa.now w) }
    ensures one_of_a_kind { IfOk result IsCanonical }
    ensures runs { IfOk result (λ least. (ts : List Tree) (ps : List ℕ)
        → (Recognizes dfa.now ts ps → Recognizes least ts ps)
        × (RecognizesAll dfa.now ts ps → RecognizesAll least ts ps)) }
{
    minimized(alloc, dfa)
}

// Needs lalrpop_verdicts::dot: text.
/// The picture of an automaton whose patterns have no names.
///
/// # Errors
///
/// `AllocError` if a request for memory was refused.
pub fn unnamed_picture(alloc: Global, dfa: &Dfa) -> Result<String, AllocError>
    ensures text { IfOk result (λ text. string_bytes text ≡ dot None [] dfa.now) }
{
    dot(alloc, None, dfa, &[])
}

// Needs lalrpop_verdicts::beside: kept, never_kept, lost, never_lost.
/// Two tokens of the patterns that need no space between them, and two that do. Where there are none, all such tokens need one, or
/// none do.
///
/// # Errors
///
/// `AllocError` if a request for memory was refused.
pub fn examples(
    alloc: Global,
    dfa: &Dfa,
    first: NfaIndex,
    second: NfaIndex,
) -> Result<Joins, AllocError>
    ensures without_space { IfOk result (λ joins. IfSome joins.kept (λ p. (ts : List Tree)
        (ps : List ℕ) → RecognizesAll dfa.now ts ps
        → IsOnlyStrongest ts ps p.first first × IsOnlyStrongest ts ps p.second second)) }
    ensures with_space { IfOk result (λ joins. IfSome joins.lost (λ p. (ts : List Tree)
        (ps : List ℕ) → RecognizesAll dfa.now ts ps
        → IsOnlyStrongest ts ps p.first first × IsOnlyStrongest ts ps p.second second)) }
    ensures together { IfOk result (λ joins. IfNone joins.kept ((a b : List ℕ)
        → IsToken dfa.now first a → IsToken dfa.now second b → ¬ ¬ RunsOn dfa.now a b)) }
    ensures apart { IfOk result (λ joins. IfNone joins.lost ((a b : List ℕ)
        → IsToken dfa.now first a → IsToken dfa.now second b → ¬ RunsOn dfa.now a b)) }
{
    beside(alloc, dfa, first, second)
}
