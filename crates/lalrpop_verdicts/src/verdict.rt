//! What becomes of each pattern of a list: it wins, or others hide it, or it matches nothing.
ghost use Rattle.std.specs.Prelude.{◌≡◌, ℕ, ◌<◌, List, Option, Some, None, Vec, length, option_map, slice_get, IfOk, IfErr};
ghost use Rattle.std.specs.Global.{Global};
ghost use Rattle.lalrpop_hir.specs.Report.{IsFaultOf};
ghost use Rattle.lalrpop_dfa.specs.Dfa.{Recognizes};
ghost use Rattle.lalrpop_hir.specs.Tree.{Tree};
ghost use Rattle.lalrpop_verdicts.specs.Verdicts.{AreWinners, IsVerdict, words_of};
ghost use Rattle.lalrpop_verdicts.specs.Internal.WonWords.{IsLeastWon, IsOwn, StaysDead};

use crate::won_word::WonWord;
use crate::won_words::won_words;
use lalrpop_build::build_dfa;
use lalrpop_dfa::Dfa;
use lalrpop_hir::{DfaConstructionError, NfaConstructionError, NfaIndex, Precedence, Regex};
use lalrpop_nfa::Nfa;
use std::alloc::{AllocError, Global};

/// What becomes of a pattern among the others. Words are nonempty pieces of texts: a run never reports an empty match.
///
/// ```
/// use lalrpop_verdicts::Verdict;
///
/// let is_ever_a_token = matches!(verdict, Verdict::Wins(_));
/// ```
#[derive(Debug, Drop)]
pub enum Verdict {
    /// It wins words, of which this is the shortest, then least, by the code values of its characters.
    Wins(Vec<u32>),
    /// It wins none: each word that it matches is won by another one. These are the winners, ascending, each with its least word.
    Shadowed(Vec<WonWord>),
    /// It matches no nonempty word.
    Unmatched,
}

// `count` places for words, all empty.
fn no_words(alloc: Global, count: usize) -> Result<Vec<Option<Vec<u32>>>, AllocError>
    ensures same_length { IfOk result (λ words. length words.items ≡ count) }
    ensures none { IfOk result (λ words. (i : ℕ) (o : Option (Vec ℕ Global))
        → slice_get words.items i ≡ Some o → o ≡ None) }
{
    let mut words = Vec::new(alloc);
    'fill: while words.len() < count {
        words.push(None)?;
    }
    Ok(words)
}

// The least word that each of `count` patterns wins, if it wins any.
fn least_words(alloc: Global, count: usize, dfa: &Dfa) -> Result<Vec<Option<Vec<u32>>>, AllocError>
    ensures same_length { IfOk result (λ words. length words.items ≡ count) }
    ensures each { IfOk result (λ words. StaysDead dfa.now → (i : ℕ) (o : Option (Vec ℕ Global))
        → slice_get words.items i ≡ Some o → IsLeastWon dfa.now i (option_map (λ w. w.items) o)) }
{
    let mut words = no_words(alloc, count)?;
    for WonWord { by, word } in won_words(alloc, dfa, dfa)? {
        let place = by.index();
        if place < words.len() {
            words[place] = Some(word);
        }
    }
    Ok(words)
}

// Nothing, if each pattern can be compiled; otherwise the first fault.
fn compile_all(alloc: Global, regexs: &[Regex]) -> Result<(), DfaConstructionError>
    ensures err { IfErr result (IsFaultOf regexs.now) }
{
    for (place, regex) in regexs.iter().enumerate() {
        let index = NfaIndex::new(place);
        match Nfa::from_re(alloc, regex) {
            Ok(_) => {}
            Err(NfaConstructionError::OutOfMemory) => return Err(DfaConstructionError::OutOfMemory),
            Err(error) => return Err(DfaConstructionError::NfaConstructionError { index, error }),
        }
    }
    Ok(())
}

// The automaton of one of the patterns alone.
fn own_automaton(alloc: Global, regexs: &[Regex], index: usize) -> Result<Dfa, DfaConstructionError>
    requires within { index < length regexs.now }
    ensures own { IfOk result (IsOwn regexs.now index) }
    ensures err { IfErr result (IsFaultOf regexs.now) }
{
    match build_dfa(alloc, &regexs[index..=index], &[Precedence(0)]) {
        Ok(dfa) => Ok(dfa),
        Err(_) => {
            // A pattern before this one may have a fault too, and then that one is reported.
            compile_all(alloc, regexs)?;
            Err(DfaConstructionError::OutOfMemory)
        }
    }
}

/// Which patterns win words of the pattern `regexs[index]` by the automaton `dfa`: each one's index, with the least word of
/// `regexs[index]` that it wins. The indices ascend. Words are nonempty pieces of texts. `index` is less than `regexs.len()`.
///
/// `dfa` may be the automaton of `regexs` or of another list, and the indices are places in the list that `build_dfa` made it of.
/// So this also tells what one list makes of the words of another one's pattern. If it makes nothing of them, the answer is empty.
///
/// The pattern is built alone, and its automaton is walked beside `dfa`: that costs as many steps as there are pairs of states
/// that its words lead to.
///
/// ```
/// use lalrpop_lexer::lexer::dfa::{Precedence, build_dfa};
/// use lalrpop_lexer::lexer::re::parse_regex;
/// use lalrpop_verdicts::winners;
///
/// // A keyword before names, and what this list makes of the words of `i.*`.
/// let regexs = vec![in alloc; parse_regex(alloc, "if")?, parse_regex(alloc, "[a-z]+")?]?;
/// let dfa = build_dfa(alloc, &regexs, &[Precedence(1), Precedence(0)])?;
/// let others = vec![in alloc; parse_regex(alloc, "i.*")?]?;
/// for winner in winners(alloc, &others, 0, &dfa)? {
///     let pattern = winner.by.index(); // 0, by the word "if", and then 1, by the word "i"
/// }
/// ```
///
/// # Errors
///
/// Out of memory; or, if `regexs[index]` has a fault, the first pattern of `regexs` that has one.
pub fn winners(
    alloc: Global,
    regexs: &[Regex],
    index: usize,
    dfa: &Dfa,
) -> Result<Vec<WonWord>, DfaConstructionError>
    requires within { index < length regexs.now }
    ensures winners { IfOk result (λ found. (ts : List Tree) (ps : List ℕ)
        → Recognizes dfa.now ts ps → AreWinners (words_of regexs.now index) ts ps found.items) }
    ensures err { IfErr result (IsFaultOf regexs.now) }
{
    let own = own_automaton(alloc, regexs, index)?;
    let found = won_words(alloc, &own, dfa)?;
    Ok(found)
}

// What becomes of a pattern that wins no word.
fn verdict_without_win(
    alloc: Global,
    regexs: &[Regex],
    index: usize,
    dfa: &Dfa,
) -> Result<Verdict, DfaConstructionError>
    requires within { index < length regexs.now }
    ensures verdict { IfOk result (λ v. (ps : List ℕ) → Recognizes dfa.now regexs.now ps
        → IsLeastWon dfa.now index None → IsVerdict regexs.now ps index v) }
    ensures err { IfErr result (IsFaultOf regexs.now) }
{
    let found = winners(alloc, regexs, index, dfa)?;
    if found.is_empty() {
        Ok(Verdict::Unmatched)
    } else {
        Ok(Verdict::Shadowed(found))
    }
}

/// What becomes of each pattern, in the order of the list. `dfa` is the automaton that `build_dfa` made of the patterns, with
/// any precedences: without it the verdicts say nothing of the patterns. Patterns with equal precedences can be among them, as
/// long as `build_dfa` reported no clash.
///
/// One walk over the automaton finds all patterns that win, with their words. Each other pattern is built alone, and its
/// automaton is walked beside the whole one: that costs as many steps as there are pairs of states that its words lead to.
///
/// ```
/// use lalrpop_lexer::lexer::dfa::{Precedence, build_dfa};
/// use lalrpop_lexer::lexer::re::parse_regex;
/// use lalrpop_verdicts::{Verdict, verdicts};
///
/// // The name has the greater precedence, so the keyword never wins.
/// let regexs = vec![in alloc; parse_regex(alloc, "class")?, parse_regex(alloc, "[a-z]+")?]?;
/// let dfa = build_dfa(alloc, &regexs, &[Precedence(0), Precedence(1)])?;
/// for verdict in verdicts(alloc, &regexs, &dfa)? {
///     match verdict {
///         Verdict::Wins(word) => {} // the name: "a" is its least word
///         Verdict::Shadowed(winners) => {} // the keyword: the name wins "class"
///         Verdict::Unmatched => {}
///     }
/// }
/// ```
///
/// # Errors
///
/// Out of memory; or the first pattern that has a fault, which is met only if `dfa` is the automaton of another list.
pub fn verdicts(
    alloc: Global,
    regexs: &[Regex],
    dfa: &Dfa,
) -> Result<Vec<Verdict>, DfaConstructionError>
    ensures same_length { IfOk result (λ found. length found.items ≡ length regexs.now) }
    ensures each { IfOk result (λ found. (ps : List ℕ) → Recognizes dfa.now regexs.now ps
        → (i : ℕ) (v : Verdict) → slice_get found.items i ≡ Some v → IsVerdict regexs.now ps i v) }
    ensures err { IfErr result (λ e. IsFaultOf regexs.now e) }
{
    let mut found = Vec::new(alloc);
    for least in least_words(alloc, regexs.len(), dfa)? {
        let verdict = match least {
            Some(word) => Verdict::Wins(word),
            None => verdict_without_win(alloc, regexs, found.len(), dfa)?,
        };
        found.push(verdict)?;
    }
    Ok(found)
}
