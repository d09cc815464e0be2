//! Whether two lists of patterns say the same, and the least text that tells them apart.
ghost use Rattle.std.specs.Prelude.{◌≡◌, ℕ, List, ◌↔◌, IsTrue, IfOk, IfSome, IfNone, slice_get};
ghost use Rattle.lalrpop_dfa.specs.Witness.{IsLeast};
ghost use Rattle.lalrpop_verdicts.specs.Answers.{answer};
ghost use Rattle.lalrpop_verdicts.specs.Differences.{TellsApart, label_of};

use crate::answer::accepted;
use crate::pairs::{Follow, pairs, word_to};
use lalrpop_dfa::Dfa;
use lalrpop_hir::NfaIndex;
use std::alloc::{AllocError, Global};
use std::marker::Model;

/// A word that two automata answer differently, and their answers.
///
/// ```
/// use lalrpop_verdicts::least_difference;
///
/// if let Some(found) = least_difference(alloc, &old, &[0, 1], &new, &[0, 1])? {
///     let length = found.word.len(); // in characters
///     let is_added = found.left.is_none(); // whether no pattern of the old list matches the word
/// }
/// ```
#[derive(Debug, Drop)]
pub struct Difference {
    /// The word, by the code values of its characters; it is never empty.
    pub word: Vec<u32>,
    /// The pattern that wins it by the left automaton.
    pub left: Option<NfaIndex>,
    /// The pattern that wins it by the right one.
    pub right: Option<NfaIndex>,
}

impl Model for Difference {
    ghost use Rattle.lalrpop_verdicts.specs.Differences.{Answers};

    ghost Value = { Answers };

    ghost view = { λ d. record { word = d.word.items; left = d.left; right = d.right } };
}

// The label of the pattern, if there is a pattern and it has one.
fn label(labels: &[usize], pattern: Option<NfaIndex>) -> Option<usize>
    ensures label { result ≡ label_of labels.now pattern }
{
    labels.get(pattern?.index()).copied()
}

/// The least nonempty piece of text that the automata answer differently, and both answers; `None` if there is none. A shorter
/// piece is less than a longer one; of two pieces of one length, the less is the one with the lesser character where they first
/// differ.
///
/// Answers are compared by the labels of their patterns: `left_labels` has one for each pattern of the left automaton, and
/// `right_labels` one for each pattern of the right one. So the lists may have the same patterns in another order, or several
/// patterns in place of one. A pattern without a label counts as none.
///
/// The memory grows with the pairs of states that texts lead to, at most the product of the two numbers of states.
///
/// ```
/// use lalrpop_lexer::lexer::dfa::{Precedence, build_dfa};
/// use lalrpop_verdicts::least_difference;
///
/// // The keyword `if` before names, `[a-z]+`, and the other way round; the label of `if` is 0, and that of names 1.
/// let old = build_dfa(alloc, &[keyword, name], &[Precedence(1), Precedence(0)])?;
/// let new = build_dfa(alloc, &[name_again, keyword_again], &[Precedence(1), Precedence(0)])?;
/// let found = least_difference(alloc, &old, &[0, 1], &new, &[1, 0])?; // "if": both answer by their first pattern
/// ```
///
/// # Errors
///
/// `AllocError` if a request for memory was refused.
pub fn least_difference(
    alloc: Global,
    left: &Dfa,
    left_labels: &[usize],
    right: &Dfa,
    right_labels: &[usize],
) -> Result<Option<Difference>, AllocError>
    ensures least { IfOk result (λ found. IfSome found (λ f.
        IsLeast (TellsApart left.now left_labels.now right.now right_labels.now) f.word)) }
    ensures answers { IfOk result (λ found. IfSome found (λ f.
        (f.left ≡ answer left.now f.word) × (f.right ≡ answer right.now f.word))) }
    ensures none { IfOk result (λ found. IfNone found ((w : List ℕ)
        → ¬ TellsApart left.now left_labels.now right.now right_labels.now w)) }
{
    let pairs = pairs(alloc, left, right, Follow::All)?;
    for (number, pair) in pairs.iter().enumerate() {
        let by_left = accepted(left, pair.left);
        let by_right = accepted(right, pair.right);
        if label(left_labels, by_left) != label(right_labels, by_right) {
            return Ok(Some(Difference {
                word: word_to(alloc, &pairs, number)?,
                left: by_left,
                right: by_right,
            }));
        }
    }
    Ok(None)
}

/// Whether the automata answer each nonempty piece of text by patterns with the same label, or both by none: whether
/// `least_difference` finds nothing. Labels are as there.
///
/// ```
/// use lalrpop_lexer::lexer::dfa::{Precedence, build_dfa};
/// use lalrpop_verdicts::same_language;
///
/// // `a+` and `b` in one order, and `b` and `aa*` in the other one.
/// let old = build_dfa(alloc, &[some_a, b], &[Precedence(0), Precedence(0)])?;
/// let new = build_dfa(alloc, &[b_again, a_then_any_a], &[Precedence(0), Precedence(0)])?;
/// let is_same = same_language(alloc, &old, &[0, 1], &new, &[1, 0])?; // true
/// ```
///
/// # Errors
///
/// `AllocError` if a request for memory was refused.
pub fn same_language(
    alloc: Global,
    left: &Dfa,
    left_labels: &[usize],
    right: &Dfa,
    right_labels: &[usize],
) -> Result<bool, AllocError>
    ensures same { IfOk result (λ same. IsTrue same ↔ ((w : List ℕ)
        → ¬ TellsApart left.now left_labels.now right.now right_labels.now w)) }
{
    Ok(least_difference(alloc, left, left_labels, right, right_labels)?.is_none())
}
