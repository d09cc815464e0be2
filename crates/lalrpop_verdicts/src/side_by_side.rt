//! Whether tokens of two patterns may stand side by side: whether their join is cut as the two.
ghost use Rattle.std.specs.Prelude.{◌≡◌, ℕ, ◌<◌, ◌^◌, ◌↔◌, ◌++◌, ◌∷◌, List, [], Some, length, slice_get, IsSomeAnd, IsTrue, IfOk, IfSome, IfNone, OnOk};
ghost use Rattle.lalrpop_dfa.specs.Lookahead.{IsAccepting};
ghost use Rattle.lalrpop_dfa.specs.Witness.{IsLeast};
ghost use Rattle.lalrpop_verdicts.specs.Answers.{accepted_at, accepted_by};
ghost use Rattle.lalrpop_verdicts.specs.Beside.{IsKept, IsLeastPair, IsLost};
ghost use Rattle.lalrpop_verdicts.specs.Internal.Beside.{AreBeside, Fits, IsAhead, IsTail, row_ahead, shifted_row};
ghost use Rattle.lalrpop_verdicts.specs.Internal.Pairs.{ArePairs};
ghost use Rattle.lalrpop_verdicts.specs.declared.pairs.Follow.TheVariants.{All};

use crate::answer::accepted;
use crate::pairs::{Follow, Pair, pairs, word_to};
use crate::smallest::no_items;
use lalrpop_dfa::{Dfa, DfaStateIndex, Kind, NfaIndex, RowWriter};
use std::alloc::{AllocError, Global};
use std::marker::Model;

/// A token of one pattern, and a token of a second pattern right after it.
///
/// ```
/// if let Some(pair) = &joins.lost {
///     let length = pair.first.len(); // in characters
///     let second = pair.second.as_slice(); // the code values of its characters
/// }
/// ```
#[derive(Debug, Drop)]
pub struct TokenPair {
    /// The first token's text, by the code values of its characters; it is never empty.
    pub first: Vec<u32>,
    /// The second token's text; it is never empty either.
    pub second: Vec<u32>,
}

impl Model for TokenPair {
    ghost use Rattle.lalrpop_verdicts.specs.Beside.{TwoWords};

    ghost Value = { TwoWords };

    ghost view = { λ p. record { first = p.first.items; second = p.second.items } };
}

/// What becomes of the texts of two tokens, one of each of two patterns, with nothing between them.
///
/// Such tokens may always stand side by side if `lost` is `None`, and sometimes if `kept` is not.
///
/// ```
/// let joins = beside(alloc, &dfa, first, second)?;
/// let need_no_space = joins.lost.is_none();
/// let always_need_space = joins.kept.is_none();
/// ```
#[derive(Debug, Drop)]
pub struct Joins {
    /// The least pair whose join is cut as the two; `None` if there is none.
    pub kept: Option<TokenPair>,
    /// The least pair whose join isn't, since its first token is longer; `None` if there is none.
    pub lost: Option<TokenPair>,
}

/// Which joins are asked for.
#[derive(Clone, Copy, Drop)]
enum Cut {
    Kept,
    Lost,
}

impl Cut {
    // Whether a join is of these: one runs on past its first token if it came to an accepting state.
    fn fits(self, ahead: &Dfa, state: DfaStateIndex) -> bool
        ensures { IsTrue result ↔ Fits self (IsAccepting ahead.now state) }
    {
        match self {
            Cut::Kept => accepted(ahead, state).is_none(),
            Cut::Lost => accepted(ahead, state).is_some(),
        }
    }
}

/// Whether a token of the pattern `first` and one of `second` right after it are read as these two, and the least pair for which
/// they are, and for which they aren't. Of two pairs the less is the one with the lesser first token, and if these are equal, the
/// one with the lesser second token: a shorter text is less than a longer one, and of two of one length, the one with the lesser
/// character where they first differ.
///
/// The join is all of the text: what comes after the second token isn't looked at. If a pattern has no token, or isn't one of the
/// automaton's, there are no pairs at all.
///
/// Cost: at most two walks over the pairs of states for each state that accepts `first`; the memory of one such walk.
///
/// ```
/// // 0: `[0-9]+`, 1: `[0-9]+\.[0-9]+`
/// let joins = beside(alloc, &dfa, NfaIndex::new(0), NfaIndex::new(1))?;
/// let always = joins.lost.is_none(); // false: "0" and "0.0" make "00.0", which is one token
/// let sometimes = joins.kept.is_some(); // false
/// ```
///
/// # Errors
///
/// `AllocError` if a request for memory was refused.
pub fn beside(
    alloc: Global,
    dfa: &Dfa,
    first: NfaIndex,
    second: NfaIndex,
) -> Result<Joins, AllocError>
    ensures kept { IfOk result (λ joins.
        IfSome joins.kept (IsLeastPair (IsKept dfa.now first second))) }
    ensures never_kept { IfOk result (λ joins. IfNone joins.kept ((a b : List ℕ)
        → ¬ IsKept dfa.now first second a b)) }
    ensures lost { IfOk result (λ joins.
        IfSome joins.lost (IsLeastPair (IsLost dfa.now first second))) }
    ensures never_lost { IfOk result (λ joins. IfNone joins.lost ((a b : List ℕ)
        → ¬ IsLost dfa.now first second a b)) }
{
    let heads = pairs(alloc, dfa, dfa, Follow::All)?;
    Ok(Joins {
        kept: least_pair(alloc, dfa, &heads, first, second, Cut::Kept)?,
        lost: least_pair(alloc, dfa, &heads, first, second, Cut::Lost)?,
    })
}

// The least pair of tokens whose join is cut so. The heads are the automaton's states, in the order of their least words.
fn least_pair(
    alloc: Global,
    dfa: &Dfa,
    heads: &[Pair],
    first: NfaIndex,
    second: NfaIndex,
    cut: Cut,
) -> Result<Option<TokenPair>, AllocError>
    requires { ArePairs All dfa.now dfa.now heads.now }
    ensures least { IfOk result (λ found.
        IfSome found (IsLeastPair (AreBeside cut dfa.now first second))) }
    ensures none { IfOk result (λ found. IfNone found ((a b : List ℕ)
        → ¬ AreBeside cut dfa.now first second a b)) }
{
    for (number, head) in heads.iter().enumerate() {
        if accepts(dfa, head.left, first) {
            let ahead = automaton_ahead(alloc, dfa, head.left)?;
            if let Some(tail) = least_tail(alloc, dfa, &ahead, second, cut)? {
                return Ok(Some(TokenPair {
                    first: word_to(alloc, heads, number)?,
                    second: tail,
                }));
            }
        }
    }
    Ok(None)
}

// Whether the state accepts the pattern.
fn accepts(dfa: &Dfa, state: DfaStateIndex, pattern: NfaIndex) -> bool
    ensures { IsTrue result ↔ (accepted_at (slice_get dfa.now state) ≡ Some pattern) }
{
    match accepted(dfa, state) {
        Some(index) => index.index() == pattern.index(),
        None => false,
    }
}

// The least token of the pattern that is cut so after a token that leads to the state in which the automaton ahead begins.
fn least_tail(
    alloc: Global,
    dfa: &Dfa,
    ahead: &Dfa,
    second: NfaIndex,
    cut: Cut,
) -> Result<Option<Vec<u32>>, AllocError>
    ensures least { IfOk result
        (λ found. IfSome found (λ tail. (p : ℕ) → IsAhead dfa.now p ahead.now
        → IsLeast (IsTail cut dfa.now p second) tail.items)) }
    ensures none { IfOk result (λ found. IfNone found ((p : ℕ) → IsAhead dfa.now p ahead.now
        → (b : List ℕ) → ¬ IsTail cut dfa.now p second b)) }
{
    let pairs = pairs(alloc, ahead, dfa, Follow::All)?;
    for (number, pair) in pairs.iter().enumerate() {
        if cut.fits(ahead, pair.left) && accepts(dfa, pair.right, second) {
            return Ok(Some(word_to(alloc, &pairs, number)?));
        }
    }
    Ok(None)
}

// The automaton that begins in the state, and stays in the first accepting state that it comes to. The start is a state of its
// own, which accepts nothing, so that the token before isn't counted.
fn automaton_ahead(alloc: Global, dfa: &Dfa, state: DfaStateIndex) -> Result<Dfa, AllocError>
    requires { state < length dfa.now }
    ensures { IfOk result (IsAhead dfa.now state) }
{
    let mut rows = RowWriter::new(alloc);
    let count = dfa.states().len();
    write_shifted(alloc, dfa, state, &mut rows)?;
    for number in 0..count {
        write_ahead(alloc, dfa, DfaStateIndex::new(number), &mut rows)?;
    }
    Dfa::new(alloc, rows.into_rows())
}

// Writes the state's row. If the state accepts, each value leads to the state itself.
fn write_ahead(
    alloc: Global,
    dfa: &Dfa,
    state: DfaStateIndex,
    rows: &mut RowWriter,
) -> Result<(), AllocError>
    requires within { state < length dfa.now }
    requires small { length dfa.now < 2 ^ 64 }
    requires empty { rows.old.tests ≡ [] }
    ensures row { OnOk result (IsSomeAnd (slice_get dfa.now state) (λ r. rows.new.rows
        ≡ rows.old.rows ++ row_ahead state r (accepted_by r.kind) ∷ [])) }
    ensures empty { OnOk result (rows.new.tests ≡ []) }
{
    match accepted(dfa, state) {
        Some(pattern) => {
            let itself = DfaStateIndex::new(state.index() + 1);
            rows.end_row(no_items(alloc), Kind::Accepts(pattern), itself)
        }
        None => write_shifted(alloc, dfa, state, rows),
    }
}

// Writes the state's row as that of one that accepts nothing. Each edge leads one state further, since the start comes first.
fn write_shifted(
    alloc: Global,
    dfa: &Dfa,
    state: DfaStateIndex,
    rows: &mut RowWriter,
) -> Result<(), AllocError>
    requires within { state < length dfa.now }
    requires small { length dfa.now < 2 ^ 64 }
    requires empty { rows.old.tests ≡ [] }
    ensures row { OnOk result (IsSomeAnd (slice_get dfa.now state) (λ r. rows.new.rows
        ≡ rows.old.rows ++ shifted_row r ∷ [])) }
    ensures empty { OnOk result (rows.new.tests ≡ []) }
{
    for (test, target) in dfa.test_edges(state) {
        rows.add_edge(test.clone()?, DfaStateIndex::new(target.index() + 1))?;
    }
    let other = dfa.state(state).other_edge();
    rows.end_row(
        no_items(alloc),
        Kind::Neither,
        DfaStateIndex::new(other.index() + 1),
    )
}
