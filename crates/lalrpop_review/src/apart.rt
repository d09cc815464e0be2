//! Where two lexers with modes make different tokens of a text.
ghost use Rattle.std.specs.Prelude.{◌≡◌, ◌≢◌, ◌<◌, ◌++◌, ℕ, List, length, map, Some, IfOk, IfSome, IfNone};
ghost use Rattle.std.specs.Bool.{MatchBool};
ghost use Rattle.lalrpop_dfa.specs.Witness.{IsLeast};
ghost use Rattle.lalrpop_review.specs.Apart.{IsTokenIn, TellsApart, Told, told};
ghost use Rattle.lalrpop_review.specs.Internal.Meanings.{AreFirsts, AreTold, IsFirst, meant};

use crate::automaton::automaton;
use lalrpop_lexer::lexer::dfa::NfaIndex;
use lalrpop_rules::{Action, RuleLexer};
use lalrpop_verdicts::{Difference, least_difference};
use std::alloc::{AllocError, Global};

// What a token of a rule is.
#[derive(Clone, Copy)]
struct Meaning<'lexer> {
    name: &'lexer str,
    is_skipped: bool,
    actions: &'lexer [Action],
}

// What a token of the rule with this index is.
fn meaning_of(lexer: &RuleLexer, index: usize) -> Meaning<'_>
    ensures { Some (meant result) ≡ told lexer.now (Some index) }
{
    let rule = NfaIndex::new(index);
    Meaning {
        name: lexer.name(rule).unwrap_or(""),
        is_skipped: lexer.skips().get(index).copied().unwrap_or(false),
        actions: lexer.actions(rule),
    }
}

// What a token of each rule is, in order.
fn meanings(alloc: Global, lexer: &RuleLexer) -> Result<Vec<Meaning<'_>>, AllocError>
    ensures { IfOk result (λ all. AreTold lexer.now (map meant all.items)) }
{
    let mut all = Vec::new(alloc);
    for index in 0..lexer.regexs().len() {
        all.push(meaning_of(lexer, index))?;
    }
    Ok(all)
}

// Whether both say the same of a token.
fn is_same(one: &Meaning, other: &Meaning) -> bool
    ensures { MatchBool result (meant one.now ≡ meant other.now)
        (meant one.now ≢ meant other.now) }
{
    one.name == other.name && one.is_skipped == other.is_skipped && one.actions == other.actions
}

// The place of the first one that says the same as that at this place.
fn first_same(all: &[Meaning], place: usize) -> usize
    requires within { place < length all.now }
    ensures first { IsFirst (map meant all.now) place result }
{
    for earlier in 0..place {
        if is_same(&all[earlier], &all[place]) {
            return earlier;
        }
    }
    place
}

// For each the place of the first one that says the same.
fn first_places(alloc: Global, all: &[Meaning]) -> Result<Vec<usize>, AllocError>
    ensures { IfOk result (λ places. AreFirsts (map meant all.now) places.items) }
{
    let mut places = Vec::new(alloc);
    for place in 0..all.len() {
        places.push(first_same(all, place))?;
    }
    Ok(places)
}

// What the tokens of the left lexer are, and then those of the right one.
fn all_meanings<'lexers>(
    alloc: Global,
    left: &'lexers RuleLexer,
    right: &'lexers RuleLexer,
) -> Result<Vec<Meaning<'lexers>>, AllocError>
    ensures { IfOk result (λ all. (ts us : List Told) × (AreTold left.now ts
        × AreTold right.now us × (map meant all.items ≡ ts ++ us))) }
{
    let mut all = meanings(alloc, left)?;
    let others = meanings(alloc, right)?;
    all.extend_from_slice(&others)?;
    Ok(all)
}

/// The least nonempty text that is another token by one lexer than by the other in the mode with this number, with the rules of
/// both tokens; `None` if there is none. A shorter text is less than a longer one; of two texts of one length, the less is the one
/// with the lesser character where they first differ.
///
/// A token is the name of its rule, whether it is skipped, and what it does to the stack of modes. So rules may stand in another
/// order, and one rule may take the place of several. Modes are compared by their numbers, in the actions too.
///
/// The memory grows with the pairs of states that texts lead to, at most the product of the two numbers of states. Each rule is
/// compared with those before it, up to the first that makes the same tokens.
///
/// ```
/// use lalrpop_review::difference_in;
/// use lalrpop_rules::{ModeRule, Rule, RuleLexer};
///
/// let names = [ModeRule { rule: Rule::pattern("NAME", "[a-z]+"), modes: &[0], actions: &[] }];
/// let numbers = [ModeRule { rule: Rule::pattern("NAME", "[0-9]+"), modes: &[0], actions: &[] }];
/// let old = RuleLexer::with_modes(alloc, &names, &["INITIAL"])?;
/// let new = RuleLexer::with_modes(alloc, &numbers, &["INITIAL"])?;
/// if let Some(found) = difference_in(alloc, &old, &new, 0)? {
///     let word = &found.word; // "0": no token of the old lexer, and a NAME of the new one
/// }
/// ```
///
/// # Errors
///
/// `AllocError` if a request for memory was refused.
pub fn difference_in(
    alloc: Global,
    left: &RuleLexer,
    right: &RuleLexer,
    mode: usize,
) -> Result<Option<Difference>, AllocError>
    requires left_there { mode < left.now.modes }
    requires right_there { mode < right.now.modes }
    ensures least { IfOk result (λ found. IfSome found (λ f.
        IsLeast (TellsApart left.now right.now mode) f.word)) }
    ensures left_token { IfOk result (λ found. IfSome found (λ f.
        IsTokenIn left.now mode f.word f.left)) }
    ensures right_token { IfOk result (λ found. IfSome found (λ f.
        IsTokenIn right.now mode f.word f.right)) }
    ensures none { IfOk result (λ found. IfNone found ((w : List ℕ)
        → ¬ TellsApart left.now right.now mode w)) }
{
    let meanings = all_meanings(alloc, left, right)?;
    let places = first_places(alloc, &meanings)?;
    let (left_labels, right_labels) = places.split_at(left.regexs().len());
    least_difference(
        alloc,
        automaton(left, mode),
        left_labels,
        automaton(right, mode),
        right_labels,
    )
}
