//! A token, and how much of a text settles it.

ghost use Rattle.std.specs.Prelude.{◌≡◌, ◌<◌, ◌≤◌, ◌+◌, ℕ, List, Option, None, length, take, IfSome, IfNone};
ghost use Rattle.std.specs.Option.{option_map};
ghost use Rattle.std.specs.Str.{IsCharBoundary};
ghost use Rattle.lalrpop_hir.specs.Tree.{Tree};
ghost use Rattle.lalrpop_hir.specs.Longest.{IsLongest};
ghost use Rattle.lalrpop_hir.specs.Tokens.{IsToken};
ghost use Rattle.lalrpop_dfa.specs.Dfa.{Row, RecognizesAll};
ghost use Rattle.lalrpop_dfa.specs.Lookahead.{IsTrim};
ghost use Rattle.bajofeki.specs.Lexed.{BeginsLonger};
ghost use Rattle.bajofeki.specs.Internal.Reach.{IsSettledBy};
ghost use Rattle.bajofeki.specs.Internal.Walking.{IsRight, IsWalkerOf};

use crate::memo::Memo;
use crate::run::{Settled, longest_settled};
use crate::walker::Walker;
use lalrpop_hir::Steps;
use lalrpop_lexer::{Lexer, Token};
use std::alloc::Global;

/// The token at the front of a text, and how far the run that found it looked.
///
/// ```
/// use bajofeki::SettledToken;
///
/// let found = SettledToken::of(alloc, &numbers, "12 + 3"); // `12`; the space after it shows that it ends there
/// let stays = found.reach <= 3; // true: whatever comes after the space, the token is the same
/// ```
#[derive(Clone, Copy, Debug)]
pub struct SettledToken<'text> {
    /// The token, as `Lexer::token` gives it.
    pub token: Option<Token<'text>>,
    /// How many bytes of the text settle it; one more than there are if a longer text may have a longer token.
    pub reach: usize,
}

// The longest match at the front of a text, and as few bytes as settle it.
fn least_settled<'text>(alloc: Global, walker: &Walker<'_>, text: &'text str) -> Settled<'text>
    requires right { IsRight walker.now }
    ensures answer { (d : List Row) (ts : List Tree) (ps : List ℕ) → IsWalkerOf walker.now d
        → RecognizesAll d ts ps
        → IsLongest ts ps text.now (option_map (λ m. (m.0, m.1.now)) result.longest) }
    ensures settled { (d : List Row) (ts : List Tree) (ps : List ℕ) → IsWalkerOf walker.now d
        → RecognizesAll d ts ps → IsSettledBy ts text.now result.reach }
    ensures least { (d : List Row) (ts : List Tree) (ps : List ℕ) → IsWalkerOf walker.now d
        → IsTrim d → RecognizesAll d ts ps → (n : ℕ) → n < result.reach
        → IsCharBoundary text.now n → BeginsLonger ts (take n text.now) }
    ensures within { result.reach ≤ length text.now + 1 }
{
    let found = longest_settled(walker, &mut Memo::new(alloc), 0, 0, text, &mut Steps::new());
    // A run goes on to a character that rejects, but what comes doesn't matter if each character does.
    if walker.is_last(found.place) {
        return Settled {
            reach: found.end,
            ..found
        };
    }
    found
}

impl<'text> SettledToken<'text> {
    /// The token at the front of the text. It's the same in each text that agrees with this one in the first `reach` bytes. No
    /// earlier place between characters settles it: all up to there begins a longer word that some pattern matches.
    pub fn of(alloc: Global, lexer: &Lexer, text: &'text str) -> SettledToken<'text>
        ensures token { IfSome result.token (λ token.
            IsToken lexer.now.trees lexer.now.precedences text.now 0 token) }
        ensures none { IfNone result.token
            (IsLongest lexer.now.trees lexer.now.precedences text.now None) }
        ensures settled { (other : List ℕ) → take result.reach text.now ≡ take result.reach other
            → (longest : Option (ℕ × List ℕ))
            → IsLongest lexer.now.trees lexer.now.precedences text.now longest
            → IsLongest lexer.now.trees lexer.now.precedences other longest }
        ensures least { (n : ℕ) → n < result.reach → IsCharBoundary text.now n
            → BeginsLonger lexer.now.trees (take n text.now) }
        ensures within { result.reach ≤ length text.now + 1 }
    {
        let walker = Walker::of(lexer.dense());
        let found = least_settled(alloc, &walker, text);
        let reach = found.reach;
        match found.longest {
            Some((index, slice)) => SettledToken {
                token: Some(Token {
                    index,
                    slice,
                    start: 0,
                }),
                reach,
            },
            None => SettledToken { token: None, reach },
        }
    }
}
