//! What follows for tokens and clashes from the laws for callers, which the proofs here cite.
ghost use Rattle.std.specs.Prelude.{◌≡◌, ◌≢◌, ◌++◌, ◌∷◌, ◌<◌, ◌≤◌, ◌⊎◌, ℕ, List, [], Result, Ok, Some, IfOk, IfSome, IsSomeAnd, drop, length, map, slice_get, slice_index, IfNone};
ghost use Rattle.std.specs.Iterator.{Drains};
ghost use Rattle.std.specs.List.{Contains};
ghost use Rattle.std.specs.Str.{chars};
ghost use Rattle.lalrpop_hir.specs.Clashes.{Entry};
ghost use Rattle.lalrpop_dfa.specs.Lookahead.{LooksAtMost};
ghost use Rattle.lalrpop_lexer.specs.LeadingTokens.{LeadTo};
ghost use Rattle.lalrpop_lexer.specs.Renumbered.{AreAlike, AreRenumbered, renumbered};
ghost use Rattle.lalrpop_lexer.specs.SameTokens.{IsSameToken, AreSameTokens, moved};
ghost use Rattle.lalrpop_hir.specs.Tokens.{Item, IsToken, AreTokens};
ghost use Rattle.lalrpop_hir.specs.Tree.{Tree};
ghost use Rattle.lalrpop_hir.specs.Winners.{Matched};
ghost use Rattle.lalrpop_hir.specs.declared.token.Token.{Token as TokenValue};
ghost use Rattle.lalrpop_hir.specs.declared.token.TokenFault.{TokenFault as FaultValue};
ghost use Rattle.lalrpop_lexer.specs.Cutting.{GivesItem, with_places};

use lalrpop_lexer::lexer::dfa::{Clash, DfaConstructionError, Precedence, clashes};
use lalrpop_lexer::lexer::re::Regex;
use lalrpop_lexer::{Lexer, Token, Tokens};
use std::alloc::{AllocError, Global};

/// How strong the pattern of the token at the front of the text is. The pattern of a token is in the list.
pub fn strength_at_front(
    lexer: &Lexer,
    precedences: &[Precedence],
    text: &str,
) -> Option<Precedence>
    requires { length precedences.now ≡ length lexer.now.trees }
    ensures strength { IfSome result (λ strength. (token : TokenValue)
        × (IsToken lexer.now.trees lexer.now.precedences text.now 0 token
        × (slice_get precedences.now token.index ≡ Some strength))) }
{
    match lexer.token(text) {
        Some(token) => Some(precedences[token.index.index()]),
        None => None,
    }
}

/// The token at the front of the text. Its characters are the first characters of the text. If there is none, no pattern matches
/// one or more of these.
pub fn characters_at_front<'text>(lexer: &Lexer, text: &'text str) -> Option<Token<'text>>
    ensures characters { IfSome result (λ token. (w : List ℕ)
        × (chars text.now ≡ chars token.slice.now ++ w)) }
    ensures none { IfNone result ((v w : List ℕ) → chars text.now ≡ v ++ w → v ≢ []
        → ¬ Matched lexer.now.trees v) }
{
    lexer.token(text)
}

/// The tokens of the text. There is one list of all of them, and the calls of `next` give it. Those that end so far before the end
/// of the text that more characters come after them than the lexer looks ahead are the first tokens of any text that begins with this one.
/// Where the text comes last in a longer one, its tokens are the tokens of that from there on, at places further on.
///
/// # Errors
///
/// `AllocError` if a request for memory was refused.
pub fn the_tokens<'text>(
    alloc: Global,
    lexer: &'text Lexer,
    text: &'text str,
) -> Result<Tokens<'text>, AllocError>
    ensures one { IfOk result (λ tokens. (all : List (Result TokenValue FaultValue))
        × (AreTokens lexer.now.trees lexer.now.precedences text.now 0 all
        × ((xs : List Item) → Drains GivesItem tokens xs → AreSameTokens (with_places 0 xs) all))) }
    ensures stay { IfOk result (λ tokens.
        (n : ℕ) (xs : List TokenValue) (ys : List (Result TokenValue FaultValue)) (all : List Item)
        → LooksAtMost (Matched lexer.now.trees) n → Drains GivesItem tokens all
        → with_places 0 all ≡ map Ok xs ++ ys
        → (to : ℕ) × ((n < length (chars (drop to text.now)) → (later : List ℕ)
        → LeadTo lexer.now.trees lexer.now.precedences (text.now ++ later) 0 to xs))) }
    ensures moved { IfOk result (λ tokens.
        (front : List ℕ) (xs : List Item) → Drains GivesItem tokens xs
        → AreTokens lexer.now.trees lexer.now.precedences (front ++ text.now)
        (length front) (map (moved (length front)) (with_places 0 xs))) }
{
    lexer.tokens(alloc, text)
}

/// The tokens of the text by two lexers. Those of rules that are alike are the same, and those of the same rules under other
/// numbers have other numbers.
///
/// # Errors
///
/// `AllocError` if a request for memory was refused.
pub fn tokens_by_both<'text>(
    alloc: Global,
    one: &'text Lexer,
    other: &'text Lexer,
    text: &'text str,
) -> Result<(Tokens<'text>, Tokens<'text>), AllocError>
    ensures alike { IfOk result (λ both.
        AreAlike one.now.trees one.now.precedences other.now.trees other.now.precedences
        → (xs ys : List Item) → Drains GivesItem both.0 xs → Drains GivesItem both.1 ys
        → AreSameTokens (with_places 0 xs) (with_places 0 ys)) }
    ensures numbers { IfOk result (λ both. (f g : ℕ → ℕ)
        → AreRenumbered f g one.now.trees one.now.precedences
        other.now.trees other.now.precedences → (xs ys : List Item)
        → Drains GivesItem both.0 xs → Drains GivesItem both.1 ys
        → AreSameTokens (map (renumbered f) (with_places 0 xs)) (with_places 0 ys)) }
{
    let first = one.tokens(alloc, text)?;
    let second = other.tokens(alloc, text)?;
    Ok((first, second))
}

/// The tokens at the front of the text by a lexer and by one that has a rule more. That one's token isn't shorter, and if it
/// is as long and the last rule is the weakest, it is by the same rule.
pub fn fronts_with_one_more<'text>(
    lexer: &Lexer,
    larger: &Lexer,
    text: &'text str,
) -> (Option<Token<'text>>, Option<Token<'text>>)
    ensures longer { IfSome result.0 (λ a. (t : Tree)
        → larger.now.trees ≡ lexer.now.trees ++ t ∷ []
        → IsSomeAnd result.1 (λ b. length a.slice.now ≤ length b.slice.now)) }
    ensures winner { IfSome result.0 (λ a. IfSome result.1 (λ b. (t : Tree) (p : ℕ)
        → larger.now.trees ≡ lexer.now.trees ++ t ∷ []
        → larger.now.precedences ≡ lexer.now.precedences ++ p ∷ []
        → length lexer.now.precedences ≡ length lexer.now.trees
        → ((i : ℕ) → i < length lexer.now.trees → p < slice_index lexer.now.precedences i)
        → length a.slice.now ≡ length b.slice.now → a.index ≡ b.index)) }
{
    (lexer.token(text), larger.token(text))
}

/// The clashes of two lists of patterns. Patterns that are alike have the same, and the same patterns under other numbers have
/// the same pairs under these.
pub fn clashes_of_both(
    alloc: Global,
    regexs: &[Regex],
    precedences: &[Precedence],
    others: &[Regex],
    strengths: &[Precedence],
) -> Result<(Vec<Clash>, Vec<Clash>), DfaConstructionError>
    requires one_each { length regexs.now ≡ length precedences.now }
    requires other_each { length others.now ≡ length strengths.now }
    ensures alike { IfOk result (λ both. AreAlike regexs.now (map (λ p. p.0) precedences.now)
        others.now (map (λ p. p.0) strengths.now) → both.0.items ≡ both.1.items) }
    ensures pairs { IfOk result (λ both. (f g : ℕ → ℕ) (c : Entry) → AreRenumbered f g
        regexs.now (map (λ p. p.0) precedences.now) others.now (map (λ p. p.0) strengths.now)
        → Contains both.0.items c → (d : Entry) × (Contains both.1.items d
        × (((d.match0 ≡ f c.match0) × (d.match1 ≡ f c.match1))
        ⊎ ((d.match0 ≡ f c.match1) × (d.match1 ≡ f c.match0))))) }
{
    let first = clashes(alloc, regexs, precedences)?;
    let second = clashes(alloc, others, strengths)?;
    Ok((first, second))
}
