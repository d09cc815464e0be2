//! Cutting a text into tokens.

ghost use Rattle.std.specs.Prelude.{◌≡◌, ℕ, ◌+◌, ◌*◌, ◌≤◌, ◌++◌, List, None, length, IfOk, IsSomeAnd};
ghost use Rattle.std.specs.Iterator.{Drains, Yields};
ghost use Rattle.std.specs.Str.{chars};
ghost use Rattle.lalrpop_hir.specs.Tree.{Tree};
ghost use Rattle.lalrpop_dfa.specs.Dfa.{Recognizes};
ghost use Rattle.lalrpop_dense.specs.Matching.{open_states};
ghost use Rattle.lalrpop_dense.specs.Cutting.{Cutting, start_of, rest_of, GivesItem};
ghost use Rattle.lalrpop_hir.specs.Tokens.{Item, AreItems, slices};

use crate::cutting::{Finder, Tokens};
use crate::dense::DenseDfa;
use crate::dfa_matches::DfaMatches;
use crate::linear_matches::LinearMatches;
use crate::matches::Matches;
use lalrpop_dfa::Dfa;
use std::alloc::{AllocError, Global};

/// The tokens of the text: each is the longest nonempty prefix of the rest that some pattern matches, with the strongest
/// pattern that matches it. They end at the end of the text, or with one fault at the first place where no pattern
/// matches. After that, every call returns `None`.
///
/// It takes no memory, and there are at most as many tokens and faults as the text has characters.
///
/// ```
/// use lalrpop_lexer::tokens;
///
/// for item in tokens(&dfa, "let x") {
///     match item {
///         Ok((index, slice)) => println!(rt; "{} {slice}", index.index())?,
///         Err(fault) => println!(rt; "{fault}")?,
///     }
/// }
/// ```
pub fn tokens<'text>(dfa: &'text Dfa, text: &'text str) -> Tokens<'text>
    ensures start { result ≡ start_of dfa.now text.now None }
    ensures items { (xs : List Item) → Drains GivesItem result xs
        → (ts : List Tree) (ps : List ℕ) → Recognizes dfa.now ts ps → AreItems ts ps text.now 0 xs }
    ensures parts { (xs : List Item) (s : Cutting) → Yields GivesItem result xs s
        → text.now ≡ slices xs ++ rest_of s }
    ensures count { (xs : List Item) (s : Cutting) → Yields GivesItem result xs s
        → length xs ≤ length (chars text.now) }
{
    let matches = DfaMatches::new(dfa, text);
    Tokens::new(text, Finder::Interpreting(matches))
}

/// The tokens of the text by the table, for an automaton whose lookahead is bounded. It takes no memory.
pub fn table_tokens<'text>(dense: &'text DenseDfa, text: &'text str) -> Tokens<'text>
    ensures start { result ≡ start_of dense.now text.now None }
{
    let plain = Matches::new(dense, text);
    Tokens::new(text, Finder::Plain(plain))
}

/// The tokens of the text by the table, with a memo, so that the time is linear whatever the lookahead is. All memory is taken here.
///
/// # Errors
///
/// `AllocError` if a request for memory was refused.
pub fn linear_tokens<'text>(
    alloc: Global,
    dense: &'text DenseDfa,
    text: &'text str,
) -> Result<Tokens<'text>, AllocError>
    ensures start { IfOk result (λ s. s ≡ start_of dense.now text.now s.spare) }
    ensures spare { IfOk result (λ s. IsSomeAnd s.spare (λ n.
        n ≤ length (chars text.now) + length text.now
        + open_states dense.now * (length text.now + 64))) }
{
    let matches = LinearMatches::new(alloc, dense, text)?;
    Ok(Tokens::new(text, Finder::Remembering(matches)))
}
