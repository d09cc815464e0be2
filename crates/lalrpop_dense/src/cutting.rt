//! The tokens of a text, one after another.

ghost use Rattle.std.specs.Prelude.{◌≡◌};

use crate::dfa_matches::DfaMatches;
use crate::linear_matches::LinearMatches;
use crate::matches::Matches;
use lalrpop_hir::{NfaIndex, Steps, TokenFault};
use std::fmt;
use std::iter::FusedIterator;
use std::marker::Model;

/// Cuts a text into tokens, from its beginning to its end or to the first place where no pattern matches. Each comes as the index of
/// its pattern and a slice of the text.
///
/// A lexer reads the text a block ahead. A step is counted for each character that is read, as often as it is: for those of a token
/// that is found ahead when `next` returns it. Without a memo, more steps are counted than are taken: they pay for what may be read
/// in vain. Only contracts see the steps.
///
/// ```
/// use lalrpop_lexer::lexer::dfa::Precedence;
/// use lalrpop_lexer::{Form, Lexer};
///
/// let lexer = Lexer::from_patterns(alloc, &[(Precedence(0), Form::Pattern, "[a-z]+| +")])?;
/// let mut tokens = lexer.tokens(alloc, "ab c!")?; // "ab", " ", "c", and a fault at 4
/// let first = tokens.next();
/// let start = tokens.offset(); // 2: here the second token begins
/// ```
#[derive(Drop)]
pub struct Tokens<'text> {
    text: &'text str,
    // The rest of the text begins here.
    at: usize,
    is_over: bool,
    // What finds the matches. It has found them up to the same place.
    finder: Finder<'text>,
    // The steps taken. Those that are prepaid count as well.
    steps: Steps,
}

/// What finds the matches of a text: the table, without a memo or with one, or the automaton without a table.
#[derive(Drop)]
pub(crate) enum Finder<'text> {
    Plain(Matches<'text>),
    Remembering(LinearMatches<'text>),
    Interpreting(DfaMatches<'text>),
}

impl<'text> Model for Tokens<'text> {
    ghost use Rattle.std.specs.Prelude.{◌+◌};
    ghost use Rattle.std.specs.Str.{IsCharBoundary};
    ghost use Rattle.lalrpop_dense.specs.Cutting.{Cutting};

    ghost Value = { Cutting };

    ghost use Rattle.lalrpop_dense.specs.Internal.Finding.{matching_of, memo_of, prepaid_by, AreFoundUpTo};

    ghost view = { λ t.
        record {
          automaton = (matching_of t.finder).automaton;
          text = t.text.now;
          at = t.at;
          is_over = t.is_over;
          spare = memo_of t.finder;
          steps = t.steps + prepaid_by t.finder;
        } };

    ghost invariant = { λ t.
        IsCharBoundary t.text.now t.at × AreFoundUpTo t.text.now t.at t.finder };
}

impl<'text> Tokens<'text> {
    ghost use Rattle.std.specs.Prelude.{◌<◌, OnSome, false};
    ghost use Rattle.std.specs.Str.{IsCharBoundary};
    ghost use Rattle.lalrpop_dense.specs.Cutting.{rest_of, left_of, GivesItem};
    ghost use Rattle.lalrpop_dense.specs.Internal.Finding.{matching_of, memo_of, prepaid_by, AreFoundUpTo};

    // The whole text, before the first token.
    pub(crate) fn new(text: &'text str, finder: Finder<'text>) -> Tokens<'text>
        requires same_text { AreFoundUpTo text.now 0 finder }
        ensures start { result ≡ record {
          automaton = (matching_of finder.entry).automaton;
          text = text.now;
          at = 0;
          is_over = false;
          spare = memo_of finder.entry;
          steps = prepaid_by finder.entry;
        } }
    {
        Tokens {
            text,
            at: 0,
            is_over: false,
            finder,
            steps: Steps::new(),
        }
    }

    /// Where the rest of the text begins, in bytes. Before a call of `next` it is where the token begins that the call returns.
    pub fn offset(&self) -> usize
        ensures offset { result ≡ self.now.at }
        ensures boundary { IsCharBoundary self.now.text result }
    {
        self.at
    }

    /// The rest of the text, after the last token. Before the first call of `next` it is all of the text.
    pub fn rest(&self) -> &'text str
        ensures rest { result.now ≡ rest_of self.now }
    {
        &self.text[self.at..]
    }

    // What `next` returns.
    #[inline(always)]
    fn next_item(&mut self) -> Option<Result<(NfaIndex, &'text str), TokenFault>>
        ensures gives { GivesItem self.old result self.new }
        ensures goes { OnSome result (left_of self.new < left_of self.old) }
    {
        let rest = &self.text[self.at..];
        if self.is_over || rest.is_empty() {
            return None;
        }
        let found = match &mut self.finder {
            Finder::Plain(matches) => matches.next_match(&mut self.steps),
            Finder::Remembering(matches) => matches.next_match(&mut self.steps),
            Finder::Interpreting(matches) => matches.next_match(&mut self.steps),
        };
        match found {
            Some(matched) => {
                self.at += matched.1.len();
                Some(Ok(matched))
            }
            None => {
                self.is_over = true;
                Some(Err(TokenFault { at: self.at }))
            }
        }
    }
}

impl<'text> Iterator for Tokens<'text> {
    ghost use Rattle.std.specs.Iterator.{at_most};
    ghost use Rattle.lalrpop_dense.specs.Cutting.{GivesItem, left_of};

    type Item = Result<(NfaIndex, &'text str), TokenFault>;

    ghost next_gives = { GivesItem };

    ghost remaining = { λ s. at_most (left_of s) };

    #[inline(always)]
    fn next(&mut self) -> Option<Result<(NfaIndex, &'text str), TokenFault>> {
        self.next_item()
    }
}

impl<'text> FusedIterator for Tokens<'text> {}

// The rest of the text.
impl<'text> fmt::Debug for Tokens<'text> {
    fn fmt<W: fmt::Write>(&self, f: &mut fmt::Formatter<W>) -> fmt::Result {
        let rest = self.rest();
        write!(f, "Tokens({rest:?})")
    }
}
