//! A lexer: built once, run over many texts. Below it patterns, the automaton of one, and that of a list of them.

ghost use Rattle.std.specs.Prelude.{◌≡◌, ℕ, ◌+◌, ◌*◌, ◌≤◌, ◌++◌, ◌∷◌, [], List, Option, Result, Ok, Err, map, length, None, IfOk, OnOk, IfErr, OnErr, IfSome, IfNone, IsSome, Some, true, slice_get, ◌<◌, ◌↔◌};
ghost use Rattle.std.specs.Iterator.{Drains, Yields};
ghost use Rattle.std.specs.Str.{chars};
ghost use Rattle.lalrpop_hir.specs.Clash.{NoClash};
ghost use Rattle.lalrpop_hir.specs.Report.{NoFault, IsReport};
ghost use Rattle.lalrpop_hir.specs.Longest.{IsLongest};
ghost use Rattle.lalrpop_hir.specs.Winners.{IsOnlyStrongest, Matched};
ghost use Rattle.lalrpop_dfa.specs.Lookahead.{IsLookahead, LeavesOpen, StaysOpenEver, IsTrim};
ghost use Rattle.lalrpop_hir.specs.Word.{IsWord};
ghost use Rattle.lalrpop_dfa.specs.Witness.{IsOpenMatch, IsWitness};
ghost use Rattle.lalrpop_dense.specs.Matching.{open_states};
ghost use Rattle.lalrpop_dense.specs.Cutting.{Cutting, start_of, rest_of, GivesItem, with_places, most_steps};
ghost use Rattle.lalrpop_hir.specs.Tokens.{Item, slices, IsToken, AreTokens};
ghost use Rattle.lalrpop_dense.specs.Rules.{IsBuiltFrom};

pub mod dfa;
pub mod nfa;
pub mod re;

use crate::neighbours::Neighbours;
use lalrpop_build::{DfaConstructionError, Precedence, build_dfa};
use lalrpop_dense::{DenseDfa, LinearMatches, Tokens, linear_tokens, table_tokens};
use lalrpop_dfa::lookahead::{lookahead, unbounded_patterns};
use lalrpop_dfa::{Witness, lookahead_witness};
use lalrpop_hir::Token;
use lalrpop_re::Regex;
use std::alloc::{AllocError, Global};
use std::marker::Model;

/// Patterns with their precedences, and their automaton.
///
/// The invariant of the type says that they belong together and that no word is ambiguous, so only building a lexer has a
/// precondition.
///
/// ```
/// use lalrpop_lexer::lexer::dfa::Precedence;
/// use lalrpop_lexer::{Form, Lexer};
///
/// let patterns = [(Precedence(1), Form::Literal, "if"), (Precedence(0), Form::Pattern, "[a-z]+| +")];
/// let lexer = Lexer::from_patterns(alloc, &patterns)?;
/// let count = lexer.tokens(alloc, "if iffy")?.count(); // 3
/// ```
#[derive(Debug, Drop)]
pub struct Lexer {
    regexs: Vec<Regex>,
    precedences: Vec<Precedence>,
    dense: DenseDfa,
    lookahead: Option<usize>,
}

impl Model for Lexer {
    ghost use Rattle.std.specs.Prelude.{map, List, ℕ};
    ghost use Rattle.lalrpop_hir.specs.Winners.{Matched};
    ghost use Rattle.lalrpop_hir.specs.Word.{IsWord};
    ghost use Rattle.lalrpop_dfa.specs.Lookahead.{IsLookahead, IsTrim};
    ghost use Rattle.lalrpop_dense.specs.Rules.{Rules, IsBuiltFrom};
    ghost use Rattle.lalrpop_lexer.specs.Internal.Code.{rules_code};

    ghost Value = { Rules };

    ghost coded = { rules_code };

    ghost view = { λ l.
        record {
          trees = l.regexs.items;
          precedences = map (λ p. p.0) l.precedences.items;
          automaton = l.dense;
        } };

    ghost invariant = { λ l.
        IsBuiltFrom l.regexs.items (map (λ p. p.0) l.precedences.items) l.dense
        × IsTrim l.dense × IsLookahead (Matched l.regexs.items) l.lookahead
        × ((w : List ℕ) → Matched l.regexs.items w → IsWord w) };
}

impl Lexer {
    /// Builds the automaton of the patterns, with one precedence for each pattern.
    ///
    /// # Errors
    ///
    /// The first pattern that can't be compiled; otherwise the shortest, then least, word with two or more strongest patterns,
    /// and the last two of those; or out of memory.
    pub fn new(
        alloc: Global,
        regexs: Vec<Regex>,
        precedences: Vec<Precedence>,
    ) -> Result<Lexer, DfaConstructionError>
        requires same_len { length regexs.items ≡ length precedences.items }

        ensures trees { IfOk result (λ lexer. lexer.trees ≡ regexs.items) }
        ensures precedences { IfOk result (λ lexer.
            lexer.precedences ≡ map (λ p. p.0) precedences.items) }
        ensures no_fault { OnOk result (NoFault regexs.items) }
        ensures no_clash { OnOk result (NoClash regexs.items (map (λ p. p.0) precedences.items)) }

        ensures report { IfErr result
            (λ e. IsReport regexs.items (map (λ p. p.0) precedences.items) e) }
    {
        let built = build_dfa(alloc, &regexs, &precedences)?;
        let dfa = built.trimmed(alloc)?;
        let dense = DenseDfa::new(alloc, dfa)?;
        let lookahead = lookahead(alloc, dense.dfa())?;
        Ok(Lexer {
            regexs,
            precedences,
            dense,
            lookahead,
        })
    }

    /// The patterns, in the order of their indices. All values of the words that they match fit 32 bits.
    pub fn regexs(&self) -> &[Regex]
        ensures trees { result.now ≡ self.now.trees }
        ensures words { (w : List ℕ) → Matched self.now.trees w → IsWord w }
    {
        &self.regexs
    }

    /// The automaton, with the table that runs it.
    pub fn dense(&self) -> &DenseDfa
        ensures same { result.now ≡ self.now.automaton }
        ensures built { IsBuiltFrom self.now.trees self.now.precedences result.now }
        ensures trim { IsTrim result.now }
    {
        &self.dense
    }

    /// The token at the front of the text: the longest nonempty prefix that some pattern matches, with the one pattern of
    /// the greatest precedence that matches it. `None` if no pattern matches a nonempty prefix.
    pub fn token<'text>(&self, text: &'text str) -> Option<Token<'text>>
        ensures token { IfSome result (λ token.
            IsToken self.now.trees self.now.precedences text.now 0 token) }
        ensures none { IfNone result (IsLongest self.now.trees self.now.precedences text.now None) }
    {
        match self.dense.longest(text) {
            Some(found) => Some(Token {
                index: found.0,
                slice: found.1,
                start: 0,
            }),
            None => None,
        }
    }

    /// The tokens of the text, in order, each at the front of the rest. They end at the end of the text, or with one fault
    /// at the first place where no pattern matches. After that, every call returns `None`; `RuleLexer::pieces` goes on after a
    /// fault. There are at most as many tokens and faults as the text has characters.
    ///
    /// The time is linear in the length of the text, whatever the patterns are. A step is counted each time a character is
    /// read, which only contracts see. If `lookahead` is n, a whole text costs at most n + 2 steps a character, and no memory
    /// is taken. Otherwise the table cuts the text as long as it reads little in vain. After that the places of the text are
    /// remembered that were passed in vain, so no run is repeated that came to nothing. A state of the automaton is open if it
    /// neither accepts a pattern nor rejects. A whole text then costs at most 66 steps a character and one a byte, and for each
    /// open state one step a byte and 64 more. All memory is taken by this call: a byte for each open state and each 64 bytes of
    /// the text.
    ///
    /// # Errors
    ///
    /// `AllocError` if a request for memory was refused.
    pub fn tokens<'text>(
        &'text self,
        alloc: Global,
        text: &'text str,
    ) -> Result<Tokens<'text>, AllocError>
        ensures start { IfOk result (λ s. s ≡ start_of self.now.automaton text.now s.spare) }
        ensures memo { IfOk result (λ s.
            IsSome s.spare → IsLookahead (Matched self.now.trees) None) }
        ensures built { IfOk result (λ s.
            IsBuiltFrom self.now.trees self.now.precedences s.automaton) }
        ensures tokens { IfOk result (λ s. (xs : List Item) → Drains GivesItem s xs
            → AreTokens self.now.trees self.now.precedences text.now 0 (with_places 0 xs)) }
        ensures parts { IfOk result (λ s. (xs : List Item) (t : Cutting)
            → Yields GivesItem s xs t → text.now ≡ slices xs ++ rest_of t) }
        ensures count { IfOk result (λ s. (xs : List Item) (t : Cutting)
            → Yields GivesItem s xs t → length xs ≤ length (chars text.now)) }
        ensures cost { IfOk result (λ s. (found : Option ℕ)
            × (IsLookahead (Matched self.now.trees) found
            × ((xs : List Item) (t : Cutting) → Yields GivesItem s xs t
            → t.steps ≤ most_steps self.now.automaton text.now found))) }
        ensures refused { OnErr result (IsLookahead (Matched self.now.trees) None) }
        ensures no_clash { NoClash self.now.trees self.now.precedences }
    {
        if self.lookahead.is_some() {
            return Ok(table_tokens(&self.dense, text));
        }
        let tokens = linear_tokens(alloc, &self.dense, text)?;
        Ok(tokens)
    }

    /// The longest matches of the text, one after another, for a caller that goes on where nothing matches. It starts with all
    /// of the text left. All memory is taken by this call, as in `tokens`.
    ///
    /// # Errors
    ///
    /// `AllocError` if a request for memory was refused.
    pub fn matches<'text>(
        &'text self,
        alloc: Global,
        text: &'text str,
    ) -> Result<LinearMatches<'text>, AllocError>
        ensures start { IfOk result (λ s. s ≡ record {
          automaton = self.now.automaton;
          text = text.now;
          at = 0;
          spare = s.spare;
        }) }
        ensures built { IfOk result (λ s.
            IsBuiltFrom self.now.trees self.now.precedences s.automaton) }
        ensures spare { IfOk result (λ s. s.spare ≤ length (chars text.now) + length text.now
            + open_states self.now.automaton * (length text.now + 64)) }
        ensures no_clash { NoClash self.now.trees self.now.precedences }
    {
        LinearMatches::new(alloc, &self.dense, text)
    }

    /// The greatest number of characters that can follow a nonempty match and still leave it open whether a longer one comes;
    /// `None` if it is unbounded.
    ///
    /// If it is n, no more than n + 1 characters past the end of a token are read to decide it.
    ///
    /// It is the same over words of 32-bit values alone, of which `lookahead_witness` speaks: no other values can be in a match
    /// that is left open, nor among those that leave it open.
    pub fn lookahead(&self) -> Option<usize>
        ensures answer { IsLookahead (Matched self.now.trees) result }
        ensures words { (n : ℕ) (v x : List ℕ) → LeavesOpen (Matched self.now.trees) n v x
            → IsOpenMatch (Matched self.now.trees) n v x }
    {
        self.lookahead
    }

    /// For each pattern, in order, whether a token it matches can stay open forever: no number of characters after the token
    /// is enough to settle that no longer one comes. If `lookahead` returns a number, no token can.
    ///
    /// # Errors
    ///
    /// `AllocError` if a request for memory was refused.
    pub fn unbounded_patterns(&self, alloc: Global) -> Result<Vec<bool>, AllocError>
        ensures same_length { IfOk result (λ found.
            length found.items ≡ length self.now.trees) }
        ensures each { IfOk result (λ found. (i : ℕ) → i < length self.now.trees
            → (slice_get found.items i ≡ Some true) ↔ StaysOpenEver (Matched self.now.trees)
            (λ w. IsOnlyStrongest self.now.trees self.now.precedences w i)) }
    {
        unbounded_patterns(alloc, self.dense.dfa(), self.regexs().len())
    }

    /// Which tokens may stand side by side in a text. It takes a byte for each pair of patterns.
    ///
    /// # Errors
    ///
    /// `AllocError` if a request for memory was refused.
    pub fn neighbours(&self, alloc: Global) -> Result<Neighbours<'_>, AllocError>
        ensures lexer { IfOk result (λ neighbours. neighbours ≡ self.now) }
    {
        Neighbours::new(alloc, self, self.dense.dfa())
    }

    /// The shortest, then least, nonempty word that a pattern matches and that `count` characters after it can leave open: they don't
    /// settle whether a longer match comes. The least such characters come with it, all as code values. `None` if there is no
    /// such word.
    ///
    /// With the `count` that `lookahead` returned, it shows what makes the lexer look that far ahead.
    ///
    /// # Errors
    ///
    /// `AllocError` if a request for memory was refused.
    pub fn lookahead_witness(
        &self,
        alloc: Global,
        count: usize,
    ) -> Result<Option<Witness>, AllocError>
        ensures least { IfOk result (λ found. IfSome found (λ witness.
            IsWitness (Matched self.now.trees) count witness.word witness.after)) }
        ensures none { IfOk result (λ found. IfNone found
            ((v x : List ℕ) → ¬ IsOpenMatch (Matched self.now.trees) count v x)) }
    {
        lookahead_witness(alloc, self.dense.dfa(), count)
    }
}
