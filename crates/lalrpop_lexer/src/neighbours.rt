//! Which tokens may stand side by side in a text.
ghost use Rattle.std.specs.Prelude.{◌≡◌, ◌↔◌, IfOk, IsTrue};
ghost use Rattle.lalrpop_dense.specs.Rules.{IsBuiltFrom};
ghost use Rattle.lalrpop_lexer.specs.Internal.RunningOn.{AreRunningOn};

use crate::join_error::JoinError;
use crate::lexer::Lexer;
use lalrpop_dfa::Dfa;
use lalrpop_dfa::follow::running_on;
use lalrpop_hir::{NfaIndex, Token};
use std::alloc::{AllocError, Global};
use std::marker::Model;

/// Which tokens may stand right after which, so that a text of just these tokens is cut into them again.
///
/// A token may not follow another if some match begins with the other one and goes on with its first character: in a text
/// of both, a longer token could come first.
///
/// ```
/// use lalrpop_lexer::lexer::dfa::{NfaIndex, Precedence};
/// use lalrpop_lexer::{Form, Lexer};
///
/// let patterns = [(Precedence(0), Form::Pattern, "[a-z]+"), (Precedence(0), Form::Literal, "+")];
/// let lexer = Lexer::from_patterns(alloc, &patterns)?;
/// let (name, plus) = (NfaIndex::new(0), NfaIndex::new(1));
/// let neighbours = lexer.neighbours(alloc)?;
/// let names = neighbours.can_follow(name, name); // false: `ab` could be one name
/// let sum = neighbours.can_follow(name, plus); // true
/// ```
#[derive(Debug, Drop)]
pub struct Neighbours<'lexer> {
    lexer: &'lexer Lexer,
    // For each pattern, as the second one, the patterns whose tokens run on into its tokens.
    running_on: Vec<Vec<bool>>,
}

impl<'lexer> Model for Neighbours<'lexer> {
    ghost use Rattle.std.specs.Prelude.{length, map};
    ghost use Rattle.lalrpop_dense.specs.Rules.{Rules};
    ghost use Rattle.lalrpop_lexer.specs.Internal.Code.{rules_code};
    ghost use Rattle.lalrpop_lexer.specs.Internal.RunningOn.{IsTableUpTo};

    ghost Value = { Rules };

    ghost coded = { rules_code };

    ghost view = { λ n. n.lexer.now };

    ghost invariant = { λ n. IsTableUpTo n.lexer.now (length n.lexer.now.trees)
        (map (λ v. v.items) n.running_on.items) };
}

// The patterns whose tokens run on into those of the second one.
fn marks_of(
    alloc: Global,
    lexer: &Lexer,
    dfa: &Dfa,
    second: NfaIndex,
) -> Result<Vec<bool>, AllocError>
    requires built { IsBuiltFrom lexer.now.trees lexer.now.precedences dfa.now }
    ensures marks { IfOk result (λ marks. AreRunningOn lexer.now second marks.items) }
{
    running_on(alloc, dfa, lexer.regexs().len(), second)
}

impl<'lexer> Neighbours<'lexer> {
    ghost use Rattle.std.specs.Prelude.{IfErr, IfNone, IfSome, OnOk, map};
    ghost use Rattle.std.specs.String.{string_bytes};
    ghost use Rattle.lalrpop_dense.specs.Neighbours.{CanFollow, CanPart, IsWhole};
    ghost use Rattle.lalrpop_lexer.specs.Joined.{CanJoin, IsJoinError, IsJoined, plain};
    ghost use Rattle.lalrpop_lexer.specs.Internal.Joining.{IsBetween};

    // `dfa` is the lexer's automaton.
    pub(crate) fn new(
        alloc: Global,
        lexer: &'lexer Lexer,
        dfa: &Dfa,
    ) -> Result<Neighbours<'lexer>, AllocError>
        requires built { IsBuiltFrom lexer.now.trees lexer.now.precedences dfa.now }
        ensures lexer { IfOk result (λ neighbours. neighbours ≡ lexer.now) }
    {
        let mut lists = Vec::new(alloc);
        for second in 0..lexer.regexs().len() {
            let marks = marks_of(alloc, lexer, dfa, NfaIndex::new(second))?;
            lists.push(marks)?;
        }
        Ok(Neighbours {
            lexer,
            running_on: lists,
        })
    }

    /// Whether a token of the second pattern may stand right after one of the first. An index that no
    /// pattern has has no tokens, so it may follow and be followed.
    ///
    /// ```
    /// let stays_two = neighbours.can_follow(NfaIndex::new(0), NfaIndex::new(1));
    /// ```
    pub fn can_follow(&self, first: NfaIndex, second: NfaIndex) -> bool
        ensures answer { IsTrue result
            ↔ CanFollow self.now.trees self.now.precedences first second }
    {
        let Some(marks) = self.running_on.get(second.index()) else {
            return true;
        };
        match marks.get(first.index()) {
            Some(runs_on) => !*runs_on,
            None => true,
        }
    }

    // Whether just this token is cut from its text.
    fn is_whole(&self, token: &Token) -> bool
        ensures { IsTrue result
            ↔ IsWhole self.now.trees self.now.precedences (plain token.now) }
    {
        match self.lexer.token(token.slice) {
            Some(found) => found.index == token.index && found.slice.len() == token.slice.len(),
            None => false,
        }
    }

    // What stands between two tokens: nothing, or the separator. `None` if neither keeps them apart.
    fn between<'text>(
        &self,
        first: &Token,
        second: &Token,
        separator: &Token<'text>,
    ) -> Option<&'text str>
        ensures some { IfSome result (λ between. IsBetween self.now.trees self.now.precedences
            (plain separator.now) (plain first.now) (plain second.now) between.now) }
        ensures none { IfNone result
            ((¬ CanFollow self.now.trees self.now.precedences first.now.index second.now.index)
            × (¬ CanPart self.now.trees self.now.precedences (plain separator.now)
            (plain first.now) (plain second.now))) }
    {
        if self.can_follow(first.index, second.index) {
            return Some("");
        }
        if self.can_follow(first.index, separator.index)
            && self.can_follow(separator.index, second.index)
        {
            return Some(separator.slice);
        }
        None
    }

    /// The text of the tokens in order, with the separator between those that may not stand side by side. Just these tokens
    /// are cut from it again. Of a token only the pattern and the slice count, so tokens of several texts can be joined.
    ///
    /// ```
    /// use lalrpop_lexer::Token;
    ///
    /// let space = Token { index: NfaIndex::new(2), slice: " ", start: 0 };
    /// let text = neighbours.joined(alloc, &tokens, &space)?;
    /// ```
    ///
    /// # Errors
    ///
    /// `NotASeparator` if the separator isn't what is cut from its text. Otherwise the first token that can't be joined with
    /// those before it: it is not what is cut from its text, `NotAToken`, or the separator is needed before it and may not
    /// stand there, `Inseparable` with the token before it; or out of memory.
    pub fn joined(
        &self,
        alloc: Global,
        tokens: &[Token],
        separator: &Token,
    ) -> Result<String, JoinError>
        ensures text { IfOk result (λ text. IsJoined self.now.trees self.now.precedences
            (plain separator.now) (map plain tokens.now) (string_bytes text)) }
        ensures can { OnOk result (CanJoin self.now.trees self.now.precedences
            (plain separator.now) (map plain tokens.now)) }
        ensures error { IfErr result (IsJoinError self.now.trees self.now.precedences
            (plain separator.now) (map plain tokens.now)) }
    {
        if !self.is_whole(separator) {
            return Err(JoinError::NotASeparator);
        }
        let mut text = String::new(alloc);
        for (at, token) in tokens.iter().enumerate() {
            if !self.is_whole(token) {
                return Err(JoinError::NotAToken { at });
            }
            if at > 0 {
                match self.between(&tokens[at - 1], token, separator) {
                    Some(between) => text.push_str(between)?,
                    None => return Err(JoinError::Inseparable { at: at - 1 }),
                }
            }
            text.push_str(token.slice)?;
        }
        Ok(text)
    }
}
