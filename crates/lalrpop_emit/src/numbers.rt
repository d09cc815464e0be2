//! A lexer in numbers.
ghost use Rattle.std.specs.Prelude.{◌≡◌, ◌<◌, ◌^◌, Bool, IsTrue, List, length, map, take, string_bytes, IfOk, IfErr, OnOk};
ghost use Rattle.std.specs.List.{All};
ghost use Rattle.lalrpop_rules.specs.declared.piece.Piece.{Piece};
ghost use Rattle.lalrpop_rules.specs.Modes.{ModeRules, ArePiecesFrom};
ghost use Rattle.bajofeki_rules.specs.Stack.{Stack, start};
ghost use Rattle.lalrpop_emit.specs.BytePieces.{AreBytePieces, numbered};
ghost use Rattle.lalrpop_emit.specs.EmitErrors.{CanBeNumbered, IsNumbersError};
ghost use Rattle.lalrpop_emit.specs.Names.{IsName};
ghost use Rattle.lalrpop_emit.specs.NumberedRules.{AreNumbersOf, IsStorable};
ghost use Rattle.lalrpop_emit.specs.Internal.Lists.{ahead_numbers, list_numbers};
ghost use Rattle.lalrpop_emit.specs.declared.numbered_piece.NumberedPiece.{NumberedPiece};

use crate::action_lists::action_lists;
use crate::ahead_table::AheadLists;
use crate::byte_pieces::{BytePieces, all_pieces};
use crate::error::EmitError;
use crate::naming::{distinct_names, first_bad_name, kind_list};
use crate::table_lists::{TableLists, mode_tables};
use lalrpop_rules::RuleLexer;
use std::alloc::{AllocError, Global};
use std::marker::Model;

/// A lexer in numbers: the distinct names of its rules; for each rule its kind, which is the number of its name, whether it is
/// skipped, and where its actions begin; the actions of all rules; the table of each mode; and for each mode the one that runs
/// ahead.
///
/// ```
/// use lalrpop_emit::LexerNumbers;
///
/// let numbers = LexerNumbers::new(alloc, &rules)?;
/// ```
#[derive(Debug, Drop)]
pub struct LexerNumbers {
    pub(crate) names: Vec<String>,
    pub(crate) kinds: Vec<u32>,
    pub(crate) skips: Vec<bool>,
    pub(crate) first_actions: Vec<u32>,
    pub(crate) actions: Vec<u32>,
    pub(crate) tables: Vec<TableLists>,
    pub(crate) ahead: Vec<AheadLists>,
}

impl Model for LexerNumbers {
    ghost use Rattle.std.specs.Prelude.{map, string_bytes};
    ghost use Rattle.lalrpop_emit.specs.NumberedRules.{NumberedRules, IsStorable};
    ghost use Rattle.lalrpop_emit.specs.Internal.Lists.{ahead_numbers, list_numbers};
    ghost use Rattle.lalrpop_emit.specs.Internal.Walking.{IsDrivable};

    ghost Value = { NumberedRules };

    ghost view = { λ n. record {
      names = map (λ s. string_bytes s) n.names.items;
      kinds = n.kinds.items;
      skips = n.skips.items;
      first_actions = n.first_actions.items;
      actions = n.actions.items;
      tables = map list_numbers n.tables.items;
      ahead = map ahead_numbers n.ahead.items;
    } };

    ghost invariant = { λ n. IsStorable (record {
      names = map (λ s. string_bytes s) n.names.items;
      kinds = n.kinds.items;
      skips = n.skips.items;
      first_actions = n.first_actions.items;
      actions = n.actions.items;
      tables = map list_numbers n.tables.items;
      ahead = map ahead_numbers n.ahead.items;
    })
        × IsDrivable (record {
          names = map (λ s. string_bytes s) n.names.items;
          kinds = n.kinds.items;
          skips = n.skips.items;
          first_actions = n.first_actions.items;
          actions = n.actions.items;
          tables = map list_numbers n.tables.items;
          ahead = map ahead_numbers n.ahead.items;
        }) };
}

impl LexerNumbers {
    /// The numbers of the rules of a lexer and of their modes. A token has the number of its rule's name, whatever else the rule says.
    ///
    /// # Errors
    ///
    /// There are no rules, or 65,536 rules or modes or more; more or fewer skips than names; a name that isn't made of ASCII
    /// letters, digits and `_`; a pattern without a name; a mode whose automaton is too large for a table; too many actions; or
    /// out of memory.
    pub fn new(alloc: Global, rules: &RuleLexer) -> Result<LexerNumbers, EmitError>
        ensures numbers { IfOk result (AreNumbersOf rules.now) }
        ensures storable { IfOk result IsStorable }
        ensures as_many { OnOk result (length rules.now.skips ≡ length rules.now.names) }
        ensures exact { OnOk result (CanBeNumbered rules.now) }
        ensures error { IfErr result (IsNumbersError rules.now) }
    {
        check_rules(rules)?;
        let made = mode_tables(alloc, rules)?;
        let names = distinct_names(alloc, rules.names())?;
        let kinds = kind_list(alloc, &names, rules.names())?;
        let skips = rules.skips().iter().copied().collect(alloc)?;
        let lists = action_lists(alloc, rules)?;
        Ok(LexerNumbers {
            names,
            kinds,
            skips,
            first_actions: lists.first_places,
            actions: lists.numbers,
            tables: made.tables,
            ahead: made.aheads,
        })
    }

    /// The pieces of the text, one after another, as calls of an emitted lexer's `next` give them: each is a token, skipped or
    /// not, or a fault, which is bytes at none of which a rule of the mode on top matches. On a UTF-8 text they are the pieces
    /// that the rules give, in numbers.
    ///
    /// The text may be any bytes; what isn't UTF-8 matches nothing. The pieces end before the text does where the next token
    /// would put a mode on top of more than 1024 others.
    ///
    /// ```
    /// use lalrpop_emit::LexerNumbers;
    ///
    /// let numbers = LexerNumbers::new(alloc, &rules)?;
    /// let all = numbers.pieces(alloc, b"let \xFF")?; // the pieces of `let`, of a space, and of a fault of one byte
    /// ```
    ///
    /// # Errors
    ///
    /// `AllocError` if a request for memory was refused.
    pub fn pieces(&self, alloc: Global, text: &[u8]) -> Result<BytePieces, AllocError>
        ensures pieces { IfOk result (λ all. (r : ModeRules) → AreNumbersOf r self.now
            → AreBytePieces r self.now.kinds 1024 text.now all.pieces.items all.is_whole) }
        ensures only { IfOk result (λ all. (r : ModeRules) → AreNumbersOf r self.now
            → (others : List NumberedPiece) (is_whole : Bool)
            → AreBytePieces r self.now.kinds 1024 text.now others is_whole
            → (others ≡ all.pieces.items) × (is_whole ≡ all.is_whole)) }
        ensures of_rules { IfOk result (λ all. (r : ModeRules) → AreNumbersOf r self.now
            → (xs : List Piece) (end : Stack) → ArePiecesFrom r text.now 0 start xs end
            → all.pieces.items
            ≡ map (numbered self.now.kinds) (take (length all.pieces.items) xs)) }
        ensures whole { IfOk result (λ all. (r : ModeRules) → AreNumbersOf r self.now
            → (xs : List Piece) (end : Stack) → ArePiecesFrom r text.now 0 start xs end
            → IsTrue all.is_whole → length all.pieces.items ≡ length xs) }
    {
        all_pieces(alloc, self, text)
    }

    pub(crate) fn names(&self) -> &[String]
        ensures { map (λ s. string_bytes s) result.now ≡ self.now.names }
    {
        &self.names
    }

    pub(crate) fn kinds(&self) -> &[u32]
        ensures { result.now ≡ self.now.kinds }
    {
        &self.kinds
    }

    pub(crate) fn skips(&self) -> &[bool]
        ensures { result.now ≡ self.now.skips }
    {
        &self.skips
    }

    pub(crate) fn first_actions(&self) -> &[u32]
        ensures { result.now ≡ self.now.first_actions }
    {
        &self.first_actions
    }

    pub(crate) fn actions(&self) -> &[u32]
        ensures { result.now ≡ self.now.actions }
    {
        &self.actions
    }

    pub(crate) fn tables(&self) -> &[TableLists]
        ensures table { map list_numbers result.now ≡ self.now.tables }
        ensures storable { IsStorable self.now }
    {
        &self.tables
    }

    pub(crate) fn ahead(&self) -> &[AheadLists]
        ensures { map ahead_numbers result.now ≡ self.now.ahead }
    {
        &self.ahead
    }
}

// There are rules, not too many, each with a skip and a name that can be part of an identifier, and modes, not too many.
fn check_rules(rules: &RuleLexer) -> Result<(), EmitError>
    ensures some { OnOk result (0 < length rules.now.names) }
    ensures few { OnOk result (length rules.now.names < 2 ^ 16) }
    ensures modes { OnOk result ((0 < rules.now.modes) × (rules.now.modes < 2 ^ 16)) }
    ensures names { OnOk result (All IsName rules.now.names) }
    ensures skips { OnOk result (length rules.now.skips ≡ length rules.now.names) }
    ensures error { IfErr result (IsNumbersError rules.now) }
{
    let names = rules.names();
    if names.is_empty() {
        return Err(EmitError::NoRules);
    }
    if names.len() >= 65536 {
        return Err(EmitError::TooManyRules);
    }
    if rules.modes() >= 65536 {
        return Err(EmitError::TooManyModes);
    }
    if rules.skips().len() != names.len() {
        return Err(EmitError::SkipCount);
    }
    match first_bad_name(names) {
        Some(rule) => Err(EmitError::BadName { rule }),
        None => Ok(()),
    }
}
