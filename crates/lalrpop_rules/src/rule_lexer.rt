//! A lexer of rules with modes.

ghost use Rattle.std.specs.Prelude.{◌≡◌, ◌<◌, ◌≤◌, ◌+◌, ◌*◌, ◌++◌, ◌∷◌, ◌↔◌, [], ℕ, List, codes, length, option_map, slice_get, Some, Ok, map, string_bytes, false, IfOk, OnOk, IfErr, IfSome, IfNone, IsSome, IsTrue};
ghost use Rattle.std.specs.Str.{chars};
ghost use Rattle.lalrpop_rules.specs.Modes.{trees_in, ArePiecesFrom, NoModeClash};
ghost use Rattle.bajofeki_rules.specs.EnteredModes.{OneLeadsInto};
ghost use Rattle.lalrpop_rules.specs.ModeSet.{AreModeRules, AreInOneMode, NamesMode, IsRulesError};
ghost use Rattle.bajofeki_rules.specs.declared.mode_rule.ModeRule.{ModeRule as RuleValue};
ghost use Rattle.lalrpop_rules.specs.ModeCut.{ModeCut, uncut, left_text, open_in_all, GivesModePiece, GivesPieceOrError};
ghost use Rattle.lalrpop_rules.specs.Internal.Cutting.{HasAtMost};
ghost use Rattle.lalrpop_hir.specs.Tokens.{IsToken};
ghost use Rattle.lalrpop_hir.specs.declared.token.Token.{Token as TokenValue};
ghost use Rattle.lalrpop_rules.specs.Found.{IsFound, NothingFound};
ghost use Rattle.lalrpop_rules.specs.Pieces.{AreApart, IsSkipped, joined};
ghost use Rattle.lalrpop_rules.specs.declared.piece.Piece.{Piece as PieceValue};
ghost use Rattle.std.specs.Iterator.{Yields};
ghost use Rattle.bajofeki_rules.specs.Stack.{Stack, start, actions_of};

use crate::cutter::Cutter;
use crate::error::RulesError;
use crate::known_rule::{
    KnownRule, known_rules, name_list, owned_names, precedence_list, skip_list,
};
use crate::lexers::lexers_of;
use crate::missing::all_there;
use crate::mode_kinds::kind_list;
use crate::mode_stack::ModeStack;
use crate::mode_trees::rule_trees;
use crate::one_mode::in_one_mode;
use crate::pieces::Pieces;
use crate::{front, leftmost};
use bajofeki_rules::{Action, ModeRule, Rule};
use lalrpop_lexer::lexer::dfa::{NfaIndex, Precedence};
use lalrpop_lexer::lexer::re::Regex;
use lalrpop_lexer::{Lexer, Token};
use std::alloc::{AllocError, Global};
use std::marker::Model;

/// Named rules with modes, and one lexer for each mode. An index names the same rule in each of them.
///
/// ```
/// use lalrpop_rules::{Action, ModeRule, Rule, RuleLexer};
///
/// let rules = [
///     ModeRule { rule: Rule::literal("OPEN", "/*"), modes: &[0, 1], actions: &[Action::Push(1)] },
///     ModeRule { rule: Rule::literal("CLOSE", "*/"), modes: &[1], actions: &[Action::Pop] },
///     ModeRule { rule: Rule::pattern("REST", "(?s:.)"), modes: &[1], actions: &[] },
///     ModeRule { rule: Rule::pattern("NAME", "[a-z]+"), modes: &[0], actions: &[] },
/// ];
/// let lexer = RuleLexer::with_modes(alloc, &rules, &["CODE", "COMMENT"])?;
/// let mut pieces = lexer.pieces(alloc, "a/*b/*c*/d*/e")?;
/// let first = pieces.next_piece()?; // `Some` of the NAME "a"
/// ```
#[derive(Debug, Drop)]
pub struct RuleLexer {
    names: Vec<String>,
    regexs: Vec<Regex>,
    precedences: Vec<Precedence>,
    skips: Vec<bool>,
    kinds: Vec<usize>,
    known: Vec<KnownRule>,
    mode_names: Vec<String>,
    lexers: Vec<Lexer>,
}

impl Model for RuleLexer {
    ghost use Rattle.std.specs.Prelude.{length, map, string_bytes};
    ghost use Rattle.lalrpop_rules.specs.Modes.{ModeRules};
    ghost use Rattle.lalrpop_rules.specs.Internal.ModeCode.{modes_code};
    ghost use Rattle.lalrpop_rules.specs.Internal.Lexers.{IsWhole};

    ghost Value = { ModeRules };

    ghost coded = { modes_code };

    ghost view = { λ l. record {
      names = map (λ s. string_bytes s) l.names.items;
      trees = l.regexs.items;
      precedences = map (λ p. p.0) l.precedences.items;
      skips = l.skips.items;
      actions = map (λ k. k.actions.items) l.known.items;
      members = map (λ k. k.modes.items) l.known.items;
      kinds = l.kinds.items;
      modes = length l.lexers.items;
      mode_names = map (λ s. string_bytes s) l.mode_names.items;
      automata = map (λ x. x.automaton) l.lexers.items;
    } };

    ghost invariant = { λ l. IsWhole (record {
      names = map (λ s. string_bytes s) l.names.items;
      trees = l.regexs.items;
      precedences = map (λ p. p.0) l.precedences.items;
      skips = l.skips.items;
      actions = map (λ k. k.actions.items) l.known.items;
      members = map (λ k. k.modes.items) l.known.items;
      kinds = l.kinds.items;
      modes = length l.lexers.items;
      mode_names = map (λ s. string_bytes s) l.mode_names.items;
      automata = map (λ x. x.automaton) l.lexers.items;
    }) l.lexers.items };
}

// The actions of the rule with this index.
fn actions_at(known: &[KnownRule], index: usize) -> &[Action]
    ensures actions { result.now ≡ actions_of (map (λ k. k.actions.items) known.now) index }
{
    if index < known.len() {
        return &known[index].actions;
    }
    &[]
}

// The most actions that one of the rules has.
fn most_actions(known: &[KnownRule]) -> usize
    ensures most { HasAtMost result (map (λ k. k.actions.items) known.now) }
{
    let mut most = 0usize;
    for rule in known {
        most = most.max(rule.actions.len());
    }
    most
}

impl RuleLexer {
    /// Builds the lexers of these rules, one for each mode. The names are those of the modes, in order: a rule names a mode by its
    /// place among them. There is one mode at least, in which a text begins.
    ///
    /// Rules with one name, one precedence and the same actions that are both skipped or both not are one kind: they don't
    /// clash with each other, and in each mode a token of one of them is a token of the first that belongs to the mode.
    ///
    /// # Errors
    ///
    /// The first rule that names a mode that isn't there; otherwise the first rule whose text has no tree, and why; otherwise
    /// the first that can't be compiled; otherwise, in the first mode that has one, the shortest, then least, word with
    /// strongest rules of two or more kinds, and the last two of those; or out of memory.
    pub fn with_modes(
        alloc: Global,
        rules: &[ModeRule],
        modes: &[&str],
    ) -> Result<RuleLexer, RulesError>
        requires some { 0 < length modes.now }
        ensures rules { IfOk result (λ lexer.
            AreModeRules rules.now (length modes.now) lexer) }
        ensures modes { IfOk result (λ lexer. lexer.mode_names ≡ map (λ m. m.now) modes.now) }
        ensures there { OnOk result ((i m : ℕ) (q : RuleValue)
            → slice_get rules.now i ≡ Some q → NamesMode q m → m < length modes.now) }
        ensures no_clash { IfOk result NoModeClash }
        ensures error { IfErr result (IsRulesError rules.now (length modes.now)) }
    {
        RuleLexer::build(alloc, rules, modes.len(), modes)
    }

    // The same, where the names are that many.
    fn build(
        alloc: Global,
        rules: &[ModeRule],
        modes: usize,
        names_of_modes: &[&str],
    ) -> Result<RuleLexer, RulesError>
        requires some { 0 < modes }
        requires named { length names_of_modes.now ≡ modes }
        ensures rules { IfOk result (λ lexer. AreModeRules rules.now modes lexer) }
        ensures modes { IfOk result (λ lexer.
            lexer.mode_names ≡ map (λ m. m.now) names_of_modes.now) }
        ensures there { OnOk result ((i m : ℕ) (q : RuleValue)
            → slice_get rules.now i ≡ Some q → NamesMode q m → m < modes) }
        ensures no_clash { IfOk result NoModeClash }
        ensures error { IfErr result (IsRulesError rules.now modes) }
    {
        all_there(rules, modes)?;
        let regexs = rule_trees(alloc, rules)?;
        let names = name_list(alloc, rules)?;
        let precedences = precedence_list(alloc, rules)?;
        let skips = skip_list(alloc, rules)?;
        let known = known_rules(alloc, rules)?;
        let kinds = kind_list(alloc, rules)?;
        let lexers = lexers_of(alloc, &regexs, &precedences, &kinds, &known, modes)?;
        let mode_names = owned_names(alloc, names_of_modes)?;
        Ok(RuleLexer {
            names,
            regexs,
            precedences,
            skips,
            kinds,
            known,
            mode_names,
            lexers,
        })
    }

    /// Builds the lexer of rules without modes: all of them are in mode 0, the only one, INITIAL, and have no actions.
    ///
    /// ```
    /// use lalrpop_rules::{Rule, RuleLexer};
    ///
    /// let rules = [Rule::pattern("NUMBER", "[0-9]+"), Rule::pattern("NUMBER", "[0-9a-f]+h?")];
    /// let lexer = RuleLexer::from_rules(alloc, &rules)?; // all its tokens have the index 0
    /// ```
    ///
    /// # Errors
    ///
    /// As `with_modes`, but never `NoSuchMode`.
    pub fn from_rules(alloc: Global, rules: &[Rule]) -> Result<RuleLexer, RulesError>
        ensures rules { IfOk result (λ lexer. (qs : List RuleValue)
            × (AreInOneMode rules.now qs × AreModeRules qs 1 lexer)) }
        ensures modes { IfOk result (λ lexer. lexer.mode_names ≡ codes "INITIAL" ∷ []) }
        ensures no_clash { IfOk result NoModeClash }
        ensures error { IfErr result (λ e. (qs : List RuleValue)
            × (AreInOneMode rules.now qs × IsRulesError qs 1 e)) }
    {
        let all = in_one_mode(alloc, rules)?;
        RuleLexer::with_modes(alloc, &all, &["INITIAL"])
    }

    /// How many modes there are.
    pub fn modes(&self) -> usize
        ensures count { result ≡ self.now.modes }
        ensures some { 0 < result }
        ensures within { (i m : ℕ) → OneLeadsInto (actions_of self.now.actions i) m
            → m < self.now.modes }
    {
        self.lexers.len()
    }

    /// The names of the modes, in order.
    ///
    /// ```
    /// let mode = lexer.mode_names()[stream.mode()].as_str();
    /// ```
    pub fn mode_names(&self) -> &[String]
        ensures names { map string_bytes result.now ≡ self.now.mode_names }
        ensures count { length result.now ≡ self.now.modes }
    {
        &self.mode_names
    }

    /// For each rule, in order, whether it is skipped.
    pub fn skips(&self) -> &[bool]
        ensures skips { result.now ≡ self.now.skips }
    {
        &self.skips
    }

    /// The names of the rules, in order.
    ///
    /// ```
    /// use lalrpop_rules::{Rule, RuleLexer};
    ///
    /// let lexer = RuleLexer::from_rules(alloc, &[Rule::literal("IF", "if")])?;
    /// let first = &lexer.names()[0]; // "IF"
    /// ```
    pub fn names(&self) -> &[String]
        ensures names { map (λ s. string_bytes s) result.now ≡ self.now.names }
    {
        &self.names
    }

    /// The name of the rule with this index, or `None` if no rule has this index. The rule of a token always has a name.
    pub fn name(&self, index: NfaIndex) -> Option<&str>
        ensures name { option_map (λ s. s.now) result ≡ slice_get self.now.names index }
        ensures token { (mode : ℕ) (text : List ℕ) (at : ℕ) (token : TokenValue)
            → IsToken (trees_in self.now mode) self.now.precedences text at token
            → token.index ≡ index → IsSome result }
    {
        match self.names.get(index.index()) {
            Some(name) => Some(name.as_str()),
            None => None,
        }
    }

    /// The trees of the rules, in order.
    pub fn regexs(&self) -> &[Regex]
        ensures trees { result.now ≡ self.now.trees }
    {
        &self.regexs
    }

    /// The kinds of the rules, in order: a kind is the index of the first rule that is of it.
    pub fn kinds(&self) -> &[usize]
        ensures kinds { result.now ≡ self.now.kinds }
    {
        &self.kinds
    }

    /// The modes that the rule with this index belongs to, or `None` if no rule has this index.
    pub fn modes_of(&self, index: NfaIndex) -> Option<&[usize]>
        ensures modes { option_map (λ modes. modes.now) result ≡ slice_get self.now.members index }
    {
        match self.known.get(index.index()) {
            Some(rule) => Some(rule.modes.as_slice()),
            None => None,
        }
    }

    /// What a token of the rule with this index does to the stack, or no actions if no rule has this index.
    pub fn actions(&self, index: NfaIndex) -> &[Action]
        ensures actions { result.now ≡ actions_of self.now.actions index }
        ensures within { (m : ℕ) → OneLeadsInto result.now m → m < self.now.modes }
    {
        actions_at(&self.known, index.index())
    }

    /// The lexer of a mode. There the first rule of each kind that belongs to the mode has the trees of its kind, and all other
    /// rules match nothing.
    pub fn lexer(&self, mode: usize) -> &Lexer
        requires there { mode < self.now.modes }
        ensures trees { result.now.trees ≡ trees_in self.now mode }
        ensures precedences { result.now.precedences ≡ self.now.precedences }
        ensures automaton { slice_get self.now.automata mode ≡ Some result.now.automaton }
    {
        &self.lexers[mode]
    }

    /// Whether the rule with this index is skipped. If no rule has this index, it isn't.
    pub fn is_skipped(&self, index: NfaIndex) -> bool
        ensures skipped { IsTrue result ↔ IsSkipped self.now.skips index }
    {
        front::is_skipped(&self.skips, index)
    }

    /// The token at the first place of the text where a rule of mode 0 matches, skipped or not: the longest nonempty match there,
    /// with the one rule of the greatest precedence that matches it, which has a name. `None` if no rule of mode 0 matches
    /// anywhere.
    ///
    /// It takes no memory. From each place before the match it reads as far as some rule could still match, so the cost is at most
    /// quadratic in the length of the text.
    ///
    /// ```
    /// use lalrpop_rules::{Rule, RuleLexer};
    ///
    /// let lexer = RuleLexer::from_rules(alloc, &[Rule::pattern("NUMBER", "[0-9]+")])?;
    /// let start = lexer.find("no 12 3").map(|token| token.start); // Some(3)
    /// ```
    pub fn find<'text>(&self, text: &'text str) -> Option<Token<'text>>
        ensures found { IfSome result (λ token.
            IsFound (trees_in self.now 0) self.now.precedences text.now token) }
        ensures none { IfNone result (NothingFound (trees_in self.now 0) text.now) }
        ensures named { IfSome result (λ token. token.index < length self.now.names) }
    {
        // What is known of the lexer.
        let _ = &self.lexers;
        leftmost::find(self.lexer(0), text)
    }

    /// The pieces of any text, from its beginning to its end, each by the rules of the mode that is on top there. A text begins
    /// in mode 0. Where a rule of that mode matches, the piece is the token there, skipped if its rule is, and its rule's
    /// actions are done. Elsewhere it is a fault: the characters up to the next place where a rule of that mode matches, or to
    /// the end of the text.
    ///
    /// This takes time linear in the length of the text, whatever the rules are, however many faults there are and however often
    /// the mode changes. A state of an automaton is open if it neither accepts a pattern nor rejects. A whole text costs at most 65
    /// steps a character; for each mode one a character and one a byte; and for each open state of each mode one a byte and 64
    /// more. A step is counted each time an automaton reads a character.
    ///
    /// This call takes all memory except what the stack needs: for each mode a byte for each open state and each 64 bytes of
    /// the text.
    ///
    /// ```
    /// for piece in lexer.pieces(alloc, text)? {
    ///     match piece {
    ///         Ok(piece) => println!(rt; "{:?}", piece.slice())?,
    ///         Err(error) => return Err(error.into()), // no memory for the stack
    ///     }
    /// }
    /// ```
    ///
    /// # Errors
    ///
    /// `AllocError` if a request for memory was refused.
    pub fn pieces<'text>(
        &'text self,
        alloc: Global,
        text: &'text str,
    ) -> Result<Pieces<'text>, AllocError>
        ensures start { IfOk result (λ c. c ≡ uncut self.now text.now c.steps_left) }
        ensures pieces { IfOk result (λ c. (xs : List PieceValue) (s : ModeCut)
            → Yields GivesModePiece c xs s → left_text s ≡ []
            → ArePiecesFrom self.now text.now 0 start xs s.stack) }
        ensures whole { IfOk result (λ c. (xs : List PieceValue) (s : ModeCut)
            → Yields GivesModePiece c xs s → left_text s ≡ [] → joined xs ≡ text.now) }
        ensures parts { IfOk result (λ c. (xs : List PieceValue) (s : ModeCut)
            → Yields GivesModePiece c xs s → text.now ≡ joined xs ++ left_text s) }
        ensures apart { IfOk result (λ c. (xs : List PieceValue) (s : ModeCut)
            → Yields GivesModePiece c xs s → left_text s ≡ [] → AreApart xs) }
        ensures next { IfOk result (λ c. (xs : List PieceValue) (s : ModeCut)
            → Yields GivesPieceOrError c (map Ok xs) s
            → Yields GivesModePiece c xs s × (s.is_over ≡ false)) }
        ensures count { IfOk result (λ c. (xs : List PieceValue) (s : ModeCut)
            → Yields GivesModePiece c xs s → length xs ≤ length (chars text.now)) }
        ensures cost { IfOk result (λ c. (xs : List PieceValue) (s : ModeCut)
            → Yields GivesModePiece c xs s → s.steps ≤ 65 * length (chars text.now)
            + (self.now.modes * (length (chars text.now) + length text.now)
            + open_in_all self.now * (length text.now + 64))) }
        ensures exist { (xs : List PieceValue) × ((end : Stack)
            × ArePiecesFrom self.now text.now 0 start xs end) }
        ensures no_clash { NoModeClash self.now }
    {
        // What is known of the lexer.
        let _ = &self.lexers;
        match Cutter::new(alloc, self, text) {
            Ok(cutter) => {
                let most = most_actions(&self.known);
                Ok(Pieces::new(cutter, ModeStack::new(alloc), most))
            }
            Err(error) => Err(error),
        }
    }
}
