//! A text is cut by rules, with modes or without.
ghost use Rattle.std.specs.Prelude.{◌≡◌, ◌≤◌, ◌<◌, ◌+◌, ◌*◌, ◌++◌, ◌∷◌, [], ℕ, List, Bool, codes, length, map, Option, Some, true, IfOk, IfErr, IfSome, option_map, slice_get};
ghost use Rattle.std.specs.Str.{chars};
ghost use Rattle.lalrpop_lexer.specs.Rules.{Rules};
ghost use Rattle.bajofeki_rules.specs.EnteredModes.{OneLeadsInto};
ghost use Rattle.bajofeki_rules.specs.Stack.{Stack, actions_of, start};
ghost use Rattle.bajofeki_rules.specs.declared.mode_rule.ModeRule.{ModeRule as RuleValue};
ghost use Rattle.lalrpop_rules.specs.ModeClashes.{IsModesFault};
ghost use Rattle.lalrpop_rules.specs.ModeCut.{ModeCut, uncut, open_in_all, GivesModePiece};
ghost use Rattle.lalrpop_rules.specs.ModeSet.{AreInOneMode, AreModeRules, IsRulesError};
ghost use Rattle.lalrpop_rules.specs.Modes.{ArePiecesFrom, ModeRules, NoModeClash};
ghost use Rattle.lalrpop_rules.specs.Pieces.{AreApart, IsPiece, joined};
ghost use Rattle.lalrpop_rules.specs.RuleSet.{names_of};
ghost use Rattle.lalrpop_rules.specs.declared.piece.Piece.{Piece as PieceValue};

use lalrpop_lexer::lexer::dfa::NfaIndex;
use lalrpop_rules::{Action, ModeRule, Piece, Pieces, Rule, RuleLexer, RulesError, mode_clashes};
use std::alloc::{AllocError, Global};

// Needs lalrpop_rules::RuleLexer::from_rules: rules, modes, no_clash, error.
/// The lexer of rules without modes. It has one mode, INITIAL, and no rule clashes with another.
///
/// # Errors
///
/// What is wrong with the rules.
pub fn lexer_of(alloc: Global, rules: &[Rule]) -> Result<RuleLexer, RulesError>
    ensures mode { IfOk result (λ lexer. lexer.modes ≡ 1) }
    ensures modes { IfOk result (λ lexer. lexer.mode_names ≡ codes "INITIAL" ∷ []) }
    ensures names { IfOk result (λ lexer. lexer.names ≡ names_of rules.now) }
    ensures no_clash { IfOk result NoModeClash }
    ensures error { IfErr result (λ e. (qs : List RuleValue)
        × (AreInOneMode rules.now qs × IsRulesError qs 1 e)) }
{
    RuleLexer::from_rules(alloc, rules)
}

// Needs lalrpop_rules::RuleLexer::pieces: start.
// Needs lalrpop_rules::Pieces::next_piece: gives.
// Needs lalrpop_rules::Pieces::stack: stack.
/// The mode in which a text is read after its first piece.
///
/// # Errors
///
/// `AllocError` if a request for memory was refused.
pub fn mode_after_the_first<'text>(
    lexer: &'text RuleLexer,
    alloc: Global,
    text: &'text str,
) -> Result<usize, AllocError>
    ensures mode { IfOk result (λ mode. (most : ℕ) × ((piece : Option PieceValue) × ((cut : ModeCut)
        × (GivesModePiece (uncut lexer.now text.now most) piece cut
        × (mode ≡ cut.stack.mode))))) }
{
    match lexer.pieces(alloc, text) {
        Ok(mut pieces) => match pieces.next_piece() {
            Ok(_) => Ok(pieces.stack().top()),
            Err(error) => Err(error),
        },
        Err(error) => Err(error),
    }
}

// Needs lalrpop_rules::RuleLexer::pieces: parts.
// Needs lalrpop_rules::Pieces::next_piece: gives.
// Needs lalrpop_rules::Pieces::rest: rest.
// Needs lalrpop_rules::Piece::slice: slice.
/// The first piece's slice and what follows it.
///
/// # Errors
///
/// `AllocError` if a request for memory was refused.
pub fn cut_once<'text>(
    lexer: &'text RuleLexer,
    alloc: Global,
    text: &'text str,
) -> Result<Option<(&'text str, &'text str)>, AllocError>
    ensures parts { IfOk result (λ found. IfSome found (λ m. text.now ≡ m.0.now ++ m.1.now)) }
{
    let mut pieces = lexer.pieces(alloc, text)?;
    match pieces.next_piece() {
        Ok(Some(piece)) => Ok(Some((piece.slice(), pieces.rest()))),
        Ok(None) => Ok(None),
        Err(error) => Err(error),
    }
}

// Needs lalrpop_rules::Piece::start: start.
/// The place of a piece is the one at which it was cut.
pub fn place(piece: &Piece) -> usize
    ensures at { (lexer : Rules) (skips : List Bool) (text : List ℕ) (at : ℕ)
        → IsPiece lexer.trees lexer.precedences skips text at piece.now → result ≡ at }
{
    piece.start()
}

// Needs lalrpop_rules::RuleLexer::pieces: start, cost, exist, no_clash.
/// The text before its first piece. All steps that are counted are within the bound for the whole text. Any text has pieces, whether
/// there is memory for them or not, and no rule clashes with another.
///
/// # Errors
///
/// `AllocError` if a request for memory was refused.
pub fn begin<'text>(
    lexer: &'text RuleLexer,
    alloc: Global,
    text: &'text str,
) -> Result<Pieces<'text>, AllocError>
    ensures rules { IfOk result (λ s. s.rules ≡ lexer.now) }
    ensures cost { IfOk result (λ s. s.steps ≤ 65 * length (chars text.now)
        + (lexer.now.modes * (length (chars text.now) + length text.now)
        + open_in_all lexer.now * (length text.now + 64))) }
    ensures exist { (xs : List PieceValue) × ((end : Stack)
        × ArePiecesFrom lexer.now text.now 0 start xs end) }
    ensures no_clash { NoModeClash lexer.now }
{
    lexer.pieces(alloc, text)
}

// Needs lalrpop_rules::Pieces::next_piece: refused.
/// Whether the next piece was refused memory. Then the text is as it was, and the piece can be asked for again.
pub fn was_refused(pieces: &mut Pieces<'_>) -> bool
    ensures same { result ≡ true → pieces.new ≡ pieces.old }
{
    pieces.next_piece().is_err()
}

// Needs lalrpop_rules::RuleLexer::modes: count, some, within.
/// The number of the last mode. No rule leads into a mode after it.
pub fn last_mode(lexer: &RuleLexer) -> usize
    ensures last { result < lexer.now.modes }
    ensures within { (i m : ℕ) → OneLeadsInto (actions_of lexer.now.actions i) m → m ≤ result }
{
    lexer.modes() - 1
}

// Needs lalrpop_rules::RuleLexer::names: names.
// Needs lalrpop_rules::RuleLexer::skips: skips.
/// How many names the rules have, and how many flags that say whether they are skipped.
pub fn names_and_flags(lexer: &RuleLexer) -> (usize, usize)
    ensures names { result.0 ≡ length lexer.now.names }
    ensures flags { result.1 ≡ length lexer.now.skips }
{
    (lexer.names().len(), lexer.skips().len())
}

// Needs lalrpop_rules::RuleLexer::actions: actions.
// Needs lalrpop_rules::RuleLexer::name: name.
/// The name and the actions of a rule.
pub fn what_it_does(lexer: &RuleLexer, index: NfaIndex) -> (Option<&str>, &[Action])
    ensures name { option_map (λ s. s.now) result.0 ≡ slice_get lexer.now.names index }
    ensures actions { result.1.now ≡ actions_of lexer.now.actions index }
{
    (lexer.name(index), lexer.actions(index))
}

// Needs lalrpop_rules::RuleLexer::pieces: pieces, whole, apart, next, count.
// Needs lalrpop_rules::Pieces::next: ghost next_gives, ghost remaining.
/// How many pieces a text is.
///
/// # Errors
///
/// `AllocError` if a request for memory was refused.
pub fn piece_count<'text>(
    lexer: &'text RuleLexer,
    alloc: Global,
    text: &'text str,
) -> Result<usize, AllocError>
    ensures all { IfOk result (λ n. (xs : List PieceValue) × ((end : Stack)
        × (ArePiecesFrom lexer.now text.now 0 start xs end
        × (joined xs ≡ text.now) × AreApart xs × (n ≡ length xs)))) }
{
    let mut count = 0;
    for piece in lexer.pieces(alloc, text)? {
        match piece {
            Ok(_) => count += 1,
            Err(error) => return Err(error),
        }
    }
    Ok(count)
}

// Needs lalrpop_rules::RuleLexer::with_modes: rules, modes, no_clash, error.
/// The lexer of rules, none of which clashes with another in a mode. It has the modes that were asked for.
///
/// # Errors
///
/// What is wrong with the rules.
pub fn clear_lexer(
    alloc: Global,
    rules: &[ModeRule],
    modes: &[&str],
) -> Result<RuleLexer, RulesError>
    requires some { 0 < length modes.now }
    ensures count { IfOk result (λ lexer. lexer.modes ≡ length modes.now) }
    ensures names { IfOk result (λ lexer. lexer.mode_names ≡ map (λ m. m.now) modes.now) }
    ensures no_clash { IfOk result NoModeClash }
    ensures error { IfErr result (IsRulesError rules.now (length modes.now)) }
{
    RuleLexer::with_modes(alloc, rules, modes)
}

// Needs lalrpop_rules::RuleLexer::mode_names: names, count.
/// The name of a mode.
pub fn name_of_mode(lexer: &RuleLexer, mode: usize) -> &str
    requires there { mode < lexer.now.modes }
    ensures name { slice_get lexer.now.mode_names mode ≡ Some result.now }
{
    lexer.mode_names()[mode].as_str()
}

// Needs lalrpop_rules::mode_clashes: clashes, error.
/// In how many modes clashes are looked for.
///
/// # Errors
///
/// What is wrong with the rules: never a clash.
pub fn modes_with_lists(
    alloc: Global,
    rules: &[ModeRule],
    modes: usize,
) -> Result<usize, RulesError>
    ensures count { IfOk result (λ n. (r : ModeRules)
        × (AreModeRules rules.now modes r × (n ≡ r.modes))) }
    ensures error { IfErr result (IsModesFault rules.now modes) }
{
    let found = mode_clashes(alloc, rules, modes)?;
    Ok(found.len())
}
