//! Named rules, and what a lexer of them tells.
ghost use Rattle.std.specs.Prelude.{◌≡◌, ◌<◌, ◌↔◌, ℕ, true, false, IfErr, IfSome, IsSome, IsTrue, option_map, slice_get, Some};
ghost use Rattle.std.specs.Option.{option_copied};
ghost use Rattle.std.specs.Str.{chars};
ghost use Rattle.lalrpop_hir.specs.Tokens.{IsToken};
ghost use Rattle.lalrpop_hir.specs.Tree.{Tree};
ghost use Rattle.lalrpop_lexer.specs.Parts.{of_text};
ghost use Rattle.lalrpop_lexer.specs.Pattern.{Pattern};
ghost use Rattle.lalrpop_rules.specs.Modes.{trees_in};
ghost use Rattle.lalrpop_rules.specs.Pieces.{IsSkipped};
ghost use Rattle.lalrpop_rules.specs.TextTrees.{HasTree, IsFromToTree};

use lalrpop_lexer::Token;
use lalrpop_lexer::lexer::dfa::NfaIndex;
use lalrpop_lexer::lexer::re::Regex;
use lalrpop_rules::{Rule, RuleLexer, RulesError};
use std::alloc::Global;

// Needs lalrpop_rules::Rule::literal: name, text, precedence, kept.
/// The rule of a keyword spells the tree of its text, and is stronger than a name.
pub fn keyword<'text>(name: &'text str, text: &'text str) -> Rule<'text>
    ensures spells { (t : Tree) → HasTree result.text t → t ≡ of_text text.now }
    ensures name { result.name.now ≡ name.now }
    ensures strong { result.precedence.0 ≡ 1 }
    ensures kept { result.is_skipped ≡ false }
{
    Rule::literal(name, text)
}

// Needs lalrpop_rules::Rule::pattern: name, text, precedence, kept.
/// The rule of a pattern spells the trees of the pattern.
pub fn names<'text>(name: &'text str, text: &'text str) -> Rule<'text>
    ensures spells { (t : Tree) → HasTree result.text t → Pattern (chars text.now) t }
    ensures name { result.name.now ≡ name.now }
    ensures weak { result.precedence.0 ≡ 0 }
    ensures kept { result.is_skipped ≡ false }
{
    Rule::pattern(name, text)
}

// Needs lalrpop_rules::Rule::from_to: name, text, precedence, kept.
/// A rule of what is from a beginning to an end has the tree of that.
pub fn comments<'text>(name: &'text str, from: &'text str, to: &'text str) -> Rule<'text>
    ensures between { (t : Tree) → HasTree result.text t → IsFromToTree from.now to.now t }
    ensures name { result.name.now ≡ name.now }
    ensures weak { result.precedence.0 ≡ 0 }
    ensures kept { result.is_skipped ≡ false }
{
    Rule::from_to(name, from, to)
}

// Needs lalrpop_rules::Rule::skipped: rule.
// Needs lalrpop_rules::Rule::with_precedence: rule.
/// A rule that is skipped where it matches, and wins over the others that match as much.
pub fn skipped_first(rule: Rule) -> Rule
    ensures skipped { result.is_skipped ≡ true }
    ensures strong { result.precedence.0 ≡ 1000 }
    ensures same { result.text ≡ rule.entry.text }
{
    rule.with_precedence(1000).skipped()
}

// Needs lalrpop_rules::RuleLexer::name: name, token.
/// The name of a token's rule.
pub fn name_of<'rules>(lexer: &'rules RuleLexer, text: &str, token: Token) -> Option<&'rules str>
    ensures some { (mode : ℕ) → IsToken (trees_in lexer.now mode) lexer.now.precedences
        text.now token.entry.start token.entry → IsSome result }
    ensures name { IfSome result (λ name.
        slice_get lexer.now.names token.entry.index ≡ Some name.now) }
{
    lexer.name(token.index)
}

// Needs lalrpop_rules::RuleLexer::is_skipped: skipped.
/// Whether tokens of the rule are handed to a parser.
pub fn is_kept(lexer: &RuleLexer, index: NfaIndex) -> bool
    ensures kept { IsTrue result ↔ ¬ IsSkipped lexer.now.skips index }
{
    !lexer.is_skipped(index)
}

// Needs lalrpop_rules::RuleLexer::regexs: trees.
// Needs lalrpop_rules::RuleLexer::kinds: kinds.
/// The tree of the rule with this number, if there is one, and the first rule of its kind.
pub fn tree_and_kind(lexer: &RuleLexer, number: usize) -> (Option<&Regex>, Option<usize>)
    ensures tree { option_copied result.0 ≡ slice_get lexer.now.trees number }
    ensures kind { result.1 ≡ slice_get lexer.now.kinds number }
{
    let kind = lexer.kinds().get(number).copied();
    (lexer.regexs().get(number), kind)
}

// Needs lalrpop_rules::RuleLexer::modes_of: modes.
/// The modes of a rule.
pub fn modes_of(lexer: &RuleLexer, index: NfaIndex) -> Option<&[usize]>
    ensures modes { option_map (λ modes. modes.now) result ≡ slice_get lexer.now.members index }
{
    lexer.modes_of(index)
}

// Needs lalrpop_rules::RuleLexer::lexer: trees, precedences.
/// The token at the front of a text that is in this mode.
pub fn token_in<'text>(lexer: &RuleLexer, mode: usize, text: &'text str) -> Option<Token<'text>>
    requires there { mode < lexer.now.modes }
    ensures token { IfSome result (λ token.
        IsToken (trees_in lexer.now mode) lexer.now.precedences text.now 0 token) }
{
    lexer.lexer(mode).token(text)
}

// Needs lalrpop_rules::RulesError::from: ghost from_gives.
/// A flag in a list of its own.
///
/// # Errors
///
/// Out of memory.
pub fn one_flag(alloc: Global, flag: bool) -> Result<Vec<bool>, RulesError>
    ensures memory { IfErr result (λ e. e ≡ RulesError.OutOfMemory) }
{
    let mut flags = Vec::with_capacity(alloc, 1)?;
    flags.push(flag)?;
    Ok(flags)
}
