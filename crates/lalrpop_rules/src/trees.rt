//! The trees of the texts of rules.
ghost use Rattle.std.specs.Prelude.{◌≡◌, IfOk, IfErr};
ghost use Rattle.lalrpop_hir.specs.Report.{NoFault};
ghost use Rattle.lalrpop_rules.specs.RuleSet.{AreTrees, IsTextError};
ghost use Rattle.lalrpop_rules.specs.TextTrees.{HasTree, IsEscapedTree};
ghost use Rattle.lalrpop_rules.specs.Internal.TextFaults.{IsEscapeFault, IsTextFault, of_end, of_syntax};

use crate::faults::all_compile;
use crate::text_error::TextError;
use bajofeki_rules::{Rule, RuleText};
use lalrpop_lexer::lexer::re::{
    Regex, RegexError, parse_any_case, parse_literal, parse_regex, parse_with, unescape,
};
use lalrpop_re::{FromToError, from_to};
use std::alloc::Global;

// The error of rule `rule` for an error of its pattern or its escapes.
fn syntax_error(rule: usize, error: RegexError) -> TextError
    ensures same { result ≡ of_syntax rule error }
{
    match error {
        RegexError::Syntax { position, kind } => TextError::NotParsed {
            rule,
            position,
            kind,
        },
        RegexError::OutOfMemory => TextError::OutOfMemory,
    }
}

// The error of rule `rule` for an error of its end.
fn end_error(rule: usize, error: FromToError) -> TextError
    ensures same { result ≡ of_end rule error }
{
    match error {
        FromToError::OutOfMemory => TextError::OutOfMemory,
        error => TextError::BadEnd { rule, error },
    }
}

// The tree of a literal with escapes.
fn escaped_tree(alloc: Global, text: &str) -> Result<Regex, RegexError>
    ensures tree { IfOk result (λ t. IsEscapedTree text.now t) }
    ensures error { IfErr result (λ e. IsEscapeFault text.now e) }
{
    let literal = unescape(alloc, text)?;
    parse_literal(alloc, literal.as_str())
}

// The tree of the text of rule `rule`.
fn tree_of(alloc: Global, rule: usize, text: RuleText) -> Result<Regex, TextError>
    ensures tree { IfOk result (λ t. HasTree text.entry t) }
    ensures error { IfErr result (λ e. IsTextFault rule text.entry e) }
{
    match text {
        RuleText::Literal(text) => match parse_literal(alloc, text) {
            Ok(tree) => Ok(tree),
            Err(error) => Err(syntax_error(rule, error)),
        },
        RuleText::Escaped(text) => match escaped_tree(alloc, text) {
            Ok(tree) => Ok(tree),
            Err(error) => Err(syntax_error(rule, error)),
        },
        RuleText::AnyCase(text) => match parse_any_case(alloc, text) {
            Ok(tree) => Ok(tree),
            Err(error) => Err(syntax_error(rule, error)),
        },
        RuleText::Pattern(text) => match parse_regex(alloc, text) {
            Ok(tree) => Ok(tree),
            Err(error) => Err(syntax_error(rule, error)),
        },
        RuleText::PatternWith { text, parts } => match parse_with(alloc, text, parts) {
            Ok(tree) => Ok(tree),
            Err(error) => Err(syntax_error(rule, error)),
        },
        RuleText::FromTo { from, to } => match from_to(alloc, from, to) {
            Ok(tree) => Ok(tree),
            Err(error) => Err(end_error(rule, error)),
        },
    }
}

// The tree of each rule's text, or the first text that has none.
fn text_trees(alloc: Global, rules: &[Rule]) -> Result<Vec<Regex>, TextError>
    ensures trees { IfOk result (λ trees. AreTrees rules.now trees.items) }
    ensures error { IfErr result (λ e. IsTextError rules.now e) }
{
    let mut trees = Vec::new(alloc);
    for index in 0..rules.len() {
        let tree = tree_of(alloc, index, rules[index].text)?;
        trees.push(tree)?;
    }
    Ok(trees)
}

/// The tree of each rule's text, in the order of the rules. All of them can be compiled.
///
/// # Errors
///
/// The first rule whose text has no tree, and why: its pattern or an escape does not parse, or its end is empty or has more than 64
/// characters; otherwise the first that can't be compiled; or out of memory.
pub(crate) fn trees_of(alloc: Global, rules: &[Rule]) -> Result<Vec<Regex>, TextError>
    ensures trees { IfOk result (λ trees. AreTrees rules.now trees.items) }
    ensures no_fault { IfOk result (λ trees. NoFault trees.items) }
    ensures error { IfErr result (λ e. IsTextError rules.now e) }
{
    let trees = text_trees(alloc, rules)?;
    all_compile(alloc, &trees)?;
    Ok(trees)
}
