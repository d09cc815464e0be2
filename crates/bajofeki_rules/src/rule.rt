//! A rule.

ghost use Rattle.std.specs.Prelude.{◌≡◌, true, false};
ghost use Rattle.bajofeki_rules.specs.RuleText.{IsLiteral, IsEscaped, IsAnyCase, IsPattern, IsPatternWith, IsBetween};

use crate::rule_text::RuleText;
use lalrpop_hir::Precedence;
use lalrpop_re::Part;

/// A named rule.
///
/// ```
/// use bajofeki_rules::Rule;
///
/// let rules = [
///     Rule::literal("LET", "let"),
///     Rule::pattern("NAME", "[a-z]+"),
///     Rule::from_to("COMMENT", "/*", "*/").skipped(),
///     Rule::pattern("SPACE", r"\s+").skipped(),
/// ];
/// ```
#[derive(Clone, Copy, Debug)]
pub struct Rule<'text> {
    /// What its tokens are called.
    pub name: &'text str,
    /// What its tokens are.
    pub text: RuleText<'text>,
    /// Of two rules that match the same longest text, the one with the greater precedence wins.
    pub precedence: Precedence,
    /// Whether its tokens are skipped.
    pub is_skipped: bool,
}

impl<'text> Rule<'text> {
    /// A literal. Its precedence is 1, and it isn't skipped.
    pub fn literal(name: &'text str, text: &'text str) -> Rule<'text>
        ensures name { result.name.now ≡ name.now }
        ensures text { IsLiteral result.text text.now }
        ensures precedence { result.precedence.0 ≡ 1 }
        ensures kept { result.is_skipped ≡ false }
    {
        Rule {
            name,
            text: RuleText::Literal(text),
            precedence: Precedence(1),
            is_skipped: false,
        }
    }

    /// A literal in which the escapes of patterns stand for their characters. Its precedence is 1, and it isn't skipped.
    ///
    /// ```
    /// use bajofeki_rules::Rule;
    ///
    /// let line_feed = Rule::escaped("LINE_FEED", r"\n");
    /// ```
    pub fn escaped(name: &'text str, text: &'text str) -> Rule<'text>
        ensures name { result.name.now ≡ name.now }
        ensures text { IsEscaped result.text text.now }
        ensures precedence { result.precedence.0 ≡ 1 }
        ensures kept { result.is_skipped ≡ false }
    {
        Rule {
            name,
            text: RuleText::Escaped(text),
            precedence: Precedence(1),
            is_skipped: false,
        }
    }

    /// A literal in any case. Its precedence is 1, and it isn't skipped.
    ///
    /// ```
    /// use bajofeki_rules::Rule;
    ///
    /// let select = Rule::any_case("SELECT", "select"); // also SELECT and Select
    /// ```
    pub fn any_case(name: &'text str, text: &'text str) -> Rule<'text>
        ensures name { result.name.now ≡ name.now }
        ensures text { IsAnyCase result.text text.now }
        ensures precedence { result.precedence.0 ≡ 1 }
        ensures kept { result.is_skipped ≡ false }
    {
        Rule {
            name,
            text: RuleText::AnyCase(text),
            precedence: Precedence(1),
            is_skipped: false,
        }
    }

    /// A pattern. Its precedence is 0, and it isn't skipped.
    pub fn pattern(name: &'text str, text: &'text str) -> Rule<'text>
        ensures name { result.name.now ≡ name.now }
        ensures text { IsPattern result.text text.now }
        ensures precedence { result.precedence.0 ≡ 0 }
        ensures kept { result.is_skipped ≡ false }
    {
        Rule {
            name,
            text: RuleText::Pattern(text),
            precedence: Precedence(0),
            is_skipped: false,
        }
    }

    /// A pattern in which `{NAME}` stands for the first of the parts with this name. Its precedence is 0, and it isn't skipped.
    pub fn pattern_with(name: &'text str, text: &'text str, parts: &'text [Part]) -> Rule<'text>
        ensures name { result.name.now ≡ name.now }
        ensures text { IsPatternWith result.text text.now parts.now }
        ensures precedence { result.precedence.0 ≡ 0 }
        ensures kept { result.is_skipped ≡ false }
    {
        Rule {
            name,
            text: RuleText::PatternWith { text, parts },
            precedence: Precedence(0),
            is_skipped: false,
        }
    }

    /// The words that begin with `from` and end with the first `to` after it. Its precedence is 0, and it isn't skipped.
    ///
    /// ```
    /// use bajofeki_rules::Rule;
    ///
    /// let comment = Rule::from_to("COMMENT", "/*", "*/");
    /// ```
    pub fn from_to(name: &'text str, from: &'text str, to: &'text str) -> Rule<'text>
        ensures name { result.name.now ≡ name.now }
        ensures text { IsBetween result.text from.now to.now }
        ensures precedence { result.precedence.0 ≡ 0 }
        ensures kept { result.is_skipped ≡ false }
    {
        Rule {
            name,
            text: RuleText::FromTo { from, to },
            precedence: Precedence(0),
            is_skipped: false,
        }
    }

    /// The same rule with this precedence.
    pub fn with_precedence(self, precedence: usize) -> Rule<'text>
        ensures rule { result ≡ record self.entry { precedence = record { 0 = precedence } } }
    {
        Rule {
            name: self.name,
            text: self.text,
            precedence: Precedence(precedence),
            is_skipped: self.is_skipped,
        }
    }

    /// The same rule, with its tokens skipped.
    pub fn skipped(self) -> Rule<'text>
        ensures rule { result ≡ record self.entry { is_skipped = true } }
    {
        Rule {
            name: self.name,
            text: self.text,
            precedence: self.precedence,
            is_skipped: true,
        }
    }
}
