//! The text of a rule.

use lalrpop_re::Part;

/// The text of a rule: a literal, as it is, with escapes or in any case; a pattern; or a beginning and an end.
///
/// ```
/// use bajofeki_rules::RuleText;
///
/// let comment = RuleText::FromTo { from: "/*", to: "*/" };
/// let select = RuleText::AnyCase("select"); // also SELECT and Select
/// let line_feed = RuleText::Escaped(r"\n");
/// ```
#[derive(Clone, Copy, Debug)]
pub enum RuleText<'text> {
    /// This text as it is: no character has a special meaning.
    Literal(&'text str),
    /// This text, in which the escapes of patterns stand for their characters: `\n`, `\\`, `\"`, `\x41`, `\u{41}`. All other
    /// characters stand for themselves.
    Escaped(&'text str),
    /// This text in any case: each of its characters matches as it does in a pattern under the flag `i`.
    AnyCase(&'text str),
    /// What this pattern matches.
    Pattern(&'text str),
    /// What this pattern matches, in which `{NAME}` stands for the first of the parts with this name.
    PatternWith {
        text: &'text str,
        parts: &'text [Part],
    },
    /// The words that begin with `from` and end with the first `to` after it. `from` may be empty; `to` has 1 to 64 characters.
    FromTo {
        from: &'text str,
        to: &'text str,
    },
}
