//! A whole file.
ghost use Rattle.std.specs.Prelude.{◌≡◌, ◌<◌, ℕ, length, map, take, slice_get, Some, IfOk, IfErr};
ghost use Rattle.bajofeki_rules.specs.Lines.{lines};
ghost use Rattle.lalrpop_rule_file.specs.PartLines.{ArePartLines};
ghost use Rattle.lalrpop_rule_file.specs.RuleFile.{AreFileParts, AreModeRules, AreRules, ArePlaces, HasParts, IsModeRule, IsRuleFileError, NamesMode, without_mark as without_mark_of};
ghost use Rattle.lalrpop_rule_file.specs.declared.file_rule.FileRule.{FileRule as FileRuleValue};

use crate::error::RuleFileError;
use crate::file_rule::FileRule;
use crate::modes::modes_of_lines;
use crate::part_line::PartLine;
use crate::parts::parts_of_lines;
use crate::rules::rules_of_lines;
use bajofeki_rules::{ModeRule, Rule, RuleText};
use lalrpop_re::Part;
use std::alloc::{AllocError, Global};

/// The modes, the parts and the rules of a file.
///
/// ```
/// use lalrpop_rules::RuleLexer;
/// use lalrpop_rule_file::read_rules;
///
/// let file = read_rules(alloc, b"OPEN push C = '/*'\nNAME = /[a-z]+/\n[C]\nCLOSE pop = '*/'\n")?;
/// let rules = file.mode_rules(alloc)?;
/// let lexer = RuleLexer::with_modes(alloc, &rules, &file.modes)?;
/// let place = file.rules[1].place; // line 2, column 9
/// ```
#[derive(Debug, Drop)]
pub struct RuleFile<'text> {
    /// The names of the modes, in the order in which they first appear. A text begins in the first.
    pub modes: Vec<&'text str>,
    /// The parts, in the order of their lines.
    pub parts: Vec<Part>,
    /// The parts as they are written, in the same order.
    pub part_lines: Vec<PartLine<'text>>,
    /// The rules, in the order of their lines.
    pub rules: Vec<FileRule<'text>>,
}

// The text of a rule that knows these parts. A pattern has them also if there are none: then `{NAME}` is refused as a name that
// no part has.
fn text_with<'text>(text: RuleText<'text>, parts: &'text [Part]) -> RuleText<'text>
    ensures { HasParts parts.now text.entry result }
{
    match text {
        RuleText::Pattern(pattern) => RuleText::PatternWith {
            text: pattern,
            parts,
        },
        RuleText::Literal(_)
        | RuleText::Escaped(_)
        | RuleText::AnyCase(_)
        | RuleText::PatternWith { .. }
        | RuleText::FromTo { .. } => text,
    }
}

// The first `count` of these parts, or all if there are fewer.
fn first_parts(parts: &[Part], count: usize) -> &[Part]
    ensures { result.now ≡ take count parts.now }
{
    &parts[..count.min(parts.len())]
}

// The rule with as many of these parts as it knows.
fn mode_rule<'file>(rule: &'file FileRule<'_>, parts: &'file [Part]) -> ModeRule<'file>
    ensures rule { IsModeRule parts.now rule.now result }
    ensures modes { result.modes.now ≡ rule.now.modes.items }
    ensures actions { result.actions.now ≡ rule.now.actions.items }
{
    ModeRule {
        rule: Rule {
            name: rule.rule.name,
            text: text_with(rule.rule.text, first_parts(parts, rule.known)),
            precedence: rule.rule.precedence,
            is_skipped: rule.rule.is_skipped,
        },
        modes: &rule.modes,
        actions: &rule.actions,
    }
}

impl<'text> RuleFile<'text> {
    /// The rules as `RuleLexer::with_modes` takes them, with the modes `file.modes`. A pattern has the parts that stand above
    /// its line.
    ///
    /// # Errors
    ///
    /// `AllocError` if a request for memory was refused.
    pub fn mode_rules(&self, alloc: Global) -> Result<Vec<ModeRule<'_>>, AllocError>
        ensures rules { IfOk result (λ all.
            AreModeRules self.now.parts.items self.now.rules.items all.items) }
        ensures names { IfOk result (λ all.
            map (λ m. m.rule.name.now) all.items
            ≡ map (λ r. r.rule.name.now) self.now.rules.items) }
        ensures modes { IfOk result (λ all.
            map (λ r. r.modes.now) all.items ≡ map (λ r. r.modes.items) self.now.rules.items) }
        ensures actions { IfOk result (λ all.
            map (λ r. r.actions.now) all.items ≡ map (λ r. r.actions.items) self.now.rules.items) }
    {
        let mut all = Vec::new(alloc);
        for rule in &self.rules {
            all.push(mode_rule(rule, &self.parts))?;
        }
        Ok(all)
    }
}

/// The bytes of a file without the byte order mark, EF BB BF, at their beginning, if there is one.
///
/// `read_rules` reads these bytes. To show a line that it names, take the line from them too, so that the column matches.
pub fn without_mark(bytes: &[u8]) -> &[u8]
    ensures { result.now ≡ without_mark_of bytes.now }
{
    match bytes.strip_prefix(b"\xef\xbb\xbf") {
        Some(rest) => rest,
        None => bytes,
    }
}

/// The modes, the parts and the rules of a file, in the order of their lines. Rules borrow names and texts from its bytes.
///
/// A line is a rule, `NAME [skip] {mode M | push M | pop} = [PRECEDENCE] TEXT`, or a part, `NAME part = /PATTERN/`, or begins a
/// section: `[A B]` with the rules of the modes A and B, or `[*]` with rules of every mode of the file, also of those that are
/// named further down. The text of a rule is `'LITERAL'`, `"LITERAL"`, `/PATTERN/`, `anycase 'LITERAL'` or `from 'A' to 'B'`.
///
/// The file is UTF-8. A byte order mark at its beginning is left out. A line ends at a line feed, which the last may lack; a
/// carriage return at its end isn't part of it, and stands nowhere else. Blank lines say nothing, and neither do comments: lines of their own that begin
/// with `#`. Spaces and tabs may surround the parts of a line. A name is an ASCII letter or `_`, followed by ASCII letters,
/// digits and `_`; several rules may share one name. `skip`, `mode`, `push`, `pop`, `part`, `anycase` and `from` are words only
/// in their places: a rule, a part or a mode may be called so. A precedence is 1 to 20 decimal digits whose value fits 64 bits;
/// if there is none, it is 1 for literals and 0 for other texts.
///
/// Rules above the first section belong to the mode INITIAL. The modes are numbered in the order in which they first appear:
/// a section names its modes, and a rule above the first section names INITIAL. If nothing names a mode, INITIAL is the only
/// one.
///
/// The text ends at the last delimiter of the line, so it may contain delimiters too, and no comment stands after it:
/// `A = 'x' # 'y'` is the literal `x' # 'y`. In `"LITERAL"` the escapes of patterns stand for their characters: `"\n"` is a
/// line feed, and `"\\"` a backslash. Between apostrophes nothing is escaped. `anycase 'LITERAL'` is the literal in any case:
/// after `SELECT = anycase 'select'` also `Select` is a SELECT. In `from 'A' to 'B'`, A ends at the first `' to '`, where one
/// blank or more stands before `to` and any number after it; A may be empty.
///
/// In the patterns of the lines below it, rules and parts, `{NAME}` stands for a part, as `parse_with` says: outside brackets,
/// where no flag is on. No two parts have one name; a rule may have the name of a part. It doesn't matter in which section a
/// part stands.
///
/// ```
/// use lalrpop_rule_file::read_rules;
///
/// let file = read_rules(alloc, b"D part = /[0-9]/\nE part = /e{D}+/\nNUM = /{D}+{E}?/\n")?;
/// let count = file.parts.len(); // 2
/// let known = file.rules[0].known; // 2
/// ```
///
/// ```
/// use lalrpop_rule_file::read_rules;
///
/// let file = read_rules(alloc, b"SELECT = anycase 'select'\nEND = \"\\n\"\n")?;
/// let text = file.rules[1].rule.text; // RuleText::Escaped("\\n")
/// ```
///
/// The patterns of rules and escapes aren't parsed here, nor is B looked at: `RuleLexer::with_modes` does that.
///
/// # Errors
///
/// The first line that isn't a rule, part, section or comment and isn't blank, with the column where it stops being one, and
/// why; or, if there is none, the first part that is wrong: `RepeatedPart` with the place of its name if a part above has it,
/// or else `BadPart` with the place in its pattern where that doesn't parse by the parts above it; or, if there is none of
/// these either, `NoSuchMode` with the place of the first name in an action that no mode of the file has; or out of memory. The
/// columns of the first line count from after the mark. The column of a bad line is
///
/// - for `NotUtf8`, where the first bytes that aren't UTF-8 begin;
/// - for `NoName`, after the blanks at the front;
/// - for `NoMode`, where the name of a mode should begin, after `mode`, `push` or `[` and blanks;
/// - for `NoBracket`, after the names of a section or its `*`, and blanks;
/// - for `AfterSection`, at the first nonblank after the `]`;
/// - for `NoEquals`, after the name, `skip` and the actions, or `part`, and blanks;
/// - for `PrecedenceTooLarge`, at its first digit;
/// - for `NoText`, where the text should begin;
/// - for `NoPattern`, where the pattern of a part should begin;
/// - for `NoLiteral`, after `anycase` and blanks;
/// - for `NoFrom`, after `from` and blanks;
/// - for `NoTo`, at the first apostrophe that could end A, or after the end of a line without one;
/// - for `NotClosed`, after the end of a line without a second delimiter, or else at the first nonblank after the last one.
pub fn read_rules(alloc: Global, bytes: &[u8]) -> Result<RuleFile<'_>, RuleFileError>
    ensures parts { IfOk result (λ file.
        AreFileParts (lines (without_mark_of bytes.now)) file.parts.items) }
    ensures part_lines { IfOk result (λ file.
        ArePartLines (lines (without_mark_of bytes.now)) file.part_lines.items) }
    ensures rules { IfOk result (λ file. AreRules (lines (without_mark_of bytes.now))
        (map (λ m. m.now) file.modes.items) file.rules.items) }
    ensures places { IfOk result (λ file.
        ArePlaces (lines (without_mark_of bytes.now)) file.rules.items) }
    ensures some { IfOk result (λ file. 0 < length file.modes.items) }
    ensures within { IfOk result (λ file. (i m : ℕ) (r : FileRuleValue)
        → slice_get file.rules.items i ≡ Some r → NamesMode r m → m < length file.modes.items) }
    ensures error { IfErr result (λ e. IsRuleFileError (without_mark_of bytes.now) e) }
{
    let text = without_mark(bytes);
    let modes = modes_of_lines(alloc, text)?;
    let parts = parts_of_lines(alloc, text)?;
    let rules = rules_of_lines(alloc, text, &modes)?;
    Ok(RuleFile {
        modes,
        parts: parts.parts,
        part_lines: parts.lines,
        rules,
    })
}
