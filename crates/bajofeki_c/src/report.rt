//! What became of the rules, in numbers.
ghost use Rattle.std.specs.Prelude.{◌≡◌};
ghost use Rattle.bajofeki_c.specs.Report.{place_at, report, report_of_error, report_of_file, report_of_numbers, report_of_rules, told as told_numbers, told_clash as clash_numbers, told_rule as rule_numbers};

use crate::held::{BuildError, Held, NamedRule};
use lalrpop_emit::EmitError;
use lalrpop_lexer::Position;
use lalrpop_rule_file::RuleFileError;
use lalrpop_rules::RulesError;

/// What became of the rules. Numbers that a code doesn't have are 0. Rules are numbered from 0, in the order of their lines; lines
/// and columns count from 1, columns in characters.
#[repr(C)]
#[derive(Copy, Clone)]
pub struct Report {
    /// 0: there is a lexer. 1: a line of the file is wrong. 2: the text of a rule does not parse. 3: the end of a `from .. to` is
    /// empty or has more than 64 characters. 4: a rule can't be compiled. 5: two rules clash. 6: there are no rules, or too many,
    /// or they are too large for a table. 7: out of memory. 8: the memory was given back.
    pub code: u32,
    /// Where the line is wrong (1), or where the text of the rule begins (2 to 5).
    pub line: usize,
    /// The column there.
    pub column: usize,
    /// The rule (2 to 4), or the later of the two (5).
    pub rule: usize,
    /// The other rule (5).
    pub other: usize,
    /// Where its text begins (5).
    pub other_line: usize,
    /// The column there.
    pub other_column: usize,
    /// Where in the text it does not parse, in bytes (2).
    pub position: usize,
}

fn told(code: u32, place: Position, rule: usize, position: usize) -> Report
    ensures told { result ≡ told_numbers code place rule position }
{
    Report {
        code,
        line: place.line,
        column: place.column,
        rule,
        other: 0,
        other_line: 0,
        other_column: 0,
        position,
    }
}

// Where the text of this rule begins; line 0, column 0 if no rule has this number.
fn place_of_rule(rules: &[NamedRule], rule: usize) -> Position
    ensures place { result ≡ place_at rules.now rule }
{
    match rules.get(rule) {
        Some(rule) => rule.place,
        None => Position { line: 0, column: 0 },
    }
}

fn told_rule(code: u32, rules: &[NamedRule], rule: usize, position: usize) -> Report
    ensures told { result ≡ rule_numbers code rules.now rule position }
{
    told(code, place_of_rule(rules, rule), rule, position)
}

fn told_clash(rules: &[NamedRule], rule: usize, other: usize) -> Report
    ensures told { result ≡ clash_numbers rules.now rule other }
{
    let place = place_of_rule(rules, rule);
    let other_place = place_of_rule(rules, other);
    Report {
        code: 5,
        line: place.line,
        column: place.column,
        rule,
        other,
        other_line: other_place.line,
        other_column: other_place.column,
        position: 0,
    }
}

fn of_file(error: &RuleFileError) -> Report
    ensures report { result ≡ report_of_file error.now }
{
    let (code, line, column) = match error {
        RuleFileError::BadLine { line, column, .. } => (1, *line, *column),
        RuleFileError::BadPart { line, column, .. } => (1, *line, *column),
        RuleFileError::RepeatedPart { line, column } => (1, *line, *column),
        RuleFileError::NoSuchMode { line, column } => (1, *line, *column),
        RuleFileError::OutOfMemory => (7, 0, 0),
    };
    told(code, Position { line, column }, 0, 0)
}

fn of_rules(error: &RulesError, rules: &[NamedRule]) -> Report
    ensures report { result ≡ report_of_rules error.now rules.now }
{
    match error {
        RulesError::NoSuchMode { rule, .. } => told_rule(1, rules, *rule, 0),
        RulesError::NotParsed { rule, position, .. } => told_rule(2, rules, *rule, *position),
        RulesError::BadEnd { rule, .. } => told_rule(3, rules, *rule, 0),
        RulesError::NotCompiled { rule, .. } => told_rule(4, rules, *rule, 0),
        RulesError::Clash { rule, other, .. } => told_clash(rules, *rule, *other),
        RulesError::OutOfMemory => told(7, Position { line: 0, column: 0 }, 0, 0),
    }
}

fn of_numbers(error: &EmitError) -> Report
    ensures report { result ≡ report_of_numbers error.now }
{
    let code = match error {
        EmitError::OutOfMemory => 7,
        EmitError::NoRules
        | EmitError::BadName { .. }
        | EmitError::SkipCount
        | EmitError::NoName { .. }
        | EmitError::TooManyRules
        | EmitError::TooManyModes
        | EmitError::TooManyActions
        | EmitError::BadVariant { .. }
        | EmitError::BadPrefix
        | EmitError::NoTable => 6,
    };
    told(code, Position { line: 0, column: 0 }, 0, 0)
}

fn of_error(error: &BuildError) -> Report
    ensures report { result ≡ report_of_error error.now }
{
    match error {
        BuildError::File(error) => of_file(error),
        BuildError::Rules { error, rules } => of_rules(error, rules),
        BuildError::Numbers(error) => of_numbers(error),
        BuildError::Freed => told(8, Position { line: 0, column: 0 }, 0, 0),
    }
}

/// What became of the rules.
pub fn report_of(held: &Held) -> Report
    ensures report { result ≡ report held.now }
{
    match &held.made {
        Ok(_) => told(0, Position { line: 0, column: 0 }, 0, 0),
        Err(error) => of_error(error),
    }
}
