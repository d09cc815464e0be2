//! Rules are read from a file.
ghost use Rattle.std.specs.Prelude.{◌≡◌, ◌⊎◌, ◌-◌, ℕ, List, length, map, IfOk, IfErr, IfSome, MatchOption, Some, slice_get};
ghost use Rattle.bajofeki_rules.specs.Lines.{lines};
ghost use Rattle.lalrpop_rule_file.specs.RuleFile.{AreFileParts, AreModeRules, AreRules, ArePlaces, IsFirstBad, IsFirstBadPart, IsFirstNoMode, IsFirstRepeatedPart, IsLineFault, LinesSay, without_mark as without_mark_of};
ghost use Rattle.lalrpop_rule_file.specs.declared.file_rule.FileRule.{FileRule as FileRuleValue};
ghost use Rattle.lalrpop_rule_file.specs.FileModes.{Said, modes_of};

use lalrpop_rule_file::{LineFault, RuleFile, RuleFileError, read_rules, without_mark};
use lalrpop_rules::{ModeRule, RuleLexer, RulesError};
use std::alloc::{AllocError, Global};

// Needs lalrpop_rule_file::without_mark: ensures.
/// How many bytes of a file are read as lines.
pub fn bytes_of_lines(bytes: &[u8]) -> usize
    ensures count { result ≡ length (without_mark_of bytes.now) }
{
    without_mark(bytes).len()
}

// Needs lalrpop_rule_file::read_rules: rules, error.
/// The first bad line of a file, counted from 1, if there is one, in which column it stops being a rule or a section, and why.
///
/// # Errors
///
/// `AllocError` if a request for memory was refused.
pub fn first_bad_line(
    alloc: Global,
    bytes: &[u8],
) -> Result<Option<(usize, usize, LineFault)>, AllocError>
    ensures wrong { IfOk result (λ wrong. MatchOption wrong
        ((said : List Said) × LinesSay (lines (without_mark_of bytes.now)) said)
        (λ f. IsFirstBad (lines (without_mark_of bytes.now)) f.0 × ((line : List ℕ)
        × ((slice_get (lines (without_mark_of bytes.now)) (f.0 - 1) ≡ Some line)
        × IsLineFault line f.1 f.2)))) }
{
    match read_rules(alloc, bytes) {
        Ok(_) => Ok(None),
        Err(
            RuleFileError::BadLine {
                line,
                column,
                fault,
            },
        ) => Ok(Some((line, column, fault))),
        Err(RuleFileError::BadPart { .. }) => Ok(None),
        Err(RuleFileError::RepeatedPart { .. }) => Ok(None),
        Err(RuleFileError::NoSuchMode { .. }) => Ok(None),
        Err(RuleFileError::OutOfMemory) => Err(AllocError),
    }
}

// Needs lalrpop_rule_file::read_rules: error.
/// The place of the first part that is wrong: where it has the name of a part above it, or where it can't be read as a pattern.
///
/// # Errors
///
/// `AllocError` if a request for memory was refused.
pub fn first_wrong_part(alloc: Global, bytes: &[u8]) -> Result<Option<(usize, usize)>, AllocError>
    ensures wrong { IfOk result (λ found. IfSome found (λ place.
        IsFirstBadPart (lines (without_mark_of bytes.now)) place.0 place.1
        ⊎ IsFirstRepeatedPart (lines (without_mark_of bytes.now)) place.0 place.1)) }
{
    match read_rules(alloc, bytes) {
        Err(RuleFileError::BadPart { line, column, .. }) => Ok(Some((line, column))),
        Err(RuleFileError::RepeatedPart { line, column }) => Ok(Some((line, column))),
        Ok(_) | Err(RuleFileError::BadLine { .. }) => Ok(None),
        Err(RuleFileError::NoSuchMode { .. }) => Ok(None),
        Err(RuleFileError::OutOfMemory) => Err(AllocError),
    }
}

// Needs lalrpop_rule_file::read_rules: error.
/// Where the first mode stands that an action names and no section.
///
/// # Errors
///
/// `AllocError` if a request for memory was refused.
pub fn first_missing_mode(alloc: Global, bytes: &[u8]) -> Result<Option<(usize, usize)>, AllocError>
    ensures missing { IfOk result (λ found. IfSome found (λ place. (said : List Said)
        × (LinesSay (lines (without_mark_of bytes.now)) said
        × IsFirstNoMode (modes_of said) (lines (without_mark_of bytes.now)) said
        place.0 place.1))) }
{
    match read_rules(alloc, bytes) {
        Err(RuleFileError::NoSuchMode { line, column }) => Ok(Some((line, column))),
        Ok(_) | Err(RuleFileError::BadLine { .. }) => Ok(None),
        Err(RuleFileError::BadPart { .. }) => Ok(None),
        Err(RuleFileError::RepeatedPart { .. }) => Ok(None),
        Err(RuleFileError::OutOfMemory) => Err(AllocError),
    }
}

// Needs lalrpop_rule_file::read_rules: rules, some, within.
// Needs lalrpop_rule_file::RuleFile::mode_rules: names, modes, actions.
/// The lexer of a file of rules; `None` if the file isn't one.
///
/// # Errors
///
/// Why the rules give no lexer, or out of memory; no rule names a mode that isn't there.
pub fn lexer_of_file(alloc: Global, bytes: &[u8]) -> Result<Option<RuleLexer>, RulesError>
    ensures names { IfOk result (λ found. IfSome found (λ lexer.
        (modes : List (List ℕ)) × ((rs : List FileRuleValue)
        × (AreRules (lines (without_mark_of bytes.now)) modes rs
        × (lexer.names ≡ map (λ r. r.rule.name.now) rs) × (lexer.modes ≡ length modes))))) }
{
    match read_rules(alloc, bytes) {
        Ok(file) => {
            let rules = file.mode_rules(alloc)?;
            match RuleLexer::with_modes(alloc, &rules, &file.modes) {
                Ok(lexer) => Ok(Some(lexer)),
                Err(error) => Err(error),
            }
        }
        Err(_) => Ok(None),
    }
}

// Needs lalrpop_rule_file::RuleFile::mode_rules: rules.
/// The rules of a file as a lexer takes them, with their parts.
///
/// # Errors
///
/// `AllocError` if a request for memory was refused.
pub fn rules_with_parts<'file>(
    alloc: Global,
    file: &'file RuleFile<'_>,
) -> Result<Vec<ModeRule<'file>>, AllocError>
    ensures rules { IfOk result (λ rules.
        AreModeRules file.now.parts.items file.now.rules.items rules.items) }
{
    file.mode_rules(alloc)
}

// Needs lalrpop_rule_file::read_rules: parts, places.
/// The rules of a file with the places where their texts begin, and the parts that its lines define.
///
/// # Errors
///
/// The first bad line, the first mode in an action that isn't there, or out of memory.
pub fn rules_with_places(alloc: Global, bytes: &[u8]) -> Result<RuleFile<'_>, RuleFileError>
    ensures places { IfOk result (λ file.
        ArePlaces (lines (without_mark_of bytes.now)) file.rules.items) }
    ensures parts { IfOk result (λ file.
        AreFileParts (lines (without_mark_of bytes.now)) file.parts.items) }
{
    read_rules(alloc, bytes)
}

// Needs lalrpop_rule_file::RuleFileError::from: ghost from_gives.
/// A number in a list of its own.
///
/// # Errors
///
/// Out of memory.
pub fn one_number(alloc: Global, number: usize) -> Result<Vec<usize>, RuleFileError>
    ensures memory { IfErr result (λ e. e ≡ RuleFileError.OutOfMemory) }
{
    let mut numbers = Vec::with_capacity(alloc, 1)?;
    numbers.push(number)?;
    Ok(numbers)
}
