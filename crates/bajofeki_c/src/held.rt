//! What lies in the room that a program lends: a lexer, or why there is none.
ghost use Rattle.std.specs.Prelude.{◌≡◌, ◌<◌, length, IfOk, IfErr};
ghost use Rattle.lalrpop_emit.specs.EmitErrors.{IsNumbersError};
ghost use Rattle.bajofeki_c.specs.Built.{AreNamed, IsBuiltOf, IsBuiltFor, IsFreed, IsMade};
ghost use Rattle.bajofeki_c.specs.declared.held.BuildError.TheVariants.{File, Numbers};

use lalrpop_emit::{EmitError, LexerNumbers};
use lalrpop_lexer::Position;
use lalrpop_rule_file::{FileRule, RuleFile, RuleFileError, read_rules};
use lalrpop_rules::{RuleLexer, RulesError};
use std::alloc::{AllocError, Global};

/// The lexer of a file's rules, as it is kept between calls.
#[derive(Drop)]
pub struct BuiltLexer {
    /// The rules, in the order of their lines, and the automata of their modes.
    pub rules: RuleLexer,
    /// By these numbers texts are cut.
    pub numbers: LexerNumbers,
}

/// A rule of a file, by its name and its place alone.
#[derive(Drop)]
pub struct NamedRule {
    /// Its name.
    pub name: String,
    /// Where its text begins.
    pub place: Position,
}

/// Why there is no lexer.
#[derive(Drop)]
pub enum BuildError {
    /// The bytes aren't a file of rules.
    File(RuleFileError),
    /// The rules of the file have no lexer. `rules` are all of them, in the order of their lines.
    Rules {
        error: RulesError,
        rules: Vec<NamedRule>,
    },
    /// The lexer of the rules has no numbers.
    Numbers(EmitError),
    /// There was a lexer or an error, whose memory was given back.
    Freed,
}

impl From<RuleFileError> for BuildError {
    ghost from_gives = { λ error e. e ≡ File error };

    fn from(error: RuleFileError) -> BuildError {
        BuildError::File(error)
    }
}

impl From<EmitError> for BuildError {
    ghost from_gives = { λ error e. e ≡ Numbers error };

    fn from(error: EmitError) -> BuildError {
        BuildError::Numbers(error)
    }
}

/// A lexer, or why there is none.
#[derive(Drop)]
pub struct Held {
    pub made: Result<BuiltLexer, BuildError>,
}

// The names of the rules and the places of their texts.
fn named_rules(alloc: Global, rules: &[FileRule<'_>]) -> Result<Vec<NamedRule>, AllocError>
    ensures named { IfOk result (λ all. AreNamed rules.now all.items) }
{
    let mut all = Vec::new(alloc);
    for rule in rules {
        let name = String::from_str(alloc, rule.rule.name)?;
        all.push(NamedRule {
            name,
            place: rule.place,
        })?;
    }
    Ok(all)
}

// The lexer with its numbers.
fn numbered(alloc: Global, rules: RuleLexer) -> Result<BuiltLexer, EmitError>
    ensures built { IfOk result (IsBuiltOf rules) }
    ensures error { IfErr result (λ e. IsNumbersError rules e) }
{
    let numbers = LexerNumbers::new(alloc, &rules)?;
    Ok(BuiltLexer { rules, numbers })
}

// The lexer of the rules of the file.
fn lexer_of(alloc: Global, file: &RuleFile<'_>) -> Result<BuiltLexer, BuildError>
    requires some { 0 < length file.now.modes.items }
    ensures built { IsBuiltFor file.now result }
{
    let Ok(rules) = file.mode_rules(alloc) else {
        return Err(BuildError::File(RuleFileError::OutOfMemory));
    };
    match RuleLexer::with_modes(alloc, &rules, &file.modes) {
        Ok(lexer) => match numbered(alloc, lexer) {
            Ok(lexer) => Ok(lexer),
            Err(error) => Err(BuildError::Numbers(error)),
        },
        Err(error) => match named_rules(alloc, &file.rules) {
            Ok(rules) => Err(BuildError::Rules { error, rules }),
            Err(_) => Err(BuildError::File(RuleFileError::OutOfMemory)),
        },
    }
}

/// The lexer of the rules that these bytes are, or why there is none.
pub fn make(alloc: Global, bytes: &[u8]) -> Held
    ensures made { IsMade bytes.now result }
{
    match read_rules(alloc, bytes) {
        Ok(file) => Held {
            made: lexer_of(alloc, &file),
        },
        Err(error) => Held {
            made: Err(BuildError::File(error)),
        },
    }
}

/// Gives the memory back, and leaves that it was.
pub fn let_go(_held: Held) -> Held
    ensures freed { IsFreed result }
{
    Held {
        made: Err(BuildError::Freed),
    }
}
