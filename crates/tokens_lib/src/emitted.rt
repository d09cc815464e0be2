//! The lexer of a file of rules as a source file.
ghost use Rattle.std.specs.Prelude.{◌≡◌, ◌≢◌, string_bytes, IfOk, OnOk, IfErr};
ghost use Rattle.lalrpop_emit.specs.NumberedRules.{AreNumbersOf, NumberedRules};
ghost use Rattle.lexdfa_lib.specs.Streams.{GivesWhole};
ghost use Rattle.reports_lib.specs.Answer.{about, refusal};
ghost use Rattle.reports_lib.specs.NamedRules.{ByLexer};
ghost use Rattle.tokens_lib.specs.Emitted.{IsFileError, IsNoSource, SourceAnswer, error_reason, prefix_of, source_file};

use lalrpop_emit::{EmitError, LexerNumbers, c_source, rust_source};
use lalrpop_rules::RuleLexer;
use lexdfa_lib::{Files, Language, Verbosity};
use reports_lib::{Reply, about, lexer_by_name};
use std::alloc::{AllocError, Global};

// The status of rules that can't be written.
const REFUSED: u8 = 2;

// What the names of a lexer in C begin with.
fn prefix_of<'words>(prefix: Option<&'words str>) -> &'words str
    ensures { result.now ≡ prefix_of prefix.entry }
{
    match prefix {
        Some(prefix) => prefix,
        None => "lex",
    }
}

// What is said of an error.
fn error_reason(error: &EmitError) -> &'static str
    ensures { result.now ≡ error_reason error.now }
{
    match error {
        EmitError::NoRules => "there is no rule",
        EmitError::BadName { .. } => "the name of a rule isn't made of ASCII letters, digits and _",
        EmitError::SkipCount => "there aren't as many skips as rules",
        EmitError::NoName { .. } => "a pattern has no name",
        EmitError::TooManyRules => "there are more than 65,535 rules",
        EmitError::TooManyModes => "there are more than 65,535 modes",
        EmitError::TooManyActions => "the rules have too many actions",
        EmitError::BadVariant { .. } => "the name of a rule can't be a variant of an enum in Rust",
        EmitError::BadPrefix => {
            "the prefix isn't an identifier: ASCII letters, digits and _, and no digit first"
        }
        EmitError::NoTable => "the table of these rules would be too large",
        EmitError::OutOfMemory => "out of memory",
    }
}

// The source file of the lexer that these numbers describe.
fn file_of(
    alloc: Global,
    numbers: &LexerNumbers,
    language: Language<'_>,
) -> Result<String, EmitError>
    ensures file { IfOk result (λ source.
        string_bytes source ≡ source_file language.entry numbers.now) }
    ensures exact { OnOk result ((e : EmitError) → IsFileError language.entry numbers.now.names e
        → e ≡ EmitError.OutOfMemory) }
    ensures error { IfErr result (IsFileError language.entry numbers.now.names) }
{
    match language {
        Language::C { prefix } => c_source(alloc, numbers, prefix_of(prefix)),
        Language::Rust => rust_source(alloc, numbers),
    }
}

// The source file of the lexer.
fn source_of(alloc: Global, lexer: &RuleLexer, language: Language<'_>) -> Result<String, EmitError>
    ensures source { IfOk result (λ source. (n : NumberedRules)
        × (AreNumbersOf lexer.now n × (string_bytes source ≡ source_file language.entry n))) }
    ensures exact { OnOk result (¬ ((e : EmitError) × IsNoSource language.entry lexer.now e)) }
    ensures refused { IfErr result (λ e. e ≢ EmitError.OutOfMemory
        → IsNoSource language.entry lexer.now e) }
{
    let numbers = LexerNumbers::new(alloc, lexer)?;
    file_of(alloc, &numbers, language)
}

// What is answered where there is no source file.
fn refused(alloc: Global, name: &str, error: &EmitError) -> Result<Reply, AllocError>
    ensures other { OnOk result (error.now ≢ EmitError.OutOfMemory) }
    ensures answer { IfOk result (λ reply.
        reply ≡ refusal 2 (about name.now (error_reason error.now))) }
{
    if let EmitError::OutOfMemory = error {
        return Err(AllocError);
    }
    let message = about(alloc, name, error_reason(error))?;
    Ok(Reply::refusal(alloc, REFUSED, message))
}

// The answer to a request for the lexer of the file with this name as a source file.
fn source_reply(
    alloc: Global,
    name: &str,
    lexer: &RuleLexer,
    language: Language<'_>,
) -> Result<Reply, AllocError>
    ensures answer { IfOk result (SourceAnswer language.entry name.now lexer.now) }
{
    match source_of(alloc, lexer, language) {
        Ok(source) => Ok(Reply::written(alloc, 0, source.into_bytes())),
        Err(error) => refused(alloc, name, &error),
    }
}

/// The answer to a request for the lexer of a file of rules as a source file.
///
/// # Errors
///
/// `AllocError` if a request for memory was refused.
pub(crate) fn emit<F: Files>(
    alloc: Global,
    verbosity: Verbosity,
    files: &F,
    rules: &str,
    language: Language<'_>,
) -> Result<Reply, AllocError>
    ensures answer { IfOk result (ByLexer (GivesWhole (F.gives files.now)) verbosity
        (λ r _. SourceAnswer language.entry rules.now r) rules.now) }
{
    match lexer_by_name(alloc, verbosity, files, rules)? {
        Ok(found) => { source_reply(alloc, rules, &found.lexer, language)?.after(0, found.said) }
        Err(reply) => Ok(reply),
    }
}
