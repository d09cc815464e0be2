//! The lexers of all modes.
ghost use Rattle.std.specs.Prelude.{◌≡◌, length, map, IfOk, OnOk, IfErr};
ghost use Rattle.lalrpop_hir.specs.Report.{NoFault};
ghost use Rattle.lalrpop_rules.specs.Modes.{NoModeClash};
ghost use Rattle.lalrpop_rules.specs.Internal.Lexers.{AreLexers, IsModeFault, in_mode, seen};

use crate::error::RulesError;
use crate::known_rule::KnownRule;
use crate::masked::mode_lexer;
use lalrpop_lexer::Lexer;
use lalrpop_lexer::lexer::dfa::{DfaConstructionError, Precedence};
use lalrpop_lexer::lexer::re::Regex;
use std::alloc::Global;

/// The error for the report of a mode.
pub(crate) fn modes_error(mode: usize, report: DfaConstructionError) -> RulesError
    ensures same { result ≡ in_mode mode report }
{
    match report {
        DfaConstructionError::NfaConstructionError { index, error } => RulesError::NotCompiled {
            rule: index.index(),
            error,
        },
        DfaConstructionError::Ambiguity {
            match0,
            match1,
            word,
        } => RulesError::Clash {
            mode,
            rule: match0.index(),
            other: match1.index(),
            word,
        },
        DfaConstructionError::OutOfMemory => RulesError::OutOfMemory,
    }
}

/// The lexer of each mode, in order, or the error of the first mode that has one.
pub(crate) fn lexers_of(
    alloc: Global,
    regexs: &[Regex],
    precedences: &[Precedence],
    kinds: &[usize],
    known: &[KnownRule],
    modes: usize,
) -> Result<Vec<Lexer>, RulesError>
    requires same_len { length regexs.now ≡ length known.now }
    requires one_each { length precedences.now ≡ length known.now }
    requires kinds { length kinds.now ≡ length known.now }
    requires no_fault { NoFault regexs.now }
    ensures lexers { IfOk result (λ all. AreLexers (seen regexs.now
        (map (λ p. p.0) precedences.now) (map (λ k. k.modes.items) known.now) kinds.now modes)
        all.items) }
    ensures count { IfOk result (λ all. length all.items ≡ modes) }
    ensures no_clash { OnOk result (NoModeClash (seen regexs.now
        (map (λ p. p.0) precedences.now) (map (λ k. k.modes.items) known.now) kinds.now modes)) }
    ensures error { IfErr result (IsModeFault (seen regexs.now
        (map (λ p. p.0) precedences.now) (map (λ k. k.modes.items) known.now) kinds.now modes)) }
{
    let mut all = Vec::new(alloc);
    for mode in 0..modes {
        match mode_lexer(alloc, regexs, precedences, kinds, known, mode) {
            Ok(lexer) => all.push(lexer)?,
            Err(report) => return Err(modes_error(mode, report)),
        }
    }
    Ok(all)
}
