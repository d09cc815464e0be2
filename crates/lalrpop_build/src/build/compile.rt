//! Compiling the patterns one by one.
ghost use Rattle.std.specs.Prelude.{◌≡◌, ◌<◌, length, IfOk, IfErr};
ghost use Rattle.lalrpop_build.specs.Internal.Given.{AreFixed};
ghost use Rattle.lalrpop_build.specs.Internal.Expansion.{IsRefusalOf, NoFaultBefore, IsCompiledAt};
ghost use Rattle.lalrpop_nfa.specs.Automata.{AreCompiled};
ghost use Rattle.lalrpop_hir.specs.Report.{NoFault, IsFaultOf};

use crate::{DfaConstructionError, NfaIndex};
use lalrpop_hir::Regex;
use lalrpop_nfa::{Nfa, NfaConstructionError};
use std::alloc::Global;

// What is reported if the pattern with this index was not compiled.
fn refusal(index: NfaIndex, error: NfaConstructionError) -> DfaConstructionError
    ensures { IsRefusalOf index error result }
{
    match error {
        NfaConstructionError::OutOfMemory => DfaConstructionError::OutOfMemory,
        error => DfaConstructionError::NfaConstructionError { index, error },
    }
}

// The automaton of the pattern with this index, or what is reported of it. No pattern before it has a fault.
fn compile(alloc: Global, regexs: &[Regex], index: usize) -> Result<Nfa, DfaConstructionError>
    requires within { index < length regexs.now }
    requires no_fault { NoFaultBefore regexs.now index }
    ensures ok { IfOk result (IsCompiledAt regexs.now index) }
    ensures err { IfErr result (IsFaultOf regexs.now) }
{
    match Nfa::from_re(alloc, &regexs[index]) {
        Ok(nfa) => Ok(nfa),
        Err(error) => Err(refusal(NfaIndex::new(index), error)),
    }
}

/// The automata of the patterns, in the order of the list, or the first pattern that has a fault.
pub(crate) fn compile_all(alloc: Global, regexs: &[Regex]) -> Result<Vec<Nfa>, DfaConstructionError>
    ensures ok { IfOk result (λ nfas. NoFault regexs.now × AreCompiled regexs.now nfas.items) }
    ensures fixed { IfOk result (λ nfas. AreFixed nfas.items) }
    ensures err { IfErr result (IsFaultOf regexs.now) }
{
    let mut nfas = Vec::new(alloc);
    for index in 0..regexs.len() {
        nfas.push(compile(alloc, regexs, index)?)?;
    }
    Ok(nfas)
}
