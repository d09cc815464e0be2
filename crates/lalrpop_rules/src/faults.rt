//! Trees that can't be compiled.
ghost use Rattle.std.specs.Prelude.{◌≡◌, ◌<◌, None, Some, ℕ, length, slice_get, OnOk, IfErr};
ghost use Rattle.lalrpop_hir.specs.Fault.{fault};
ghost use Rattle.lalrpop_hir.specs.Report.{NoFault};
ghost use Rattle.lalrpop_hir.specs.Tree.{Tree};
ghost use Rattle.lalrpop_rules.specs.Internal.Faults.{IsFaultError, NoFaultBefore, of_tree};

use crate::text_error::TextError;
use lalrpop_lexer::lexer::nfa::{Nfa, NfaConstructionError};
use lalrpop_lexer::lexer::re::Regex;
use std::alloc::Global;

// The error of rule `rule` for an error of its tree.
fn tree_error(rule: usize, error: NfaConstructionError) -> TextError
    ensures same { result ≡ of_tree rule error }
{
    match error {
        NfaConstructionError::OutOfMemory => TextError::OutOfMemory,
        error => TextError::NotCompiled { rule, error },
    }
}

// Whether the tree with this index can be compiled. Each tree before it can.
fn compiles(alloc: Global, trees: &[Regex], index: usize) -> Result<(), TextError>
    requires within { index < length trees.now }
    requires before { NoFaultBefore trees.now index }
    ensures fine { OnOk result ((t : Tree) → slice_get trees.now index ≡ Some t → fault t ≡ None) }
    ensures error { IfErr result (λ e. IsFaultError trees.now e) }
{
    match Nfa::from_re(alloc, &trees[index]) {
        Ok(_) => Ok(()),
        Err(error) => Err(tree_error(index, error)),
    }
}

/// Whether all trees can be compiled, or the first that can't.
pub(crate) fn all_compile(alloc: Global, trees: &[Regex]) -> Result<(), TextError>
    ensures fine { OnOk result (NoFault trees.now) }
    ensures error { IfErr result (λ e. IsFaultError trees.now e) }
{
    for index in 0..trees.len() {
        compiles(alloc, trees, index)?;
    }
    Ok(())
}
