//! Classes made of other classes.
ghost use Rattle.std.specs.Prelude.{IfOk};
ghost use Rattle.lalrpop_hir.specs.Range.{Covered};
ghost use Rattle.lalrpop_hir.specs.Runs.{IsCanon, InEither, InBoth, InFirstAlone, InJustOne};

use lalrpop_hir::ClassUnicode;
use std::alloc::{AllocError, Global};

/// What may occur in a name: letters and digits.
// Needs lalrpop_hir::ClassUnicode::union: runs.
pub fn of_names(
    alloc: Global,
    letters: &ClassUnicode,
    digits: &ClassUnicode,
) -> Result<ClassUnicode, AllocError>
    ensures { IfOk result (λ class. IsCanon (InEither letters.now digits.now) class) }
{
    letters.union(alloc, digits)
}

/// The letters that are also in the script.
// Needs lalrpop_hir::ClassUnicode::intersection: runs.
pub fn of_script(
    alloc: Global,
    letters: &ClassUnicode,
    script: &ClassUnicode,
) -> Result<ClassUnicode, AllocError>
    ensures { IfOk result (λ class. IsCanon (InBoth letters.now script.now) class) }
{
    letters.intersection(alloc, script)
}

/// The letters that aren't vowels.
// Needs lalrpop_hir::ClassUnicode::difference: runs.
pub fn consonants(
    alloc: Global,
    letters: &ClassUnicode,
    vowels: &ClassUnicode,
) -> Result<ClassUnicode, AllocError>
    ensures { IfOk result (λ class. IsCanon (InFirstAlone letters.now vowels.now) class) }
{
    letters.difference(alloc, vowels)
}

/// The characters on which two versions of a class differ.
// Needs lalrpop_hir::ClassUnicode::symmetric_difference: runs.
pub fn changed(
    alloc: Global,
    before: &ClassUnicode,
    after: &ClassUnicode,
) -> Result<ClassUnicode, AllocError>
    ensures { IfOk result (λ class. IsCanon (InJustOne before.now after.now) class) }
{
    before.symmetric_difference(alloc, after)
}

/// All characters but the quotes, as between two quotes.
// Needs lalrpop_hir::ClassUnicode::complement: runs.
pub fn unquoted(alloc: Global, quotes: &ClassUnicode) -> Result<ClassUnicode, AllocError>
    ensures { IfOk result (λ class. IsCanon (λ c. ¬ Covered quotes.now c) class) }
{
    quotes.complement(alloc)
}
