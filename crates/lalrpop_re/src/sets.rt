//! The sets of leaves and the trees of sets, under the flags.
ghost use Rattle.std.specs.Prelude.{◌≡◌, ◌≤◌, IfOk};
ghost use Rattle.lalrpop_re.specs.CharacterSet.{Set, range, set_tree, HasRuns};
ghost use Rattle.lalrpop_re.specs.Bracket.{leaf, leaf_or_complement};
ghost use Rattle.lalrpop_re.specs.Pattern.{literal_tree, dot_tree, is_one_member};

use crate::characters::range_class;
use crate::flags::Flags;
use crate::folding::fold;
use lalrpop_hir::{Class, ClassUnicode, Hir};
use std::alloc::{AllocError, Global};

/// The set of a leaf with the characters from `low` to `high`; under the flag `i`, with all their foldings too.
///
/// # Errors
///
/// `AllocError` if a request for memory was refused.
pub fn leaf_of_range(
    alloc: Global,
    flags: Flags,
    low: char,
    high: char,
) -> Result<ClassUnicode, AllocError>
    requires ordered { low ≤ high }
    ensures runs { IfOk result (λ r. HasRuns r (leaf flags (range low high))) }
{
    leaf_of_set(alloc, flags, range_class(alloc, low, high)?, false)
}

/// The set of a leaf with the members of `class`, folded under the flag `i`; its complement if `negated`.
///
/// # Errors
///
/// `AllocError` if a request for memory was refused.
pub fn leaf_of_set(
    alloc: Global,
    flags: Flags,
    class: ClassUnicode,
    negated: bool,
) -> Result<ClassUnicode, AllocError>
    ensures runs { IfOk result (λ r. (s : Set) → HasRuns class s
        → HasRuns r (leaf_or_complement flags s negated)) }
{
    let leaf = if flags.case_insensitive {
        fold(alloc, &class)?
    } else {
        class
    };
    if negated {
        leaf.complement(alloc)
    } else {
        Ok(leaf)
    }
}

/// The tree that matches one character of the set.
pub fn tree_of_class(class: ClassUnicode) -> Hir
    ensures tree { (s : Set) → HasRuns class s → result ≡ set_tree s }
{
    Hir::class(Class::Unicode(class))
}

/// The tree of a literal character outside brackets; under the flag `i`, the tree of all its foldings.
///
/// # Errors
///
/// `AllocError` if a request for memory was refused.
pub fn tree_of_character(alloc: Global, flags: Flags, c: char) -> Result<Hir, AllocError>
    ensures tree { IfOk result (λ t. t ≡ literal_tree flags c) }
{
    if flags.case_insensitive {
        let folded = fold(alloc, &range_class(alloc, c, c)?)?;
        if !is_one_member(&folded) {
            return Ok(tree_of_class(folded));
        }
    }
    let mut bytes = [0; 4];
    Hir::literal(alloc, c.encode_utf8(&mut bytes))
}

/// The tree of `.`.
///
/// # Errors
///
/// `AllocError` if a request for memory was refused.
pub fn tree_of_dot(alloc: Global, flags: Flags) -> Result<Hir, AllocError>
    ensures tree { IfOk result (λ t. t ≡ dot_tree flags) }
{
    let left_out = if flags.dot_matches_new_line {
        ClassUnicode::new(alloc, Vec::new(alloc))?
    } else {
        range_class(alloc, '\n', '\n')?
    };
    Ok(tree_of_class(left_out.complement(alloc)?))
}

fn is_one_member(class: &ClassUnicode) -> bool
    ensures { result ≡ is_one_member class.now }
{
    match class.ranges() {
        [range] => range.start() == range.end(),
        _ => false,
    }
}
