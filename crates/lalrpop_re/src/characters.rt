//! Sets of one run of characters.

ghost use Rattle.std.specs.Prelude.{◌≤◌, IfOk};
ghost use Rattle.lalrpop_re.specs.CharacterSet.{range, HasRuns};

use lalrpop_hir::{ClassUnicode, ClassUnicodeRange};
use std::alloc::{AllocError, Global};

/// The characters from `low` to `high`, both included, as a set of one run.
///
/// # Errors
///
/// `AllocError` if a request for memory was refused.
pub fn range_class(alloc: Global, low: char, high: char) -> Result<ClassUnicode, AllocError>
    requires ordered { low ≤ high }
    ensures runs { IfOk result (λ r. HasRuns r (range low high)) }
{
    ClassUnicode::new(alloc, vec![in alloc; ClassUnicodeRange::new(low, high)]?)
}
