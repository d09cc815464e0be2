//! Refusals of memory other than those of parsing patterns.
ghost use Rattle.std.specs.Prelude.{◌≡◌, ◌∷◌, [], IfErr};

use lalrpop_re::RegexError;
use std::alloc::Global;

/// A value in a list of its own. The only error is refused memory.
// Needs lalrpop_re::RegexError::from: ghost from_gives.
pub fn kept(alloc: Global, value: u32) -> Result<Vec<u32>, RegexError>
    ensures { IfErr result (λ e. e ≡ RegexError.OutOfMemory) }
{
    let mut values = Vec::with_capacity(alloc, 1)?;
    values.push(value)?;
    Ok(values)
}
