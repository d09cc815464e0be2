//! The numbers of a line.
ghost use Rattle.std.specs.Prelude.{◌≡◌, ◌∷◌, [], ◌++◌, decimal, OnOk};

use itoa::write_digits;
use std::alloc::AllocError;

// The most digits of a number of 64 bits.
const DIGITS: usize = 20;

// Room for two numbers, each with a byte after it.
const ROOM: usize = 2 * DIGITS + 2;

/// Appends two numbers, each with a byte after it.
///
/// # Errors
///
/// `AllocError` if a request for memory was refused.
pub(crate) fn push_numbers(
    line: &mut Vec<u8>,
    first: usize,
    between: u8,
    second: usize,
    behind: u8,
) -> Result<(), AllocError>
    ensures { OnOk result (line.new.items ≡ line.old.items
        ++ (decimal first ++ (between ∷ (decimal second ++ (behind ∷ []))))) }
{
    // The digits are found from the last to the first, so the text is written from its end.
    let mut text = [behind; ROOM];
    let later = write_digits(second as u64, &mut text, ROOM - 1);
    text[later - 1] = between;
    let start = write_digits(first as u64, &mut text, later - 1);
    line.extend_from_slice(&text[start..])?;
    Ok(())
}
