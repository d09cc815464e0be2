//! What is at the front of bytes.
ghost use Rattle.std.specs.Prelude.{◌≡◌, ◌≢◌, [], false, true, IfNone, IfSome};
ghost use Rattle.bajofeki.specs.Begun.{IsBad, IsBegun, NoCharacter};
ghost use Rattle.pieces_lib.specs.CutEnds.{IsFound};

use crate::cut_end::Found;
use std::str;

// The character at the front of bytes, if there is one.
fn character_in(bytes: &[u8]) -> Option<char>
    ensures some { IfSome result (λ c. IsFound bytes.now (Found.Character c)) }
    ensures none { IfNone result (NoCharacter bytes.now) }
{
    let chunk = bytes.utf8_chunks().next()?;
    chunk.valid().chars().next()
}

/// What is at the front of bytes.
pub(crate) fn found_in(bytes: &[u8]) -> Found
    requires some { bytes.now ≢ [] }
    ensures found { IsFound bytes.now result }
{
    match character_in(bytes) {
        Some(c) => Found::Character(c),
        None => Found::Byte(bytes[0]),
    }
}

/// Whether bytes are nothing else but a character that has begun, and may come whole.
pub(crate) fn is_begun(bytes: &[u8]) -> bool
    ensures yes { result ≡ true → IsBegun bytes.now }
    ensures no { result ≡ false → bytes.now ≢ [] → NoCharacter bytes.now → IsBad bytes.now }
{
    match str::from_utf8(bytes) {
        Ok(_) => false,
        Err(error) => error.valid_up_to() == 0 && error.error_len().is_none(),
    }
}
