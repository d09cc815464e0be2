//! The text at the front of bytes.

ghost use Rattle.std.specs.Prelude.{◌≡◌, ◌++◌, true, false};
ghost use Rattle.std.specs.Str.{IsUtf8};
ghost use Rattle.bajofeki.specs.Begun.{IsBegun, IsBad};

/// Bytes, cut after the longest text at their front.
#[derive(Clone, Copy)]
pub(crate) struct Front<'bytes> {
    pub(crate) text: &'bytes str,
    pub(crate) left: &'bytes [u8],
    /// Whether no character will be at the front of what is left, whatever comes.
    pub(crate) is_bad: bool,
}

/// Where a character that is whole can't be read, the length of the error tells one that may come whole from bytes that will never be
/// one.
pub(crate) fn front_of(bytes: &[u8]) -> Front<'_>
    ensures utf8 { IsUtf8 result.text.now }
    ensures parts { bytes.now ≡ result.text.now ++ result.left.now }
    ensures begun { result.is_bad ≡ false → IsBegun result.left.now }
    ensures bad { result.is_bad ≡ true → IsBad result.left.now }
{
    // This reads no further than the first fault, so bytes that are full of faults take linear time.
    match str::from_utf8(bytes) {
        Ok(text) => Front {
            text,
            left: &[],
            is_bad: false,
        },
        Err(error) => {
            let (text, left) = bytes.split_at(error.valid_up_to());
            Front {
                // The check proves that these bytes are UTF-8.
                text: unsafe { std::str::from_utf8_unchecked(text) },
                left,
                is_bad: error.error_len().is_some(),
            }
        }
    }
}
