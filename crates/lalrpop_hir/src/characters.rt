//! The characters of a text, by the bytes with which they begin.

ghost use Rattle.std.specs.Prelude.{◌≡◌, length};
ghost use Rattle.std.specs.Str.{chars};
ghost use Rattle.lalrpop_hir.specs.Starts.{is_start};

/// Whether a character begins with the byte.
#[inline(always)]
pub fn is_start(byte: u8) -> bool
    ensures { result ≡ is_start byte }
{
    !(128..=191).contains(&byte)
}

/// How many characters the text has.
#[inline(always)]
pub fn char_count(text: &str) -> usize
    ensures count { result ≡ length (chars text.now) }
{
    let mut count = 0usize;
    for byte in text.as_bytes() {
        count += is_start(*byte) as usize;
    }
    count
}
