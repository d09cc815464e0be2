//! Texts that are shown character by character. Characters that are shown as they are go out in runs.
ghost use Rattle.std.specs.Prelude.{◌≡◌, ◌++◌, ℕ, List, true, chars, encode_utf8, flat_map, string_bytes, OnOk};

use std::alloc::AllocError;

/// A way to show characters.
pub(crate) trait Shows {
    ghost shown: { Self → ℕ → List ℕ };

    /// Whether the character is shown as it is. `false` is never wrong.
    fn is_plain(&self, c: char) -> bool
        ensures { result ≡ true → shown self.now c ≡ encode_utf8 c };

    fn push(&self, page: &mut String, c: char) -> Result<(), AllocError>
        ensures { OnOk result (string_bytes page.new ≡ string_bytes page.old ++ shown self.now c) };
}

pub(crate) fn push_shown<S: Shows>(
    page: &mut String,
    style: &S,
    text: &str,
) -> Result<(), AllocError>
    ensures { OnOk result (string_bytes page.new
        ≡ string_bytes page.old ++ flat_map (S.shown style.now) (chars text.now)) }
{
    // Where the characters begin that are not yet appended: all are shown as they are.
    let mut from = 0usize;
    for (at, c) in text.char_indices() {
        if !style.is_plain(c) {
            page.push_str(&text[from..at])?;
            style.push(page, c)?;
            from = at + c.len_utf8();
        }
    }
    page.push_str(&text[from..])
}
