//! Sets by the name of a property.
ghost use Rattle.std.specs.Prelude.{◌≡◌, ◌≤◌, ◌↔◌, ℕ, IfOk, MatchOption, None, Some};
ghost use Rattle.unicode.specs.Perl.{is_digit_char, is_space_char, is_word_char};
ghost use Rattle.unicode.specs.Rows.{in_ranges, AreRanges};
ghost use Rattle.lalrpop_hir.specs.Runs.{IsScalar};
ghost use Rattle.lalrpop_re.specs.CharacterSet.{Set, HasRuns};
ghost use Rattle.lalrpop_re.specs.NamedSet.{named};

use crate::characters::range_class;
use lalrpop_hir::{ClassUnicode, ClassUnicodeRange};
use std::alloc::{AllocError, Global};

/// The set that `name`, a list of characters, stands for in `\p{name}`: `any`, `ascii`, or a name of `unicode`. Case,
/// spaces, `_` and `-` make no difference. `None` if no set has this name.
///
/// # Errors
///
/// `AllocError` if a request for memory was refused.
pub fn named_set(alloc: Global, name: &[char]) -> Result<Option<ClassUnicode>, AllocError>
    ensures found { IfOk result (λ found. MatchOption found (named name.now ≡ None)
        (λ r. (s : Set) × (named name.now ≡ Some s) × HasRuns r s)) }
{
    let name = unicode::sets::normalize(alloc, name)?;
    if name.as_slice() == b"any".as_slice() {
        return Ok(Some(range_class(alloc, '\0', char::MAX)?));
    }
    if name.as_slice() == b"ascii".as_slice() {
        return Ok(Some(range_class(alloc, '\0', '\x7F')?));
    }
    match unicode::sets::by_name(&name) {
        Ok(set) => Ok(Some(class_of_codes(alloc, &set.ranges(alloc)?)?)),
        Err(_) => Ok(None),
    }
}

/// The characters of `\d`: the decimal digits of Unicode.
///
/// # Errors
///
/// `AllocError` if a request for memory was refused.
pub fn digits(alloc: Global) -> Result<ClassUnicode, AllocError>
    ensures runs { IfOk result (λ r. HasRuns r is_digit_char) }
{
    class_of_codes(alloc, &unicode::perl::digit_ranges(alloc)?)
}

/// The characters of `\s`: the white space of Unicode.
///
/// # Errors
///
/// `AllocError` if a request for memory was refused.
pub fn spaces(alloc: Global) -> Result<ClassUnicode, AllocError>
    ensures runs { IfOk result (λ r. HasRuns r is_space_char) }
{
    class_of_codes(alloc, &unicode::perl::space_ranges(alloc)?)
}

/// The characters of `\w`: the word characters of Unicode.
///
/// # Errors
///
/// `AllocError` if a request for memory was refused.
pub fn words(alloc: Global) -> Result<ClassUnicode, AllocError>
    ensures runs { IfOk result (λ r. HasRuns r is_word_char) }
{
    class_of_codes(alloc, &unicode::perl::word_ranges(alloc)?)
}

// The characters whose code is in one of the ranges. The ranges may contain surrogates.
fn class_of_codes(alloc: Global, codes: &[(u32, u32)]) -> Result<ClassUnicode, AllocError>
    requires { AreRanges codes.now }
    ensures { IfOk result (λ r. HasRuns r (in_ranges codes.now)) }
{
    let mut ranges = Vec::new(alloc);
    for &(first, last) in codes {
        let low = first_from(first);
        let high = last_to(last);
        if low <= high {
            ranges.push(ClassUnicodeRange::new(low, high))?;
        }
    }
    ClassUnicode::new(alloc, ranges)
}

// The least character with a code of at least `code`.
fn first_from(code: u32) -> char
    requires { code ≤ 0x10_FFFF }
    ensures { (c : ℕ) → IsScalar c → (result ≤ c) ↔ (code ≤ c) }
{
    char::from_u32(code).unwrap_or('\u{E000}')
}

// The greatest character with a code of at most `code`.
fn last_to(code: u32) -> char
    requires { code ≤ 0x10_FFFF }
    ensures { (c : ℕ) → IsScalar c → (c ≤ result) ↔ (c ≤ code) }
{
    char::from_u32(code).unwrap_or('\u{D7FF}')
}
