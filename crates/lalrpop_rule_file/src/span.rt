//! The characters at the front of a text that belong to a class.
ghost use Rattle.std.specs.Prelude.{◌≡◌};
ghost use Rattle.std.specs.List.{prefix_len};
ghost use Rattle.lalrpop_rule_file.specs.Internal.Spans.{members};
ghost use Rattle.lalrpop_rule_file.specs.Words.{IsSpan};

/// A class of ASCII characters.
#[derive(Clone, Copy)]
pub(crate) enum Class {
    /// Spaces and tabs.
    Blank,
    /// Letters, digits and `_`.
    Name,
    /// Decimal digits.
    Digit,
}

// Whether the byte belongs to the class.
fn belongs(class: Class, byte: u8) -> bool
    ensures { result ≡ members class byte }
{
    match class {
        Class::Blank => byte == b' ' || byte == b'\t',
        Class::Name => byte.is_ascii_alphanumeric() || byte == b'_',
        Class::Digit => byte.is_ascii_digit(),
    }
}

// The number of bytes at the front of the text that belong to the class.
fn front_len(text: &str, class: Class) -> usize
    ensures { result ≡ prefix_len (members class) text.now }
{
    text.bytes()
        .take_while(|byte| belongs(class, *byte))
        .count()
}

/// The characters of the class at the front of the text, and the rest.
pub(crate) fn split_front(text: &str, class: Class) -> (&str, &str)
    ensures span { IsSpan (members class) text.now result.0.now result.1.now }
{
    text.split_at(front_len(text, class))
}
