//! Words and marks at the front of a text.
ghost use Rattle.std.specs.Prelude.{◌≡◌, ◌≢◌, ◌<◌, ◌∷◌, ◌++◌, ℕ, List, IfSome, IfNone};
ghost use Rattle.lalrpop_rule_file.specs.Words.{EachByte, IsSpan, begins, begins_name as can_begin_name, is_of_name};

/// Whether the first character can begin a name.
pub(crate) fn begins_name(text: &str) -> bool
    ensures { result ≡ begins can_begin_name text.now }
{
    match text.as_bytes() {
        [first, ..] => first.is_ascii_alphabetic() || *first == b'_',
        [] => false,
    }
}

/// What follows an ASCII mark at the front.
pub(crate) fn behind(text: &str, mark: char) -> Option<&str>
    requires { mark < 128 }
    ensures some { IfSome result (λ rest. text.now ≡ mark ∷ rest.now) }
    ensures none { IfNone result ((rest : List ℕ) → text.now ≢ mark ∷ rest) }
{
    let rest = text.strip_prefix(mark)?;
    Some(rest)
}

/// What follows the bytes of this word at the front.
pub(crate) fn after_word<'text>(text: &'text [u8], word: &str) -> Option<&'text [u8]>
    ensures some { IfSome result (λ rest. text.now ≡ word.now ++ rest.now) }
    ensures none { IfNone result ((rest : List ℕ) → text.now ≢ word.now ++ rest) }
{
    let rest = text.strip_prefix(word.as_bytes())?;
    Some(rest)
}

// Whether the first character can stand in a name.
fn goes_on(text: &str) -> bool
    ensures { result ≡ begins is_of_name text.now }
{
    match text.as_bytes() {
        [first, ..] => first.is_ascii_alphanumeric() || *first == b'_',
        [] => false,
    }
}

/// What follows this word at the front, where that isn't the beginning of a longer word.
pub(crate) fn behind_word<'text>(text: &'text str, word: &str) -> Option<&'text str>
    requires { EachByte is_of_name word.now }
    ensures some { IfSome result (λ behind. IsSpan is_of_name text.now word.now behind.now) }
    ensures none { IfNone result ((behind : List ℕ)
        → ¬ IsSpan is_of_name text.now word.now behind) }
{
    let behind = text.strip_prefix(word)?;
    if goes_on(behind) {
        return None;
    }
    Some(behind)
}
