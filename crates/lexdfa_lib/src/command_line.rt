//! The program's arguments.
ghost use Rattle.std.specs.Prelude.{Bool, List, ℕ, map, string_bytes, IfSome, IfNone};
ghost use Rattle.lexdfa_lib.specs.Arguments.{AreArguments};

/// Whether all of the text is to be cut, and the text. A single argument is the text, whatever it is; after `--all`, all of the
/// text is cut. `None` for any other arguments.
pub fn arguments(words: &[String]) -> Option<(bool, &str)>
    ensures text { IfSome result (λ found.
        AreArguments (map string_bytes words.now) found.0 found.1.now) }
    ensures other { IfNone result ((all : Bool) (text : List ℕ)
        → ¬ AreArguments (map string_bytes words.now) all text) }
{
    match words {
        [text] => Some((false, text.as_str())),
        [flag, text] if flag.as_str() == "--all" => Some((true, text.as_str())),
        _ => None,
    }
}
