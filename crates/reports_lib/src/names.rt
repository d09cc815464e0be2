//! The names of a lexer's rules and modes.
ghost use Rattle.std.specs.Prelude.{◌≡◌, map, option_map, string_bytes};
ghost use Rattle.reports_lib.specs.PieceLines.{mode_named as mode_named_of, name_at};

use lalrpop_lexer::lexer::dfa::NfaIndex;
use lalrpop_rules::RuleLexer;

/// The name of a rule, or the empty string if no rule has the index. The rule of a token always has one.
pub fn name_of(lexer: &RuleLexer, index: NfaIndex) -> &str
    ensures { result.now ≡ name_at lexer.now.names index }
{
    match lexer.name(index) {
        Some(name) => name,
        None => "",
    }
}

/// The name of the mode with this number, or the empty string if no mode has it.
pub fn mode_name(modes: &[String], mode: usize) -> &str
    ensures name { result.now ≡ name_at (map string_bytes modes.now) mode }
{
    match modes.get(mode) {
        Some(name) => name.as_str(),
        None => "",
    }
}

/// The name of the mode with this number, if there are several.
pub fn mode_named(modes: &[String], mode: usize) -> Option<&str>
    ensures { option_map (λ m. m.now) result ≡ mode_named_of (map string_bytes modes.now) mode }
{
    if modes.len() > 1 {
        return Some(mode_name(modes, mode));
    }
    None
}
