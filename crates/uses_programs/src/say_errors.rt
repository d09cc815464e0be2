//! What the program says of files that give no lexer, said by a program of one's own.
ghost use Rattle.std.specs.Prelude.{◌≡◌, List, [], ◌∷◌, codes, length, string_bytes, IfOk, IfSome};
ghost use Rattle.bajofeki_rules.specs.Lines.{lines};
ghost use Rattle.lalrpop_rule_file.specs.FileModes.{Said};
ghost use Rattle.lalrpop_rule_file.specs.RuleFile.{LinesSay, without_mark};
ghost use Rattle.lalrpop_rule_file.specs.declared.warning.Warning.TheVariants.{ModeNotEntered};
ghost use Rattle.tokens_lib.specs.ModePlace.{section_place};
ghost use Rattle.tokens_lib.specs.PieceLines.{object_line};
ghost use Rattle.tokens_lib.specs.Warned.{AreWarnings, warning_members};

use std::alloc::{AllocError, Global};
use tokens_lib::{ModeFile, RuleFile, warnings_json, warnings_message};

// Nothing is said of a file that means all that it says.
// Needs tokens_lib::warnings_message: message.
pub fn said_of_what_is_meant(
    alloc: Global,
    bytes: &[u8],
    file: &RuleFile<'_>,
) -> Result<String, AllocError>
    requires no_warning { AreWarnings file.now [] }
    ensures said { IfOk result (λ message. string_bytes message ≡ []) }
{
    warnings_message(alloc, "f", bytes, file)
}

// Where a mode that no rule enters is all that is wrong, its object says where its section begins.
// Needs tokens_lib::warnings_json: objects.
pub fn object_of_a_mode(
    alloc: Global,
    bytes: &[u8],
    file: &RuleFile<'_>,
) -> Result<Vec<u8>, AllocError>
    requires warning { AreWarnings file.now (ModeNotEntered 0 ∷ []) }
    ensures object { IfOk result (λ object. (said : List Said)
        → LinesSay (lines (without_mark bytes.now)) said
        → object.items ≡ object_line (warning_members (codes "f")
        (section_place 1 (lines (without_mark bytes.now)) said) file.now (ModeNotEntered 0))) }
{
    warnings_json(alloc, "f", bytes, file)
}

// How many modes a file has.
// Needs tokens_lib::ModeFile::of: modes.
pub fn mode_count(alloc: Global, file: &RuleFile<'_>) -> Option<usize>
    ensures count { IfSome result (λ n. n ≡ length file.now.modes.items) }
{
    match ModeFile::of(alloc, file) {
        Ok(found) => Some(found.modes.len()),
        Err(_) => None,
    }
}
