//! What is written and said has only characters that are seen, so that no text can steer a terminal.
ghost use Rattle.std.specs.Prelude.{◌+◌, ◌≤◌, length, map, string_bytes, All, IfOk, OnOk};
ghost use Rattle.lalrpop_rules.specs.ModeSet.{rules_of};
ghost use Rattle.lalrpop_rules.specs.RuleSet.{names_of};
ghost use Rattle.reports_lib.specs.Reasons.{CanBeSaid};
ghost use Rattle.reports_lib.specs.Safe.{IsSafe};

use lalrpop_lexer::Position;
use lalrpop_rules::RulesError;
use reports_lib::{Shown, push_json, push_plain};
use std::alloc::{AllocError, Global};
use tokens_lib::{ModeFile, RuleFileError, bad_line_message, rules_message};

// The line of any bytes, by a rule whose name is safe, after lines that are safe.
// Needs reports_lib::push_plain.
pub fn line_of_a_token(
    alloc: Global,
    lines: &mut Vec<u8>,
    position: Position,
    name: &str,
    slice: &[u8],
) -> Result<(), AllocError>
    requires lines { IsSafe lines.old.items }
    requires name { IsSafe name.now }
    ensures safe { OnOk result (IsSafe lines.new.items) }
{
    let shown = Shown {
        start: 0,
        name: Some(name),
        mode: None,
        slice,
    };
    push_plain(alloc, lines, None, position, &shown)?;
    Ok(())
}

// The object of any bytes, in a file and by a rule of any names, after lines that are safe.
// Needs reports_lib::push_json.
pub fn object_of_a_token(
    alloc: Global,
    lines: &mut Vec<u8>,
    file: &str,
    position: Position,
    shown: &Shown<'_, '_, '_>,
) -> Result<(), AllocError>
    requires fits { shown.now.start + length shown.now.slice.now ≤ usize.MAX }
    requires lines { IsSafe lines.old.items }
    ensures safe { OnOk result (IsSafe lines.new.items) }
{
    push_json(alloc, lines, Some(file), position, shown)?;
    Ok(())
}

// What is said of a bad line, whatever the file has.
// Needs tokens_lib::bad_line_message: message.
pub fn said_of_any_line(
    alloc: Global,
    name: &str,
    bytes: &[u8],
    error: &RuleFileError,
) -> Result<String, AllocError>
    requires name { IsSafe name.now }
    ensures safe { IfOk result (λ message. IsSafe (string_bytes message)) }
{
    bad_line_message(alloc, name, bytes, error)
}

// What is said of rules whose names are safe, as those of a file are.
// Needs tokens_lib::rules_message: message.
pub fn said_of_any_rules(
    alloc: Global,
    name: &str,
    bytes: &[u8],
    file: &ModeFile<'_>,
    error: &RulesError,
) -> Result<String, AllocError>
    requires error { CanBeSaid (rules_of file.now.rules.items) error.now }
    requires name { IsSafe name.now }
    requires modes { All IsSafe (map (λ m. m.now) file.now.modes.items) }
    requires rules { All IsSafe (names_of (rules_of file.now.rules.items)) }
    ensures safe { IfOk result (λ message. IsSafe (string_bytes message)) }
{
    rules_message(alloc, name, bytes, file, error)
}
