//! Two files of rules that are compared.
ghost use Rattle.std.specs.Prelude.{◌≡◌, ◌≢◌, ◌<◌, ◌++◌, ◌↔◌, ℕ, List, Option, false, true, map, slice_get, string_bytes, unwrap_or, IsTrue, IfOk, OnOk, OnErr, IfErr};
ghost use Rattle.lalrpop_review.specs.Apart.{told};
ghost use Rattle.lalrpop_verdicts.specs.Differences.{Answers};
ghost use Rattle.reviews_lib.specs.Compared.{DifferenceAnswer, IsDifference, IsDifferenceText, action_text, difference_line, modes_line as modes_line_of, modes_text, place_text, skip_text, spaced, text_status, token_text};
ghost use Rattle.reports_lib.specs.PieceLines.{mode_named, name_at};

use lalrpop_lexer::ShownWord;
use lalrpop_lexer::lexer::dfa::NfaIndex;
use lalrpop_review::{Difference, difference_in};
use lalrpop_rules::{Action, RuleLexer};
use reports_lib::{Reply, mode_name};
use std::alloc::{AllocError, Global};

// An action as files of rules write it.
fn push_action(text: &mut String, modes: &[String], action: Action) -> Result<(), AllocError>
    ensures { OnOk result (string_bytes text.new ≡ string_bytes text.old
        ++ action_text (map string_bytes modes.now) action) }
{
    match action {
        Action::Mode(mode) => write!(text, " mode {}", mode_name(modes, mode)),
        Action::Push(mode) => write!(text, " push {}", mode_name(modes, mode)),
        Action::Pop => text.push_str(" pop"),
    }
}

// The name of the rule with this index, or the empty string if no rule has it.
fn rule_name(lexer: &RuleLexer, rule: NfaIndex) -> &str
    ensures { result.now ≡ name_at lexer.now.names rule }
{
    lexer.name(rule).unwrap_or("")
}

// Whether it is skipped.
fn is_skipped(lexer: &RuleLexer, rule: NfaIndex) -> bool
    ensures { result ≡ unwrap_or (slice_get lexer.now.skips rule) false }
{
    lexer.skips().get(rule.index()).copied().unwrap_or(false)
}

// The word for a rule that is skipped.
fn push_skip(text: &mut String, is_skipped: bool) -> Result<(), AllocError>
    ensures { OnOk result (string_bytes text.new ≡ string_bytes text.old ++ skip_text is_skipped) }
{
    if is_skipped {
        text.push_str(" skip")?;
    }
    Ok(())
}

/// Appends the token of the rule with this index, and what it does, as files of rules write it: `NAME skip push STRING`. If there
/// is no rule, it is `no token`.
///
/// ```
/// use lalrpop_lexer::lexer::dfa::NfaIndex;
/// use reviews_lib::push_token;
///
/// let mut text = String::new(alloc);
/// push_token(&mut text, &file.modes, &file.lexer, Some(NfaIndex::new(0)))?; // "QUOTE push STRING"
/// ```
///
/// # Errors
///
/// `AllocError` if a request for memory was refused.
pub fn push_token(
    text: &mut String,
    modes: &[String],
    lexer: &RuleLexer,
    rule: Option<NfaIndex>,
) -> Result<(), AllocError>
    ensures { OnOk result (string_bytes text.new ≡ string_bytes text.old
        ++ token_text (map string_bytes modes.now) (told lexer.now rule)) }
{
    let Some(rule) = rule else {
        return text.push_str("no token");
    };
    text.push_str(rule_name(lexer, rule))?;
    push_skip(text, is_skipped(lexer, rule))?;
    for action in lexer.actions(rule) {
        push_action(text, modes, *action)?;
    }
    Ok(())
}

// The mode, if there are several.
fn push_place(text: &mut String, modes: &[String], mode: usize) -> Result<(), AllocError>
    ensures { OnOk result (string_bytes text.new ≡ string_bytes text.old
        ++ place_text (mode_named (map string_bytes modes.now) mode)) }
{
    if modes.len() > 1 {
        write!(text, "in mode {}, ", mode_name(modes, mode))?;
    }
    Ok(())
}

// The line of a difference in this mode.
fn push_difference(
    text: &mut String,
    old_name: &str,
    old: &RuleLexer,
    new_name: &str,
    new: &RuleLexer,
    mode: usize,
    found: &Difference,
) -> Result<(), AllocError>
    ensures { OnOk result (string_bytes text.new ≡ string_bytes text.old ++ difference_line
        old_name.now old.now old.now.mode_names
        new_name.now new.now new.now.mode_names mode (Some found.now)) }
{
    push_place(text, old.mode_names(), mode)?;
    write!(text, "{} is ", ShownWord(&found.word))?;
    push_token(text, old.mode_names(), old, found.left)?;
    write!(text, " in {old_name}, and ")?;
    push_token(text, new.mode_names(), new, found.right)?;
    write!(text, " in {new_name}\n")
}

// What differs in this mode.
fn push_mode(
    alloc: Global,
    text: &mut String,
    old_name: &str,
    old: &RuleLexer,
    new_name: &str,
    new: &RuleLexer,
    mode: usize,
) -> Result<(), AllocError>
    requires in_old { mode < old.now.modes }
    requires in_new { mode < new.now.modes }
    ensures { OnOk result ((f : Option Answers)
        × (IsDifference old.now new.now mode f
        × (string_bytes text.new ≡ string_bytes text.old ++ difference_line
        old_name.now old.now old.now.mode_names
        new_name.now new.now new.now.mode_names mode f))) }
{
    match difference_in(alloc, old, new, mode)? {
        Some(found) => push_difference(text, old_name, old, new_name, new, mode, &found),
        None => Ok(()),
    }
}

// Names, each after a space.
fn push_names(text: &mut String, names: &[String]) -> Result<(), AllocError>
    ensures { OnOk result (string_bytes text.new ≡ string_bytes text.old
        ++ spaced (map string_bytes names.now)) }
{
    for name in names {
        write!(text, " {name}")?;
    }
    Ok(())
}

// What modes a file has.
fn push_modes(
    text: &mut String,
    name: &str,
    words: &str,
    modes: &[String],
) -> Result<(), AllocError>
    ensures { OnOk result (string_bytes text.new ≡ string_bytes text.old
        ++ modes_text name.now words.now (map string_bytes modes.now)) }
{
    text.push_str(name)?;
    text.push_str(words)?;
    push_names(text, modes)
}

// The line that says that the names of the modes differ.
fn modes_line(
    alloc: Global,
    old_name: &str,
    modes: &[String],
    new_name: &str,
    others: &[String],
) -> Result<String, AllocError>
    ensures { IfOk result (λ text. string_bytes text
        ≡ modes_line_of old_name.now (map string_bytes modes.now)
        new_name.now (map string_bytes others.now)) }
{
    let mut text = String::new(alloc);
    push_modes(&mut text, old_name, " has the modes", modes)?;
    text.push_str(", and ")?;
    push_modes(&mut text, new_name, " has", others)?;
    text.push_str("\n")?;
    Ok(text)
}

// Whether both have the same names in the same order.
fn are_same(names: &[String], others: &[String]) -> bool
    ensures { IsTrue result ↔ (map string_bytes names.now ≡ map string_bytes others.now) }
{
    names == others
}

// All that differs.
fn difference_text(
    alloc: Global,
    old_name: &str,
    old: &RuleLexer,
    new_name: &str,
    new: &RuleLexer,
) -> Result<String, AllocError>
    ensures { IfOk result (λ text. IsDifferenceText
        old_name.now old.now old.now.mode_names
        new_name.now new.now new.now.mode_names (string_bytes text)) }
{
    if !are_same(old.mode_names(), new.mode_names()) {
        return modes_line(
            alloc,
            old_name,
            old.mode_names(),
            new_name,
            new.mode_names(),
        );
    }
    let mut text = String::new(alloc);
    for mode in 0..old.modes().min(new.modes()) {
        push_mode(alloc, &mut text, old_name, old, new_name, new, mode)?;
    }
    Ok(text)
}

// 1 if something is written.
fn status_of(text: &str) -> u8
    ensures { result ≡ text_status text.now }
{
    if text.is_empty() { 0 } else { 1 }
}

/// What tells the rules of two files apart, with the status 1; or nothing, with 0, if nothing does. For each mode it is the least
/// text that is another token by one file than by the other, as
///
/// ```text
/// in mode INITIAL, "if" is IF in old.rules, and NAME skip push STRING in new.rules
/// ```
///
/// without the mode if there is but one; or one line if the modes of the files have other names.
///
/// # Errors
///
/// `AllocError` if a request for memory was refused.
pub fn difference_reply(
    alloc: Global,
    old_name: &str,
    old: &RuleLexer,
    new_name: &str,
    new: &RuleLexer,
) -> Result<Reply, AllocError>
    ensures answer { IfOk result (DifferenceAnswer
        old_name.now old.now old.now.mode_names
        new_name.now new.now new.now.mode_names) }
{
    let text = difference_text(alloc, old_name, old, new_name, new)?;
    let status = status_of(&text);
    Ok(Reply::written(alloc, status, text.into_bytes()))
}
