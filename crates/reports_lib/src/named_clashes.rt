//! The lines of the clashes of rules.
ghost use Rattle.std.specs.Prelude.{◌≡◌, ◌≢◌, ◌++◌, List, map, flat_map, option_map, false, true, string_bytes, IfOk, OnOk, OnErr, IfErr};
ghost use Rattle.lalrpop_rules.specs.ModeSet.{rules_of};
ghost use Rattle.lalrpop_rules.specs.RuleSet.{names_of};
ghost use Rattle.reports_lib.specs.PieceLines.{mode_named as mode_named_of, name_at};
ghost use Rattle.reports_lib.specs.Internal.RuleNames.{name_found as name_found_in};
ghost use Rattle.reports_lib.specs.RuleClashes.{clash_lines as lines_of_clashes, mode_text, named_line};

use lalrpop_lexer::ShownWord;
use lalrpop_lexer::lexer::dfa::Clash;
use lalrpop_rules::ModeRule;
use std::alloc::{AllocError, Global};

// The name of the rule that has this index, if there is one.
fn name_found<'text>(rules: &[ModeRule<'text>], index: usize) -> &'text str
    ensures { result.now ≡ name_found_in (rules_of rules.now) index }
{
    match rules.get(index) {
        Some(rule) => rule.rule.name,
        None => "",
    }
}

/// The name of the rule with this index, or the empty string if no rule has it.
pub(crate) fn name_of<'text>(rules: &[ModeRule<'text>], index: usize) -> &'text str
    ensures name { result.now ≡ name_at (names_of (rules_of rules.now)) index }
{
    name_found(rules, index)
}

/// The name of the mode with this number, if there are several modes.
pub(crate) fn mode_named<'text>(modes: &[&'text str], mode: usize) -> Option<&'text str>
    ensures name { option_map (λ m. m.now) result
        ≡ mode_named_of (map (λ m. m.now) modes.now) mode }
{
    if modes.len() <= 1 {
        return None;
    }
    match modes.get(mode) {
        Some(name) => Some(*name),
        None => Some(""),
    }
}

// The mode, if it is named.
fn push_mode(lines: &mut String, mode: Option<&str>) -> Result<(), AllocError>
    ensures { OnOk result (string_bytes lines.new
        ≡ string_bytes lines.old ++ mode_text (option_map (λ m. m.now) mode.entry)) }
{
    if let Some(name) = mode {
        lines.push_str(name)?;
        lines.push(' ')?;
    }
    Ok(())
}

fn push_clash(
    alloc: Global,
    lines: &mut String,
    rules: &[ModeRule<'_>],
    mode: Option<&str>,
    clash: &Clash,
) -> Result<(), AllocError>
    ensures { OnOk result (string_bytes lines.new ≡ string_bytes lines.old
        ++ named_line (names_of (rules_of rules.now)) (option_map (λ m. m.now) mode.entry) clash.now) }
{
    let earlier = name_of(rules, clash.match1.index());
    let later = name_of(rules, clash.match0.index());
    let word = ShownWord(&clash.word);
    push_mode(lines, mode)?;
    write!(lines, "{earlier} {later} {word}\n")
}

// The lines of the clashes of one mode.
fn push_clashes(
    alloc: Global,
    lines: &mut String,
    rules: &[ModeRule<'_>],
    mode: Option<&str>,
    found: &[Clash],
) -> Result<(), AllocError>
    ensures { OnOk result (string_bytes lines.new ≡ string_bytes lines.old ++ flat_map
        (named_line (names_of (rules_of rules.now)) (option_map (λ m. m.now) mode.entry))
        found.now) }
{
    for clash in found {
        push_clash(alloc, lines, rules, mode, clash)?;
    }
    Ok(())
}

/// A line for each of these clashes, mode by mode, as `lalrpop_rules::mode_clashes` finds them: the name of the mode, if there are
/// several, the names of the two rules, the earlier one first, and the word in quotes.
///
/// ```
/// use tokens_lib::{clash_lines, mode_clashes};
///
/// let found = mode_clashes(alloc, &rules, 1)?;
/// let lines = clash_lines(alloc, &rules, &["INITIAL"], &found)?; // as `IF NAME "if"`
/// ```
///
/// # Errors
///
/// `AllocError` if a request for memory was refused.
pub fn clash_lines(
    alloc: Global,
    rules: &[ModeRule<'_>],
    modes: &[&str],
    found: &[Vec<Clash>],
) -> Result<String, AllocError>
    ensures lines { IfOk result (λ lines. string_bytes lines
        ≡ lines_of_clashes (map (λ m. m.now) modes.now) (names_of (rules_of rules.now)) 0
        (map (λ cs. cs.items) found.now)) }
{
    let mut lines = String::new(alloc);
    for mode in 0..found.len() {
        push_clashes(
            alloc,
            &mut lines,
            rules,
            mode_named(modes, mode),
            &found[mode],
        )?;
    }
    Ok(lines)
}
