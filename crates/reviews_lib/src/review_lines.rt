//! What a review says, in plain lines, and the whole of it.
ghost use Rattle.std.specs.Prelude.{◌≡◌, ◌++◌, flat_map, map, option_map, string_bytes, IfOk, OnOk};
ghost use Rattle.lalrpop_rules.specs.ModeSet.{rules_of};
ghost use Rattle.lalrpop_rules.specs.RuleSet.{names_of};
ghost use Rattle.reviews_lib.specs.Internal.Commas.{comma_before};
ghost use Rattle.reports_lib.specs.Reasons.{mode_said};
ghost use Rattle.reviews_lib.specs.ReviewLines.{after_text, automaton_line, automaton_told, by_mode, characters_text, clash_line, clash_report, clash_told, clashes_told, empty_line, empty_told, has_findings, has_idle, idle_line, idle_once, idle_reason, idle_told, is_only_empty, look_text, mode_before, mode_told, pair_text, place_text, review_text, review_told, rules_text, states_text, winner_text, winners_text, witness_text};

use crate::review_json::{automaton_object, clash_object, empty_object, idle_object};
use lalrpop_lexer::lexer::dfa::{Clash, NfaIndex, Witness};
use lalrpop_lexer::{Position, ShownWord};
use lalrpop_review::{IdleRule, Look, ModeReview, Review, WonWord};
use lalrpop_rules::ModeRule;
use reports_lib::{LineForm, ReportedFile};
use std::alloc::{AllocError, Global};

// Where the text of a rule begins.
fn place_text(
    alloc: Global,
    reported: &ReportedFile<'_>,
    rule: NfaIndex,
) -> Result<String, AllocError>
    ensures { IfOk result (λ text. string_bytes text ≡ place_text reported.now rule) }
{
    let file = reported.file();
    let Position { line, column } = reported.place(rule);
    format!(in alloc; "{file}:{line}:{column}: ")
}

// The mode, if it is named.
fn mode_said(alloc: Global, mode: Option<&str>) -> Result<String, AllocError>
    ensures { IfOk result (λ text. string_bytes text
        ≡ mode_said (option_map (λ m. m.now) mode.entry)) }
{
    match mode {
        Some(mode) => format!(in alloc; " in mode {mode}"),
        None => Ok(String::new(alloc)),
    }
}

// What stands before an item of a list.
fn push_comma(text: &mut String, index: usize) -> Result<(), AllocError>
    ensures { OnOk result (string_bytes text.new ≡ string_bytes text.old ++ comma_before index) }
{
    if index == 0 {
        return Ok(());
    }
    text.push_str(", ")
}

// A rule that matches the empty text.
fn empty_line(
    alloc: Global,
    reported: &ReportedFile<'_>,
    rule: NfaIndex,
) -> Result<String, AllocError>
    ensures { IfOk result (λ line. string_bytes line ≡ empty_line reported.now rule) }
{
    let place = place_text(alloc, reported, rule)?;
    let name = reported.name(rule);
    format!(in alloc; "{place}{name} matches the empty text, and no token is empty\n")
}

// A rule that wins, and the text that it wins.
fn winner_text(
    alloc: Global,
    reported: &ReportedFile<'_>,
    winner: &WonWord,
) -> Result<String, AllocError>
    ensures { IfOk result (λ text. string_bytes text ≡ winner_text reported.now winner.now) }
{
    let name = reported.name(winner.by);
    let word = ShownWord(&winner.word);
    format!(in alloc; "{name} wins {word}")
}

fn winners_text(
    alloc: Global,
    reported: &ReportedFile<'_>,
    winners: &[WonWord],
) -> Result<String, AllocError>
    ensures { IfOk result (λ text. string_bytes text ≡ winners_text reported.now winners.now) }
{
    let mut text = String::new(alloc);
    for index in 0..winners.len() {
        let winner = winner_text(alloc, reported, &winners[index])?;
        push_comma(&mut text, index)?;
        text.push_str(&winner)?;
    }
    Ok(text)
}

// Why a rule never wins.
fn idle_reason(
    alloc: Global,
    reported: &ReportedFile<'_>,
    mode: Option<&str>,
    winners: &[WonWord],
) -> Result<String, AllocError>
    ensures { IfOk result (λ text. string_bytes text
        ≡ idle_reason reported.now (option_map (λ m. m.now) mode.entry) winners.now) }
{
    let mode = mode_said(alloc, mode)?;
    if winners.is_empty() {
        return format!(in alloc; " matches no nonempty text{mode}");
    }
    let winners = winners_text(alloc, reported, winners)?;
    format!(in alloc; " never wins{mode}: {winners}")
}

fn idle_line(
    alloc: Global,
    reported: &ReportedFile<'_>,
    mode: Option<&str>,
    idle: &IdleRule,
) -> Result<String, AllocError>
    ensures { IfOk result (λ line. string_bytes line
        ≡ idle_line reported.now (option_map (λ m. m.now) mode.entry) idle.now) }
{
    let place = place_text(alloc, reported, idle.rule)?;
    let name = reported.name(idle.rule);
    let reason = idle_reason(alloc, reported, mode, &idle.winners)?;
    format!(in alloc; "{place}{name}{reason}\n")
}

// A rule clashes with an earlier one.
fn pair_text(
    alloc: Global,
    reported: &ReportedFile<'_>,
    mode: Option<&str>,
    later: NfaIndex,
    earlier: NfaIndex,
) -> Result<String, AllocError>
    ensures { IfOk result (λ text. string_bytes text
        ≡ pair_text reported.now (option_map (λ m. m.now) mode.entry) later earlier) }
{
    let mode = mode_said(alloc, mode)?;
    let name = reported.name(later);
    let other = reported.name(earlier);
    let line = reported.place(earlier).line;
    format!(in alloc; "{name} clashes with {other} of line {line}{mode}")
}

// Two rules that clash. The place is where the text of the later one begins.
fn clash_line(
    alloc: Global,
    reported: &ReportedFile<'_>,
    mode: Option<&str>,
    clash: &Clash,
) -> Result<String, AllocError>
    ensures { IfOk result (λ line. string_bytes line
        ≡ clash_line reported.now (option_map (λ m. m.now) mode.entry) clash.now) }
{
    let place = place_text(alloc, reported, clash.match0)?;
    let pair = pair_text(alloc, reported, mode, clash.match0, clash.match1)?;
    let word = ShownWord(&clash.word);
    format!(in alloc; "{place}{pair}: both match {word}, and neither wins\n")
}

// The number of states of an automaton.
fn states_text(alloc: Global, states: usize) -> Result<String, AllocError>
    ensures { IfOk result (λ text. string_bytes text ≡ states_text states) }
{
    if states == 1 {
        return String::from_str(alloc, "1 state");
    }
    format!(in alloc; "{states} states")
}

// How many characters are read past a token, where this many can leave it open: one more. It may not fit in 64 bits.
fn characters_text(alloc: Global, count: usize) -> Result<String, AllocError>
    ensures { IfOk result (λ text. string_bytes text ≡ characters_text count) }
{
    if count == 0 {
        return String::from_str(alloc, "1 character is");
    }
    let characters = count as u128 + 1;
    format!(in alloc; "{characters} characters are")
}

// A token that some characters after it leave open, if there are any.
fn after_text(alloc: Global, word: &[u32], after: &[u32]) -> Result<String, AllocError>
    ensures { IfOk result (λ text. string_bytes text ≡ after_text word.now after.now) }
{
    if after.is_empty() {
        return Ok(String::new(alloc));
    }
    let word = ShownWord(word);
    let after = ShownWord(after);
    format!(in alloc; ", as after {word} when {after} follows")
}

fn witness_text(alloc: Global, witness: &Option<Witness>) -> Result<String, AllocError>
    ensures { IfOk result (λ text. string_bytes text ≡ witness_text witness.now) }
{
    match witness {
        Some(found) => after_text(alloc, &found.word, &found.after),
        None => Ok(String::new(alloc)),
    }
}

fn rules_text(
    alloc: Global,
    reported: &ReportedFile<'_>,
    rules: &[NfaIndex],
) -> Result<String, AllocError>
    ensures { IfOk result (λ text. string_bytes text ≡ rules_text reported.now rules.now) }
{
    let mut text = String::new(alloc);
    for index in 0..rules.len() {
        push_comma(&mut text, index)?;
        text.push_str(reported.name(rules[index]))?;
    }
    Ok(text)
}

// How far past a token a mode reads.
fn look_text(alloc: Global, reported: &ReportedFile<'_>, look: &Look) -> Result<String, AllocError>
    ensures { IfOk result (λ text. string_bytes text ≡ look_text reported.now look.now) }
{
    match look {
        Look::AtMost { count, witness } => {
            let characters = characters_text(alloc, *count)?;
            let witness = witness_text(alloc, witness)?;
            format!(in alloc; "at most {characters} read past a token{witness}")
        }
        Look::Unbounded { rules } => {
            let rules = rules_text(alloc, reported, rules)?;
            format!(in alloc; "any number of characters is read past a token of {rules}")
        }
    }
}

// The mode at the front of a line, if it is named.
fn mode_before(alloc: Global, mode: Option<&str>) -> Result<String, AllocError>
    ensures { IfOk result (λ text. string_bytes text
        ≡ mode_before (option_map (λ m. m.now) mode.entry)) }
{
    match mode {
        Some(mode) => format!(in alloc; "mode {mode}: "),
        None => Ok(String::new(alloc)),
    }
}

// The automaton of a mode.
fn automaton_line(
    alloc: Global,
    reported: &ReportedFile<'_>,
    mode: Option<&str>,
    review: &ModeReview,
) -> Result<String, AllocError>
    ensures { IfOk result (λ line. string_bytes line
        ≡ automaton_line reported.now (option_map (λ m. m.now) mode.entry) review.now) }
{
    let file = reported.file();
    let mode = mode_before(alloc, mode)?;
    let states = states_text(alloc, review.least_states)?;
    let look = look_text(alloc, reported, &review.look)?;
    format!(in alloc; "{file}: {mode}{states} in the smallest automaton; {look}\n")
}

// The line of a rule that matches the empty text, in either form.
fn empty_told(
    alloc: Global,
    form: LineForm,
    reported: &ReportedFile<'_>,
    rule: NfaIndex,
) -> Result<Vec<u8>, AllocError>
    ensures { IfOk result (λ line. line.items ≡ empty_told form reported.now rule) }
{
    match form {
        LineForm::Plain => Ok(empty_line(alloc, reported, rule)?.into_bytes()),
        LineForm::Json => empty_object(alloc, reported, rule),
    }
}

// The line of a rule that never wins, in either form.
fn idle_told(
    alloc: Global,
    form: LineForm,
    reported: &ReportedFile<'_>,
    mode: Option<&str>,
    idle: &IdleRule,
) -> Result<Vec<u8>, AllocError>
    ensures { IfOk result (λ line. line.items
        ≡ idle_told form reported.now (option_map (λ m. m.now) mode.entry) idle.now) }
{
    match form {
        LineForm::Plain => Ok(idle_line(alloc, reported, mode, idle)?.into_bytes()),
        LineForm::Json => idle_object(alloc, reported, mode, idle),
    }
}

// Whether a rule that never wins is one of those that match the empty text, and matches no other.
fn is_only_empty(empty: &[NfaIndex], idle: &IdleRule) -> bool
    ensures { result ≡ is_only_empty empty.now idle.now }
{
    idle.winners.is_empty() && empty.contains(&idle.rule)
}

// The line of a rule that never wins, unless all of it is told where those that match the empty text are.
fn idle_once(
    alloc: Global,
    form: LineForm,
    reported: &ReportedFile<'_>,
    empty: &[NfaIndex],
    mode: Option<&str>,
    idle: &IdleRule,
) -> Result<Vec<u8>, AllocError>
    ensures { IfOk result (λ line. line.items
        ≡ idle_once form reported.now empty.now (option_map (λ m. m.now) mode.entry) idle.now) }
{
    if is_only_empty(empty, idle) {
        return Ok(Vec::new(alloc));
    }
    idle_told(alloc, form, reported, mode, idle)
}

// The line of the automaton of a mode, in either form.
fn automaton_told(
    alloc: Global,
    form: LineForm,
    reported: &ReportedFile<'_>,
    mode: Option<&str>,
    review: &ModeReview,
) -> Result<Vec<u8>, AllocError>
    ensures { IfOk result (λ line. line.items
        ≡ automaton_told form reported.now (option_map (λ m. m.now) mode.entry) review.now) }
{
    match form {
        LineForm::Plain => Ok(automaton_line(alloc, reported, mode, review)?.into_bytes()),
        LineForm::Json => automaton_object(alloc, reported, mode, review),
    }
}

// The line of a clash, in either form.
fn clash_told(
    alloc: Global,
    form: LineForm,
    reported: &ReportedFile<'_>,
    mode: Option<&str>,
    clash: &Clash,
) -> Result<Vec<u8>, AllocError>
    ensures { IfOk result (λ line. line.items
        ≡ clash_told form reported.now (option_map (λ m. m.now) mode.entry) clash.now) }
{
    match form {
        LineForm::Plain => Ok(clash_line(alloc, reported, mode, clash)?.into_bytes()),
        LineForm::Json => clash_object(alloc, reported, mode, clash),
    }
}

// The rules that match the empty text.
fn push_empty(
    alloc: Global,
    lines: &mut Vec<u8>,
    form: LineForm,
    reported: &ReportedFile<'_>,
    rules: &[NfaIndex],
) -> Result<(), AllocError>
    ensures { OnOk result (lines.new.items
        ≡ lines.old.items ++ flat_map (empty_told form reported.now) rules.now) }
{
    for rule in rules {
        let line = empty_told(alloc, form, reported, *rule)?;
        lines.extend_from_slice(&line)?;
    }
    Ok(())
}

// The rules that never win in a mode.
fn push_idle(
    alloc: Global,
    lines: &mut Vec<u8>,
    form: LineForm,
    reported: &ReportedFile<'_>,
    empty: &[NfaIndex],
    mode: Option<&str>,
    rules: &[IdleRule],
) -> Result<(), AllocError>
    ensures { OnOk result (lines.new.items ≡ lines.old.items ++ flat_map
        (idle_once form reported.now empty.now (option_map (λ m. m.now) mode.entry)) rules.now) }
{
    for idle in rules {
        let line = idle_once(alloc, form, reported, empty, mode, idle)?;
        lines.extend_from_slice(&line)?;
    }
    Ok(())
}

// A mode: its rules that never win, and its automaton.
fn push_mode(
    alloc: Global,
    lines: &mut Vec<u8>,
    form: LineForm,
    reported: &ReportedFile<'_>,
    empty: &[NfaIndex],
    mode: Option<&str>,
    review: &ModeReview,
) -> Result<(), AllocError>
    ensures { OnOk result (lines.new.items ≡ lines.old.items
        ++ mode_told form reported.now empty.now (option_map (λ m. m.now) mode.entry) review.now) }
{
    push_idle(alloc, lines, form, reported, empty, mode, &review.idle)?;
    let line = automaton_told(alloc, form, reported, mode, review)?;
    lines.extend_from_slice(&line)
}

// The modes, one after the other.
fn push_modes(
    alloc: Global,
    lines: &mut Vec<u8>,
    form: LineForm,
    reported: &ReportedFile<'_>,
    empty: &[NfaIndex],
    modes: &[ModeReview],
) -> Result<(), AllocError>
    ensures { OnOk result (lines.new.items ≡ lines.old.items
        ++ by_mode (mode_told form reported.now empty.now) reported.now.modes 0 modes.now) }
{
    for mode in 0..modes.len() {
        let name = reported.mode(mode);
        push_mode(alloc, lines, form, reported, empty, name, &modes[mode])?;
    }
    Ok(())
}

fn review_told(
    alloc: Global,
    form: LineForm,
    reported: &ReportedFile<'_>,
    review: &Review,
) -> Result<Vec<u8>, AllocError>
    ensures { IfOk result (λ text. text.items ≡ review_told form reported.now review.now) }
{
    let mut lines = Vec::new(alloc);
    push_empty(alloc, &mut lines, form, reported, &review.empty)?;
    push_modes(
        alloc,
        &mut lines,
        form,
        reported,
        &review.empty,
        &review.modes,
    )?;
    Ok(lines)
}

/// The text of a review of rules with these modes, whose texts begin at these places of the file: a line for each rule that
/// matches the empty text, and then, mode by mode, a line for each rule that never wins there, unless it matches only the empty
/// text, and one for its automaton. A line names the mode if there are several.
///
/// ```
/// use reviews_lib::{LineForm, review_text};
///
/// let text = review_text(alloc, LineForm::Plain, "a.rules", &["INITIAL"], &rules, &places, &review)?;
/// // a.rules:1:6: IF never wins: NAME wins "if"
/// // a.rules: 3 states in the smallest automaton; at most 1 character is read past a token
/// ```
///
/// # Errors
///
/// `AllocError` if a request for memory was refused.
pub fn review_text(
    alloc: Global,
    form: LineForm,
    file: &str,
    modes: &[&str],
    rules: &[ModeRule<'_>],
    places: &[Position],
    review: &Review,
) -> Result<Vec<u8>, AllocError>
    ensures text { IfOk result (λ text. text.items ≡ review_text form file.now
        (map (λ m. m.now) modes.now) (names_of (rules_of rules.now)) places.now review.now) }
{
    let reported = ReportedFile::new(file, modes, rules, places);
    review_told(alloc, form, &reported, review)
}

// The clashes of a mode.
fn push_clashes(
    alloc: Global,
    lines: &mut Vec<u8>,
    form: LineForm,
    reported: &ReportedFile<'_>,
    mode: Option<&str>,
    found: &[Clash],
) -> Result<(), AllocError>
    ensures { OnOk result (lines.new.items ≡ lines.old.items
        ++ flat_map (clash_told form reported.now (option_map (λ m. m.now) mode.entry)) found.now) }
{
    for clash in found {
        let line = clash_told(alloc, form, reported, mode, clash)?;
        lines.extend_from_slice(&line)?;
    }
    Ok(())
}

fn clashes_told(
    alloc: Global,
    form: LineForm,
    reported: &ReportedFile<'_>,
    found: &[Vec<Clash>],
) -> Result<Vec<u8>, AllocError>
    ensures { IfOk result (λ text. text.items
        ≡ clashes_told form reported.now 0 (map (λ cs. cs.items) found.now)) }
{
    let mut lines = Vec::new(alloc);
    for mode in 0..found.len() {
        let name = reported.mode(mode);
        push_clashes(alloc, &mut lines, form, reported, name, &found[mode])?;
    }
    Ok(lines)
}

/// The text of the clashes of rules with these modes, as `lalrpop_rules::mode_clashes` finds them, mode by mode: a line for each,
/// at the place where the text of the later rule begins. A line names the mode if there are several.
///
/// ```
/// use reviews_lib::{LineForm, clash_report};
///
/// let text = clash_report(alloc, LineForm::Plain, "a.rules", &["INITIAL"], &rules, &places, &found)?;
/// // a.rules:2:8: NAME clashes with IF of line 1: both match "if", and neither wins
/// ```
///
/// # Errors
///
/// `AllocError` if a request for memory was refused.
pub fn clash_report(
    alloc: Global,
    form: LineForm,
    file: &str,
    modes: &[&str],
    rules: &[ModeRule<'_>],
    places: &[Position],
    found: &[Vec<Clash>],
) -> Result<Vec<u8>, AllocError>
    ensures text { IfOk result (λ text. text.items ≡ clash_report form file.now
        (map (λ m. m.now) modes.now) (names_of (rules_of rules.now)) places.now
        0 (map (λ cs. cs.items) found.now)) }
{
    let reported = ReportedFile::new(file, modes, rules, places);
    clashes_told(alloc, form, &reported, found)
}

// Whether some rule never wins in the mode.
fn has_idle(review: &ModeReview) -> bool
    ensures { result ≡ has_idle review.now }
{
    !review.idle.is_empty()
}

/// Whether some rule matches the empty text, or never wins in some mode.
///
/// ```
/// use reviews_lib::has_findings;
///
/// let status = if has_findings(&review) { 1 } else { 0 };
/// ```
pub fn has_findings(review: &Review) -> bool
    ensures findings { result ≡ has_findings review.now }
{
    !review.empty.is_empty() || review.modes.iter().any(has_idle)
}
