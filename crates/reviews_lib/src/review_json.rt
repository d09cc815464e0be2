//! What a review says, as JSON objects.
ghost use Rattle.std.specs.Prelude.{◌≡◌, ◌+◌, ◌++◌, codes, option_map, string_bytes, IfOk, OnOk};
ghost use Rattle.reports_lib.specs.PieceLines.{number_member, string_member, object_line};
ghost use Rattle.reviews_lib.specs.ReviewJson.{after_members, automaton_members, clash_members, empty_members, idle_members, look_members, place_members, rule_member, unbounded_members, winner_object, winners_member, witness_members, word_text};

use json::Writer;
use lalrpop_lexer::Position;
use lalrpop_lexer::lexer::dfa::{Clash, NfaIndex, Witness};
use lalrpop_review::{IdleRule, Look, ModeReview, WonWord};
use reports_lib::{ReportedFile, begun_object, ended_line, write_mode, write_number, write_string};
use std::alloc::{AllocError, Global};

// The text of a word. U+FFFD stands for a value that is no character.
fn word_text(alloc: Global, word: &[u32]) -> Result<String, AllocError>
    ensures { IfOk result (λ text. string_bytes text ≡ word_text word.now) }
{
    let mut text = String::new(alloc);
    for value in word {
        text.push(char::from_u32(*value).unwrap_or(char::REPLACEMENT_CHARACTER))?;
    }
    Ok(text)
}

// A member whose value is the text of a word.
fn write_word(
    alloc: Global,
    writer: &mut Writer,
    name: &str,
    word: &[u32],
) -> Result<(), AllocError>
    ensures tokens { OnOk result (writer.new.tokens
        ≡ writer.old.tokens ++ string_member name.now (word_text word.now)) }
    ensures before { writer.new.before ≡ writer.old.before }
{
    let text = word_text(alloc, word)?;
    write_string(writer, name, &text)
}

// A member whose value is the name of a rule.
fn write_rule(
    writer: &mut Writer,
    reported: &ReportedFile<'_>,
    rule: NfaIndex,
) -> Result<(), AllocError>
    ensures tokens { OnOk result (writer.new.tokens
        ≡ writer.old.tokens ++ rule_member reported.now rule) }
    ensures before { writer.new.before ≡ writer.old.before }
{
    write_string(writer, "rule", reported.name(rule))
}

// The file, and where the text of a rule begins.
fn write_place(
    writer: &mut Writer,
    reported: &ReportedFile<'_>,
    rule: NfaIndex,
) -> Result<(), AllocError>
    ensures tokens { OnOk result (writer.new.tokens
        ≡ writer.old.tokens ++ place_members reported.now rule) }
    ensures before { writer.new.before ≡ writer.old.before }
{
    let Position { line, column } = reported.place(rule);
    write_string(writer, "file", reported.file())?;
    write_number(writer, "line", line)?;
    write_number(writer, "column", column)
}

// The members of a rule that matches the empty text.
fn write_empty(
    writer: &mut Writer,
    reported: &ReportedFile<'_>,
    rule: NfaIndex,
) -> Result<(), AllocError>
    ensures tokens { OnOk result (writer.new.tokens
        ≡ writer.old.tokens ++ empty_members reported.now rule) }
    ensures before { writer.new.before ≡ writer.old.before }
{
    write_place(writer, reported, rule)?;
    write_string(writer, "kind", "matches-empty")?;
    write_rule(writer, reported, rule)
}

// A rule that wins, and the text that it wins.
fn write_winner(
    alloc: Global,
    writer: &mut Writer,
    reported: &ReportedFile<'_>,
    winner: &WonWord,
) -> Result<(), AllocError>
    ensures tokens { OnOk result (writer.new.tokens
        ≡ writer.old.tokens ++ winner_object reported.now winner.now) }
    ensures before { writer.new.before ≡ writer.old.before }
{
    writer.begin_object()?;
    write_rule(writer, reported, winner.by)?;
    write_word(alloc, writer, "text", &winner.word)?;
    writer.end_object()
}

fn write_winners(
    alloc: Global,
    writer: &mut Writer,
    reported: &ReportedFile<'_>,
    winners: &[WonWord],
) -> Result<(), AllocError>
    ensures tokens { OnOk result (writer.new.tokens
        ≡ writer.old.tokens ++ winners_member reported.now winners.now) }
    ensures before { writer.new.before ≡ writer.old.before }
{
    writer.key("winners")?;
    writer.begin_array()?;
    for winner in winners {
        write_winner(alloc, writer, reported, winner)?;
    }
    writer.end_array()
}

// The members of a rule that never wins.
fn write_idle(
    alloc: Global,
    writer: &mut Writer,
    reported: &ReportedFile<'_>,
    mode: Option<&str>,
    idle: &IdleRule,
) -> Result<(), AllocError>
    ensures tokens { OnOk result (writer.new.tokens ≡ writer.old.tokens
        ++ idle_members reported.now (option_map (λ m. m.now) mode.entry) idle.now) }
    ensures before { writer.new.before ≡ writer.old.before }
{
    write_place(writer, reported, idle.rule)?;
    write_string(writer, "kind", "never-wins")?;
    write_rule(writer, reported, idle.rule)?;
    write_mode(writer, mode)?;
    write_winners(alloc, writer, reported, &idle.winners)
}

// A token that some characters after it leave open, if there are any.
fn write_after(
    alloc: Global,
    writer: &mut Writer,
    word: &[u32],
    after: &[u32],
) -> Result<(), AllocError>
    ensures tokens { OnOk result (writer.new.tokens
        ≡ writer.old.tokens ++ after_members word.now after.now) }
    ensures before { writer.new.before ≡ writer.old.before }
{
    if after.is_empty() {
        return Ok(());
    }
    write_word(alloc, writer, "after", word)?;
    write_word(alloc, writer, "when", after)
}

fn write_witness(
    alloc: Global,
    writer: &mut Writer,
    witness: &Option<Witness>,
) -> Result<(), AllocError>
    ensures tokens { OnOk result (writer.new.tokens
        ≡ writer.old.tokens ++ witness_members witness.now) }
    ensures before { writer.new.before ≡ writer.old.before }
{
    match witness {
        Some(found) => write_after(alloc, writer, &found.word, &found.after),
        None => Ok(()),
    }
}

// What one more than the greatest count is.
const PAST_ALL: &str = "18446744073709551616";

// How many characters are read past a token, where this many can leave it open.
fn write_past(writer: &mut Writer, count: usize) -> Result<(), AllocError>
    ensures tokens { OnOk result (writer.new.tokens
        ≡ writer.old.tokens ++ number_member (codes "past") (count + 1)) }
    ensures before { writer.new.before ≡ writer.old.before }
{
    match count.checked_add(1) {
        Some(past) => write_number(writer, "past", past),
        None => {
            writer.key("past")?;
            writer.number(PAST_ALL)
        }
    }
}

// The rules after whose tokens any number of characters is read.
fn write_unbounded(
    writer: &mut Writer,
    reported: &ReportedFile<'_>,
    rules: &[NfaIndex],
) -> Result<(), AllocError>
    ensures tokens { OnOk result (writer.new.tokens
        ≡ writer.old.tokens ++ unbounded_members reported.now rules.now) }
    ensures before { writer.new.before ≡ writer.old.before }
{
    writer.key("past")?;
    writer.null()?;
    writer.key("rules")?;
    writer.begin_array()?;
    for rule in rules {
        writer.string(reported.name(*rule))?;
    }
    writer.end_array()
}

fn write_look(
    alloc: Global,
    writer: &mut Writer,
    reported: &ReportedFile<'_>,
    look: &Look,
) -> Result<(), AllocError>
    ensures tokens { OnOk result (writer.new.tokens
        ≡ writer.old.tokens ++ look_members reported.now look.now) }
    ensures before { writer.new.before ≡ writer.old.before }
{
    match look {
        Look::AtMost { count, witness } => {
            write_past(writer, *count)?;
            write_witness(alloc, writer, witness)
        }
        Look::Unbounded { rules } => write_unbounded(writer, reported, rules),
    }
}

// The members of the automaton of a mode.
fn write_automaton(
    alloc: Global,
    writer: &mut Writer,
    reported: &ReportedFile<'_>,
    mode: Option<&str>,
    review: &ModeReview,
) -> Result<(), AllocError>
    ensures tokens { OnOk result (writer.new.tokens ≡ writer.old.tokens
        ++ automaton_members reported.now (option_map (λ m. m.now) mode.entry) review.now) }
    ensures before { writer.new.before ≡ writer.old.before }
{
    write_string(writer, "file", reported.file())?;
    write_string(writer, "kind", "automaton")?;
    write_mode(writer, mode)?;
    write_number(writer, "least_states", review.least_states)?;
    write_look(alloc, writer, reported, &review.look)
}

// The members of a clash.
fn write_clash(
    alloc: Global,
    writer: &mut Writer,
    reported: &ReportedFile<'_>,
    mode: Option<&str>,
    clash: &Clash,
) -> Result<(), AllocError>
    ensures tokens { OnOk result (writer.new.tokens ≡ writer.old.tokens
        ++ clash_members reported.now (option_map (λ m. m.now) mode.entry) clash.now) }
    ensures before { writer.new.before ≡ writer.old.before }
{
    write_place(writer, reported, clash.match0)?;
    write_string(writer, "kind", "clash")?;
    write_rule(writer, reported, clash.match0)?;
    write_mode(writer, mode)?;
    write_string(writer, "other", reported.name(clash.match1))?;
    write_word(alloc, writer, "text", &clash.word)
}

/// The line of a rule that matches the empty text.
///
/// # Errors
///
/// `AllocError` if a request for memory was refused.
pub(crate) fn empty_object(
    alloc: Global,
    reported: &ReportedFile<'_>,
    rule: NfaIndex,
) -> Result<Vec<u8>, AllocError>
    ensures line { IfOk result (λ line. line.items
        ≡ object_line (empty_members reported.now rule)) }
{
    let mut writer = begun_object(alloc)?;
    write_empty(&mut writer, reported, rule)?;
    ended_line(alloc, writer)
}

/// The line of a rule that never wins in the mode.
///
/// # Errors
///
/// `AllocError` if a request for memory was refused.
pub(crate) fn idle_object(
    alloc: Global,
    reported: &ReportedFile<'_>,
    mode: Option<&str>,
    idle: &IdleRule,
) -> Result<Vec<u8>, AllocError>
    ensures line { IfOk result (λ line. line.items ≡ object_line
        (idle_members reported.now (option_map (λ m. m.now) mode.entry) idle.now)) }
{
    let mut writer = begun_object(alloc)?;
    write_idle(alloc, &mut writer, reported, mode, idle)?;
    ended_line(alloc, writer)
}

/// The line of the automaton of a mode.
///
/// # Errors
///
/// `AllocError` if a request for memory was refused.
pub(crate) fn automaton_object(
    alloc: Global,
    reported: &ReportedFile<'_>,
    mode: Option<&str>,
    review: &ModeReview,
) -> Result<Vec<u8>, AllocError>
    ensures line { IfOk result (λ line. line.items ≡ object_line
        (automaton_members reported.now (option_map (λ m. m.now) mode.entry) review.now)) }
{
    let mut writer = begun_object(alloc)?;
    write_automaton(alloc, &mut writer, reported, mode, review)?;
    ended_line(alloc, writer)
}

/// The line of a clash.
///
/// # Errors
///
/// `AllocError` if a request for memory was refused.
pub(crate) fn clash_object(
    alloc: Global,
    reported: &ReportedFile<'_>,
    mode: Option<&str>,
    clash: &Clash,
) -> Result<Vec<u8>, AllocError>
    ensures line { IfOk result (λ line. line.items ≡ object_line
        (clash_members reported.now (option_map (λ m. m.now) mode.entry) clash.now)) }
{
    let mut writer = begun_object(alloc)?;
    write_clash(alloc, &mut writer, reported, mode, clash)?;
    ended_line(alloc, writer)
}
