//! An automaton as a text for Graphviz.
ghost use Rattle.std.specs.Prelude.{◌≡◌, ◌∷◌, ◌++◌, ◌<◌, flat_map, filter, chars, length, map, option_map, slice_get, string_bytes, IfOk, IsSomeAnd, OnOk};
ghost use Rattle.std.specs.List.{join_with_byte};
ghost use Rattle.lalrpop_verdicts.specs.Internal.Targets.{with_new};
ghost use Rattle.lalrpop_verdicts.specs.Picture.{accepting_line, as_itself, code_text, dot, edge_line, edges_from, is_coded, is_live, is_live_at, label, name_character, name_text, range_text, ranges_to, row_edges, shortened, state_line, states_from, targets, title_line, value_text};

use lalrpop_dfa::{Dfa, DfaStateIndex, Kind};
use lalrpop_hir::Test;
use std::alloc::{AllocError, Global};
use std::fmt::Write;

// How many ranges of an edge are shown.
const SHOWN: usize = 12;

const HEAD: &str =
    "digraph {\n  rankdir=LR;\n  node [shape=circle];\n  nowhere [shape=none, label=\"\", width=0, height=0];\n  nowhere -> 0;\n";

// `U+` and the value in hexadecimal, of four digits at least.
#[tactic(auto, unfolding(crate::specs::Picture::code_text))]
fn push_code(text: &mut String, value: u32) -> Result<(), AllocError>
    ensures { OnOk result (string_bytes text.new ≡ string_bytes text.old ++ code_text value) }
{
    write!(text, "U+{value:04X}")
}

// A character, escaped if Graphviz reads it in quotes.
#[tactic(auto, unfolding(crate::specs::Picture::as_itself))]
fn push_itself(text: &mut String, c: char) -> Result<(), AllocError>
    ensures { OnOk result (string_bytes text.new ≡ string_bytes text.old ++ as_itself c) }
{
    match c {
        '"' => text.push_str("\\\""),
        '\\' => text.push_str("\\\\"),
        '&' => text.push_str("&amp;"),
        _ => text.push(c),
    }
}

// A value of a class.
#[tactic(auto, unfolding(crate::specs::Picture::value_text))]
fn push_value(text: &mut String, value: u32) -> Result<(), AllocError>
    ensures { OnOk result (string_bytes text.new ≡ string_bytes text.old ++ value_text value) }
{
    match value {
        10 => text.push_str("\\\\n"),
        13 => text.push_str("\\\\r"),
        9 => text.push_str("\\\\t"),
        33..=126 => push_itself(text, value as u8 as char),
        _ => push_code(text, value),
    }
}

// Whether a value is shown by its code.
fn is_coded(value: u32) -> bool
    ensures { result ≡ is_coded value }
{
    !matches!(value, 9 | 10 | 13 | 33..=126)
}

// The values of a range: one; two side by side, if neither is shown by its code; or the first and the last.
#[tactic(auto, unfolding(crate::specs::Picture::range_text))]
fn push_range(text: &mut String, range: &Test) -> Result<(), AllocError>
    ensures { OnOk result (string_bytes text.new ≡ string_bytes text.old ++ range_text range.now) }
{
    let (start, end) = (range.start(), range.end());
    push_value(text, start)?;
    match end.saturating_sub(start) {
        0 => Ok(()),
        1 if !is_coded(start) && !is_coded(end) => push_value(text, end),
        _ => {
            text.push('-')?;
            push_value(text, end)
        }
    }
}

// The ranges of the tests that lead to the state.
fn range_texts(
    alloc: Global,
    tests: &[(Test, DfaStateIndex)],
    to: usize,
) -> Result<Vec<String>, AllocError>
    ensures { IfOk result (λ texts. map string_bytes texts.items
        ≡ map range_text (ranges_to tests.now to)) }
{
    let mut texts = Vec::new(alloc);
    for (range, target) in tests {
        if target.index() == to {
            let mut text = String::new(alloc);
            push_range(&mut text, range)?;
            texts.push(text)?;
        }
    }
    Ok(texts)
}

// Of more than twelve parts, twelve and how many more there are.
#[tactic(auto, unfolding(crate::specs::Picture::shortened))]
fn shorten(alloc: Global, parts: &mut Vec<String>) -> Result<(), AllocError>
    ensures { OnOk result (map string_bytes parts.new.items
        ≡ shortened (map string_bytes parts.old.items)) }
{
    let count = parts.len();
    if count > SHOWN {
        let more = count - SHOWN;
        parts.truncate(SHOWN);
        parts.push(format!(in alloc; "+{more}")?)?;
    }
    Ok(())
}

// Each part with a space in front of it.
fn push_behind(text: &mut String, parts: &[String]) -> Result<(), AllocError>
    ensures { OnOk result (string_bytes text.new
        ≡ string_bytes text.old ++ flat_map (λ part. 32 ∷ part) (map string_bytes parts.now)) }
{
    for part in parts {
        text.push(' ')?;
        text.push_str(part)?;
    }
    Ok(())
}

// The parts with a space between.
fn push_joined(text: &mut String, parts: &[String]) -> Result<(), AllocError>
    ensures { OnOk result (string_bytes text.new
        ≡ string_bytes text.old ++ join_with_byte 32 (map string_bytes parts.now)) }
{
    let Some((first, rest)) = parts.split_first() else {
        return Ok(());
    };
    text.push_str(first)?;
    push_behind(text, rest)?;
    Ok(())
}

// By what a state with these tests and this other edge leads to another one.
#[tactic(auto, unfolding(crate::specs::Picture::label))]
fn push_label(
    alloc: Global,
    text: &mut String,
    tests: &[(Test, DfaStateIndex)],
    other: usize,
    to: usize,
) -> Result<(), AllocError>
    ensures { OnOk result (string_bytes text.new
        ≡ string_bytes text.old ++ label tests.now other to) }
{
    let mut parts = range_texts(alloc, tests, to)?;
    shorten(alloc, &mut parts)?;
    if other == to {
        parts.push(String::from_str(alloc, "other")?)?;
    }
    push_joined(text, &parts)
}

#[tactic(auto, unfolding(crate::specs::Picture::edge_line))]
fn push_edge(
    alloc: Global,
    text: &mut String,
    from: usize,
    tests: &[(Test, DfaStateIndex)],
    other: usize,
    to: usize,
) -> Result<(), AllocError>
    ensures { OnOk result (string_bytes text.new
        ≡ string_bytes text.old ++ edge_line from tests.now other to) }
{
    write!(text, "  {from} -> {to} [label=\"")?;
    push_label(alloc, text, tests, other, to)?;
    text.push_str("\"];\n")
}

fn is_live(kind: &Kind) -> bool
    ensures { result ≡ is_live kind.now }
{
    match kind {
        Kind::Accepts(_) | Kind::Neither => true,
        Kind::Reject => false,
    }
}

// Whether the state doesn't reject.
fn is_live_at(dfa: &Dfa, state: usize) -> bool
    ensures { result ≡ is_live_at dfa.now state }
{
    match dfa.states().get(state) {
        Some(state) => is_live(state.kind()),
        None => false,
    }
}

// Appends the number if it isn't there yet.
fn push_new(numbers: &mut Vec<usize>, number: usize) -> Result<(), AllocError>
    ensures { OnOk result (numbers.new.items ≡ with_new numbers.old.items number) }
{
    if !numbers.contains(&number) {
        numbers.push(number)?;
    }
    Ok(())
}

// Where the edges of a state with these tests and this other edge lead.
fn targets_of(
    alloc: Global,
    tests: &[(Test, DfaStateIndex)],
    other: usize,
) -> Result<Vec<usize>, AllocError>
    ensures { IfOk result (λ found. found.items ≡ targets tests.now other) }
{
    let mut found = Vec::new(alloc);
    for (_, target) in tests {
        push_new(&mut found, target.index())?;
    }
    push_new(&mut found, other)?;
    Ok(found)
}

// The edges to states that don't reject.
fn push_edges(
    alloc: Global,
    text: &mut String,
    dfa: &Dfa,
    from: usize,
    tests: &[(Test, DfaStateIndex)],
    other: usize,
) -> Result<(), AllocError>
    ensures { OnOk result (string_bytes text.new ≡ string_bytes text.old
        ++ flat_map (edge_line from tests.now other)
        (filter (is_live_at dfa.now) (targets tests.now other))) }
{
    let found = targets_of(alloc, tests, other)?;
    for to in &found {
        if is_live_at(dfa, *to) {
            push_edge(alloc, text, from, tests, other, *to)?;
        }
    }
    Ok(())
}

// The edges from the state with this number to states that don't reject.
#[tactic(auto, unfolding(crate::specs::Picture::row_edges))]
fn push_row_edges(
    alloc: Global,
    text: &mut String,
    dfa: &Dfa,
    number: usize,
) -> Result<(), AllocError>
    requires { number < length dfa.now }
    ensures { OnOk result (IsSomeAnd (slice_get dfa.now number) (λ r. string_bytes text.new
        ≡ string_bytes text.old ++ row_edges dfa.now number r)) }
{
    let from = DfaStateIndex::new(number);
    let state = dfa.state(from);
    if !is_live(state.kind()) {
        return Ok(());
    }
    let other = state.other_edge().index();
    push_edges(alloc, text, dfa, number, dfa.test_edges(from), other)
}

fn push_all_edges(alloc: Global, text: &mut String, dfa: &Dfa) -> Result<(), AllocError>
    ensures { OnOk result (string_bytes text.new
        ≡ string_bytes text.old ++ edges_from dfa.now 0 dfa.now) }
{
    for number in 0..dfa.states().len() {
        push_row_edges(alloc, text, dfa, number)?;
    }
    Ok(())
}

// A character of a name.
#[tactic(auto, unfolding(crate::specs::Picture::name_character))]
fn push_name_character(text: &mut String, c: char) -> Result<(), AllocError>
    ensures { OnOk result (string_bytes text.new
        ≡ string_bytes text.old ++ name_character c) }
{
    if c.is_control() {
        push_code(text, u32::from(c))
    } else {
        push_itself(text, c)
    }
}

fn push_characters(text: &mut String, name: &str) -> Result<(), AllocError>
    ensures { OnOk result (string_bytes text.new
        ≡ string_bytes text.old ++ flat_map name_character (chars name.now)) }
{
    for c in name.chars() {
        push_name_character(text, c)?;
    }
    Ok(())
}

// The line of the title, if there is one.
#[tactic(auto, unfolding(crate::specs::Picture::title_line))]
fn push_title(text: &mut String, title: Option<&str>) -> Result<(), AllocError>
    ensures { OnOk result (string_bytes text.new
        ≡ string_bytes text.old ++ title_line (option_map (λ t. t.now) title.entry)) }
{
    let Some(title) = title else {
        return Ok(());
    };
    text.push_str("  label=\"")?;
    push_characters(text, title)?;
    text.push_str("\";\n")
}

// The name of a pattern, or its number if it has none.
#[tactic(auto, unfolding(crate::specs::Picture::name_text))]
fn push_name(text: &mut String, names: &[String], pattern: usize) -> Result<(), AllocError>
    ensures { OnOk result (string_bytes text.new
        ≡ string_bytes text.old ++ name_text (map string_bytes names.now) pattern) }
{
    match names.get(pattern) {
        Some(name) => push_characters(text, name),
        None => write!(text, "{pattern}"),
    }
}

// A state that accepts the pattern.
#[tactic(auto, unfolding(crate::specs::Picture::accepting_line))]
fn push_accepting(
    text: &mut String,
    names: &[String],
    number: usize,
    pattern: usize,
) -> Result<(), AllocError>
    ensures { OnOk result (string_bytes text.new
        ≡ string_bytes text.old ++ accepting_line (map string_bytes names.now) number pattern) }
{
    write!(text, "  {number} [shape=doublecircle, label=\"{number}\\n")?;
    push_name(text, names, pattern)?;
    text.push_str("\"];\n")?;
    Ok(())
}

#[tactic(auto, unfolding(crate::specs::Picture::state_line))]
fn push_state(
    text: &mut String,
    names: &[String],
    number: usize,
    kind: &Kind,
) -> Result<(), AllocError>
    ensures { OnOk result (string_bytes text.new
        ≡ string_bytes text.old ++ state_line (map string_bytes names.now) number kind.now) }
{
    match kind {
        Kind::Reject => Ok(()),
        Kind::Neither => write!(text, "  {number};\n"),
        Kind::Accepts(pattern) => push_accepting(text, names, number, pattern.index()),
    }
}

fn push_states(text: &mut String, names: &[String], dfa: &Dfa) -> Result<(), AllocError>
    ensures { OnOk result (string_bytes text.new
        ≡ string_bytes text.old ++ states_from (map string_bytes names.now) 0 dfa.now) }
{
    for (number, state) in dfa.states().iter().enumerate() {
        push_state(text, names, number, state.kind())?;
    }
    Ok(())
}

/// The automaton as a text for Graphviz (`dot -Tsvg`), with its title, if it has one. A circle with its number stands for each
/// state that doesn't reject, a double circle for one that accepts a pattern, with the pattern's name, or its number if it has
/// none. An arrow from nowhere leads to state 0, which Graphviz draws even if it rejects. Edges to states that reject are left
/// out, and the edges from one state to another are one arrow.
///
/// An arrow says the ranges of values by which it leads on, as in a class, ascending: `a-z`, `a`, or `ab` for two values. `\n`,
/// `\r` and `\t` stand for line feed, carriage return and tab, and `U+00E9` for what isn't ASCII, or isn't seen: two values of
/// which one is such a code have a dash between, as `U+2028-U+2029`. Of more than twelve ranges an arrow says twelve, and how
/// many more there are, as `+3`. `other` are all values that no range of the state has, whether it is shown or leads to a state
/// that rejects.
///
/// ```
/// use lalrpop_verdicts::dot;
///
/// let text = dot(alloc, Some("words"), &dfa, lexer.names())?;
/// // digraph {
/// //   ..
/// //   label="words";
/// //   0;
/// //   1 [shape=doublecircle, label="1\nword"];
/// //   0 -> 1 [label="a-z"];
/// //   1 -> 1 [label="a-z"];
/// // }
/// ```
///
/// # Errors
///
/// `AllocError` if a request for memory was refused.
#[tactic(auto, unfolding(crate::specs::Picture::dot))]
pub fn dot(
    alloc: Global,
    title: Option<&str>,
    dfa: &Dfa,
    names: &[String],
) -> Result<String, AllocError>
    ensures text { IfOk result (λ text. string_bytes text
        ≡ dot (option_map (λ t. t.now) title.entry) (map string_bytes names.now) dfa.now) }
{
    let mut text = String::from_str(alloc, HEAD)?;
    push_title(&mut text, title)?;
    push_states(&mut text, names, dfa)?;
    push_all_edges(alloc, &mut text, dfa)?;
    text.push_str("}\n")?;
    Ok(text)
}
