//! The classes of characters that an automaton doesn't tell apart, found by comparing where they lead from each state.
ghost use Rattle.std.specs.Prelude.{◌≡◌, ◌+◌, ◌-◌, ◌*◌, ◌^◌, ◌++◌, ◌<◌, ◌≤◌, ℕ, length, replicate, slice_index, MatchBool, MatchOption, IfOk, IfErr, OnOk};
ghost use Rattle.lalrpop_dfa.specs.Dfa.{step};
ghost use Rattle.lalrpop_emit.specs.EmitErrors.{AreToldApart, IsTooLarge, TellsApart};
ghost use Rattle.lalrpop_emit.specs.Internal.Classes.{AreAlike, AreBetweenMarks, AreClassesOf, AreMarks, IsBetweenMarks, IsMarked, IsTableError};

use crate::error::EmitError;
use lalrpop_dfa::{Dfa, DfaStateIndex};
use lalrpop_lexer::lexer::nfa::Test;
use std::alloc::{AllocError, Global};

// All characters are below this.
const END: u32 = 0x11_0000;

// No more classes than these fit.
const MOST: usize = 255;

// The most cells of a table that has a row for each state.
const MOST_CELLS: usize = 1 << 27;

/// The classes of characters.
#[derive(Drop)]
pub(crate) struct CharacterClasses {
    /// The first character of each class.
    pub(crate) firsts: Vec<u32>,
    /// The class of each character.
    pub(crate) classes: Vec<u32>,
}

// Marks the value, if it is a character.
fn mark(marks: &mut [bool], value: u32)
    ensures marked { value < length marks.old → IsMarked marks.new value }
    ensures kept { (c : ℕ) → IsMarked marks.old c → IsMarked marks.new c }
{
    let place = value as usize;
    if place < marks.len() {
        marks[place] = true;
    }
}

// Marks the first value of the range and the one after its last, if they are characters.
fn mark_range(marks: &mut [bool], range: &Test)
    requires all { length marks.old ≡ 1114112 }
    ensures between { IsBetweenMarks marks.new range.now }
    ensures kept { (c : ℕ) → IsMarked marks.old c → IsMarked marks.new c }
{
    mark(marks, range.start());
    if range.end() < END {
        mark(marks, range.end() + 1);
    }
}

// Marks the same of the range of each edge.
fn mark_edges(marks: &mut [bool], edges: &[(Test, DfaStateIndex)])
    requires all { length marks.old ≡ 1114112 }
    ensures between { AreBetweenMarks marks.new edges.now }
    ensures kept { (c : ℕ) → IsMarked marks.old c → IsMarked marks.new c }
{
    for (test, _) in edges {
        mark_range(marks, test);
    }
}

// Marks the same of each state.
fn mark_states(marks: &mut [bool], dfa: &Dfa)
    requires all { length marks.old ≡ 1114112 }
    ensures marks { AreMarks dfa.now marks.new }
{
    for number in 0..dfa.states().len() {
        mark_edges(marks, dfa.test_edges(DfaStateIndex::new(number)));
    }
}

// Each character is marked from which on some state may lead elsewhere.
fn marks_of(alloc: Global, dfa: &Dfa) -> Result<Vec<bool>, AllocError>
    ensures { IfOk result (λ marks. AreMarks dfa.now marks.items) }
{
    let mut marks = vec![in alloc; false; 0x11_0000]?;
    mark_states(&mut marks, dfa);
    Ok(marks)
}

// Up to where, after the value, no character is marked: all of them lead from each state where the value does.
fn alike_end(dfa: &Dfa, marks: &[bool], value: u32) -> u32
    requires marks { AreMarks dfa.now marks.now }
    requires within { value < 1114112 }
    ensures some { value < result }
    ensures most { result ≤ 1114112 }
    ensures alike { (c : ℕ) → value ≤ c → c < result → AreAlike dfa.now c value }
{
    let mut end = value + 1;
    'unmarked: while end < END && !marks[end as usize] {
        end += 1;
    }
    end
}

// Whether both characters lead from each state to one state.
fn are_alike(dfa: &Dfa, one: u32, other: u32) -> bool
    ensures { MatchBool result (AreAlike dfa.now one other) (TellsApart dfa.now one other) }
{
    for number in 0..dfa.states().len() {
        let state = DfaStateIndex::new(number);
        if dfa.step(state, one) != dfa.step(state, other) {
            return false;
        }
    }
    true
}

// The class of the character, if it is like the first one of a class.
fn class_of(dfa: &Dfa, firsts: &[u32], value: u32) -> Option<usize>
    ensures { MatchOption result ((k : ℕ) → k < length firsts.now
        → TellsApart dfa.now (slice_index firsts.now k) value)
        (λ k. (k < length firsts.now) × AreAlike dfa.now value (slice_index firsts.now k)) }
{
    for class in 0..firsts.len() {
        if are_alike(dfa, firsts[class], value) {
            return Some(class);
        }
    }
    None
}

// Appends the class up to the end.
fn push_class(classes: &mut Vec<u32>, class: u32, start: u32, end: u32) -> Result<(), AllocError>
    requires { start ≤ end }
    ensures { OnOk result (classes.new.items ≡ classes.old.items ++ replicate (end - start) class) }
{
    for _ in start..end {
        classes.push(class)?;
    }
    Ok(())
}

// The character in a class: that of one which it is like, or a new one.
fn class_for(dfa: &Dfa, firsts: &mut Vec<u32>, value: u32) -> Result<u32, EmitError>
    requires apart { AreToldApart dfa.now firsts.old.items }
    requires few { length firsts.old.items ≤ 255 }
    requires character { value < 1114112 }
    ensures apart { OnOk result (AreToldApart dfa.now firsts.new.items) }
    ensures few { OnOk result (length firsts.new.items ≤ 255) }
    ensures like { IfOk result (λ class. (class < length firsts.new.items)
        × AreAlike dfa.now value (slice_index firsts.new.items class)) }
    ensures kept { OnOk result ((k : ℕ) → k < length firsts.old.items
        → (k < length firsts.new.items)
        × (slice_index firsts.new.items k ≡ slice_index firsts.old.items k)) }
    ensures error { IfErr result (IsTableError dfa.now) }
{
    if let Some(class) = class_of(dfa, firsts, value) {
        return Ok(class as u32);
    }
    if firsts.len() == MOST {
        return Err(EmitError::NoTable);
    }
    let class = firsts.len();
    firsts.push(value)?;
    Ok(class as u32)
}

// The classes of characters, of which there are 255 at most.
fn character_classes(alloc: Global, dfa: &Dfa) -> Result<CharacterClasses, EmitError>
    ensures classes { IfOk result (AreClassesOf dfa.now) }
    ensures error { IfErr result (IsTableError dfa.now) }
{
    let mut firsts = Vec::new(alloc);
    let mut classes = Vec::new(alloc);
    let marks = marks_of(alloc, dfa)?;
    let mut value = 0;
    'runs: while value < END {
        let end = alike_end(dfa, &marks, value);
        let class = class_for(dfa, &mut firsts, value)?;
        push_class(&mut classes, class, value, end)?;
        value = end;
    }
    Ok(CharacterClasses { firsts, classes })
}

/// Whether a table with a row for each state isn't too large, where the characters have `width` classes.
pub(crate) fn has_room(dfa: &Dfa, width: usize) -> bool
    requires narrow { width ≤ 255 }
    ensures room { MatchBool result (length dfa.now * (width + 131) ≤ 2 ^ 27)
        (2 ^ 27 < length dfa.now * (width + 131)) }
{
    let count = dfa.states().len();
    count <= MOST_CELLS && count * (width + 131) <= MOST_CELLS
}

/// The classes of characters of an automaton that isn't too large for a table.
///
/// # Errors
///
/// `NoTable` if it is; `OutOfMemory` if a request for memory was refused.
pub(crate) fn few_classes(alloc: Global, dfa: &Dfa) -> Result<CharacterClasses, EmitError>
    ensures classes { IfOk result (AreClassesOf dfa.now) }
    ensures room { IfOk result (λ all. length dfa.now * (length all.firsts.items + 131) ≤ 2 ^ 27) }
    ensures small { OnOk result (¬ IsTooLarge dfa.now) }
    ensures error { IfErr result (IsTableError dfa.now) }
{
    if !has_room(dfa, 0) {
        return Err(EmitError::NoTable);
    }
    let classes = character_classes(alloc, dfa)?;
    let width = classes.firsts.len();
    if !has_room(dfa, width) {
        return Err(EmitError::NoTable);
    }
    Ok(classes)
}
