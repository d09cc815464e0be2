//! Numbers for the names of modes.
ghost use Rattle.std.specs.Prelude.{◌≡◌, ℕ, List, [], ◌∷◌, length, map, Contains, IfOk, IfErr, IfSome, IfNone, OnOk};
ghost use Rattle.std.specs.List.{range_with_len};
ghost use Rattle.lalrpop_rule_file.specs.FileModes.{AllLeadWithin, AreActions, AreModes, AreNumbers, IsAction, IsNumber, LeadsWithin, named_by};
ghost use Rattle.lalrpop_rule_file.specs.Internal.Values.{section_of, written_of};
ghost use Rattle.lalrpop_rule_file.specs.Internal.Lines.{AllIn, IsFirstMissing, names_in};

use crate::written::{Entry, Section, WrittenAction};
use bajofeki_rules::Action;
use std::alloc::{AllocError, Global};

/// The number of the mode with this name, if it is one of these.
pub(crate) fn number_of(modes: &[&str], name: &str) -> Option<usize>
    ensures some { IfSome result (λ n. IsNumber (names_in modes.now) name.now n) }
    ensures none { IfNone result (¬ Contains (names_in modes.now) name.now) }
{
    for index in 0..modes.len() {
        if modes[index] == name {
            return Some(index);
        }
    }
    None
}

/// The numbers of those of the names that are modes.
pub(crate) fn numbers_of(
    alloc: Global,
    modes: &[&str],
    names: &[&str],
) -> Result<Vec<usize>, AllocError>
    ensures numbers { IfOk result (λ all. AllIn (names_in modes.now) (names_in names.now)
        → AreNumbers (names_in modes.now) (names_in names.now) all.items) }
{
    let mut all = Vec::new(alloc);
    for name in names {
        if let Some(number) = number_of(modes, name) {
            all.push(number)?;
        }
    }
    Ok(all)
}

// The numbers below this one.
fn numbers_below(alloc: Global, count: usize) -> Result<Vec<usize>, AllocError>
    ensures numbers { IfOk result (λ all. all.items ≡ range_with_len 0 count) }
{
    let mut all = Vec::new(alloc);
    for number in 0..count {
        all.push(number)?;
    }
    Ok(all)
}

/// The numbers of the modes of a section.
pub(crate) fn section_numbers(
    alloc: Global,
    modes: &[&str],
    section: &Section<'_>,
) -> Result<Vec<usize>, AllocError>
    ensures modes { IfOk result (λ all.
        AllIn (names_in modes.now) (named_by (section_of section.now))
        → AreModes (names_in modes.now) (section_of section.now) all.items) }
{
    match section {
        Section::These(names) => numbers_of(alloc, modes, names),
        Section::Every => numbers_below(alloc, modes.len()),
    }
}

// The line from the name of the mode on that the action leads into, if it isn't one of the modes.
fn missing_in<'text>(modes: &[&str], action: &WrittenAction<'text>) -> Option<&'text str>
    ensures some { IfSome result (λ here.
        IsFirstMissing (names_in modes.now) (action.now ∷ []) here.now) }
    ensures none { IfNone result (LeadsWithin (names_in modes.now) (written_of action.now)) }
{
    match action {
        WrittenAction::Enter {
            entry: _,
            mode,
            here,
        } => {
            if number_of(modes, mode).is_none() {
                return Some(here);
            }
            None
        }
        WrittenAction::Pop => None,
    }
}

/// The line from the name of the first mode in these actions that isn't one of the modes.
pub(crate) fn missing_mode<'text>(
    modes: &[&str],
    actions: &[WrittenAction<'text>],
) -> Option<&'text str>
    ensures some { IfSome result (λ here.
        IsFirstMissing (names_in modes.now) actions.now here.now) }
    ensures none { IfNone result
        (AllLeadWithin (names_in modes.now) (map written_of actions.now)) }
{
    for action in actions {
        if let Some(here) = missing_in(modes, action) {
            return Some(here);
        }
    }
    None
}

// The action with the number of its mode.
fn action_with_number(modes: &[&str], action: &WrittenAction<'_>) -> Action
    requires { LeadsWithin (names_in modes.now) (written_of action.now) }
    ensures { IsAction (names_in modes.now) (written_of action.now) result }
{
    match action {
        WrittenAction::Enter {
            entry,
            mode,
            here: _,
        } => match number_of(modes, mode) {
            Some(number) => match entry {
                Entry::Mode => Action::Mode(number),
                Entry::Push => Action::Push(number),
            },
            None => unreachable!(),
        },
        WrittenAction::Pop => Action::Pop,
    }
}

/// The actions with the numbers of their modes.
pub(crate) fn actions_with_numbers(
    alloc: Global,
    modes: &[&str],
    actions: &[WrittenAction<'_>],
) -> Result<Vec<Action>, AllocError>
    requires { AllLeadWithin (names_in modes.now) (map written_of actions.now) }
    ensures actions { IfOk result (λ all.
        AreActions (names_in modes.now) (map written_of actions.now) all.items) }
{
    let mut all = Vec::new(alloc);
    for action in actions {
        all.push(action_with_number(modes, action))?;
    }
    Ok(all)
}
