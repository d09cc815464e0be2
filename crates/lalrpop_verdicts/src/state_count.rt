//! How many states the smallest automaton has, without its rows.
ghost use Rattle.std.specs.Prelude.{◌≡◌, ℕ, length, IfOk, OnOk};
ghost use Rattle.std.specs.List.{Contains};
ghost use Rattle.lalrpop_dfa.specs.Dfa.{IsWellFormed};
ghost use Rattle.lalrpop_verdicts.specs.Smallest.{IsLeastCount};
ghost use Rattle.lalrpop_verdicts.specs.Internal.Classes.{AreAlikeClasses, AreWithin};
ghost use Rattle.lalrpop_verdicts.specs.Internal.ClassRows.{AreMet, AreNumbered, IsMetClass};
ghost use Rattle.lalrpop_verdicts.specs.Internal.StateWalks.{AreAllLeads, AreAllMet};

use crate::classes::{classes_by, lead_table};
use crate::smallest::Met;
use lalrpop_dfa::{Dfa, DfaStateIndex, START};
use std::alloc::{AllocError, Global};

/// How many states the smallest automaton has that answers each word alike: as many as the result of `minimized` has.
///
/// No row is written, which is much of what `minimized` does where states have many edges.
///
/// Cost: rounds that split the states into classes, at most one for each state, and then one walk over where one state of each
/// class leads.
///
/// # Errors
///
/// `AllocError` if a request for memory was refused.
///
/// ```
/// // After `a` and after `b` a digit is awaited: one state does for both.
/// let regexs = vec![in alloc; parse_regex(alloc, "a[0-9]|b[0-9]")?]?;
/// let dfa = build_dfa(alloc, &regexs, &[Precedence(0)])?;
/// let is_smallest = least_state_count(alloc, &dfa)? == dfa.states().len(); // false
/// ```
pub fn least_state_count(alloc: Global, dfa: &Dfa) -> Result<usize, AllocError>
    ensures least { IfOk result (IsLeastCount dfa.now) }
{
    let table = lead_table(alloc, dfa)?;
    let classes = classes_by(alloc, dfa, &table)?;
    let states = met_states(alloc, dfa, &table, classes)?;
    Ok(states.len())
}

// One state of each class that some word leads into.
fn met_states(
    alloc: Global,
    dfa: &Dfa,
    table: &[Vec<usize>],
    classes: Vec<usize>,
) -> Result<Vec<DfaStateIndex>, AllocError>
    requires leads { AreAllLeads dfa.now table.now }
    requires well_formed { IsWellFormed dfa.now }
    requires classes { AreAlikeClasses dfa.now classes.items }
    ensures met { IfOk result (λ states. AreAllMet dfa.now classes.items states.items) }
{
    let mut met = Met::new(alloc, classes, dfa.states().len())?;
    met.number(START)?;
    let mut place = 0;
    while place < met.states.len() {
        let state = met.states[place];
        number_all(&table[state.index()], &mut met)?;
        place += 1;
    }
    let Met { states, .. } = met;
    Ok(states)
}

// Numbers the classes of these states.
fn number_all(states: &[usize], met: &mut Met) -> Result<(), AllocError>
    requires within { AreWithin states.now (length met.old.classes.items) }
    requires numbered { AreNumbered met.old.classes.items met.old.numbers.items
        met.old.states.items }
    ensures classes { OnOk result (met.new.classes.items ≡ met.old.classes.items) }
    ensures numbered { OnOk result (AreNumbered met.new.classes.items met.new.numbers.items
        met.new.states.items) }
    ensures met { OnOk result (AreMet (Contains states.now)
        met.old.states.items met.new.states.items) }
    ensures all { OnOk result ((q : ℕ) → Contains states.now q
        → IsMetClass met.new.classes.items met.new.states.items q) }
{
    for state in states {
        met.number(DfaStateIndex::new(*state))?;
    }
    Ok(())
}
